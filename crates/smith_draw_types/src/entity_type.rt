ghost use Rattle.std.specs.Prelude.{◌≡◌, ◌≤◌, ◌/◌, ◌^◌, ◌⊎◌, ◌||◌, Bool, IsTrue, IfSome, IsOk};
ghost use Rattle.std.specs.Prelude.{IfOk};
ghost use Rattle.smith_types.specs.Entities.{IsMemoryValid, page_log2};
ghost use Rattle.smith_config.specs.Features.{features_of};
ghost use Rattle.smith_draw_types.specs.Callers.{PassesButImports};
ghost use Rattle.smith_draw_types.specs.Drawing.{AlwaysDraws, Draws};
ghost use Rattle.smith_config.specs.EntityBounds.{IsMemoryWithin};
ghost use Rattle.smith_draw_types.specs.Memories.{shared_memory_at, memory64_at, stated_page_at};
ghost use Rattle.smith_draw_types.specs.Memories.{page_size_at, least_pages, drawn_pages, likely_pages};
ghost use Rattle.smith_draw_types.specs.Memories.{memtype_at};

use crate::limits::arbitrary_limits64;
use smith_bytes::{Error, Unstructured};
use smith_config::Config;
use smith_types::MemoryType;

const GIBIBYTE: u64 = 1 << 30;

#[tactic(auto, unfolding(crate::specs::Memories::shared_memory_at))]
fn is_memory_shared(config: &Config, u: &mut Unstructured<'_>) -> bool
    ensures draws { AlwaysDraws (shared_memory_at config.now u.old) result u.old u.new }
    ensures enabled { IsTrue result → IsTrue config.now.threads_enabled }
{
    if config.threads_enabled {
        return u.ratio(1u32, 4);
    }
    false
}

#[tactic(auto, unfolding(crate::specs::Memories::memory64_at))]
pub(crate) fn draw_memory64(config: &Config, u: &mut Unstructured<'_>) -> bool
    ensures draws { AlwaysDraws (memory64_at config.now u.old) result u.old u.new }
    ensures enabled { IsTrue result → IsTrue config.now.memory64_enabled }
{
    if config.memory64_enabled {
        return u.arbitrary();
    }
    false
}

#[tactic(auto, unfolding(crate::specs::Memories::stated_page_at))]
fn draw_stated_page(u: &mut Unstructured<'_>) -> Option<u32>
    ensures draws { AlwaysDraws (stated_page_at u.old) result u.old u.new }
    ensures sizes { IfSome result (λ log2. (log2 ≡ 0) ⊎ (log2 ≡ 16)) }
{
    if u.arbitrary() {
        return Some(0);
    }
    Some(16)
}

#[tactic(auto, unfolding(crate::specs::Memories::page_size_at))]
fn draw_page_size(config: &Config, u: &mut Unstructured<'_>) -> Option<u32>
    ensures draws { AlwaysDraws (page_size_at config.now u.old) result u.old u.new }
    ensures small { page_log2 result ≤ 16 }
    ensures sizes { IfSome result (λ log2.
        ((log2 ≡ 0) ⊎ (log2 ≡ 16)) × IsTrue config.now.custom_page_sizes_enabled) }
{
    if !config.custom_page_sizes_enabled {
        return None;
    }
    if !u.arbitrary::<bool>() {
        return None;
    }
    draw_stated_page(u)
}

/// Returns the number of whole pages in `bytes` bytes. `page_size` is the binary logarithm of the
/// page size, at most 16; `None` means 16.
fn pages_in(bytes: u128, page_size: Option<u32>) -> u128
    requires { page_log2 page_size ≤ 16 }
    ensures { result ≡ bytes / 2 ^ page_log2 page_size }
{
    bytes / (1 << page_size.unwrap_or(16))
}

/// Returns the maximum number of pages of a drawn memory: those that fit in the bytes that `config`
/// permits, but at least 1 with `disallow_traps`.
#[tactic(auto, unfolding(crate::specs::Memories::drawn_pages))]
fn drawn_pages(config: &Config, memory64: bool, page_size: Option<u32>) -> u64
    requires { page_log2 page_size ≤ 16 }
    ensures exact { result ≡ drawn_pages config.now memory64 page_size }
    ensures some { least_pages config.now ≤ result }
{
    let least = u128::from(config.disallow_traps);
    let bytes = if memory64 {
        config.max_memory64_bytes
    } else {
        u128::from(config.max_memory32_bytes)
    };
    let last_address = if memory64 {
        u128::from(u64::MAX)
    } else {
        u128::from(u32::MAX)
    };
    pages_in(bytes, page_size).max(least).min(last_address) as u64
}

/// Returns the upper bound of likely numbers of pages: at most `most`, and such that all memories
/// that `config` permits take 1 GiB together.
#[tactic(auto, unfolding(crate::specs::Memories::likely_pages))]
fn likely_pages(config: &Config, most: u64, page_size: Option<u32>) -> u64
    requires size { page_log2 page_size ≤ 16 }
    requires some { least_pages config.now ≤ most }
    ensures exact { (memory64 : Bool) → most ≡ drawn_pages config.now memory64 page_size
        → result ≡ likely_pages config.now memory64 page_size }
    ensures above { least_pages config.now ≤ result }
    ensures within { result ≤ most }
{
    let share = GIBIBYTE / (config.max_memories.max(1) as u64);
    let least = u128::from(config.disallow_traps);
    pages_in(u128::from(share), page_size)
        .max(least)
        .min(u128::from(most)) as u64
}

/// Returns whether a memory, `shared` or not, has a maximum without a draw.
fn needs_maximum(config: &Config, shared: bool) -> bool
    ensures { result ≡ (config.now.memory_max_size_required || shared) }
{
    config.memory_max_size_required || shared
}

#[tactic(auto, unfolding(crate::specs::Memories::memtype_at))]
fn draw_memory_type(config: &Config, u: &mut Unstructured<'_>) -> MemoryType
    ensures draws { AlwaysDraws (memtype_at config.now u.old) result u.old u.new }
    ensures valid { PassesButImports config.now → IsMemoryValid (features_of config.now) result }
    ensures within { IsMemoryWithin config.now result }
{
    let shared = is_memory_shared(config, u);
    let memory64 = draw_memory64(config, u);
    let page_size_log2 = draw_page_size(config, u);
    let most = drawn_pages(config, memory64, page_size_log2);
    let inbounds = likely_pages(config, most, page_size_log2);
    let least = u64::from(config.disallow_traps);
    let required = needs_maximum(config, shared);
    let (minimum, maximum) = arbitrary_limits64(least, most, required, inbounds, u);
    MemoryType {
        minimum,
        maximum,
        memory64,
        shared,
        page_size_log2,
    }
}

/// Draws a memory type. See the standard, section Structure, Memory Types.
///
/// Its limits, in pages, stay within the bytes that `config` permits, except for a single page with
/// `disallow_traps`.
///
/// The memory type is valid if `config` passes its check, possibly except for the pair of
/// `min_imports` and `max_imports`.
///
/// Always returns `Ok`, since it does not allocate. All draws of entities return a `Result`.
pub fn arbitrary_memtype(config: &Config, u: &mut Unstructured<'_>) -> Result<MemoryType, Error>
    ensures ok { IsOk result }
    ensures draws { Draws (memtype_at config.now u.old) result u.old u.new }
    ensures valid { PassesButImports config.now
        → IfOk result (IsMemoryValid (features_of config.now)) }
    ensures within { IfOk result (IsMemoryWithin config.now) }
{
    Ok(draw_memory_type(config, u))
}
