ghost use Rattle.std.specs.Prelude.{◌≡◌, Some, false, true, ◌<◌, ◌≤◌, ◌-◌, [], ◌∷◌, length, IfOk};
ghost use Rattle.std.specs.Prelude.{IfErr, IfSome};
ghost use Rattle.smith_bytes.specs.Source.{KeepsPieces};
ghost use Rattle.smith_types.specs.Entities.{addresses, page_log2};
ghost use Rattle.smith_instr.specs.Contexts.{IsValid};
ghost use Rattle.smith_instr.specs.MemoryTypes.{IsAccess, stored};
ghost use Rattle.smith_body_memory.specs.MemoryChoices.{growth_node, load_at, memory_at, store_at};
ghost use Rattle.smith_body_memory.specs.MemoryChoices.{store_node};
ghost use Rattle.smith_body_nodes.specs.Chosen.{or_nop};
ghost use Rattle.smith_body_nodes.specs.Chosen.{giving};
ghost use Rattle.smith_body_memory.specs.Accesses.{access_at, bytes_of, most_bytes, offset_at};
ghost use Rattle.smith_body_memory.specs.Accesses.{place_at};
ghost use Rattle.smith_body_nodes.specs.Nodes.{IsNode, IsOffer};
ghost use Rattle.smith_body_nodes.specs.Offered.{chunk_at, is_addressed};
ghost use Rattle.smith_body_memory.specs.MemoryRows.{loads_of, stores};
ghost use Rattle.smith_body_nodes.specs.Scopes.{IsScope, bare, indexed, where_stands};

use smith_body_nodes::{
    Draft, Node, Offer, Scope, address, choose_in_chunk, indexed_count, is_address, plain,
};
use smith_bytes::{Error, Unstructured};
use smith_config::MemoryOffsetChoices;
use smith_instr::{Instr, Load, MemArg, MemoryInstr, Store};
use smith_types::{MemoryType, ValType};
use std::alloc::Global;

/// Lists the loads that produce a value of the type `wanted`.
fn loads_of<'a>(wanted: ValType) -> &'a [Load]
    ensures { result.now ≡ loads_of wanted }
{
    match wanted {
        ValType::I32 => &[
            Load::I32,
            Load::I32From8S,
            Load::I32From8U,
            Load::I32From16S,
            Load::I32From16U,
        ],
        ValType::I64 => &[
            Load::I64,
            Load::I64From8S,
            Load::I64From8U,
            Load::I64From16S,
            Load::I64From16U,
            Load::I64From32S,
            Load::I64From32U,
        ],
        ValType::F32 => &[Load::F32],
        ValType::F64 => &[Load::F64],
        ValType::V128 | ValType::Ref(_) => &[],
    }
}

fn stores<'a>() -> &'a [Store]
    ensures { result.now ≡ stores }
{
    &[
        Store::I32,
        Store::I64,
        Store::F32,
        Store::F64,
        Store::I32To8,
        Store::I32To16,
        Store::I64To8,
        Store::I64To16,
        Store::I64To32,
    ]
}

/// The memory, offset and alignment of an access, and whether its addresses have 64 bits.
#[derive(Clone, Copy)]
pub(crate) struct Access {
    /// The memory, the offset and the alignment.
    pub at: MemArg,
    /// Whether the addresses of the memory have 64 bits.
    pub wide: bool,
}

/// Draws an access to one of the memories, with an alignment of at most `2 ^ log2_bytes`. Returns
/// `None` if there is no memory.
pub(crate) fn draw_access(
    scope: &Scope<'_>,
    log2_bytes: u32,
    u: &mut Unstructured<'_>,
) -> Option<Access>
    requires scope { IsScope (bare scope.now) }
    ensures exact { access_at scope.now.config.now scope.now.memories.now log2_bytes u.old
        ≡ (result, u.new) }
    ensures access { IfSome result (λ access.
        IsAccess scope.now.memories.now access.at access.wide) }
    ensures aligned { IfSome result (λ access. access.at.align ≤ log2_bytes) }
    ensures left { KeepsPieces u.old u.new }
{
    let count = indexed_count(scope.memories.len());
    if count == 0 {
        return None;
    }
    let index = u.int_in_range(0..=count - 1);
    let align = u.int_in_range(0..=log2_bytes);
    let memory = scope.memories[index];
    let offset = draw_offset(scope.config.memory_offset_choices, memory, u);
    Some(Access {
        at: MemArg {
            align,
            offset,
            memory: index as u32,
        },
        wide: memory.memory64,
    })
}

/// Draws an offset of `memory` by the weights `choices`: below its minimum size in bytes, from
/// there to its maximum size, or past it.
#[tactic(auto, unfolding(crate::specs::Accesses::offset_at))]
fn draw_offset(choices: MemoryOffsetChoices, memory: MemoryType, u: &mut Unstructured<'_>) -> u64
    requires { page_log2 memory.page_size_log2 ≤ 16 }
    ensures exact { offset_at choices memory u.old ≡ (result, u.new) }
    ensures offset { result ≤ addresses memory.memory64 - 1 }
    ensures left { KeepsPieces u.old u.new }
{
    let below = u64::from(choices.0);
    let between = below + u64::from(choices.1);
    let all = between + u64::from(choices.2);
    let drawn = u.int_in_range(0..=all.saturating_sub(1));
    if drawn < below {
        return draw_place(memory, 0, bytes_of(memory, memory.minimum), u);
    }
    let most = most_bytes(memory);
    if drawn < between {
        return draw_place(memory, bytes_of(memory, memory.minimum), most, u);
    }
    draw_place(memory, most, addresses(memory), u)
}

/// Draws an address of `memory` from `first` on and before `end`. The address is `first` if `end`
/// is not past it, and at most the last address.
#[tactic(auto, unfolding(crate::specs::Accesses::place_at))]
fn draw_place(memory: MemoryType, first: u128, end: u128, u: &mut Unstructured<'_>) -> u64
    ensures exact { place_at memory first end u.old ≡ (result, u.new) }
    ensures offset { result ≤ addresses memory.memory64 - 1 }
    ensures left { KeepsPieces u.old u.new }
{
    let last = last_address(memory);
    let first = first.min(u128::from(last)) as u64;
    let end = end.saturating_sub(1).min(u128::from(last)) as u64;
    u.int_in_range(first..=first.max(end))
}

/// Returns the maximum number of bytes of `memory`.
fn most_bytes(memory: MemoryType) -> u128
    requires { page_log2 memory.page_size_log2 ≤ 16 }
    ensures { result ≡ most_bytes memory }
{
    match memory.maximum {
        Some(pages) => bytes_of(memory, pages),
        None => addresses(memory),
    }
}

/// Returns the number of bytes of `pages` of `memory`.
fn bytes_of(memory: MemoryType, pages: u64) -> u128
    requires { page_log2 memory.page_size_log2 ≤ 16 }
    ensures { result ≡ bytes_of memory pages }
{
    u128::from(pages) * (1 << memory.page_size_log2.unwrap_or(16))
}

fn addresses(memory: MemoryType) -> u128
    ensures { result ≡ addresses memory.memory64 }
{
    if memory.memory64 { 1 << 64 } else { 1 << 32 }
}

fn last_address(memory: MemoryType) -> u64
    ensures { result ≡ addresses memory.memory64 - 1 }
{
    if memory.memory64 {
        u64::MAX
    } else {
        u64::from(u32::MAX)
    }
}

/// Memories whose addresses have a wanted type.
#[derive(Clone, Copy)]
struct AddressOffer<'a> {
    scope: &'a Scope<'a>,
    wanted: ValType,
}

impl<'a> Offer for AddressOffer<'a> {
    ghost use Rattle.std.specs.Prelude.{length};
    ghost use Rattle.smith_body_nodes.specs.Offered.{is_addressed};
    ghost use Rattle.smith_body_nodes.specs.Scopes.{bare, indexed};

    ghost ready = { λ self. Unit {0} };

    ghost size = { λ self. indexed (length self.scope.now.memories.now) };

    ghost test = { λ self index. is_addressed (bare self.scope.now) self.wanted index };

    fn count(&self) -> usize {
        indexed_count(self.scope.memories.len())
    }

    fn is_offered(&self, index: usize) -> bool {
        is_address(self.wanted, self.scope.memories[index].memory64)
    }
}

/// Chooses a memory of a drawn chunk whose addresses have the type `wanted`, if there is one.
fn choose_addressed(scope: &Scope<'_>, wanted: ValType, u: &mut Unstructured<'_>) -> Option<u32>
    requires scope { IsScope (bare scope.now) }
    ensures exact { chunk_at (is_addressed (bare scope.now) wanted)
        (indexed (length scope.now.memories.now)) u.old
        ≡ (result, u.new) }
    ensures below { IfSome result (λ index. index < length scope.now.memories.now) }
    ensures offered { IfSome result (λ index. is_addressed (bare scope.now) wanted index ≡ true) }
    ensures left { KeepsPieces u.old u.new }
{
    let index = choose_in_chunk(&AddressOffer { scope, wanted }, u)?;
    Some(index as u32)
}

/// Chooses a load that produces a value of the type `wanted`, if there is one.
pub fn choose_load(
    alloc: Global,
    scope: &Scope<'_>,
    wanted: ValType,
    draft: &Draft,
    u: &mut Unstructured<'_>,
) -> Result<Option<Node>, Error>
    requires scope { IsScope (bare scope.now) }
    requires wanted { IsValid (bare scope.now) wanted }
    ensures exact { IfOk result (λ chosen.
        load_at scope.now.config.now (where_stands scope.now draft.now) wanted u.old
        ≡ (chosen, u.new)) }
    ensures offer { IsOffer (where_stands scope.now draft.now) draft.now.set.items
        (wanted ∷ []) result }
    ensures memory { IfErr result (λ e. e ≡ Error.Memory) }
    ensures left { KeepsPieces u.old u.new }
{
    let rows = loads_of(wanted);
    if rows.len() == 0 {
        return Ok(None);
    }
    let op = rows[u.int_in_range(0..=rows.len() - 1)];
    let Some(access) = draw_access(scope, op.log2_bytes(), u) else {
        return Ok(None);
    };
    let node = plain(
        alloc,
        &[address(access.wide)],
        Instr::Load(op, access.at),
        0,
    )?;
    Ok(Some(node))
}

/// Chooses a store, or `nop` if there is no memory.
pub fn choose_store(
    alloc: Global,
    scope: &Scope<'_>,
    draft: &Draft,
    u: &mut Unstructured<'_>,
) -> Result<Node, Error>
    requires scope { IsScope (bare scope.now) }
    ensures exact { IfOk result (λ node.
        or_nop (store_at scope.now.config.now (where_stands scope.now draft.now) u.old)
        ≡ (node, u.new)) }
    ensures node { IfOk result (IsNode (where_stands scope.now draft.now) draft.now.set.items []) }
    ensures memory { IfErr result (λ e. e ≡ Error.Memory) }
    ensures left { KeepsPieces u.old u.new }
{
    let rows = stores();
    store_of(alloc, scope, rows[u.int_in_range(0..=8usize)], draft, u)
}

fn store_of(
    alloc: Global,
    scope: &Scope<'_>,
    op: Store,
    draft: &Draft,
    u: &mut Unstructured<'_>,
) -> Result<Node, Error>
    requires scope { IsScope (bare scope.now) }
    ensures exact { IfOk result (λ node. or_nop (giving (store_node op) (access_at
        scope.now.config.now (where_stands scope.now draft.now).memories (stored op).1 u.old))
        ≡ (node, u.new)) }
    ensures node { IfOk result (IsNode (where_stands scope.now draft.now) draft.now.set.items []) }
    ensures memory { IfErr result (λ e. e ≡ Error.Memory) }
    ensures left { KeepsPieces u.old u.new }
{
    let Some(access) = draw_access(scope, op.log2_bytes(), u) else {
        return plain(alloc, &[], Instr::Nop, 0);
    };
    let operands = [address(access.wide), op.value()];
    plain(alloc, &operands, Instr::Store(op, access.at), 0)
}

/// Chooses `memory.size` or `memory.grow` of a memory whose addresses have the type `wanted`, if
/// there is one.
pub fn choose_memory(
    alloc: Global,
    scope: &Scope<'_>,
    wanted: ValType,
    draft: &Draft,
    u: &mut Unstructured<'_>,
) -> Result<Option<Node>, Error>
    requires scope { IsScope (bare scope.now) }
    ensures exact { IfOk result (λ chosen.
        memory_at (where_stands scope.now draft.now) wanted u.old ≡ (chosen, u.new)) }
    ensures offer { IsOffer (where_stands scope.now draft.now) draft.now.set.items
        (wanted ∷ []) result }
    ensures memory { IfErr result (λ e. e ≡ Error.Memory) }
    ensures left { KeepsPieces u.old u.new }
{
    let Some(index) = choose_addressed(scope, wanted, u) else {
        return Ok(None);
    };
    if u.arbitrary() {
        return choose_growth(alloc, scope, wanted, index, draft);
    }
    choose_size(alloc, scope, wanted, index, draft)
}

fn choose_growth(
    alloc: Global,
    scope: &Scope<'_>,
    wanted: ValType,
    index: u32,
    draft: &Draft,
) -> Result<Option<Node>, Error>
    requires addressed { is_addressed (bare scope.now) wanted index ≡ true }
    ensures exact { IfOk result (λ chosen. chosen ≡ Some (growth_node wanted index true)) }
    ensures offer { IsOffer (where_stands scope.now draft.now) draft.now.set.items
        (wanted ∷ []) result }
    ensures memory { IfErr result (λ e. e ≡ Error.Memory) }
{
    let node = plain(alloc, &[wanted], Instr::Memory(MemoryInstr::Grow(index)), 0)?;
    Ok(Some(node))
}

fn choose_size(
    alloc: Global,
    scope: &Scope<'_>,
    wanted: ValType,
    index: u32,
    draft: &Draft,
) -> Result<Option<Node>, Error>
    requires addressed { is_addressed (bare scope.now) wanted index ≡ true }
    ensures exact { IfOk result (λ chosen. chosen ≡ Some (growth_node wanted index false)) }
    ensures offer { IsOffer (where_stands scope.now draft.now) draft.now.set.items
        (wanted ∷ []) result }
    ensures memory { IfErr result (λ e. e ≡ Error.Memory) }
{
    let node = plain(alloc, &[], Instr::Memory(MemoryInstr::Size(index)), 0)?;
    Ok(Some(node))
}
