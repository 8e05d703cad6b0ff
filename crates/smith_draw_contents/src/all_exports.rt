ghost use Rattle.std.specs.Prelude.{◌≡◌, ◌<◌, ◌≤◌, ◌+◌, length, slice_get, IfOk, IfErr};
ghost use Rattle.smith_bytes.specs.Source.{KeepsPieces};
ghost use Rattle.smith_types.specs.Exports.{AreExportsValid};
ghost use Rattle.smith_types.specs.EntitySpaces.{spaces_in};
ghost use Rattle.smith_bytes.specs.Steps.{ReturnsWhy};
ghost use Rattle.smith_module_rules.specs.ExportedItems.{exported_size, every_item, AreAllExported};
ghost use Rattle.smith_draw_contents.specs.Exported.{IsIndexed, MayExport, AreExportsFit, MayRefuseAll};
ghost use Rattle.smith_draw_contents.specs.AllExports.{everything_at};

use crate::export_names::draw_export_name;
use crate::exports_so_far::{Exports, item_size};
use smith_bytes::{Error, Unstructured, Why};
use smith_config::Config;
use smith_types::{EntitySpaces, ExportKind, Items, TypeSpace};
use std::alloc::Global;
use std::collections::HashSet;

/// Counts the functions, tables, memories, globals and tags of `spaces` together.
fn count_items(spaces: &EntitySpaces) -> usize
    requires { IsIndexed (spaces_in spaces.now) }
    ensures { result ≡ length (every_item (spaces_in spaces.now)) }
{
    spaces.funcs.len()
        + spaces.tables.len()
        + spaces.memories.len()
        + spaces.globals.len()
        + spaces.tags.len()
}

/// Finds the item at `place` among all items of `spaces`: functions first, then tables, memories,
/// globals and tags, each by index.
fn item_at(spaces: &EntitySpaces, place: usize) -> (ExportKind, u32)
    requires few { IsIndexed (spaces_in spaces.now) }
    requires within { place < length (every_item (spaces_in spaces.now)) }
    ensures { slice_get (every_item (spaces_in spaces.now)) place ≡ Some result }
{
    let tables = spaces.funcs.len();
    let memories = tables + spaces.tables.len();
    let globals = memories + spaces.memories.len();
    let tags = globals + spaces.globals.len();
    if place < tables {
        return (ExportKind::Func, place as u32);
    }
    if place < memories {
        return (ExportKind::Table, (place - tables) as u32);
    }
    if place < globals {
        return (ExportKind::Memory, (place - memories) as u32);
    }
    if place < tags {
        return (ExportKind::Global, (place - globals) as u32);
    }
    (ExportKind::Tag, (place - tags) as u32)
}

/// Draws an export of each item of `spaces`, in order. Fails if imports and exports together exceed
/// the maximum type size.
#[tactic(auto, unfolding(crate::specs::AllExports::everything_at))]
fn push_exports(
    alloc: Global,
    config: &Config,
    types: &TypeSpace,
    spaces: &EntitySpaces,
    imports_size: u32,
    u: &mut Unstructured<'_>,
) -> Result<Exports, Error>
    requires may { MayExport types.now.types (spaces_in spaces.now) }
    requires within { imports_size ≤ config.now.max_type_size }
    ensures exact { ReturnsWhy (λ made. (made.exports, u.new)) result
        (everything_at config.now types.now.types (spaces_in spaces.now) imports_size u.old) }
    ensures fit { IfOk result (λ made. AreExportsFit config.now types.now.types
        (spaces_in spaces.now) imports_size made.exports made.type_size) }
    ensures everything { IfOk result (λ made. AreAllExported (spaces_in spaces.now) made.exports) }
    ensures refusal { IfErr result MayRefuseAll }
    ensures left { KeepsPieces u.old u.new }
{
    let count = count_items(spaces);
    let mut exports = Items::with_capacity(alloc, count)?;
    let mut names = HashSet::new(alloc);
    let mut type_size = imports_size;
    for place in 0..count {
        let (kind, index) = item_at(spaces, place);
        let left = config.max_type_size - type_size;
        let name = draw_export_name(alloc, &mut names, u)?;
        let size = item_size(types, spaces, kind, index) + 1;
        if size > left {
            return Err(Error::IncorrectFormat(Why::TypeSize));
        }
        type_size += size;
        exports.push((name, kind, index))?;
    }
    Ok(Exports { exports, type_size })
}

/// Draws an export of every item of `spaces`. The imports add `imports_size` to the type size.
pub(crate) fn export_everything(
    alloc: Global,
    config: &Config,
    types: &TypeSpace,
    spaces: &EntitySpaces,
    imports_size: u32,
    u: &mut Unstructured<'_>,
) -> Result<Exports, Error>
    requires may { MayExport types.now.types (spaces_in spaces.now) }
    requires within { imports_size ≤ config.now.max_type_size }

    // The draw.
    ensures exact { ReturnsWhy (λ made. (made.exports, u.new)) result
        (everything_at config.now types.now.types (spaces_in spaces.now) imports_size u.old) }
    ensures valid { IfOk result (λ made. AreExportsValid (spaces_in spaces.now) made.exports) }
    ensures everything { IfOk result (λ made. AreAllExported (spaces_in spaces.now) made.exports) }

    // The type size.
    ensures type_size { IfOk result (λ made. made.type_size
        ≡ imports_size + exported_size types.now.types (spaces_in spaces.now) made.exports) }
    ensures within { IfOk result (λ made. made.type_size ≤ config.now.max_type_size) }

    // Refusals and the source.
    ensures refusal { IfErr result MayRefuseAll }
    ensures left { KeepsPieces u.old u.new }
{
    push_exports(alloc, config, types, spaces, imports_size, u)
}
