ghost use Rattle.std.specs.Prelude.{◌≡◌, ◌↔◌, ◌≤◌, List, IsTrue, All, length};
ghost use Rattle.std.specs.List.{flat_map};
ghost use Rattle.smith_types.specs.Imports.{imports_of, flattened};
ghost use Rattle.smith_types.specs.Syntax.composite_type.SubType.{SubType as Sub};
ghost use Rattle.smith_config.specs.Shapes.{IsShort, IsInnerShort, most_listed, shape_types};
ghost use Rattle.smith_config.specs.Shapes.{shape_imports};
ghost use Rattle.smith_config.specs.Decided.{AreListsShort};

use crate::Shape;
use smith_types::{CompositeInnerType, Imports, Items, SubType};

/// The maximum length of a list in a shape.
const MOST: usize = 1 << 29;

/// Returns whether no list of `shape` is too long, and neither are the types or the imports of all
/// its groups together. Does not allocate.
pub(crate) fn is_short(shape: &Shape) -> bool
    ensures { IsTrue result ↔ IsShort shape.now }
{
    if !are_lists_short(shape) {
        return false;
    }
    if !has_few_types(shape) {
        return false;
    }
    if !has_few_imports(shape) {
        return false;
    }
    has_short_types(shape)
}

fn are_lists_short(shape: &Shape) -> bool
    ensures { IsTrue result ↔ AreListsShort shape.now }
{
    shape.groups.len() <= MOST
        && shape.imports.len() <= MOST
        && shape.funcs.len() <= MOST
        && shape.tags.len() <= MOST
        && shape.tables.len() <= MOST
        && shape.memories.len() <= MOST
        && shape.globals.len() <= MOST
        && shape.exports.len() <= MOST
}

fn has_few_types(shape: &Shape) -> bool
    ensures { IsTrue result ↔ (length (shape_types shape.now) ≤ most_listed) }
{
    are_types_few(shape.groups.as_slice())
}

fn are_types_few(groups: &[Items<SubType>]) -> bool
    ensures { IsTrue result
        ↔ (length (flat_map (λ (group : List Sub). group) groups.now) ≤ most_listed) }
{
    let mut left = MOST;
    for group in groups {
        if group.len() > left {
            return false;
        }
        left -= group.len();
    }
    true
}

fn has_few_imports(shape: &Shape) -> bool
    ensures { IsTrue result ↔ (length (shape_imports shape.now) ≤ most_listed) }
{
    are_imports_few(shape.imports.as_slice())
}

fn are_imports_few(groups: &[Imports]) -> bool
    ensures { IsTrue result ↔ (length (flattened groups.now) ≤ most_listed) }
{
    let mut left = MOST;
    for group in groups {
        let count = import_count(group);
        if count > left {
            return false;
        }
        left -= count;
    }
    true
}

fn import_count(group: &Imports) -> usize
    ensures { result ≡ length (imports_of group.now) }
{
    match group {
        Imports::Single(_) => 1,
        Imports::Compact1 { module: _, items } => items.len(),
        Imports::Compact2 {
            module: _,
            entity_type: _,
            names,
        } => names.len(),
    }
}

fn has_short_types(shape: &Shape) -> bool
    ensures { IsTrue result
        ↔ All (λ (group : List Sub). All (λ (t : Sub). IsInnerShort t.composite_type.inner) group)
        shape.now.groups }
{
    are_groups_short(shape.groups.as_slice())
}

fn are_groups_short(groups: &[Items<SubType>]) -> bool
    ensures { IsTrue result ↔ All (λ (group : List Sub).
        All (λ (t : Sub). IsInnerShort t.composite_type.inner) group) groups.now }
{
    groups.iter().all(|group| are_types_short(group.as_slice()))
}

fn are_types_short(types: &[SubType]) -> bool
    ensures { IsTrue result ↔ All (λ (t : Sub). IsInnerShort t.composite_type.inner) types.now }
{
    types
        .iter()
        .all(|ty| is_inner_short(&ty.composite_type.inner))
}

fn is_inner_short(inner: &CompositeInnerType) -> bool
    ensures { IsTrue result ↔ IsInnerShort inner.now }
{
    match inner {
        CompositeInnerType::Array(_) => true,
        CompositeInnerType::Func(function) => {
            function.params.len() <= MOST && function.results.len() <= MOST
        }
        CompositeInnerType::Struct(structure) => structure.fields.len() <= MOST,
    }
}
