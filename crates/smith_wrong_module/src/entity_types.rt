ghost use Rattle.std.specs.Prelude.{◌≡◌, IfErr};

use crate::change::Change;
use crate::facts::Facts;
use crate::groups::count_types;
use crate::indices::Pick;
use crate::limits::{disordered_memory, disordered_table};
use crate::references::draw_heap_type;
use crate::rotation::rotated;
use smith_bytes::{Error, Unstructured};
use smith_decode::{DataMode, ElementItems, ElementMode, Module};
use smith_instr::Instr;
use smith_types::{EntityType, GlobalType, HeapType, Imports, Items, RefType, ValType};
use std::alloc::Global;

// Draws another index in place of `own`, of `count`, or one past the end.
fn draw_index(own: u32, count: usize, u: &mut Unstructured<'_>) -> Option<u32> {
    let pick = if u.arbitrary::<bool>() {
        Pick::PastEnd(0)
    } else {
        Pick::Other(u32::from(u.arbitrary::<u16>()))
    };
    pick.index(own, count as u64)
}

/// Draws a function and another type for it.
pub(crate) fn break_function(module: &Module, u: &mut Unstructured<'_>) -> Option<Change> {
    let count = module.functions.len();
    if count == 0 {
        return None;
    }
    let index = u.int_in_range(0..=count - 1);
    let own = module.functions[index];
    let ty = draw_index(own, count_types(module), u)?;
    Some(Change::Function { index, ty })
}

/// Draws a tag and another type for it.
pub(crate) fn break_tag(module: &Module, u: &mut Unstructured<'_>) -> Option<Change> {
    let count = module.tags.len();
    if count == 0 {
        return None;
    }
    let index = u.int_in_range(0..=count - 1);
    let own = module.tags[index].0;
    let ty = draw_index(own, count_types(module), u)?;
    Some(Change::Tag { index, ty })
}

// Draws another type of an import.
fn other_entity(ty: EntityType, count: usize, u: &mut Unstructured<'_>) -> Option<EntityType> {
    match ty {
        EntityType::Func(own) => Some(EntityType::Func(draw_index(own, count, u)?)),
        EntityType::Tag(own) => Some(EntityType::Tag(draw_index(own, count, u)?)),
        EntityType::Table(own) => Some(EntityType::Table(disordered_table(own, u)?)),
        EntityType::Memory(own) => Some(EntityType::Memory(disordered_memory(own, u)?)),
        EntityType::Global(own) => Some(EntityType::Global(GlobalType {
            val_type: ValType::Ref(RefType {
                nullable: true,
                heap_type: HeapType::Concrete(u32::try_from(count).ok()?),
            }),
            mutable: own.mutable,
            shared: own.shared,
        })),
    }
}

// Returns the type of the single import or the first import that `group` is, or that all of it have.
fn entity_of(group: &Imports) -> Option<EntityType> {
    match group {
        Imports::Single(import) => Some(import.entity_type),
        Imports::Compact1 { items, .. } => Some(items.as_slice().first()?.entity_type),
        Imports::Compact2 { entity_type, .. } => Some(*entity_type),
    }
}

/// Draws another type for the first import of a group, or for all of it that have one, from a drawn group
/// on.
pub(crate) fn break_import(module: &Module, u: &mut Unstructured<'_>) -> Option<Change> {
    let types = count_types(module);
    let from = usize::from(u.arbitrary::<u16>());
    let groups = module.imports.as_slice();
    for step in 0..groups.len() {
        let index = rotated(from, step, groups.len());
        if let Some(own) = entity_of(&groups[index]) {
            let ty = other_entity(own, types, u)?;
            return Some(Change::Import { index, ty });
        }
    }
    None
}

// Draws a function past the end for a segment of functions, or else another type.
fn break_items(
    facts: &Facts<'_>,
    items: &ElementItems,
    index: usize,
    u: &mut Unstructured<'_>,
) -> Option<Change> {
    match items {
        ElementItems::Functions(functions) => {
            if functions.is_empty() {
                return None;
            }
            Some(Change::ElementFunction {
                index,
                item: u.int_in_range(0..=functions.len() - 1),
                function: u32::try_from(facts.spaces.funcs.len()).ok()?,
            })
        }
        ElementItems::Expressions(_) => Some(Change::ElementType {
            index,
            ty: RefType {
                nullable: true,
                heap_type: draw_heap_type(u),
            },
        }),
    }
}

// Draws another table for an active segment, or one past the end.
fn break_table(
    facts: &Facts<'_>,
    mode: &ElementMode,
    index: usize,
    u: &mut Unstructured<'_>,
) -> Option<Change> {
    match mode {
        ElementMode::Active { table, .. } => Some(Change::ElementTable {
            index,
            table: draw_index(*table, facts.spaces.tables.len(), u)?,
        }),
        _ => None,
    }
}

/// Draws an element segment, and another type, table or function for it.
pub(crate) fn break_element(
    alloc: Global,
    module: &Module,
    u: &mut Unstructured<'_>,
) -> Result<Option<Change>, Error>
    ensures memory { IfErr result (λ e. e ≡ Error.Memory) }
{
    let facts = Facts::new(alloc, module)?;
    let count = module.elements.len();
    if count == 0 {
        return Ok(None);
    }
    let index = u.int_in_range(0..=count - 1);
    let segment = &module.elements[index];
    if u.arbitrary::<bool>() {
        return Ok(break_table(&facts, &segment.mode, index, u));
    }
    Ok(break_items(&facts, &segment.items, index, u))
}

/// Makes a data segment active, in a memory past the end.
pub(crate) fn break_data(
    alloc: Global,
    module: &Module,
    u: &mut Unstructured<'_>,
) -> Result<Option<Change>, Error>
    ensures memory { IfErr result (λ e. e ≡ Error.Memory) }
{
    let facts = Facts::new(alloc, module)?;
    let count = module.datas.len();
    if count == 0 {
        return Ok(None);
    }
    let index = u.int_in_range(0..=count - 1);
    let memory = u32::try_from(facts.spaces.memories.len()).unwrap_or(u32::MAX);
    let mut offset = Items::new(alloc);
    offset.push(Instr::I32Const(0))?;
    let mode = DataMode::Active { memory, offset };
    Ok(Some(Change::DataMode { index, mode }))
}
