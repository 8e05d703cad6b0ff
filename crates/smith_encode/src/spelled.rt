ghost use Rattle.std.specs.Prelude.{◌≡◌, ◌^◌, nat_lt, Bool, IfOk};
ghost use Rattle.std.specs.List.{list_all};
ghost use Rattle.smith_decode.specs.BodyReadings.{total};
ghost use Rattle.smith_encode.specs.Nesting.{is_nested};
ghost use Rattle.smith_encode.specs.Spelled.{is_table_nested, is_global_nested, are_items_nested};
ghost use Rattle.smith_encode.specs.Spelled.{is_element_nested, is_element_mode_nested};
ghost use Rattle.smith_encode.specs.Spelled.{is_body_spelled, is_data_nested, are_parts_spelled};
ghost use Rattle.smith_encode.specs.Spelled.{is_type_spelled, are_types_spelled, are_groups_spelled};

use crate::nesting::is_nested;
use smith_decode::{
    Body, DataMode, DataSegment, ElementItems, ElementMode, ElementSegment, GlobalDefinition,
    LocalRun, Module, TableDefinition,
};
use smith_instr::Instr;
use smith_types::{Items, SubType};
use std::alloc::{AllocError, Global};

// An item that may have no spelling.
trait Spell {
    // Whether an item has one.
    ghost is_spelled: { Self → Bool };

    // Returns whether some bytes spell the item, if there are enough of them.
    fn is_spelled(&self, alloc: Global) -> Result<bool, AllocError>
        ensures { IfOk result (λ spelled. spelled ≡ Self.is_spelled self.now) };
}

// Returns whether each of `items` has a spelling.
fn are_spelled<T: Spell>(alloc: Global, items: &[T]) -> Result<bool, AllocError>
    ensures { IfOk result (λ spelled. spelled ≡ list_all T.is_spelled items.now) }
{
    for item in items {
        if !item.is_spelled(alloc)? {
            return Ok(false);
        }
    }
    Ok(true)
}

impl Spell for Items<Instr> {
    ghost is_spelled = { is_nested };

    fn is_spelled(&self, alloc: Global) -> Result<bool, AllocError> {
        is_nested(alloc, self.as_slice())
    }
}

impl Spell for TableDefinition {
    ghost is_spelled = { is_table_nested };

    fn is_spelled(&self, alloc: Global) -> Result<bool, AllocError> {
        self.initial.is_spelled(alloc)
    }
}

impl Spell for GlobalDefinition {
    ghost is_spelled = { is_global_nested };

    fn is_spelled(&self, alloc: Global) -> Result<bool, AllocError> {
        self.initial.is_spelled(alloc)
    }
}

// Returns whether the offset of a segment has a spelling.
fn is_mode_spelled(alloc: Global, mode: &ElementMode) -> Result<bool, AllocError>
    ensures { IfOk result (λ spelled. spelled ≡ is_element_mode_nested mode.now) }
{
    match mode {
        ElementMode::Passive => Ok(true),
        ElementMode::Declared => Ok(true),
        ElementMode::Active { table: _, offset } => offset.is_spelled(alloc),
    }
}

// Returns whether the items of a segment have spellings.
fn are_items_spelled(alloc: Global, items: &ElementItems) -> Result<bool, AllocError>
    ensures { IfOk result (λ spelled. spelled ≡ are_items_nested items.now) }
{
    match items {
        ElementItems::Functions(_) => Ok(true),
        ElementItems::Expressions(items) => are_spelled(alloc, items.as_slice()),
    }
}

impl Spell for ElementSegment {
    ghost is_spelled = { is_element_nested };

    fn is_spelled(&self, alloc: Global) -> Result<bool, AllocError> {
        if !is_mode_spelled(alloc, &self.mode)? {
            return Ok(false);
        }
        are_items_spelled(alloc, &self.items)
    }
}

// Returns whether `runs` have fewer than 2^32 locals.
fn are_few(runs: &[LocalRun]) -> bool
    ensures { result ≡ nat_lt (total runs.now) (2 ^ 32) }
{
    let mut count: u64 = 0;
    for run in runs {
        count += u64::from(run.count);
        if count >= 1 << 32 {
            return false;
        }
    }
    true
}

impl Spell for Body {
    ghost is_spelled = { is_body_spelled };

    fn is_spelled(&self, alloc: Global) -> Result<bool, AllocError> {
        if !are_few(self.locals.as_slice()) {
            return Ok(false);
        }
        self.instructions.is_spelled(alloc)
    }
}

impl Spell for DataSegment {
    ghost is_spelled = { is_data_nested };

    fn is_spelled(&self, alloc: Global) -> Result<bool, AllocError> {
        match &self.mode {
            DataMode::Passive => Ok(true),
            DataMode::Active { memory: _, offset } => offset.is_spelled(alloc),
        }
    }
}

// Returns whether a type has a first supertype if `further` are some.
fn is_type_spelled(ty: &SubType, further: &[u32]) -> bool
    ensures { result ≡ is_type_spelled ty.now further.now }
{
    ty.supertype.is_some() || further.is_empty()
}

// Returns whether the types of a group have as many lists of further supertypes, and spellings.
fn are_types_spelled(types: &[SubType], further: &[Items<u32>]) -> bool
    ensures { result ≡ are_types_spelled types.now further.now }
{
    if types.len() != further.len() {
        return false;
    }
    for i in 0..types.len() {
        if !is_type_spelled(&types[i], further[i].as_slice()) {
            return false;
        }
    }
    true
}

// Returns whether the types of all groups have.
fn are_groups_spelled(types: &[Items<SubType>], further: &[Items<Items<u32>>]) -> bool
    ensures { result ≡ are_groups_spelled types.now further.now }
{
    if types.len() != further.len() {
        return false;
    }
    for i in 0..types.len() {
        if !are_types_spelled(types[i].as_slice(), further[i].as_slice()) {
            return false;
        }
    }
    true
}

/// Returns whether the items of `module` have spellings, and it has a body for each function.
pub(crate) fn are_parts_spelled(alloc: Global, module: &Module) -> Result<bool, AllocError>
    ensures { IfOk result (λ spelled. spelled ≡ are_parts_spelled «module».now) }
{
    Ok(
        are_groups_spelled(
            module.types.as_slice(),
            module.further_supertypes.as_slice(),
        ) && module.functions.len() == module.bodies.len()
            && are_spelled(alloc, module.tables.as_slice())?
            && are_spelled(alloc, module.globals.as_slice())?
            && are_spelled(alloc, module.elements.as_slice())?
            && are_spelled(alloc, module.bodies.as_slice())?
            && are_spelled(alloc, module.datas.as_slice())?,
    )
}
