ghost use Rattle.std.specs.Prelude.{◌≡◌, IfErr};

use crate::change::Change;
use crate::edit::Edit;
use crate::expressions::Site;
use crate::facts::Facts;
use crate::family::ModuleFamily;
use crate::operands::{constant_type, draw_constant, draw_number, other_number_type};
use crate::rotation::rotated;
use smith_bytes::{Error, Unstructured};
use smith_decode::{DataMode, ElementItems, ElementMode, ElementSegment, Module};
use smith_instr::{Instr, IntBinary, NumericInstr};
use smith_types::GlobalType;
use std::alloc::Global;

// A place of constant expressions in a module.
#[derive(Clone, Copy)]
enum Owner {
    Global,
    Table,
    ElementOffset,
    DataOffset,
    ElementItem,
}

const OWNERS: [Owner; 5] = [
    Owner::Global,
    Owner::ElementOffset,
    Owner::DataOffset,
    Owner::Table,
    Owner::ElementItem,
];

// Returns the number of items that may have such an expression.
fn count_of(module: &Module, owner: Owner) -> usize {
    match owner {
        Owner::Global => module.globals.len(),
        Owner::Table => module.tables.len(),
        Owner::ElementOffset | Owner::ElementItem => module.elements.len(),
        Owner::DataOffset => module.datas.len(),
    }
}

// Returns the item of the segment at `index` that comes `from` the first, round the end.
fn item_of(segment: &ElementSegment, index: usize, from: usize) -> Option<(Site, &[Instr])> {
    match &segment.items {
        ElementItems::Expressions(items) => {
            if items.is_empty() {
                return None;
            }
            let item = rotated(from, 0, items.len());
            let site = Site::ElementItem {
                segment: index,
                item,
            };
            Some((site, items[item].as_slice()))
        }
        ElementItems::Functions(_) => None,
    }
}

// Returns the expression of the item at `index`, if it has one.
fn expression_of(
    module: &Module,
    owner: Owner,
    index: usize,
    from: usize,
) -> Option<(Site, &[Instr])> {
    match owner {
        Owner::Global => {
            let global = module.globals.as_slice().get(index)?;
            Some((Site::Global(index), global.initial.as_slice()))
        }
        Owner::Table => {
            let table = module.tables.as_slice().get(index)?;
            Some((Site::Table(index), table.initial.as_slice()))
        }
        Owner::ElementOffset => match &module.elements.as_slice().get(index)?.mode {
            ElementMode::Active { offset, .. } => {
                Some((Site::ElementOffset(index), offset.as_slice()))
            }
            _ => None,
        },
        Owner::DataOffset => match &module.datas.as_slice().get(index)?.mode {
            DataMode::Active { offset, .. } => Some((Site::DataOffset(index), offset.as_slice())),
            DataMode::Passive => None,
        },
        Owner::ElementItem => item_of(module.elements.as_slice().get(index)?, index, from),
    }
}

// Draws a value of another type in place of the first one.
fn change_type(instructions: &[Instr], u: &mut Unstructured<'_>) -> Option<(usize, Edit<Instr>)> {
    let changed = match constant_type(instructions.first()?) {
        Some(own) => {
            let ty = other_number_type(own, u);
            draw_constant(ty, u)
        }
        None => draw_number(u),
    };
    Some((0, Edit::Replace(changed)))
}

// Returns an operator on two integers that isn't constant for one that is.
fn vary(instruction: &Instr) -> Option<Instr> {
    match instruction {
        Instr::Numeric(NumericInstr::I32Binary(_)) => {
            Some(Instr::Numeric(NumericInstr::I32Binary(IntBinary::Xor)))
        }
        Instr::Numeric(NumericInstr::I64Binary(_)) => {
            Some(Instr::Numeric(NumericInstr::I64Binary(IntBinary::And)))
        }
        _ => None,
    }
}

// Puts another operator in place of the last instruction, or a `nop` after it.
fn unfix(instructions: &[Instr]) -> (usize, Edit<Instr>) {
    let count = instructions.len();
    let varied = match instructions.last() {
        Some(last) => vary(last),
        None => None,
    };
    match varied {
        Some(changed) => (count.saturating_sub(1), Edit::Replace(changed)),
        None => (count, Edit::Insert(Instr::Nop)),
    }
}

// Returns the first mutable global from `start` on, round the end.
fn find_mutable(globals: &[GlobalType], start: usize) -> Option<usize> {
    let count = globals.len();
    for step in 0..count {
        let index = rotated(start, step, count);
        if globals[index].mutable {
            return Some(index);
        }
    }
    None
}

// Draws the global itself or a later one in place of the first value of an initialiser, else finds a
// mutable one.
fn refer_later(
    facts: &Facts<'_>,
    site: Site,
    instructions: &[Instr],
    from: usize,
    u: &mut Unstructured<'_>,
) -> Option<(usize, Edit<Instr>)> {
    if instructions.is_empty() {
        return None;
    }
    let globals = facts.spaces.globals.as_slice();
    let global = match site {
        Site::Global(index) => {
            let own = facts.imported_globals.saturating_add(index);
            if own >= globals.len() {
                return None;
            }
            u.int_in_range(own..=globals.len() - 1)
        }
        _ => find_mutable(globals, from)?,
    };
    let index = u32::try_from(global).ok()?;
    Some((0, Edit::Replace(Instr::GlobalGet(index))))
}

// Draws a change of an expression, if it fits.
fn change_expression(
    family: ModuleFamily,
    facts: &Facts<'_>,
    found: (Site, &[Instr]),
    from: usize,
    u: &mut Unstructured<'_>,
) -> Option<Change> {
    let (site, instructions) = found;
    let (index, edit) = match family {
        ModuleFamily::ConstantType => change_type(instructions, u)?,
        ModuleFamily::NonConstant => unfix(instructions),
        _ => refer_later(facts, site, instructions, from, u)?,
    };
    Some(Change::Instruction { site, index, edit })
}

// Draws a change of the first expression of `owner` that fits.
fn search(
    family: ModuleFamily,
    facts: &Facts<'_>,
    module: &Module,
    owner: Owner,
    from: usize,
    u: &mut Unstructured<'_>,
) -> Option<Change> {
    let count = count_of(module, owner);
    for step in 0..count {
        let index = rotated(from, step, count);
        if let Some(found) = expression_of(module, owner, index, from) {
            if let Some(change) = change_expression(family, facts, found, from, u) {
                return Some(change);
            }
        }
    }
    None
}

/// Draws a change of a constant expression, if one fits.
pub(crate) fn break_constant(
    alloc: Global,
    family: ModuleFamily,
    module: &Module,
    u: &mut Unstructured<'_>,
) -> Result<Option<Change>, Error>
    ensures memory { IfErr result (λ e. e ≡ Error.Memory) }
{
    let facts = Facts::new(alloc, module)?;
    let start = u.int_in_range(0..=4usize);
    let from = usize::from(u.arbitrary::<u16>());
    for step in 0..5 {
        let owner = OWNERS[rotated(start, step, 5)];
        if let Some(change) = search(family, &facts, module, owner, from, u) {
            return Ok(Some(change));
        }
    }
    Ok(None)
}
