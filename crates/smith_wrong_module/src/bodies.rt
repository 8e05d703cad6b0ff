ghost use Rattle.std.specs.Prelude.{◌≡◌, IfErr};

use crate::aggregates::{change_extension, write_immutable};
use crate::change::Change;
use crate::control::{call_last, change_block, enter_dead_code};
use crate::edit::Edit;
use crate::expressions::Site;
use crate::facts::{Facts, Scope};
use crate::family::ModuleFamily;
use crate::indices::{IndexKind, Pick};
use crate::memory::{change_lane, change_offset, misalign};
use crate::operands::{change_type, draw_number, leave_out};
use crate::picks::pick_index;
use crate::references::{change_hierarchy, change_reference};
use crate::rotation::rotated;
use crate::variables::{leave_unset, set_immutable};
use smith_bytes::{Error, Unstructured};
use smith_decode::Module;
use smith_instr::{Instr, ReferenceInstr};
use std::alloc::Global;

// What is sought in bodies.
#[derive(Clone, Copy)]
struct Sought {
    family: ModuleFamily,
    // The index space, where the family is one of indices.
    kind: IndexKind,
    // The choice of another index.
    pick: Pick,
    // Where the search begins in each list.
    from: usize,
}

// Draws a change of an instruction that allocates nothing, if it fits.
fn change_plain(
    sought: Sought,
    scope: &Scope<'_, '_>,
    instruction: &Instr,
    u: &mut Unstructured<'_>,
) -> Option<Edit<Instr>> {
    let facts = scope.facts;
    match sought.family {
        ModuleFamily::OperandType => change_type(instruction, u),
        ModuleFamily::MissingOperand => leave_out(instruction),
        ModuleFamily::ExtraOperand => Some(Edit::Insert(draw_number(u))),
        ModuleFamily::ReferenceType => change_reference(instruction, u),
        ModuleFamily::CastHierarchy => change_hierarchy(instruction, u),
        ModuleFamily::TailCall => call_last(facts, instruction, sought.from),
        ModuleFamily::DeadCode => enter_dead_code(instruction, u),
        ModuleFamily::UnsetLocal => leave_unset(scope.locals, instruction),
        ModuleFamily::ImmutableGlobal => set_immutable(facts, instruction, sought.from),
        ModuleFamily::ImmutableField => write_immutable(facts, instruction, sought.from),
        ModuleFamily::PackedField => change_extension(instruction, u),
        ModuleFamily::UndeclaredFunction => refer_to(facts, instruction, sought.pick),
        ModuleFamily::Alignment => misalign(instruction, u),
        ModuleFamily::Offset => change_offset(facts, instruction, u),
        ModuleFamily::Lane => change_lane(instruction, u),
        _ => None,
    }
}

// Draws a change of the instruction at `index` of a body, if it fits.
fn change_at(
    alloc: Global,
    sought: Sought,
    scope: &Scope<'_, '_>,
    index: usize,
    instruction: &Instr,
    u: &mut Unstructured<'_>,
) -> Result<Option<Edit<Instr>>, Error>
    ensures memory { IfErr result (λ e. e ≡ Error.Memory) }
{
    match sought.family {
        ModuleFamily::BlockType => change_block(alloc, instruction, u),
        ModuleFamily::IndexPastEnd | ModuleFamily::OtherEntity | ModuleFamily::Label => {
            pick_index(alloc, scope, index, instruction, sought.kind, sought.pick)
        }
        _ => Ok(change_plain(sought, scope, instruction, u)),
    }
}

// Picks another function for a `ref.func`.
fn refer_to(facts: &Facts<'_>, instruction: &Instr, pick: Pick) -> Option<Edit<Instr>> {
    match instruction {
        Instr::Reference(ReferenceInstr::Func(own)) => {
            let count = facts.spaces.funcs.len() as u64;
            let index = pick.index(*own, count)?;
            Some(Edit::Replace(Instr::Reference(ReferenceInstr::Func(index))))
        }
        _ => None,
    }
}

// Draws a change of the first instruction of the body at `body` that fits, with its index.
fn change_body(
    alloc: Global,
    sought: Sought,
    scope: &Scope<'_, '_>,
    u: &mut Unstructured<'_>,
) -> Result<Option<(usize, Edit<Instr>)>, Error>
    ensures memory { IfErr result (λ e. e ≡ Error.Memory) }
{
    let instructions = scope.instructions;
    for step in 0..instructions.len() {
        let index = rotated(sought.from, step, instructions.len());
        let instruction = &instructions[index];
        if let Some(edit) = change_at(alloc, sought, scope, index, instruction, u)? {
            return Ok(Some((index, edit)));
        }
    }
    Ok(None)
}

// Returns the index at which a change is made that fits the instruction at `index`.
fn place_of(family: ModuleFamily, index: usize) -> usize {
    match family {
        ModuleFamily::DeadCode => index.saturating_add(1),
        _ => index,
    }
}

// Draws a change of the first body that fits.
fn search<'a>(
    alloc: Global,
    sought: Sought,
    facts: &Facts<'a>,
    module: &'a Module,
    u: &mut Unstructured<'_>,
) -> Result<Option<Change>, Error>
    ensures memory { IfErr result (λ e. e ≡ Error.Memory) }
{
    let bodies = module.bodies.as_slice();
    for step in 0..bodies.len() {
        let body = rotated(sought.from, step, bodies.len());
        let scope = Scope::new(facts, module, body, &bodies[body]);
        if let Some((index, edit)) = change_body(alloc, sought, &scope, u)? {
            return Ok(Some(Change::Instruction {
                site: Site::Body(body),
                index: place_of(sought.family, index),
                edit,
            }));
        }
    }
    Ok(None)
}

// Draws the choice of another index.
fn draw_pick(family: ModuleFamily, u: &mut Unstructured<'_>) -> Pick {
    match family {
        ModuleFamily::IndexPastEnd => Pick::PastEnd(u.int_in_range(0u8..=2)),
        _ => Pick::Other(u32::from(u.arbitrary::<u16>())),
    }
}

// Draws a change of an index in a body: of one index space, or else of the next one.
fn search_indices<'a>(
    alloc: Global,
    sought: Sought,
    facts: &Facts<'a>,
    module: &'a Module,
    u: &mut Unstructured<'_>,
) -> Result<Option<Change>, Error>
    ensures memory { IfErr result (λ e. e ≡ Error.Memory) }
{
    let start = u.int_in_range(0..=10usize);
    for step in 0..11 {
        let kind = IndexKind::ALL[rotated(start, step, 11)];
        let next = Sought {
            family: sought.family,
            kind,
            pick: sought.pick,
            from: sought.from,
        };
        if let Some(change) = search(alloc, next, facts, module, u)? {
            return Ok(Some(change));
        }
    }
    Ok(None)
}

/// Draws a change of a body, if one fits.
pub(crate) fn break_body(
    alloc: Global,
    family: ModuleFamily,
    module: &Module,
    u: &mut Unstructured<'_>,
) -> Result<Option<Change>, Error>
    ensures memory { IfErr result (λ e. e ≡ Error.Memory) }
{
    let facts = Facts::new(alloc, module)?;
    let from = usize::from(u.arbitrary::<u16>());
    let sought = Sought {
        family,
        kind: IndexKind::Label,
        pick: draw_pick(family, u),
        from,
    };
    match family {
        ModuleFamily::IndexPastEnd | ModuleFamily::OtherEntity => {
            search_indices(alloc, sought, &facts, module, u)
        }
        _ => search(alloc, sought, &facts, module, u),
    }
}

/// Draws a body, and a constant before its last `end`.
pub(crate) fn end_body(module: &Module, u: &mut Unstructured<'_>) -> Option<Change> {
    let count = module.bodies.len();
    if count == 0 {
        return None;
    }
    let body = u.int_in_range(0..=count - 1);
    Some(Change::Instruction {
        site: Site::Body(body),
        index: module.bodies[body].instructions.len(),
        edit: Edit::Insert(draw_number(u)),
    })
}
