ghost use Rattle.std.specs.Prelude.{◌≡◌, IfErr};

use crate::edit::Edit;
use crate::entity_indices::{
    pick_data, pick_element, pick_function, pick_global, pick_local, pick_memory, pick_table,
    pick_tag,
};
use crate::facts::Scope;
use crate::indices::{IndexKind, Pick};
use crate::type_indices::{pick_label, pick_listed_label, pick_type};
use smith_bytes::Error;
use smith_instr::{AggregateInstr, Instr};
use smith_types::CompositeInnerType;
use std::alloc::Global;

// Returns the number of fields of the struct type at `ty`.
fn field_count(scope: &Scope<'_, '_>, ty: u32) -> u64 {
    match scope.facts.types.as_slice().get(ty as usize) {
        Some(ty) => match &ty.composite_type.inner {
            CompositeInnerType::Struct(fields) => fields.fields.len() as u64,
            _ => 0,
        },
        None => 0,
    }
}

// Picks another field for `instruction`.
fn pick_field(scope: &Scope<'_, '_>, instruction: &Instr, pick: Pick) -> Option<Instr> {
    match instruction {
        Instr::Aggregate(
            AggregateInstr::StructGet {
                ty,
                field,
                extension,
            },
        ) => {
            let field = pick.index(*field, field_count(scope, *ty))?;
            Some(Instr::Aggregate(AggregateInstr::StructGet {
                ty: *ty,
                field,
                extension: *extension,
            }))
        }
        Instr::Aggregate(AggregateInstr::StructSet { ty, field }) => {
            let field = pick.index(*field, field_count(scope, *ty))?;
            Some(Instr::Aggregate(AggregateInstr::StructSet { ty: *ty, field }))
        }
        _ => None,
    }
}

// Picks another label for `instruction`, the one at `index`.
fn pick_branch(
    alloc: Global,
    scope: &Scope<'_, '_>,
    index: usize,
    instruction: &Instr,
    pick: Pick,
) -> Result<Option<Instr>, Error>
    ensures memory { IfErr result (λ e. e ≡ Error.Memory) }
{
    match instruction {
        Instr::TryTable(_, catches) if catches.is_empty() => Ok(None),
        Instr::BrTable(_, _) | Instr::TryTable(_, _) => {
            pick_listed_label(alloc, instruction, pick, scope.label_count(index))
        }
        Instr::Br(_) | Instr::BrIf(_) | Instr::BrOnNull(_) | Instr::BrOnNonNull(_) => {
            Ok(pick_label(instruction, pick, scope.label_count(index)))
        }
        Instr::BrOnCast(_) | Instr::BrOnCastFail(_) => {
            Ok(pick_label(instruction, pick, scope.label_count(index)))
        }
        _ => Ok(None),
    }
}

// Picks another index of the space `kind` for `instruction`, the one at `index`.
fn changed_index(
    alloc: Global,
    scope: &Scope<'_, '_>,
    index: usize,
    instruction: &Instr,
    kind: IndexKind,
    pick: Pick,
) -> Result<Option<Instr>, Error>
    ensures memory { IfErr result (λ e. e ≡ Error.Memory) }
{
    let facts = scope.facts;
    let spaces = &facts.spaces;
    match kind {
        IndexKind::Label => pick_branch(alloc, scope, index, instruction, pick),
        IndexKind::Local => Ok(pick_local(instruction, pick, scope.locals.count)),
        IndexKind::Global => Ok(pick_global(instruction, pick, spaces.globals.len() as u64)),
        IndexKind::Function => Ok(pick_function(instruction, pick, spaces.funcs.len() as u64)),
        IndexKind::Type => Ok(pick_type(instruction, pick, facts.types.len() as u64)),
        IndexKind::Memory => Ok(pick_memory(instruction, pick, spaces.memories.len() as u64)),
        IndexKind::Table => Ok(pick_table(instruction, pick, spaces.tables.len() as u64)),
        IndexKind::Element => Ok(pick_element(instruction, pick, facts.elements as u64)),
        IndexKind::Data => Ok(pick_data(instruction, pick, facts.datas as u64)),
        IndexKind::Field => Ok(pick_field(scope, instruction, pick)),
        IndexKind::Tag => Ok(pick_tag(instruction, pick, spaces.tags.len() as u64)),
    }
}

/// Puts another index of the space `kind` into `instruction`, the one at `index`, if it has one.
pub(crate) fn pick_index(
    alloc: Global,
    scope: &Scope<'_, '_>,
    index: usize,
    instruction: &Instr,
    kind: IndexKind,
    choice: Pick,
) -> Result<Option<Edit<Instr>>, Error>
    ensures memory { IfErr result (λ e. e ≡ Error.Memory) }
{
    match changed_index(alloc, scope, index, instruction, kind, choice)? {
        None => Ok(None),
        Some(changed) => Ok(Some(Edit::Replace(changed))),
    }
}
