ghost use Rattle.std.specs.Prelude.{◌≡◌, ◌++◌, IfErr, OnOk};
ghost use Rattle.smith_types.specs.Expressions.{field_values};
ghost use Rattle.smith_instr.specs.Contexts.{AreValid, IsValid};
ghost use Rattle.smith_body_leaves.specs.Leaves.{created_at, created_from, created_type, have_singles};
ghost use Rattle.smith_body_leaves.specs.Leaves.{singles};
ghost use Rattle.smith_body_nodes.specs.Scopes.{IsScope, bare, where_stands};

use crate::leaf::write_some;
use crate::single::{first_single, has_single};
use crate::unary::{fields_at, may_create, named_type};
use smith_body_nodes::{Draft, Scope, indexed_count, struct_type_at};
use smith_bytes::Error;
use smith_instr::{AggregateInstr, Instr};
use smith_types::{FieldType, ValType, unpack};

/// Returns the first struct type whose structs match `wanted`, whose creation is allowed, and each
/// field of which has an allowed value of one instruction. If `wanted` names a type, only that type
/// is tried.
#[tactic(auto, unfolding(crate::specs::Leaves::created_type))]
pub(crate) fn created_type(scope: &Scope<'_>, wanted: ValType, draft: &Draft) -> Option<u32>
    requires scope { IsScope (bare scope.now) }
    requires wanted { IsValid (bare scope.now) wanted }
    ensures { result
        ≡ created_type scope.now.config.now
        (where_stands scope.now draft.now) draft.now.set.items wanted }
{
    if let Some(ty) = named_type(wanted) {
        return created_at(scope, wanted, ty, draft);
    }
    for ty in 0..indexed_count(scope.types.types().len()) {
        if let Some(found) = created_at(scope, wanted, ty as u32, draft) {
            return Some(found);
        }
    }
    None
}

/// Returns `ty` if a struct of this type matches `wanted`, its creation is allowed, and each field
/// has an allowed value of one instruction.
fn created_at(scope: &Scope<'_>, wanted: ValType, ty: u32, draft: &Draft) -> Option<u32>
    requires scope { IsScope (bare scope.now) }
    requires wanted { IsValid (bare scope.now) wanted }
    ensures { result
        ≡ created_at scope.now.config.now
        (where_stands scope.now draft.now) draft.now.set.items wanted ty }
{
    let structure = struct_type_at(scope, ty as usize)?;
    let fields = structure.fields.as_slice();
    if may_create(scope, wanted, ty) && have_singles(scope, fields, draft) {
        return Some(ty);
    }
    None
}

/// Returns whether each of `fields` has an allowed value of one instruction.
fn have_singles(scope: &Scope<'_>, fields: &[FieldType], draft: &Draft) -> bool
    requires scope { IsScope (bare scope.now) }
    requires fields { AreValid (bare scope.now) (field_values fields.now) }
    ensures { result
        ≡ have_singles scope.now.config.now
        (where_stands scope.now draft.now) draft.now.set.items (field_values fields.now) }
{
    for index in 0..fields.len() {
        if !has_single(scope, unpack(fields[index].element_type), draft) {
            return false;
        }
    }
    true
}

/// Writes the first allowed value of one instruction of each field of the struct type `ty`, and then
/// the creation of a struct of them.
pub(crate) fn write_created(scope: &Scope<'_>, ty: u32, draft: &mut Draft) -> Result<(), Error>
    requires scope { IsScope (bare scope.now) }
    ensures out { OnOk result (draft.new.out ≡ draft.old.out ++ created_from scope.now.config.now
        (where_stands scope.now draft.old) draft.old.set.items ty) }
    ensures set { draft.new.set.items ≡ draft.old.set.items }
    ensures same { draft.new.labels.items ≡ draft.old.labels.items }
    ensures budget { draft.new.budget ≡ draft.old.budget }
    ensures memory { IfErr result (λ e. e ≡ Error.Memory) }
{
    write_singles(scope, fields_at(scope, ty as usize), draft)?;
    let creation = Instr::Aggregate(AggregateInstr::StructNew(ty));
    write_some(Some(creation), draft)
}

/// Writes the first allowed value of one instruction of each of `fields`, where there is one.
fn write_singles(scope: &Scope<'_>, fields: &[FieldType], draft: &mut Draft) -> Result<(), Error>
    requires scope { IsScope (bare scope.now) }
    requires fields { AreValid (bare scope.now) (field_values fields.now) }
    ensures out { OnOk result (draft.new.out ≡ draft.old.out ++ singles scope.now.config.now
        (where_stands scope.now draft.old) draft.old.set.items (field_values fields.now)) }
    ensures set { draft.new.set.items ≡ draft.old.set.items }
    ensures same { draft.new.labels.items ≡ draft.old.labels.items }
    ensures budget { draft.new.budget ≡ draft.old.budget }
    ensures memory { IfErr result (λ e. e ≡ Error.Memory) }
{
    for index in 0..fields.len() {
        let single = first_single(scope, unpack(fields[index].element_type), draft);
        write_some(single, draft)?;
    }
    Ok(())
}
