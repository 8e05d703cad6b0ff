ghost use Rattle.std.specs.Prelude.{◌≡◌, true, [], ◌∷◌, IfOk, IfErr};
ghost use Rattle.smith_bytes.specs.Source.{KeepsPieces};
ghost use Rattle.smith_types.specs.Expressions.{IsArrayAt};
ghost use Rattle.smith_instr.specs.AggregateTypes.{IsFieldAt};
ghost use Rattle.smith_instr.specs.Contexts.{IsValid};
ghost use Rattle.smith_body_nodes.specs.IndexedTypes.{names_types};
ghost use Rattle.smith_body_aggregates.specs.FieldChoices.{array_get, array_get_at, field_read_at};
ghost use Rattle.smith_body_aggregates.specs.FieldChoices.{read_at, struct_get, struct_get_at};
ghost use Rattle.smith_body_aggregates.specs.Fields.{is_usable};
ghost use Rattle.smith_body_nodes.specs.Nodes.{IsOffer};
ghost use Rattle.smith_body_nodes.specs.Scopes.{IsScope, bare, where_stands};
ghost use Rattle.smith_body_aggregates.specs.declared.fields.FieldUse.TheVariants as field_use;

use crate::aggregates::{StructField, choose_array, choose_field};
use crate::fields::{FieldUse, extension_of};
use smith_body_nodes::{Draft, Node, Scope, names_types, nullable_to, plain};
use smith_bytes::{Error, Unstructured};
use smith_instr::{AggregateInstr, Instr};
use smith_types::{FieldType, HeapType, ValType};
use std::alloc::Global;

/// Chooses a read of a field or an element that produces a value of the type `wanted`.
pub fn choose_field_read(
    alloc: Global,
    scope: &Scope<'_>,
    wanted: ValType,
    draft: &Draft,
    u: &mut Unstructured<'_>,
) -> Result<Option<Node>, Error>
    requires scope { IsScope (bare scope.now) }
    requires wanted { IsValid (bare scope.now) wanted }
    ensures exact { IfOk result (λ chosen.
        field_read_at (where_stands scope.now draft.now) wanted u.old ≡ (chosen, u.new)) }
    ensures offer { IsOffer (where_stands scope.now draft.now) draft.now.set.items
        (wanted ∷ []) result }
    ensures memory { IfErr result (λ e. e ≡ Error.Memory) }
    ensures left { KeepsPieces u.old u.new }
{
    if !names_types(scope) {
        return Ok(None);
    }
    choose_read(alloc, scope, wanted, draft, u)
}

fn choose_read(
    alloc: Global,
    scope: &Scope<'_>,
    wanted: ValType,
    draft: &Draft,
    u: &mut Unstructured<'_>,
) -> Result<Option<Node>, Error>
    requires scope { IsScope (bare scope.now) }
    requires named { names_types (bare scope.now) ≡ true }
    requires wanted { IsValid (bare scope.now) wanted }
    ensures exact { IfOk result (λ chosen.
        read_at (where_stands scope.now draft.now) wanted u.old ≡ (chosen, u.new)) }
    ensures offer { IsOffer (where_stands scope.now draft.now) draft.now.set.items
        (wanted ∷ []) result }
    ensures memory { IfErr result (λ e. e ≡ Error.Memory) }
    ensures left { KeepsPieces u.old u.new }
{
    if u.arbitrary() {
        return choose_struct_get(alloc, scope, wanted, draft, u);
    }
    choose_array_get(alloc, scope, wanted, draft, u)
}

fn choose_struct_get(
    alloc: Global,
    scope: &Scope<'_>,
    wanted: ValType,
    draft: &Draft,
    u: &mut Unstructured<'_>,
) -> Result<Option<Node>, Error>
    requires scope { IsScope (bare scope.now) }
    requires named { names_types (bare scope.now) ≡ true }
    requires wanted { IsValid (bare scope.now) wanted }
    ensures exact { IfOk result (λ chosen.
        struct_get_at (where_stands scope.now draft.now) wanted u.old ≡ (chosen, u.new)) }
    ensures offer { IsOffer (where_stands scope.now draft.now) draft.now.set.items
        (wanted ∷ []) result }
    ensures memory { IfErr result (λ e. e ≡ Error.Memory) }
    ensures left { KeepsPieces u.old u.new }
{
    let Some(chosen) = choose_field(scope, FieldUse::Read(wanted), u) else {
        return Ok(None);
    };
    get_field(alloc, scope, wanted, chosen, draft, u)
}

/// Chooses the read of the field `from`.
fn get_field(
    alloc: Global,
    scope: &Scope<'_>,
    wanted: ValType,
    from: StructField,
    draft: &Draft,
    u: &mut Unstructured<'_>,
) -> Result<Option<Node>, Error>
    requires scope { IsScope (bare scope.now) }
    requires named { names_types (bare scope.now) ≡ true }
    requires wanted { IsValid (bare scope.now) wanted }
    requires there { IsFieldAt (bare scope.now) from.ty from.index from.field }
    requires usable { is_usable (bare scope.now).types (field_use.Read wanted) from.field ≡ true }
    ensures exact { IfOk result (λ chosen. struct_get from u.old ≡ (chosen, u.new)) }
    ensures offer { IsOffer (where_stands scope.now draft.now) draft.now.set.items
        (wanted ∷ []) result }
    ensures memory { IfErr result (λ e. e ≡ Error.Memory) }
    ensures left { KeepsPieces u.old u.new }
{
    let signed = u.arbitrary();
    let instruction = Instr::Aggregate(AggregateInstr::StructGet {
        ty: from.ty,
        field: from.index,
        extension: extension_of(from.field.element_type, signed),
    });
    let operands = [nullable_to(HeapType::Concrete(from.ty))];
    let node = plain(alloc, &operands, instruction, 0)?;
    Ok(Some(node))
}

fn choose_array_get(
    alloc: Global,
    scope: &Scope<'_>,
    wanted: ValType,
    draft: &Draft,
    u: &mut Unstructured<'_>,
) -> Result<Option<Node>, Error>
    requires scope { IsScope (bare scope.now) }
    requires named { names_types (bare scope.now) ≡ true }
    requires wanted { IsValid (bare scope.now) wanted }
    ensures exact { IfOk result (λ chosen.
        array_get_at (where_stands scope.now draft.now) wanted u.old ≡ (chosen, u.new)) }
    ensures offer { IsOffer (where_stands scope.now draft.now) draft.now.set.items
        (wanted ∷ []) result }
    ensures memory { IfErr result (λ e. e ≡ Error.Memory) }
    ensures left { KeepsPieces u.old u.new }
{
    let Some(array) = choose_array(scope, FieldUse::Read(wanted), u) else {
        return Ok(None);
    };
    get_element(alloc, scope, wanted, array, draft, u)
}

/// Chooses the read of an element of an array of the type `from`.
fn get_element(
    alloc: Global,
    scope: &Scope<'_>,
    wanted: ValType,
    from: (u32, FieldType),
    draft: &Draft,
    u: &mut Unstructured<'_>,
) -> Result<Option<Node>, Error>
    requires scope { IsScope (bare scope.now) }
    requires named { names_types (bare scope.now) ≡ true }
    requires wanted { IsValid (bare scope.now) wanted }
    requires there { IsArrayAt (bare scope.now).types from.0 from.1 }
    requires usable { is_usable (bare scope.now).types (field_use.Read wanted) from.1 ≡ true }
    ensures exact { IfOk result (λ chosen. array_get from u.old ≡ (chosen, u.new)) }
    ensures offer { IsOffer (where_stands scope.now draft.now) draft.now.set.items
        (wanted ∷ []) result }
    ensures memory { IfErr result (λ e. e ≡ Error.Memory) }
    ensures left { KeepsPieces u.old u.new }
{
    let (ty, element) = from;
    let signed = u.arbitrary();
    let extension = extension_of(element.element_type, signed);
    let instruction = Instr::Aggregate(AggregateInstr::ArrayGet { ty, extension });
    let operands = [nullable_to(HeapType::Concrete(ty)), ValType::I32];
    let node = plain(alloc, &operands, instruction, 0)?;
    Ok(Some(node))
}
