ghost use Rattle.std.specs.Prelude.{◌≡◌, true, [], ◌∷◌, IfOk, IfErr};
ghost use Rattle.smith_bytes.specs.Source.{KeepsPieces};
ghost use Rattle.smith_types.specs.Expressions.{IsArrayAt};
ghost use Rattle.smith_types.specs.Syntax.value_type.ValType.TheVariants.{Ref};
ghost use Rattle.smith_instr.specs.AggregateTypes.{value_of};
ghost use Rattle.smith_instr.specs.Contexts.{IsValid};
ghost use Rattle.smith_body_aggregates.specs.Aggregates.{created_array_at};
ghost use Rattle.smith_body_nodes.specs.IndexedTypes.{is_created_below};
ghost use Rattle.smith_body_nodes.specs.Chosen.{giving};
ghost use Rattle.smith_body_aggregates.specs.CreationChoices.{array_data, array_default_node};
ghost use Rattle.smith_body_aggregates.specs.CreationChoices.{array_elem, array_fixed};
ghost use Rattle.smith_body_aggregates.specs.CreationChoices.{array_new_node, created_at};
ghost use Rattle.smith_body_aggregates.specs.CreationChoices.{creation_at, creations, data_at};
ghost use Rattle.smith_body_aggregates.specs.CreationChoices.{elem_at, fixed_at, struct_default_at};
ghost use Rattle.smith_body_aggregates.specs.CreationChoices.{struct_new_at};
ghost use Rattle.smith_body_aggregates.specs.Fields.{is_of_bytes, is_of_references};
ghost use Rattle.smith_body_nodes.specs.Nodes.{IsOffer};
ghost use Rattle.smith_body_nodes.specs.Scopes.{IsScope, bare, where_stands};
ghost use Rattle.smith_body_aggregates.specs.declared.fields.FieldUse.TheVariants as field_use;

use crate::aggregates::{choose_created_array, choose_created_struct};
use crate::fields::FieldUse;
use smith_body_nodes::{
    Draft, Node, Scope, choose_segment_below, draw_index, field_values, node_taking, plain,
    repeat_value, struct_type_at,
};
use smith_bytes::{Error, Unstructured};
use smith_draw_types::choose;
use smith_instr::{AggregateInstr, Instr};
use smith_types::{FieldType, RefType, ValType, unpack};
use std::alloc::Global;

/// Ways to create a struct or an array.
#[derive(Clone, Copy)]
enum Creation {
    StructNew,
    /// A struct of default values.
    StructDefault,
    ArrayNew,
    /// An array of the default value.
    ArrayDefault,
    /// An array of the operands.
    ArrayFixed,
    /// An array from a data segment.
    ArrayData,
    /// An array from an element segment.
    ArrayElem,
}

fn creations<'a>() -> &'a [Creation]
    ensures { result.now ≡ creations }
{
    &[
        Creation::StructNew,
        Creation::StructDefault,
        Creation::ArrayNew,
        Creation::ArrayDefault,
        Creation::ArrayFixed,
        Creation::ArrayData,
        Creation::ArrayElem,
        Creation::ArrayElem,
        Creation::ArrayElem,
        Creation::ArrayElem,
        Creation::ArrayElem,
        Creation::ArrayElem,
    ]
}

/// Chooses the creation of a struct or an array that produces a value of the type `wanted`.
#[tactic(auto, unfolding(crate::specs::CreationChoices::creation_at))]
pub fn choose_creation(
    alloc: Global,
    scope: &Scope<'_>,
    wanted: ValType,
    draft: &Draft,
    u: &mut Unstructured<'_>,
) -> Result<Option<Node>, Error>
    requires scope { IsScope (bare scope.now) }
    requires wanted { IsValid (bare scope.now) wanted }
    ensures exact { IfOk result (λ chosen.
        creation_at (where_stands scope.now draft.now) wanted u.old ≡ (chosen, u.new)) }
    ensures offer { IsOffer (where_stands scope.now draft.now) draft.now.set.items
        (wanted ∷ []) result }
    ensures memory { IfErr result (λ e. e ≡ Error.Memory) }
    ensures left { KeepsPieces u.old u.new }
{
    match wanted {
        ValType::Ref(to) => choose_created(alloc, scope, to, draft, u),
        _ => Ok(None),
    }
}

/// Chooses the creation of a struct or an array that produces a reference of the type `to`.
fn choose_created(
    alloc: Global,
    scope: &Scope<'_>,
    to: RefType,
    draft: &Draft,
    u: &mut Unstructured<'_>,
) -> Result<Option<Node>, Error>
    requires scope { IsScope (bare scope.now) }
    requires wanted { IsValid (bare scope.now) (Ref to) }
    ensures exact { IfOk result (λ chosen.
        created_at (where_stands scope.now draft.now) (Ref to) u.old ≡ (chosen, u.new)) }
    ensures offer { IsOffer (where_stands scope.now draft.now) draft.now.set.items
        (Ref to ∷ []) result }
    ensures memory { IfErr result (λ e. e ≡ Error.Memory) }
    ensures left { KeepsPieces u.old u.new }
{
    let wanted = ValType::Ref(to);
    match choose(creations(), u) {
        Creation::StructNew => choose_struct_new(alloc, scope, wanted, draft, u),
        Creation::StructDefault => choose_struct_default(alloc, scope, wanted, draft, u),
        Creation::ArrayNew => choose_array_new(alloc, scope, wanted, draft, u),
        Creation::ArrayDefault => choose_array_default(alloc, scope, wanted, draft, u),
        Creation::ArrayFixed => choose_array_fixed(alloc, scope, wanted, draft, u),
        Creation::ArrayData => choose_array_data(alloc, scope, wanted, draft, u),
        Creation::ArrayElem => choose_array_elem(alloc, scope, wanted, draft, u),
    }
}

fn choose_struct_new(
    alloc: Global,
    scope: &Scope<'_>,
    wanted: ValType,
    draft: &Draft,
    u: &mut Unstructured<'_>,
) -> Result<Option<Node>, Error>
    requires scope { IsScope (bare scope.now) }
    requires wanted { IsValid (bare scope.now) wanted }
    ensures exact { IfOk result (λ chosen.
        struct_new_at (where_stands scope.now draft.now) wanted u.old ≡ (chosen, u.new)) }
    ensures offer { IsOffer (where_stands scope.now draft.now) draft.now.set.items
        (wanted ∷ []) result }
    ensures memory { IfErr result (λ e. e ≡ Error.Memory) }
    ensures left { KeepsPieces u.old u.new }
{
    let Some(ty) = choose_created_struct(scope, wanted, false, u) else {
        return Ok(None);
    };
    let Some(structure) = struct_type_at(scope, ty as usize) else {
        return Ok(None);
    };
    let operands = field_values(alloc, structure.fields.as_slice())?;
    let node = node_taking(operands, Instr::Aggregate(AggregateInstr::StructNew(ty)));
    Ok(Some(node))
}

fn choose_struct_default(
    alloc: Global,
    scope: &Scope<'_>,
    wanted: ValType,
    draft: &Draft,
    u: &mut Unstructured<'_>,
) -> Result<Option<Node>, Error>
    requires scope { IsScope (bare scope.now) }
    requires wanted { IsValid (bare scope.now) wanted }
    ensures exact { IfOk result (λ chosen.
        struct_default_at (where_stands scope.now draft.now) wanted u.old ≡ (chosen, u.new)) }
    ensures offer { IsOffer (where_stands scope.now draft.now) draft.now.set.items
        (wanted ∷ []) result }
    ensures memory { IfErr result (λ e. e ≡ Error.Memory) }
    ensures left { KeepsPieces u.old u.new }
{
    let Some(ty) = choose_created_struct(scope, wanted, true, u) else {
        return Ok(None);
    };
    let instruction = Instr::Aggregate(AggregateInstr::StructNewDefault(ty));
    let node = plain(alloc, &[], instruction, 0)?;
    Ok(Some(node))
}

fn choose_array_new(
    alloc: Global,
    scope: &Scope<'_>,
    wanted: ValType,
    draft: &Draft,
    u: &mut Unstructured<'_>,
) -> Result<Option<Node>, Error>
    requires scope { IsScope (bare scope.now) }
    requires wanted { IsValid (bare scope.now) wanted }
    ensures exact { IfOk result (λ chosen. giving array_new_node
        (created_array_at (where_stands scope.now draft.now) wanted field_use.New u.old)
        ≡ (chosen, u.new)) }
    ensures offer { IsOffer (where_stands scope.now draft.now) draft.now.set.items
        (wanted ∷ []) result }
    ensures memory { IfErr result (λ e. e ≡ Error.Memory) }
    ensures left { KeepsPieces u.old u.new }
{
    let Some(array) = choose_created_array(scope, wanted, FieldUse::New, u) else {
        return Ok(None);
    };
    let (ty, element) = array;
    let operands = [unpack(element.element_type), ValType::I32];
    let instruction = Instr::Aggregate(AggregateInstr::ArrayNew(ty));
    let node = plain(alloc, &operands, instruction, 0)?;
    Ok(Some(node))
}

fn choose_array_default(
    alloc: Global,
    scope: &Scope<'_>,
    wanted: ValType,
    draft: &Draft,
    u: &mut Unstructured<'_>,
) -> Result<Option<Node>, Error>
    requires scope { IsScope (bare scope.now) }
    requires wanted { IsValid (bare scope.now) wanted }
    ensures exact { IfOk result (λ chosen. giving array_default_node
        (created_array_at (where_stands scope.now draft.now) wanted field_use.NewDefault u.old)
        ≡ (chosen, u.new)) }
    ensures offer { IsOffer (where_stands scope.now draft.now) draft.now.set.items
        (wanted ∷ []) result }
    ensures memory { IfErr result (λ e. e ≡ Error.Memory) }
    ensures left { KeepsPieces u.old u.new }
{
    let Some(array) = choose_created_array(scope, wanted, FieldUse::NewDefault, u) else {
        return Ok(None);
    };
    let instruction = Instr::Aggregate(AggregateInstr::ArrayNewDefault(array.0));
    let node = plain(alloc, &[ValType::I32], instruction, 0)?;
    Ok(Some(node))
}

fn choose_array_fixed(
    alloc: Global,
    scope: &Scope<'_>,
    wanted: ValType,
    draft: &Draft,
    u: &mut Unstructured<'_>,
) -> Result<Option<Node>, Error>
    requires scope { IsScope (bare scope.now) }
    requires wanted { IsValid (bare scope.now) wanted }
    ensures exact { IfOk result (λ chosen.
        fixed_at (where_stands scope.now draft.now) wanted u.old ≡ (chosen, u.new)) }
    ensures offer { IsOffer (where_stands scope.now draft.now) draft.now.set.items
        (wanted ∷ []) result }
    ensures memory { IfErr result (λ e. e ≡ Error.Memory) }
    ensures left { KeepsPieces u.old u.new }
{
    let Some(array) = choose_created_array(scope, wanted, FieldUse::New, u) else {
        return Ok(None);
    };
    fixed_of(alloc, scope, wanted, array, draft, u)
}

/// Chooses the creation of an array of the type `array` from at most seven operands.
fn fixed_of(
    alloc: Global,
    scope: &Scope<'_>,
    wanted: ValType,
    array: (u32, FieldType),
    draft: &Draft,
    u: &mut Unstructured<'_>,
) -> Result<Option<Node>, Error>
    requires scope { IsScope (bare scope.now) }
    requires wanted { IsValid (bare scope.now) wanted }
    requires there { IsArrayAt (bare scope.now).types array.0 array.1 }
    requires created { is_created_below (bare scope.now) wanted array.0 ≡ true }
    ensures exact { IfOk result (λ chosen. array_fixed array u.old ≡ (chosen, u.new)) }
    ensures offer { IsOffer (where_stands scope.now draft.now) draft.now.set.items
        (wanted ∷ []) result }
    ensures memory { IfErr result (λ e. e ≡ Error.Memory) }
    ensures left { KeepsPieces u.old u.new }
{
    let (ty, element) = array;
    let size = u.int_in_range(0..=7u32);
    let operands = repeat_value(alloc, unpack(element.element_type), size)?;
    let instruction = Instr::Aggregate(AggregateInstr::ArrayNewFixed { ty, size });
    Ok(Some(node_taking(operands, instruction)))
}

fn choose_array_data(
    alloc: Global,
    scope: &Scope<'_>,
    wanted: ValType,
    draft: &Draft,
    u: &mut Unstructured<'_>,
) -> Result<Option<Node>, Error>
    requires scope { IsScope (bare scope.now) }
    requires wanted { IsValid (bare scope.now) wanted }
    ensures exact { IfOk result (λ chosen.
        data_at (where_stands scope.now draft.now) wanted u.old ≡ (chosen, u.new)) }
    ensures offer { IsOffer (where_stands scope.now draft.now) draft.now.set.items
        (wanted ∷ []) result }
    ensures memory { IfErr result (λ e. e ≡ Error.Memory) }
    ensures left { KeepsPieces u.old u.new }
{
    let Some(array) = choose_created_array(scope, wanted, FieldUse::NewBytes, u) else {
        return Ok(None);
    };
    data_of(alloc, scope, wanted, array, draft, u)
}

/// Chooses the creation of an array of the type `array` from a data segment.
fn data_of(
    alloc: Global,
    scope: &Scope<'_>,
    wanted: ValType,
    array: (u32, FieldType),
    draft: &Draft,
    u: &mut Unstructured<'_>,
) -> Result<Option<Node>, Error>
    requires scope { IsScope (bare scope.now) }
    requires wanted { IsValid (bare scope.now) wanted }
    requires there { IsArrayAt (bare scope.now).types array.0 array.1 }
    requires created { is_created_below (bare scope.now) wanted array.0 ≡ true }
    requires bytes { is_of_bytes array.1.element_type ≡ true }
    ensures exact { IfOk result (λ chosen.
        array_data (where_stands scope.now draft.now) array u.old ≡ (chosen, u.new)) }
    ensures offer { IsOffer (where_stands scope.now draft.now) draft.now.set.items
        (wanted ∷ []) result }
    ensures memory { IfErr result (λ e. e ≡ Error.Memory) }
    ensures left { KeepsPieces u.old u.new }
{
    let Some(segment) = draw_index(scope.datas, u) else {
        return Ok(None);
    };
    let ty = array.0;
    let instruction = Instr::Aggregate(AggregateInstr::ArrayNewData { ty, segment });
    let node = plain(alloc, &[ValType::I32, ValType::I32], instruction, 0)?;
    Ok(Some(node))
}

fn choose_array_elem(
    alloc: Global,
    scope: &Scope<'_>,
    wanted: ValType,
    draft: &Draft,
    u: &mut Unstructured<'_>,
) -> Result<Option<Node>, Error>
    requires scope { IsScope (bare scope.now) }
    requires wanted { IsValid (bare scope.now) wanted }
    ensures exact { IfOk result (λ chosen.
        elem_at (where_stands scope.now draft.now) wanted u.old ≡ (chosen, u.new)) }
    ensures offer { IsOffer (where_stands scope.now draft.now) draft.now.set.items
        (wanted ∷ []) result }
    ensures memory { IfErr result (λ e. e ≡ Error.Memory) }
    ensures left { KeepsPieces u.old u.new }
{
    let Some(array) = choose_created_array(scope, wanted, FieldUse::NewReferences, u) else {
        return Ok(None);
    };
    elem_of(alloc, scope, wanted, array, draft, u)
}

/// Chooses the creation of an array of the type `array` from an element segment.
fn elem_of(
    alloc: Global,
    scope: &Scope<'_>,
    wanted: ValType,
    array: (u32, FieldType),
    draft: &Draft,
    u: &mut Unstructured<'_>,
) -> Result<Option<Node>, Error>
    requires scope { IsScope (bare scope.now) }
    requires wanted { IsValid (bare scope.now) wanted }
    requires there { IsArrayAt (bare scope.now).types array.0 array.1 }
    requires element { IsValid (bare scope.now) (value_of array.1) }
    requires created { is_created_below (bare scope.now) wanted array.0 ≡ true }
    requires references { is_of_references array.1.element_type ≡ true }
    ensures exact { IfOk result (λ chosen.
        array_elem (where_stands scope.now draft.now) array u.old ≡ (chosen, u.new)) }
    ensures offer { IsOffer (where_stands scope.now draft.now) draft.now.set.items
        (wanted ∷ []) result }
    ensures memory { IfErr result (λ e. e ≡ Error.Memory) }
    ensures left { KeepsPieces u.old u.new }
{
    let (ty, element) = array;
    let Some(segment) = choose_segment_below(scope, unpack(element.element_type), u) else {
        return Ok(None);
    };
    let instruction = Instr::Aggregate(AggregateInstr::ArrayNewElem { ty, segment });
    let node = plain(alloc, &[ValType::I32, ValType::I32], instruction, 0)?;
    Ok(Some(node))
}
