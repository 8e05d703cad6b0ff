ghost use Rattle.std.specs.Prelude.{◌≡◌, true, [], IfOk, IfErr};
ghost use Rattle.smith_bytes.specs.Source.{KeepsPieces};
ghost use Rattle.smith_types.specs.Expressions.{IsArrayAt};
ghost use Rattle.smith_instr.specs.AggregateTypes.{value_of};
ghost use Rattle.smith_instr.specs.Contexts.{IsValid};
ghost use Rattle.smith_body_aggregates.specs.Aggregates.{array_at, field_at};
ghost use Rattle.smith_body_nodes.specs.IndexedTypes.{names_types};
ghost use Rattle.smith_body_nodes.specs.Chosen.{giving, or_nop};
ghost use Rattle.smith_body_aggregates.specs.FieldChoices.{array_copied, array_copy_at};
ghost use Rattle.smith_body_aggregates.specs.FieldChoices.{array_fill_node, array_set_node};
ghost use Rattle.smith_body_aggregates.specs.FieldChoices.{data_initialized, elem_initialized};
ghost use Rattle.smith_body_aggregates.specs.FieldChoices.{field_write_at, field_writes};
ghost use Rattle.smith_body_aggregates.specs.FieldChoices.{init_data_at, init_elem_at};
ghost use Rattle.smith_body_aggregates.specs.FieldChoices.{struct_set_node, write_at};
ghost use Rattle.smith_body_aggregates.specs.Fields.{is_usable};
ghost use Rattle.smith_body_nodes.specs.Nodes.{IsNode};
ghost use Rattle.smith_body_nodes.specs.Scopes.{IsScope, bare, where_stands};
ghost use Rattle.smith_body_aggregates.specs.declared.fields.FieldUse.TheVariants as field_use;

use crate::aggregates::{choose_array, choose_field};
use crate::fields::FieldUse;
use smith_body_nodes::{
    Draft, Node, Scope, choose_segment_below, draw_index, names_types, nullable_to, plain,
};
use smith_bytes::{Error, Unstructured};
use smith_draw_types::choose;
use smith_instr::{AggregateInstr, Instr};
use smith_types::{FieldType, HeapType, ValType, unpack};
use std::alloc::Global;

/// Statements on a struct or an array.
#[derive(Clone, Copy)]
enum FieldWrite {
    StructSet,
    ArraySet,
    ArrayFill,
    ArrayCopy,
    InitData,
    InitElem,
}

fn field_writes<'a>() -> &'a [FieldWrite]
    ensures { result.now ≡ field_writes }
{
    &[
        FieldWrite::StructSet,
        FieldWrite::ArraySet,
        FieldWrite::ArrayFill,
        FieldWrite::ArrayCopy,
        FieldWrite::InitData,
        FieldWrite::InitElem,
        FieldWrite::InitElem,
        FieldWrite::InitElem,
    ]
}

/// Chooses a statement on a struct or an array, or `nop` if no value may be a reference to a type.
pub fn choose_field_write(
    alloc: Global,
    scope: &Scope<'_>,
    draft: &Draft,
    u: &mut Unstructured<'_>,
) -> Result<Node, Error>
    requires scope { IsScope (bare scope.now) }
    ensures exact { IfOk result (λ node.
        or_nop (field_write_at (where_stands scope.now draft.now) u.old) ≡ (node, u.new)) }
    ensures node { IfOk result (IsNode (where_stands scope.now draft.now) draft.now.set.items []) }
    ensures memory { IfErr result (λ e. e ≡ Error.Memory) }
    ensures left { KeepsPieces u.old u.new }
{
    if !names_types(scope) {
        return plain(alloc, &[], Instr::Nop, 0);
    }
    choose_write(alloc, scope, draft, u)
}

fn choose_write(
    alloc: Global,
    scope: &Scope<'_>,
    draft: &Draft,
    u: &mut Unstructured<'_>,
) -> Result<Node, Error>
    requires scope { IsScope (bare scope.now) }
    requires named { names_types (bare scope.now) ≡ true }
    ensures exact { IfOk result (λ node.
        or_nop (write_at (where_stands scope.now draft.now) u.old) ≡ (node, u.new)) }
    ensures node { IfOk result (IsNode (where_stands scope.now draft.now) draft.now.set.items []) }
    ensures memory { IfErr result (λ e. e ≡ Error.Memory) }
    ensures left { KeepsPieces u.old u.new }
{
    match choose(field_writes(), u) {
        FieldWrite::StructSet => choose_struct_set(alloc, scope, draft, u),
        FieldWrite::ArraySet => choose_array_set(alloc, scope, draft, u),
        FieldWrite::ArrayFill => choose_array_fill(alloc, scope, draft, u),
        FieldWrite::ArrayCopy => choose_array_copy(alloc, scope, draft, u),
        FieldWrite::InitData => choose_init_data(alloc, scope, draft, u),
        FieldWrite::InitElem => choose_init_elem(alloc, scope, draft, u),
    }
}

fn choose_struct_set(
    alloc: Global,
    scope: &Scope<'_>,
    draft: &Draft,
    u: &mut Unstructured<'_>,
) -> Result<Node, Error>
    requires scope { IsScope (bare scope.now) }
    requires named { names_types (bare scope.now) ≡ true }
    ensures exact { IfOk result (λ node. or_nop
        (giving struct_set_node (field_at (where_stands scope.now draft.now) field_use.Set u.old))
        ≡ (node, u.new)) }
    ensures node { IfOk result (IsNode (where_stands scope.now draft.now) draft.now.set.items []) }
    ensures memory { IfErr result (λ e. e ≡ Error.Memory) }
    ensures left { KeepsPieces u.old u.new }
{
    let Some(chosen) = choose_field(scope, FieldUse::Set, u) else {
        return plain(alloc, &[], Instr::Nop, 0);
    };
    let operands = [
        nullable_to(HeapType::Concrete(chosen.ty)),
        unpack(chosen.field.element_type),
    ];
    let instruction = Instr::Aggregate(AggregateInstr::StructSet {
        ty: chosen.ty,
        field: chosen.index,
    });
    plain(alloc, &operands, instruction, 0)
}

fn choose_array_set(
    alloc: Global,
    scope: &Scope<'_>,
    draft: &Draft,
    u: &mut Unstructured<'_>,
) -> Result<Node, Error>
    requires scope { IsScope (bare scope.now) }
    requires named { names_types (bare scope.now) ≡ true }
    ensures exact { IfOk result (λ node. or_nop
        (giving array_set_node (array_at (where_stands scope.now draft.now) field_use.Set u.old))
        ≡ (node, u.new)) }
    ensures node { IfOk result (IsNode (where_stands scope.now draft.now) draft.now.set.items []) }
    ensures memory { IfErr result (λ e. e ≡ Error.Memory) }
    ensures left { KeepsPieces u.old u.new }
{
    let Some(array) = choose_array(scope, FieldUse::Set, u) else {
        return plain(alloc, &[], Instr::Nop, 0);
    };
    let (ty, element) = array;
    let operands = [
        nullable_to(HeapType::Concrete(ty)),
        ValType::I32,
        unpack(element.element_type),
    ];
    let instruction = Instr::Aggregate(AggregateInstr::ArraySet(ty));
    plain(alloc, &operands, instruction, 0)
}

fn choose_array_fill(
    alloc: Global,
    scope: &Scope<'_>,
    draft: &Draft,
    u: &mut Unstructured<'_>,
) -> Result<Node, Error>
    requires scope { IsScope (bare scope.now) }
    requires named { names_types (bare scope.now) ≡ true }
    ensures exact { IfOk result (λ node. or_nop
        (giving array_fill_node (array_at (where_stands scope.now draft.now) field_use.Set u.old))
        ≡ (node, u.new)) }
    ensures node { IfOk result (IsNode (where_stands scope.now draft.now) draft.now.set.items []) }
    ensures memory { IfErr result (λ e. e ≡ Error.Memory) }
    ensures left { KeepsPieces u.old u.new }
{
    let Some(array) = choose_array(scope, FieldUse::Set, u) else {
        return plain(alloc, &[], Instr::Nop, 0);
    };
    let (ty, element) = array;
    let operands = [
        nullable_to(HeapType::Concrete(ty)),
        ValType::I32,
        unpack(element.element_type),
        ValType::I32,
    ];
    let instruction = Instr::Aggregate(AggregateInstr::ArrayFill(ty));
    plain(alloc, &operands, instruction, 0)
}

fn choose_array_copy(
    alloc: Global,
    scope: &Scope<'_>,
    draft: &Draft,
    u: &mut Unstructured<'_>,
) -> Result<Node, Error>
    requires scope { IsScope (bare scope.now) }
    requires named { names_types (bare scope.now) ≡ true }
    ensures exact { IfOk result (λ node.
        or_nop (array_copy_at (where_stands scope.now draft.now) u.old) ≡ (node, u.new)) }
    ensures node { IfOk result (IsNode (where_stands scope.now draft.now) draft.now.set.items []) }
    ensures memory { IfErr result (λ e. e ≡ Error.Memory) }
    ensures left { KeepsPieces u.old u.new }
{
    let Some(into) = choose_array(scope, FieldUse::Set, u) else {
        return plain(alloc, &[], Instr::Nop, 0);
    };
    copy_into(alloc, scope, into, draft, u)
}

/// Chooses a copy into an array of the type `into`.
fn copy_into(
    alloc: Global,
    scope: &Scope<'_>,
    into: (u32, FieldType),
    draft: &Draft,
    u: &mut Unstructured<'_>,
) -> Result<Node, Error>
    requires scope { IsScope (bare scope.now) }
    requires named { names_types (bare scope.now) ≡ true }
    requires there { IsArrayAt (bare scope.now).types into.0 into.1 }
    requires valid { IsValid (bare scope.now) (value_of into.1) }
    requires mutable { is_usable (bare scope.now).types field_use.Set into.1 ≡ true }
    ensures exact { IfOk result (λ node.
        or_nop (array_copied (where_stands scope.now draft.now) into u.old) ≡ (node, u.new)) }
    ensures node { IfOk result (IsNode (where_stands scope.now draft.now) draft.now.set.items []) }
    ensures memory { IfErr result (λ e. e ≡ Error.Memory) }
    ensures left { KeepsPieces u.old u.new }
{
    let (to, element) = into;
    let Some(out) = choose_array(scope, FieldUse::CopyInto(element.element_type), u) else {
        return plain(alloc, &[], Instr::Nop, 0);
    };
    let from = out.0;
    let operands = [
        nullable_to(HeapType::Concrete(to)),
        ValType::I32,
        nullable_to(HeapType::Concrete(from)),
        ValType::I32,
        ValType::I32,
    ];
    let instruction = Instr::Aggregate(AggregateInstr::ArrayCopy { to, from });
    plain(alloc, &operands, instruction, 0)
}

fn choose_init_data(
    alloc: Global,
    scope: &Scope<'_>,
    draft: &Draft,
    u: &mut Unstructured<'_>,
) -> Result<Node, Error>
    requires scope { IsScope (bare scope.now) }
    requires named { names_types (bare scope.now) ≡ true }
    ensures exact { IfOk result (λ node.
        or_nop (init_data_at (where_stands scope.now draft.now) u.old) ≡ (node, u.new)) }
    ensures node { IfOk result (IsNode (where_stands scope.now draft.now) draft.now.set.items []) }
    ensures memory { IfErr result (λ e. e ≡ Error.Memory) }
    ensures left { KeepsPieces u.old u.new }
{
    let Some(into) = choose_array(scope, FieldUse::SetBytes, u) else {
        return plain(alloc, &[], Instr::Nop, 0);
    };
    init_data_of(alloc, scope, into, draft, u)
}

/// Chooses a data segment to copy into an array of the type `into`.
fn init_data_of(
    alloc: Global,
    scope: &Scope<'_>,
    into: (u32, FieldType),
    draft: &Draft,
    u: &mut Unstructured<'_>,
) -> Result<Node, Error>
    requires scope { IsScope (bare scope.now) }
    requires named { names_types (bare scope.now) ≡ true }
    requires there { IsArrayAt (bare scope.now).types into.0 into.1 }
    requires usable { is_usable (bare scope.now).types field_use.SetBytes into.1 ≡ true }
    ensures exact { IfOk result (λ node.
        or_nop (data_initialized (where_stands scope.now draft.now) into u.old) ≡ (node, u.new)) }
    ensures node { IfOk result (IsNode (where_stands scope.now draft.now) draft.now.set.items []) }
    ensures memory { IfErr result (λ e. e ≡ Error.Memory) }
    ensures left { KeepsPieces u.old u.new }
{
    let Some(segment) = draw_index(scope.datas, u) else {
        return plain(alloc, &[], Instr::Nop, 0);
    };
    let ty = into.0;
    let array = nullable_to(HeapType::Concrete(ty));
    let operands = [array, ValType::I32, ValType::I32, ValType::I32];
    let instruction = Instr::Aggregate(AggregateInstr::ArrayInitData { ty, segment });
    plain(alloc, &operands, instruction, 0)
}

fn choose_init_elem(
    alloc: Global,
    scope: &Scope<'_>,
    draft: &Draft,
    u: &mut Unstructured<'_>,
) -> Result<Node, Error>
    requires scope { IsScope (bare scope.now) }
    requires named { names_types (bare scope.now) ≡ true }
    ensures exact { IfOk result (λ node.
        or_nop (init_elem_at (where_stands scope.now draft.now) u.old) ≡ (node, u.new)) }
    ensures node { IfOk result (IsNode (where_stands scope.now draft.now) draft.now.set.items []) }
    ensures memory { IfErr result (λ e. e ≡ Error.Memory) }
    ensures left { KeepsPieces u.old u.new }
{
    let Some(into) = choose_array(scope, FieldUse::SetReferences, u) else {
        return plain(alloc, &[], Instr::Nop, 0);
    };
    init_elem_of(alloc, scope, into, draft, u)
}

/// Chooses an element segment to copy into an array of the type `into`.
fn init_elem_of(
    alloc: Global,
    scope: &Scope<'_>,
    into: (u32, FieldType),
    draft: &Draft,
    u: &mut Unstructured<'_>,
) -> Result<Node, Error>
    requires scope { IsScope (bare scope.now) }
    requires named { names_types (bare scope.now) ≡ true }
    requires there { IsArrayAt (bare scope.now).types into.0 into.1 }
    requires valid { IsValid (bare scope.now) (value_of into.1) }
    requires usable { is_usable (bare scope.now).types field_use.SetReferences into.1 ≡ true }
    ensures exact { IfOk result (λ node.
        or_nop (elem_initialized (where_stands scope.now draft.now) into u.old) ≡ (node, u.new)) }
    ensures node { IfOk result (IsNode (where_stands scope.now draft.now) draft.now.set.items []) }
    ensures memory { IfErr result (λ e. e ≡ Error.Memory) }
    ensures left { KeepsPieces u.old u.new }
{
    let (ty, element) = into;
    let Some(segment) = choose_segment_below(scope, unpack(element.element_type), u) else {
        return plain(alloc, &[], Instr::Nop, 0);
    };
    let array = nullable_to(HeapType::Concrete(ty));
    let operands = [array, ValType::I32, ValType::I32, ValType::I32];
    let instruction = Instr::Aggregate(AggregateInstr::ArrayInitElem { ty, segment });
    plain(alloc, &operands, instruction, 0)
}
