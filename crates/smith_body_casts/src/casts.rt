ghost use Rattle.std.specs.Prelude.{◌≡◌, false, true, Some, [], ◌∷◌, IfOk, IfErr};
ghost use Rattle.std.specs.Prelude.{IfSome};
ghost use Rattle.smith_bytes.specs.Source.{KeepsPieces};
ghost use Rattle.smith_types.specs.Syntax.value_type.ValType.TheVariants.{I32, Ref};
ghost use Rattle.smith_instr.specs.Contexts.{IsValid, nullable_to};
ghost use Rattle.smith_body_nodes.specs.IndexedTypes.{names_types};
ghost use Rattle.smith_body_casts.specs.CastChoices.{cast_at, cast_choice_at, cast_for};
ghost use Rattle.smith_body_casts.specs.CastChoices.{conversion_at, conversions, converted_to};
ghost use Rattle.smith_body_casts.specs.CastChoices.{i31_node, is_i31_below, non_null_test_at};
ghost use Rattle.smith_body_casts.specs.CastChoices.{reference_local_at, scalar_at, scalars};
ghost use Rattle.smith_body_casts.specs.CastChoices.{tested_for, type_test_at, without_null};
ghost use Rattle.smith_body_nodes.specs.Nodes.{IsOffer, aggregate_of};
ghost use Rattle.smith_body_nodes.specs.Scopes.{IsScope, bare, where_stands};

use smith_body_nodes::{
    Draft, Node, Offer, Scope, choose_offered, draw_above, indexed_count, is_sub_type, names_types,
    nullable_to, plain,
};
use smith_bytes::{Error, Unstructured};
use smith_draw_types::choose;
use smith_instr::{AggregateInstr, Instr, ReferenceInstr};
use smith_types::{AbstractHeapType, HeapType, RefType, ValType, WasmFeatures};
use std::alloc::Global;

/// Instructions that produce a number from a reference.
#[derive(Clone, Copy)]
enum Scalar {
    /// The length of an array.
    Length,
    /// An i31 that is extended by its sign.
    Signed,
    /// An i31 that is extended by zeros.
    Unsigned,
    /// A test for a reference type.
    Test,
    /// A test for a non-nullable reference type.
    NonNullTest,
}

/// Instructions that produce a reference from a number or another reference.
#[derive(Clone, Copy)]
enum Conversion {
    I31,
    /// A conversion between internal and external references.
    Outside,
    Cast,
    /// A cast to a non-nullable reference type.
    NonNullCast,
}

fn scalars<'a>() -> &'a [Scalar]
    ensures { result.now ≡ scalars }
{
    &[
        Scalar::Length,
        Scalar::Signed,
        Scalar::Unsigned,
        Scalar::Test,
        Scalar::NonNullTest,
    ]
}

fn conversions<'a>() -> &'a [Conversion]
    ensures { result.now ≡ conversions }
{
    &[
        Conversion::I31,
        Conversion::Outside,
        Conversion::Cast,
        Conversion::NonNullCast,
        Conversion::Outside,
        Conversion::Outside,
        Conversion::Outside,
    ]
}

/// Locals of reference types.
#[derive(Clone, Copy)]
struct ReferenceLocalOffer<'a> {
    scope: &'a Scope<'a>,
}

impl<'a> Offer for ReferenceLocalOffer<'a> {
    ghost use Rattle.std.specs.Prelude.{length};
    ghost use Rattle.smith_body_casts.specs.CastChoices.{is_reference_local};
    ghost use Rattle.smith_body_nodes.specs.Scopes.{bare, indexed};

    ghost ready = { λ self. Unit {0} };

    ghost size = { λ self. indexed (length self.scope.now.locals.now) };

    ghost test = { λ self index. is_reference_local (bare self.scope.now) index };

    fn count(&self) -> usize {
        indexed_count(self.scope.locals.len())
    }

    fn is_offered(&self, index: usize) -> bool {
        matches!(self.scope.locals[index], ValType::Ref(_))
    }
}

/// Chooses a cast, a test, a conversion or an instruction on an i31 that produces a value of the
/// type `wanted`.
pub fn choose_cast(
    alloc: Global,
    scope: &Scope<'_>,
    wanted: ValType,
    draft: &Draft,
    u: &mut Unstructured<'_>,
) -> Result<Option<Node>, Error>
    requires scope { IsScope (bare scope.now) }
    requires wanted { IsValid (bare scope.now) wanted }
    ensures exact { IfOk result (λ chosen.
        cast_choice_at (where_stands scope.now draft.now) wanted u.old ≡ (chosen, u.new)) }
    ensures offer { IsOffer (where_stands scope.now draft.now) draft.now.set.items
        (wanted ∷ []) result }
    ensures memory { IfErr result (λ e. e ≡ Error.Memory) }
    ensures left { KeepsPieces u.old u.new }
{
    if !names_types(scope) {
        return Ok(None);
    }
    choose_cast_for(alloc, scope, wanted, draft, u)
}

#[tactic(auto, unfolding(crate::specs::CastChoices::cast_for))]
fn choose_cast_for(
    alloc: Global,
    scope: &Scope<'_>,
    wanted: ValType,
    draft: &Draft,
    u: &mut Unstructured<'_>,
) -> Result<Option<Node>, Error>
    requires scope { IsScope (bare scope.now) }
    requires named { names_types (bare scope.now) ≡ true }
    requires wanted { IsValid (bare scope.now) wanted }
    ensures exact { IfOk result (λ chosen.
        cast_for (where_stands scope.now draft.now) wanted u.old ≡ (chosen, u.new)) }
    ensures offer { IsOffer (where_stands scope.now draft.now) draft.now.set.items
        (wanted ∷ []) result }
    ensures memory { IfErr result (λ e. e ≡ Error.Memory) }
    ensures left { KeepsPieces u.old u.new }
{
    match wanted {
        ValType::I32 => choose_scalar(alloc, scope, draft, u),
        ValType::Ref(to) => choose_conversion(alloc, scope, to, draft, u),
        _ => Ok(None),
    }
}

/// Chooses an instruction that produces a number from a reference.
fn choose_scalar(
    alloc: Global,
    scope: &Scope<'_>,
    draft: &Draft,
    u: &mut Unstructured<'_>,
) -> Result<Option<Node>, Error>
    requires scope { IsScope (bare scope.now) }
    requires named { names_types (bare scope.now) ≡ true }
    ensures exact { IfOk result (λ chosen.
        scalar_at (where_stands scope.now draft.now) u.old ≡ (chosen, u.new)) }
    ensures offer { IsOffer (where_stands scope.now draft.now) draft.now.set.items
        (I32 ∷ []) result }
    ensures memory { IfErr result (λ e. e ≡ Error.Memory) }
    ensures left { KeepsPieces u.old u.new }
{
    let array = AbstractHeapType::Array;
    let i31 = AbstractHeapType::I31;
    match choose(scalars(), u) {
        Scalar::Length => out_of(alloc, array, AggregateInstr::ArrayLen),
        Scalar::Signed => out_of(alloc, i31, AggregateInstr::I31GetS),
        Scalar::Unsigned => out_of(alloc, i31, AggregateInstr::I31GetU),
        Scalar::Test => choose_type_test(alloc, scope, draft, u),
        Scalar::NonNullTest => choose_non_null_test(alloc, scope, draft, u),
    }
}

/// Creates the node of `op`, which takes a nullable reference to the abstract heap type `ty`.
fn out_of(alloc: Global, ty: AbstractHeapType, op: AggregateInstr) -> Result<Option<Node>, Error>
    ensures exact { IfOk result (λ chosen.
        chosen ≡ Some (aggregate_of (nullable_to (HeapType.Abstract false ty) ∷ []) op)) }
    ensures memory { IfErr result (λ e. e ≡ Error.Memory) }
{
    let heap_type = HeapType::Abstract { shared: false, ty };
    let node = plain(alloc, &[nullable_to(heap_type)], Instr::Aggregate(op), 0)?;
    Ok(Some(node))
}

/// Chooses a test of a reference for the type of a local.
fn choose_type_test(
    alloc: Global,
    scope: &Scope<'_>,
    draft: &Draft,
    u: &mut Unstructured<'_>,
) -> Result<Option<Node>, Error>
    requires scope { IsScope (bare scope.now) }
    ensures exact { IfOk result (λ chosen.
        type_test_at (where_stands scope.now draft.now) u.old ≡ (chosen, u.new)) }
    ensures offer { IsOffer (where_stands scope.now draft.now) draft.now.set.items
        (I32 ∷ []) result }
    ensures memory { IfErr result (λ e. e ≡ Error.Memory) }
    ensures left { KeepsPieces u.old u.new }
{
    let Some(to) = choose_reference_local(scope, u) else {
        return Ok(None);
    };
    test_for(alloc, scope, to, draft, u)
}

/// Chooses a test of a reference for the non-nullable form of the type of a local.
fn choose_non_null_test(
    alloc: Global,
    scope: &Scope<'_>,
    draft: &Draft,
    u: &mut Unstructured<'_>,
) -> Result<Option<Node>, Error>
    requires scope { IsScope (bare scope.now) }
    ensures exact { IfOk result (λ chosen.
        non_null_test_at (where_stands scope.now draft.now) u.old ≡ (chosen, u.new)) }
    ensures offer { IsOffer (where_stands scope.now draft.now) draft.now.set.items
        (I32 ∷ []) result }
    ensures memory { IfErr result (λ e. e ≡ Error.Memory) }
    ensures left { KeepsPieces u.old u.new }
{
    let Some(to) = choose_reference_local(scope, u) else {
        return Ok(None);
    };
    let strict = without_null(scope, to);
    test_for(alloc, scope, strict, draft, u)
}

/// Chooses a local of a reference type, and returns that type.
fn choose_reference_local(scope: &Scope<'_>, u: &mut Unstructured<'_>) -> Option<RefType>
    requires scope { IsScope (bare scope.now) }
    ensures exact { reference_local_at (bare scope.now) u.old ≡ (result, u.new) }
    ensures valid { IfSome result (λ to. IsValid (bare scope.now) (Ref to)) }
    ensures left { KeepsPieces u.old u.new }
{
    let index = choose_offered(&ReferenceLocalOffer { scope }, u)?;
    match scope.locals[index] {
        ValType::Ref(to) => Some(to),
        _ => None,
    }
}

/// Chooses a test of a reference for the type `to`.
fn test_for(
    alloc: Global,
    scope: &Scope<'_>,
    to: RefType,
    draft: &Draft,
    u: &mut Unstructured<'_>,
) -> Result<Option<Node>, Error>
    requires scope { IsScope (bare scope.now) }
    requires to { IsValid (bare scope.now) (Ref to) }
    ensures exact { IfOk result (λ chosen.
        tested_for (where_stands scope.now draft.now) to u.old ≡ (chosen, u.new)) }
    ensures offer { IsOffer (where_stands scope.now draft.now) draft.now.set.items
        (I32 ∷ []) result }
    ensures memory { IfErr result (λ e. e ≡ Error.Memory) }
    ensures left { KeepsPieces u.old u.new }
{
    let from = draw_above(scope, to, u);
    let instruction = Instr::Reference(ReferenceInstr::Test(to));
    let node = plain(alloc, &[ValType::Ref(from)], instruction, 0)?;
    Ok(Some(node))
}

/// Returns the non-nullable form of `to` if such types are enabled, else `to`.
fn without_null(scope: &Scope<'_>, to: RefType) -> RefType
    requires to { IsValid (bare scope.now) (Ref to) }
    ensures exact { result ≡ without_null (bare scope.now).features to }
    ensures valid { IsValid (bare scope.now) (Ref result) }
{
    let has_null = !scope.features.contains(WasmFeatures::FUNCTION_REFERENCES);
    RefType {
        nullable: to.nullable && has_null,
        heap_type: to.heap_type,
    }
}

/// Chooses an instruction that produces a reference of the type `to` from a number or another
/// reference.
fn choose_conversion(
    alloc: Global,
    scope: &Scope<'_>,
    to: RefType,
    draft: &Draft,
    u: &mut Unstructured<'_>,
) -> Result<Option<Node>, Error>
    requires scope { IsScope (bare scope.now) }
    requires named { names_types (bare scope.now) ≡ true }
    requires to { IsValid (bare scope.now) (Ref to) }
    ensures exact { IfOk result (λ chosen.
        conversion_at (where_stands scope.now draft.now) to u.old ≡ (chosen, u.new)) }
    ensures offer { IsOffer (where_stands scope.now draft.now) draft.now.set.items
        (Ref to ∷ []) result }
    ensures memory { IfErr result (λ e. e ≡ Error.Memory) }
    ensures left { KeepsPieces u.old u.new }
{
    match choose(conversions(), u) {
        Conversion::I31 => choose_i31(alloc, scope, to, draft),
        Conversion::Outside => choose_converted(alloc, scope, to, draft),
        Conversion::Cast => cast_to(alloc, scope, to, draft, u),
        Conversion::NonNullCast => cast_to_non_null(alloc, scope, to, draft, u),
    }
}

/// Chooses the creation of an i31, if its type matches `to`.
fn choose_i31(
    alloc: Global,
    scope: &Scope<'_>,
    to: RefType,
    draft: &Draft,
) -> Result<Option<Node>, Error>
    requires scope { IsScope (bare scope.now) }
    requires to { IsValid (bare scope.now) (Ref to) }
    ensures exact { IfOk result (λ chosen. chosen ≡ i31_node (bare scope.now) to) }
    ensures offer { IsOffer (where_stands scope.now draft.now) draft.now.set.items
        (Ref to ∷ []) result }
    ensures memory { IfErr result (λ e. e ≡ Error.Memory) }
{
    if is_i31_below(scope, to, false) {
        return conversion_node(alloc, ValType::I32, AggregateInstr::RefI31);
    }
    if is_i31_below(scope, to, true) {
        return conversion_node(alloc, ValType::I32, AggregateInstr::RefI31Shared);
    }
    Ok(None)
}

/// Returns whether the type of an i31 matches `to`. If `shared` is set, the i31 is shared.
fn is_i31_below(scope: &Scope<'_>, to: RefType, shared: bool) -> bool
    requires to { IsValid (bare scope.now) (Ref to) }
    ensures { result ≡ is_i31_below (bare scope.now) to shared }
{
    let heap_type = HeapType::Abstract {
        shared,
        ty: AbstractHeapType::I31,
    };
    let i31 = ValType::Ref(RefType {
        nullable: false,
        heap_type,
    });
    is_sub_type(scope, i31, ValType::Ref(to))
}

/// Chooses the conversion between internal and external references that produces `to`, if there is
/// one.
fn choose_converted(
    alloc: Global,
    scope: &Scope<'_>,
    to: RefType,
    draft: &Draft,
) -> Result<Option<Node>, Error>
    requires scope { IsScope (bare scope.now) }
    requires named { names_types (bare scope.now) ≡ true }
    requires to { IsValid (bare scope.now) (Ref to) }
    ensures exact { IfOk result (λ chosen. chosen ≡ converted_to to.nullable to.heap_type) }
    ensures offer { IsOffer (where_stands scope.now draft.now) draft.now.set.items
        (Ref to ∷ []) result }
    ensures memory { IfErr result (λ e. e ≡ Error.Memory) }
{
    let HeapType::Abstract { shared, ty } = to.heap_type else {
        return Ok(None);
    };
    match ty {
        AbstractHeapType::Any => {
            let from = abstract_reference(shared, to.nullable, AbstractHeapType::Extern);
            conversion_node(alloc, from, AggregateInstr::AnyConvertExtern)
        }
        AbstractHeapType::Extern => {
            let from = abstract_reference(shared, to.nullable, AbstractHeapType::Any);
            conversion_node(alloc, from, AggregateInstr::ExternConvertAny)
        }
        _ => Ok(None),
    }
}

fn abstract_reference(shared: bool, nullable: bool, ty: AbstractHeapType) -> ValType
    ensures { result
        ≡ Ref (record { nullable = nullable; heap_type = HeapType.Abstract shared ty }) }
{
    ValType::Ref(RefType {
        nullable,
        heap_type: HeapType::Abstract { shared, ty },
    })
}

/// Creates the node of `op`, which takes `from`.
fn conversion_node(alloc: Global, from: ValType, op: AggregateInstr) -> Result<Option<Node>, Error>
    ensures exact { IfOk result (λ chosen. chosen ≡ Some (aggregate_of (from ∷ []) op)) }
    ensures memory { IfErr result (λ e. e ≡ Error.Memory) }
{
    let node = plain(alloc, &[from], Instr::Aggregate(op), 0)?;
    Ok(Some(node))
}

/// Chooses a cast to `to`.
fn cast_to(
    alloc: Global,
    scope: &Scope<'_>,
    to: RefType,
    draft: &Draft,
    u: &mut Unstructured<'_>,
) -> Result<Option<Node>, Error>
    requires scope { IsScope (bare scope.now) }
    requires to { IsValid (bare scope.now) (Ref to) }
    ensures exact { IfOk result (λ chosen.
        cast_at (where_stands scope.now draft.now) to u.old ≡ (chosen, u.new)) }
    ensures offer { IsOffer (where_stands scope.now draft.now) draft.now.set.items
        (Ref to ∷ []) result }
    ensures memory { IfErr result (λ e. e ≡ Error.Memory) }
    ensures left { KeepsPieces u.old u.new }
{
    let from = draw_above(scope, to, u);
    let instruction = Instr::Reference(ReferenceInstr::Cast(to));
    let node = plain(alloc, &[ValType::Ref(from)], instruction, 0)?;
    Ok(Some(node))
}

/// Chooses a cast to the non-nullable form of `to`.
fn cast_to_non_null(
    alloc: Global,
    scope: &Scope<'_>,
    to: RefType,
    draft: &Draft,
    u: &mut Unstructured<'_>,
) -> Result<Option<Node>, Error>
    requires scope { IsScope (bare scope.now) }
    requires to { IsValid (bare scope.now) (Ref to) }
    ensures exact { IfOk result (λ chosen.
        cast_at (where_stands scope.now draft.now) (without_null (bare scope.now).features to) u.old
        ≡ (chosen, u.new)) }
    ensures offer { IsOffer (where_stands scope.now draft.now) draft.now.set.items
        (Ref to ∷ []) result }
    ensures memory { IfErr result (λ e. e ≡ Error.Memory) }
    ensures left { KeepsPieces u.old u.new }
{
    let strict = without_null(scope, to);
    let from = draw_above(scope, strict, u);
    let instruction = Instr::Reference(ReferenceInstr::Cast(strict));
    let node = plain(alloc, &[ValType::Ref(from)], instruction, 0)?;
    Ok(Some(node))
}
