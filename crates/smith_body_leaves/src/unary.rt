ghost use Rattle.std.specs.Prelude.{◌≡◌, ◌<◌, length, IfSome, false, true};
ghost use Rattle.smith_types.specs.Syntax.value_type.ValType.TheVariants.{Ref};
ghost use Rattle.smith_instr.specs.Contexts.{IsValid};
ghost use Rattle.smith_body_leaves.specs.Leaves.{conversion_to, conversion_to_type, creation_of};
ghost use Rattle.smith_body_leaves.specs.Leaves.{fields_at, i31_by, i31_creation, i31_of, i31_type};
ghost use Rattle.smith_body_leaves.specs.Leaves.{may_create, named_type};
ghost use Rattle.smith_body_nodes.specs.Scopes.{IsScope, bare};

use smith_body_nodes::{Scope, created_reference, is_allowed, is_sub_type, struct_type_at};
use smith_instr::{AggregateInstr, Instr};
use smith_types::{AbstractHeapType, FieldType, HeapType, RefType, ValType, unpack};

/// An instruction that takes one operand.
#[derive(Drop)]
pub struct Unary {
    /// The instruction.
    pub instruction: Instr,
    /// The type of the operand.
    pub operand: ValType,
}

/// Returns the creation of an i31 that matches `wanted`, if it is allowed.
pub(crate) fn i31_creation(scope: &Scope<'_>, wanted: ValType) -> Option<Instr>
    requires scope { IsScope (bare scope.now) }
    requires wanted { IsValid (bare scope.now) wanted }
    ensures { result ≡ i31_creation scope.now.config.now (bare scope.now) wanted }
{
    if let Some(creation) = i31_by(scope, wanted, false) {
        return Some(creation);
    }
    i31_by(scope, wanted, true)
}

/// Returns the creation of an i31 that matches `wanted`, if it is allowed. If `shared` is set, the
/// i31 is shared.
fn i31_by(scope: &Scope<'_>, wanted: ValType, shared: bool) -> Option<Instr>
    requires scope { IsScope (bare scope.now) }
    requires wanted { IsValid (bare scope.now) wanted }
    ensures { result ≡ i31_by scope.now.config.now (bare scope.now) wanted shared }
{
    if !is_sub_type(scope, i31_type(shared), wanted) {
        return None;
    }
    let creation = i31_of(shared);
    if is_allowed(scope, &creation) {
        return Some(creation);
    }
    None
}

fn i31_type(shared: bool) -> ValType
    ensures { result ≡ i31_type shared }
{
    abstract_reference(shared, false, AbstractHeapType::I31)
}

fn i31_of(shared: bool) -> Instr
    ensures { result ≡ i31_of shared }
{
    if shared {
        return Instr::Aggregate(AggregateInstr::RefI31Shared);
    }
    Instr::Aggregate(AggregateInstr::RefI31)
}

fn abstract_reference(shared: bool, nullable: bool, ty: AbstractHeapType) -> ValType
    ensures { result
        ≡ Ref (record { nullable = nullable; heap_type = HeapType.Abstract shared ty }) }
{
    ValType::Ref(RefType {
        nullable,
        heap_type: HeapType::Abstract { shared, ty },
    })
}

/// Returns the conversion between internal and external references to the type `wanted`, if there is
/// one and it is allowed.
pub(crate) fn conversion_to(scope: &Scope<'_>, wanted: ValType) -> Option<Unary>
    requires wanted { IsValid (bare scope.now) wanted }
    ensures exact { result ≡ conversion_to scope.now.config.now (bare scope.now) wanted }
    ensures valid { IfSome result (λ unary. IsValid (bare scope.now) unary.operand) }
{
    let conversion = conversion_to_type(wanted)?;
    if is_allowed(scope, &conversion.instruction) {
        return Some(conversion);
    }
    None
}

fn conversion_to_type(wanted: ValType) -> Option<Unary>
    ensures { result ≡ conversion_to_type wanted }
{
    let ValType::Ref(to) = wanted else {
        return None;
    };
    let HeapType::Abstract { shared, ty } = to.heap_type else {
        return None;
    };
    let (op, from) = match ty {
        AbstractHeapType::Any => (AggregateInstr::AnyConvertExtern, AbstractHeapType::Extern),
        AbstractHeapType::Extern => (AggregateInstr::ExternConvertAny, AbstractHeapType::Any),
        _ => return None,
    };
    Some(Unary {
        instruction: Instr::Aggregate(op),
        operand: abstract_reference(shared, to.nullable, from),
    })
}

/// Returns the creation of a struct of the type `ty`, if it has one field, matches `wanted`, and its
/// creation is allowed.
pub(crate) fn creation_of(scope: &Scope<'_>, wanted: ValType, ty: u32) -> Option<Unary>
    requires scope { IsScope (bare scope.now) }
    requires wanted { IsValid (bare scope.now) wanted }
    ensures exact { result ≡ creation_of scope.now.config.now (bare scope.now) wanted ty }
    ensures valid { IfSome result (λ unary. IsValid (bare scope.now) unary.operand) }
{
    let [field] = fields_at(scope, ty as usize) else {
        return None;
    };
    if !may_create(scope, wanted, ty) {
        return None;
    }
    Some(Unary {
        instruction: Instr::Aggregate(AggregateInstr::StructNew(ty)),
        operand: unpack(field.element_type),
    })
}

/// Returns whether a struct of the type `ty` matches `wanted` and its creation is allowed.
pub(crate) fn may_create(scope: &Scope<'_>, wanted: ValType, ty: u32) -> bool
    requires scope { IsScope (bare scope.now) }
    requires wanted { IsValid (bare scope.now) wanted }
    requires there { ty < length scope.now.types.now.types }
    ensures { result ≡ may_create scope.now.config.now (bare scope.now) wanted ty }
{
    let creation = Instr::Aggregate(AggregateInstr::StructNew(ty));
    is_sub_type(scope, created_reference(scope, ty), wanted) && is_allowed(scope, &creation)
}

/// Returns the fields of the type at `index`, if it is a struct type. Returns none otherwise.
pub(crate) fn fields_at<'a>(scope: &Scope<'a>, index: usize) -> &'a [FieldType]
    ensures { result.now ≡ fields_at (bare scope.now).types index }
{
    match struct_type_at(scope, index) {
        Some(structure) => structure.fields.as_slice(),
        None => &[],
    }
}

/// Returns the index of the type that `wanted` names, if it names one.
pub(crate) fn named_type(wanted: ValType) -> Option<u32>
    ensures { result ≡ named_type wanted }
{
    let ValType::Ref(to) = wanted else {
        return None;
    };
    match to.heap_type {
        HeapType::Concrete(index) => Some(index),
        HeapType::Exact(index) => Some(index),
        _ => None,
    }
}
