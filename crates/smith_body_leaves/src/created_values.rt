ghost use Rattle.std.specs.Prelude.{◌≡◌, Bool, IfSome};
ghost use Rattle.smith_bytes.specs.Source.{KeepsPieces};
ghost use Rattle.smith_instr.specs.Contexts.{IsValid};
ghost use Rattle.smith_body_leaves.specs.DrawnLeaves.{IsBrief, created_of, created_value_at};
ghost use Rattle.smith_body_leaves.specs.DrawnLeaves.{is_to_created, may_be_created, over_number};
ghost use Rattle.smith_types.specs.Syntax.value_type.HeapType.TheVariants.{Abstract};
ghost use Rattle.smith_body_leaves.specs.declared.families.CreatedFamily.TheVariants as created;
ghost use Rattle.smith_body_nodes.specs.Scopes.{IsScope, bare, where_stands};
ghost use Rattle.smith_body_nodes.specs.declared.scope.Draft.{Draft};

use crate::constants::draw_integer32;
use crate::default_created::{choose_default_array, choose_default_struct};
use crate::families::CreatedFamily;
use crate::leaf::{Leaf, only, with_last};
use crate::unary::i31_creation;
use smith_body_nodes::{Scope, is_allowed};
use smith_bytes::Unstructured;
use smith_instr::{AggregateInstr, Instr};
use smith_types::{AbstractHeapType, HeapType, ValType};

/// Chooses an allowed created value that matches `wanted`: of `family`, or if it has none, of the
/// first family that has one.
pub(crate) fn choose_created(
    scope: &Scope<'_>,
    wanted: ValType,
    family: CreatedFamily,
    u: &mut Unstructured<'_>,
) -> Option<Leaf>
    requires scope { IsScope (bare scope.now) }
    requires wanted { IsValid (bare scope.now) wanted }
    ensures exact { created_value_at scope.now.config.now (bare scope.now) wanted family u.old
        ≡ (result, u.new) }
    ensures brief { (draft : Draft) → IfSome result
        (IsBrief (where_stands scope.now draft) draft.set.items wanted) }
    ensures left { KeepsPieces u.old u.new }
{
    if !may_be_created(wanted) {
        return None;
    }
    if let Some(created) = created_of(scope, wanted, family, u) {
        return Some(created);
    }
    if let Some(created) = created_of(scope, wanted, CreatedFamily::Struct, u) {
        return Some(created);
    }
    if let Some(created) = created_of(scope, wanted, CreatedFamily::Array, u) {
        return Some(created);
    }
    created_of(scope, wanted, CreatedFamily::I31, u)
}

/// Returns whether values of the type `wanted` may be structs, arrays or i31s.
fn may_be_created(wanted: ValType) -> bool
    ensures { result ≡ may_be_created wanted }
{
    let ValType::Ref(to) = wanted else {
        return false;
    };
    match to.heap_type {
        HeapType::Abstract { shared: _, ty } => is_above_created(ty),
        HeapType::Concrete(_) | HeapType::Exact(_) => true,
    }
}

fn is_above_created(ty: AbstractHeapType) -> bool
    ensures { (shared : Bool) → result ≡ is_to_created (Abstract shared ty) }
{
    match ty {
        AbstractHeapType::Any
        | AbstractHeapType::Eq
        | AbstractHeapType::I31
        | AbstractHeapType::Struct
        | AbstractHeapType::Array => true,
        _ => false,
    }
}

/// Chooses a created value of `family` that matches `wanted`, if there is one and it is allowed.
fn created_of(
    scope: &Scope<'_>,
    wanted: ValType,
    family: CreatedFamily,
    u: &mut Unstructured<'_>,
) -> Option<Leaf>
    requires scope { IsScope (bare scope.now) }
    requires wanted { IsValid (bare scope.now) wanted }
    ensures exact { created_of scope.now.config.now (bare scope.now) wanted family u.old
        ≡ (result, u.new) }
    ensures brief { (draft : Draft) → IfSome result
        (IsBrief (where_stands scope.now draft) draft.set.items wanted) }
    ensures left { KeepsPieces u.old u.new }
{
    match family {
        CreatedFamily::Struct => struct_of(scope, wanted, u),
        CreatedFamily::Array => array_of(scope, wanted, u),
        CreatedFamily::I31 => i31_with(scope, wanted, u),
    }
}

/// Chooses a struct of default values that matches `wanted`, if there is one and it is allowed.
fn struct_of(scope: &Scope<'_>, wanted: ValType, u: &mut Unstructured<'_>) -> Option<Leaf>
    requires scope { IsScope (bare scope.now) }
    requires wanted { IsValid (bare scope.now) wanted }
    ensures exact { created_of scope.now.config.now (bare scope.now) wanted created.Struct u.old
        ≡ (result, u.new) }
    ensures brief { (draft : Draft) → IfSome result
        (IsBrief (where_stands scope.now draft) draft.set.items wanted) }
    ensures left { KeepsPieces u.old u.new }
{
    let ty = choose_default_struct(scope, wanted, u)?;
    let creation = Instr::Aggregate(AggregateInstr::StructNewDefault(ty));
    if is_allowed(scope, &creation) {
        return Some(only(creation));
    }
    None
}

/// Chooses an array of default values that matches `wanted`, of a drawn length, if there is one and it
/// is allowed.
fn array_of(scope: &Scope<'_>, wanted: ValType, u: &mut Unstructured<'_>) -> Option<Leaf>
    requires scope { IsScope (bare scope.now) }
    requires wanted { IsValid (bare scope.now) wanted }
    ensures exact { created_of scope.now.config.now (bare scope.now) wanted created.Array u.old
        ≡ (result, u.new) }
    ensures brief { (draft : Draft) → IfSome result
        (IsBrief (where_stands scope.now draft) draft.set.items wanted) }
    ensures left { KeepsPieces u.old u.new }
{
    let ty = choose_default_array(scope, wanted, u)?;
    let length = u.int_in_range(4..=15u8);
    let creation = Instr::Aggregate(AggregateInstr::ArrayNewDefault(ty));
    over_number(scope, creation, i32::from(length))
}

/// Creates an i31 of a drawn number that matches `wanted`, if it is allowed.
fn i31_with(scope: &Scope<'_>, wanted: ValType, u: &mut Unstructured<'_>) -> Option<Leaf>
    requires scope { IsScope (bare scope.now) }
    requires wanted { IsValid (bare scope.now) wanted }
    ensures exact { created_of scope.now.config.now (bare scope.now) wanted created.I31 u.old
        ≡ (result, u.new) }
    ensures brief { (draft : Draft) → IfSome result
        (IsBrief (where_stands scope.now draft) draft.set.items wanted) }
    ensures left { KeepsPieces u.old u.new }
{
    let creation = i31_creation(scope, wanted)?;
    let number = draw_integer32(u);
    over_number(scope, creation, number)
}

/// Returns `number` and `creation`, which takes it, if both are allowed.
fn over_number(scope: &Scope<'_>, creation: Instr, number: i32) -> Option<Leaf>
    ensures { result ≡ over_number scope.now.config.now (bare scope.now) creation number }
{
    let number = Instr::I32Const(number);
    if is_allowed(scope, &number) && is_allowed(scope, &creation) {
        return Some(with_last(creation, only(number)));
    }
    None
}
