ghost use Rattle.std.specs.Prelude.{◌≡◌, IfSome};
ghost use Rattle.smith_bytes.specs.Source.{KeepsPieces};
ghost use Rattle.smith_instr.specs.Contexts.{IsValid};
ghost use Rattle.smith_body_leaves.specs.DrawnLeaves.{IsBrief, held_of, is_null_or_stop};
ghost use Rattle.smith_body_leaves.specs.DrawnLeaves.{preferred_at, preferred_to, strict_form};
ghost use Rattle.smith_body_leaves.specs.DrawnLeaves.{value_for, variable_at};
ghost use Rattle.smith_body_leaves.specs.Leaves.{IsLeaf};
ghost use Rattle.smith_body_nodes.specs.Scopes.{IsScope, bare, where_stands};

use crate::created_values::choose_created;
use crate::families::{CreatedFamily, LeafFamily, created_families};
use crate::leaf::{Leaf, only};
use crate::single::leaf_of;
use smith_body_nodes::{Draft, Reach, Scope, is_allowed};
use smith_bytes::Unstructured;
use smith_draw_types::choose;
use smith_instr::{Instr, ReferenceInstr};
use smith_types::{RefType, ValType, WasmFeatures};

/// Draws an allowed value that matches `wanted` in place of `instruction`, if this produces null or is
/// `unreachable`. Returns `None` if there is none, and one of 16 times.
pub fn draw_preferred(
    scope: &Scope<'_>,
    wanted: ValType,
    instruction: &Instr,
    draft: &Draft,
    u: &mut Unstructured<'_>,
) -> Option<Leaf>
    requires scope { IsScope (bare scope.now) }
    requires wanted { IsValid (bare scope.now) wanted }
    ensures exact { preferred_to scope.now.config.now (where_stands scope.now draft.now)
        draft.now.set.items wanted instruction.now u.old
        ≡ (result, u.new) }
    ensures brief { IfSome result
        (IsBrief (where_stands scope.now draft.now) draft.now.set.items wanted) }
    ensures left { KeepsPieces u.old u.new }
{
    if is_null_or_stop(instruction) {
        return draw_value(scope, wanted, draft, u);
    }
    None
}

fn is_null_or_stop(instruction: &Instr) -> bool
    ensures { result ≡ is_null_or_stop instruction.now }
{
    match instruction {
        Instr::Unreachable | Instr::Reference(ReferenceInstr::Null(_)) => true,
        _ => false,
    }
}

/// Draws an allowed value that matches `wanted`. Returns `None` if there is none, and one of 16 times.
#[tactic(auto, unfolding(crate::specs::DrawnLeaves::preferred_at))]
fn draw_value(
    scope: &Scope<'_>,
    wanted: ValType,
    draft: &Draft,
    u: &mut Unstructured<'_>,
) -> Option<Leaf>
    requires scope { IsScope (bare scope.now) }
    requires wanted { IsValid (bare scope.now) wanted }
    ensures exact { preferred_at scope.now.config.now (where_stands scope.now draft.now)
        draft.now.set.items wanted u.old
        ≡ (result, u.new) }
    ensures brief { IfSome result
        (IsBrief (where_stands scope.now draft.now) draft.now.set.items wanted) }
    ensures left { KeepsPieces u.old u.new }
{
    let family = choose(created_families(), u)?;
    choose_value(scope, wanted, family, draft, u)
}

/// Chooses an allowed value other than null: a local, a created value, or a reference to a function,
/// of the non-nullable form of `wanted`. If there is none, chooses a local or a global that matches
/// `wanted`.
#[tactic(auto, unfolding(crate::specs::DrawnLeaves::value_for))]
fn choose_value(
    scope: &Scope<'_>,
    wanted: ValType,
    family: CreatedFamily,
    draft: &Draft,
    u: &mut Unstructured<'_>,
) -> Option<Leaf>
    requires scope { IsScope (bare scope.now) }
    requires wanted { IsValid (bare scope.now) wanted }
    ensures exact { value_for scope.now.config.now (where_stands scope.now draft.now)
        draft.now.set.items wanted family u.old
        ≡ (result, u.new) }
    ensures brief { IfSome result
        (IsBrief (where_stands scope.now draft.now) draft.now.set.items wanted) }
    ensures left { KeepsPieces u.old u.new }
{
    let strict = strict_form(scope, wanted);
    if let Some(local) = choose_of(scope, LeafFamily::Local, strict, draft, u) {
        return Some(only(local));
    }
    if let Some(created) = choose_created(scope, strict, family, u) {
        return Some(created);
    }
    if let Some(function) = choose_of(scope, LeafFamily::Reference, strict, draft, u) {
        return Some(only(function));
    }
    let variable = choose_variable(scope, wanted, draft, u)?;
    Some(only(variable))
}

/// Returns the non-nullable form of `wanted` if such types are enabled, else `wanted`.
fn strict_form(scope: &Scope<'_>, wanted: ValType) -> ValType
    requires wanted { IsValid (bare scope.now) wanted }
    ensures exact { result ≡ strict_form (bare scope.now).features wanted }
    ensures valid { IsValid (bare scope.now) result }
{
    let ValType::Ref(to) = wanted else {
        return wanted;
    };
    let has_null = !scope.features.contains(WasmFeatures::FUNCTION_REFERENCES);
    ValType::Ref(RefType {
        nullable: to.nullable && has_null,
        heap_type: to.heap_type,
    })
}

/// Chooses a local, or if there is none, a global, that matches `wanted`. It is allowed.
#[tactic(auto, unfolding(crate::specs::DrawnLeaves::variable_at))]
fn choose_variable(
    scope: &Scope<'_>,
    wanted: ValType,
    draft: &Draft,
    u: &mut Unstructured<'_>,
) -> Option<Instr>
    requires scope { IsScope (bare scope.now) }
    requires wanted { IsValid (bare scope.now) wanted }
    ensures exact { variable_at scope.now.config.now (where_stands scope.now draft.now)
        draft.now.set.items wanted u.old
        ≡ (result, u.new) }
    ensures typed { IfSome result
        (IsLeaf (where_stands scope.now draft.now) draft.now.set.items wanted) }
    ensures left { KeepsPieces u.old u.new }
{
    if let Some(local) = choose_of(scope, LeafFamily::Local, wanted, draft, u) {
        return Some(local);
    }
    choose_of(scope, LeafFamily::Global, wanted, draft, u)
}

/// Chooses an instruction of `family` that matches `wanted`, if there is one and it is allowed.
fn choose_of(
    scope: &Scope<'_>,
    family: LeafFamily,
    wanted: ValType,
    draft: &Draft,
    u: &mut Unstructured<'_>,
) -> Option<Instr>
    requires scope { IsScope (bare scope.now) }
    requires wanted { IsValid (bare scope.now) wanted }
    ensures exact { held_of scope.now.config.now (where_stands scope.now draft.now)
        draft.now.set.items wanted family u.old
        ≡ (result, u.new) }
    ensures typed { IfSome result
        (IsLeaf (where_stands scope.now draft.now) draft.now.set.items wanted) }
    ensures left { KeepsPieces u.old u.new }
{
    let instruction = leaf_of(scope, family, Reach::Chunk, wanted, draft, u)?;
    if is_allowed(scope, &instruction) {
        return Some(instruction);
    }
    None
}
