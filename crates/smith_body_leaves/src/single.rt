ghost use Rattle.std.specs.Prelude.{◌≡◌, is_some, IfSome};
ghost use Rattle.smith_bytes.specs.Source.{KeepsPieces};
ghost use Rattle.smith_instr.specs.Contexts.{IsValid};
ghost use Rattle.smith_body_leaves.specs.Leaves.{IsConstant, IsLeaf};
ghost use Rattle.smith_body_leaves.specs.Leaves.{any_leaf_at, constant_instr_at, default_struct};
ghost use Rattle.smith_body_leaves.specs.Leaves.{empty_array, first_constant, first_of, first_single};
ghost use Rattle.smith_body_leaves.specs.Leaves.{leaf_choice_at, leaf_of};
ghost use Rattle.smith_body_nodes.specs.Scopes.{IsScope, bare, where_stands};

use crate::constants::{draw_double, draw_float, draw_integer32, draw_integer64, draw_vector};
use crate::families::{LeafFamily, leaf_families};
use crate::first_created::{first_created_array, first_created_struct};
use crate::references::choose_reference;
use smith_body_nodes::{Draft, Reach, Scope, choose_global, choose_set_local, is_allowed};
use smith_bytes::Unstructured;
use smith_draw_types::choose;
use smith_instr::{AggregateInstr, Instr, ReferenceInstr};
use smith_types::ValType;

/// Returns the first allowed instruction that produces a value that matches `wanted`, without
/// operands.
#[tactic(auto, unfolding(crate::specs::Leaves::first_single))]
pub(crate) fn first_single(scope: &Scope<'_>, wanted: ValType, draft: &Draft) -> Option<Instr>
    requires scope { IsScope (bare scope.now) }
    requires wanted { IsValid (bare scope.now) wanted }
    ensures { result
        ≡ first_single scope.now.config.now
        (where_stands scope.now draft.now) draft.now.set.items wanted }
{
    if let Some(leaf) = first_of(scope, LeafFamily::Local, wanted, draft) {
        return Some(leaf);
    }
    if let Some(leaf) = first_of(scope, LeafFamily::Global, wanted, draft) {
        return Some(leaf);
    }
    if let Some(leaf) = first_of(scope, LeafFamily::Reference, wanted, draft) {
        return Some(leaf);
    }
    if let Some(leaf) = first_constant(scope, wanted, draft) {
        return Some(leaf);
    }
    if let Some(leaf) = default_struct(scope, wanted, draft) {
        return Some(leaf);
    }
    empty_array(scope, wanted, draft)
}

/// Returns whether there is an allowed instruction that produces a value that matches `wanted`,
/// without operands. Tries zero or null first, for which nothing is searched.
pub(crate) fn has_single(scope: &Scope<'_>, wanted: ValType, draft: &Draft) -> bool
    requires scope { IsScope (bare scope.now) }
    requires wanted { IsValid (bare scope.now) wanted }
    ensures { result
        ≡ is_some (first_single scope.now.config.now
        (where_stands scope.now draft.now) draft.now.set.items wanted) }
{
    if first_constant(scope, wanted, draft).is_some() {
        return true;
    }
    first_single(scope, wanted, draft).is_some()
}

/// Returns the first instruction of `family` among all items, if it is allowed.
fn first_of(scope: &Scope<'_>, family: LeafFamily, wanted: ValType, draft: &Draft) -> Option<Instr>
    requires scope { IsScope (bare scope.now) }
    requires wanted { IsValid (bare scope.now) wanted }
    ensures { result
        ≡ first_of scope.now.config.now
        (where_stands scope.now draft.now) draft.now.set.items wanted family }
{
    let mut nothing = Unstructured::new(&[]);
    let leaf = leaf_of(scope, family, Reach::Whole, wanted, draft, &mut nothing)?;
    if is_allowed(scope, &leaf) {
        return Some(leaf);
    }
    None
}

/// Returns zero or null, if it has the type `wanted` and is allowed.
fn first_constant(scope: &Scope<'_>, wanted: ValType, draft: &Draft) -> Option<Instr>
    requires wanted { IsValid (bare scope.now) wanted }
    ensures { result
        ≡ first_constant scope.now.config.now (where_stands scope.now draft.now) wanted }
{
    let mut nothing = Unstructured::new(&[]);
    let constant = draw_constant(wanted, &mut nothing);
    if is_allowed(scope, &constant) {
        return Some(constant);
    }
    None
}

/// Returns the creation of a struct of default values that matches `wanted`, of the first such
/// type, if it is allowed.
fn default_struct(scope: &Scope<'_>, wanted: ValType, draft: &Draft) -> Option<Instr>
    requires scope { IsScope (bare scope.now) }
    requires wanted { IsValid (bare scope.now) wanted }
    ensures { result
        ≡ default_struct scope.now.config.now (where_stands scope.now draft.now) wanted }
{
    let ty = first_created_struct(scope, wanted)?;
    let creation = Instr::Aggregate(AggregateInstr::StructNewDefault(ty));
    if is_allowed(scope, &creation) {
        return Some(creation);
    }
    None
}

/// Returns the creation of an array without elements that matches `wanted`, of the first such type,
/// if it is allowed.
fn empty_array(scope: &Scope<'_>, wanted: ValType, draft: &Draft) -> Option<Instr>
    requires scope { IsScope (bare scope.now) }
    requires wanted { IsValid (bare scope.now) wanted }
    ensures { result
        ≡ empty_array scope.now.config.now (where_stands scope.now draft.now) wanted }
{
    let ty = first_created_array(scope, wanted)?;
    let creation = Instr::Aggregate(AggregateInstr::ArrayNewFixed { ty, size: 0 });
    if is_allowed(scope, &creation) {
        return Some(creation);
    }
    None
}

/// Draws a read of a set local, a read of a global, a reference to a function, or a constant.
pub fn draw_any_leaf(
    scope: &Scope<'_>,
    wanted: ValType,
    draft: &Draft,
    u: &mut Unstructured<'_>,
) -> Instr
    requires scope { IsScope (bare scope.now) }
    requires wanted { IsValid (bare scope.now) wanted }
    ensures exact { any_leaf_at (where_stands scope.now draft.now) draft.now.set.items wanted u.old
        ≡ (result, u.new) }
    ensures typed { IsLeaf (where_stands scope.now draft.now) draft.now.set.items wanted result }
    ensures left { KeepsPieces u.old u.new }
{
    match choose_leaf(scope, wanted, draft, u) {
        Some(instruction) => instruction,
        None => draw_constant(wanted, u),
    }
}

/// Chooses a read of a set local, a read of a global, or a reference to a function, if there is
/// one.
fn choose_leaf(
    scope: &Scope<'_>,
    wanted: ValType,
    draft: &Draft,
    u: &mut Unstructured<'_>,
) -> Option<Instr>
    requires scope { IsScope (bare scope.now) }
    requires wanted { IsValid (bare scope.now) wanted }
    ensures exact { leaf_choice_at (where_stands scope.now draft.now)
        draft.now.set.items wanted u.old
        ≡ (result, u.new) }
    ensures typed { IfSome result
        (IsLeaf (where_stands scope.now draft.now) draft.now.set.items wanted) }
    ensures left { KeepsPieces u.old u.new }
{
    let family = choose(leaf_families(), u);
    leaf_of(scope, family, Reach::Chunk, wanted, draft, u)
}

/// Chooses an instruction of `family`, if there is one. A global or a function is one of those that
/// `reach` covers.
pub(crate) fn leaf_of(
    scope: &Scope<'_>,
    family: LeafFamily,
    reach: Reach,
    wanted: ValType,
    draft: &Draft,
    u: &mut Unstructured<'_>,
) -> Option<Instr>
    requires scope { IsScope (bare scope.now) }
    requires wanted { IsValid (bare scope.now) wanted }
    ensures exact { leaf_of (where_stands scope.now draft.now) draft.now.set.items
        reach wanted family u.old
        ≡ (result, u.new) }
    ensures typed { IfSome result
        (IsLeaf (where_stands scope.now draft.now) draft.now.set.items wanted) }
    ensures left { KeepsPieces u.old u.new }
{
    match family {
        LeafFamily::Local => {
            let index = choose_set_local(scope, wanted, draft, u)?;
            Some(Instr::LocalGet(index))
        }
        LeafFamily::Global => {
            let index = choose_global(scope, reach, wanted, u)?;
            Some(Instr::GlobalGet(index))
        }
        LeafFamily::Reference => {
            let function = choose_reference(scope, reach, wanted, u)?;
            Some(Instr::Reference(ReferenceInstr::Func(function)))
        }
        LeafFamily::Constant => None,
    }
}

/// Draws a constant of the type `wanted`, or null. Returns `unreachable` for a reference type that
/// is not nullable.
#[tactic(auto, unfolding(crate::specs::Leaves::constant_instr_at))]
fn draw_constant(wanted: ValType, u: &mut Unstructured<'_>) -> Instr
    ensures exact { constant_instr_at wanted u.old ≡ (result, u.new) }
    ensures typed { IsConstant wanted result }
    ensures left { KeepsPieces u.old u.new }
{
    match wanted {
        ValType::I32 => Instr::I32Const(draw_integer32(u)),
        ValType::I64 => Instr::I64Const(draw_integer64(u)),
        ValType::F32 => Instr::F32Const(draw_float(u)),
        ValType::F64 => Instr::F64Const(draw_double(u)),
        ValType::V128 => Instr::V128Const(draw_vector(u)),
        ValType::Ref(reference) => {
            if reference.nullable {
                Instr::Reference(ReferenceInstr::Null(reference.heap_type))
            } else {
                Instr::Unreachable
            }
        }
    }
}
