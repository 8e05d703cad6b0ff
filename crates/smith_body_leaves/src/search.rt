ghost use Rattle.std.specs.Prelude.{◌≡◌, IfSome};
ghost use Rattle.smith_instr.specs.Contexts.{IsValid};
ghost use Rattle.smith_body_leaves.specs.Leaves.{created_leaf, i31_leaf, i31_number};
ghost use Rattle.smith_body_leaves.specs.Leaves.{leaf_within, created_over, unary_leaf, value_over};
ghost use Rattle.smith_body_nodes.specs.Scopes.{IsScope, bare, where_stands};

use crate::leaf::{Leaf, only, with_last};
use crate::single::first_single;
use crate::unary::{Unary, conversion_to, creation_of, i31_creation, named_type};
use smith_body_nodes::{Draft, Scope, indexed_count, is_allowed};
use smith_instr::Instr;
use smith_types::ValType;

/// Returns the first allowed value that matches `wanted` and consists of an instruction without
/// operands and at most `more` instructions that take the value before them. If `wanted` names no
/// type, structs are created only if `search` is set, and the struct types are searched only once.
#[cycle(search)]
pub(crate) fn leaf_within(
    scope: &Scope<'_>,
    wanted: ValType,
    more: u32,
    search: bool,
    draft: &Draft,
) -> Option<Leaf>
    requires scope { IsScope (bare scope.now) }
    requires wanted { IsValid (bare scope.now) wanted }
    ensures { result ≡ leaf_within scope.now.config.now (where_stands scope.now draft.now)
        draft.now.set.items more search wanted }
{
    if let Some(instruction) = first_single(scope, wanted, draft) {
        return Some(only(instruction));
    }
    if more == 0 {
        return None;
    }
    unary_leaf(scope, wanted, more - 1, search, draft)
}

/// Returns the first allowed i31, converted reference or struct of one field that matches `wanted`
/// and whose operand is found within `more` instructions.
#[cycle(search)]
fn unary_leaf(
    scope: &Scope<'_>,
    wanted: ValType,
    more: u32,
    search: bool,
    draft: &Draft,
) -> Option<Leaf>
    requires scope { IsScope (bare scope.now) }
    requires wanted { IsValid (bare scope.now) wanted }
    ensures { result ≡ unary_leaf scope.now.config.now (where_stands scope.now draft.now)
        draft.now.set.items search
        (leaf_within scope.now.config.now (where_stands scope.now draft.now) draft.now.set.items more)
        wanted }
{
    if let Some(leaf) = i31_leaf(scope, wanted, draft) {
        return Some(leaf);
    }
    let conversion = conversion_to(scope, wanted);
    if let Some(leaf) = value_over(scope, conversion, more, search, draft) {
        return Some(leaf);
    }
    created_leaf(scope, wanted, more, search, draft)
}

/// Returns an i31 that matches `wanted`, if it is allowed.
#[tactic(auto, unfolding(crate::specs::Leaves::i31_leaf))]
fn i31_leaf(scope: &Scope<'_>, wanted: ValType, draft: &Draft) -> Option<Leaf>
    requires scope { IsScope (bare scope.now) }
    requires wanted { IsValid (bare scope.now) wanted }
    ensures { result ≡ i31_leaf scope.now.config.now (where_stands scope.now draft.now)
        draft.now.set.items wanted }
{
    let creation = i31_creation(scope, wanted)?;
    let number = i31_number(scope, draft)?;
    Some(with_last(creation, only(number)))
}

/// Returns the number of an i31. This is zero if it is allowed, or the first allowed instruction that
/// produces an i32 otherwise.
fn i31_number(scope: &Scope<'_>, draft: &Draft) -> Option<Instr>
    requires scope { IsScope (bare scope.now) }
    ensures { result ≡ i31_number scope.now.config.now (where_stands scope.now draft.now)
        draft.now.set.items }
{
    let zero = Instr::I32Const(0);
    if is_allowed(scope, &zero) {
        return Some(zero);
    }
    first_single(scope, ValType::I32, draft)
}

/// Returns the first allowed struct of one field that matches `wanted` and whose field is found
/// within `more` instructions.
#[cycle(search)]
fn created_leaf(
    scope: &Scope<'_>,
    wanted: ValType,
    more: u32,
    search: bool,
    draft: &Draft,
) -> Option<Leaf>
    requires scope { IsScope (bare scope.now) }
    requires wanted { IsValid (bare scope.now) wanted }
    ensures { result ≡ created_leaf scope.now.config.now (where_stands scope.now draft.now) search
        (leaf_within scope.now.config.now (where_stands scope.now draft.now) draft.now.set.items
        more) wanted }
{
    if let Some(ty) = named_type(wanted) {
        return created_over(scope, wanted, ty, more, search, draft);
    }
    if !search {
        return None;
    }
    for ty in 0..indexed_count(scope.types.types().len()) {
        if let Some(leaf) = created_over(scope, wanted, ty as u32, more, false, draft) {
            return Some(leaf);
        }
    }
    None
}

/// Returns a struct of the type `ty`, if it has one field, matches `wanted`, its creation is allowed,
/// and its field is found within `more` instructions.
#[cycle(search)]
fn created_over(
    scope: &Scope<'_>,
    wanted: ValType,
    ty: u32,
    more: u32,
    search: bool,
    draft: &Draft,
) -> Option<Leaf>
    requires scope { IsScope (bare scope.now) }
    requires wanted { IsValid (bare scope.now) wanted }
    ensures { result ≡ created_over scope.now.config.now (where_stands scope.now draft.now)
        (leaf_within scope.now.config.now (where_stands scope.now draft.now) draft.now.set.items
        more search) wanted ty }
{
    let creation = creation_of(scope, wanted, ty);
    value_over(scope, creation, more, search, draft)
}

/// Returns the value of `unary`, if there is one and its operand is found within `more`
/// instructions.
#[cycle(search)]
fn value_over(
    scope: &Scope<'_>,
    unary: Option<Unary>,
    more: u32,
    search: bool,
    draft: &Draft,
) -> Option<Leaf>
    requires scope { IsScope (bare scope.now) }
    requires operand { IfSome unary (λ unary. IsValid (bare scope.now) unary.operand) }
    ensures { result ≡ value_over
        (leaf_within scope.now.config.now (where_stands scope.now draft.now) draft.now.set.items
        more search) unary }
{
    let Unary {
        instruction,
        operand,
    } = unary?;
    let leaf = leaf_within(scope, operand, more, search, draft)?;
    Some(with_last(instruction, leaf))
}
