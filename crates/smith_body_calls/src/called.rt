ghost use Rattle.std.specs.Prelude.{◌≡◌, ◌<◌, true, length, take, IfSome};
ghost use Rattle.smith_bytes.specs.Source.{KeepsPieces};
ghost use Rattle.smith_instr.specs.Contexts.{IsValid};
ghost use Rattle.smith_body_control.specs.CallChoices.{called_at, is_own_type, may_be_own};
ghost use Rattle.smith_body_nodes.specs.Items.{index_at};
ghost use Rattle.smith_body_nodes.specs.Offered.{chunk_at, is_callable};
ghost use Rattle.smith_body_nodes.specs.Scopes.{IsScope, bare, indexed};

use smith_body_nodes::{Scope, choose_callable, draw_index, function_of};
use smith_bytes::Unstructured;
use smith_types::{FuncType, ValType};

/// Chooses a function of a drawn chunk whose first result matches `wanted`, if there is one. A
/// function that may be that of the body is chosen once more.
pub fn choose_called(scope: &Scope<'_>, wanted: ValType, u: &mut Unstructured<'_>) -> Option<u32>
    requires scope { IsScope (bare scope.now) }
    requires wanted { IsValid (bare scope.now) wanted }
    ensures exact { called_at (bare scope.now)
        (chunk_at (is_callable (bare scope.now) wanted) (indexed (length scope.now.funcs.now))) u.old
        ≡ (result, u.new) }
    ensures below { IfSome result (λ index. index < length scope.now.funcs.now) }
    ensures offered { IfSome result (λ index. is_callable (bare scope.now) wanted index ≡ true) }
    ensures left { KeepsPieces u.old u.new }
{
    let first = choose_callable(scope, wanted, u);
    if may_be_own(scope, first) {
        return choose_callable(scope, wanted, u);
    }
    first
}

/// Draws a function, if there is one. A function that may be that of the body is drawn once more.
pub fn draw_called(scope: &Scope<'_>, u: &mut Unstructured<'_>) -> Option<u32>
    ensures exact { called_at (bare scope.now) (index_at (length scope.now.funcs.now)) u.old
        ≡ (result, u.new) }
    ensures below { IfSome result (λ index. index < length scope.now.funcs.now) }
    ensures left { KeepsPieces u.old u.new }
{
    let first = draw_index(scope.funcs.len(), u);
    if may_be_own(scope, first) {
        return draw_index(scope.funcs.len(), u);
    }
    first
}

/// Returns whether a function that was drawn may be the function of the body: it has the same type.
fn may_be_own(scope: &Scope<'_>, drawn: Option<u32>) -> bool
    requires { IfSome drawn (λ index. index < length scope.now.funcs.now) }
    ensures { result ≡ may_be_own (bare scope.now) drawn }
{
    match drawn {
        Some(index) => match function_of(scope, index as usize) {
            Some(function) => is_own_type(scope, function),
            None => false,
        },
        None => false,
    }
}

/// Returns whether `function` is the type of the function of the body.
fn is_own_type(scope: &Scope<'_>, function: &FuncType) -> bool
    ensures { result ≡ is_own_type (bare scope.now) function.now }
{
    function.params.as_slice() == own_params(scope) && function.results.as_slice() == scope.results
}

/// Returns the types of the parameters of the function of the body.
fn own_params<'a>(scope: &Scope<'a>) -> &'a [ValType]
    ensures { result.now ≡ take scope.now.params scope.now.locals.now }
{
    match scope.locals.get(..scope.params) {
        Some(params) => params,
        None => scope.locals,
    }
}
