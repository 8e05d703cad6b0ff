ghost use Rattle.std.specs.Prelude.{◌≡◌, ◌<◌, true, length, slice_get, None, Some, IfSome};
ghost use Rattle.std.specs.Prelude.{MatchOption};
ghost use Rattle.smith_bytes.specs.Source.{KeepsPieces};
ghost use Rattle.smith_instr.specs.Contexts.{AreValid, IsValid};
ghost use Rattle.smith_body_nodes.specs.Offered.{chunk_at, func_in, func_of, function_at};
ghost use Rattle.smith_body_nodes.specs.Offered.{is_callable, is_first_below};
ghost use Rattle.smith_body_nodes.specs.Scopes.{IsScope, bare, indexed};

use crate::locals::is_below;
use crate::offer::{Offer, choose_in_chunk};
use crate::scope::{Scope, indexed_count};
use smith_bytes::Unstructured;
use smith_types::{CompositeInnerType, FuncType, SubType, ValType};

/// Functions whose first result matches a wanted type.
#[derive(Clone, Copy)]
struct CallOffer<'a> {
    scope: &'a Scope<'a>,
    wanted: ValType,
}

impl<'a> Offer for CallOffer<'a> {
    ghost use Rattle.std.specs.Prelude.{length};
    ghost use Rattle.smith_instr.specs.Contexts.{IsValid};
    ghost use Rattle.smith_body_nodes.specs.Offered.{is_callable};
    ghost use Rattle.smith_body_nodes.specs.Scopes.{IsScope, bare, indexed};

    ghost ready = { λ self.
        IsScope (bare self.scope.now) × IsValid (bare self.scope.now) self.wanted };

    ghost size = { λ self. indexed (length self.scope.now.funcs.now) };

    ghost test = { λ self index. is_callable (bare self.scope.now) self.wanted index };

    fn count(&self) -> usize {
        indexed_count(self.scope.funcs.len())
    }

    fn is_offered(&self, index: usize) -> bool {
        match function_of(self.scope, index) {
            Some(function) => is_first_below(self.scope, function, self.wanted),
            None => false,
        }
    }
}

/// Returns whether the first result of `function` matches `wanted`.
pub fn is_first_below(scope: &Scope<'_>, function: &FuncType, wanted: ValType) -> bool
    requires results { AreValid (bare scope.now) function.now.results }
    requires wanted { IsValid (bare scope.now) wanted }
    ensures { result ≡ is_first_below (bare scope.now).types wanted function.now.results }
{
    if function.results.len() == 0 {
        return false;
    }
    is_below(scope, function.results[0], wanted)
}

/// Returns the function type of the function at `index`.
pub fn function_of<'a>(scope: &Scope<'a>, index: usize) -> Option<&'a FuncType>
    requires { index < length scope.now.funcs.now }
    ensures { MatchOption result (function_at (bare scope.now) index ≡ None) (λ function.
        function_at (bare scope.now) index ≡ Some function.now) }
{
    func_type_at(scope, scope.funcs[index] as usize)
}

/// Returns the function type at `index`, if there is one.
pub fn func_type_at<'a>(scope: &Scope<'a>, index: usize) -> Option<&'a FuncType>
    ensures { MatchOption result (func_in (slice_get (bare scope.now).types index) ≡ None)
        (λ function. func_in (slice_get (bare scope.now).types index) ≡ Some function.now) }
{
    let types = scope.types;
    match types.types().get(index) {
        Some(ty) => inner_func(ty),
        None => None,
    }
}

/// Returns `ty` as a function type, if it is one.
pub(crate) fn inner_func<'a>(ty: &'a SubType) -> Option<&'a FuncType>
    ensures { MatchOption result (func_of ty.now.composite_type.inner ≡ None) (λ function.
        func_of ty.now.composite_type.inner ≡ Some function.now) }
{
    match &ty.composite_type.inner {
        CompositeInnerType::Func(function) => Some(function),
        _ => None,
    }
}

/// Chooses a function of a drawn chunk whose first result matches `wanted`, if there is one.
pub fn choose_callable(scope: &Scope<'_>, wanted: ValType, u: &mut Unstructured<'_>) -> Option<u32>
    requires scope { IsScope (bare scope.now) }
    requires wanted { IsValid (bare scope.now) wanted }
    ensures exact { chunk_at (is_callable (bare scope.now) wanted)
        (indexed (length scope.now.funcs.now)) u.old
        ≡ (result, u.new) }
    ensures below { IfSome result (λ index. index < length scope.now.funcs.now) }
    ensures offered { IfSome result (λ index. is_callable (bare scope.now) wanted index ≡ true) }
    ensures left { KeepsPieces u.old u.new }
{
    let index = choose_in_chunk(&CallOffer { scope, wanted }, u)?;
    Some(index as u32)
}
