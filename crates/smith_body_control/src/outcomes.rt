ghost use Rattle.std.specs.Prelude.{◌≡◌, true, length, IfSome};
ghost use Rattle.smith_bytes.specs.Source.{KeepsPieces};
ghost use Rattle.smith_instr.specs.Contexts.{AreValid};
ghost use Rattle.smith_body_control.specs.CallChoices.{IsOutcome, dropped_of, fit_type_at, is_fit};
ghost use Rattle.smith_body_control.specs.CallChoices.{is_fit_type};
ghost use Rattle.smith_body_nodes.specs.Scopes.{IsScope, bare, indexed};

use smith_body_nodes::{
    Offer, Scope, are_below, choose_in_chunk, func_type_at, indexed_count, is_first_below,
};
use smith_bytes::Unstructured;
use smith_types::{FuncType, ValType};

/// Outcomes of the results of a call.
#[derive(Clone, Copy)]
pub enum Outcome {
    /// The first result is a value of a wanted type, and the others are dropped.
    Wanted(ValType),
    /// All results are dropped.
    Dropped,
    /// The function of the body returns the results.
    Returned,
}

/// Function types whose results may have an outcome.
#[derive(Clone, Copy)]
struct TypeOffer<'a> {
    scope: &'a Scope<'a>,
    outcome: Outcome,
}

impl<'a> Offer for TypeOffer<'a> {
    ghost use Rattle.std.specs.Prelude.{length};
    ghost use Rattle.smith_body_control.specs.CallChoices.{IsOutcome, is_fit_type};
    ghost use Rattle.smith_body_nodes.specs.Scopes.{IsScope, bare, indexed};

    ghost ready = { λ self.
        IsScope (bare self.scope.now) × IsOutcome (bare self.scope.now) self.outcome };

    ghost size = { λ self. indexed (length self.scope.now.types.now.types) };

    ghost test = { λ self index. is_fit_type (bare self.scope.now) self.outcome index };

    fn count(&self) -> usize {
        indexed_count(self.scope.types.types().len())
    }

    fn is_offered(&self, index: usize) -> bool {
        is_fit_type(self.scope, self.outcome, index)
    }
}

/// Returns whether there is a function type at `index` whose results may have the outcome `outcome`.
pub fn is_fit_type(scope: &Scope<'_>, outcome: Outcome, index: usize) -> bool
    requires scope { IsScope (bare scope.now) }
    requires outcome { IsOutcome (bare scope.now) outcome }
    ensures { result ≡ is_fit_type (bare scope.now) outcome index }
{
    match func_type_at(scope, index) {
        Some(function) => is_fit(scope, outcome, function),
        None => false,
    }
}

/// Returns whether the results of `function` may have the outcome `outcome`.
pub fn is_fit(scope: &Scope<'_>, outcome: Outcome, function: &FuncType) -> bool
    requires scope { IsScope (bare scope.now) }
    requires outcome { IsOutcome (bare scope.now) outcome }
    requires results { AreValid (bare scope.now) function.now.results }
    ensures { result ≡ is_fit (bare scope.now).types scope.now.results.now outcome function.now }
{
    match outcome {
        Outcome::Wanted(value) => is_first_below(scope, function, value),
        Outcome::Dropped => true,
        Outcome::Returned => are_below(scope, function.results.as_slice(), scope.results),
    }
}

/// Returns the number of results of `function` that are dropped for the outcome `outcome`.
pub fn dropped_of(outcome: Outcome, function: &FuncType) -> usize
    ensures { result ≡ dropped_of outcome function.now }
{
    match outcome {
        Outcome::Wanted(_) => function.results.len().saturating_sub(1),
        Outcome::Dropped => function.results.len(),
        Outcome::Returned => 0,
    }
}

/// Chooses a function type of a drawn chunk whose results may have the outcome `outcome`, if there
/// is one.
pub fn choose_fit_type(scope: &Scope<'_>, outcome: Outcome, u: &mut Unstructured<'_>) -> Option<u32>
    requires scope { IsScope (bare scope.now) }
    requires outcome { IsOutcome (bare scope.now) outcome }
    ensures exact { fit_type_at (bare scope.now) outcome u.old ≡ (result, u.new) }
    ensures offered { IfSome result (λ index. is_fit_type (bare scope.now) outcome index ≡ true) }
    ensures left { KeepsPieces u.old u.new }
{
    let index = choose_in_chunk(&TypeOffer { scope, outcome }, u)?;
    Some(index as u32)
}
