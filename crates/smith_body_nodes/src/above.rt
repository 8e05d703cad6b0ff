ghost use Rattle.std.specs.Prelude.{◌≡◌, Some, unwrap_or};
ghost use Rattle.smith_bytes.specs.Source.{KeepsPieces};
ghost use Rattle.smith_types.specs.Subtyping.{IsRefBelow};
ghost use Rattle.smith_types.specs.Syntax.value_type.ValType.TheVariants.{Ref};
ghost use Rattle.smith_instr.specs.Contexts.{IsValid};
ghost use Rattle.smith_body_nodes.specs.Above.{above_at, is_internal, is_under, local_above_at};
ghost use Rattle.smith_body_nodes.specs.Above.{nullable_type, reference_in, top_above, with_null};
ghost use Rattle.smith_body_nodes.specs.Scopes.{IsScope, bare};

use crate::locals::{is_below, is_sub_type};
use crate::offer::{Offer, choose_offered};
use crate::scope::{Scope, indexed_count};
use smith_bytes::Unstructured;
use smith_types::{AbstractHeapType, HeapType, RefType, ValType, WasmFeatures};

/// Locals whose type a reference type matches.
#[derive(Clone, Copy)]
struct AboveOffer<'a> {
    scope: &'a Scope<'a>,
    to: RefType,
}

impl<'a> Offer for AboveOffer<'a> {
    ghost use Rattle.std.specs.Prelude.{length};
    ghost use Rattle.smith_types.specs.Syntax.value_type.ValType.TheVariants.{Ref};
    ghost use Rattle.smith_instr.specs.Contexts.{IsValid};
    ghost use Rattle.smith_body_nodes.specs.Above.{is_above};
    ghost use Rattle.smith_body_nodes.specs.Scopes.{IsScope, bare, indexed};

    ghost ready = { λ self.
        IsScope (bare self.scope.now) × IsValid (bare self.scope.now) (Ref self.to) };

    ghost size = { λ self. indexed (length self.scope.now.locals.now) };

    ghost test = { λ self index. is_above (bare self.scope.now) self.to index };

    fn count(&self) -> usize {
        indexed_count(self.scope.locals.len())
    }

    fn is_offered(&self, index: usize) -> bool {
        is_below(self.scope, ValType::Ref(self.to), self.scope.locals[index])
    }
}

/// Draws a reference type that `to` matches: half of the time the top of its hierarchy, else the
/// type of a local, or the top if no local fits.
pub fn draw_above(scope: &Scope<'_>, to: RefType, u: &mut Unstructured<'_>) -> RefType
    requires scope { IsScope (bare scope.now) }
    requires to { IsValid (bare scope.now) (Ref to) }
    ensures exact { above_at (bare scope.now) to u.old ≡ (result, u.new) }
    ensures valid { IsValid (bare scope.now) (Ref result) }
    ensures above { IsRefBelow (bare scope.now).types to result }
    ensures left { KeepsPieces u.old u.new }
{
    if u.arbitrary() {
        return top_above(scope, to);
    }
    draw_local_above(scope, to, u)
}

/// Draws the type of a local that `to` matches. Returns the top of its hierarchy if there is none.
fn draw_local_above(scope: &Scope<'_>, to: RefType, u: &mut Unstructured<'_>) -> RefType
    requires scope { IsScope (bare scope.now) }
    requires to { IsValid (bare scope.now) (Ref to) }
    ensures exact { local_above_at (bare scope.now) to u.old ≡ (result, u.new) }
    ensures valid { IsValid (bare scope.now) (Ref result) }
    ensures above { IsRefBelow (bare scope.now).types to result }
    ensures left { KeepsPieces u.old u.new }
{
    let Some(index) = choose_offered(&AboveOffer { scope, to }, u) else {
        return top_above(scope, to);
    };
    reference_or(scope.locals[index], with_null(to))
}

/// Returns the nullable type of references to the top of the hierarchy of `to`: `any`, `func` or
/// `extern`. Returns the nullable form of `to` if it matches none of them.
fn top_above(scope: &Scope<'_>, to: RefType) -> RefType
    requires scope { IsScope (bare scope.now) }
    requires to { IsValid (bare scope.now) (Ref to) }
    ensures exact { result ≡ top_above (bare scope.now) to }
    ensures valid { IsValid (bare scope.now) (Ref result) }
    ensures above { IsRefBelow (bare scope.now).types to result }
{
    if is_internal(scope, to) {
        return nullable_type(AbstractHeapType::Any);
    }
    if is_under(scope, to, AbstractHeapType::Func) {
        return nullable_type(AbstractHeapType::Func);
    }
    if is_under(scope, to, AbstractHeapType::Extern) {
        return nullable_type(AbstractHeapType::Extern);
    }
    with_null(to)
}

/// Returns whether `to` matches `anyref`, and garbage collection is enabled.
fn is_internal(scope: &Scope<'_>, to: RefType) -> bool
    requires to { IsValid (bare scope.now) (Ref to) }
    ensures { result ≡ is_internal (bare scope.now) to }
{
    scope.features.contains(WasmFeatures::GC) && is_under(scope, to, AbstractHeapType::Any)
}

/// Returns whether `to` matches the type of nullable references to `ty`, not shared.
fn is_under(scope: &Scope<'_>, to: RefType, ty: AbstractHeapType) -> bool
    requires to { IsValid (bare scope.now) (Ref to) }
    ensures { result ≡ is_under (bare scope.now) to ty }
{
    is_sub_type(scope, ValType::Ref(to), ValType::Ref(nullable_type(ty)))
}

/// Returns the type of nullable references to `ty`, not shared.
fn nullable_type(ty: AbstractHeapType) -> RefType
    ensures { result ≡ nullable_type ty }
{
    RefType {
        nullable: true,
        heap_type: HeapType::Abstract { shared: false, ty },
    }
}

/// Returns the reference type `value`, or `other` if `value` is not a reference type.
pub fn reference_or(value: ValType, other: RefType) -> RefType
    ensures { result ≡ unwrap_or (reference_in (Some value)) other }
{
    match value {
        ValType::Ref(reference) => reference,
        _ => other,
    }
}

fn with_null(to: RefType) -> RefType
    ensures { result ≡ with_null to }
{
    RefType {
        nullable: true,
        heap_type: to.heap_type,
    }
}
