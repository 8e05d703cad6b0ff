ghost use Rattle.std.specs.Prelude.{◌≡◌, ◌<◌, ℕ, Some, length, slice_get};
ghost use Rattle.smith_types.specs.Syntax.entity_type.GlobalType.{GlobalType};
ghost use Rattle.smith_types.specs.Expressions.{function_reference};
ghost use Rattle.smith_draw_consts.specs.ConstScopes.{context_of, IsScope};
ghost use Rattle.smith_draw_consts.specs.KeptOffers.{counts_of, IsKnown, readable};

use crate::few_items::FewItems;
use crate::kept_offers::KeptOffer;
use crate::read_items::ReadItems;
use crate::references::function_reference;
use crate::scope::Scope;
use smith_types::ValType;

/// What has been read of the visible globals and the functions, which are all known.
#[derive(Clone, Copy)]
pub(crate) enum Known<'a> {
    /// Each of them.
    Few(&'a FewItems),
    /// Their classes, and the counts of those that are offered for one type.
    Many(&'a ReadItems, &'a KeptOffer),
}

impl<'a> Known<'a> {
    /// Returns the counts of the globals and functions that are offered, if there are many.
    pub fn counts(self) -> Option<&'a KeptOffer>
        ensures { result ≡ counts_of self.entry }
    {
        match self {
            Known::Few(_) => None,
            Known::Many(_, counts) => Some(counts),
        }
    }
}

/// Returns the type of the global at `index`, or `None` if it is mutable.
pub(crate) fn kind_of_global(
    scope: &Scope<'_>,
    known: Known<'_>,
    wanted: ValType,
    index: usize,
) -> Option<ValType>
    requires scope { IsScope (context_of scope.now) }
    requires known { IsKnown (context_of scope.now) wanted known }
    requires there { index < scope.now.visible }
    ensures { (global : GlobalType) → slice_get (context_of scope.now).globals index ≡ Some global
        → result ≡ readable global }
{
    match known {
        Known::Few(items) => items.globals.as_slice()[index],
        Known::Many(items, _) => items.globals.kind_of(index),
    }
}

/// Returns the type of a reference to the function at `index`.
pub(crate) fn kind_of_function(
    scope: &Scope<'_>,
    known: Known<'_>,
    wanted: ValType,
    index: usize,
) -> Option<ValType>
    requires known { IsKnown (context_of scope.now) wanted known }
    requires there { index < length (context_of scope.now).funcs }
    ensures { (type : ℕ) → slice_get (context_of scope.now).funcs index ≡ Some type
        → result ≡ Some (function_reference (context_of scope.now) index type) }
{
    match known {
        Known::Few(items) => {
            let index_of_type = items.funcs.as_slice()[index];
            Some(function_reference(scope, index, index_of_type))
        }
        Known::Many(items, _) => items.funcs.kind_of(index),
    }
}
