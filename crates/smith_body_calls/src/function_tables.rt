ghost use Rattle.std.specs.Prelude.{◌≡◌, ◌<◌, true, length, IfSome};
ghost use Rattle.smith_bytes.specs.Source.{KeepsPieces};
ghost use Rattle.smith_types.specs.Subtyping.{IsValInRange};
ghost use Rattle.smith_types.specs.Syntax.value_type.ValType.TheVariants.{Ref};
ghost use Rattle.smith_body_control.specs.CallChoices.{holds_functions, is_below_func};
ghost use Rattle.smith_body_control.specs.CallChoices.{is_function_table};
ghost use Rattle.smith_body_nodes.specs.Offered.{chunk_at};
ghost use Rattle.smith_body_nodes.specs.Scopes.{IsScope, bare, indexed};

use smith_body_nodes::{Offer, Scope, choose_in_chunk, indexed_count, is_sub_type, nullable_to};
use smith_bytes::Unstructured;
use smith_types::{AbstractHeapType, HeapType, RefType, ValType};

/// Tables of functions.
#[derive(Clone, Copy)]
struct FunctionTableOffer<'a> {
    scope: &'a Scope<'a>,
}

impl<'a> Offer for FunctionTableOffer<'a> {
    ghost use Rattle.std.specs.Prelude.{length};
    ghost use Rattle.smith_body_control.specs.CallChoices.{is_function_table};
    ghost use Rattle.smith_body_nodes.specs.Scopes.{IsScope, bare, indexed};

    ghost ready = { λ self. IsScope (bare self.scope.now) };

    ghost size = { λ self. indexed (length self.scope.now.tables.now) };

    ghost test = { λ self index. is_function_table (bare self.scope.now) index };

    fn count(&self) -> usize {
        indexed_count(self.scope.tables.len())
    }

    fn is_offered(&self, index: usize) -> bool {
        holds_functions(self.scope, self.scope.tables[index].element_type)
    }
}

/// Returns whether references of the type `element` are to functions, shared or unshared.
fn holds_functions(scope: &Scope<'_>, element: RefType) -> bool
    requires element { IsValInRange (bare scope.now).types (Ref element) }
    ensures { result ≡ holds_functions (bare scope.now).types element }
{
    is_below_func(scope, element, false) || is_below_func(scope, element, true)
}

fn is_below_func(scope: &Scope<'_>, element: RefType, shared: bool) -> bool
    requires element { IsValInRange (bare scope.now).types (Ref element) }
    ensures { result ≡ is_below_func (bare scope.now).types element shared }
{
    let func = HeapType::Abstract {
        shared,
        ty: AbstractHeapType::Func,
    };
    is_sub_type(scope, ValType::Ref(element), nullable_to(func))
}

/// Chooses a table of functions of a drawn chunk, if there is one.
pub(crate) fn choose_function_table(scope: &Scope<'_>, u: &mut Unstructured<'_>) -> Option<u32>
    requires scope { IsScope (bare scope.now) }
    ensures exact { chunk_at (is_function_table (bare scope.now))
        (indexed (length scope.now.tables.now)) u.old
        ≡ (result, u.new) }
    ensures below { IfSome result (λ index. index < length scope.now.tables.now) }
    ensures offered { IfSome result (λ index. is_function_table (bare scope.now) index ≡ true) }
    ensures left { KeepsPieces u.old u.new }
{
    let index = choose_in_chunk(&FunctionTableOffer { scope }, u)?;
    Some(index as u32)
}
