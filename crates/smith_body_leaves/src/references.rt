ghost use Rattle.std.specs.Prelude.{◌≡◌, ◌<◌, length, Some, IfSome};
ghost use Rattle.smith_bytes.specs.Source.{KeepsPieces};
ghost use Rattle.smith_instr.specs.Contexts.{IsValid, reference_to_function};
ghost use Rattle.smith_body_leaves.specs.Leaves.{named_at};
ghost use Rattle.smith_body_nodes.specs.Offered.{IsReferenceTo, is_named, is_reference};
ghost use Rattle.smith_body_nodes.specs.Scopes.{IsScope, bare};

use smith_body_nodes::{Offer, Reach, Scope, choose_within, is_sub_type};
use smith_bytes::Unstructured;
use smith_types::{HeapType, RefType, ValType, WasmFeatures};

/// Functions that `ref.func` may name and whose reference type matches a wanted type.
#[derive(Clone, Copy)]
struct ReferenceOffer<'a> {
    scope: &'a Scope<'a>,
    wanted: ValType,
}

impl<'a> Offer for ReferenceOffer<'a> {
    ghost use Rattle.std.specs.Prelude.{length};
    ghost use Rattle.smith_instr.specs.Contexts.{IsValid};
    ghost use Rattle.smith_body_nodes.specs.Offered.{is_reference};
    ghost use Rattle.smith_body_nodes.specs.Scopes.{IsScope, bare};

    ghost ready = { λ self.
        IsScope (bare self.scope.now) × IsValid (bare self.scope.now) self.wanted };

    ghost size = { λ self. length self.scope.now.references.now };

    ghost test = { λ self place. is_reference (bare self.scope.now) self.wanted place };

    fn count(&self) -> usize {
        self.scope.references.len()
    }

    fn is_offered(&self, index: usize) -> bool {
        is_named(self.scope, self.wanted, self.scope.references[index])
    }
}

/// Returns whether the function `function` exists and its reference type matches `wanted`.
fn is_named(scope: &Scope<'_>, wanted: ValType, function: u32) -> bool
    requires scope { IsScope (bare scope.now) }
    requires wanted { IsValid (bare scope.now) wanted }
    ensures { result ≡ is_named (bare scope.now) wanted (Some function) }
{
    let place = function as usize;
    if place >= scope.funcs.len() {
        return false;
    }
    is_reference_below(scope, wanted, place)
}

fn is_reference_below(scope: &Scope<'_>, wanted: ValType, function: usize) -> bool
    requires scope { IsScope (bare scope.now) }
    requires wanted { IsValid (bare scope.now) wanted }
    requires inside { function < length scope.now.funcs.now }
    ensures { result ≡ is_named (bare scope.now) wanted (Some function) }
{
    let reference = reference_to_function(scope, function, scope.funcs[function]);
    is_sub_type(scope, reference, wanted)
}

/// Returns the type of a reference to the function `function`, whose type is `index`.
fn reference_to_function(scope: &Scope<'_>, function: usize, index: u32) -> ValType
    ensures { result ≡ reference_to_function (bare scope.now) function index }
{
    let exact = function >= scope.imported_funcs
        && scope.features.contains(WasmFeatures::CUSTOM_DESCRIPTORS);
    let heap_type = if exact {
        HeapType::Exact(index)
    } else {
        HeapType::Concrete(index)
    };
    ValType::Ref(RefType {
        nullable: false,
        heap_type,
    })
}

/// Chooses one of the functions that `reach` covers, that `ref.func` may name and whose reference
/// type matches `wanted`, if there is one.
pub(crate) fn choose_reference(
    scope: &Scope<'_>,
    reach: Reach,
    wanted: ValType,
    u: &mut Unstructured<'_>,
) -> Option<u32>
    requires scope { IsScope (bare scope.now) }
    requires wanted { IsValid (bare scope.now) wanted }
    ensures exact { named_at (bare scope.now) reach wanted u.old ≡ (result, u.new) }
    ensures named { IfSome result (IsReferenceTo (bare scope.now) wanted) }
    ensures left { KeepsPieces u.old u.new }
{
    let place = choose_within(&ReferenceOffer { scope, wanted }, reach, u)?;
    Some(scope.references[place])
}
