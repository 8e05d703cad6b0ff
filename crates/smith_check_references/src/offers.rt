ghost use Rattle.std.specs.Prelude.{◌≡◌, ◌∷◌, [], IfErr, IfOk, MatchOption, All, if◌then◌else◌};
ghost use Rattle.smith_types.specs.Syntax.value_type.HeapType.TheVariants.{Concrete, Exact};
ghost use Rattle.smith_types.specs.Expressions.{reference_to};
ghost use Rattle.smith_types.specs.Subtyping.{IsValInRange};
ghost use Rattle.smith_instr.specs.Contexts.{IsHeapValid, created_reference};
ghost use Rattle.smith_check_rules.specs.Slots.{AreSlotsValid, values};
ghost use Rattle.smith_check_operands.specs.Covers.{held};
ghost use Rattle.smith_check_operands.specs.Scopes.{bare, IsScope};
ghost use Rattle.smith_check_references.specs.Lookups.{IsAggregateAt};
ghost use Rattle.smith_check_references.specs.Offers.{HasNoOffer, IsGiven, IsOffer, IsOnlyItself};
ghost use Rattle.smith_check_references.specs.Rows.{IsApplied};

use smith_bytes::Error;
use smith_check_operands::lookups::is_valid;
use smith_check_operands::{Operands, Scope};
use smith_types::{HeapType, RefType, ValType, WasmFeatures};

/// Returns the least valid type that a non-null reference to `heap_type` has: a nullable one, if only
/// those are enabled.
pub fn offer(scope: &Scope, heap_type: HeapType) -> Option<ValType>
    requires { IsHeapValid (bare scope.now) heap_type }
    ensures { MatchOption result (HasNoOffer (bare scope.now) (reference_to heap_type))
        (λ given. IsOffer (bare scope.now) (reference_to heap_type) given) }
{
    let nullable = !scope.features.contains(WasmFeatures::FUNCTION_REFERENCES);
    let value = ValType::Ref(RefType {
        nullable,
        heap_type,
    });
    if is_valid(scope, value) {
        Some(value)
    } else {
        None
    }
}

/// Puts a non-null reference to `heap_type` on the stack, and returns whether it counts as one of a
/// valid type.
pub fn push_reference(
    operands: &mut Operands,
    scope: &Scope,
    heap_type: HeapType,
) -> Result<bool, Error>
    requires known { AreSlotsValid (bare scope.now) operands.old.known.items }
    requires valid { IsHeapValid (bare scope.now) heap_type }
    ensures ok { IfOk result (λ there. IsGiven (bare scope.now) (reference_to heap_type) there
        (held operands.old) (held operands.new)) }
    ensures memory { IfErr result (λ e. e ≡ Error.Memory) }
{
    let Some(given) = offer(scope, heap_type) else {
        return Ok(false);
    };
    operands.push_all(scope, &[given])?;
    Ok(true)
}

/// Returns the heap type of references to created values of the type `ty`: an exact one with custom
/// descriptors.
pub fn created_heap_type(scope: &Scope, ty: u32) -> HeapType
    ensures { result
        ≡ (if (bare scope.now).features.custom_descriptors then Exact ty else Concrete ty) }
{
    if scope.features.contains(WasmFeatures::CUSTOM_DESCRIPTORS) {
        HeapType::Exact(ty)
    } else {
        HeapType::Concrete(ty)
    }
}

/// Puts a reference to a created value of the type `ty` on the stack, and returns whether it counts
/// as one of a valid type.
pub fn push_created(operands: &mut Operands, scope: &Scope, ty: u32) -> Result<bool, Error>
    requires known { AreSlotsValid (bare scope.now) operands.old.known.items }
    requires scope { IsScope (bare scope.now) }
    requires aggregate { IsAggregateAt scope.now.types.now.types ty }
    ensures ok { IfOk result (λ there. IsGiven (bare scope.now)
        (created_reference (bare scope.now) ty) there (held operands.old) (held operands.new)) }
    ensures memory { IfErr result (λ e. e ≡ Error.Memory) }
{
    push_reference(operands, scope, created_heap_type(scope, ty))
}

/// Takes operands off the stack and puts a reference to a created value of the type `ty` on it, and
/// returns whether the operands are there and the reference counts as one of a valid type.
pub fn create(
    operands: &mut Operands,
    scope: &Scope,
    expected: &[ValType],
    ty: u32,
) -> Result<bool, Error>
    requires known { AreSlotsValid (bare scope.now) operands.old.known.items }
    requires scope { IsScope (bare scope.now) }
    requires expected { All (IsValInRange scope.now.types.now.types) expected.now }
    requires aggregate { IsAggregateAt scope.now.types.now.types ty }
    ensures ok { IfOk result (λ there. IsApplied (bare scope.now) (values expected.now)
        (values (created_reference (bare scope.now) ty ∷ [])) there
        (held operands.old) (held operands.new)) }
    ensures memory { IfErr result (λ e. e ≡ Error.Memory) }
{
    if !operands.pop_all(scope, expected) {
        return Ok(false);
    }
    push_created(operands, scope, ty)
}

/// Takes operands off the stack and puts a value of the type `given` on it, and returns whether the
/// operands are there and the type is valid.
pub fn give(
    operands: &mut Operands,
    scope: &Scope,
    expected: &[ValType],
    given: ValType,
) -> Result<bool, Error>
    requires known { AreSlotsValid (bare scope.now) operands.old.known.items }
    requires expected { All (IsValInRange scope.now.types.now.types) expected.now }
    requires itself { IsOnlyItself (bare scope.now) given }
    ensures ok { IfOk result (λ there. IsApplied (bare scope.now) (values expected.now)
        (values (given ∷ [])) there (held operands.old) (held operands.new)) }
    ensures memory { IfErr result (λ e. e ≡ Error.Memory) }
{
    if !is_valid(scope, given) {
        return Ok(false);
    }
    operands.apply(scope, expected, &[given])
}
