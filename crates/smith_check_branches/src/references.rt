ghost use Rattle.std.specs.Prelude.{◌≡◌, [], ◌∷◌, ◌++◌, MatchOption};
ghost use Rattle.smith_types.specs.Syntax.value_type.ValType.TheVariants.{Ref};
ghost use Rattle.smith_instr.specs.Contexts.{nullable_to};
ghost use Rattle.smith_check_operands.specs.Scopes.{bare};
ghost use Rattle.smith_check_branches.specs.References.{EndsInNoReference, least_valid, reference_of};

use smith_check_operands::Scope;
use smith_types::{HeapType, RefType, ValType, WasmFeatures};

/// Returns the type of nullable references to a heap type.
pub fn nullable_to(heap_type: HeapType) -> ValType
    ensures { result ≡ nullable_to heap_type }
{
    ValType::Ref(RefType {
        nullable: true,
        heap_type,
    })
}

/// Returns the least valid type that a reference type with a valid heap type matches: itself, or if
/// references must be nullable, the nullable one.
pub fn least_valid(scope: &Scope, reference: RefType) -> RefType
    ensures { result ≡ least_valid (bare scope.now) reference }
{
    let kept = scope.features.contains(WasmFeatures::FUNCTION_REFERENCES);
    RefType {
        nullable: if kept { reference.nullable } else { true },
        heap_type: reference.heap_type,
    }
}

/// Returns the reference type that a value type is.
pub fn reference_of(value: ValType) -> Option<RefType>
    ensures { result ≡ reference_of value }
{
    match value {
        ValType::Ref(reference) => Some(reference),
        _ => None,
    }
}

/// Returns the types before the last, and the last, if this is a reference type.
pub fn split_reference<'a>(values: &'a [ValType]) -> Option<(&'a [ValType], RefType)>
    ensures { MatchOption result (EndsInNoReference values.now)
        (λ split. values.now ≡ split.0.now ++ Ref split.1 ∷ []) }
{
    let Some((last, others)) = values.split_last() else {
        return None;
    };
    let Some(reference) = reference_of(*last) else {
        return None;
    };
    Some((others, reference))
}
