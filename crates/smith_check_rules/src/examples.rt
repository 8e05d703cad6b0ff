ghost use Rattle.std.specs.Prelude.{[], ◌∷◌};
ghost use Rattle.smith_types.specs.ExampleFeatures.{without_gc};
ghost use Rattle.smith_types.specs.Flags.{funcref};
ghost use Rattle.smith_types.specs.Syntax.value_type.AbstractHeapType.TheVariants.{Any, Extern, I31};
ghost use Rattle.smith_types.specs.Syntax.value_type.ValType.TheVariants.{I32, I64, Ref};
ghost use Rattle.smith_instr.specs.declared.aggregate.AggregateInstr.TheVariants as aggregate;
ghost use Rattle.smith_instr.specs.declared.instr.Instr.TheVariants as instr;
ghost use Rattle.smith_instr.specs.declared.reference.ReferenceInstr.TheVariants as reference;
ghost use Rattle.smith_check_rules.specs.Slots.{IsBelow, IsSlotValid};
ghost use Rattle.smith_check_rules.specs.Sequences.{AreTyped, IsBodyTyped, stacked};
ghost use Rattle.smith_check_rules.specs.ExampleBodies.{
  HasType,
  TakesNot,
  branches_apart,
  branches_with_conversion,
  branches_with_reference,
  plain,
  selects_any,
  shared_internal,
  some_external,
  some_function,
  some_internal,
  with_two_labels,
};
ghost use Rattle.smith_check_rules.specs.declared.slot.Slot.TheVariants.{Bottom, EitherRef, SomeRef, Value};

// Which types match others.
fn matching()
    ensures bottom_where_a_number_is { IsBelow [] Bottom (Value I32) }
    ensures bottom_where_a_reference_is { IsBelow [] Bottom SomeRef }
    ensures some_reference_where_a_function_is { IsBelow [] SomeRef (Value some_function) }
    ensures some_reference_where_null_may_be { IsBelow [] SomeRef (Value (Ref funcref)) }
    ensures some_reference_where_a_number_is { ¬ IsBelow [] SomeRef (Value I32) }
    ensures some_reference_where_bottom_is { ¬ IsBelow [] SomeRef Bottom }
    ensures number_where_bottom_is { ¬ IsBelow [] (Value I32) Bottom }
    ensures function_where_some_reference_is { ¬ IsBelow [] (Value some_function) SomeRef }
{}

// Which types match that of a reference that is shared or not, and which it matches.
fn either_matching()
    ensures some_reference { IsBelow [] SomeRef (EitherRef Any) }
    ensures itself { IsBelow [] (EitherRef Any) (EitherRef Any) }
    ensures another { ¬ IsBelow [] (EitherRef Any) (EitherRef Extern) }
    ensures where_some_reference_is { ¬ IsBelow [] (EitherRef Any) SomeRef }
    ensures where_a_number_is { ¬ IsBelow [] (EitherRef Any) (Value I32) }
    ensures shared { ¬ IsBelow [] (Value shared_internal) (EitherRef Any) }
    ensures unshared { ¬ IsBelow [] (Value some_internal) (EitherRef Any) }
{}

// Whether the type of a reference that is shared or not is valid.
fn either_validity()
    ensures internal { IsSlotValid plain (EitherRef Any) }
    ensures internal_without_gc { ¬ IsSlotValid
        (record plain { features = without_gc }) (EitherRef Any) }
    ensures external_without_gc { IsSlotValid
        (record plain { features = without_gc }) (EitherRef Extern) }
    ensures i31 { ¬ IsSlotValid plain (EitherRef I31) }
{}

// Instructions with operands of the bottom types, and without.
fn instructions()
    ensures drop_of_bottom { HasType instr.Drop (Bottom ∷ []) [] }
    ensures drop_of_none { TakesNot instr.Drop [] }
    ensures select_of_bottom { HasType instr.Select (Bottom ∷ Bottom ∷ Value I32 ∷ [])
        (Bottom ∷ []) }
    ensures select_of_numbers { HasType instr.Select (Value I64 ∷ Value I64 ∷ Value I32 ∷ [])
        (Value I64 ∷ []) }
    ensures select_of_references { TakesNot instr.Select (SomeRef ∷ SomeRef ∷ Value I32 ∷ []) }
    ensures select_of_functions { TakesNot instr.Select
        (Value some_function ∷ Value some_function ∷ Value I32 ∷ []) }
    ensures non_null_of_some_reference { HasType (instr.Reference reference.AsNonNull)
        (SomeRef ∷ []) (SomeRef ∷ []) }
    ensures non_null_of_a_nullable_function { HasType (instr.Reference reference.AsNonNull)
        (Value (Ref funcref) ∷ []) (Value some_function ∷ []) }
    ensures non_null_of_a_number { TakesNot (instr.Reference reference.AsNonNull)
        (Value I32 ∷ []) }
    ensures br_past_the_last_label { TakesNot (instr.Br 0) [] }
{}

// Conversions of a reference that is shared or not, and what a reference that is not null leaves.
fn conversions()
    ensures inwards { HasType (instr.Aggregate aggregate.AnyConvertExtern)
        (EitherRef Extern ∷ []) (EitherRef Any ∷ []) }
    ensures outwards { HasType (instr.Aggregate aggregate.ExternConvertAny)
        (EitherRef Any ∷ []) (EitherRef Extern ∷ []) }
    ensures inwards_already { TakesNot (instr.Aggregate aggregate.AnyConvertExtern)
        (EitherRef Any ∷ []) }
    ensures of_a_number { TakesNot (instr.Aggregate aggregate.AnyConvertExtern)
        (Value I32 ∷ []) }
    ensures of_a_value { HasType (instr.Aggregate aggregate.AnyConvertExtern)
        (Value some_external ∷ []) (Value some_internal ∷ []) }
    ensures of_a_value_as_shared { ¬ HasType (instr.Aggregate aggregate.AnyConvertExtern)
        (Value some_external ∷ []) (Value shared_internal ∷ []) }
    ensures of_either_as_unshared { ¬ HasType (instr.Aggregate aggregate.AnyConvertExtern)
        (EitherRef Extern ∷ []) (Value some_internal ∷ []) }
    ensures non_null_of_either { HasType (instr.Reference reference.AsNonNull)
        (EitherRef Any ∷ []) (EitherRef Any ∷ []) }
    ensures non_null_of_either_as_some { ¬ HasType (instr.Reference reference.AsNonNull)
        (EitherRef Any ∷ []) (SomeRef ∷ []) }
{}

// Bodies of dead code that the rules without bottom types don't type.
fn dead_code()
    ensures a_number_and_a_reference_is_selected { IsBodyTyped plain selects_any }
    ensures labels_take_different_numbers { AreTyped (with_two_labels I32 I64) branches_apart
        (stacked [] []) (stacked [] []) }
    ensures labels_take_different_references { AreTyped (with_two_labels some_function some_external)
        branches_with_reference (stacked [] []) (stacked [] []) }
    ensures labels_take_a_shared_and_an_unshared_one { AreTyped
        (with_two_labels some_internal shared_internal)
        branches_with_conversion (stacked [] []) (stacked [] []) }
{}
