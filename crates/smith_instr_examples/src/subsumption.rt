ghost use Rattle.std.specs.Prelude.{[], ◌∷◌};
ghost use Rattle.smith_types.specs.ExampleTypes.{plain};
ghost use Rattle.smith_types.specs.Syntax.value_type.AbstractHeapType.TheVariants as heap;
ghost use Rattle.smith_types.specs.Syntax.value_type.HeapType.TheVariants.{Concrete};
ghost use Rattle.smith_instr.specs.Contexts.{nullable_to};
ghost use Rattle.smith_instr.specs.Sequences.{AreTyped, IsBodyTyped, stacked};
ghost use Rattle.smith_instr.specs.declared.aggregate.AggregateInstr.TheVariants as aggregate;
ghost use Rattle.smith_instr.specs.declared.aggregate.Extension.TheVariants as extension;
ghost use Rattle.smith_instr.specs.declared.instr.Instr.TheVariants as instr;
ghost use Rattle.smith_instr.specs.declared.numeric.NumericInstr.TheVariants as numeric;
ghost use Rattle.smith_instr.specs.declared.reference.ReferenceInstr.TheVariants as reference;
ghost use Rattle.smith_instr.specs.declared.table.TableInstr.TheVariants as table;
ghost use Rattle.smith_instr_examples.specs.ExampleBodies.{function_of, number, some_func, wide_number};
ghost use Rattle.smith_instr_examples.specs.ExampleManaged.{managed};

// A value where an instruction takes values of another type.
fn operands()
    ensures function_where_any_may_be_null { IsBodyTyped (function_of [] []) (instr.Reference (reference.Func 1)
        ∷ instr.Reference reference.IsNull ∷ instr.Drop ∷ []) }
    ensures function_into_a_table { IsBodyTyped (function_of [] []) (number 0 ∷ instr.Reference (reference.Func 1)
        ∷ instr.Table (table.Set 0) ∷ []) }
    ensures wide_number_where_a_narrow_one_is_taken { ¬ IsBodyTyped (function_of [] []) (wide_number 0 ∷ instr.Numeric numeric.I32Eqz
        ∷ instr.Drop ∷ []) }
    ensures null_where_none_is_taken { ¬ IsBodyTyped (function_of (some_func ∷ []) []) (instr.Reference (reference.Null (plain heap.Func))
        ∷ instr.LocalSet 0 ∷ []) }
    ensures any_reference_where_a_struct_is_taken { ¬ IsBodyTyped (managed [] []) (instr.Reference (reference.Null (plain heap.Any))
        ∷ instr.Aggregate (aggregate.StructGet 0 1 extension.Unpacked) ∷ instr.Drop ∷ []) }
{}

// Values whose type is past the last count as no type.
fn validity()
    ensures at_the_end { ¬ AreTyped (function_of [] []) [] (stacked (nullable_to (Concrete 5) ∷ []) [])
        (stacked (nullable_to (Concrete 5) ∷ []) []) }
    ensures after_an_instruction { ¬ IsBodyTyped (function_of (nullable_to (Concrete 5) ∷ []) []) (instr.LocalGet 0 ∷ instr.Drop ∷ []) }
{}
