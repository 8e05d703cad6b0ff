ghost use Rattle.std.specs.Prelude.{[], ◌∷◌};
ghost use Rattle.smith_types.specs.ExampleTypes.{plain};
ghost use Rattle.smith_types.specs.Flags.{funcref};
ghost use Rattle.smith_types.specs.Syntax.value_type.AbstractHeapType.TheVariants as heap;
ghost use Rattle.smith_types.specs.Syntax.value_type.ValType.TheVariants.{I32, I64, Ref};
ghost use Rattle.smith_instr.specs.Contexts.{labelled};
ghost use Rattle.smith_instr.specs.Sequences.{AreTyped, Stacked, stacked};
ghost use Rattle.smith_instr.specs.declared.control.BlockType.TheVariants as block;
ghost use Rattle.smith_instr.specs.declared.instr.Instr.TheVariants as instr;
ghost use Rattle.smith_instr.specs.declared.reference.ReferenceInstr.TheVariants as reference;
ghost use Rattle.smith_instr_examples.specs.ExampleBodies.{function_of, number, some_func, wide_number};

// A branch to the label of the if that it is in.
fn of_ifs()
    ensures in_the_first_arm { AreTyped (function_of [] []) (instr.If (block.Value I32) ∷ number 1 ∷ instr.Br 0 ∷ instr.Else ∷ number 2
        ∷ instr.End ∷ []) (stacked (I32 ∷ []) []) (stacked (I32 ∷ []) []) }
    ensures in_the_first_arm_with_another_type { (before after : Stacked) → ¬ AreTyped (function_of [] []) (instr.If (block.Value I32)
        ∷ wide_number 1 ∷ instr.Br 0 ∷ instr.Else ∷ number 2 ∷ instr.End ∷ []) before after }
    ensures in_the_second_arm { AreTyped (function_of [] []) (instr.If (block.Value I32) ∷ number 1 ∷ instr.Else ∷ number 2 ∷ instr.Br 0
        ∷ instr.End ∷ []) (stacked (I32 ∷ []) []) (stacked (I32 ∷ []) []) }
    ensures in_the_second_arm_with_another_type { (before after : Stacked) → ¬ AreTyped (function_of [] []) (instr.If (block.Value I32)
        ∷ number 1 ∷ instr.Else ∷ wide_number 2 ∷ instr.Br 0 ∷ instr.End ∷ []) before after }
    ensures in_the_only_arm { AreTyped (function_of [] []) (instr.If (block.Func 4) ∷ instr.Drop
        ∷ instr.Reference (reference.Null (plain heap.Func)) ∷ instr.Br 0 ∷ instr.End ∷ []) (stacked (some_func ∷ I32 ∷ []) [])
        (stacked (Ref funcref ∷ []) []) }
    ensures in_the_only_arm_with_another_type { (before after : Stacked) → ¬ AreTyped (function_of [] []) (instr.If (block.Func 4)
        ∷ wide_number 1 ∷ instr.Br 0 ∷ instr.End ∷ []) before after }
{}

// A branch to the label of the try_table that it is in.
fn of_try_tables()
    ensures with_the_result { AreTyped (function_of [] []) (instr.TryTable (block.Value I32) [] ∷ number 1 ∷ instr.Br 0 ∷ instr.End
        ∷ []) (stacked [] []) (stacked (I32 ∷ []) []) }
    ensures with_another_type { (before after : Stacked) → ¬ AreTyped (function_of [] []) (instr.TryTable (block.Value I32) []
        ∷ wide_number 1 ∷ instr.Br 0 ∷ instr.End ∷ []) before after }
{}

// A branch to the label of the block or the loop that it is in, or to the next one.
fn of_blocks_and_loops()
    ensures block_with_another_type { (before after : Stacked) → ¬ AreTyped (function_of [] []) (instr.Block (block.Value I32)
        ∷ wide_number 1 ∷ instr.Br 0 ∷ instr.End ∷ []) before after }
    ensures block_to_the_next_label { AreTyped (labelled (function_of [] []) (I64 ∷ [])) (instr.Block (block.Value I32) ∷ wide_number 1
        ∷ instr.Br 1 ∷ instr.End ∷ []) (stacked [] []) (stacked (I32 ∷ []) []) }
    ensures block_to_the_next_label_with_another_type { (before after : Stacked) → ¬ AreTyped (labelled (function_of [] []) (I32 ∷ []))
        (instr.Block (block.Value I64) ∷ wide_number 1 ∷ instr.Br 1 ∷ instr.End ∷ []) before after }
    ensures loop_without_its_result { AreTyped (function_of [] []) (instr.Loop (block.Value I32) ∷ instr.Br 0 ∷ instr.End
        ∷ []) (stacked [] []) (stacked (I32 ∷ []) []) }
    ensures loop_with_another_parameter { (before after : Stacked) → ¬ AreTyped (function_of [] []) (instr.Loop (block.Func 1)
        ∷ wide_number 1 ∷ instr.Br 0 ∷ instr.End ∷ []) before after }
{}
