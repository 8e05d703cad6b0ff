ghost use Rattle.std.specs.Prelude.{[], ◌∷◌};
ghost use Rattle.smith_types.specs.Syntax.value_type.ValType.TheVariants.{I32};
ghost use Rattle.smith_instr.specs.Sequences.{AreTyped, IsBodyTyped, Stacked};
ghost use Rattle.smith_instr.specs.declared.control.BlockType.TheVariants as block;
ghost use Rattle.smith_instr.specs.declared.instr.Instr.TheVariants as instr;
ghost use Rattle.smith_instr_examples.specs.ExampleBodies.{function_of, number, wide_number};

// What the body of a block leaves.
fn results()
    ensures block_with_another_result { (before after : Stacked) → ¬ AreTyped (function_of [] []) (instr.Block (block.Value I32)
        ∷ wide_number 1 ∷ instr.End ∷ []) before after }
    ensures loop_with_another_result { (before after : Stacked) → ¬ AreTyped (function_of [] []) (instr.Loop (block.Value I32)
        ∷ wide_number 1 ∷ instr.End ∷ []) before after }
    ensures first_arm_with_another_result { (before after : Stacked) → ¬ AreTyped (function_of [] []) (instr.If (block.Value I32)
        ∷ wide_number 1 ∷ instr.Else ∷ number 2 ∷ instr.End ∷ []) before after }
    ensures second_arm_with_another_result { (before after : Stacked) → ¬ AreTyped (function_of [] []) (instr.If (block.Value I32)
        ∷ number 1 ∷ instr.Else ∷ wide_number 2 ∷ instr.End ∷ []) before after }
    ensures only_arm_with_another_result { (before after : Stacked) → ¬ AreTyped (function_of [] []) (instr.If (block.Func 4) ∷ instr.Drop
        ∷ wide_number 1 ∷ instr.End ∷ []) before after }
    ensures try_table_with_another_result { (before after : Stacked) → ¬ AreTyped (function_of [] []) (instr.TryTable (block.Value I32) []
        ∷ wide_number 1 ∷ instr.End ∷ []) before after }
    ensures block_with_one_more { (before after : Stacked) → ¬ AreTyped (function_of [] []) (instr.Block block.Empty ∷ number 1 ∷ instr.End
        ∷ []) before after }
    ensures loop_with_one_more { (before after : Stacked) → ¬ AreTyped (function_of [] []) (instr.Loop block.Empty ∷ number 1 ∷ instr.End
        ∷ []) before after }
    ensures first_arm_with_one_more { (before after : Stacked) → ¬ AreTyped (function_of [] []) (instr.If block.Empty ∷ number 1
        ∷ instr.Else ∷ instr.End ∷ []) before after }
    ensures second_arm_with_one_more { (before after : Stacked) → ¬ AreTyped (function_of [] []) (instr.If block.Empty ∷ instr.Else
        ∷ number 1 ∷ instr.End ∷ []) before after }
    ensures only_arm_with_one_more { (before after : Stacked) → ¬ AreTyped (function_of [] []) (instr.If block.Empty ∷ number 1 ∷ instr.End
        ∷ []) before after }
{}

// The body of a block takes no value from below its parameters.
fn values_below()
    ensures of_a_block { (before after : Stacked) → ¬ AreTyped (function_of [] []) (instr.Block block.Empty ∷ instr.Drop ∷ instr.End
        ∷ []) before after }
    ensures of_a_loop { (before after : Stacked) → ¬ AreTyped (function_of [] []) (instr.Loop block.Empty ∷ instr.Drop ∷ instr.End
        ∷ []) before after }
    ensures of_the_first_arm { (before after : Stacked) → ¬ AreTyped (function_of [] []) (instr.If block.Empty ∷ instr.Drop ∷ instr.Else
        ∷ instr.End ∷ []) before after }
    ensures of_the_second_arm { (before after : Stacked) → ¬ AreTyped (function_of [] []) (instr.If block.Empty ∷ instr.Else ∷ instr.Drop
        ∷ instr.End ∷ []) before after }
    ensures of_the_only_arm { (before after : Stacked) → ¬ AreTyped (function_of [] []) (instr.If block.Empty ∷ instr.Drop ∷ instr.End
        ∷ []) before after }
    ensures of_a_try_table { (before after : Stacked) → ¬ AreTyped (function_of [] []) (instr.TryTable block.Empty [] ∷ instr.Drop
        ∷ instr.End ∷ []) before after }
{}

// A block on a value of another type than its parameter, and an if on another than its condition.
fn operands()
    ensures block_of_another_type { ¬ IsBodyTyped (function_of [] []) (wide_number 1 ∷ instr.Block (block.Func 1) ∷ instr.Drop ∷ instr.End
        ∷ []) }
    ensures loop_of_another_type { ¬ IsBodyTyped (function_of [] []) (wide_number 1 ∷ instr.Loop (block.Func 1) ∷ instr.Drop ∷ instr.End
        ∷ []) }
    ensures try_table_of_another_type { ¬ IsBodyTyped (function_of [] []) (wide_number 1 ∷ instr.TryTable (block.Func 1) [] ∷ instr.Drop
        ∷ instr.End ∷ []) }
    ensures if_by_a_wide_number { ¬ IsBodyTyped (function_of [] []) (wide_number 1 ∷ instr.If block.Empty ∷ instr.End ∷ []) }
    ensures if_with_an_else_by_a_wide_number { ¬ IsBodyTyped (function_of [] []) (wide_number 1 ∷ instr.If block.Empty ∷ instr.Else
        ∷ instr.End ∷ []) }
{}
