ghost use Rattle.std.specs.Prelude.{[], ◌∷◌};
ghost use Rattle.smith_types.specs.Syntax.value_type.ValType.TheVariants.{I32};
ghost use Rattle.smith_instr.specs.Sequences.{AreTyped, stacked};
ghost use Rattle.smith_instr.specs.declared.control.BlockType.TheVariants as block;
ghost use Rattle.smith_instr.specs.declared.instr.Instr.TheVariants as instr;
ghost use Rattle.smith_instr_examples.specs.ExampleBodies.{function_of, number, some_func};

fn loops()
    ensures back_to_the_start { AreTyped (function_of [] []) (instr.Loop (block.Func 1) ∷ instr.Br 0 ∷ instr.End
        ∷ []) (stacked (I32 ∷ []) []) (stacked [] []) }
    ensures without_the_value_of_the_start { ¬ AreTyped (function_of [] []) (instr.Loop (block.Func 1) ∷ instr.Drop ∷ instr.Br 0 ∷ instr.End
        ∷ []) (stacked (I32 ∷ []) []) (stacked [] []) }
    ensures without_the_value_of_a_block_s_start { AreTyped (function_of [] []) (instr.Block (block.Func 1) ∷ instr.Drop ∷ instr.Br 0
        ∷ instr.End ∷ []) (stacked (I32 ∷ []) []) (stacked [] []) }
{}

fn ifs()
    ensures with_an_else { AreTyped (function_of [] []) (instr.If (block.Value I32) ∷ number 1 ∷ instr.Else ∷ number 2 ∷ instr.End
        ∷ []) (stacked (I32 ∷ []) []) (stacked (I32 ∷ []) []) }
    ensures else_without_a_result { ¬ AreTyped (function_of [] []) (instr.If (block.Value I32) ∷ number 1 ∷ instr.Else ∷ instr.End
        ∷ []) (stacked (I32 ∷ []) []) (stacked (I32 ∷ []) []) }
{}

// A local that has no default, set inside a block, and read after its end or in its other arm.
fn forgotten_locals()
    ensures set_in_a_block { ¬ AreTyped (function_of (some_func ∷ []) []) (instr.Block block.Empty ∷ instr.Unreachable ∷ instr.LocalSet 0
        ∷ instr.End ∷ instr.LocalGet 0 ∷ []) (stacked [] []) (stacked (some_func ∷ []) []) }
    ensures set_in_a_loop { ¬ AreTyped (function_of (some_func ∷ []) []) (instr.Loop block.Empty ∷ instr.Unreachable ∷ instr.LocalSet 0
        ∷ instr.End ∷ instr.LocalGet 0 ∷ []) (stacked [] []) (stacked (some_func ∷ []) []) }
    ensures set_in_an_if { ¬ AreTyped (function_of (some_func ∷ []) []) (instr.If block.Empty ∷ instr.Unreachable ∷ instr.LocalSet 0
        ∷ instr.End ∷ instr.LocalGet 0 ∷ []) (stacked (I32 ∷ []) []) (stacked (some_func ∷ []) []) }
    ensures set_in_both_arms { ¬ AreTyped (function_of (some_func ∷ []) []) (instr.If block.Empty ∷ instr.Unreachable ∷ instr.LocalSet 0
        ∷ instr.Else ∷ instr.Unreachable ∷ instr.LocalSet 0 ∷ instr.End ∷ instr.LocalGet 0 ∷ []) (stacked (I32 ∷ []) [])
        (stacked (some_func ∷ []) []) }
    ensures set_in_the_first_arm { ¬ AreTyped (function_of (some_func ∷ []) []) (instr.If block.Empty ∷ instr.Unreachable ∷ instr.LocalSet 0
        ∷ instr.Else ∷ instr.LocalGet 0 ∷ instr.Drop ∷ instr.End ∷ []) (stacked (I32 ∷ []) []) (stacked [] []) }
    ensures set_in_a_try_table { ¬ AreTyped (function_of (some_func ∷ []) []) (instr.TryTable block.Empty [] ∷ instr.Unreachable
        ∷ instr.LocalSet 0 ∷ instr.End ∷ instr.LocalGet 0 ∷ []) (stacked [] []) (stacked (some_func ∷ []) []) }
{}

// The same local, set before a block, and read inside it.
fn remembered_locals()
    ensures read_in_a_block { AreTyped (function_of (some_func ∷ []) []) (instr.Unreachable ∷ instr.LocalSet 0 ∷ instr.Block block.Empty
        ∷ instr.LocalGet 0 ∷ instr.Drop ∷ instr.End ∷ []) (stacked [] []) (stacked [] (0 ∷ [])) }
    ensures read_in_a_loop { AreTyped (function_of (some_func ∷ []) []) (instr.Unreachable ∷ instr.LocalSet 0 ∷ instr.Loop block.Empty
        ∷ instr.LocalGet 0 ∷ instr.Drop ∷ instr.End ∷ []) (stacked [] []) (stacked [] (0 ∷ [])) }
    ensures read_in_an_if { AreTyped (function_of (some_func ∷ []) []) (instr.Unreachable ∷ instr.LocalSet 0 ∷ number 1
        ∷ instr.If block.Empty ∷ instr.LocalGet 0 ∷ instr.Drop ∷ instr.End ∷ []) (stacked [] []) (stacked [] (0 ∷ [])) }
    ensures read_in_both_arms { AreTyped (function_of (some_func ∷ []) []) (instr.Unreachable ∷ instr.LocalSet 0 ∷ number 1
        ∷ instr.If block.Empty ∷ instr.LocalGet 0 ∷ instr.Drop ∷ instr.Else ∷ instr.LocalGet 0 ∷ instr.Drop ∷ instr.End
        ∷ []) (stacked [] []) (stacked [] (0 ∷ [])) }
    ensures read_in_a_try_table { AreTyped (function_of (some_func ∷ []) []) (instr.Unreachable ∷ instr.LocalSet 0
        ∷ instr.TryTable block.Empty [] ∷ instr.LocalGet 0 ∷ instr.Drop ∷ instr.End ∷ []) (stacked [] []) (stacked [] (0 ∷ [])) }
{}
