ghost use Rattle.std.specs.Prelude.{List, [], ◌∷◌};
ghost use Rattle.smith_types.specs.Syntax.value_type.ValType.TheVariants.{I32, I64, Ref};
ghost use Rattle.smith_types.specs.Flags.{funcref};
ghost use Rattle.smith_instr.specs.declared.instr.Instr.TheVariants as instr;
ghost use Rattle.smith_instr.specs.declared.control.BlockType.TheVariants as block;
ghost use Rattle.smith_types.specs.Syntax.value_type.ValType.{ValType};
ghost use Rattle.smith_instr.specs.Contexts.{BodyContext, labelled};
ghost use Rattle.smith_instr.specs.InstrTypes.{HasInstrType};
ghost use Rattle.smith_instr.specs.Sequences.{stacked, AreTyped, IsBodyTyped};
ghost use Rattle.smith_instr_examples.specs.ExampleBodies.{function_of, some_func, number, add};

fn sums()
    ensures of_two { IsBodyTyped (function_of [] (I32 ∷ [])) (number 1 ∷ number 2 ∷ add ∷ []) }
    ensures of_one { ¬ IsBodyTyped (function_of [] (I32 ∷ [])) (number 1 ∷ add ∷ []) }
{}

fn ends()
    ensures a_value_is_left { ¬ IsBodyTyped (function_of [] []) (number 1 ∷ []) }
    ensures a_result_is_missing { ¬ IsBodyTyped (function_of [] (I32 ∷ [])) [] }
    ensures end_is_forgotten { ¬ IsBodyTyped (function_of [] []) (instr.Block block.Empty ∷ []) }
    ensures nothing_comes_back { IsBodyTyped (function_of [] (I32 ∷ [])) (instr.Unreachable ∷ []) }
{}

fn locals()
    ensures with_a_default { IsBodyTyped (function_of (I32 ∷ []) (I32 ∷ [])) (instr.LocalGet 0 ∷ []) }
    ensures read_after_it_is_set { IsBodyTyped (function_of (some_func ∷ []) []) (instr.Unreachable ∷ instr.LocalSet 0 ∷ instr.LocalGet 0
        ∷ instr.Drop ∷ []) }
    ensures read_after_a_tee { IsBodyTyped (function_of (some_func ∷ []) []) (instr.Unreachable ∷ instr.LocalTee 0 ∷ instr.Drop
        ∷ instr.LocalGet 0 ∷ instr.Drop ∷ []) }
    ensures read_before_it_is_set { ¬ IsBodyTyped (function_of (some_func ∷ []) []) (instr.LocalGet 0 ∷ instr.Drop ∷ []) }
{}

fn weakening()
    ensures to_a_type_above { AreTyped (function_of [] []) [] (stacked (some_func ∷ []) []) (stacked (Ref funcref ∷ []) []) }
    ensures by_an_empty_block { AreTyped (function_of [] []) (instr.Block (block.Func 4) ∷ instr.End ∷ []) (stacked (some_func ∷ []) [])
        (stacked (Ref funcref ∷ []) []) }
    ensures by_an_if_without_else { AreTyped (function_of [] []) (instr.If (block.Func 4) ∷ instr.End
        ∷ []) (stacked (some_func ∷ I32 ∷ []) []) (stacked (Ref funcref ∷ []) []) }
    ensures to_a_type_below { ¬ AreTyped (function_of [] []) [] (stacked (Ref funcref ∷ []) []) (stacked (some_func ∷ []) []) }
{}

fn branches()
    ensures to_a_block { IsBodyTyped (function_of [] (I32 ∷ [])) (instr.Block (block.Value I32) ∷ number 1 ∷ instr.Br 0 ∷ instr.End ∷ []) }
    ensures without_a_value { ¬ IsBodyTyped (function_of [] (I32 ∷ [])) (instr.Br 0 ∷ []) }
    ensures to_a_label_of_another_type { (context : BodyContext) (results : List ValType) → ¬ HasInstrType (labelled context (I64 ∷ [])) []
        (instr.Br 0) (I32 ∷ []) results }
{}

fn ifs()
    ensures without_else { IsBodyTyped (function_of [] []) (number 1 ∷ instr.If block.Empty ∷ instr.End ∷ []) }
    ensures without_else_for_a_result { ¬ IsBodyTyped (function_of [] (I32 ∷ [])) (number 1 ∷ instr.If (block.Value I32) ∷ number 2
        ∷ instr.End ∷ []) }
{}
