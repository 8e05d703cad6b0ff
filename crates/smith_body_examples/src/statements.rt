ghost use Rattle.std.specs.Prelude.{◌≡◌, [], ◌∷◌, ◌++◌};
ghost use Rattle.smith_types.specs.Syntax.value_type.ValType.TheVariants.{I32, I64};
ghost use Rattle.smith_config.specs.Config.{default_config};
ghost use Rattle.smith_instr.specs.declared.control.BlockType.TheVariants as block;
ghost use Rattle.smith_instr.specs.declared.instr.Instr.TheVariants as instr;
ghost use Rattle.smith_instr.specs.declared.numeric.NumericInstr.TheVariants as numeric;
ghost use Rattle.smith_instr_examples.specs.ExampleBodies.{function_of, number, some_func};
ghost use Rattle.smith_body.specs.Bodies.{body_at};
ghost use Rattle.smith_body_examples.specs.ExampleBytes.{calling, narrow, wide, wide_number};

fn statements()
    ensures none { body_at default_config (function_of [] []) 9 (12 ∷ 1 ∷ []) ≡ ([], 1 ∷ []) }
    ensures two { body_at default_config (function_of [] []) 9 (1 ∷ 0 ∷ 0 ∷ 2 ∷ 25 ∷ 0 ∷ 1 ∷ [])
        ≡ (instr.Nop ∷ instr.AtomicFence ∷ [], 1 ∷ []) }
    ensures dropped_number { body_at default_config (function_of [] []) 1 (1 ∷ 1 ∷ 1 ∷ wide 5) ≡ (wide_number 5 ∷ instr.Drop ∷ [], []) }
    ensures dropped_local { body_at default_config (function_of (some_func ∷ []) []) 1 (1 ∷ 2 ∷ 4 ∷ 4 ∷ 15 ∷ [])
        ≡ (instr.Unreachable ∷ instr.Drop ∷ [], []) }
    ensures local { body_at default_config (function_of (I32 ∷ I64 ∷ []) []) 1 (1 ∷ 15 ∷ 1 ∷ wide 5)
        ≡ (wide_number 5 ∷ instr.LocalSet 1 ∷ [], []) }
    ensures no_local { body_at default_config (function_of [] []) 1 (1 ∷ 15 ∷ []) ≡ (instr.Nop ∷ [], []) }
    ensures variable_global { body_at default_config (function_of [] []) 1 (1 ∷ 3 ∷ narrow 5) ≡ (number 5 ∷ instr.GlobalSet 1 ∷ [], []) }
    ensures call { body_at default_config (calling []) 1 (1 ∷ 5 ∷ 1 ∷ wide 5)
        ≡ (wide_number 5 ∷ instr.Call 1 ∷ instr.Numeric numeric.I64Eqz ∷ instr.BrIf 0 ∷ instr.GlobalSet 1 ∷ [], []) }
    ensures results_of_a_call_first_one_first { ¬ (body_at default_config (calling []) 1 (1 ∷ 5 ∷ 1 ∷ wide 5)
        ≡ (wide_number 5 ∷ instr.Call 1 ∷ instr.GlobalSet 1 ∷ instr.Numeric numeric.I64Eqz ∷ instr.BrIf 0 ∷ [], [])) }
    ensures before_the_results { body_at default_config (function_of [] (I32 ∷ [])) 2 (1 ∷ 0 ∷ 0 ∷ 0 ∷ 0 ∷ narrow 5)
        ≡ (instr.Nop ∷ number 5 ∷ [], []) }
{}

fn intervals()
    ensures no_multiple_of_6 { body_at default_config (function_of [] []) 9 (4 ∷ 0 ∷ 0 ∷ 0 ∷ 7 ∷ []) ≡ (instr.Nop ∷ [], 7 ∷ []) }
    ensures multiple_of_8_in_a_block { body_at default_config (function_of [] []) 13 (1 ∷ 7 ∷ 0 ∷ 0 ∷ 8 ∷ 0 ∷ 7 ∷ [])
        ≡ (instr.Block (block.Func 0) ∷ instr.End ∷ [], 7 ∷ []) }
    ensures chosen_once_more { body_at default_config (function_of [] []) 1 (1 ∷ 15 ∷ 25 ∷ 7 ∷ []) ≡ (instr.AtomicFence ∷ [], 7 ∷ []) }
    ensures chosen_only_once { ¬ (body_at default_config (function_of [] []) 1 (1 ∷ 15 ∷ 25 ∷ 7 ∷ []) ≡ (instr.Nop ∷ [], 25 ∷ 7 ∷ [])) }
{}

fn endings()
    ensures in_place_of_the_results { body_at default_config (function_of [] (I32 ∷ [])) 9 (1 ∷ 0 ∷ 0 ∷ 252 ∷ 7 ∷ 0 ∷ 1 ∷ [])
        ≡ (instr.Nop ∷ instr.Unreachable ∷ [], 1 ∷ []) }
    ensures before_statements_and_the_results { body_at default_config (function_of [] (I32 ∷ [])) 2 (248 ∷ 7 ∷ 7 ∷ 1 ∷ 0 ∷ 0 ∷ narrow 5)
        ≡ (instr.Unreachable ∷ instr.Nop ∷ number 5 ∷ [], []) }
    ensures results_all_the_same { ¬ (body_at default_config (function_of [] (I32 ∷ [])) 1 (252 ∷ 7 ∷ 0 ∷ narrow 5)
        ≡ (instr.Unreachable ∷ number 5 ∷ [], [])) }
    ensures last_multiple_of_6_below_248 { body_at default_config (function_of [] []) 9 (246 ∷ 7 ∷ []) ≡ ([], 7 ∷ []) }
    ensures block_in_place_of_a_value { body_at default_config (function_of [] (I32 ∷ [])) 1 (0 ∷ 12 ∷ 6 ∷ 0 ∷ narrow 5)
        ≡ (instr.Block (block.Value I32) ∷ number 5 ∷ instr.End ∷ [], []) }
{}
