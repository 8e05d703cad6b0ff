ghost use Rattle.std.specs.Prelude.{◌≡◌, [], ◌∷◌, ◌++◌};
ghost use Rattle.smith_types.specs.Syntax.value_type.ValType.TheVariants.{I32, I64};
ghost use Rattle.smith_config.specs.Config.{default_config};
ghost use Rattle.smith_instr.specs.declared.control.BlockType.TheVariants as block;
ghost use Rattle.smith_instr.specs.declared.instr.Instr.TheVariants as instr;
ghost use Rattle.smith_instr_examples.specs.ExampleBodies.{function_of, number};
ghost use Rattle.smith_body.specs.Bodies.{body_at};
ghost use Rattle.smith_body_examples.specs.ExampleBytes.{narrow, wide, wide_number};

fn leaving()
    ensures out { body_at default_config (function_of [] (I32 ∷ [])) 1 (0 ∷ 12 ∷ 7 ∷ 0 ∷ 1 ∷ narrow 5)
        ≡ (number 5 ∷ instr.Return ∷ [], []) }
    ensures to_a_label { body_at default_config (function_of [] (I32 ∷ [])) 1 (0 ∷ 12 ∷ 7 ∷ 0 ∷ 0 ∷ narrow 5)
        ≡ (number 5 ∷ instr.Br 0 ∷ [], []) }
    ensures out_of_a_block { body_at default_config (function_of [] (I64 ∷ [])) 2 (1 ∷ 7 ∷ 0 ∷ 0 ∷ 252 ∷ 0 ∷ 0 ∷ 1 ∷ wide 5 ++ 0 ∷ wide 6)
        ≡ (instr.Block (block.Func 0) ∷ wide_number 5 ∷ instr.Br 1 ∷ instr.End ∷ wide_number 6 ∷ [], []) }
{}

fn staying()
    ensures value_is_dropped { body_at default_config (function_of [] (I64 ∷ [])) 1 (1 ∷ 9 ∷ wide 5 ++ narrow 1 ++ wide 6)
        ≡ (wide_number 5 ∷ number 1 ∷ instr.BrIf 0 ∷ instr.Drop ∷ wide_number 6 ∷ [], []) }
{}

fn tables()
    ensures one_label_alone { body_at default_config (function_of [] []) 1 (252 ∷ 6 ∷ 0 ∷ narrow 1)
        ≡ (number 1 ∷ instr.BrTable [] 0 ∷ [], []) }
    ensures one_label_again_and_again { body_at default_config (function_of [] []) 1 (252 ∷ 6 ∷ 4 ∷ narrow 1)
        ≡ (number 1 ∷ instr.BrTable (0 ∷ 0 ∷ []) 0 ∷ [], []) }
    ensures labels_of_the_same_values { body_at default_config (function_of [] (I64 ∷ [])) 2
        (1 ∷ 7 ∷ 0 ∷ 0 ∷ 252 ∷ 6 ∷ 0 ∷ 4 ∷ narrow 1 ++ 0 ∷ wide 6)
        ≡ (instr.Block (block.Func 0) ∷ number 1 ∷ instr.BrTable (0 ∷ 0 ∷ []) 0 ∷ instr.End ∷ wide_number 6 ∷ [], []) }
{}
