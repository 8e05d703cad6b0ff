ghost use Rattle.std.specs.Prelude.{◌≡◌, [], ◌∷◌};
ghost use Rattle.smith_types.specs.Syntax.value_type.ValType.TheVariants.{I32};
ghost use Rattle.smith_config.specs.Config.{default_config};
ghost use Rattle.smith_instr.specs.declared.instr.Instr.TheVariants as instr;
ghost use Rattle.smith_instr.specs.declared.numeric.IntUnary.TheVariants.{Clz, Ctz};
ghost use Rattle.smith_instr.specs.declared.numeric.NumericInstr.TheVariants as numeric;
ghost use Rattle.smith_instr_examples.specs.ExampleBodies.{function_of, number};
ghost use Rattle.smith_body.specs.Bodies.{body_at};
ghost use Rattle.smith_body_examples.specs.ExampleBytes.{narrow};

fn budget()
    ensures none { body_at default_config (function_of [] (I32 ∷ [])) 0 (1 ∷ 2 ∷ []) ≡ (instr.Unreachable ∷ [], 1 ∷ 2 ∷ []) }
    ensures of_one { body_at default_config (function_of [] (I32 ∷ [])) 1 (0 ∷ 1 ∷ 0 ∷ narrow 5)
        ≡ (number 5 ∷ instr.Numeric (numeric.I32Unary Clz) ∷ [], []) }
    ensures of_two { body_at default_config (function_of [] (I32 ∷ [])) 2 (0 ∷ 1 ∷ 0 ∷ 1 ∷ 1 ∷ narrow 5)
        ≡ (number 5 ∷ instr.Numeric (numeric.I32Unary Ctz) ∷ instr.Numeric (numeric.I32Unary Clz) ∷ [], []) }
    ensures none_is_left { body_at default_config (function_of [] []) 2 (1 ∷ 0 ∷ 0 ∷ 1 ∷ 0 ∷ 0 ∷ 1 ∷ 0 ∷ [])
        ≡ (instr.Nop ∷ instr.Nop ∷ [], 1 ∷ 0 ∷ []) }
    ensures not_spent { ¬ (body_at default_config (function_of [] []) 2 (1 ∷ 0 ∷ 0 ∷ 1 ∷ 0 ∷ 0 ∷ 1 ∷ 0 ∷ 0 ∷ [])
        ≡ (instr.Nop ∷ instr.Nop ∷ instr.Nop ∷ [], [])) }
{}
