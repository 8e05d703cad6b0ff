ghost use Rattle.std.specs.Prelude.{◌≡◌, [], ◌∷◌, ◌++◌};
ghost use Rattle.smith_config.specs.Config.{default_config};
ghost use Rattle.smith_module_rules_examples.specs.ExampleModules.{empty_module};
ghost use Rattle.smith_module_rules_examples.specs.ExampleParts.{trapping};
ghost use Rattle.smith_instr.specs.declared.control.BlockType.TheVariants as block;
ghost use Rattle.smith_instr.specs.declared.instr.Instr.TheVariants as instr;
ghost use Rattle.smith_instr.specs.declared.numeric.IntBinary.TheVariants.{Sub};
ghost use Rattle.smith_instr.specs.declared.numeric.NumericInstr.TheVariants as numeric;
ghost use Rattle.smith_instr_examples.specs.ExampleBodies.{number};
ghost use Rattle.smith_body_examples.specs.ExampleBytes.{narrow};
ghost use Rattle.smith_program.specs.DrawnBodies.{bodies_at};
ghost use Rattle.smith_program.specs.declared.program.Body.TheVariants as body;
ghost use Rattle.smith_program_examples.specs.ExamplePrograms.{constant, constant_bytes, narrow_function, plain, raw, raw_between};
ghost use Rattle.smith_program_examples.specs.ExamplePrograms.{two_functions};

fn one()
    ensures no_function { bodies_at (empty_module default_config) (1 ∷ 2 ∷ []) ≡ ([], 1 ∷ 2 ∷ []) }
    ensures of_no_bytes { bodies_at plain [] ≡ (body.Drawn [] ∷ [], []) }
    ensures past_the_end { bodies_at narrow_function [] ≡ (constant 0 ∷ [], []) }
    ensures a_constant { bodies_at narrow_function (constant_bytes 7 ++ 9 ∷ []) ≡ (constant 7 ∷ [], 9 ∷ []) }
    ensures with_operands { bodies_at narrow_function (0 ∷ 1 ∷ 4 ∷ narrow 5 ++ narrow 7)
        ≡ (body.Drawn (number 5 ∷ number 7 ∷ instr.Numeric (numeric.I32Binary Sub) ∷ []) ∷ [], []) }
    ensures if_alone { bodies_at plain (1 ∷ 7 ∷ 5 ∷ 0 ∷ narrow 1)
        ≡ (body.Drawn (number 1 ∷ instr.If (block.Func 0) ∷ instr.End ∷ []) ∷ [], []) }
{}

fn several()
    ensures in_order { bodies_at two_functions (constant_bytes 5 ++ constant_bytes 7) ≡ (constant 5 ∷ constant 7 ∷ [], []) }
    ensures last_body_first { ¬ (bodies_at two_functions (constant_bytes 5 ++ constant_bytes 7) ≡ (constant 7 ∷ constant 5 ∷ [], [])) }
    ensures same_bytes_again { ¬ (bodies_at two_functions (constant_bytes 5 ++ constant_bytes 7)
        ≡ (constant 5 ∷ constant 5 ∷ [], constant_bytes 7)) }
    ensures one_for_both { ¬ (bodies_at two_functions (constant_bytes 5 ++ constant_bytes 7) ≡ (constant 5 ∷ [], constant_bytes 7)) }
    ensures budget_for_each { bodies_at (record plain { funcs = 0 ∷ 0 ∷ []; num_defined_funcs = 2; code = trapping ∷ trapping ∷ [] }) (1 ∷ 0
        ∷ 0 ∷ 1 ∷ 0 ∷ 0 ∷ []) ≡ (body.Drawn (instr.Nop ∷ []) ∷ body.Drawn (instr.Nop ∷ []) ∷ [], []) }
{}

fn raw_bytes()
    ensures alone { bodies_at (record narrow_function { code = raw ∷ [] }) (constant_bytes 5) ≡ (body.Raw ∷ [], constant_bytes 5) }
    ensures between { bodies_at raw_between (constant_bytes 5 ++ constant_bytes 7) ≡ (constant 5 ∷ body.Raw ∷ constant 7 ∷ [], []) }
    ensures drawn_over { ¬ (bodies_at (record narrow_function { code = raw ∷ [] }) (constant_bytes 5) ≡ (constant 5 ∷ [], [])) }
    ensures left_out { ¬ (bodies_at raw_between (constant_bytes 5 ++ constant_bytes 7) ≡ (constant 5 ∷ constant 7 ∷ [], [])) }
{}
