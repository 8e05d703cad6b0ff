ghost use Rattle.std.specs.Prelude.{◌≡◌, false, true, [], ◌∷◌, ◌++◌};
ghost use Rattle.smith_types.specs.Syntax.value_type.ValType.TheVariants.{I32, I64};
ghost use Rattle.smith_config.specs.Config.{default_config};
ghost use Rattle.smith_instr.specs.declared.control.BlockType.TheVariants as block;
ghost use Rattle.smith_instr.specs.declared.instr.Instr.TheVariants as instr;
ghost use Rattle.smith_instr.specs.declared.numeric.IntBinary.TheVariants.{Sub};
ghost use Rattle.smith_instr.specs.declared.numeric.NumericInstr.TheVariants as numeric;
ghost use Rattle.smith_instr_examples.specs.ExampleBodies.{function_of, number};
ghost use Rattle.smith_body.specs.Bodies.{body_at};
ghost use Rattle.smith_body.specs.Repeats.{may_repeat, times_at};
ghost use Rattle.smith_body_nodes.specs.declared.node.Opening.TheVariants as opening;
ghost use Rattle.smith_body_examples.specs.ExampleBytes.{narrow};

fn blocks()
    ensures of_a_loop { may_repeat opening.Loop [] 1 ≡ true }
    ensures of_no_other_block { may_repeat opening.Block [] 1 ≡ false }
    ensures without_a_budget { may_repeat opening.Loop [] 0 ≡ false }
    ensures with_parameters { may_repeat opening.Loop (I32 ∷ []) 1 ≡ false }
{}

fn times()
    ensures few { times_at 1 (27 ∷ 15 ∷ []) ≡ (16, []) }
    ensures several { times_at 1 (28 ∷ 1 ∷ []) ≡ (65, []) }
    ensures many { times_at 1 (31 ∷ 0 ∷ 5 ∷ []) ≡ (1005, []) }
    ensures in_another_block { times_at 2 (6 ∷ 15 ∷ []) ≡ (3, 15 ∷ []) }
    ensures without_bytes { times_at 1 [] ≡ (1, []) }
{}

fn loops()
    ensures counted { body_at default_config (function_of (I64 ∷ I32 ∷ []) []) 2 (1 ∷ 7 ∷ 1 ∷ 0 ∷ 1 ∷ 0 ∷ 4 ∷ [])
        ≡ (
          number 5 ∷ instr.LocalSet 1 ∷ instr.Loop (block.Func 0) ∷ instr.LocalGet 1 ∷ number 1 ∷ instr.Numeric (numeric.I32Binary Sub)
              ∷ instr.LocalTee 1 ∷ instr.BrIf 0 ∷ instr.End ∷ [],
          [],
        ) }
    ensures tested { body_at default_config (function_of (I64 ∷ []) []) 2 (1 ∷ 7 ∷ 1 ∷ 0 ∷ 1 ∷ narrow 5)
        ≡ (instr.Loop (block.Func 0) ∷ number 5 ∷ instr.BrIf 0 ∷ instr.End ∷ [], []) }
    ensures of_a_value { body_at default_config (function_of [] (I32 ∷ [])) 2 (0 ∷ 11 ∷ 1 ∷ 1 ∷ narrow 5 ++ narrow 6)
        ≡ (instr.Loop (block.Value I32) ∷ number 5 ∷ instr.BrIf 0 ∷ number 6 ∷ instr.End ∷ [], []) }
    ensures seldom_once { body_at default_config (function_of (I32 ∷ []) []) 2 (1 ∷ 7 ∷ 1 ∷ 0 ∷ 0 ∷ [])
        ≡ (instr.Loop (block.Func 0) ∷ instr.End ∷ [], []) }
{}
