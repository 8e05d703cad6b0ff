ghost use Rattle.std.specs.Prelude.{◌≡◌, [], ◌∷◌, ◌++◌, pos};
ghost use Rattle.smith_instr.specs.declared.control.BlockType.TheVariants as block;
ghost use Rattle.smith_instr.specs.declared.instr.Instr.TheVariants as instr;
ghost use Rattle.smith_instr.specs.declared.numeric.IntBinary.TheVariants.{Sub};
ghost use Rattle.smith_instr.specs.declared.numeric.NumericInstr.TheVariants as numeric;
ghost use Rattle.smith_instr_examples.specs.ExampleBodies.{number};
ghost use Rattle.smith_program.specs.Counted.{check_of, counted, counted_body};
ghost use Rattle.smith_program.specs.declared.program.Body.TheVariants as body;
ghost use Rattle.smith_program_examples.specs.ExamplePrograms.{constant};

fn counters()
    ensures check { check_of 5 ≡ instr.GlobalGet 5 ∷ instr.Numeric numeric.I32Eqz ∷ instr.If block.Empty ∷ instr.Unreachable ∷ instr.End
        ∷ instr.GlobalGet 5 ∷ instr.I32Const (pos 1) ∷ instr.Numeric (numeric.I32Binary Sub) ∷ instr.GlobalSet 5 ∷ [] }
    ensures at_the_start { counted (5 ∷ []) (instr.Nop ∷ []) ≡ check_of 5 ++ instr.Nop ∷ [] }
    ensures in_a_loop { counted (5 ∷ []) (instr.Loop block.Empty ∷ instr.End ∷ []) ≡ check_of 5 ++ (instr.Loop block.Empty
        ∷ check_of 5 ++ instr.End ∷ []) }
    ensures not_in_a_block { counted (5 ∷ []) (instr.Block block.Empty ∷ instr.End ∷ []) ≡ check_of 5 ++ (instr.Block block.Empty
        ∷ instr.End ∷ []) }
    ensures several { counted (5 ∷ 6 ∷ []) [] ≡ check_of 6 ++ check_of 5 }
    ensures none { counted [] (instr.Loop block.Empty ∷ instr.End ∷ []) ≡ instr.Loop block.Empty ∷ instr.End ∷ [] }
{}

fn bodies()
    ensures drawn { counted_body (5 ∷ []) (constant 7) ≡ body.Drawn (check_of 5 ++ number 7 ∷ []) }
    ensures raw_bytes { counted_body (5 ∷ []) body.Raw ≡ body.Raw }
    ensures unchecked { ¬ (counted_body (5 ∷ []) (constant 7) ≡ constant 7) }
{}
