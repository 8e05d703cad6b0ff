ghost use Rattle.std.specs.Prelude.{◌≡◌, ◌+◌, [], ◌∷◌, Some, None};
ghost use Rattle.smith_instr.specs.declared.control.BlockType.TheVariants as block;
ghost use Rattle.smith_instr.specs.declared.instr.Instr.TheVariants as instr;
ghost use Rattle.smith_program.specs.declared.program.Body.TheVariants as body;
ghost use Rattle.smith_text_program.specs.Bodies.{body_size};
ghost use Rattle.smith_text_program.specs.Lines.{lines_size};
ghost use Rattle.smith_types.specs.Syntax.code.Instructions.TheVariants.{Arbitrary, Unreachable};

// The least lengths of some texts. The clauses are proved, and nothing calls these functions.
#[tactic(auto, unfolding(crate::specs::Lines::lines_size))]
fn lines()
    ensures none { lines_size [] 1 3 ≡ 0 }
    ensures block { lines_size (instr.Block block.Empty ∷ instr.Nop ∷ instr.End ∷ []) 1 0 ≡ 2 + 4 + 2 }
    ensures deep { lines_size (instr.Nop ∷ []) 0 63 + 2 ≡ lines_size (instr.Nop ∷ []) 0 64 }
    ensures deepest { lines_size (instr.Nop ∷ []) 0 65 ≡ lines_size (instr.Nop ∷ []) 0 64 }
    ensures counted { lines_size (instr.Loop block.Empty ∷ instr.End ∷ []) 2 3 ≡ 8 + 36 + 8 }
{}

#[tactic(auto, unfolding(crate::specs::Lines::lines_size))]
fn bodies()
    ensures drawn { body_size (Some (body.Drawn (instr.Nop ∷ [])))
        (record { locals = []; instructions = Unreachable }) (5 ∷ []) ≡ 18 + 6 }
    ensures raw { body_size (Some body.Raw) (record { locals = []; instructions = Arbitrary [] }) [] ≡ 0 }
    ensures own { body_size None (record { locals = []; instructions = Unreachable }) [] ≡ 1 }
{}
