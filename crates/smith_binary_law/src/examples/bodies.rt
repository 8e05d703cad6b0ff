ghost use Rattle.std.specs.Prelude.{◌^◌, ◌≤◌, List, [], ◌∷◌, length};
ghost use Rattle.smith_types.specs.Syntax.value_type.ValType.{ValType};
ghost use Rattle.smith_types.specs.Syntax.value_type.ValType.TheVariants.{I32};
ghost use Rattle.smith_instr.specs.declared.control.BlockType.TheVariants as block;
ghost use Rattle.smith_instr.specs.declared.instr.Instr.TheVariants as instr;
ghost use Rattle.smith_binary_instr.specs.Bodies.{IsFuncBody, IsFuncBodyWritten};
ghost use Rattle.smith_binary_instr.specs.Instructions.{IsExpr};
ghost use Rattle.smith_binary_instr.specs.Long.{IsLongFunc};
ghost use Rattle.smith_binary_instr.specs.Nesting.{AreNested};
ghost use Rattle.smith_binary_law.specs.ExampleInstructions.{load_word};

fn blocks()
    ensures nested { AreNested [] (instr.Block block.Empty ∷ instr.Nop ∷ instr.End ∷ []) }
    ensures with_an_else { AreNested [] (instr.If block.Empty ∷ instr.Else ∷ instr.End ∷ []) }
    ensures without_its_end { ¬ AreNested [] (instr.Block block.Empty ∷ instr.Nop ∷ []) }
    ensures with_an_end_too_many { ¬ AreNested [] (instr.Nop ∷ instr.End ∷ []) }
    ensures block_with_an_else { ¬ AreNested []
        (instr.Block block.Empty ∷ instr.Else ∷ instr.End ∷ []) }
    ensures with_two_elses { ¬ AreNested []
        (instr.If block.Empty ∷ instr.Else ∷ instr.Else ∷ instr.End ∷ []) }
{}

fn expressions()
    ensures empty { IsExpr [] (0x0B ∷ []) }
    ensures without_its_end { ¬ IsExpr (instr.Nop ∷ []) (0x01 ∷ []) }
    ensures block { IsExpr (instr.Block block.Empty ∷ instr.End ∷ [])
        (0x02 ∷ 0x40 ∷ 0x0B ∷ 0x0B ∷ []) }
{}

fn bodies()
    ensures one_local { IsFuncBody (I32 ∷ []) (instr.Nop ∷ [])
        (0x05 ∷ 0x01 ∷ 0x01 ∷ 0x7F ∷ 0x01 ∷ 0x0B ∷ []) }
    ensures two_locals_in_a_run { IsFuncBody (I32 ∷ I32 ∷ []) (instr.Nop ∷ [])
        (0x05 ∷ 0x01 ∷ 0x02 ∷ 0x7F ∷ 0x01 ∷ 0x0B ∷ []) }
    ensures two_locals_as_written { IsFuncBodyWritten (I32 ∷ I32 ∷ []) (instr.Nop ∷ [])
        (0x07 ∷ 0x02 ∷ 0x01 ∷ 0x7F ∷ 0x01 ∷ 0x7F ∷ 0x01 ∷ 0x0B ∷ []) }
{}

// Bodies that are too long to be written, or have an instruction that the format lacks.
fn lengths_of_bodies()
    ensures no_local { ¬ IsLongFunc [] (instr.Nop ∷ []) }
    ensures one_local { ¬ IsLongFunc (I32 ∷ []) (instr.Nop ∷ []) }
    ensures many_locals { (locals : List ValType) → 2 ^ 32 ≤ length locals
        → IsLongFunc locals (instr.Nop ∷ []) }
    ensures too_wide { IsLongFunc [] (load_word 64 0 0 ∷ []) }
{}
