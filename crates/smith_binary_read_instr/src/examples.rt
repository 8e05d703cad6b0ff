ghost use Rattle.std.specs.Prelude.{◌≡◌, Ok, Err, [], ◌∷◌};
ghost use Rattle.smith_instr.specs.declared.control.BlockType.TheVariants as block;
ghost use Rattle.smith_instr.specs.declared.instr.Instr.TheVariants as instr;
ghost use Rattle.smith_instr.specs.declared.memory.Load.TheVariants as load;
ghost use Rattle.smith_binary_read.specs.declared.error.Reason.TheVariants as reason;
ghost use Rattle.smith_binary_read_instr.specs.InstrReadings.{instr_at};
ghost use Rattle.smith_binary_read_instr.specs.ExpressionReadings.{expr_at};

fn instructions()
    ensures table { instr_at (0x0E ∷ 0x01 ∷ 0x02 ∷ 0x00 ∷ []) ≡ Ok (instr.BrTable (2 ∷ []) 0, []) }
    ensures no_type { instr_at (0x1C ∷ 0x00 ∷ 0x0B ∷ []) ≡ Ok (instr.SelectTyped [], 0x0B ∷ []) }
    ensures named_memory { instr_at (0x28 ∷ 0x42 ∷ 0x01 ∷ 0x05 ∷ [])
        ≡ Ok (instr.Load load.I32 (record { align = 2; offset = 5; memory = 1 }), []) }
    ensures no_alignment { instr_at (0x28 ∷ 0x80 ∷ 0x01 ∷ 0x05 ∷ [])
        ≡ Err (record { left = 3; reason = reason.UnknownByte }) }
    ensures no_opcode { instr_at (0x06 ∷ 0x0B ∷ [])
        ≡ Err (record { left = 2; reason = reason.UnknownByte }) }
    ensures no_number { instr_at (0xFC ∷ 0x12 ∷ [])
        ≡ Err (record { left = 1; reason = reason.UnknownByte }) }
    ensures fence { instr_at (0xFE ∷ 0x03 ∷ 0x00 ∷ []) ≡ Ok (instr.AtomicFence, []) }
{}

fn expressions()
    ensures empty_block { expr_at (0x02 ∷ 0x40 ∷ 0x0B ∷ 0x0B ∷ [])
        ≡ Ok (instr.Block block.Empty ∷ instr.End ∷ [], []) }
    ensures open_block { expr_at (0x02 ∷ 0x40 ∷ 0x0B ∷ [])
        ≡ Err (record { left = 0; reason = reason.UnexpectedEnd }) }
    ensures else_in_no_if { expr_at (0x02 ∷ 0x40 ∷ 0x05 ∷ 0x0B ∷ 0x0B ∷ [])
        ≡ Err (record { left = 3; reason = reason.UnknownByte }) }
    ensures first_end { expr_at (0x01 ∷ 0x0B ∷ 0x0B ∷ []) ≡ Ok (instr.Nop ∷ [], 0x0B ∷ []) }
{}
