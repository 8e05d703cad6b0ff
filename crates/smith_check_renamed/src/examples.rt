// Instructions that name types, and instructions that name other things.

ghost use Rattle.std.specs.Prelude.{◌≡◌, ◌+◌};
ghost use Rattle.smith_instr.specs.declared.aggregate.AggregateInstr.TheVariants as aggregate;
ghost use Rattle.smith_instr.specs.declared.control.BlockType.TheVariants as block;
ghost use Rattle.smith_instr.specs.declared.instr.Instr.TheVariants as instr;
ghost use Rattle.smith_check_renamed.specs.RenamedInstructions.{renamed_instr};

fn types()
    ensures of_a_call { renamed_instr (λ index. index + 1) (instr.CallRef 3) ≡ instr.CallRef 4 }
    ensures of_a_block { renamed_instr (λ index. index + 1) (instr.Block (block.Func 0))
        ≡ instr.Block (block.Func 1) }
    ensures of_arrays { renamed_instr (λ index. index + 1) (instr.Aggregate (aggregate.ArrayCopy 1 2))
        ≡ instr.Aggregate (aggregate.ArrayCopy 2 3) }
    ensures of_a_call_through_a_table { renamed_instr (λ index. index + 1) (instr.CallIndirect 5 1)
        ≡ instr.CallIndirect 5 2 }
{}

fn others()
    ensures labels_stay { renamed_instr (λ index. index + 1) (instr.Br 3) ≡ instr.Br 3 }
    ensures functions_stay { renamed_instr (λ index. index + 1) (instr.Call 3) ≡ instr.Call 3 }
{}
