ghost use Rattle.std.specs.Prelude.{◌≡◌, [], ◌∷◌, ◌++◌, false};
ghost use Rattle.smith_types.specs.Syntax.value_type.AbstractHeapType.TheVariants as heap;
ghost use Rattle.smith_types.specs.Syntax.value_type.HeapType.TheVariants.{Abstract};
ghost use Rattle.smith_types.specs.Syntax.value_type.ValType.TheVariants.{I32};
ghost use Rattle.smith_config.specs.Config.{default_config};
ghost use Rattle.smith_instr.specs.declared.control.BlockType.TheVariants as block;
ghost use Rattle.smith_instr.specs.declared.instr.Instr.TheVariants as instr;
ghost use Rattle.smith_instr.specs.declared.numeric.NumericInstr.TheVariants as numeric;
ghost use Rattle.smith_instr.specs.declared.reference.ReferenceInstr.TheVariants as reference;
ghost use Rattle.smith_instr_examples.specs.ExampleBodies.{function_of, number, some_func};
ghost use Rattle.smith_body.specs.Bodies.{body_at};
ghost use Rattle.smith_body_examples.specs.ExampleBytes.{keeping, narrow, wide, wide_number};

fn values()
    ensures block { body_at default_config (function_of [] (I32 ∷ [])) 1 (0 ∷ 10 ∷ 0 ∷ narrow 5)
        ≡ (instr.Block (block.Value I32) ∷ number 5 ∷ instr.End ∷ [], []) }
    ensures end_is_forgotten { ¬ (body_at default_config (function_of [] (I32 ∷ [])) 1 (0 ∷ 10 ∷ 0 ∷ narrow 5)
        ≡ (instr.Block (block.Value I32) ∷ number 5 ∷ [], [])) }
    ensures loop_of_a_value { body_at default_config (function_of [] (I32 ∷ [])) 1 (0 ∷ 11 ∷ 1 ∷ narrow 5)
        ≡ (instr.Loop (block.Value I32) ∷ number 5 ∷ instr.End ∷ [], []) }
    ensures conditional { body_at default_config (function_of [] (I32 ∷ [])) 1 (0 ∷ 10 ∷ 2 ∷ narrow 1 ++ narrow 2 ++ narrow 3)
        ≡ (number 1 ∷ instr.If (block.Value I32) ∷ number 2 ∷ instr.Else ∷ number 3 ∷ instr.End ∷ [], []) }
{}

fn openings()
    ensures another_block { body_at default_config (function_of [] (I32 ∷ [])) 1 (0 ∷ 10 ∷ 3 ∷ narrow 5)
        ≡ (instr.Block (block.Value I32) ∷ number 5 ∷ instr.End ∷ [], []) }
    ensures another_loop { body_at default_config (function_of [] (I32 ∷ [])) 1 (0 ∷ 10 ∷ 4 ∷ narrow 5)
        ≡ (instr.Loop (block.Value I32) ∷ number 5 ∷ instr.End ∷ [], []) }
    ensures from_the_first_again { body_at default_config (function_of [] (I32 ∷ [])) 1 (0 ∷ 10 ∷ 6 ∷ narrow 5)
        ≡ (instr.Block (block.Value I32) ∷ number 5 ∷ instr.End ∷ [], []) }
{}

fn with_an_else()
    ensures else_for_other_results { body_at default_config (function_of [] []) 1 (1 ∷ 7 ∷ 5 ∷ 1 ∷ narrow 1 ++ narrow 2)
        ≡ (number 1 ∷ number 2 ∷ instr.If (block.Func 1) ∷ instr.GlobalSet 1 ∷ instr.Else ∷ instr.GlobalSet 1 ∷ instr.End ∷ [], []) }
{}

fn alone()
    ensures empty { body_at default_config (function_of [] []) 1 (1 ∷ 7 ∷ 5 ∷ 0 ∷ narrow 1)
        ≡ (number 1 ∷ instr.If (block.Func 0) ∷ instr.End ∷ [], []) }
    ensures of_no_function_type { body_at default_config (function_of [] []) 1 (1 ∷ 7 ∷ 5 ∷ 2 ∷ narrow 1)
        ≡ (number 1 ∷ instr.If block.Empty ∷ instr.End ∷ [], []) }
    ensures what_it_takes_is_what_it_gives { body_at default_config (keeping []) 1 (1 ∷ 7 ∷ 5 ∷ 0 ∷ wide 1 ++ narrow 2 ++ wide 3)
        ≡ (
          wide_number 1 ∷ number 2 ∷ instr.If (block.Func 0) ∷ instr.Numeric numeric.I64Eqz ∷ instr.BrIf 1 ∷ wide_number 3 ∷ instr.End
              ∷ instr.Numeric numeric.I64Eqz ∷ instr.BrIf 0 ∷ [],
          [],
        ) }
    ensures alone_with_other_results { ¬ (body_at default_config (function_of [] []) 1 (1 ∷ 7 ∷ 5 ∷ 1 ∷ narrow 1 ++ narrow 2)
        ≡ (number 1 ∷ number 2 ∷ instr.If (block.Func 1) ∷ instr.GlobalSet 1 ∷ instr.End ∷ [], [])) }
    ensures else_for_a_value { body_at default_config (function_of [] (I32 ∷ [])) 1 (0 ∷ 10 ∷ 5 ∷ narrow 1 ++ narrow 2 ++ narrow 3)
        ≡ (number 1 ∷ instr.If (block.Value I32) ∷ number 2 ∷ instr.Else ∷ number 3 ∷ instr.End ∷ [], []) }
    ensures branch_out_of_it { body_at default_config (function_of [] []) 2 (1 ∷ 7 ∷ 5 ∷ 0 ∷ 0 ∷ narrow 1 ++ (252 ∷ 0 ∷ 0 ∷ 0 ∷ []))
        ≡ (number 1 ∷ instr.If (block.Func 0) ∷ instr.Br 0 ∷ instr.End ∷ [], []) }
{
    with_an_else();
}

fn statements()
    ensures empty { body_at default_config (function_of [] []) 1 (1 ∷ 7 ∷ 0 ∷ 0 ∷ []) ≡ (instr.Block (block.Func 0) ∷ instr.End ∷ [], []) }
    ensures of_no_function_type { body_at default_config (function_of [] []) 1 (1 ∷ 7 ∷ 0 ∷ 2 ∷ [])
        ≡ (instr.Block block.Empty ∷ instr.End ∷ [], []) }
    ensures parameters_and_results_are_settled { body_at default_config (function_of [] []) 1 (1 ∷ 8 ∷ 0 ∷ 4 ∷ 4 ∷ 15 ∷ 4 ∷ 15 ∷ [])
        ≡ (
          instr.Unreachable ∷ instr.Block (block.Func 4) ∷ instr.Drop ∷ instr.Reference (reference.Null (Abstract false heap.Func))
              ∷ instr.End ∷ instr.Reference reference.IsNull ∷ instr.BrIf 0 ∷ [],
          [],
        ) }
{}

fn locals()
    ensures set_within { body_at default_config (function_of (some_func ∷ []) (some_func ∷ [])) 2 (1 ∷ 7 ∷ 0 ∷ 0 ∷ 1 ∷ 15 ∷ 4 ∷ 15 ∷ 0 ∷ 15
        ∷ []) ≡ (instr.Block (block.Func 0) ∷ instr.Unreachable ∷ instr.LocalSet 0 ∷ instr.End ∷ instr.Unreachable ∷ [], []) }
{}
