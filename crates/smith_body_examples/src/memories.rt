ghost use Rattle.std.specs.Prelude.{◌≡◌, [], ◌∷◌};
ghost use Rattle.smith_types.specs.Syntax.value_type.ValType.TheVariants.{I32, I64, F64};
ghost use Rattle.smith_config.specs.Config.{default_config};
ghost use Rattle.smith_instr.specs.declared.instr.Instr.TheVariants as instr;
ghost use Rattle.smith_instr.specs.declared.memory.Load.TheVariants as load;
ghost use Rattle.smith_instr.specs.declared.memory.Store.TheVariants as store;
ghost use Rattle.smith_instr.specs.declared.memory.MemoryInstr.TheVariants as memory;
ghost use Rattle.smith_instr_examples.specs.ExampleBodies.{aligned, function_of, number};
ghost use Rattle.smith_body.specs.Bodies.{body_at};
ghost use Rattle.smith_body_examples.specs.ExampleBytes.{narrow, wide, wide_number};

fn loads()
    ensures of_a_narrow_memory { body_at default_config (function_of [] (I32 ∷ [])) 1 (0 ∷ 13 ∷ 4 ∷ 0 ∷ 1 ∷ 0 ∷ 0 ∷ 8 ∷ 0 ∷ 3 ∷ [])
        ≡ (number 3 ∷ instr.Load load.I32From16U (record (aligned 0 1) { offset = 8 }) ∷ [], []) }
    ensures of_a_wide_memory { body_at default_config (function_of [] (F64 ∷ [])) 1 (0 ∷ 13 ∷ 1 ∷ 3 ∷ 90 ∷ 0 ∷ 0 ∷ 0 ∷ 1 ∷ 0 ∷ 0 ∷ 0 ∷ 0
        ∷ wide 3) ≡ (wide_number 3 ∷ instr.Load load.F64 (record (aligned 1 3) { offset = 4295032832 }) ∷ [], []) }
    ensures without_a_memory { body_at default_config (record (function_of [] (I32 ∷ [])) { memories = [] }) 1 (0 ∷ 13 ∷ 4 ∷ narrow 3)
        ≡ (number 3 ∷ [], []) }
{}

fn stores()
    ensures address_before_the_value { body_at default_config (function_of [] []) 1 (1 ∷ 12 ∷ 8 ∷ 0 ∷ 2 ∷ 0 ∷ 0 ∷ 0 ∷ 0 ∷ 3 ∷ wide 4)
        ≡ (number 3 ∷ wide_number 4 ∷ instr.Store store.I64To32 (aligned 0 2) ∷ [], []) }
    ensures alignment_is_at_most_natural { body_at default_config (function_of [] []) 1 (1 ∷ 12 ∷ 8 ∷ 0 ∷ 3 ∷ 0 ∷ 0 ∷ 0 ∷ 0 ∷ 3 ∷ wide 4)
        ≡ (number 3 ∷ wide_number 4 ∷ instr.Store store.I64To32 (aligned 0 0) ∷ [], []) }
    ensures without_a_memory { body_at default_config (record (function_of [] []) { memories = [] }) 1 (1 ∷ 12 ∷ 8 ∷ [])
        ≡ (instr.Nop ∷ [], []) }
{}

fn whole()
    ensures size { body_at default_config (function_of [] (I64 ∷ [])) 1 (0 ∷ 15 ∷ 0 ∷ []) ≡ (instr.Memory (memory.Size 1) ∷ [], []) }
    ensures growth { body_at default_config (function_of [] (I32 ∷ [])) 1 (0 ∷ 15 ∷ 1 ∷ 0 ∷ 2 ∷ [])
        ≡ (number 2 ∷ instr.Memory (memory.Grow 0) ∷ [], []) }
    ensures of_no_address { body_at default_config (function_of [] (F64 ∷ [])) 1 (0 ∷ 15 ∷ 4 ∷ []) ≡ (instr.F64Const 0 ∷ [], []) }
{}
