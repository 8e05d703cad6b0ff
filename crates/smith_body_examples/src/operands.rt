ghost use Rattle.std.specs.Prelude.{◌≡◌, false, [], ◌∷◌};
ghost use Rattle.smith_types.specs.Syntax.value_type.ValType.TheVariants.{I32};
ghost use Rattle.smith_config.specs.Config.{default_config};
ghost use Rattle.smith_instr.specs.declared.aggregate.AggregateInstr.TheVariants as aggregate;
ghost use Rattle.smith_instr.specs.declared.instr.Instr.TheVariants as instr;
ghost use Rattle.smith_instr.specs.declared.memory.Load.TheVariants as load;
ghost use Rattle.smith_instr.specs.declared.memory.MemoryInstr.TheVariants as memory;
ghost use Rattle.smith_instr.specs.declared.memory.Store.TheVariants as store;
ghost use Rattle.smith_instr.specs.declared.numeric.IntBinary.TheVariants.{And};
ghost use Rattle.smith_instr.specs.declared.numeric.NumericInstr.TheVariants as numeric;
ghost use Rattle.smith_instr.specs.declared.table.TableInstr.TheVariants as table;
ghost use Rattle.smith_instr_examples.specs.ExampleBodies.{aligned, function_of, functions, narrow_memory, number};
ghost use Rattle.smith_body.specs.Bodies.{body_at};
ghost use Rattle.smith_body.specs.Limits.{limit_of};
ghost use Rattle.smith_body.specs.Operands.{address_constant, mask_of};
ghost use Rattle.smith_body_examples.specs.ExampleBytes.{narrow};

fn limits()
    ensures address { limit_of [] (narrow_memory ∷ []) (instr.Load load.I32 (aligned 0 2)) 0 ≡ 65521 }
    ensures with_an_offset { limit_of [] (narrow_memory ∷ []) (instr.Load load.I32 (record (aligned 0 2) { offset = 8 })) 0 ≡ 65513 }
    ensures offset_past_the_memory { limit_of [] (narrow_memory ∷ []) (instr.Load load.I32 (record (aligned 0 2) { offset = 65536 })) 0
        ≡ 0 }
    ensures address_of_a_store { limit_of [] (narrow_memory ∷ []) (instr.Store store.I32 (aligned 0 2)) 1 ≡ 65521 }
    ensures value_of_a_store { limit_of [] (narrow_memory ∷ []) (instr.Store store.I32 (aligned 0 2)) 0 ≡ 0 }
    ensures without_the_memory { limit_of [] [] (instr.Load load.I32 (aligned 0 2)) 0 ≡ 0 }
    ensures element { limit_of (functions ∷ []) [] (instr.Table (table.Get 0)) 0 ≡ 1 }
    ensures element_of_a_call { limit_of (functions ∷ []) [] (instr.CallIndirect 0 0) 0 ≡ 1 }
    ensures argument_of_a_call { limit_of (functions ∷ []) [] (instr.CallIndirect 0 0) 1 ≡ 0 }
    ensures length_of_a_copy { limit_of [] (narrow_memory ∷ []) (instr.Memory (memory.Copy 0 0)) 0 ≡ 64 }
    ensures length_of_an_array { limit_of [] [] (instr.Aggregate (aggregate.ArrayNewDefault 3)) 0 ≡ 16 }
    ensures sum { limit_of [] [] (instr.Numeric (numeric.I32Binary And)) 0 ≡ 0 }
{}

fn masks()
    ensures of_a_power { mask_of 16 ≡ 15 }
    ensures of_another_number { mask_of 65513 ≡ 32767 }
    ensures of_one { mask_of 1 ≡ 0 }
{}

/// A load from the first memory with an offset of 8, so that the limit of its address is 65513,
/// whose address takes the bytes that follow.
fn addresses()
    ensures small { body_at default_config (function_of [] (I32 ∷ [])) 2 (0 ∷ 13 ∷ 4 ∷ 0 ∷ 1 ∷ 0 ∷ 0 ∷ 8 ∷ 2 ∷ 15 ∷ [])
        ≡ (number 15 ∷ instr.Load load.I32From16U (record (aligned 0 1) { offset = 8 }) ∷ [], []) }
    ensures inside { body_at default_config (function_of [] (I32 ∷ [])) 2 (0 ∷ 13 ∷ 4 ∷ 0 ∷ 1 ∷ 0 ∷ 0 ∷ 8 ∷ 3 ∷ 1 ∷ 2 ∷ [])
        ≡ (number 258 ∷ instr.Load load.I32From16U (record (aligned 0 1) { offset = 8 }) ∷ [], []) }
    ensures at_the_end { body_at default_config (function_of [] (I32 ∷ [])) 2 (0 ∷ 13 ∷ 4 ∷ 0 ∷ 1 ∷ 0 ∷ 0 ∷ 8 ∷ 4 ∷ 15 ∷ [])
        ≡ (number 65516 ∷ instr.Load load.I32From16U (record (aligned 0 1) { offset = 8 }) ∷ [], []) }
    ensures masked { body_at default_config (function_of [] (I32 ∷ [])) 2 (0 ∷ 13 ∷ 4 ∷ 0 ∷ 1 ∷ 0 ∷ 0 ∷ 8 ∷ 5 ∷ narrow 9)
        ≡ (
          number 9 ∷ address_constant false (mask_of 65513) ∷ instr.Numeric (numeric.I32Binary And) ∷ instr.Load load.I32From16U
              (record (aligned 0 1) { offset = 8 }) ∷ [],
          [],
        ) }
    ensures unmasked_without_a_budget { body_at default_config (function_of [] (I32 ∷ [])) 1 (0 ∷ 13 ∷ 4 ∷ 0 ∷ 1 ∷ 0 ∷ 0 ∷ 8 ∷ 5 ∷ narrow 9)
        ≡ (number 9 ∷ instr.Load load.I32From16U (record (aligned 0 1) { offset = 8 }) ∷ [], []) }
    ensures any { body_at default_config (function_of [] (I32 ∷ [])) 1 (0 ∷ 13 ∷ 4 ∷ 0 ∷ 1 ∷ 0 ∷ 0 ∷ 8 ∷ 7 ∷ narrow 9)
        ≡ (number 9 ∷ instr.Load load.I32From16U (record (aligned 0 1) { offset = 8 }) ∷ [], []) }
    ensures past_the_start { ¬ (body_at default_config (function_of [] (I32 ∷ [])) 2 (0 ∷ 13 ∷ 4 ∷ 0 ∷ 1 ∷ 0 ∷ 0 ∷ 8 ∷ 2 ∷ 16 ∷ [])
        ≡ (number 16 ∷ instr.Load load.I32From16U (record (aligned 0 1) { offset = 8 }) ∷ [], [])) }
{}
