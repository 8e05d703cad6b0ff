ghost use Rattle.std.specs.Prelude.{◌≡◌, [], ◌∷◌, ◌++◌, false, negsuc, pos};
ghost use Rattle.smith_types.specs.Flags.{funcref};
ghost use Rattle.smith_types.specs.Syntax.value_type.AbstractHeapType.TheVariants as heap;
ghost use Rattle.smith_types.specs.Syntax.value_type.HeapType.TheVariants.{Abstract};
ghost use Rattle.smith_types.specs.Syntax.value_type.ValType.TheVariants.{I32, I64, F32, F64, V128, Ref};
ghost use Rattle.smith_config.specs.Config.{default_config};
ghost use Rattle.smith_instr.specs.declared.instr.Instr.TheVariants as instr;
ghost use Rattle.smith_instr.specs.declared.numeric.IntBinary.TheVariants.{Sub};
ghost use Rattle.smith_instr.specs.declared.numeric.NumericInstr.TheVariants as numeric;
ghost use Rattle.smith_instr.specs.declared.numeric.WideArithmetic.TheVariants.{Add128};
ghost use Rattle.smith_instr.specs.declared.reference.ReferenceInstr.TheVariants as reference;
ghost use Rattle.smith_instr_examples.specs.ExampleBodies.{function_of, number, some_func};
ghost use Rattle.smith_body.specs.Bodies.{body_at};
ghost use Rattle.smith_body_leaves.specs.Leaves.{constant_instr_at};
ghost use Rattle.smith_body_examples.specs.ExampleBytes.{calling, narrow, wide, wide_number};

fn constants()
    ensures number { body_at default_config (function_of [] (I32 ∷ [])) 1 (0 ∷ 0 ∷ 4 ∷ 3 ∷ 7 ∷ 1 ∷ 0 ∷ 0 ∷ 9 ∷ [])
        ≡ (number 263 ∷ [], 9 ∷ []) }
    ensures bits { body_at default_config (function_of [] (F32 ∷ [])) 1 (0 ∷ 0 ∷ 4 ∷ 3 ∷ 0 ∷ 0 ∷ 192 ∷ 127 ∷ [])
        ≡ (instr.F32Const 2143289344 ∷ [], []) }
    ensures null { body_at default_config (function_of [] (Ref funcref ∷ [])) 1 (0 ∷ 0 ∷ 4 ∷ 15 ∷ [])
        ≡ (instr.Reference (reference.Null (Abstract false heap.Func)) ∷ [], []) }
    ensures none { body_at default_config (function_of [] (some_func ∷ [])) 1 (0 ∷ 0 ∷ 4 ∷ 15 ∷ []) ≡ (instr.Unreachable ∷ [], []) }
    ensures past_the_end { body_at default_config (function_of [] (I32 ∷ [])) 5 [] ≡ (number 0 ∷ [], []) }
{}

fn ways_of_constants()
    ensures small { constant_instr_at I64 (0 ∷ 255 ∷ 9 ∷ []) ≡ (instr.I64Const (negsuc 0), 9 ∷ []) }
    ensures least { constant_instr_at I32 (1 ∷ 25 ∷ 9 ∷ []) ≡ (instr.I32Const (negsuc 2147483647), 9 ∷ []) }
    ensures greatest { constant_instr_at I32 (2 ∷ 24 ∷ 9 ∷ []) ≡ (number 2147483647, 9 ∷ []) }
    ensures negative_zero { constant_instr_at F64 (0 ∷ 1 ∷ 9 ∷ []) ≡ (instr.F64Const 0x8000000000000000, 9 ∷ []) }
    ensures infinity { constant_instr_at F32 (1 ∷ 4 ∷ 9 ∷ []) ≡ (instr.F32Const 0x7f800000, 9 ∷ []) }
    ensures whole { constant_instr_at F32 (3 ∷ 0 ∷ 0 ∷ 128 ∷ 127 ∷ 9 ∷ []) ≡ (instr.F32Const 0x7f800000, 9 ∷ []) }
{}

fn vectors()
    ensures small { constant_instr_at V128 (0 ∷ 255 ∷ 9 ∷ []) ≡ (instr.V128Const (pos 255), 9 ∷ []) }
    ensures of_bytes { constant_instr_at V128 (1 ∷ 0 ∷ 1 ∷ 9 ∷ []) ≡ (instr.V128Const (pos 0x01010101010101010101010101010101), 9 ∷ []) }
    ensures of_the_same_number { constant_instr_at V128 (1 ∷ 1 ∷ 2 ∷ 9 ∷ [])
        ≡ (instr.V128Const (pos 0x00000002000000020000000200000002), 9 ∷ []) }
    ensures of_two_numbers { constant_instr_at V128 (1 ∷ 2 ∷ 1 ∷ 31 ∷ 9 ∷ []) ≡ (instr.V128Const (negsuc 0xfffffffffffffffe), 9 ∷ []) }
    ensures of_floats { constant_instr_at V128 (1 ∷ 3 ∷ 2 ∷ 0 ∷ 9 ∷ [])
        ≡ (instr.V128Const (pos 0x000000003f800000000000003f800000), 9 ∷ []) }
{}

fn numeric()
    ensures operands_in_order { body_at default_config (function_of [] (I32 ∷ [])) 1 (0 ∷ 1 ∷ 4 ∷ narrow 5 ++ narrow 7)
        ≡ (number 5 ∷ number 7 ∷ instr.Numeric (numeric.I32Binary Sub) ∷ [], []) }
    ensures last_operand_first { ¬ (body_at default_config (function_of [] (I32 ∷ [])) 1 (0 ∷ 1 ∷ 4 ∷ narrow 5 ++ narrow 7)
        ≡ (number 7 ∷ number 5 ∷ instr.Numeric (numeric.I32Binary Sub) ∷ [], [])) }
    ensures second_result_is_dropped { body_at default_config (function_of [] (I64 ∷ [])) 1 (0 ∷ 1 ∷ 32
        ∷ wide 1 ++ wide 2 ++ wide 3 ++ wide 4)
        ≡ (wide_number 1 ∷ wide_number 2 ∷ wide_number 3 ∷ wide_number 4 ∷ instr.Numeric (numeric.Wide Add128) ∷ instr.Drop ∷ [], []) }
    ensures select { body_at default_config (function_of [] (I64 ∷ [])) 1 (0 ∷ 6 ∷ wide 1 ++ wide 2 ++ narrow 3)
        ≡ (wide_number 1 ∷ wide_number 2 ∷ number 3 ∷ instr.Select ∷ [], []) }
    ensures select_of_a_reference { body_at default_config (function_of [] (Ref funcref ∷ [])) 1 (0 ∷ 17 ∷ 4 ∷ 15 ∷ 4 ∷ 15 ∷ narrow 3)
        ≡ (
          instr.Reference (reference.Null (Abstract false heap.Func)) ∷ instr.Reference (reference.Null (Abstract false heap.Func))
              ∷ number 3 ∷ instr.SelectTyped (Ref funcref ∷ []) ∷ [],
          [],
        ) }
{}

fn locals()
    ensures read { body_at default_config (function_of (I64 ∷ I32 ∷ []) (I32 ∷ [])) 1 (0 ∷ 0 ∷ 0 ∷ []) ≡ (instr.LocalGet 1 ∷ [], []) }
    ensures set_and_read { body_at default_config (function_of (I64 ∷ I32 ∷ []) (I32 ∷ [])) 1 (0 ∷ 7 ∷ narrow 5)
        ≡ (number 5 ∷ instr.LocalTee 1 ∷ [], []) }
    ensures unset { body_at default_config (function_of (some_func ∷ []) (some_func ∷ [])) 1 (0 ∷ 0 ∷ 0 ∷ 15 ∷ [])
        ≡ (instr.Unreachable ∷ [], []) }
    ensures read_unset { ¬ (body_at default_config (function_of (some_func ∷ []) (some_func ∷ [])) 1 (0 ∷ 0 ∷ 0 ∷ [])
        ≡ (instr.LocalGet 0 ∷ [], [])) }
    ensures read_once_set { body_at default_config (function_of (some_func ∷ []) (some_func ∷ [])) 1 (1 ∷ 15 ∷ 4 ∷ 15 ∷ 0 ∷ [])
        ≡ (instr.Unreachable ∷ instr.LocalSet 0 ∷ instr.LocalGet 0 ∷ [], []) }
{}

fn names()
    ensures global { body_at default_config (function_of [] (I32 ∷ [])) 1 (0 ∷ 0 ∷ 2 ∷ 1 ∷ []) ≡ (instr.GlobalGet 1 ∷ [], []) }
    ensures no_global_of_the_type { body_at default_config (function_of [] (I64 ∷ [])) 1 (0 ∷ 0 ∷ 2 ∷ []) ≡ (wide_number 0 ∷ [], []) }
    ensures function { body_at default_config (function_of [] (Ref funcref ∷ [])) 1 (0 ∷ 0 ∷ 3 ∷ [])
        ≡ (instr.Reference (reference.Func 1) ∷ [], []) }
{}

fn calls()
    ensures first_result { body_at default_config (calling (I32 ∷ [])) 1 (0 ∷ 8 ∷ 1 ∷ wide 5)
        ≡ (wide_number 5 ∷ instr.Call 1 ∷ instr.Drop ∷ [], []) }
    ensures other_function { body_at default_config (calling (I32 ∷ [])) 1 (0 ∷ 8 ∷ 0 ∷ []) ≡ (instr.Call 0 ∷ [], []) }
    ensures no_function_of_the_type { body_at default_config (calling (I64 ∷ [])) 1 (0 ∷ 8 ∷ wide 5) ≡ (wide_number 5 ∷ [], []) }
{}
