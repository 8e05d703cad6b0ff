ghost use Rattle.std.specs.Prelude.{◌≡◌, [], ◌∷◌, ◌++◌, pos, negsuc};
ghost use Rattle.smith_types.specs.Syntax.value_type.ValType.TheVariants.{F32, F64, I32, I64, V128};
ghost use Rattle.smith_instr.specs.declared.instr.Instr.TheVariants as instr;
ghost use Rattle.smith_instr.specs.declared.numeric.Conversion.TheVariants as convert;
ghost use Rattle.smith_instr.specs.declared.numeric.FloatCompare.TheVariants as float_compare;
ghost use Rattle.smith_instr.specs.declared.numeric.IntBinary.TheVariants as int_binary;
ghost use Rattle.smith_instr.specs.declared.numeric.NumericInstr.TheVariants as numeric;
ghost use Rattle.smith_instr_examples.specs.ExampleBodies.{number, some_func};
ghost use Rattle.smith_program.specs.Observed.{AreObserved, half, mix, mix64, mixes, observed, observed_body};
ghost use Rattle.smith_program.specs.declared.program.Body.TheVariants as body;
ghost use Rattle.smith_program_examples.specs.ExamplePrograms.{constant, narrow_function, with_local};

fn locals()
    ensures number { mix 3 1 I32 ≡ instr.GlobalGet 3 ∷ instr.I32Const (pos 5) ∷ instr.Numeric (numeric.I32Binary int_binary.Rotl)
        ∷ instr.LocalGet 1 ∷ instr.Numeric (numeric.I32Binary int_binary.Xor) ∷ instr.GlobalSet 3 ∷ [] }
    ensures wide { mix 3 1 I64 ≡ instr.GlobalGet 4 ∷ instr.I64Const (pos 5) ∷ instr.Numeric (numeric.I64Binary int_binary.Rotl)
        ∷ instr.LocalGet 1 ∷ instr.Numeric (numeric.I64Binary int_binary.Xor) ∷ instr.GlobalSet 4 ∷ [] }
    ensures float { mix 3 1 F32 ≡ instr.GlobalGet 3 ∷ instr.I32Const (pos 5) ∷ instr.Numeric (numeric.I32Binary int_binary.Rotl)
        ∷ instr.LocalGet 1 ∷ instr.Numeric (numeric.Convert convert.I32ReinterpretF32) ∷ instr.I32Const (pos 2143289344) ∷ instr.LocalGet 1
        ∷ instr.LocalGet 1 ∷ instr.Numeric (numeric.F32Compare float_compare.Eq) ∷ instr.Select
        ∷ instr.Numeric (numeric.I32Binary int_binary.Xor) ∷ instr.GlobalSet 3 ∷ [] }
    ensures vector { mix 3 1 V128 ≡ mix64 4 (half 1 0) ++ mix64 5 (half 1 1) }
    ensures reference { mix 3 1 some_func ≡ [] }
    ensures bits_of_a_nan { ¬ (mix 3 1 F64 ≡ mix64 4 (instr.LocalGet 1 ∷ instr.Numeric (numeric.Convert convert.I64ReinterpretF64) ∷ [])) }
    ensures in_order { mixes 3 (I32 ∷ some_func ∷ I64 ∷ []) ≡ mix 3 0 I32 ++ mix 3 2 I64 }
    ensures none { mixes 3 [] ≡ [] }
{}

fn places()
    ensures at_the_end { observed (instr.Nop ∷ []) (number 5 ∷ []) ≡ number 5 ∷ instr.Nop ∷ [] }
    ensures before_a_return { observed (instr.Nop ∷ []) (number 5 ∷ instr.Return ∷ []) ≡ number 5 ∷ instr.Nop ∷ instr.Return ∷ instr.Nop
        ∷ [] }
    ensures before_a_tail_call { observed (instr.Nop ∷ []) (instr.ReturnCall 2 ∷ []) ≡ instr.Nop ∷ instr.ReturnCall 2 ∷ instr.Nop ∷ [] }
    ensures not_before_a_call { observed (instr.Nop ∷ []) (instr.Call 2 ∷ []) ≡ instr.Call 2 ∷ instr.Nop ∷ [] }
    ensures before_a_branch { observed (instr.Nop ∷ []) (instr.Br 0 ∷ []) ≡ instr.Nop ∷ instr.Br 0 ∷ instr.Nop ∷ [] }
    ensures not_before_a_branch_with_a_condition { observed (instr.Nop ∷ []) (instr.BrIf 0 ∷ []) ≡ instr.BrIf 0 ∷ instr.Nop ∷ [] }
{}

fn bodies()
    ensures drawn { observed_body 3 (I32 ∷ []) (constant 7) ≡ body.Drawn (number 7 ∷ mix 3 0 I32) }
    ensures raw_bytes { observed_body 3 (I32 ∷ []) body.Raw ≡ body.Raw }
    ensures unchanged { ¬ (observed_body 3 (I32 ∷ []) (constant 7) ≡ constant 7) }
    ensures of_a_function { AreObserved 3 (record narrow_function { code = with_local ∷ [] }) (constant 7
        ∷ []) (body.Drawn (number 7 ∷ mix 3 0 I32) ∷ []) }
    ensures without_its_local { ¬ AreObserved 3 (record narrow_function { code = with_local ∷ [] }) (constant 7 ∷ []) (constant 7 ∷ []) }
{}
