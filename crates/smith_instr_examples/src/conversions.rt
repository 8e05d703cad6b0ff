ghost use Rattle.std.specs.List.{AllByRecursion as Each};
ghost use Rattle.std.specs.Prelude.{[], ◌∷◌, ◌≡◌};
ghost use Rattle.smith_types.specs.Syntax.value_type.ValType.TheVariants.{F32, F64, I32, I64};
ghost use Rattle.smith_instr.specs.declared.instr.Instr.TheVariants as instr;
ghost use Rattle.smith_instr.specs.declared.numeric.Conversion.TheVariants as convert;
ghost use Rattle.smith_instr.specs.declared.numeric.Conversion.{Conversion};
ghost use Rattle.smith_instr.specs.declared.numeric.NumericInstr.TheVariants as numeric;
ghost use Rattle.smith_instr.specs.declared.numeric.SaturatingConversion.TheVariants as saturate;
ghost use Rattle.smith_instr.specs.declared.numeric.SaturatingConversion.{SaturatingConversion};
ghost use Rattle.smith_instr.specs.declared.numeric.SignExtension.TheVariants as extend;
ghost use Rattle.smith_instr.specs.declared.numeric.SignExtension.{SignExtension};
ghost use Rattle.smith_instr.specs.declared.numeric.WideArithmetic.TheVariants as wide;
ghost use Rattle.smith_instr_examples.specs.ExampleTyping.{HasOnlyType};
ghost use Rattle.smith_types.specs.Syntax.value_type.ValType.{ValType};
ghost use Rattle.smith_instr.specs.declared.numeric.NumericInstr.{NumericInstr};
ghost use Rattle.smith_instr.specs.NumericTypes.{conversion, of, saturating_conversion, sign_extension, signature};

fn signatures()
    ensures own { (op : NumericInstr) → HasOnlyType (instr.Numeric op) (signature op).operands (signature op).results }
    ensures conversions { Each (λ (row : Conversion × ValType × ValType). conversion row.0 ≡ of row.1 row.2) ((convert.I32WrapI64, I64, I32)
        ∷ (convert.I64ExtendI32S, I32, I64) ∷ (convert.I64ExtendI32U, I32, I64) ∷ (convert.I32TruncF32S, F32, I32)
        ∷ (convert.I32TruncF32U, F32, I32) ∷ (convert.I32TruncF64S, F64, I32) ∷ (convert.I32TruncF64U, F64, I32)
        ∷ (convert.I64TruncF32S, F32, I64) ∷ (convert.I64TruncF32U, F32, I64) ∷ (convert.I64TruncF64S, F64, I64)
        ∷ (convert.I64TruncF64U, F64, I64) ∷ (convert.F32ConvertI32S, I32, F32) ∷ (convert.F32ConvertI32U, I32, F32)
        ∷ (convert.F32ConvertI64S, I64, F32) ∷ (convert.F32ConvertI64U, I64, F32) ∷ (convert.F64ConvertI32S, I32, F64)
        ∷ (convert.F64ConvertI32U, I32, F64) ∷ (convert.F64ConvertI64S, I64, F64) ∷ (convert.F64ConvertI64U, I64, F64)
        ∷ (convert.F32DemoteF64, F64, F32) ∷ (convert.F64PromoteF32, F32, F64) ∷ (convert.I32ReinterpretF32, F32, I32)
        ∷ (convert.I64ReinterpretF64, F64, I64) ∷ (convert.F32ReinterpretI32, I32, F32) ∷ (convert.F64ReinterpretI64, I64, F64) ∷ []) }
    ensures saturating { Each (λ (row : SaturatingConversion × ValType × ValType). saturating_conversion row.0 ≡ of row.1 row.2)
        ((saturate.I32TruncSatF32S, F32, I32) ∷ (saturate.I32TruncSatF32U, F32, I32) ∷ (saturate.I32TruncSatF64S, F64, I32)
        ∷ (saturate.I32TruncSatF64U, F64, I32) ∷ (saturate.I64TruncSatF32S, F32, I64) ∷ (saturate.I64TruncSatF32U, F32, I64)
        ∷ (saturate.I64TruncSatF64S, F64, I64) ∷ (saturate.I64TruncSatF64U, F64, I64) ∷ []) }
    ensures sign_extensions { Each (λ (row : SignExtension × ValType × ValType). sign_extension row.0 ≡ of row.1 row.2)
        ((extend.I32From8, I32, I32) ∷ (extend.I32From16, I32, I32) ∷ (extend.I64From8, I64, I64) ∷ (extend.I64From16, I64, I64)
        ∷ (extend.I64From32, I64, I64) ∷ []) }
{}

fn wide_arithmetic()
    ensures i64_add128 { HasOnlyType (instr.Numeric (numeric.Wide wide.Add128)) (I64 ∷ I64 ∷ I64 ∷ I64 ∷ []) (I64 ∷ I64 ∷ []) }
    ensures i64_sub128 { HasOnlyType (instr.Numeric (numeric.Wide wide.Sub128)) (I64 ∷ I64 ∷ I64 ∷ I64 ∷ []) (I64 ∷ I64 ∷ []) }
    ensures i64_mul_wide_s { HasOnlyType (instr.Numeric (numeric.Wide wide.MulWideS)) (I64 ∷ I64 ∷ []) (I64 ∷ I64 ∷ []) }
    ensures i64_mul_wide_u { HasOnlyType (instr.Numeric (numeric.Wide wide.MulWideU)) (I64 ∷ I64 ∷ []) (I64 ∷ I64 ∷ []) }
{}
