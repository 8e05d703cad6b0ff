//! Examples of instructions and bodies with canonical NaNs.

ghost use Rattle.std.specs.Prelude.{◌≡◌, ◌++◌, None, Some, [], ◌∷◌, pos, true, false};
ghost use Rattle.smith_instr.specs.declared.instr.Instr.TheVariants as instr;
ghost use Rattle.smith_instr.specs.declared.numeric.Conversion.TheVariants as convert;
ghost use Rattle.smith_instr.specs.declared.numeric.FloatBinary.TheVariants as binary;
ghost use Rattle.smith_instr.specs.declared.numeric.FloatCompare.TheVariants as compare;
ghost use Rattle.smith_instr.specs.declared.numeric.FloatUnary.TheVariants as unary;
ghost use Rattle.smith_instr.specs.declared.numeric.NumericInstr.TheVariants as numeric;
ghost use Rattle.smith_instr.specs.declared.vector.RelaxedFloatTernary.TheVariants as ternary;
ghost use Rattle.smith_instr.specs.declared.vector.VectorFloatBinary.TheVariants as vector_binary;
ghost use Rattle.smith_instr.specs.declared.vector.VectorFloatUnary.TheVariants as vector_unary;
ghost use Rattle.smith_instr.specs.declared.vector.VectorInstr.TheVariants as vector;
ghost use Rattle.smith_program.specs.Canonical.{canonical, canonical_body, followed};
ghost use Rattle.smith_program.specs.Nans.{nan_of};
ghost use Rattle.smith_program.specs.declared.nans.Float.TheVariants.{F32, F32x4, F64, F64x2};
ghost use Rattle.smith_program.specs.declared.program.Body.TheVariants as body;

// Which instructions may give a NaN that an engine chooses.
fn nans()
    ensures sum { nan_of false (instr.Numeric (numeric.F32Binary binary.Add)) ≡ Some F32 }
    ensures maximum { nan_of true (instr.Numeric (numeric.F64Binary binary.Max)) ≡ Some F64 }
    ensures root { nan_of true (instr.Numeric (numeric.F64Unary unary.Sqrt)) ≡ Some F64 }
    ensures negation { nan_of true (instr.Numeric (numeric.F32Unary unary.Neg)) ≡ None }
    ensures sign { nan_of true (instr.Numeric (numeric.F64Binary binary.Copysign)) ≡ None }
    ensures comparison { nan_of true (instr.Numeric (numeric.F32Compare compare.Lt)) ≡ None }
    ensures wider { nan_of true (instr.Numeric (numeric.Convert convert.F64PromoteF32)) ≡ Some F64 }
    ensures bits { nan_of true (instr.Numeric (numeric.Convert convert.F32ReinterpretI32)) ≡ None }
    ensures of_an_integer { nan_of true (instr.Numeric (numeric.Convert convert.F32ConvertI32S))
        ≡ None }
    ensures constant { nan_of true (instr.F32Const 2143289345) ≡ None }
    ensures global { nan_of true (instr.GlobalGet 0) ≡ None }
    ensures lanes { nan_of true (instr.Vector (vector.FloatUnary vector_unary.F64x2Floor))
        ≡ Some F64x2 }
    ensures narrower_lanes { nan_of true
        (instr.Vector (vector.FloatUnary vector_unary.F32x4DemoteF64x2Zero)) ≡ Some F32x4 }
    ensures relaxed { nan_of true (instr.Vector (vector.RelaxedFloatTernary ternary.F32x4Nmadd))
        ≡ Some F32x4 }
    ensures lesser_operand { nan_of true (instr.Vector (vector.FloatBinary vector_binary.F32x4Pmin))
        ≡ None }
    ensures without_vectors { nan_of false (instr.Vector (vector.FloatBinary vector_binary.F32x4Add))
        ≡ None }
{}

// What follows an instruction.
fn places()
    ensures number { followed false 4 (instr.Numeric (numeric.F32Binary binary.Div))
        ≡ instr.Numeric (numeric.F32Binary binary.Div) ∷ instr.GlobalSet 4 ∷ instr.GlobalGet 4
        ∷ instr.F32Const 2143289344 ∷ instr.GlobalGet 4 ∷ instr.GlobalGet 4
        ∷ instr.Numeric (numeric.F32Compare compare.Eq) ∷ instr.Select ∷ [] }
    ensures wide { followed false 4 (instr.Numeric (numeric.F64Unary unary.Nearest))
        ≡ instr.Numeric (numeric.F64Unary unary.Nearest) ∷ instr.GlobalSet 5 ∷ instr.GlobalGet 5
        ∷ instr.F64Const 9221120237041090560 ∷ instr.GlobalGet 5 ∷ instr.GlobalGet 5
        ∷ instr.Numeric (numeric.F64Compare compare.Eq) ∷ instr.Select ∷ [] }
    ensures lanes { followed true 4 (instr.Vector (vector.FloatBinary vector_binary.F32x4Mul))
        ≡ instr.Vector (vector.FloatBinary vector_binary.F32x4Mul) ∷ instr.GlobalSet 6
        ∷ instr.GlobalGet 6 ∷ instr.V128Const (pos 169808876501059712777343542120893382656)
        ∷ instr.GlobalGet 6 ∷ instr.GlobalGet 6
        ∷ instr.Vector (vector.FloatBinary vector_binary.F32x4Eq) ∷ instr.Vector vector.Bitselect
        ∷ [] }
    ensures wide_lanes { followed true 4 (instr.Vector (vector.FloatUnary vector_unary.F64x2Sqrt))
        ≡ instr.Vector (vector.FloatUnary vector_unary.F64x2Sqrt) ∷ instr.GlobalSet 6
        ∷ instr.GlobalGet 6 ∷ instr.V128Const (pos 170099645085600953119880179982291435520)
        ∷ instr.GlobalGet 6 ∷ instr.GlobalGet 6
        ∷ instr.Vector (vector.FloatBinary vector_binary.F64x2Eq) ∷ instr.Vector vector.Bitselect
        ∷ [] }
    ensures others { followed true 4 (instr.LocalGet 0) ≡ instr.LocalGet 0 ∷ [] }
{}

fn bodies()
    ensures drawn { canonical_body false 4 (body.Drawn (instr.LocalGet 0 ∷ instr.LocalGet 0
        ∷ instr.Numeric (numeric.F64Binary binary.Sub) ∷ instr.Drop ∷ []))
        ≡ body.Drawn (instr.LocalGet 0 ∷ instr.LocalGet 0
        ∷ instr.Numeric (numeric.F64Binary binary.Sub) ∷ canonical 4 F64 ++ instr.Drop ∷ []) }
    ensures raw_bytes { canonical_body true 4 body.Raw ≡ body.Raw }
{}
