ghost use Rattle.std.specs.Prelude.{◌≡◌, None, if◌then◌else◌};
ghost use Rattle.smith_program.specs.Nans.{binary_nan, conversion_nan, nan_of, numeric_nan};
ghost use Rattle.smith_program.specs.Nans.{relaxed_binary_nan, relaxed_ternary_nan, unary_nan};
ghost use Rattle.smith_program.specs.Nans.{vector_binary_nan, vector_nan, vector_unary_nan};

use smith_instr::{
    Conversion, FloatBinary, FloatUnary, Instr, NumericInstr, RelaxedFloatBinary,
    RelaxedFloatTernary, VectorFloatBinary, VectorFloatUnary, VectorInstr,
};

/// A float, or a vector of floats.
#[derive(Clone, Copy, Debug)]
pub(crate) enum Float {
    F32,
    F64,
    F32x4,
    F64x2,
}

fn unary_nan(float: Float, op: FloatUnary) -> Option<Float>
    ensures { result ≡ unary_nan float op }
{
    match op {
        FloatUnary::Abs | FloatUnary::Neg => None,
        _ => Some(float),
    }
}

fn binary_nan(float: Float, op: FloatBinary) -> Option<Float>
    ensures { result ≡ binary_nan float op }
{
    match op {
        FloatBinary::Copysign => None,
        _ => Some(float),
    }
}

fn conversion_nan(op: Conversion) -> Option<Float>
    ensures { result ≡ conversion_nan op }
{
    match op {
        Conversion::F32DemoteF64 => Some(Float::F32),
        Conversion::F64PromoteF32 => Some(Float::F64),
        _ => None,
    }
}

fn numeric_nan(op: NumericInstr) -> Option<Float>
    ensures { result ≡ numeric_nan op }
{
    match op {
        NumericInstr::F32Unary(op) => unary_nan(Float::F32, op),
        NumericInstr::F64Unary(op) => unary_nan(Float::F64, op),
        NumericInstr::F32Binary(op) => binary_nan(Float::F32, op),
        NumericInstr::F64Binary(op) => binary_nan(Float::F64, op),
        NumericInstr::Convert(op) => conversion_nan(op),
        _ => None,
    }
}

#[rattlefmt::skip]
fn vector_unary_nan(op: VectorFloatUnary) -> Option<Float>
    ensures { result ≡ vector_unary_nan op }
{
    match op {
        VectorFloatUnary::F32x4Sqrt | VectorFloatUnary::F32x4Ceil | VectorFloatUnary::F32x4Floor | VectorFloatUnary::F32x4Trunc
        | VectorFloatUnary::F32x4Nearest | VectorFloatUnary::F32x4DemoteF64x2Zero => Some(Float::F32x4),
        VectorFloatUnary::F64x2Sqrt | VectorFloatUnary::F64x2Ceil | VectorFloatUnary::F64x2Floor | VectorFloatUnary::F64x2Trunc
        | VectorFloatUnary::F64x2Nearest | VectorFloatUnary::F64x2PromoteLowF32x4 => Some(Float::F64x2),
        _ => None,
    }
}

#[rattlefmt::skip]
fn vector_binary_nan(op: VectorFloatBinary) -> Option<Float>
    ensures { result ≡ vector_binary_nan op }
{
    match op {
        VectorFloatBinary::F32x4Add | VectorFloatBinary::F32x4Sub | VectorFloatBinary::F32x4Mul | VectorFloatBinary::F32x4Div
        | VectorFloatBinary::F32x4Min | VectorFloatBinary::F32x4Max => Some(Float::F32x4),
        VectorFloatBinary::F64x2Add | VectorFloatBinary::F64x2Sub | VectorFloatBinary::F64x2Mul | VectorFloatBinary::F64x2Div
        | VectorFloatBinary::F64x2Min | VectorFloatBinary::F64x2Max => Some(Float::F64x2),
        _ => None,
    }
}

fn relaxed_binary_nan(op: RelaxedFloatBinary) -> Option<Float>
    ensures { result ≡ relaxed_binary_nan op }
{
    match op {
        RelaxedFloatBinary::F32x4Min | RelaxedFloatBinary::F32x4Max => Some(Float::F32x4),
        RelaxedFloatBinary::F64x2Min | RelaxedFloatBinary::F64x2Max => Some(Float::F64x2),
    }
}

fn relaxed_ternary_nan(op: RelaxedFloatTernary) -> Option<Float>
    ensures { result ≡ relaxed_ternary_nan op }
{
    match op {
        RelaxedFloatTernary::F32x4Madd | RelaxedFloatTernary::F32x4Nmadd => Some(Float::F32x4),
        RelaxedFloatTernary::F64x2Madd | RelaxedFloatTernary::F64x2Nmadd => Some(Float::F64x2),
    }
}

fn vector_nan(op: VectorInstr) -> Option<Float>
    ensures { result ≡ vector_nan op }
{
    match op {
        VectorInstr::FloatUnary(op) => vector_unary_nan(op),
        VectorInstr::FloatBinary(op) => vector_binary_nan(op),
        VectorInstr::RelaxedFloatBinary(op) => relaxed_binary_nan(op),
        VectorInstr::RelaxedFloatTernary(op) => relaxed_ternary_nan(op),
        _ => None,
    }
}

fn vector_nan_if(vectors: bool, op: VectorInstr) -> Option<Float>
    ensures { result ≡ (if vectors then vector_nan op else None) }
{
    if vectors { vector_nan(op) } else { None }
}

/// Returns the float, or the vector of floats, as which `instr` may give a NaN whose bits an engine
/// chooses, if any. Vectors count only if `vectors` is on.
pub(crate) fn nan_of(vectors: bool, instr: &Instr) -> Option<Float>
    ensures { result ≡ nan_of vectors instr.now }
{
    match instr {
        Instr::Numeric(op) => numeric_nan(*op),
        Instr::Vector(op) => vector_nan_if(vectors, *op),
        _ => None,
    }
}
