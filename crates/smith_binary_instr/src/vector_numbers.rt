ghost use Rattle.std.specs.Prelude.{◌≡◌, ◌<◌};
ghost use Rattle.smith_binary_instr.specs.VectorNumbers.{
  all_true_number,
  bitmask_number,
  extract_number,
  relaxed_binary_number,
  relaxed_float_binary_number,
  relaxed_float_ternary_number,
  relaxed_float_unary_number,
  relaxed_ternary_number,
  replace_number,
  shift_number,
  shl_number,
  splat_number,
  vector_binary_number,
  vector_float_binary_number,
  vector_float_unary_number,
  vector_unary_number,
};

use smith_instr::{
    IntShape, LaneExtract, LaneShape, RelaxedBinary, RelaxedFloatBinary, RelaxedFloatTernary,
    RelaxedFloatUnary, RelaxedTernary, VectorBinary, VectorFloatBinary, VectorFloatUnary,
    VectorShift, VectorUnary,
};

// Returns the number of an operator on one vector, without floats.
pub(crate) fn vector_unary_number(op: VectorUnary) -> u32
    ensures { result ≡ vector_unary_number op }
{
    op as u32
}

// Returns the number of an operator on one vector, with floats.
pub(crate) fn vector_float_unary_number(op: VectorFloatUnary) -> u32
    ensures { result ≡ vector_float_unary_number op }
{
    op as u32
}

// Returns the number of an operator on two vectors, without floats.
#[tactic(auto, unfolding(crate::specs::VectorNumbers::vector_binary_number))]
pub(crate) fn vector_binary_number(op: VectorBinary) -> u32
    ensures { result ≡ vector_binary_number op }
{
    op as u32
}

// Returns the number of an operator on two vectors, with floats.
pub(crate) fn vector_float_binary_number(op: VectorFloatBinary) -> u32
    ensures { result ≡ vector_float_binary_number op }
{
    op as u32
}

// Returns the number of `all_true`: those of the shapes are 32 apart.
pub(crate) fn all_true_number(shape: IntShape) -> u32
    ensures { result ≡ all_true_number shape }
{
    99 + 32 * shape as u32
}

// Returns the number of `bitmask`: those of the shapes are 32 apart.
pub(crate) fn bitmask_number(shape: IntShape) -> u32
    ensures { result ≡ bitmask_number shape }
{
    100 + 32 * shape as u32
}

// Returns the number of `shl`: those of the shapes are 32 apart.
fn shl_number(shape: IntShape) -> u32
    ensures is { result ≡ shl_number shape }
    ensures small { result < 210 }
{
    107 + 32 * shape as u32
}

// Returns the number of `splat`.
pub(crate) fn splat_number(shape: LaneShape) -> u32
    ensures { result ≡ splat_number shape }
{
    15 + shape as u32
}

// Returns the number of `extract_lane`.
pub(crate) fn extract_number(op: LaneExtract) -> u32
    ensures { result ≡ extract_number op }
{
    op as u32
}

// Returns the number of `replace_lane`.
pub(crate) fn replace_number(shape: LaneShape) -> u32
    ensures { result ≡ replace_number shape }
{
    match shape {
        LaneShape::I8x16 => 23,
        LaneShape::I16x8 => 26,
        LaneShape::I32x4 => 28,
        LaneShape::I64x2 => 30,
        LaneShape::F32x4 => 32,
        LaneShape::F64x2 => 34,
    }
}

// Returns the number of a relaxed operator on one vector.
pub(crate) fn relaxed_float_unary_number(op: RelaxedFloatUnary) -> u32
    ensures { result ≡ relaxed_float_unary_number op }
{
    op as u32
}

// Returns the number of a relaxed operator on two vectors, without floats.
pub(crate) fn relaxed_binary_number(op: RelaxedBinary) -> u32
    ensures { result ≡ relaxed_binary_number op }
{
    op as u32
}

// Returns the number of a relaxed operator on two vectors, with floats.
pub(crate) fn relaxed_float_binary_number(op: RelaxedFloatBinary) -> u32
    ensures { result ≡ relaxed_float_binary_number op }
{
    op as u32
}

// Returns the number of a relaxed operator on three vectors, without floats.
pub(crate) fn relaxed_ternary_number(op: RelaxedTernary) -> u32
    ensures { result ≡ relaxed_ternary_number op }
{
    op as u32
}

// Returns the number of a relaxed operator on three vectors, with floats.
pub(crate) fn relaxed_float_ternary_number(op: RelaxedFloatTernary) -> u32
    ensures { result ≡ relaxed_float_ternary_number op }
{
    op as u32
}

// Returns the number of a shift of the lanes of a shape.
pub(crate) fn shift_number(op: VectorShift, shape: IntShape) -> u32
    ensures { result ≡ shift_number op shape }
{
    shl_number(shape) + op as u32
}
