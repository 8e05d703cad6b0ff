ghost use Rattle.std.specs.Prelude.{IsTrue, ◌↔◌, ◌≡◌, ◌<◌, ◌∷◌, [], ℕ, List, All, IfOk, IfErr};
ghost use Rattle.smith_types.specs.Syntax.value_type.ValType.{ValType};
ghost use Rattle.smith_types.specs.Syntax.value_type.ValType.TheVariants.{V128};
ghost use Rattle.smith_instr.specs.MemoryTypes.{IsLane, vector_bytes};
ghost use Rattle.smith_instr.specs.VectorTypes.{extracted, lanes};
ghost use Rattle.smith_instr.specs.declared.instr.Instr.TheVariants as instr;
ghost use Rattle.smith_check_rules.specs.Slots.{AreSlotsValid};
ghost use Rattle.smith_check_operands.specs.Scopes.{bare};
ghost use Rattle.smith_check_operands.specs.Covers.{held};
ghost use Rattle.smith_check_operands.specs.Applies.{IsTried};
ghost use Rattle.smith_check_instr.specs.VectorSignatures.{
  HasLanes,
  vector_operands,
  vector_result,
};

use crate::memory::{access, address_type};
use smith_bytes::Error;
use smith_check_operands::lookups::is_valid;
use smith_check_operands::{Operands, Scope};
use smith_instr::{LaneExtract, LaneShape, MemArg, VectorInstr, VectorLoad};
use smith_types::ValType;

/// Tries a vector instruction that accesses no memory.
pub fn vector(operands: &mut Operands, scope: &Scope, op: VectorInstr) -> Result<bool, Error>
    requires { AreSlotsValid (bare scope.now) operands.old.known.items }
    ensures ok { (labels : List (List ValType)) (set : List ℕ) → IfOk result
        (λ there. IsTried (bare scope.now) labels (instr.Vector op) set there
        (held operands.old) (held operands.new)) }
    ensures memory { IfErr result (λ e. e ≡ Error.Memory) }
{
    if !has_lanes(op) {
        return Ok(false);
    }
    let value = result_type(op);
    if !is_valid(scope, value) {
        return Ok(false);
    }
    operands.apply(scope, taken(op), &[value])
}

/// Tries a load of a vector.
pub fn vector_load(
    operands: &mut Operands,
    scope: &Scope,
    op: VectorLoad,
    at: MemArg,
) -> Result<bool, Error>
    requires { AreSlotsValid (bare scope.now) operands.old.known.items }
    ensures ok { (labels : List (List ValType)) (set : List ℕ) → IfOk result
        (λ there. IsTried (bare scope.now) labels (instr.VectorLoad op at) set there
        (held operands.old) (held operands.new)) }
    ensures memory { IfErr result (λ e. e ≡ Error.Memory) }
{
    let Some(wide) = access(scope.memories, at, log2_bytes(op)) else {
        return Ok(false);
    };
    if !is_valid(scope, ValType::V128) {
        return Ok(false);
    }
    operands.apply(scope, &[address_type(wide)], &[ValType::V128])
}

/// Tries `v128.store`.
pub fn vector_store(operands: &mut Operands, scope: &Scope, at: MemArg) -> Result<bool, Error>
    requires { AreSlotsValid (bare scope.now) operands.old.known.items }
    ensures ok { (labels : List (List ValType)) (set : List ℕ) → IfOk result
        (λ there. IsTried (bare scope.now) labels (instr.VectorStore at) set there
        (held operands.old) (held operands.new)) }
    ensures memory { IfErr result (λ e. e ≡ Error.Memory) }
{
    let Some(wide) = access(scope.memories, at, 4) else {
        return Ok(false);
    };
    operands.apply(scope, &[address_type(wide), ValType::V128], &[])
}

/// Tries a load into the lane `lane`, of `2 ^ log2_bytes` bytes.
pub fn vector_load_lane(
    operands: &mut Operands,
    scope: &Scope,
    log2_bytes: u32,
    at: MemArg,
    lane: u8,
) -> Result<bool, Error>
    requires { AreSlotsValid (bare scope.now) operands.old.known.items }
    ensures ok { (labels : List (List ValType)) (set : List ℕ) → IfOk result
        (λ there. IsTried (bare scope.now) labels (instr.VectorLoadLane log2_bytes at lane) set there
        (held operands.old) (held operands.new)) }
    ensures memory { IfErr result (λ e. e ≡ Error.Memory) }
{
    let Some(wide) = access(scope.memories, at, log2_bytes) else {
        return Ok(false);
    };
    if !is_lane(log2_bytes, lane) {
        return Ok(false);
    }
    if !is_valid(scope, ValType::V128) {
        return Ok(false);
    }
    operands.apply(
        scope,
        &[address_type(wide), ValType::V128],
        &[ValType::V128],
    )
}

/// Tries a store of the lane `lane`, of `2 ^ log2_bytes` bytes.
pub fn vector_store_lane(
    operands: &mut Operands,
    scope: &Scope,
    log2_bytes: u32,
    at: MemArg,
    lane: u8,
) -> Result<bool, Error>
    requires { AreSlotsValid (bare scope.now) operands.old.known.items }
    ensures ok { (labels : List (List ValType)) (set : List ℕ) → IfOk result
        (λ there. IsTried (bare scope.now) labels (instr.VectorStoreLane log2_bytes at lane) set there
        (held operands.old) (held operands.new)) }
    ensures memory { IfErr result (λ e. e ≡ Error.Memory) }
{
    let Some(wide) = access(scope.memories, at, log2_bytes) else {
        return Ok(false);
    };
    if !is_lane(log2_bytes, lane) {
        return Ok(false);
    }
    operands.apply(scope, &[address_type(wide), ValType::V128], &[])
}

/// Returns whether a lane of `2 ^ log2_bytes` bytes has this index (Validation, Memory
/// Instructions).
fn is_lane(log2_bytes: u32, lane: u8) -> bool
    ensures { IsTrue result ↔ IsLane log2_bytes lane }
{
    match log2_bytes {
        0 => lane < 16,
        1 => lane < 8,
        2 => lane < 4,
        3 => lane < 2,
        _ => false,
    }
}

/// Returns whether the lanes that an instruction names exist (Validation, Vector Instructions).
fn has_lanes(op: VectorInstr) -> bool
    ensures { IsTrue result ↔ HasLanes op }
{
    match op {
        VectorInstr::ExtractLane(op, lane) => lane < lane_count(extracted_shape(op)),
        VectorInstr::ReplaceLane(shape, lane) => lane < lane_count(shape),
        VectorInstr::Shuffle(chosen) => are_of_two(&chosen),
        _ => true,
    }
}

/// Returns whether the lanes are of two vectors of 16 lanes.
fn are_of_two(chosen: &[u8]) -> bool
    ensures { IsTrue result ↔ All (λ (lane : ℕ). lane < 32) chosen.now }
{
    chosen.iter().all(|lane| *lane < 32)
}

/// Returns the binary logarithm of the number of bytes that `op` reads.
fn log2_bytes(op: VectorLoad) -> u32
    ensures { result ≡ vector_bytes op }
{
    match op {
        VectorLoad::V128 => 4,
        VectorLoad::I8x8S | VectorLoad::I8x8U | VectorLoad::I16x4S | VectorLoad::I16x4U => 3,
        VectorLoad::I32x2S | VectorLoad::I32x2U | VectorLoad::Splat64 | VectorLoad::Zero64 => 3,
        VectorLoad::Splat32 | VectorLoad::Zero32 => 2,
        VectorLoad::Splat16 => 1,
        VectorLoad::Splat8 => 0,
    }
}

/// Returns the shape from which a lane is extracted.
fn extracted_shape(op: LaneExtract) -> LaneShape
    ensures { result ≡ extracted op }
{
    match op {
        LaneExtract::I8x16S | LaneExtract::I8x16U => LaneShape::I8x16,
        LaneExtract::I16x8S | LaneExtract::I16x8U => LaneShape::I16x8,
        LaneExtract::I32x4 => LaneShape::I32x4,
        LaneExtract::I64x2 => LaneShape::I64x2,
        LaneExtract::F32x4 => LaneShape::F32x4,
        LaneExtract::F64x2 => LaneShape::F64x2,
    }
}

/// Returns the number of lanes.
fn lane_count(shape: LaneShape) -> u8
    ensures { result ≡ (lanes shape).0 }
{
    match shape {
        LaneShape::I8x16 => 16,
        LaneShape::I16x8 => 8,
        LaneShape::I32x4 | LaneShape::F32x4 => 4,
        LaneShape::I64x2 | LaneShape::F64x2 => 2,
    }
}

/// Returns the type of the value of a lane, unpacked.
fn lane_value(shape: LaneShape) -> ValType
    ensures { result ≡ (lanes shape).1 }
{
    match shape {
        LaneShape::I8x16 | LaneShape::I16x8 | LaneShape::I32x4 => ValType::I32,
        LaneShape::I64x2 => ValType::I64,
        LaneShape::F32x4 => ValType::F32,
        LaneShape::F64x2 => ValType::F64,
    }
}

/// Returns the type of the result.
fn result_type(op: VectorInstr) -> ValType
    ensures { result ≡ vector_result op }
{
    match op {
        VectorInstr::AnyTrue | VectorInstr::AllTrue(_) | VectorInstr::Bitmask(_) => ValType::I32,
        VectorInstr::ExtractLane(op, _) => lane_value(extracted_shape(op)),
        _ => ValType::V128,
    }
}

/// Returns the types of the operands, the last on top.
fn taken<'a>(op: VectorInstr) -> &'a [ValType]
    ensures { result.now ≡ vector_operands op }
{
    match op {
        VectorInstr::Unary(_) | VectorInstr::FloatUnary(_) => &[ValType::V128],
        VectorInstr::RelaxedFloatUnary(_) | VectorInstr::ExtractLane(_, _) => &[ValType::V128],
        VectorInstr::AnyTrue | VectorInstr::AllTrue(_) | VectorInstr::Bitmask(_) => {
            &[ValType::V128]
        }
        VectorInstr::Binary(_) | VectorInstr::FloatBinary(_) | VectorInstr::Shuffle(_) => {
            &[ValType::V128, ValType::V128]
        }
        VectorInstr::RelaxedBinary(_) | VectorInstr::RelaxedFloatBinary(_) => {
            &[ValType::V128, ValType::V128]
        }
        VectorInstr::Bitselect | VectorInstr::RelaxedTernary(_) => {
            &[ValType::V128, ValType::V128, ValType::V128]
        }
        VectorInstr::RelaxedFloatTernary(_) => &[ValType::V128, ValType::V128, ValType::V128],
        VectorInstr::Shift(_, _) => &[ValType::V128, ValType::I32],
        VectorInstr::Splat(shape) => splat(shape),
        VectorInstr::ReplaceLane(shape, _) => replaced(shape),
    }
}

fn splat<'a>(shape: LaneShape) -> &'a [ValType]
    ensures { result.now ≡ (lanes shape).1 ∷ [] }
{
    match shape {
        LaneShape::I8x16 | LaneShape::I16x8 | LaneShape::I32x4 => &[ValType::I32],
        LaneShape::I64x2 => &[ValType::I64],
        LaneShape::F32x4 => &[ValType::F32],
        LaneShape::F64x2 => &[ValType::F64],
    }
}

fn replaced<'a>(shape: LaneShape) -> &'a [ValType]
    ensures { result.now ≡ V128 ∷ (lanes shape).1 ∷ [] }
{
    match shape {
        LaneShape::I8x16 | LaneShape::I16x8 | LaneShape::I32x4 => &[ValType::V128, ValType::I32],
        LaneShape::I64x2 => &[ValType::V128, ValType::I64],
        LaneShape::F32x4 => &[ValType::V128, ValType::F32],
        LaneShape::F64x2 => &[ValType::V128, ValType::F64],
    }
}
