ghost use Rattle.std.specs.Prelude.{◌≡◌, ◌-◌, ◌<◌, ℕ, All, [], ◌∷◌, IfOk, IfErr, IsTrue};
ghost use Rattle.smith_bytes.specs.Source.{KeepsPieces};
ghost use Rattle.smith_types.specs.Syntax.value_type.ValType.TheVariants.{V128};
ghost use Rattle.smith_instr.specs.Contexts.{IsValid};
ghost use Rattle.smith_instr.specs.VectorTypes.{HasVectorType, extracted, lanes};
ghost use Rattle.smith_body_nodes.specs.Nodes.{IsOffer};
ghost use Rattle.smith_body_nodes.specs.Scopes.{IsScope, bare, where_stands};
ghost use Rattle.smith_body_memory.specs.VectorChoices.{any_vector_at, lanes_at, shuffled_at};
ghost use Rattle.smith_body_memory.specs.VectorChoices.{vector_at, vector_choice_at};
ghost use Rattle.smith_body_memory.specs.VectorChoices.{vector_families, vector_row_at};
ghost use Rattle.smith_body_memory.specs.VectorRows.{vector_operands, vector_result, vector_rows};

use crate::vector_memory::{choose_load_lane, choose_vector_load};
use crate::vector_rows::vector_rows;
use smith_body_nodes::{Draft, Node, Scope, plain};
use smith_bytes::{Error, Unstructured};
use smith_draw_types::choose;
use smith_instr::{Instr, LaneExtract, LaneShape, VectorInstr};
use smith_types::{ValType, WasmFeatures};
use std::alloc::Global;

/// Families of instructions that may produce a vector.
#[derive(Clone, Copy)]
enum VectorFamily {
    /// An instruction that accesses no memory.
    Instr,
    Load,
    /// A load into a lane.
    LoadLane,
}

/// Lists the families of vectors, each as often as its weight.
fn vector_families<'a>() -> &'a [VectorFamily]
    ensures { result.now ≡ vector_families }
{
    &[
        VectorFamily::Instr,
        VectorFamily::Instr,
        VectorFamily::Instr,
        VectorFamily::Instr,
        VectorFamily::Instr,
        VectorFamily::Load,
        VectorFamily::Load,
        VectorFamily::LoadLane,
    ]
}

/// Chooses a vector instruction that produces a value of the type `wanted`. Returns `None` without
/// vectors.
pub fn choose_vector(
    alloc: Global,
    scope: &Scope<'_>,
    wanted: ValType,
    draft: &Draft,
    u: &mut Unstructured<'_>,
) -> Result<Option<Node>, Error>
    requires scope { IsScope (bare scope.now) }
    requires wanted { IsValid (bare scope.now) wanted }
    ensures exact { IfOk result (λ chosen.
        vector_at scope.now.config.now (where_stands scope.now draft.now) wanted u.old
        ≡ (chosen, u.new)) }
    ensures offer { IsOffer (where_stands scope.now draft.now) draft.now.set.items
        (wanted ∷ []) result }
    ensures memory { IfErr result (λ e. e ≡ Error.Memory) }
    ensures left { KeepsPieces u.old u.new }
{
    if !has_vectors(scope) {
        return Ok(None);
    }
    choose_any_vector(alloc, scope, wanted, draft, u)
}

/// Returns whether vectors are on.
pub(crate) fn has_vectors(scope: &Scope<'_>) -> bool
    ensures { result ≡ (bare scope.now).features.simd }
{
    scope.features.contains(WasmFeatures::SIMD)
}

fn choose_any_vector(
    alloc: Global,
    scope: &Scope<'_>,
    wanted: ValType,
    draft: &Draft,
    u: &mut Unstructured<'_>,
) -> Result<Option<Node>, Error>
    requires scope { IsScope (bare scope.now) }
    requires simd { IsTrue (bare scope.now).features.simd }
    requires wanted { IsValid (bare scope.now) wanted }
    ensures exact { IfOk result (λ chosen.
        any_vector_at scope.now.config.now scope.now.memories.now wanted u.old ≡ (chosen, u.new)) }
    ensures offer { IsOffer (where_stands scope.now draft.now) draft.now.set.items
        (wanted ∷ []) result }
    ensures memory { IfErr result (λ e. e ≡ Error.Memory) }
    ensures left { KeepsPieces u.old u.new }
{
    match wanted {
        ValType::V128 => choose_vector_value(alloc, scope, draft, u),
        other => choose_row(alloc, scope, vector_rows(other), other, draft, u),
    }
}

fn choose_vector_value(
    alloc: Global,
    scope: &Scope<'_>,
    draft: &Draft,
    u: &mut Unstructured<'_>,
) -> Result<Option<Node>, Error>
    requires scope { IsScope (bare scope.now) }
    requires simd { IsTrue (bare scope.now).features.simd }
    ensures exact { IfOk result (λ chosen.
        vector_choice_at scope.now.config.now scope.now.memories.now u.old ≡ (chosen, u.new)) }
    ensures offer { IsOffer (where_stands scope.now draft.now) draft.now.set.items
        (V128 ∷ []) result }
    ensures memory { IfErr result (λ e. e ≡ Error.Memory) }
    ensures left { KeepsPieces u.old u.new }
{
    match choose(vector_families(), u) {
        VectorFamily::Instr => {
            let wanted = ValType::V128;
            choose_row(alloc, scope, vector_rows(wanted), wanted, draft, u)
        }
        VectorFamily::Load => choose_vector_load(alloc, scope, draft, u),
        VectorFamily::LoadLane => choose_load_lane(alloc, scope, draft, u),
    }
}

fn choose_row(
    alloc: Global,
    scope: &Scope<'_>,
    rows: &[VectorInstr],
    wanted: ValType,
    draft: &Draft,
    u: &mut Unstructured<'_>,
) -> Result<Option<Node>, Error>
    requires simd { IsTrue (bare scope.now).features.simd }
    requires rows { rows.now ≡ vector_rows wanted }
    ensures exact { IfOk result (λ chosen. vector_row_at wanted u.old ≡ (chosen, u.new)) }
    ensures offer { IsOffer (where_stands scope.now draft.now) draft.now.set.items
        (wanted ∷ []) result }
    ensures memory { IfErr result (λ e. e ≡ Error.Memory) }
    ensures left { KeepsPieces u.old u.new }
{
    if rows.len() == 0 {
        return Ok(None);
    }
    let row = rows[u.int_in_range(0..=rows.len() - 1)];
    let op = draw_lanes(row, u);
    let node = plain(alloc, operands(op), Instr::Vector(op), 0)?;
    Ok(Some(node))
}

/// Draws the lanes of `row`, if it has lanes.
#[tactic(auto, unfolding(crate::specs::VectorChoices::lanes_at))]
fn draw_lanes(row: VectorInstr, u: &mut Unstructured<'_>) -> VectorInstr
    ensures exact { lanes_at row u.old ≡ (result, u.new) }
    ensures typed { HasVectorType result (vector_operands result) (vector_result row ∷ []) }
    ensures left { KeepsPieces u.old u.new }
{
    match row {
        VectorInstr::ExtractLane(op, _) => {
            let lane = u.int_in_range(0..=last_lane(extraction_shape(op)));
            VectorInstr::ExtractLane(op, lane)
        }
        VectorInstr::ReplaceLane(shape, _) => {
            let lane = u.int_in_range(0..=last_lane(shape));
            VectorInstr::ReplaceLane(shape, lane)
        }
        VectorInstr::Shuffle(_) => VectorInstr::Shuffle(draw_shuffle(u)),
        other => other,
    }
}

fn draw_shuffle(u: &mut Unstructured<'_>) -> [u8; 16]
    ensures exact { shuffled_at 16 u.old ≡ (result, u.new) }
    ensures within { All (λ (lane : ℕ). lane < 32) result }
    ensures left { KeepsPieces u.old u.new }
{
    let mut lanes = [0; 16];
    for index in 0..16 {
        lanes[index] = u.int_in_range(0..=31u8);
    }
    lanes
}

/// Returns the shape from which a lane is extracted.
fn extraction_shape(op: LaneExtract) -> LaneShape
    ensures { result ≡ extracted op }
{
    match op {
        LaneExtract::I8x16S | LaneExtract::I8x16U => LaneShape::I8x16,
        LaneExtract::I16x8S | LaneExtract::I16x8U => LaneShape::I16x8,
        LaneExtract::I32x4 => LaneShape::I32x4,
        LaneExtract::I64x2 => LaneShape::I64x2,
        LaneExtract::F32x4 => LaneShape::F32x4,
        LaneExtract::F64x2 => LaneShape::F64x2,
    }
}

/// Returns the index of the last lane of a shape.
fn last_lane(shape: LaneShape) -> u8
    ensures { result ≡ (lanes shape).0 - 1 }
{
    match shape {
        LaneShape::I8x16 => 15,
        LaneShape::I16x8 => 7,
        LaneShape::I32x4 | LaneShape::F32x4 => 3,
        LaneShape::I64x2 | LaneShape::F64x2 => 1,
    }
}

/// Returns the types of the operands, the last on top.
fn operands<'a>(op: VectorInstr) -> &'a [ValType]
    ensures { result.now ≡ vector_operands op }
{
    match op {
        VectorInstr::Unary(_) | VectorInstr::FloatUnary(_) => &[ValType::V128],
        VectorInstr::RelaxedFloatUnary(_) | VectorInstr::ExtractLane(_, _) => &[ValType::V128],
        VectorInstr::AnyTrue | VectorInstr::AllTrue(_) | VectorInstr::Bitmask(_) => {
            &[ValType::V128]
        }
        VectorInstr::Binary(_) | VectorInstr::FloatBinary(_) | VectorInstr::Shuffle(_) => {
            &[ValType::V128, ValType::V128]
        }
        VectorInstr::RelaxedBinary(_) | VectorInstr::RelaxedFloatBinary(_) => {
            &[ValType::V128, ValType::V128]
        }
        VectorInstr::Bitselect | VectorInstr::RelaxedTernary(_) => {
            &[ValType::V128, ValType::V128, ValType::V128]
        }
        VectorInstr::RelaxedFloatTernary(_) => &[ValType::V128, ValType::V128, ValType::V128],
        VectorInstr::Shift(_, _) => &[ValType::V128, ValType::I32],
        VectorInstr::Splat(shape) => splat_operands(shape),
        VectorInstr::ReplaceLane(shape, _) => replaced_operands(shape),
    }
}

fn splat_operands<'a>(shape: LaneShape) -> &'a [ValType]
    ensures { result.now ≡ (lanes shape).1 ∷ [] }
{
    match shape {
        LaneShape::I8x16 | LaneShape::I16x8 | LaneShape::I32x4 => &[ValType::I32],
        LaneShape::I64x2 => &[ValType::I64],
        LaneShape::F32x4 => &[ValType::F32],
        LaneShape::F64x2 => &[ValType::F64],
    }
}

fn replaced_operands<'a>(shape: LaneShape) -> &'a [ValType]
    ensures { result.now ≡ V128 ∷ (lanes shape).1 ∷ [] }
{
    match shape {
        LaneShape::I8x16 | LaneShape::I16x8 | LaneShape::I32x4 => &[ValType::V128, ValType::I32],
        LaneShape::I64x2 => &[ValType::V128, ValType::I64],
        LaneShape::F32x4 => &[ValType::V128, ValType::F32],
        LaneShape::F64x2 => &[ValType::V128, ValType::F64],
    }
}
