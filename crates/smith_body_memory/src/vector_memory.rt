ghost use Rattle.std.specs.Prelude.{◌≡◌, ◌-◌, ◌<◌, ◌≤◌, ◌^◌, [], ◌∷◌, IfOk, IfErr, IfSome, IsTrue};
ghost use Rattle.smith_bytes.specs.Source.{KeepsPieces};
ghost use Rattle.smith_types.specs.Syntax.value_type.ValType.TheVariants.{V128};
ghost use Rattle.smith_instr.specs.MemoryTypes.{IsAccess, IsLane, vector_bytes};
ghost use Rattle.smith_body_nodes.specs.Chosen.{or_nop};
ghost use Rattle.smith_body_nodes.specs.Nodes.{IsNode, IsOffer};
ghost use Rattle.smith_body_nodes.specs.Scopes.{IsScope, bare, where_stands};
ghost use Rattle.smith_body_memory.specs.VectorChoices.{lane_access_at, load_lane_at};
ghost use Rattle.smith_body_memory.specs.VectorChoices.{store_lane_at, vector_load_at};
ghost use Rattle.smith_body_memory.specs.VectorChoices.{vector_store_at};

use crate::memories::{Access, draw_access};
use crate::vector_rows::vector_loads;
use crate::vectors::has_vectors;
use smith_body_nodes::{Draft, Node, Scope, address, plain};
use smith_bytes::{Error, Unstructured};
use smith_draw_types::choose;
use smith_instr::{Instr, VectorLoad};
use smith_types::ValType;
use std::alloc::Global;

/// Chooses a load of a vector. Returns `None` if there is no memory.
pub(crate) fn choose_vector_load(
    alloc: Global,
    scope: &Scope<'_>,
    draft: &Draft,
    u: &mut Unstructured<'_>,
) -> Result<Option<Node>, Error>
    requires scope { IsScope (bare scope.now) }
    requires simd { IsTrue (bare scope.now).features.simd }
    ensures exact { IfOk result (λ chosen.
        vector_load_at scope.now.config.now scope.now.memories.now u.old ≡ (chosen, u.new)) }
    ensures offer { IsOffer (where_stands scope.now draft.now) draft.now.set.items
        (V128 ∷ []) result }
    ensures memory { IfErr result (λ e. e ≡ Error.Memory) }
    ensures left { KeepsPieces u.old u.new }
{
    let op = choose(vector_loads(), u);
    let Some(access) = draw_access(scope, log2_bytes(op), u) else {
        return Ok(None);
    };
    let instruction = Instr::VectorLoad(op, access.at);
    let node = plain(alloc, &[address(access.wide)], instruction, 0)?;
    Ok(Some(node))
}

/// Returns the binary logarithm of the number of bytes that `op` reads.
fn log2_bytes(op: VectorLoad) -> u32
    ensures { result ≡ vector_bytes op }
{
    match op {
        VectorLoad::V128 => 4,
        VectorLoad::I8x8S | VectorLoad::I8x8U | VectorLoad::I16x4S | VectorLoad::I16x4U => 3,
        VectorLoad::I32x2S | VectorLoad::I32x2U | VectorLoad::Splat64 | VectorLoad::Zero64 => 3,
        VectorLoad::Splat32 | VectorLoad::Zero32 => 2,
        VectorLoad::Splat16 => 1,
        VectorLoad::Splat8 => 0,
    }
}

/// A lane of a vector, and the access to a memory for it.
#[derive(Clone, Copy)]
struct LaneAccess {
    /// The binary logarithm of the number of bytes of the lane.
    log2_bytes: u32,
    access: Access,
    lane: u8,
}

/// Draws a lane, and an access to one of the memories for it. Returns `None` if there is no memory.
fn draw_lane_access(scope: &Scope<'_>, u: &mut Unstructured<'_>) -> Option<LaneAccess>
    requires scope { IsScope (bare scope.now) }
    ensures exact { lane_access_at scope.now.config.now scope.now.memories.now u.old
        ≡ (result, u.new) }
    ensures access { IfSome result (λ to.
        IsAccess scope.now.memories.now to.access.at to.access.wide) }
    ensures aligned { IfSome result (λ to. to.access.at.align ≤ to.log2_bytes) }
    ensures lane { IfSome result (λ to. IsLane to.log2_bytes to.lane) }
    ensures left { KeepsPieces u.old u.new }
{
    let log2_bytes = u.int_in_range(0..=3u32);
    let access = draw_access(scope, log2_bytes, u)?;
    let lane = u.int_in_range(0..=last_lane(log2_bytes));
    Some(LaneAccess {
        log2_bytes,
        access,
        lane,
    })
}

/// Returns the index of the last lane of `2 ^ log2_bytes` bytes.
fn last_lane(log2_bytes: u32) -> u8
    requires { log2_bytes ≤ 3 }
    ensures { result ≡ 2 ^ (4 - log2_bytes) - 1 }
{
    match log2_bytes {
        0 => 15,
        1 => 7,
        2 => 3,
        _ => 1,
    }
}

/// Chooses a load into a lane. Returns `None` if there is no memory.
pub(crate) fn choose_load_lane(
    alloc: Global,
    scope: &Scope<'_>,
    draft: &Draft,
    u: &mut Unstructured<'_>,
) -> Result<Option<Node>, Error>
    requires scope { IsScope (bare scope.now) }
    requires simd { IsTrue (bare scope.now).features.simd }
    ensures exact { IfOk result (λ chosen.
        load_lane_at scope.now.config.now scope.now.memories.now u.old ≡ (chosen, u.new)) }
    ensures offer { IsOffer (where_stands scope.now draft.now) draft.now.set.items
        (V128 ∷ []) result }
    ensures memory { IfErr result (λ e. e ≡ Error.Memory) }
    ensures left { KeepsPieces u.old u.new }
{
    let Some(to) = draw_lane_access(scope, u) else {
        return Ok(None);
    };
    let operands = [address(to.access.wide), ValType::V128];
    let instruction = Instr::VectorLoadLane {
        log2_bytes: to.log2_bytes,
        at: to.access.at,
        lane: to.lane,
    };
    let node = plain(alloc, &operands, instruction, 0)?;
    Ok(Some(node))
}

/// Chooses a store of a vector, or `nop` if there are no vectors or no memory.
pub fn choose_vector_store(
    alloc: Global,
    scope: &Scope<'_>,
    draft: &Draft,
    u: &mut Unstructured<'_>,
) -> Result<Node, Error>
    requires scope { IsScope (bare scope.now) }
    ensures exact { IfOk result (λ node.
        or_nop (vector_store_at scope.now.config.now (where_stands scope.now draft.now) u.old)
        ≡ (node, u.new)) }
    ensures node { IfOk result (IsNode (where_stands scope.now draft.now) draft.now.set.items []) }
    ensures memory { IfErr result (λ e. e ≡ Error.Memory) }
    ensures left { KeepsPieces u.old u.new }
{
    if !has_vectors(scope) {
        return plain(alloc, &[], Instr::Nop, 0);
    }
    let Some(access) = draw_access(scope, 4, u) else {
        return plain(alloc, &[], Instr::Nop, 0);
    };
    let operands = [address(access.wide), ValType::V128];
    plain(alloc, &operands, Instr::VectorStore(access.at), 0)
}

/// Chooses a store of a lane, or `nop` if there are no vectors or no memory.
pub fn choose_store_lane(
    alloc: Global,
    scope: &Scope<'_>,
    draft: &Draft,
    u: &mut Unstructured<'_>,
) -> Result<Node, Error>
    requires scope { IsScope (bare scope.now) }
    ensures exact { IfOk result (λ node.
        or_nop (store_lane_at scope.now.config.now (where_stands scope.now draft.now) u.old)
        ≡ (node, u.new)) }
    ensures node { IfOk result (IsNode (where_stands scope.now draft.now) draft.now.set.items []) }
    ensures memory { IfErr result (λ e. e ≡ Error.Memory) }
    ensures left { KeepsPieces u.old u.new }
{
    if !has_vectors(scope) {
        return plain(alloc, &[], Instr::Nop, 0);
    }
    let Some(from) = draw_lane_access(scope, u) else {
        return plain(alloc, &[], Instr::Nop, 0);
    };
    let operands = [address(from.access.wide), ValType::V128];
    let instruction = Instr::VectorStoreLane {
        log2_bytes: from.log2_bytes,
        at: from.access.at,
        lane: from.lane,
    };
    plain(alloc, &operands, instruction, 0)
}
