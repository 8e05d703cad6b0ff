use crate::edit::Edit;
use crate::facts::Facts;
use smith_bytes::Unstructured;
use smith_instr::{
    AtomicAccess, AtomicWidth, Instr, LaneExtract, LaneShape, MemArg, VectorInstr, VectorLoad,
};

// The number of addresses of a 32-bit memory.
const ADDRESSES: u64 = 1 << 32;

// Returns the binary logarithm of the number of bytes of an access.
fn vector_log2(op: VectorLoad) -> u32 {
    match op {
        VectorLoad::V128 => 4,
        VectorLoad::Splat8 => 0,
        VectorLoad::Splat16 => 1,
        VectorLoad::Splat32 | VectorLoad::Zero32 => 2,
        _ => 3,
    }
}

// Returns the binary logarithm of the number of bytes of an access.
fn width_log2(width: AtomicWidth) -> u32 {
    match width {
        AtomicWidth::I32Of8 | AtomicWidth::I64Of8 => 0,
        AtomicWidth::I32Of16 | AtomicWidth::I64Of16 => 1,
        AtomicWidth::I32 | AtomicWidth::I64Of32 => 2,
        AtomicWidth::I64 => 3,
    }
}

// Returns the binary logarithm of the number of bytes of an access.
fn atomic_log2(access: AtomicAccess) -> u32 {
    match access {
        AtomicAccess::Notify | AtomicAccess::Wait32 => 2,
        AtomicAccess::Wait64 => 3,
        AtomicAccess::Load(width) | AtomicAccess::Store(width) => width_log2(width),
        AtomicAccess::Update(_, width) => width_log2(width),
        AtomicAccess::CompareExchange(width) => width_log2(width),
    }
}

// Returns the place of the access of `instruction`, and the binary logarithm of its bytes.
fn access_of(instruction: &Instr) -> Option<(MemArg, u32)> {
    match instruction {
        Instr::Load(op, at) => Some((*at, op.log2_bytes())),
        Instr::Store(op, at) => Some((*at, op.log2_bytes())),
        Instr::VectorLoad(op, at) => Some((*at, vector_log2(*op))),
        Instr::VectorStore(at) => Some((*at, 4)),
        Instr::VectorLoadLane { log2_bytes, at, .. } => Some((*at, *log2_bytes)),
        Instr::VectorStoreLane { log2_bytes, at, .. } => Some((*at, *log2_bytes)),
        Instr::Atomic(access, at) => Some((*at, atomic_log2(*access))),
        _ => None,
    }
}

// Returns `instruction`, an access, at the place `at`.
#[rattlefmt::skip]
fn with_place(instruction: &Instr, at: MemArg) -> Option<Instr> {
    match instruction {
        Instr::Load(op, _) => Some(Instr::Load(*op, at)),
        Instr::Store(op, _) => Some(Instr::Store(*op, at)),
        Instr::VectorLoad(op, _) => Some(Instr::VectorLoad(*op, at)),
        Instr::VectorStore(_) => Some(Instr::VectorStore(at)),
        Instr::VectorLoadLane { log2_bytes, lane, .. } => Some(Instr::VectorLoadLane { log2_bytes: *log2_bytes, at, lane: *lane }),
        Instr::VectorStoreLane { log2_bytes, lane, .. } => Some(Instr::VectorStoreLane { log2_bytes: *log2_bytes, at, lane: *lane }),
        Instr::Atomic(access, _) => Some(Instr::Atomic(*access, at)),
        _ => None,
    }
}

/// Draws an alignment above the natural one of an access.
pub(crate) fn misalign(instruction: &Instr, u: &mut Unstructured<'_>) -> Option<Edit<Instr>> {
    let (at, natural) = access_of(instruction)?;
    let align = natural.saturating_add(u.int_in_range(1u32..=3));
    let changed = with_place(
        instruction,
        MemArg {
            align,
            offset: at.offset,
            memory: at.memory,
        },
    )?;
    Some(Edit::Replace(changed))
}

/// Draws an offset past the addresses of the memory of an access, if it is one of 32 bits.
pub(crate) fn change_offset(
    facts: &Facts<'_>,
    instruction: &Instr,
    u: &mut Unstructured<'_>,
) -> Option<Edit<Instr>> {
    let (at, _) = access_of(instruction)?;
    let memory = facts.spaces.memories.as_slice().get(at.memory as usize)?;
    if memory.memory64 {
        return None;
    }
    let changed = with_place(
        instruction,
        MemArg {
            align: at.align,
            offset: u.int_in_range(ADDRESSES..=u64::MAX),
            memory: at.memory,
        },
    )?;
    Some(Edit::Replace(changed))
}

// Returns the number of lanes.
fn lanes(shape: LaneShape) -> u8 {
    match shape {
        LaneShape::I8x16 => 16,
        LaneShape::I16x8 => 8,
        LaneShape::I32x4 | LaneShape::F32x4 => 4,
        LaneShape::I64x2 | LaneShape::F64x2 => 2,
    }
}

// Returns the number of lanes.
fn extract_lanes(extract: LaneExtract) -> u8 {
    match extract {
        LaneExtract::I8x16S | LaneExtract::I8x16U => 16,
        LaneExtract::I16x8S | LaneExtract::I16x8U => 8,
        LaneExtract::I32x4 | LaneExtract::F32x4 => 4,
        LaneExtract::I64x2 | LaneExtract::F64x2 => 2,
    }
}

// Returns the number of lanes of so many bytes, given by the binary logarithm.
fn lanes_of(log2_bytes: u32) -> u8 {
    match log2_bytes {
        0 => 16,
        1 => 8,
        2 => 4,
        _ => 2,
    }
}

// Draws a lane past the last one.
fn past(count: u8, u: &mut Unstructured<'_>) -> u8 {
    u.int_in_range(count..=u8::MAX)
}

// Draws lanes of which the first is past the last one of both operands.
fn past_shuffle(lanes: [u8; 16], u: &mut Unstructured<'_>) -> [u8; 16] {
    let mut changed = lanes;
    changed[0] = past(32, u);
    changed
}

/// Draws a lane past the last one.
pub(crate) fn change_lane(instruction: &Instr, u: &mut Unstructured<'_>) -> Option<Edit<Instr>> {
    let changed = match instruction {
        Instr::Vector(VectorInstr::ExtractLane(op, _)) => {
            Instr::Vector(VectorInstr::ExtractLane(*op, past(extract_lanes(*op), u)))
        }
        Instr::Vector(VectorInstr::ReplaceLane(shape, _)) => {
            Instr::Vector(VectorInstr::ReplaceLane(*shape, past(lanes(*shape), u)))
        }
        Instr::Vector(VectorInstr::Shuffle(lanes)) => {
            Instr::Vector(VectorInstr::Shuffle(past_shuffle(*lanes, u)))
        }
        Instr::VectorLoadLane { log2_bytes, at, .. } => Instr::VectorLoadLane {
            log2_bytes: *log2_bytes,
            at: *at,
            lane: past(lanes_of(*log2_bytes), u),
        },
        Instr::VectorStoreLane { log2_bytes, at, .. } => Instr::VectorStoreLane {
            log2_bytes: *log2_bytes,
            at: *at,
            lane: past(lanes_of(*log2_bytes), u),
        },
        _ => return None,
    };
    Some(Edit::Replace(changed))
}
