ghost use Rattle.std.specs.Prelude.{◌≡◌, ◌≤◌};
ghost use Rattle.smith_binary_read.specs.Readings.{Gives, bytes_at};
ghost use Rattle.smith_binary_read_instr.specs.VectorReadings.{
  on_lane,
  lane_instr_at,
  vector_load_of,
  vector_load_at,
  lane_access_at,
  low_vector_at,
  vector_instr_at,
};

use crate::memory::read_mem_arg;
use crate::vector_rows::vector_of;
use smith_binary_read::{ReadError, Reader, Reason};
use smith_instr::{Instr, LaneExtract, LaneShape, VectorInstr, VectorLoad};

// Returns the instruction of `number`, from 21 up to 34, on `lane`.
#[tactic(auto, unfolding(crate::specs::VectorReadings::on_lane))]
fn on_lane(number: u32, lane: u8) -> VectorInstr
    ensures { result ≡ on_lane number lane }
{
    match number {
        21 => VectorInstr::ExtractLane(LaneExtract::I8x16S, lane),
        22 => VectorInstr::ExtractLane(LaneExtract::I8x16U, lane),
        23 => VectorInstr::ReplaceLane(LaneShape::I8x16, lane),
        24 => VectorInstr::ExtractLane(LaneExtract::I16x8S, lane),
        25 => VectorInstr::ExtractLane(LaneExtract::I16x8U, lane),
        26 => VectorInstr::ReplaceLane(LaneShape::I16x8, lane),
        27 => VectorInstr::ExtractLane(LaneExtract::I32x4, lane),
        28 => VectorInstr::ReplaceLane(LaneShape::I32x4, lane),
        29 => VectorInstr::ExtractLane(LaneExtract::I64x2, lane),
        30 => VectorInstr::ReplaceLane(LaneShape::I64x2, lane),
        31 => VectorInstr::ExtractLane(LaneExtract::F32x4, lane),
        32 => VectorInstr::ReplaceLane(LaneShape::F32x4, lane),
        33 => VectorInstr::ExtractLane(LaneExtract::F64x2, lane),
        _ => VectorInstr::ReplaceLane(LaneShape::F64x2, lane),
    }
}

// Reads the lane of an instruction, whose number is from 21 up to 34.
#[tactic(auto, unfolding(crate::specs::VectorReadings::lane_instr_at))]
fn read_lane_instr(number: u32, reader: &mut Reader<'_>) -> Result<Instr, ReadError>
    ensures { Gives result reader.new (lane_instr_at number reader.old) }
{
    let lane = reader.read_lane()?;
    Ok(Instr::Vector(on_lane(number, lane)))
}

#[tactic(auto, unfolding(crate::specs::VectorReadings::vector_load_of))]
fn vector_load_of(number: u32) -> VectorLoad
    ensures { result ≡ vector_load_of number }
{
    match number {
        0 => VectorLoad::V128,
        1 => VectorLoad::I8x8S,
        2 => VectorLoad::I8x8U,
        3 => VectorLoad::I16x4S,
        4 => VectorLoad::I16x4U,
        5 => VectorLoad::I32x2S,
        6 => VectorLoad::I32x2U,
        7 => VectorLoad::Splat8,
        8 => VectorLoad::Splat16,
        9 => VectorLoad::Splat32,
        10 => VectorLoad::Splat64,
        92 => VectorLoad::Zero32,
        _ => VectorLoad::Zero64,
    }
}

// Reads the place of a load of a vector.
#[tactic(auto, unfolding(crate::specs::VectorReadings::vector_load_at))]
fn read_vector_load(number: u32, reader: &mut Reader<'_>) -> Result<Instr, ReadError>
    ensures { Gives result reader.new (vector_load_at number reader.old) }
{
    let at = read_mem_arg(reader)?;
    Ok(Instr::VectorLoad(vector_load_of(number), at))
}

// Reads the place and the lane of an access, whose number is from 84 up to 91.
#[tactic(auto, unfolding(crate::specs::VectorReadings::lane_access_at))]
fn read_lane_access(number: u32, reader: &mut Reader<'_>) -> Result<Instr, ReadError>
    requires { 84 ≤ number }
    ensures { Gives result reader.new (lane_access_at number reader.old) }
{
    if number < 88 {
        let at = read_mem_arg(reader)?;
        let lane = reader.read_lane()?;
        return Ok(Instr::VectorLoadLane {
            log2_bytes: number - 84,
            at,
            lane,
        });
    }
    let at = read_mem_arg(reader)?;
    let lane = reader.read_lane()?;
    Ok(Instr::VectorStoreLane {
        log2_bytes: number - 88,
        at,
        lane,
    })
}

// Reads the lanes of a shuffle, a byte each.
fn read_lanes(reader: &mut Reader<'_>) -> Result<[u8; 16], ReadError>
    ensures { Gives result reader.new (bytes_at 16 reader.old) }
{
    let bytes = reader.read_bytes(16)?;
    let mut lanes = [0; 16];
    lanes.copy_from_slice(bytes);
    Ok(lanes)
}

// Reads an instruction with immediates, whose number is at most 34.
#[tactic(auto, unfolding(crate::specs::VectorReadings::low_vector_at))]
fn read_low_vector(number: u32, reader: &mut Reader<'_>) -> Result<Instr, ReadError>
    ensures { Gives result reader.new (low_vector_at number reader.old) }
{
    if number < 11 {
        return read_vector_load(number, reader);
    }
    match number {
        11 => {
            let at = read_mem_arg(reader)?;
            Ok(Instr::VectorStore(at))
        }
        12 => Ok(Instr::V128Const(reader.read_vector()?)),
        13 => {
            let lanes = read_lanes(reader)?;
            Ok(Instr::Vector(VectorInstr::Shuffle(lanes)))
        }
        _ => read_lane_instr(number, reader),
    }
}

// Reads an instruction after the byte 0xFD (Vector Instructions).
#[tactic(auto, unfolding(crate::specs::VectorReadings::vector_instr_at))]
#[inline(always)]
pub(crate) fn read_vector(reader: &mut Reader<'_>) -> Result<Instr, ReadError>
    ensures { Gives result reader.new (vector_instr_at reader.old) }
{
    let unknown = reader.fault(Reason::UnknownByte);
    let number = reader.read_u32()?;
    if let Some(op) = vector_of(number) {
        return Ok(Instr::Vector(op));
    }
    if number < 35 {
        return read_low_vector(number, reader);
    }
    if number < 84 {
        return Err(unknown);
    }
    if number < 92 {
        return read_lane_access(number, reader);
    }
    if number < 94 {
        return read_vector_load(number, reader);
    }
    Err(unknown)
}
