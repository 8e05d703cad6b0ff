ghost use Rattle.std.specs.Prelude.{◌≡◌, ◌≤◌, ◌<◌, ◌^◌, ◌⊎◌, OnOk, IfErr};
ghost use Rattle.smith_binary.specs.declared.error.EncodeError.TheVariants.{Memory as OutOfMemory};
ghost use Rattle.smith_binary.specs.Faults.{IsFault};
ghost use Rattle.smith_binary.specs.Pieces.{IsByte, Joined, Writes};
ghost use Rattle.smith_binary_sections.specs.Instructions.{IsPrefixedIn};
ghost use Rattle.smith_binary_instr.specs.Memory.{load_opcode, store_opcode, vector_load_number};
ghost use Rattle.smith_binary_instr.specs.Memory.{IsLaneAccessWrittenIn, IsMemArgWrittenIn};
ghost use Rattle.smith_binary_instr.specs.Memory.{IsMemoryIn};

use crate::opcodes::{write_indexed, write_prefixed_index, write_prefixed_indices};
use crate::prefix::write_prefixed;
use smith_binary::{EncodeError, Sink};
use smith_instr::{Load, MemArg, MemoryInstr, Store, VectorLoad};

// Writes `at`, with the index of the memory unless it is 0.
fn write_mem_arg(at: MemArg, sink: &mut Sink) -> Result<(), EncodeError>
    ensures writes { OnOk result (Writes (λ s. IsMemArgWrittenIn s at) sink.old sink.new) }
    ensures fault { IfErr result (IsFault (2 ^ 6 ≤ at.align)) }
{
    if at.align >= 64 {
        return Err(EncodeError::TooLong);
    }
    if at.memory == 0 {
        sink.write_u32(at.align)?;
        return sink.write_u64(at.offset);
    }
    sink.write_u32(at.align + 64)?;
    sink.write_u32(at.memory)?;
    sink.write_u64(at.offset)
}

// Writes the access to memory with the opcode `opcode`.
pub(crate) fn write_access(opcode: u8, at: MemArg, sink: &mut Sink) -> Result<(), EncodeError>
    ensures writes { OnOk result
        (Writes (λ s. Joined (IsByte opcode) (IsMemArgWrittenIn s at)) sink.old sink.new) }
    ensures fault { IfErr result (IsFault (2 ^ 6 ≤ at.align)) }
{
    sink.write_byte(opcode)?;
    write_mem_arg(at, sink)
}

// Writes the access to memory with the prefix `prefix` and the number `number`.
pub(crate) fn write_prefixed_access(
    prefix: u8,
    number: u32,
    at: MemArg,
    sink: &mut Sink,
) -> Result<(), EncodeError>
    ensures writes { OnOk result
        (Writes (λ s. Joined (IsPrefixedIn s prefix number) (IsMemArgWrittenIn s at)) sink.old sink.new) }
    ensures fault { IfErr result (IsFault (2 ^ 6 ≤ at.align)) }
{
    write_prefixed(prefix, number, sink)?;
    write_mem_arg(at, sink)
}

// Writes the access to the lane `lane` of `2 ^ log2_bytes` bytes. `first` is the number of the
// access to a lane of one byte.
pub(crate) fn write_lane_access(
    first: u32,
    log2_bytes: u32,
    at: MemArg,
    lane: u8,
    sink: &mut Sink,
) -> Result<(), EncodeError>
    requires { first < 200 }
    ensures writes { OnOk result
        (Writes (λ s. IsLaneAccessWrittenIn s first log2_bytes at lane) sink.old sink.new) }
    ensures fault { IfErr result (IsFault ((4 ≤ log2_bytes) ⊎ (2 ^ 6 ≤ at.align))) }
{
    if log2_bytes >= 4 {
        return Err(EncodeError::TooLong);
    }
    write_prefixed(0xFD, first + log2_bytes, sink)?;
    write_mem_arg(at, sink)?;
    sink.write_byte(lane)
}

// Returns the opcode of a load.
pub(crate) fn load_opcode(op: Load) -> u8
    ensures { result ≡ load_opcode op }
{
    op as u8
}

// Returns the opcode of a store.
pub(crate) fn store_opcode(op: Store) -> u8
    ensures { result ≡ store_opcode op }
{
    op as u8
}

// Returns the number of a load of a vector, after its prefix.
pub(crate) fn vector_load_number(op: VectorLoad) -> u32
    ensures { result ≡ vector_load_number op }
{
    op as u32
}

// Writes the instruction `instruction` on a whole memory or a data segment.
pub(crate) fn write_memory(instruction: MemoryInstr, sink: &mut Sink) -> Result<(), EncodeError>
    ensures writes { OnOk result (Writes (λ s. IsMemoryIn s instruction) sink.old sink.new) }
    ensures memory { IfErr result (λ e. e ≡ OutOfMemory) }
{
    match instruction {
        MemoryInstr::Size(memory) => write_indexed(0x3F, memory, sink),
        MemoryInstr::Grow(memory) => write_indexed(0x40, memory, sink),
        MemoryInstr::Init { memory, segment } => {
            write_prefixed_indices(0xFC, 8, segment, memory, sink)
        }
        MemoryInstr::DataDrop(segment) => write_prefixed_index(0xFC, 9, segment, sink),
        MemoryInstr::Copy { to, from } => write_prefixed_indices(0xFC, 10, to, from, sink),
        MemoryInstr::Fill(memory) => write_prefixed_index(0xFC, 11, memory, sink),
    }
}
