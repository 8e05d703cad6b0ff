ghost use Rattle.std.specs.Prelude.{◌≡◌, ◌≤◌, ◌^◌, ℕ, List, length, OnOk, IfErr};
ghost use Rattle.smith_binary.specs.Faults.{IsFault};
ghost use Rattle.smith_binary.specs.Pieces.{IsByte, Writes, IsListIn};
ghost use Rattle.smith_binary_sections.specs.Instructions.{offset_of};
ghost use Rattle.smith_binary_sections.specs.Data.{active_data_form, data_of, IsDataFormIn};
ghost use Rattle.smith_binary_sections.specs.Data.{IsDataWrittenIn};
ghost use Rattle.smith_binary_sections.specs.Data.DataMode.{active};
ghost use Rattle.smith_binary_sections.specs.Long.{IsLongData};

use crate::lists::Encode;
use smith_binary::{EncodeError, Sink};
use smith_types::{DataSegment, DataSegmentKind, Offset};

// Writes the number of `bytes`, then the bytes.
fn write_byte_list(bytes: &[u8], sink: &mut Sink) -> Result<(), EncodeError>
    ensures writes { OnOk result (Writes (λ s. IsListIn s IsByte bytes.now) sink.old sink.new) }
    ensures fault { IfErr result (IsFault (2 ^ 32 ≤ length bytes.now)) }
{
    sink.write_length(bytes.len())?;
    sink.write_bytes(bytes)
}

// Writes a segment that copies `bytes` into a memory, with the index of the memory unless it is 0.
fn write_active_data(
    memory: u32,
    offset: Offset,
    bytes: &[u8],
    sink: &mut Sink,
) -> Result<(), EncodeError>
    ensures writes { OnOk result (Writes (λ s. IsDataFormIn s (active_data_form memory)
        (record { bytes = bytes.now; mode = active memory (offset_of offset) }))
        sink.old sink.new) }
    ensures fault { IfErr result (IsFault (2 ^ 32 ≤ length bytes.now)) }
{
    if memory == 0 {
        sink.write_u32(0)?;
        offset.encode(sink)?;
        return write_byte_list(bytes, sink);
    }
    sink.write_u32(2)?;
    sink.write_u32(memory)?;
    offset.encode(sink)?;
    write_byte_list(bytes, sink)
}

impl Encode for DataSegment {
    ghost spells = { IsDataWrittenIn };

    ghost is_long = { λ segment. IsLongData (data_of segment) };

    fn encode(&self, sink: &mut Sink) -> Result<(), EncodeError> {
        let bytes = self.init.as_slice();
        match self.kind {
            DataSegmentKind::Passive => {
                sink.write_u32(1)?;
                write_byte_list(bytes, sink)
            }
            DataSegmentKind::Active {
                memory_index,
                offset,
            } => write_active_data(memory_index, offset, bytes, sink),
        }
    }
}
