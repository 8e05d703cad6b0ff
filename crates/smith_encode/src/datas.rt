ghost use Rattle.std.specs.Prelude.{◌≡◌, ◌⊎◌, true, OnOk, IfErr};
ghost use Rattle.smith_binary.specs.Faults.{IsFault};
ghost use Rattle.smith_binary.specs.Pieces.{IsByte, IsList, Writes};
ghost use Rattle.smith_binary_sections.specs.Long.{IsLongText};
ghost use Rattle.smith_decode.specs.declared.data.DataMode.TheVariants as mode;
ghost use Rattle.smith_decode.specs.DataReadings.{segment, IsSegment};
ghost use Rattle.smith_encode.specs.Nesting.{is_nested};
ghost use Rattle.smith_encode.specs.Spelled.{IfPasses, is_data_nested};
ghost use Rattle.smith_encode.specs.TooLong.{IsLongData, IsLongExpr};

use crate::items::Decoded;
use smith_binary::{EncodeError, Sink};
use smith_binary_sections::EncodeItem;
use smith_decode::{DataMode, DataSegment};
use smith_instr::Instr;
use smith_types::Items;

// Writes the number of `bytes`, then the bytes.
fn write_byte_list(bytes: &[u8], sink: &mut Sink) -> Result<(), EncodeError>
    ensures writes { OnOk result (Writes (λ _. IsList IsByte bytes.now) sink.old sink.new) }
    ensures fault { IfErr result (IsFault (IsLongText bytes.now)) }
{
    sink.write_length(bytes.len())?;
    sink.write_bytes(bytes)
}

// Writes a segment of `bytes` that is copied into `memory`, with the index of the memory unless it
// is 0.
fn write_active(
    memory: u32,
    offset: &Items<Instr>,
    bytes: &[u8],
    sink: &mut Sink,
) -> Result<(), EncodeError>
    ensures writes { OnOk result (Writes (λ _ piece. is_nested offset.now ≡ true
        → IsSegment (segment (mode.Active memory offset.now) bytes.now) piece) sink.old sink.new) }
    ensures fault { IfErr result (IsFault (IsLongExpr offset.now ⊎ IsLongText bytes.now)) }
{
    if memory == 0 {
        sink.write_u32(0)?;
        Decoded.encode_item(offset, sink)?;
        return write_byte_list(bytes, sink);
    }
    sink.write_u32(2)?;
    sink.write_u32(memory)?;
    Decoded.encode_item(offset, sink)?;
    write_byte_list(bytes, sink)
}

impl EncodeItem<DataSegment> for Decoded {
    ghost spells = { λ _ _ segment. IfPasses is_data_nested IsSegment segment };

    ghost is_long = { λ _. IsLongData };

    fn encode_item(&self, item: &DataSegment, sink: &mut Sink) -> Result<(), EncodeError> {
        let bytes = item.bytes.as_slice();
        match &item.mode {
            DataMode::Passive => {
                sink.write_u32(1)?;
                write_byte_list(bytes, sink)
            }
            DataMode::Active { memory, offset } => write_active(*memory, offset, bytes, sink),
        }
    }
}
