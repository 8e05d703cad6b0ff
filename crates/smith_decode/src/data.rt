ghost use Rattle.smith_binary_read.specs.Readings.{Gives};
ghost use Rattle.smith_binary_read.specs.Contents.{content_at};
ghost use Rattle.smith_decode.specs.DataReadings.{placed_at};

use smith_binary_read::{Decode, ReadError, Reader, Reason};
use smith_binary_read_instr::read_expr;
use smith_instr::Instr;
use smith_types::Items;

/// The mode of a data segment: its effect at instantiation (Data Section).
#[derive(Debug, Drop)]
pub enum DataMode {
    /// Keeps the segment for instructions that refer to it.
    Passive,
    /// Copies the bytes into the memory `memory`, from the byte on whose address is the value of
    /// `offset`.
    Active { memory: u32, offset: Items<Instr> },
}

/// A data segment, with any expression as its offset (Data Section).
#[derive(Debug, Drop)]
pub struct DataSegment {
    /// The mode of the segment.
    pub mode: DataMode,
    /// The bytes.
    pub bytes: Items<u8>,
}

// Reads bytes after their number.
fn read_bytes(reader: &mut Reader<'_>) -> Result<Items<u8>, ReadError>
    ensures { Gives result reader.new (content_at reader.old) }
{
    let content = reader.read_content()?;
    Ok(Items::from_vec(Vec::from_slice(reader.alloc(), content)?))
}

// Reads an offset, then bytes.
fn read_placed(reader: &mut Reader<'_>) -> Result<(Items<Instr>, Items<u8>), ReadError>
    ensures { Gives result reader.new (placed_at reader.old) }
{
    let offset = read_expr(reader)?;
    let bytes = read_bytes(reader)?;
    Ok((offset, bytes))
}

impl Decode for DataSegment {
    ghost use Rattle.smith_decode.specs.DataReadings.{segment_at};

    ghost reading = { segment_at };

    #[tactic(auto, unfolding(crate::specs::DataReadings::segment_at))]
    fn decode(reader: &mut Reader<'_>) -> Result<DataSegment, ReadError> {
        let unknown = reader.fault(Reason::UnknownByte);
        let form = reader.read_u32()?;
        match form {
            0 => {
                let (offset, bytes) = read_placed(reader)?;
                let mode = DataMode::Active { memory: 0, offset };
                Ok(DataSegment { mode, bytes })
            }
            1 => {
                let bytes = read_bytes(reader)?;
                let mode = DataMode::Passive;
                Ok(DataSegment { mode, bytes })
            }
            2 => {
                let memory = reader.read_u32()?;
                let (offset, bytes) = read_placed(reader)?;
                let mode = DataMode::Active { memory, offset };
                Ok(DataSegment { mode, bytes })
            }
            _ => Err(unknown),
        }
    }
}
