ghost use Rattle.std.specs.Prelude.{◌≡◌};
ghost use Rattle.smith_binary_read.specs.Readings.{Gives};
ghost use Rattle.smith_binary_read.specs.Choices.{item_of};
ghost use Rattle.smith_binary_read_instr.specs.ReferenceReadings.{reference_rows, reference_at};

use smith_binary_read::{Decode, ReadError, Reader, Reason};
use smith_instr::{Instr, ReferenceInstr};
use smith_types::HeapType;

// Returns the instruction of the one byte `byte`.
fn plain_reference_of(byte: u8) -> Option<Instr>
    ensures { result ≡ item_of reference_rows byte }
{
    match byte {
        0xD1 => Some(Instr::Reference(ReferenceInstr::IsNull)),
        0xD3 => Some(Instr::Reference(ReferenceInstr::Eq)),
        0xD4 => Some(Instr::Reference(ReferenceInstr::AsNonNull)),
        _ => None,
    }
}

// Reads an instruction on references, from 0xC5 up to 0xFA (Reference Instructions, Control
// Instructions).
#[tactic(auto, unfolding(crate::specs::ReferenceReadings::reference_at))]
#[inline(always)]
pub(crate) fn read_reference(reader: &mut Reader<'_>) -> Result<Instr, ReadError>
    ensures { Gives result reader.new (reference_at reader.old) }
{
    let unknown = reader.fault(Reason::UnknownByte);
    let byte = reader.read_byte()?;
    if let Some(instruction) = plain_reference_of(byte) {
        return Ok(instruction);
    }
    match byte {
        0xD0 => {
            let heap = HeapType::decode(reader)?;
            Ok(Instr::Reference(ReferenceInstr::Null(heap)))
        }
        0xD2 => Ok(Instr::Reference(ReferenceInstr::Func(reader.read_u32()?))),
        0xD5 => Ok(Instr::BrOnNull(reader.read_u32()?)),
        0xD6 => Ok(Instr::BrOnNonNull(reader.read_u32()?)),
        _ => Err(unknown),
    }
}
