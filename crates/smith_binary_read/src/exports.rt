ghost use Rattle.std.specs.Prelude.{◌≡◌};
ghost use Rattle.smith_binary_read.specs.Readings.{Gives};
ghost use Rattle.smith_binary_read.specs.EntityReadings.{kind_at};

use crate::error::{ReadError, Reason};
use crate::lists::Decode;
use crate::reader::Reader;
use smith_types::{ExportKind, Name};

/// An export (Export Section).
#[derive(Debug, Drop)]
pub struct Export {
    /// The name of the export.
    pub name: Name,
    /// The index space of the exported entity.
    pub kind: ExportKind,
    /// The index of the exported entity.
    pub index: u32,
}

// Reads the index space of an export.
#[tactic(auto, unfolding(crate::specs::EntityReadings::kind_at))]
fn read_kind(reader: &mut Reader<'_>) -> Result<ExportKind, ReadError>
    ensures { Gives result reader.new (kind_at reader.old) }
{
    let unknown = reader.fault(Reason::UnknownByte);
    let byte = reader.read_byte()?;
    match byte {
        0 => Ok(ExportKind::Func),
        1 => Ok(ExportKind::Table),
        2 => Ok(ExportKind::Memory),
        3 => Ok(ExportKind::Global),
        4 => Ok(ExportKind::Tag),
        _ => Err(unknown),
    }
}

impl Decode for Export {
    ghost use Rattle.smith_binary_read.specs.EntityReadings.{export_at};

    ghost reading = { export_at };

    #[tactic(auto, unfolding(crate::specs::EntityReadings::export_at))]
    fn decode(reader: &mut Reader<'_>) -> Result<Export, ReadError> {
        let name = Name::decode(reader)?;
        let kind = read_kind(reader)?;
        let index = reader.read_u32()?;
        Ok(Export { name, kind, index })
    }
}
