ghost use Rattle.std.specs.Prelude.{◌≡◌};
ghost use Rattle.smith_binary_sections.specs.Exports.{kind_byte, IsExportIn};
ghost use Rattle.smith_binary.specs.declared.error.EncodeError.TheVariants.{Memory};
ghost use Rattle.smith_binary.specs.Faults.{IsFault};
ghost use Rattle.smith_binary_sections.specs.Long.{IsLongExport};

use crate::lists::Encode;
use smith_binary::{EncodeError, Sink};
use smith_types::{ExportKind, Name};

// Returns the byte of `kind`.
fn kind_byte(kind: ExportKind) -> u8
    ensures { result ≡ kind_byte kind }
{
    match kind {
        ExportKind::Func => 0x00,
        ExportKind::Table => 0x01,
        ExportKind::Memory => 0x02,
        ExportKind::Global => 0x03,
        ExportKind::Tag => 0x04,
    }
}

impl Encode for (Name, ExportKind, u32) {
    ghost spells = { IsExportIn };

    ghost is_long = { IsLongExport };

    fn encode(&self, sink: &mut Sink) -> Result<(), EncodeError> {
        sink.write_name(self.0.as_str())?;
        sink.write_byte(kind_byte(self.1))?;
        sink.write_u32(self.2)
    }
}
