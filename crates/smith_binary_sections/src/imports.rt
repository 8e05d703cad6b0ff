ghost use Rattle.std.specs.Prelude.{ℕ, List, OnOk, IfErr};
ghost use Rattle.smith_binary.specs.Faults.{IsFault};
ghost use Rattle.smith_binary.specs.Pieces.{Writes, IsNameIn};
ghost use Rattle.smith_binary_sections.specs.Imports.{IsGroupHeadIn, IsImportGroupIn, IsImportIn};
ghost use Rattle.smith_binary_sections.specs.Imports.{IsImportItemIn};
ghost use Rattle.smith_binary_sections.specs.Long.{IsLongText, IsLongImport, IsLongImportItem};
ghost use Rattle.smith_binary_sections.specs.Long.{IsLongImportGroup};

use crate::lists::{Encode, write_list};
use smith_binary::{EncodeError, Sink};
use smith_types::{Import, ImportItem, Imports, Name};

impl Encode for Name {
    ghost spells = { IsNameIn };

    ghost is_long = { IsLongText };

    fn encode(&self, sink: &mut Sink) -> Result<(), EncodeError> {
        sink.write_name(self.as_str())
    }
}

impl Encode for Import {
    ghost spells = { IsImportIn };

    ghost is_long = { IsLongImport };

    fn encode(&self, sink: &mut Sink) -> Result<(), EncodeError> {
        self.module.encode(sink)?;
        self.name.encode(sink)?;
        self.entity_type.encode(sink)
    }
}

impl Encode for ImportItem {
    ghost spells = { IsImportItemIn };

    ghost is_long = { IsLongImportItem };

    fn encode(&self, sink: &mut Sink) -> Result<(), EncodeError> {
        self.name.encode(sink)?;
        self.entity_type.encode(sink)
    }
}

// Writes the head of a group of imports from the module `from`, with the byte of its form.
fn write_group_head(from: &Name, byte: u8, sink: &mut Sink) -> Result<(), EncodeError>
    ensures writes { OnOk result (Writes (λ s. IsGroupHeadIn s from.now byte) sink.old sink.new) }
    ensures fault { IfErr result (IsFault (IsLongText from.now)) }
{
    from.encode(sink)?;
    sink.write_name("")?;
    sink.write_byte(byte)
}

impl Encode for Imports {
    ghost spells = { IsImportGroupIn };

    ghost is_long = { IsLongImportGroup };

    fn encode(&self, sink: &mut Sink) -> Result<(), EncodeError> {
        match self {
            Imports::Single(import) => import.encode(sink),
            Imports::Compact1 { module, items } => {
                write_group_head(module, 0x7F, sink)?;
                write_list(items.as_slice(), sink)
            }
            Imports::Compact2 {
                module,
                entity_type,
                names,
            } => {
                write_group_head(module, 0x7E, sink)?;
                entity_type.encode(sink)?;
                write_list(names.as_slice(), sink)
            }
        }
    }
}
