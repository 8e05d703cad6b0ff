ghost use Rattle.std.specs.Prelude.{◌≡◌, Option, Some, None, unwrap_or, List, IfErr};
ghost use Rattle.smith_binary.specs.declared.error.EncodeError.TheVariants.{Memory as OutOfMemory};
ghost use Rattle.smith_binary.specs.Faults.{IsFault};
ghost use Rattle.smith_binary_sections.specs.Entities.{IsTagTypeIn};
ghost use Rattle.smith_binary_sections.specs.Definitions.{initialised_global, IsGlobalIn};
ghost use Rattle.smith_binary_sections.specs.Definitions.{IsTableWrittenIn};
ghost use Rattle.smith_binary_sections.specs.Long.{IsNeverLong};

use crate::entities::write_tag_type;
use crate::lists::{Encode, EncodeItem, EncodePair};
use smith_binary::{EncodeError, Sink};
use smith_types::{ConstInstr, GlobalType, Items, TableType};

/// A writer of a table, by its type and its initialiser. A table without an initialiser is written
/// as its type alone.
#[derive(Clone, Copy)]
pub struct Tables;

impl EncodePair<TableType, Option<Items<ConstInstr>>> for Tables {
    ghost spells = { λ s _ table. IsTableWrittenIn s table };

    fn encode_pair(
        &self,
        first: &TableType,
        second: &Option<Items<ConstInstr>>,
        sink: &mut Sink,
    ) -> Result<(), EncodeError> {
        match second {
            None => first.encode(sink),
            Some(expression) => {
                sink.write_bytes(&[0x40, 0x00])?;
                first.encode(sink)?;
                expression.encode(sink)
            }
        }
    }
}

/// A writer of a global, by its type and its definition.
#[derive(Clone, Copy)]
pub struct Globals;

impl EncodePair<GlobalType, (u32, Items<ConstInstr>)> for Globals {
    ghost spells = { λ s _ global. IsGlobalIn s (initialised_global global) };

    fn encode_pair(
        &self,
        first: &GlobalType,
        second: &(u32, Items<ConstInstr>),
        sink: &mut Sink,
    ) -> Result<(), EncodeError> {
        first.encode(sink)?;
        second.1.encode(sink)
    }
}

/// A writer of a tag, by the index of its function type.
#[derive(Clone, Copy)]
pub struct Tags;

impl EncodeItem<u32> for Tags {
    ghost spells = { λ s _ index. IsTagTypeIn s index };

    ghost is_long = { λ _. IsNeverLong };

    fn encode_item(&self, item: &u32, sink: &mut Sink) -> Result<(), EncodeError> {
        write_tag_type(*item, sink)
    }
}
