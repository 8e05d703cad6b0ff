ghost use Rattle.std.specs.Prelude.{◌≡◌, IsTrue, ◌↔◌};
ghost use Rattle.smith_binary_sections.specs.Exports.{kind_byte};
ghost use Rattle.smith_binary_sections.specs.Long.{IsNeverLong};
ghost use Rattle.smith_binary_read.specs.EntityReadings.{IsExportItem};
ghost use Rattle.smith_binary_read.specs.TagReadings.{IsTagDefinition};
ghost use Rattle.smith_binary_read_instr.specs.Expressions.{IsNestedExpr};
ghost use Rattle.smith_decode.specs.Definitions.{null_of};
ghost use Rattle.smith_decode.specs.DefinitionReadings.{IsGlobalDefinition, IsTableDefinition};
ghost use Rattle.smith_decode.specs.BodyReadings.{IsLocalRun, IsRunBody};
ghost use Rattle.smith_encode.specs.Nesting.{is_nested};
ghost use Rattle.smith_encode.specs.Spelled.{IfPasses, is_table_nested, is_global_nested};
ghost use Rattle.smith_encode.specs.Spelled.{is_body_spelled};
ghost use Rattle.smith_encode.specs.TooLong.{IsLongBody, IsLongExport, IsLongExpr, IsLongGlobal};
ghost use Rattle.smith_encode.specs.TooLong.{IsLongTable};

use smith_binary::{EncodeError, Sink};
use smith_binary_instr::encode_expr;
use smith_binary_read::{Export, TagDefinition};
use smith_binary_sections::{Encode, EncodeItem, Listed, Tags};
use smith_decode::{Body, GlobalDefinition, LocalRun, TableDefinition};
use smith_instr::{Instr, ReferenceInstr};
use smith_types::{ExportKind, Items, is_same};

/// A writer of the items of a decoded module. Callers check that an item has a spelling: an
/// expression in which a block doesn't end has none, and the bytes written for it mean nothing.
#[derive(Clone, Copy)]
pub(crate) struct Decoded;

impl EncodeItem<Items<Instr>> for Decoded {
    ghost spells = { λ _ _ instructions. IfPasses is_nested IsNestedExpr instructions };

    ghost is_long = { λ _. IsLongExpr };

    fn encode_item(&self, item: &Items<Instr>, sink: &mut Sink) -> Result<(), EncodeError> {
        encode_expr(sink, item.as_slice())
    }
}

// Returns whether each element of `table` is initially the null reference of its type.
fn is_null(table: &TableDefinition) -> bool
    ensures { IsTrue result ↔ (table.now.initial ≡ null_of table.now.ty.element_type) }
{
    match table.initial.as_slice() {
        [Instr::Reference(ReferenceInstr::Null(heap_type))] => {
            is_same(heap_type, &table.ty.element_type.heap_type)
        }
        _ => false,
    }
}

impl EncodeItem<TableDefinition> for Decoded {
    ghost spells = { λ _ _ table. IfPasses is_table_nested IsTableDefinition table };

    ghost is_long = { λ _. IsLongTable };

    fn encode_item(&self, item: &TableDefinition, sink: &mut Sink) -> Result<(), EncodeError> {
        if is_null(item) {
            return item.ty.encode(sink);
        }
        sink.write_bytes(&[0x40, 0x00])?;
        item.ty.encode(sink)?;
        self.encode_item(&item.initial, sink)
    }
}

impl EncodeItem<TagDefinition> for Decoded {
    ghost spells = { λ _ _ tag. IsTagDefinition tag };

    ghost is_long = { λ _. IsNeverLong };

    fn encode_item(&self, item: &TagDefinition, sink: &mut Sink) -> Result<(), EncodeError> {
        Tags.encode_item(&item.0, sink)
    }
}

impl EncodeItem<GlobalDefinition> for Decoded {
    ghost spells = { λ _ _ global. IfPasses is_global_nested IsGlobalDefinition global };

    ghost is_long = { λ _. IsLongGlobal };

    fn encode_item(&self, item: &GlobalDefinition, sink: &mut Sink) -> Result<(), EncodeError> {
        item.ty.encode(sink)?;
        self.encode_item(&item.initial, sink)
    }
}

// Returns the byte of `kind`.
fn kind_byte(kind: ExportKind) -> u8
    ensures { result ≡ kind_byte kind }
{
    match kind {
        ExportKind::Func => 0x00,
        ExportKind::Table => 0x01,
        ExportKind::Memory => 0x02,
        ExportKind::Global => 0x03,
        ExportKind::Tag => 0x04,
    }
}

impl EncodeItem<Export> for Decoded {
    ghost spells = { λ _ _ export. IsExportItem export };

    ghost is_long = { λ _. IsLongExport };

    fn encode_item(&self, item: &Export, sink: &mut Sink) -> Result<(), EncodeError> {
        sink.write_name(item.name.as_str())?;
        sink.write_byte(kind_byte(item.kind))?;
        sink.write_u32(item.index)
    }
}

impl EncodeItem<LocalRun> for Decoded {
    ghost spells = { λ _ _ run. IsLocalRun run };

    ghost is_long = { λ _. IsNeverLong };

    fn encode_item(&self, item: &LocalRun, sink: &mut Sink) -> Result<(), EncodeError> {
        sink.write_u32(item.count)?;
        item.ty.encode(sink)
    }
}

impl EncodeItem<Body> for Decoded {
    ghost spells = { λ _ _ body. IfPasses is_body_spelled IsRunBody body };

    ghost is_long = { λ _. IsLongBody };

    fn encode_item(&self, item: &Body, sink: &mut Sink) -> Result<(), EncodeError> {
        let mut content = sink.fresh();
        let locals = Listed {
            writer: Decoded,
            items: item.locals.as_slice(),
        };
        locals.encode(&mut content)?;
        encode_expr(&mut content, item.instructions.as_slice())?;
        sink.write_sized(content.as_slice())
    }
}
