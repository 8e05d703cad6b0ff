use smith_binary_read::{Decode, ReadError, Reader, Reason};
use smith_binary_read_instr::read_expr;
use smith_instr::{Instr, ReferenceInstr};
use smith_types::{GlobalType, Items, TableType};

/// A global, with any expression as its initialiser (Global Section).
#[derive(Debug, Drop)]
pub struct GlobalDefinition {
    /// The type of the global.
    pub ty: GlobalType,
    /// The expression of the first value, without its `end`.
    pub initial: Items<Instr>,
}

/// A table, with any expression as its initialiser (Table Section).
#[derive(Debug, Drop)]
pub struct TableDefinition {
    /// The type of the table.
    pub ty: TableType,
    /// The expression of each element at first, without its `end`. A table that has none is of null
    /// references.
    pub initial: Items<Instr>,
}

impl Decode for GlobalDefinition {
    ghost use Rattle.smith_decode.specs.DefinitionReadings.{global_at};

    ghost reading = { global_at };

    #[tactic(auto, unfolding(crate::specs::DefinitionReadings::global_at))]
    fn decode(reader: &mut Reader<'_>) -> Result<GlobalDefinition, ReadError> {
        let ty = GlobalType::decode(reader)?;
        let initial = read_expr(reader)?;
        Ok(GlobalDefinition { ty, initial })
    }
}

impl Decode for TableDefinition {
    ghost use Rattle.smith_decode.specs.DefinitionReadings.{table_at};

    ghost reading = { table_at };

    #[tactic(auto, unfolding(crate::specs::DefinitionReadings::table_at))]
    fn decode(reader: &mut Reader<'_>) -> Result<TableDefinition, ReadError> {
        let unknown = reader.fault(Reason::UnknownByte);
        let byte = reader.peek()?;
        if byte == 0x40 {
            reader.skip();
            let zero = reader.read_byte()?;
            if zero != 0 {
                return Err(unknown);
            }
            let ty = TableType::decode(reader)?;
            let initial = read_expr(reader)?;
            return Ok(TableDefinition { ty, initial });
        }
        let ty = TableType::decode(reader)?;
        let mut initial = Vec::new(reader.alloc());
        let null = ReferenceInstr::Null(ty.element_type.heap_type);
        initial.push(Instr::Reference(null))?;
        Ok(TableDefinition {
            ty,
            initial: Items::from_vec(initial),
        })
    }
}
