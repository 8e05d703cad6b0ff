use crate::error::ReadError;
use crate::lists::{Decode, read_list};
use crate::reader::Reader;
use smith_types::{EntityType, Import, ImportItem, Imports, Name};

impl Decode for ImportItem {
    ghost use Rattle.smith_binary_read.specs.ImportReadings.{import_item_at};

    ghost reading = { import_item_at };

    #[tactic(auto, unfolding(crate::specs::ImportReadings::import_item_at))]
    fn decode(reader: &mut Reader<'_>) -> Result<ImportItem, ReadError> {
        let name = Name::decode(reader)?;
        let entity_type = EntityType::decode(reader)?;
        Ok(ImportItem { name, entity_type })
    }
}

impl Decode for Imports {
    ghost use Rattle.smith_binary_read.specs.ImportReadings.{import_group_at};

    ghost reading = { import_group_at };

    #[tactic(auto, unfolding(crate::specs::ImportReadings::import_group_at))]
    fn decode(reader: &mut Reader<'_>) -> Result<Imports, ReadError> {
        let module = Name::decode(reader)?;
        let name = Name::decode(reader)?;
        let byte = reader.peek()?;
        if name.len() == 0 && byte == 0x7F {
            reader.skip();
            let items = read_list(reader)?;
            return Ok(Imports::Compact1 { module, items });
        }
        if name.len() == 0 && byte == 0x7E {
            reader.skip();
            let entity_type = EntityType::decode(reader)?;
            let names = read_list(reader)?;
            return Ok(Imports::Compact2 {
                module,
                entity_type,
                names,
            });
        }
        let entity_type = EntityType::decode(reader)?;
        Ok(Imports::Single(Import {
            module,
            name,
            entity_type,
        }))
    }
}
