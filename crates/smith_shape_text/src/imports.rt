use crate::fault::{Fault, TextFault};
use crate::names::Space;
use crate::reading::Reading;
use smith_types::{EntityType, Import, ImportItem, Imports, Items, Name};

impl Reading<'_> {
    // Reads the external type of an import in parentheses, with the identifier of the import if it
    // has one.
    fn import_type(&mut self) -> Result<(Space, EntityType), Fault> {
        let space = self.open_space()?;
        let _ = self.item(space)?;
        let entity_type = self.entity_type(space)?;
        self.cursor.close()?;
        Ok((space, entity_type))
    }

    /// Returns a fault if an entity is defined already (Imports).
    pub(crate) fn want_no_definition(&self) -> Result<(), Fault> {
        if self.has_definitions {
            return Err(self.cursor.fault(TextFault::LateImport));
        }
        Ok(())
    }

    /// Reads an import after its keyword, or a group of imports as the compact imports proposal writes it
    /// (Imports).
    pub(crate) fn import(&mut self) -> Result<(), Fault> {
        self.want_no_definition()?;
        let module = self.name()?;
        let imports = if self.cursor.string().is_some() {
            let name = self.name()?;
            let (_, entity_type) = self.import_type()?;
            Imports::Single(Import {
                module,
                name,
                entity_type,
            })
        } else {
            self.import_group(module)?
        };
        self.cursor.close()?;
        self.shape.imports.push(imports)?;
        Ok(())
    }

    // Reads the items of a group of imports from `module`: each with its type, or all with one type
    // after them.
    fn import_group(&mut self, module: Name) -> Result<Imports, Fault> {
        let mut items = Items::new(self.alloc);
        let mut names = Items::new(self.alloc);
        for _ in 0..self.cursor.left() {
            if !self.cursor.try_open(b"item") {
                break;
            }
            self.import_item(&mut items, &mut names)?;
        }
        if names.is_empty() {
            drop(names);
            return Ok(Imports::Compact1 { module, items });
        }
        if !items.is_empty() {
            return Err(self.cursor.fault(TextFault::NoField));
        }
        drop(items);
        let (space, entity_type) = self.import_type()?;
        self.count_more(space, names.len())?;
        Ok(Imports::Compact2 {
            module,
            entity_type,
            names,
        })
    }

    // Reads an item of a group, and appends it to `items` if it has a type, else to `names`.
    fn import_item(
        &mut self,
        items: &mut Items<ImportItem>,
        names: &mut Items<Name>,
    ) -> Result<(), Fault> {
        let name = self.name()?;
        if self.cursor.is_closing() {
            names.push(name)?;
        } else {
            let (_, entity_type) = self.import_type()?;
            items.push(ImportItem { name, entity_type })?;
        }
        self.cursor.close()
    }

    // Counts all but one of `count` items of `space`, which have no identifiers.
    fn count_more(&mut self, space: Space, count: usize) -> Result<(), Fault> {
        for _ in 1..count {
            let _ = self.count(space)?;
        }
        Ok(())
    }

    /// Reads an import in a field of `space` after the keyword, the identifier and `(import`
    /// (Imports).
    pub(crate) fn inline_import(&mut self, space: Space) -> Result<(), Fault> {
        self.want_no_definition()?;
        let module = self.name()?;
        let name = self.name()?;
        self.cursor.close()?;
        let entity_type = self.entity_type(space)?;
        self.shape.imports.push(Imports::Single(Import {
            module,
            name,
            entity_type,
        }))?;
        self.cursor.close()
    }
}
