use crate::fault::Fault;
use crate::names::Space;
use crate::reading::Reading;
use smith_types::ExportKind;

// Returns the kind of the exports of `space`.
fn kind_of(space: Space) -> ExportKind {
    match space {
        Space::Func | Space::Type => ExportKind::Func,
        Space::Table => ExportKind::Table,
        Space::Memory => ExportKind::Memory,
        Space::Global => ExportKind::Global,
        Space::Tag => ExportKind::Tag,
    }
}

impl Reading<'_> {
    /// Reads an export after its keyword (Exports).
    pub(crate) fn export(&mut self) -> Result<(), Fault> {
        let name = self.name()?;
        let space = self.open_space()?;
        let index = self.index(space)?;
        self.cursor.close()?;
        self.shape.exports.push((name, kind_of(space), index))?;
        self.cursor.close()
    }

    // Reads the exports after the keyword and the identifier of a field of `space` (Exports).
    fn inline_exports(&mut self, space: Space, index: u32) -> Result<(), Fault> {
        for _ in 0..self.cursor.left() {
            if !self.cursor.try_open(b"export") {
                break;
            }
            let name = self.name()?;
            self.shape.exports.push((name, kind_of(space), index))?;
            self.cursor.close()?;
        }
        Ok(())
    }

    /// Reads a field of `space` after its keyword: a definition, or the abbreviation of an import.
    /// Skips the body, the initialiser or the contents (Functions, Tables, Memories, Globals,
    /// Tags).
    pub(crate) fn definition(&mut self, space: Space) -> Result<(), Fault> {
        let index = self.item(space)?;
        self.inline_exports(space, index)?;
        if self.cursor.try_open(b"import") {
            return self.inline_import(space);
        }
        self.has_definitions = true;
        self.define(space)?;
        self.cursor.close_after_all()
    }

    // Reads the type of an entity that is defined in `space`.
    fn define(&mut self, space: Space) -> Result<(), Fault> {
        match space {
            Space::Table => {
                let table = self.table_type()?;
                self.shape.tables.push(table)?;
            }
            Space::Memory => {
                let memory = self.memory_type()?;
                self.shape.memories.push(memory)?;
            }
            Space::Global => {
                let global = self.global_type()?;
                self.shape.globals.push(global)?;
            }
            Space::Tag => {
                let tag = self.type_use()?;
                self.shape.tags.push(tag)?;
            }
            Space::Func | Space::Type => {
                let func = self.type_use()?;
                self.shape.funcs.push(func)?;
            }
        }
        Ok(())
    }
}
