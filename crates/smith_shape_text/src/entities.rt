use crate::fault::{Fault, TextFault};
use crate::keywords::find;
use crate::names::Space;
use crate::reading::Reading;
use smith_types::{EntityType, GlobalType, MemoryType, TableType};

// The keyword of each kind of external types (External Types).
static SPACES: [(&str, Space); 5] = [
    ("func", Space::Func),
    ("table", Space::Table),
    ("memory", Space::Memory),
    ("global", Space::Global),
    ("tag", Space::Tag),
];

/// Returns the index space of the keyword `word` (External Types).
pub(crate) fn space_of(word: &[u8]) -> Option<Space> {
    find(&SPACES, word)
}

// Returns the binary logarithm of `size`, if it is a power of two.
fn log2_of(size: u64) -> Option<u32> {
    if size.count_ones() == 1 {
        Some(size.trailing_zeros())
    } else {
        None
    }
}

impl Reading<'_> {
    // Reads whether addresses are 64 bits wide (Limits).
    fn is_wide(&mut self) -> bool {
        let is_wide = self.cursor.take_word(b"i64");
        if !is_wide {
            let _ = self.cursor.take_word(b"i32");
        }
        is_wide
    }

    // Reads the first number of limits.
    fn minimum(&mut self) -> Result<u64, Fault> {
        if self.cursor.is_number() {
            return self.cursor.number();
        }
        Err(self.cursor.fault(TextFault::NoSize))
    }

    /// Reads a table type (Table Types); a shared one as the shared-everything-threads proposal writes it.
    pub(crate) fn table_type(&mut self) -> Result<TableType, Fault> {
        let shared = self.cursor.take_word(b"shared");
        let table64 = self.is_wide();
        let minimum = self.minimum()?;
        let maximum = self.cursor.optional_number()?;
        let element_type = self.ref_type()?;
        Ok(TableType {
            element_type,
            minimum,
            maximum,
            table64,
            shared,
        })
    }

    // Reads the size of a page, if it is given, as the custom page sizes proposal writes it.
    fn page_size(&mut self) -> Result<Option<u32>, Fault> {
        let fault = self.cursor.fault(TextFault::PageSize);
        if !self.cursor.try_open(b"pagesize") {
            return Ok(None);
        }
        let size = self.cursor.number()?;
        self.cursor.close()?;
        match log2_of(size) {
            Some(log2) => Ok(Some(log2)),
            None => Err(fault),
        }
    }

    /// Reads a memory type (Memory Types); a shared one as the threads proposal writes it.
    pub(crate) fn memory_type(&mut self) -> Result<MemoryType, Fault> {
        let memory64 = self.is_wide();
        let minimum = self.minimum()?;
        let maximum = self.cursor.optional_number()?;
        let shared = self.cursor.take_word(b"shared");
        let page_size_log2 = self.page_size()?;
        Ok(MemoryType {
            minimum,
            maximum,
            memory64,
            shared,
            page_size_log2,
        })
    }

    /// Reads a global type (Global Types); a shared one as the shared-everything-threads proposal writes
    /// it.
    pub(crate) fn global_type(&mut self) -> Result<GlobalType, Fault> {
        let shared = self.cursor.try_open(b"shared");
        let mutable = if shared {
            self.cursor.take_word(b"mut")
        } else {
            self.cursor.try_open(b"mut")
        };
        let val_type = self.val_type()?;
        if shared || mutable {
            self.cursor.close()?;
        }
        Ok(GlobalType {
            val_type,
            mutable,
            shared,
        })
    }

    /// Reads what follows the keyword of an external type in `space` (External Types).
    pub(crate) fn entity_type(&mut self, space: Space) -> Result<EntityType, Fault> {
        match space {
            Space::Table => Ok(EntityType::Table(self.table_type()?)),
            Space::Memory => Ok(EntityType::Memory(self.memory_type()?)),
            Space::Global => Ok(EntityType::Global(self.global_type()?)),
            Space::Tag => Ok(EntityType::Tag(self.type_use()?)),
            Space::Func | Space::Type => Ok(EntityType::Func(self.type_use()?)),
        }
    }

    /// Reads an opening parenthesis and the keyword of an index space of entities after it.
    pub(crate) fn open_space(&mut self) -> Result<Space, Fault> {
        match space_of(self.cursor.keyword()) {
            Some(space) => {
                self.cursor.skip();
                self.cursor.skip();
                Ok(space)
            }
            None => Err(self.cursor.fault(TextFault::NoField)),
        }
    }
}
