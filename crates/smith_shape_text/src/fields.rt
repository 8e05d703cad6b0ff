use crate::entities::space_of;
use crate::fault::{Fault, TextFault};
use crate::keywords::find;
use crate::reading::Reading;

// A field of a module other than the definition of an entity (Modules).
#[derive(Clone, Copy)]
enum Field {
    Type,
    Group,
    Import,
    Export,
    // A start function, a segment or an annotation, which a shape does not have.
    Other,
}

// The keyword of each such field.
static FIELDS: [(&str, Field); 7] = [
    ("type", Field::Type),
    ("rec", Field::Group),
    ("import", Field::Import),
    ("export", Field::Export),
    ("start", Field::Other),
    ("elem", Field::Other),
    ("data", Field::Other),
];

// Returns the field of the keyword `word`. A keyword that begins with an at sign is that of an
// annotation.
fn field_of(word: &[u8]) -> Option<Field> {
    match word {
        [b'@', ..] => Some(Field::Other),
        _ => find(&FIELDS, word),
    }
}

impl Reading<'_> {
    // Reads a field of a module (Modules).
    fn field(&mut self) -> Result<(), Fault> {
        let word = self.cursor.keyword();
        let unknown = self.cursor.fault(TextFault::UnknownField);
        self.cursor.skip();
        self.cursor.skip();
        if let Some(space) = space_of(word) {
            return self.definition(space);
        }
        match field_of(word) {
            Some(Field::Type) => self.single_type(),
            Some(Field::Group) => self.recursive_group(),
            Some(Field::Import) => self.import(),
            Some(Field::Export) => self.export(),
            Some(Field::Other) => self.cursor.close_after_all(),
            None => Err(unknown),
        }
    }

    // Reads fields up to the end or a closing parenthesis.
    fn fields(&mut self) -> Result<(), Fault> {
        for _ in 0..self.cursor.left() {
            if self.cursor.left() == 0 || self.cursor.is_closing() {
                break;
            }
            self.field()?;
        }
        Ok(())
    }

    /// Reads a module, or its fields alone, to the end of the text (Modules).
    pub(crate) fn module(&mut self) -> Result<(), Fault> {
        let is_enclosed = self.cursor.try_open(b"module");
        if is_enclosed {
            let _ = self.cursor.identifier();
        }
        self.fields()?;
        if is_enclosed {
            self.cursor.close()?;
        }
        if self.cursor.left() == 0 {
            return Ok(());
        }
        Err(self.cursor.fault(TextFault::UnknownField))
    }
}
