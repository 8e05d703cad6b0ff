use crate::fault::{Fault, TextFault};
use crate::keywords::find;
use crate::names::Space;
use crate::reading::Reading;
use smith_types::{AbstractHeapType, HeapType, RefType, ValType};

// The keyword of each abstract heap type (Heap Types).
static ABSTRACT_TYPES: [(&str, AbstractHeapType); 12] = [
    ("func", AbstractHeapType::Func),
    ("extern", AbstractHeapType::Extern),
    ("any", AbstractHeapType::Any),
    ("none", AbstractHeapType::None),
    ("noextern", AbstractHeapType::NoExtern),
    ("nofunc", AbstractHeapType::NoFunc),
    ("eq", AbstractHeapType::Eq),
    ("struct", AbstractHeapType::Struct),
    ("array", AbstractHeapType::Array),
    ("i31", AbstractHeapType::I31),
    ("exn", AbstractHeapType::Exn),
    ("noexn", AbstractHeapType::NoExn),
];

// The abbreviation of the nullable references to each abstract heap type (Reference Types).
static ABBREVIATIONS: [(&str, AbstractHeapType); 12] = [
    ("funcref", AbstractHeapType::Func),
    ("externref", AbstractHeapType::Extern),
    ("anyref", AbstractHeapType::Any),
    ("nullref", AbstractHeapType::None),
    ("nullexternref", AbstractHeapType::NoExtern),
    ("nullfuncref", AbstractHeapType::NoFunc),
    ("eqref", AbstractHeapType::Eq),
    ("structref", AbstractHeapType::Struct),
    ("arrayref", AbstractHeapType::Array),
    ("i31ref", AbstractHeapType::I31),
    ("exnref", AbstractHeapType::Exn),
    ("nullexnref", AbstractHeapType::NoExn),
];

// The keyword of each number type and vector type (Number Types, Vector Types).
static NUMBER_TYPES: [(&str, ValType); 5] = [
    ("i32", ValType::I32),
    ("i64", ValType::I64),
    ("f32", ValType::F32),
    ("f64", ValType::F64),
    ("v128", ValType::V128),
];

impl Reading<'_> {
    // Reads an abstract heap type.
    fn abstract_type(&mut self, shared: bool) -> Result<HeapType, Fault> {
        match find(&ABSTRACT_TYPES, self.cursor.word()) {
            Some(ty) => {
                self.cursor.skip();
                Ok(HeapType::Abstract { shared, ty })
            }
            None => Err(self.cursor.fault(TextFault::NoType)),
        }
    }

    // Reads a heap type (Heap Types); shared and exact ones as their proposals write them.
    fn heap_type(&mut self) -> Result<HeapType, Fault> {
        if self.is_index() {
            return Ok(HeapType::Concrete(self.index(Space::Type)?));
        }
        let heap_type = if self.cursor.try_open(b"shared") {
            self.abstract_type(true)?
        } else if self.cursor.try_open(b"exact") {
            HeapType::Exact(self.index(Space::Type)?)
        } else {
            return self.abstract_type(false);
        };
        self.cursor.close()?;
        Ok(heap_type)
    }

    /// Reads a reference type, if one is next (Reference Types).
    pub(crate) fn optional_ref_type(&mut self) -> Result<Option<RefType>, Fault> {
        if let Some(ty) = find(&ABBREVIATIONS, self.cursor.word()) {
            self.cursor.skip();
            let heap_type = HeapType::Abstract { shared: false, ty };
            return Ok(Some(RefType {
                nullable: true,
                heap_type,
            }));
        }
        if !self.cursor.try_open(b"ref") {
            return Ok(None);
        }
        let nullable = self.cursor.take_word(b"null");
        let heap_type = self.heap_type()?;
        self.cursor.close()?;
        Ok(Some(RefType {
            nullable,
            heap_type,
        }))
    }

    /// Reads a reference type (Reference Types).
    pub(crate) fn ref_type(&mut self) -> Result<RefType, Fault> {
        let fault = self.cursor.fault(TextFault::NoType);
        match self.optional_ref_type()? {
            Some(ty) => Ok(ty),
            None => Err(fault),
        }
    }

    /// Reads a value type (Value Types).
    pub(crate) fn val_type(&mut self) -> Result<ValType, Fault> {
        if let Some(ty) = find(&NUMBER_TYPES, self.cursor.word()) {
            self.cursor.skip();
            return Ok(ty);
        }
        Ok(ValType::Ref(self.ref_type()?))
    }
}
