use smith_types::{AbstractHeapType, FieldType, HeapType, RefType, StorageType, ValType};

// Each abstract heap type by its name in the text format.
static ABSTRACT: [(&str, AbstractHeapType); 12] = [
    ("func", AbstractHeapType::Func),
    ("extern", AbstractHeapType::Extern),
    ("any", AbstractHeapType::Any),
    ("none", AbstractHeapType::None),
    ("noextern", AbstractHeapType::NoExtern),
    ("nofunc", AbstractHeapType::NoFunc),
    ("eq", AbstractHeapType::Eq),
    ("struct", AbstractHeapType::Struct),
    ("array", AbstractHeapType::Array),
    ("i31", AbstractHeapType::I31),
    ("exn", AbstractHeapType::Exn),
    ("noexn", AbstractHeapType::NoExn),
];

fn abstract_types() -> &'static [(&'static str, AbstractHeapType)] {
    &ABSTRACT
}

fn abstract_of(shared: bool, text: &str) -> Option<HeapType> {
    let ty = abstract_among(abstract_types(), text)?;
    Some(HeapType::Abstract { shared, ty })
}

// Finds the abstract heap type that `text` names among `types`.
fn abstract_among(types: &[(&str, AbstractHeapType)], text: &str) -> Option<AbstractHeapType> {
    for (name, ty) in types {
        if *name == text {
            return Some(*ty);
        }
    }
    None
}

// Returns the text in parentheses after `keyword` in `text`. `keyword` includes the opening one.
fn text_inside<'a>(text: &'a str, keyword: &str) -> Option<&'a str> {
    text.strip_prefix(keyword)?.strip_suffix(")")
}

/// Returns whether `text` begins with `word`, and the text after it.
pub(crate) fn take_word<'a>(text: &'a str, word: &str) -> (bool, &'a str) {
    match text.strip_prefix(word) {
        Some(rest) => (true, rest),
        None => (false, text),
    }
}

/// Reads the heap type that `text` denotes: `any`, `(shared any)`, `0`, `(exact 0)`.
pub fn heap_type_of(text: &str) -> Option<HeapType> {
    if let Some(name) = text_inside(text, "(shared ") {
        return abstract_of(true, name);
    }
    if let Some(index) = text_inside(text, "(exact ") {
        return Some(HeapType::Exact(index.parse::<u32>().ok()?));
    }
    match text.parse::<u32>() {
        Ok(index) => Some(HeapType::Concrete(index)),
        Err(_) => abstract_of(false, text),
    }
}

/// Reads the reference type that `text` denotes: `(ref any)`, `(ref null 0)`.
pub fn ref_type_of(text: &str) -> Option<RefType> {
    let (nullable, heap_type) = take_word(text_inside(text, "(ref ")?, "null ");
    Some(RefType {
        nullable,
        heap_type: heap_type_of(heap_type)?,
    })
}

/// Reads the value type that `text` denotes.
pub fn val_type_of(text: &str) -> Option<ValType> {
    match text {
        "i32" => Some(ValType::I32),
        "i64" => Some(ValType::I64),
        "f32" => Some(ValType::F32),
        "f64" => Some(ValType::F64),
        "v128" => Some(ValType::V128),
        _ => Some(ValType::Ref(ref_type_of(text)?)),
    }
}

/// Reads the storage type that `text` denotes.
pub fn storage_type_of(text: &str) -> Option<StorageType> {
    match text {
        "i8" => Some(StorageType::I8),
        "i16" => Some(StorageType::I16),
        _ => Some(StorageType::Val(val_type_of(text)?)),
    }
}

/// Reads the field type that `text` denotes: a storage type, or `(mut TYPE)`.
pub fn field_type_of(text: &str) -> Option<FieldType> {
    let (mutable, element_type) = match text_inside(text, "(mut ") {
        Some(element_type) => (true, element_type),
        None => (false, text),
    };
    Some(FieldType {
        element_type: storage_type_of(element_type)?,
        mutable,
    })
}
