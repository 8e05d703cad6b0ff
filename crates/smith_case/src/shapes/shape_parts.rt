use crate::fault::Fault;
use crate::shapes::large_parts::{add_chain, add_cycle, add_fan, add_wide, export_many};
use crate::shapes::parts::{both, name_of, or_unknown, push, with_parts};
use crate::shapes::type_names::{field_type_of, ref_type_of, take_word, val_type_of};
use smith_config::Shape;
use smith_types::{
    ArrayType, CompositeInnerType, CompositeType, EntityType, ExportKind, FieldType, FuncType,
    GlobalType, Import, ImportItem, Imports, Items, MemoryType, Name, StructType, SubType,
    TableType, ValType,
};
use std::alloc::Global;

/// Adds to `shape` the part that `part` denotes, which is one of:
///
/// - `group TYPE; TYPE`, a recursive group. A type is `struct FIELD,FIELD`, `array FIELD` or `func
///   PARAM,PARAM -> RESULT`, after `open` if it is not final and `below INDEX` if it has a
///   supertype.
/// - `chain COUNT`, a group of `COUNT` structs without fields, each a subtype of the one before.
/// - `cycle COUNT`, `wide COUNT`, `fan COUNT`, groups of many types or fields, and `exports COUNT`,
///   which `large_parts.rt` explains.
/// - `import MODULE NAME ENTITY`, a single import. An entity is `func INDEX`, `tag INDEX`, `table
///   MINIMUM MAXIMUM REFERENCE`, `memory MINIMUM MAXIMUM` or `global VALUE`. The maximum may be
///   left out. The limits come after `shared` and `i64`, the value type after `shared` and `mut`,
///   if the entity has these properties. The limits of a memory come last after `pagesize 2^LOG2`,
///   if it states the size of its pages.
/// - `items MODULE NAME ENTITY; NAME ENTITY`, a group of imports of one module.
/// - `names MODULE NAME,NAME ENTITY`, a group of imports of one module and type. `-` in place of
///   the names means none.
/// - an entity, which is defined.
/// - `export NAME KIND INDEX`.
pub(crate) fn add_part(alloc: Global, part: &str, shape: &mut Shape) -> Result<(), Fault> {
    let (word, rest) = split_word(part);
    match word {
        "import" => push(&mut shape.imports, import_of(alloc, rest)),
        "items" => push(&mut shape.imports, items_of(alloc, rest)),
        "names" => push(&mut shape.imports, names_of(alloc, rest)),
        "export" => push(&mut shape.exports, export_of(alloc, rest)),
        _ => add_definition(alloc, part, shape),
    }
}

// Reads the group of types of a part that begins with `word`.
fn group_of(alloc: Global, word: &str, rest: &str) -> Result<Items<SubType>, Fault> {
    if word == "group" {
        return with_parts(alloc, rest, ';', Items::new(alloc));
    }
    let count = or_unknown(number(rest))?;
    let mut types = Items::new(alloc);
    add_counted(alloc, word, count, &mut types).and(Ok(types))
}

// Adds `count` types of the sort that `word` names to `types`.
fn add_counted(
    alloc: Global,
    word: &str,
    count: u32,
    types: &mut Items<SubType>,
) -> Result<(), Fault> {
    match word {
        "chain" => add_chain(alloc, count, types),
        "cycle" => add_cycle(alloc, count, types),
        "wide" => add_wide(alloc, count, types),
        "fan" => add_fan(alloc, count, types),
        _ => Err(Fault::UnknownShape),
    }
}

// Returns the first word of `text`, and the text after the blank that follows it.
fn split_word(text: &str) -> (&str, &str) {
    text.trim().split_once(' ').unwrap_or((text.trim(), ""))
}

// Returns the number that `text` denotes.
fn number(text: &str) -> Option<u32> {
    text.parse::<u32>().ok()
}

// Returns the long number that `text` denotes.
fn long(text: &str) -> Option<u64> {
    text.parse::<u64>().ok()
}

/// Reads the type that `text` denotes, as `group` lists it.
pub(crate) fn sub_type_of(alloc: Global, text: &str) -> Result<SubType, Fault> {
    let (is_open, text) = take_word(text, "open ");
    let (supertype, text) = or_unknown(number_after("below ", text))?;
    Ok(SubType {
        is_final: !is_open,
        supertype,
        composite_type: CompositeType {
            inner: inner_of(alloc, text)?,
            shared: false,
        },
    })
}

// Reads the number after `keyword`, if `text` begins with it. Returns the text after the number.
fn number_after<'a>(keyword: &str, text: &'a str) -> Option<(Option<u32>, &'a str)> {
    let Some(text) = text.strip_prefix(keyword) else {
        return Some((None, text));
    };
    let (word, text) = split_word(text);
    Some((Some(number(word)?), text))
}

fn inner_of(alloc: Global, text: &str) -> Result<CompositeInnerType, Fault> {
    let (word, rest) = split_word(text);
    match word {
        "struct" => Ok(CompositeInnerType::Struct(StructType {
            fields: with_parts(alloc, rest, ',', Items::new(alloc))?,
        })),
        "array" => Ok(CompositeInnerType::Array(ArrayType(or_unknown(field_type_of(rest))?))),
        "func" => Ok(CompositeInnerType::Func(function_of(alloc, rest)?)),
        _ => Err(Fault::UnknownShape),
    }
}

/// Reads the function type that `text` denotes: `i32,f64 -> i64`.
///
/// # Errors
///
/// Returns `UnknownShape` if `text` denotes none, or `Memory`.
pub fn function_of(alloc: Global, text: &str) -> Result<FuncType, Fault> {
    let Some((params, results)) = text.split_once("->") else {
        return Err(Fault::UnknownShape);
    };
    let (params, results) = both(
        with_parts(alloc, params, ',', Items::new(alloc)),
        with_parts(alloc, results, ',', Items::new(alloc)),
    )?;
    Ok(FuncType { params, results })
}

fn import_of(alloc: Global, text: &str) -> Result<Imports, Fault> {
    let (module, item) = split_word(text);
    let (item, module) = both(item_of(alloc, item), name_of(alloc, module))?;
    let ImportItem { name, entity_type } = item;
    Ok(Imports::Single(Import {
        module,
        name,
        entity_type,
    }))
}

/// Reads the import that `text` denotes: `NAME ENTITY`.
pub(crate) fn item_of(alloc: Global, text: &str) -> Result<ImportItem, Fault> {
    let (name, entity) = split_word(text);
    let entity_type = or_unknown(entity_of(entity))?;
    Ok(ImportItem {
        name: name_of(alloc, name)?,
        entity_type,
    })
}

fn items_of(alloc: Global, text: &str) -> Result<Imports, Fault> {
    let (module, items) = split_word(text);
    let (module, items) = both(
        name_of(alloc, module),
        with_parts(alloc, items, ';', Items::new(alloc)),
    )?;
    Ok(Imports::Compact1 { module, items })
}

fn names_of(alloc: Global, text: &str) -> Result<Imports, Fault> {
    let (module, rest) = split_word(text);
    let (names, entity) = split_word(rest);
    let entity_type = or_unknown(entity_of(entity))?;
    let (module, names) = both(
        name_of(alloc, module),
        with_parts(alloc, names, ',', Items::new(alloc)),
    )?;
    Ok(Imports::Compact2 {
        module,
        entity_type,
        names,
    })
}

/// Reads the entity that `text` denotes.
pub fn entity_of(text: &str) -> Option<EntityType> {
    let (word, rest) = split_word(text);
    match word {
        "func" => Some(EntityType::Func(number(rest)?)),
        "tag" => Some(EntityType::Tag(number(rest)?)),
        "table" => table_of(rest),
        "memory" => memory_of(rest),
        "global" => global_of(rest),
        _ => None,
    }
}

fn limits_of(text: &str) -> Option<(u64, Option<u64>)> {
    match text.split_once(' ') {
        Some((minimum, maximum)) => Some((long(minimum)?, Some(long(maximum)?))),
        None => Some((long(text)?, None)),
    }
}

fn table_of(text: &str) -> Option<EntityType> {
    let (shared, text) = take_word(text, "shared ");
    let (table64, text) = take_word(text, "i64 ");
    let (limits, element_type) = text.split_at_checked(text.find('(')?)?;
    let (minimum, maximum) = limits_of(limits.trim())?;
    Some(EntityType::Table(TableType {
        element_type: ref_type_of(element_type)?,
        minimum,
        maximum,
        table64,
        shared,
    }))
}

fn memory_of(text: &str) -> Option<EntityType> {
    let (shared, text) = take_word(text, "shared ");
    let (memory64, text) = take_word(text, "i64 ");
    let (page_size_log2, text) = number_after("pagesize 2^", text)?;
    let (minimum, maximum) = limits_of(text)?;
    Some(EntityType::Memory(MemoryType {
        minimum,
        maximum,
        memory64,
        shared,
        page_size_log2,
    }))
}

fn global_of(text: &str) -> Option<EntityType> {
    let (shared, text) = take_word(text, "shared ");
    let (mutable, text) = take_word(text, "mut ");
    Some(EntityType::Global(GlobalType {
        val_type: val_type_of(text)?,
        mutable,
        shared,
    }))
}

// Adds to `shape` the entity that `part` denotes, or else the parts that it counts or lists.
fn add_definition(alloc: Global, part: &str, shape: &mut Shape) -> Result<(), Fault> {
    match entity_of(part) {
        Some(EntityType::Func(index)) => push(&mut shape.funcs, Ok(index)),
        Some(EntityType::Tag(index)) => push(&mut shape.tags, Ok(index)),
        Some(EntityType::Table(table)) => push(&mut shape.tables, Ok(table)),
        Some(EntityType::Memory(memory)) => push(&mut shape.memories, Ok(memory)),
        Some(EntityType::Global(global)) => push(&mut shape.globals, Ok(global)),
        None => add_many(alloc, part, shape),
    }
}

// Adds to `shape` the exports or the group that `part` denotes.
fn add_many(alloc: Global, part: &str, shape: &mut Shape) -> Result<(), Fault> {
    let (word, rest) = split_word(part);
    if word == "exports" {
        return export_many(alloc, or_unknown(number(rest))?, &mut shape.exports);
    }
    push(&mut shape.groups, group_of(alloc, word, rest))
}

fn export_of(alloc: Global, text: &str) -> Result<(Name, ExportKind, u32), Fault> {
    let (name, item) = split_word(text);
    let (kind, index) = split_word(item);
    let (kind, index) = or_unknown(export_kind_of(kind).zip(number(index)))?;
    Ok((name_of(alloc, name)?, kind, index))
}

fn export_kind_of(word: &str) -> Option<ExportKind> {
    match word {
        "func" => Some(ExportKind::Func),
        "table" => Some(ExportKind::Table),
        "memory" => Some(ExportKind::Memory),
        "global" => Some(ExportKind::Global),
        "tag" => Some(ExportKind::Tag),
        _ => None,
    }
}
