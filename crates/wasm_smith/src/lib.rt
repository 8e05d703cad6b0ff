//! WebAssembly modules drawn from bytes. Whatever the bytes, a module is valid under the Core
//! Specification 3.0, except for raw bodies. Proposals beyond it that the configuration enables (by
//! default shared memories and compact imports) follow rules of this project.
#![tactic(auto)]

mod added_global;
mod build;
mod fuel_export;
mod global_export;
/// Laws: functions with empty bodies whose clauses state theorems.
pub mod laws;
mod module;
mod raw_bodies;
mod scratch;
mod sinks;
mod termination;

pub use module::{DuplicateImportsBehavior, Module};
pub use smith_bytes::{
    Arbitrary, ConfigFault, Count, Error, Int, ShapeFault, Unstructured, Which, Why,
    arbitrary_loop, limited_str, limited_string, unique_kebab_string, unique_string, unique_url,
};
pub use smith_config::{Config, MemoryOffsetChoices, OffsetChoicesFault, Shape};
/// Draws of types, entities and constant expressions.
pub use smith_draw as draw;
pub use smith_spell::spell;

// Plain data, and decisions about it.
pub use smith_types::{
    AbstractHeapType, ArrayType, CloneIn, Code, CompositeInnerType, CompositeType, ConstInstr,
    DataSegment, DataSegmentKind, ElementKind, ElementSegment, Elements, EntitySpaces, EntityType,
    ExportKind, FieldType, FuncType, GlobalType, HeapType, Import, ImportItem, Imports,
    InstructionKind, InstructionKinds, Instructions, Items, MemoryType, Name, Offset, RefType,
    StorageType, StructType, SubType, TableType, TypeSpace, UnknownKind, ValType, WasmFeatures,
    are_defaultable, imported_spaces_of, type_space_of,
};
pub use smith_validity::{
    are_counts_enabled, are_entities_valid, are_exports_standing, are_funcs_valid,
    are_globals_valid, are_limits_valid, are_memories_valid, are_tables_valid, are_tags_valid,
    are_types_valid, is_ref_type_valid, is_val_type_valid,
};
