//! The type space, the subtype test, and the definitions of validity, over the plain data of
//! `smith_syntax`. The standard is the WebAssembly Core Specification 3.0. Sections in parentheses are
//! sections of the standard.
//!
//! A call that returns a `Result` fails only if an allocation fails, apart from the errors in its
//! section `# Errors`.
#![tactic(auto)]

mod entity_spaces;
mod family;
mod func_grounds;
mod ground;
mod grouped_types;
mod kind_counts;
/// Laws: functions with empty bodies whose clauses state theorems.
pub mod laws;
mod marked_families;
mod marked_types;
mod matching;
mod noted_kinds;
mod place;
mod subtyping;
mod type_space;

pub use entity_spaces::{EntitySpaces, imported_spaces_of};
pub use func_grounds::FuncGrounds;
pub use ground::{are_defaultable, is_defaultable, unpack};
pub use grouped_types::type_space_of;
pub use kind_counts::TypeSet;
pub use smith_syntax::{
    AbstractHeapType, ArrayType, CloneIn, Code, CompositeInnerType, CompositeType, ConstInstr,
    DataSegment, DataSegmentKind, ElementKind, ElementSegment, Elements, EntityType, Exact,
    ExportKind, FieldType, FuncType, GlobalType, HeapType, Import, ImportItem, Imports,
    InstructionKind, InstructionKinds, Instructions, Items, MemoryType, Name, Offset, RefType,
    StorageType, StructType, SubType, TableType, UnknownKind, ValType, WasmFeatures, is_same,
};
pub use type_space::{TypeSpace, start_after};
