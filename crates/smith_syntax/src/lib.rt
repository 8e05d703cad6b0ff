//! WebAssembly modules as plain data: types, entities, imports, constant expressions, segments and
//! bodies, with features and kinds of instructions. The standard is the WebAssembly Core
//! Specification 3.0. Sections in parentheses are sections of the standard.
//!
//! A call that returns a `Result` fails only if an allocation fails, except for the parsers of kinds
//! of instructions, which fail with [`UnknownKind`].
#![tactic(auto)]

mod clone_in;
mod code;
mod composite_type;
mod const_instr;
mod entity_type;
mod exact;
mod features;
mod imports;
mod instruction_kind;
mod list;
mod segments;
mod value_type;

pub use clone_in::CloneIn;
pub use code::{Code, Instructions};
pub use composite_type::{
    ArrayType, CompositeInnerType, CompositeType, FieldType, FuncType, StorageType, StructType,
    SubType,
};
pub use const_instr::ConstInstr;
pub use entity_type::{EntityType, ExportKind, GlobalType, MemoryType, TableType};
pub use exact::{Exact, is_same};
pub use features::WasmFeatures;
pub use imports::{Import, ImportItem, Imports};
pub use instruction_kind::{InstructionKind, InstructionKinds, UnknownKind};
pub use list::{Items, Name};
pub use segments::{DataSegment, DataSegmentKind, ElementKind, ElementSegment, Elements, Offset};
pub use value_type::{AbstractHeapType, HeapType, RefType, ValType};
