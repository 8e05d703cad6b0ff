//! Instructions of function bodies as plain data, and their typing rules. The standard is the
//! WebAssembly Core Specification 3.0.
//!
//! There are no instructions for the features acquire_release_atomics, multibyte_array_access and
//! custom_descriptors, and for shared_everything_threads only ref.i31_shared.
#![tactic(auto)]

mod aggregate;
mod atomic;
mod control;
mod enabled;
mod instr;
mod kind;
/// Laws: functions with empty bodies whose clauses state theorems.
pub mod laws;
mod memory;
mod numeric;
mod reference;
mod set_locals;
mod signature;
mod table;
mod vector;

pub use aggregate::{AggregateInstr, Extension};
pub use atomic::{AtomicAccess, AtomicUpdate, AtomicWidth};
pub use control::{BlockType, BranchCast, Catch};
pub use instr::Instr;
pub use memory::{Load, MemArg, MemoryInstr, Store};
pub use numeric::{
    Conversion, FloatBinary, FloatCompare, FloatUnary, IntBinary, IntCompare, IntUnary,
    NumericInstr, SaturatingConversion, SignExtension, WideArithmetic,
};
pub use reference::ReferenceInstr;
pub use set_locals::SetLocals;
pub use table::TableInstr;
pub use vector::{
    IntShape, LaneExtract, LaneShape, RelaxedBinary, RelaxedFloatBinary, RelaxedFloatTernary,
    RelaxedFloatUnary, RelaxedTernary, VectorBinary, VectorFloatBinary, VectorFloatUnary,
    VectorInstr, VectorLoad, VectorShift, VectorUnary,
};
