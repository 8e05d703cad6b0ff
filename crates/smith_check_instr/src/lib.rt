//! Instructions that open and close no block: whether one applies to the types that are on the stack,
//! and what it leaves there. The standard is the WebAssembly Core Specification 3.0.
#![tactic(auto)]

/// Atomic accesses to memories.
pub mod atomics;
/// Instructions for constants and numbers.
pub mod constants;
/// Branches, returns and calls.
pub mod control;
/// Instructions on memories.
pub mod memory;
/// The instruction `select`, without a type and with types.
pub mod select;
/// Instructions on locals and globals.
pub mod variables;
/// Instructions on vectors.
pub mod vectors;
