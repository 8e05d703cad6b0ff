//! Choices of instructions that create, read and write structs and arrays. The standard is the
//! WebAssembly Core Specification 3.0.
//!
//! A call that returns a `Result` fails only if an allocation fails.
#![tactic(auto)]

mod aggregates;
mod creations;
mod field_reads;
mod field_writes;
mod fields;

pub use creations::choose_creation;
pub use field_reads::choose_field_read;
pub use field_writes::choose_field_write;
