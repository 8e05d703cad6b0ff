//! Programs, which are modules with bodies of instructions, in the binary format of the WebAssembly
//! Core Specification 3.0 (chapter Binary Format).
#![tactic(auto)]

mod bodies;
mod examples;
mod fuel_checks;
/// Laws: functions without effect, whose clauses state properties.
pub mod laws;
mod programs;

pub use programs::encode;
pub use smith_binary::EncodeError;
