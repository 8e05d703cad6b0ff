//! Readers of instructions in the binary format of the WebAssembly Core Specification 3.0, with those
//! of the proposals that `smith_instr` has. Sections in parentheses are those of its chapter Binary
//! Format, Instructions.
//!
//! A call that returns a `Result` fails if the bytes are malformed, with the first fault, or if an
//! allocation fails.
#![tactic(auto)]

mod aggregate;
mod atomic;
mod control;
mod examples;
mod expressions;
mod instructions;
/// Laws: functions without effect, whose clauses state properties.
pub mod laws;
mod memory;
mod numeric;
mod references;
mod vector;
mod vector_rows;

pub use expressions::{read_expr, read_long_expr};
pub use instructions::read_instr;
