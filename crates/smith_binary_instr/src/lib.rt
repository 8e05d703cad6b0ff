//! Instructions and bodies of functions in the binary format of the WebAssembly Core Specification
//! 3.0 (chapter Binary Format, Instructions).
//!
//! Additions of proposals outside the standard are written in the encoding of the proposal: atomic
//! accesses to memory (threads), the shared i31 (shared-everything-threads), and wide arithmetic.
#![tactic(auto)]

mod aggregate;
mod atomic;
mod bodies;
mod control;
mod instructions;
mod memory;
mod numeric;
mod opcodes;
mod prefix;
mod references;
mod vector;
mod vector_numbers;

pub use bodies::{encode_body, encode_locals};
pub use instructions::{encode_expr, encode_instr, encode_instrs};
pub use smith_binary::{EncodeError, Sink};
