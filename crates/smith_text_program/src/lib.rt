//! Programs, which are modules with bodies of instructions, in the text format of the WebAssembly
//! Core Specification 3.0, chapter Text Format. Instructions are in their plain form, one per line;
//! additions of proposals are written in the text forms of the proposals.
#![tactic(auto)]

mod atomic;
mod control;
mod examples;
mod instructions;
mod keywords;
mod lines;
mod memory;
mod numeric;
mod program;
mod references;
mod vector;

pub use instructions::write_instr;
pub use lines::{write_counted_instrs, write_instrs};
pub use program::{text, text_in, write_program};
pub use smith_text::{FromFmt, Layout, Sink};
