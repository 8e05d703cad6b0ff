//! Decoded files in the text format of the WebAssembly Core Specification 3.0, chapter Text Format: any
//! module of the binary format as text, valid or not. Fields and instructions are written as those of
//! generated modules are.
#![tactic(auto)]

mod comments;
mod expressions;
mod fields;
mod functions;
mod imported;
mod names;
mod segments;
mod types;

pub use fields::{File, text, write_file};
