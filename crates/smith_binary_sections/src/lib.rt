//! The sections of modules in the binary format of the WebAssembly Core Specification 3.0, written
//! from plain data.
//!
//! A call that returns a `Result` fails only if an allocation fails, apart from the errors in its
//! section `# Errors`.
#![tactic(auto)]

mod codes;
mod data;
mod definitions;
mod elements;
mod entities;
mod exports;
mod imports;
mod instructions;
mod lists;
mod sections;
mod types;

pub use codes::Bodies;
pub use definitions::{Globals, Tables, Tags};
pub use lists::{Encode, EncodeItem, EncodePair, Listed, Plain, Zipped};
pub use sections::{Count, write_preamble, write_section_if};
pub use types::Groups;
