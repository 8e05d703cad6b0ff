//! Readers of the binary format of the WebAssembly Core Specification 3.0: numbers, names, lists and the
//! items of sections. Sections in parentheses are those of its chapter Binary Format.
//!
//! A call that returns a `Result` fails if the bytes are malformed, with the first fault, or if an
//! allocation fails.
#![tactic(auto)]

mod contents;
mod entities;
mod error;
mod examples;
mod exports;
mod imports;
/// Laws: functions without effect, whose clauses state properties.
pub mod laws;
mod lists;
mod numbers;
mod reader;
mod tags;
mod types;

pub use error::{Fault, ReadError, Reason};
pub use exports::Export;
pub use lists::{Decode, read_list};
pub use reader::Reader;
pub use tags::TagDefinition;
pub use types::DeclaredType;
