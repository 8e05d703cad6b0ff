//! The program of a request: a configuration, or its text, and an input. A program is a module with
//! bodies of instructions. It is written in the binary format or in the text format of the
//! WebAssembly Core Specification 3.0. A change of it can make it an invalid file.
//!
//! The text of a configuration is a JSON object in UTF-8, or empty for the default configuration. Its
//! shapes are given apart from it, as bytes.
#![tactic(auto)]

mod additions;
mod customs;
mod invalid_file;
/// Laws: functions with empty bodies whose clauses state theorems.
pub mod laws;
mod manner;
mod nans;
mod refusal;
mod request;
mod shaped;
mod writers;

pub use additions::{Additions, Fuel};
pub use invalid_file::invalid;
pub use manner::{Form, Manner, output, write_program};
pub use refusal::Refusal;
pub use request::{Request, binary, text, wat};
pub use shaped::ShapeFiles;
pub use smith_text_program::Layout;
pub use smith_wrong::{Family, Wrong};
