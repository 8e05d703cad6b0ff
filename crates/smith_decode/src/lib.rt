//! A decoder of modules in the binary format of the WebAssembly Core Specification 3.0. Sections in
//! parentheses are those of its chapter Binary Format, Modules.
#![tactic(auto)]

mod bodies;
mod customs;
mod data;
mod definitions;
mod elements;
mod error;
mod examples;
mod forms;
/// Laws: functions without effect, whose clauses state properties.
pub mod laws;
mod locations;
mod modules;
mod sections;
mod type_forms;
mod type_groups;

pub use bodies::{Body, LocalRun};
pub use customs::Custom;
pub use data::{DataMode, DataSegment};
pub use definitions::{GlobalDefinition, TableDefinition};
pub use elements::{ElementItems, ElementMode, ElementSegment};
pub use error::DecodeError;
pub use locations::{Place, locate};
pub use modules::{Module, decode};
