//! Choices of instructions on tables and element segments, and on several bytes of a memory
//! or on a data segment. The standard is the WebAssembly Core Specification 3.0.
//!
//! A call that returns a `Result` fails only if an allocation fails.
#![tactic(auto)]

mod bulk;
mod tables;

pub use bulk::choose_bulk;
pub use tables::{choose_table_change, choose_table_value};
