//! Choices of nodes, each of a family that is drawn first. The standard is the WebAssembly Core
//! Specification 3.0.
//!
//! A call that returns a `Result` fails only if an allocation fails.
#![tactic(auto)]

mod choices;
mod families;

pub use choices::{choose_allowed, choose_ending, choose_statement};
