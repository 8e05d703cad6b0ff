//! Numbers, names, lists and sections in the binary format of the WebAssembly Core Specification
//! 3.0.
//!
//! A call that returns a `Result` fails only if an allocation fails, apart from the errors in its
//! section `# Errors`.
#![tactic(auto)]

mod error;
/// Laws: functions with empty bodies whose clauses state theorems.
pub mod laws;
mod numbers;
mod pieces;
mod sink;

pub use error::EncodeError;
pub use sink::Sink;
