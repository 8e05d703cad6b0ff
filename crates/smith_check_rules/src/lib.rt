//! The rules by which bodies of functions are valid, with the bottom types of dead code. The
//! standard is the WebAssembly Core Specification 3.0.
//!
//! The rules of `smith_instr` have no bottom types: they type fewer bodies, and each of those is
//! typed here too ([`laws`]).
#![tactic(auto)]

mod examples;
/// Laws: functions without effect, whose clauses state properties.
pub mod laws;
mod slot;

pub use slot::Slot;
