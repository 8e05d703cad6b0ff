//! The types that are known to be on the stack at a point of a body, the values that an instruction
//! takes off and puts on, and what these mean for the rules of `smith_check_rules`. The standard is the
//! WebAssembly Core Specification 3.0.
#![tactic(auto)]

/// Whether types match others, of the same number.
pub mod below;
/// The types on the stack, and the open blocks.
pub mod frame;
/// Items of the context by their index.
pub mod lookups;
mod operands;
/// The context of a body.
pub mod scope;

pub use frame::{Frame, Kind, Operands, Shape};
pub use scope::Scope;
