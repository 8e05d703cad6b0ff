//! Says why an instruction of a body is refused: the types that are on the stack, those that the
//! instruction takes, or the item that it names and that is not there. The standard is the WebAssembly
//! Core Specification 3.0.
//!
//! Nothing of this is computed while a body is checked: [`explain`] checks a refused body once more, up to
//! the instruction.
#![tactic(auto)]

mod accesses;
mod aggregates;
mod body;
mod examples;
mod explanation;
mod names;
mod needs;
mod operands;
mod trial;
mod unknown;

pub use body::explain;
pub use explanation::{Cause, Explanation, Named, Space, Unknown};
