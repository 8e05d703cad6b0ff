//! Judges whether a decoded module is valid, and if not, what its first fault is. The standard is the
//! WebAssembly Core Specification 3.0. Sections in parentheses are sections of the standard.
//!
//! The features of the instructions of bodies are not judged here: `smith_decode::decode` refuses
//! instructions of other features.
#![tactic(auto)]

mod elements;
mod examples;
mod functions;
mod groups;
mod judge;
mod judgement;
mod locals;
mod references;
mod supertypes;

pub use judge::{check, explain};
pub use judgement::{Fault, Judgement, LOCALS, Unjudged};
pub use smith_explain::Explanation;
pub use supertypes::is_single;
