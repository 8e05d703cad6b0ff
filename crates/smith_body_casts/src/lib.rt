//! Choices of casts, tests and conversions of references, and of instructions on an i31. The
//! standard is the WebAssembly Core Specification 3.0.
//!
//! A call that returns a `Result` fails only if an allocation fails.
#![tactic(auto)]

mod casts;

pub use casts::choose_cast;
