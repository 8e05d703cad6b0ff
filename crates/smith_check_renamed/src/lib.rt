//! Bodies of functions that name types by their canonical indices, so that equal types are one type.
//! The standard is the WebAssembly Core Specification 3.0. Sections in parentheses are sections of the
//! standard.
#![tactic(auto)]

mod aggregates;
mod body;
mod examples;
mod instructions;
mod kept;
mod types;

pub use body::canonical_body;
pub use kept::is_canonical_body;
