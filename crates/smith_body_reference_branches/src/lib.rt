//! Choices of branches on null and on casts. The standard is the WebAssembly Core Specification 3.0.
//!
//! A call that returns a `Result` fails only if an allocation fails.
#![tactic(auto)]

mod cast_branches;
mod null_branches;

pub use cast_branches::{choose_cast_branch, choose_kept_cast};
pub use null_branches::{choose_kept, choose_null_branch};
