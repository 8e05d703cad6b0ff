//! Decides whether the bodies of functions are typed, by the rules of `smith_check_rules`, and if not,
//! at which instruction. The standard is the WebAssembly Core Specification 3.0.
//!
//! A body is read once, from its first instruction to its last, with the types that are known to be
//! on the stack, and without recursion: blocks may be nested to any depth.
#![tactic(auto)]

/// The blocks that instructions open.
pub mod blocks;
/// The check of a body.
pub mod check;
/// How far a check has come.
pub mod checker;
mod families;
/// A law of verdicts.
pub mod laws;
/// A step of a check.
pub mod step;
mod verdict;

pub use check::check_body;
pub use verdict::Verdict;
