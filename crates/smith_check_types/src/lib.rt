//! Judges the types of a module: which are equal, and whether they are valid. The standard is the
//! WebAssembly Core Specification 3.0. Sections in parentheses are sections of the standard.
//!
//! A call that returns a `Result` fails only if an allocation fails.
#![tactic(auto)]

mod canonical;
mod check;
mod codes;
mod examples;
mod first_groups;
/// Laws: functions with empty bodies whose clauses state theorems.
pub mod laws;
mod renamed;
mod scope;

pub use canonical::canonical_indices;
pub use check::{CheckedTypes, check_types};
pub use renamed::{
    canonical_groups, canonical_heap_type, canonical_index, canonical_ref_type, canonical_val_type,
};
