//! Choices of blocks, branches, exceptions and types of called functions. The standard is the
//! WebAssembly Core Specification 3.0.
//!
//! A call that returns a `Result` fails only if an allocation fails.
#![tactic(auto)]

mod blocks;
mod branches;
mod outcomes;
mod throws;
mod try_tables;

pub use blocks::{choose_any_block, choose_block};
pub use branches::{choose_branch, choose_leaving, choose_table};
pub use outcomes::{Outcome, choose_fit_type, dropped_of, is_fit, is_fit_type};
pub use throws::choose_any_throw;
pub use try_tables::{choose_any_try, choose_try};
