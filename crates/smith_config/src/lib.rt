//! The configuration of a generated module, and its checks.
//!
//! A call that returns a `Result` fails only if an allocation fails, apart from the errors in its
//! section `# Errors`. The parser of offset choices fails with [`OffsetChoicesFault`].
#![tactic(auto)]

mod arbitrary;
mod check;
mod clone;
mod config;
mod features;
/// Laws: functions with empty bodies whose clauses state theorems.
pub mod laws;
mod offset_choices;
mod sanitize;
mod shape;
mod shape_check;

pub use config::Config;
pub use offset_choices::{MemoryOffsetChoices, OffsetChoicesFault};
pub use shape::Shape;
