//! Judges whether a decoded module is valid, apart from its types and the bodies of its functions. The
//! standard is the WebAssembly Core Specification 3.0. Sections in parentheses are sections of the
//! standard.
//!
//! A call that returns a `Result` fails only if an allocation fails.
#![tactic(auto)]

mod aggregates;
mod check;
mod constants;
mod conversion;
mod entities;
mod examples;
mod exports;
mod expression;
mod faults;
mod initials;
mod judge;
mod scope;
mod segments;
mod signature;
mod spaces;
mod start;
mod step;

pub use check::check_sections;
pub use expression::is_constant;
pub use faults::{Part, SectionFault};
pub use scope::Scope;
pub use spaces::canonical_spaces;
