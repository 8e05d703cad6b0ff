//! The byte source of the generator, the values and names drawn from it, and the errors of all
//! crates.
//!
//! A call that returns a `Result` fails only if an allocation fails, apart from the errors in its
//! section `# Errors`.
#![tactic(auto)]

mod arbitrary;
mod digits;
mod error;
mod growth;
mod kebab;
/// Laws: functions with empty bodies whose clauses state theorems.
pub mod laws;
mod names;
mod repeat;
mod text;
mod unstructured;

pub use arbitrary::{Arbitrary, Int};
pub use error::{ConfigFault, Count, Error, ShapeFault, Which, Why};
pub use growth::goes_on;
pub use names::{unique_kebab_string, unique_string, unique_url};
pub use repeat::arbitrary_loop;
pub use text::{limited_str, limited_string};
pub use unstructured::Unstructured;
