//! Judges files: whether the bytes of a file are a valid module of the WebAssembly Core Specification 3.0,
//! and if not, where the first fault is, and which rule it breaks. Sections in parentheses are sections
//! of the standard.
//!
//! A call that returns a `Result` fails only if an allocation fails.
#![tactic(auto)]

mod answer;
mod examples;
mod explanation;
mod finding;
mod judgement;
mod origins;
mod places;
mod rules;
mod verdict;
mod wording;
mod words;

pub use answer::{Answer, Gap};
pub use explanation::explain;
pub use finding::{Finding, Item};
pub use judgement::judge;
pub use rules::Rule;
pub use smith_binary_read::Reason;
pub use smith_bytes::Error;
pub use smith_check::{Explanation, Fault, LOCALS, Unjudged};
pub use smith_types::WasmFeatures;
pub use verdict::{NOWHERE, Verdict};
pub use words::Words;
