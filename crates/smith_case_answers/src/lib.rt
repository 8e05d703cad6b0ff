//! Answers cases, each a JSON object on a line, and compares the answers with those that the cases
//! want.
//!
//! A call of a case fails if an argument is missing or not valid, a condition of the call does not
//! hold, a shape is unknown, the configuration cannot be read, or memory runs out. A refusal by the
//! call itself is part of the answer. The documentation of `smith_case` explains the keys of a case.
#![tactic(auto)]

mod answer_lines;
mod answers;
mod judgement;
mod recorded;

pub use judgement::judge;
