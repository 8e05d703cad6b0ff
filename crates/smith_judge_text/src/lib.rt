//! The answer to whether a file is a valid module, in words, with the name of the instruction at its place
//! and the types concerned.
#![tactic(auto)]

mod causes;
mod supertypes;
mod texts;

pub use texts::{cause, keyword, words};
