//! Values that meet the definitions of the byte source and of names, and values that do not. The
//! clauses are proved, and nothing calls these functions.
#![tactic(auto)]

mod byte_lists;
mod draws;
mod growth;
mod kebab;
mod loops;
mod names;
mod source;
mod spelling;
mod takes;
