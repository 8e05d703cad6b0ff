//! Values that meet the definitions of spelled lists, and values that do not. The clauses are proved,
//! and nothing calls these functions.
#![tactic(auto)]

mod changed_bytes;
mod family;
mod func_types;
mod spell_answers;
mod spelled_types;
mod spelling;
