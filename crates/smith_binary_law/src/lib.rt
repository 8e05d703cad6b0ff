//! Laws of the binary format: the grammars of modules, instructions and bodies are unambiguous.
#![tactic(auto)]

mod examples;
/// Laws: functions with empty bodies whose clauses state theorems.
pub mod laws;
