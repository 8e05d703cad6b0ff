//! Laws on files with custom sections: each stays a file of the same module, and leaving out its
//! custom sections gives one file.
#![tactic(auto)]

/// Laws: functions with empty bodies whose clauses state theorems.
pub mod laws;
