//! Calls, tail calls and branches of functions and references: whether one applies to the types that
//! are on the stack, and what it leaves there. The standard is the WebAssembly Core Specification
//! 3.0.
#![tactic(auto)]

/// Branches to one of several labels.
pub mod branch_tables;
/// Calls by a reference and through a table.
pub mod calls;
/// Branches by a cast.
pub mod cast_branches;
/// Tables of functions.
pub mod function_tables;
/// Clauses for exceptions.
pub mod catches;
/// Branches by whether a reference is null.
pub mod null_branches;
/// Types of references that an instruction takes and leaves.
pub mod references;
/// Calls that replace the call of the body.
pub mod tail_calls;
