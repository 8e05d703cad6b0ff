//! Modules with bodies of instructions, drawn from bytes. The standard is the WebAssembly Core
//! Specification 3.0.
#![tactic(auto)]

mod bodies;
mod canonical;
mod copies;
mod examples;
mod fuel_export;
/// Laws: functions with empty bodies whose clauses state theorems.
pub mod laws;
mod mixes;
mod nans;
mod observe;
mod program;
mod references;
mod termination;

pub use bodies::draw_bodies;
pub use program::{Body, Program};
