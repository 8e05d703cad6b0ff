//! Choices of calls through tables and references, of tail calls, and of the functions that are
//! called. The standard is the WebAssembly Core Specification 3.0.
//!
//! A call that returns a `Result` fails only if an allocation fails.
#![tactic(auto)]

mod called;
mod calls;
mod function_tables;
mod referred_types;
mod tail_calls;

pub use called::{choose_called, draw_called};
pub use calls::{
    choose_any_by_reference, choose_any_indirect, choose_by_reference, choose_indirect,
};
pub use tail_calls::choose_tail_call;
