//! Choices of instructions on memories, of vector instructions, and of atomic ones. The standard is
//! the WebAssembly Core Specification 3.0.
//!
//! A call that returns a `Result` fails only if an allocation fails.
#![tactic(auto)]

mod atomics;
mod memories;
mod vector_memory;
mod vector_rows;
mod vectors;

pub use atomics::{choose_atomic, choose_atomic_store};
pub use memories::{choose_load, choose_memory, choose_store};
pub use vector_memory::{choose_store_lane, choose_vector_store};
pub use vectors::choose_vector;
