//! Uses up the memory of a process, and tries calls with more and more of it.
//!
//! The standard allocator refuses nothing while there is memory, so a test of lack of memory first
//! takes all memory that the process can have. Blocks that nobody touches take only address space.
#![tactic(auto)]

mod attempt;
mod held_memory;

pub use attempt::{Attempt, Ended, is_piece, refusals};
pub use held_memory::HeldMemory;
