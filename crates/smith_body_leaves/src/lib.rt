//! Values that take no budget: a drawn one, or the first allowed one. The standard is the
//! WebAssembly Core Specification 3.0.
//!
//! A call that returns a `Result` fails only if an allocation fails.
#![tactic(auto)]

mod constant_tables;
mod constants;
mod created_values;
mod creations;
mod default_created;
mod families;
mod first_created;
mod leaf;
mod preferred;
mod references;
mod search;
mod single;
mod unary;

pub use leaf::{Leaf, only, write_instructions, write_spare};
pub use preferred::draw_preferred;
pub use single::draw_any_leaf;
pub use unary::Unary;
