//! Calls that lack memory: each returns `Memory` until there is enough memory for it, and leaves
//! its arguments in the required state.

mod binaries;
mod configurations;
mod fuel;
mod modules;
mod names;
mod parts;
mod shapes;
mod spellings;
mod tries;
mod types;
mod whole;
