//! Instructions on references, tables and aggregates: whether one applies to the types that are on the
//! stack, and what it leaves there. The standard is the WebAssembly Core Specification 3.0.
#![tactic(auto)]

mod arrays;
mod casts;
mod conversions;
mod lookups;
mod offers;
mod references;
mod structs;
mod tables;

pub use arrays::aggregate;
pub use references::reference;
pub use tables::table;
