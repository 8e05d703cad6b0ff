//! Bodies of functions, drawn from bytes. The standard is the WebAssembly Core Specification 3.0.
#![tactic(auto)]

mod body;
mod draws;
pub mod laws;
mod leaf;
mod left;
mod limits;
mod operands;
mod repeats;
mod settled;
mod writes;

pub use body::draw_body;
pub use smith_body_nodes::Scope;
