//! The shape of a module in the binary format of the WebAssembly Core Specification 3.0: its types, its
//! imports, what it defines without bodies and initialisers, and its exports.
#![tactic(auto)]

mod definitions;
mod examples;
mod fault;
mod shapes;

pub use fault::ShapeFault;
pub use shapes::{read_shape, shape_of};
