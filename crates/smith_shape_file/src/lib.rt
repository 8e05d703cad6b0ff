//! Shapes from the bytes of a file: a module in the binary format or in the text format of the WebAssembly
//! Core Specification 3.0.
#![tactic(auto)]

mod fault;
mod files;

pub use fault::ShapeFileFault;
pub use files::read_shape_file;
