//! The imports that a module has from a shape: taken from available imports, or copied from a module
//! shape.
//!
//! A call that returns a `Result` fails only if an allocation fails.
#![tactic(auto)]

mod available;
mod flat_imports;
mod grouped_imports;
mod module_shape;
mod shape_types;
mod taken_imports;

pub use available::take_available_imports;
pub use module_shape::imports_of_shape;
pub use shape_types::types_of_shape;
