//! Shapes that cases name, and types and entities as cases write them.

mod checked_shapes;
mod large_parts;
mod named_shapes;
mod parts;
mod shape_parts;
mod type_names;

pub use named_shapes::shape_named;
pub use shape_parts::{entity_of, function_of};
pub use type_names::{field_type_of, heap_type_of, ref_type_of, storage_type_of, val_type_of};
