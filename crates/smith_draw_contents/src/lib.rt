//! The contents of a module after its definitions: exports, a start function, segments and bodies.
//!
//! A call that returns a `Result` fails only if an allocation fails, apart from the errors in its
//! section `# Errors`.
#![tactic(auto)]

mod all_exports;
mod bodies;
mod data;
mod data_targets;
mod element_items;
mod element_kinds;
mod element_offsets;
mod elements;
mod examples;
mod export_kinds;
mod export_names;
mod exports;
mod exports_so_far;
mod offered_indices;
mod offered_kinds;
mod offset_globals;
mod start;

pub use bodies::arbitrary_bodies;
pub use data::arbitrary_data;
pub use elements::arbitrary_elements;
pub use exports::arbitrary_exports;
pub use exports_so_far::Exports;
pub use start::arbitrary_start;
