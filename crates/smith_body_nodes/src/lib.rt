//! The context of a body, the instructions that are offered in it, and nodes: instructions with the
//! types of their operands. Numeric and reference instructions are chosen here. The standard is the
//! WebAssembly Core Specification 3.0.
//!
//! A call that returns a `Result` fails only if an allocation fails.
#![tactic(auto)]

mod above;
mod addresses;
mod funcs;
mod globals;
mod indexed_types;
mod items;
mod locals;
mod node;
mod numeric;
mod numeric_rows;
mod offer;
mod operands;
mod reference_values;
mod scope;
mod segments;
mod targets;
mod traps;

pub use above::{draw_above, reference_or};
pub use addresses::{address, is_address, narrower};
pub use funcs::{choose_callable, func_type_at, function_of, is_first_below};
pub use globals::{choose_global, choose_mutable};
pub use indexed_types::{
    CreatedStructOffer, created_reference, element_at, is_created_below, names_types,
    struct_type_at,
};
pub use items::{draw_index, draw_item};
pub use locals::{choose_local, choose_set_local, is_below, is_sub_type};
pub use node::{
    Head, Node, Opening, Sides, block, conditional, is_allowed, is_node_allowed, node_with_top,
    or_nop, plain, setter, try_table,
};
pub use numeric::{choose_numeric, choose_select};
pub use offer::{Offer, Reach, choose_in_chunk, choose_offered, choose_within, count_offered};
pub use operands::{field_values, node_taking, repeat_value};
pub use reference_values::{
    choose_reference_value, choose_select_typed, draw_referent, nullable_to,
};
pub use scope::{Draft, Scope, indexed_count};
pub use segments::choose_segment_below;
pub use targets::{are_below, choose_target};
