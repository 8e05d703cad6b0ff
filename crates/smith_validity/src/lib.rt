//! Decides whether types, entities and exports are valid, by the definitions of `smith_types`. The
//! standard is the WebAssembly Core Specification 3.0. Sections in parentheses are sections of the
//! standard.
#![tactic(auto)]

mod held_values;
mod predicate;
mod standing_exports;
mod valid_entities;
mod valid_types;
mod valid_values;

pub use held_values::{all_named_values_hold, all_values_hold};
pub use predicate::{Predicate, all_hold};
pub use standing_exports::are_exports_standing;
pub use valid_entities::{
    are_counts_enabled, are_entities_valid, are_funcs_valid, are_globals_valid, are_limits_valid,
    are_memories_valid, are_tables_valid, are_tags_valid, most_elements_of,
};
pub use valid_types::are_types_valid;
pub use valid_values::{
    ShareableValue, StandingValue, ValidValue, is_ref_type_valid, is_val_type_valid,
};
