//! Draws of types and entities over the types and index spaces defined so far.
//!
//! A draw takes its bytes from `u`. A call that returns a `Result` fails only if an allocation
//! fails.
#![tactic(auto)]

mod call_grounds;
mod choice;
mod composite_type;
mod each;
mod early_grounds;
mod enabled;
mod entity_type;
mod examples;
mod field_type;
mod function_families;
mod global_type;
mod kept_grounds;
mod limits;
mod locals;
mod matching;
mod matching_composite;
mod offers;
mod offset;
mod rec_group;
mod reference_scope;
mod shared_reference;
mod spaces;
mod sub_type;
mod super_type;
mod table_type;
mod type_use;
mod value_type;

pub use choice::choose;
pub use composite_type::{arbitrary_composite_type, arbitrary_func_type, arbitrary_struct_type};
pub use enabled::{choose_enabled, count_enabled};
pub use entity_type::arbitrary_memtype;
pub use field_type::{arbitrary_field_type, arbitrary_storage_type};
pub use global_type::{arbitrary_global_type, draw_global_type};
pub use kept_grounds::KeptGrounds;
pub use limits::{arbitrary_limits64, gradually_grow};
pub use locals::{arbitrary_locals, draw_locals};
pub use matching::{
    arbitrary_matching_field_type, arbitrary_matching_func_type, arbitrary_matching_heap_type,
    arbitrary_matching_ref_type, arbitrary_matching_storage_type, arbitrary_matching_val_type,
    draw_matching_ref_type,
};
pub use matching_composite::arbitrary_matching_struct_type;
pub use offset::arbitrary_offset;
pub use rec_group::{add_type, arbitrary_rec_group, arbitrary_types, clone_rec_group};
pub use reference_scope::ReferenceScope;
pub use spaces::{Entities, Spaces};
pub use sub_type::{arbitrary_sub_type, arbitrary_sub_type_of_super_type};
pub use super_type::{
    arbitrary_super_type_of_heap_type, arbitrary_super_type_of_ref_type,
    arbitrary_super_type_of_val_type,
};
pub use table_type::{arbitrary_table_type, draw_table_type};
pub use type_use::{TypeUse, arbitrary_tag_type, choose_type, count_types, has_type, list_types};
pub use value_type::{arbitrary_heap_type, arbitrary_ref_type, arbitrary_valtype, draw_ref_type};
