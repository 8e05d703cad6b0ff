//! Draws of types, entities and constant expressions over the types and index spaces defined so
//! far: the calls of [`smith_draw_types`] and [`smith_draw_consts`] under one name.
#![tactic(auto)]

pub use smith_draw_consts::{
    KeptOffers, arbitrary_const_expr, arbitrary_table_init, draw_const_expr, draw_table_init,
    globals_for_const_expr,
};
pub use smith_draw_types::{
    Entities, KeptGrounds, ReferenceScope, Spaces, TypeUse, add_type, arbitrary_composite_type,
    arbitrary_field_type, arbitrary_func_type, arbitrary_global_type, arbitrary_heap_type,
    arbitrary_limits64, arbitrary_locals, arbitrary_matching_field_type,
    arbitrary_matching_func_type, arbitrary_matching_heap_type, arbitrary_matching_ref_type,
    arbitrary_matching_storage_type, arbitrary_matching_struct_type, arbitrary_matching_val_type,
    arbitrary_memtype, arbitrary_offset, arbitrary_rec_group, arbitrary_ref_type,
    arbitrary_storage_type, arbitrary_struct_type, arbitrary_sub_type,
    arbitrary_sub_type_of_super_type, arbitrary_super_type_of_heap_type,
    arbitrary_super_type_of_ref_type, arbitrary_super_type_of_val_type, arbitrary_table_type,
    arbitrary_tag_type, arbitrary_types, arbitrary_valtype, choose, choose_enabled, choose_type,
    clone_rec_group, count_enabled, count_types, draw_global_type, draw_locals,
    draw_matching_ref_type, draw_ref_type, draw_table_type, gradually_grow, has_type, list_types,
};
