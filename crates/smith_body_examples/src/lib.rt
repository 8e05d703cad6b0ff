//! Bodies that bytes produce, and values of the definitions of draws of bodies. The clauses are
//! proved, and nothing calls these functions.
#![tactic(auto, unfolding(smith_body::specs::Bodies::body_at, smith_body::specs::Bodies::drawing_at, smith_body::specs::Bodies::enclosed_at, smith_body::specs::Bodies::head_at, smith_body::specs::Bodies::inside_at, smith_body::specs::Bodies::interval, smith_body::specs::Bodies::leaf_in, smith_body::specs::Bodies::limited_at, smith_body::specs::Bodies::masked_at, smith_body::specs::Bodies::near_at, smith_body::specs::Bodies::node_at, smith_body::specs::Bodies::opened_at, smith_body::specs::Bodies::repeated_at, smith_body::specs::Bodies::settled, smith_body::specs::Settled::settling_at, smith_body::specs::Bodies::statement_at, smith_body::specs::Bodies::value_at, smith_body::specs::Bodies::ending_at, smith_body::specs::Bodies::results_at, smith_body::specs::Repeats::repeat_at, smith_body::specs::Repeats::times_at, smith_body::specs::Repeats::way_at, smith_body_memory::specs::Accesses::access_at, smith_body_memory::specs::Accesses::offset_at, smith_body_memory::specs::Accesses::place_at, smith_body_choices::specs::Choices::allowed_choice_at, smith_body_control::specs::BlockChoices::any_block_at, smith_body_choices::specs::Choices::any_call_at, smith_body_choices::specs::Choices::any_statement_at, smith_body_control::specs::BlockChoices::block_at, smith_body_control::specs::BranchChoices::branch_at, smith_body_choices::specs::Choices::call_at, smith_body_choices::specs::Choices::drop_at, smith_body_choices::specs::Choices::dropped_at, smith_body_choices::specs::Choices::ending_choice_at, smith_body_choices::specs::Choices::ending_value_at, smith_body_choices::specs::Choices::global_set_at, smith_body_control::specs::BranchChoices::leaving_at, smith_body_memory::specs::MemoryChoices::load_at, smith_body_memory::specs::MemoryChoices::memory_at, smith_body_nodes::specs::NumericChoices::numeric_at, smith_body_control::specs::BlockChoices::opening_at, smith_body_choices::specs::Choices::set_at, smith_body_choices::specs::Choices::statement_choice_at, smith_body_memory::specs::MemoryChoices::store_at, smith_body_control::specs::BranchChoices::table_at, smith_body_control::specs::BranchChoices::target_count_at, smith_body_control::specs::BranchChoices::targets_at, smith_body_choices::specs::Choices::tee_at, smith_body_choices::specs::Choices::value_choice_at, smith_body_leaves::specs::Constants::double_at, smith_body_leaves::specs::Constants::float_at, smith_body_leaves::specs::Constants::integer32_at, smith_body_leaves::specs::Constants::integer64_at, smith_body_leaves::specs::Constants::lanes_at, smith_body_leaves::specs::Constants::vector_at, smith_body_leaves::specs::Leaves::any_leaf_at, smith_body_leaves::specs::Leaves::created_type, smith_body_leaves::specs::Leaves::first_leaf, smith_body_leaves::specs::Leaves::first_single, smith_body_leaves::specs::Leaves::i31_leaf, smith_body_leaves::specs::Leaves::leaf_within, smith_body_leaves::specs::Leaves::spare_leaf, smith_body_leaves::specs::Leaves::constant_instr_at, smith_body_leaves::specs::Leaves::leaf_choice_at, smith_body_leaves::specs::Leaves::named_at, smith_body_nodes::specs::Items::index_at, smith_body_nodes::specs::Offered::chunk_at, smith_body_nodes::specs::Offered::offered, smith_body_nodes::specs::Scopes::is_permitted, smith_body_nodes::specs::Scopes::widest, smith_body_control::specs::ThrowChoices::any_throw_at, smith_body_control::specs::ThrowChoices::tag_at, smith_body_control::specs::ThrowChoices::throw_at, smith_body_control::specs::TryChoices::any_try_at, smith_body_control::specs::TryChoices::clause_at, smith_body_control::specs::TryChoices::clauses_at, smith_body_control::specs::TryChoices::tagged_clause_at, smith_body_control::specs::TryChoices::referenced_at, smith_body_control::specs::TryChoices::try_at, smith_draw_types::specs::Choices::chosen_at, smith_draw_types::specs::Below::is_heap_below, smith_draw_types::specs::Offered::ancestors, smith_instr::specs::Enabled::is_enabled, smith_bytes::specs::Draws::bool_at, smith_bytes::specs::Draws::choose_at, smith_bytes::specs::Draws::digit_count, smith_bytes::specs::Draws::range_at, smith_bytes::specs::Draws::whole_at, smith_body_leaves::specs::DrawnLeaves::leaf_at, smith_body_leaves::specs::DrawnLeaves::preferred_at, smith_body_leaves::specs::DrawnLeaves::value_for, smith_body_leaves::specs::DrawnLeaves::variable_at))]

mod atomics;
mod blocks;
mod branches;
mod budget;
mod bulk;
mod calls;
mod casts;
mod creations;
mod enabled;
mod exceptions;
mod fields;
mod handlers;
mod memories;
mod null_branches;
mod offers;
mod offsets;
mod operands;
mod references;
mod repeats;
mod scopes;
mod settled;
mod spare_leaves;
mod statements;
mod stops;
mod tables;
mod traps;
mod values;
mod vectors;
