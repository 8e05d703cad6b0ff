#![tactic(auto, unfolding(smith_body_leaves::specs::Constants::double_at, smith_body_leaves::specs::Constants::float_at, smith_body_leaves::specs::Constants::integer32_at, smith_body_leaves::specs::Constants::integer64_at, smith_body_leaves::specs::Constants::lanes_at, smith_body_leaves::specs::Constants::vector_at, smith_body_leaves::specs::DrawnLeaves::leaf_at, smith_body_leaves::specs::DrawnLeaves::preferred_at, smith_body_leaves::specs::DrawnLeaves::value_for, smith_body_leaves::specs::DrawnLeaves::variable_at, smith_body_leaves::specs::Leaves::any_leaf_at, smith_body_leaves::specs::Leaves::created_type, smith_body_leaves::specs::Leaves::constant_instr_at, smith_body_leaves::specs::Leaves::first_leaf, smith_body_leaves::specs::Leaves::first_single, smith_body_leaves::specs::Leaves::i31_leaf, smith_body_leaves::specs::Leaves::leaf_within, smith_body_leaves::specs::Leaves::leaf_choice_at, smith_body_leaves::specs::Leaves::named_at, smith_body_leaves::specs::Leaves::spare_leaf, smith_body_nodes::specs::Scopes::is_permitted, smith_instr::specs::Enabled::is_enabled, smith_draw_types::specs::Below::is_heap_below, smith_draw_types::specs::Choices::chosen_at, smith_draw_types::specs::Offered::ancestors, smith_body_nodes::specs::Offered::chunk_at, smith_body_nodes::specs::Offered::offered, smith_bytes::specs::Draws::choose_at, smith_bytes::specs::Draws::digit_count, smith_bytes::specs::Draws::range_at, smith_bytes::specs::Draws::whole_at))]

ghost use Rattle.std.specs.Prelude.{◌≡◌, ◌+◌, ◌^◌, true, [], ◌∷◌, pos};
ghost use Rattle.smith_types.specs.Types.{IsOrderly};
ghost use Rattle.smith_types.specs.Syntax.instruction_kind.InstructionKind.TheVariants.{Aggregate, NumericInt, Reference, Variable};
ghost use Rattle.smith_types.specs.Syntax.value_type.AbstractHeapType.TheVariants as heap;
ghost use Rattle.smith_types.specs.Syntax.value_type.HeapType.TheVariants.{Concrete};
ghost use Rattle.smith_config.specs.Config.{default_config};
ghost use Rattle.smith_instr.specs.declared.aggregate.AggregateInstr.TheVariants as aggregate;
ghost use Rattle.smith_instr.specs.declared.instr.Instr.TheVariants as instr;
ghost use Rattle.smith_instr.specs.declared.reference.ReferenceInstr.TheVariants as reference;
ghost use Rattle.smith_instr_examples.specs.ExampleBodies.{kinds_of, number};
ghost use Rattle.smith_body_leaves.specs.DrawnLeaves.{leaf_at};
ghost use Rattle.smith_body_leaves.specs.Laws.{HasNoOther};
ghost use Rattle.smith_body_leaves.specs.Leaves.{first_leaf, i31_type};
ghost use Rattle.smith_body_examples.specs.ExampleAggregates.{any, any_of, nested, paired, some, some_of, unnamed, untyped, wrapped};
ghost use Rattle.smith_body_examples.specs.ExampleBytes.{of_kinds, trapless};

fn spare_leaves()
    ensures struct_of_default_values { first_leaf trapless unnamed [] (some 0) ≡ instr.Aggregate (aggregate.StructNewDefault 0) ∷ [] }
    ensures array_without_elements { first_leaf trapless unnamed [] (some 3) ≡ instr.Aggregate (aggregate.ArrayNewFixed 3 0) ∷ [] }
    ensures first_of_three_arrays { first_leaf trapless unnamed [] (some_of heap.Array) ≡ instr.Aggregate (aggregate.ArrayNewFixed 2 0)
        ∷ [] }
    ensures struct_before_arrays { first_leaf trapless unnamed [] (some_of heap.Eq) ≡ instr.Aggregate (aggregate.StructNewDefault 0) ∷ [] }
    ensures null_before_a_struct { first_leaf trapless unnamed [] (any 0) ≡ instr.Reference (reference.Null (Concrete 0)) ∷ [] }
    ensures struct_without_default_values { first_leaf trapless unnamed [] (some 1) ≡ instr.Unreachable ∷ [] }
    ensures kind_that_is_not_allowed { first_leaf (record trapless { allowed_instructions = kinds_of NumericInt }) unnamed [] (some 0)
        ≡ instr.Unreachable ∷ [] }
    ensures exception { first_leaf trapless unnamed [] (some_of heap.Exn) ≡ instr.Unreachable ∷ [] }
{}

fn pairs()
    ensures i31 { first_leaf trapless unnamed [] (some_of heap.I31) ≡ number 0 ∷ instr.Aggregate aggregate.RefI31 ∷ [] }
    ensures shared_i31 { first_leaf trapless unnamed [] (i31_type true) ≡ number 0 ∷ instr.Aggregate aggregate.RefI31Shared ∷ [] }
    ensures i31_without_types { first_leaf trapless untyped [] (some_of heap.Any) ≡ number 0 ∷ instr.Aggregate aggregate.RefI31 ∷ [] }
    ensures constant_that_is_not_allowed { first_leaf (record trapless { allowed_instructions = kinds_of Aggregate }) untyped []
        (some_of heap.I31) ≡ instr.Unreachable ∷ [] }
    ensures external_struct { first_leaf trapless unnamed [] (some_of heap.Extern) ≡ instr.Aggregate (aggregate.StructNewDefault 0)
        ∷ instr.Aggregate aggregate.ExternConvertAny ∷ [] }
    ensures external_i31 { first_leaf trapless untyped [] (some_of heap.Extern) ≡ number 0 ∷ instr.Aggregate aggregate.RefI31
        ∷ instr.Aggregate aggregate.ExternConvertAny ∷ [] }
    ensures i31_of_a_global { first_leaf (record trapless { allowed_instructions = record { 0 = 2 ^ 11 + 2 ^ 6 } }) untyped []
        (some_of heap.I31) ≡ instr.GlobalGet 0 ∷ instr.Aggregate aggregate.RefI31 ∷ [] }
    ensures internal_local { first_leaf (record trapless { allowed_instructions = record { 0 = 2 ^ 11 + 2 ^ 6 } })
        (record untyped { globals = []; locals = some_of heap.Extern ∷ []; params = 1 }) [] (some_of heap.Any) ≡ instr.LocalGet 0
        ∷ instr.Aggregate aggregate.AnyConvertExtern ∷ [] }
    ensures conversion_that_is_not_allowed { first_leaf (record trapless { allowed_instructions = kinds_of Variable })
        (record untyped { locals = some_of heap.Extern ∷ []; params = 1 }) [] (some_of heap.Any) ≡ instr.Unreachable ∷ [] }
{}

fn created_structs()
    ensures of_a_struct { first_leaf trapless nested [] (some 1) ≡ instr.Aggregate (aggregate.StructNewDefault 0)
        ∷ instr.Aggregate (aggregate.StructNew 1) ∷ [] }
    ensures beside_numbers { first_leaf trapless nested [] (some 2) ≡ instr.GlobalGet 0 ∷ instr.I64Const (pos 0)
        ∷ instr.Aggregate (aggregate.StructNewDefault 0) ∷ instr.Aggregate (aggregate.StructNew 2) ∷ [] }
    ensures beside_numbers_without_globals { first_leaf trapless (record nested { globals = [] }) [] (some 2) ≡ number 0
        ∷ instr.I64Const (pos 0) ∷ instr.Aggregate (aggregate.StructNewDefault 0) ∷ instr.Aggregate (aggregate.StructNew 2) ∷ [] }
    ensures of_a_function { first_leaf trapless nested [] (some 4) ≡ instr.Reference (reference.Func 0)
        ∷ instr.Aggregate (aggregate.StructNew 4) ∷ [] }
    ensures without_functions { first_leaf trapless (record nested { references = [] }) [] (some 4) ≡ instr.Unreachable ∷ [] }
    ensures two_levels { first_leaf trapless nested [] (some 3) ≡ instr.Aggregate (aggregate.StructNewDefault 0)
        ∷ instr.Aggregate (aggregate.StructNew 1) ∷ instr.Aggregate (aggregate.StructNew 3) ∷ [] }
    ensures pair { first_leaf trapless paired [] (some 1) ≡ instr.Aggregate (aggregate.StructNewDefault 0)
        ∷ instr.Aggregate (aggregate.StructNewDefault 0) ∷ instr.Aggregate (aggregate.StructNew 1) ∷ [] }
    ensures pair_of_pairs { first_leaf trapless paired [] (some 2) ≡ instr.Unreachable ∷ [] }
    ensures any_struct { first_leaf trapless wrapped [] (some_of heap.Struct) ≡ instr.Reference (reference.Func 0)
        ∷ instr.Aggregate (aggregate.StructNew 0) ∷ [] }
    ensures of_any_struct { first_leaf trapless wrapped [] (some 1) ≡ instr.Reference (reference.Func 0)
        ∷ instr.Aggregate (aggregate.StructNew 0) ∷ instr.Aggregate (aggregate.StructNew 1) ∷ [] }
    ensures two_levels_from_a_local { first_leaf trapless (record nested { locals = some 1 ∷ []; params = 1 }) [] (some 3)
        ≡ instr.LocalGet 0 ∷ instr.Aggregate (aggregate.StructNew 3) ∷ [] }
    ensures kind_that_is_not_allowed { first_leaf (record trapless { allowed_instructions = kinds_of Variable })
        (record nested { locals = some 0 ∷ []; params = 1 }) [] (some 1) ≡ instr.Unreachable ∷ [] }
    ensures not_without_its_field { ¬ (first_leaf trapless nested [] (some 1) ≡ instr.Aggregate (aggregate.StructNew 1) ∷ []) }
{}

fn drawn_leaves()
    ensures struct_of_default_values { leaf_at trapless unnamed [] (some 0) (4 ∷ 15 ∷ 9 ∷ [])
        ≡ (instr.Aggregate (aggregate.StructNewDefault 0) ∷ [], 9 ∷ []) }
    ensures i31 { leaf_at trapless unnamed [] (some_of heap.I31) (4 ∷ 15 ∷ 9 ∷ [])
        ≡ (number 0 ∷ instr.Aggregate aggregate.RefI31 ∷ [], 9 ∷ []) }
    ensures i31_where_traps_are_allowed { leaf_at default_config unnamed [] (some_of heap.I31) (4 ∷ 15 ∷ 9 ∷ [])
        ≡ (instr.Unreachable ∷ [], 9 ∷ []) }
    ensures struct_of_a_struct { leaf_at trapless nested [] (some 1) (4 ∷ 0 ∷ 9 ∷ [])
        ≡ (instr.Aggregate (aggregate.StructNewDefault 0) ∷ instr.Aggregate (aggregate.StructNew 1) ∷ [], 9 ∷ []) }
    ensures struct_of_a_struct_where_traps_are_allowed { leaf_at default_config nested [] (some 1) (4 ∷ 0 ∷ 9 ∷ [])
        ≡ (instr.Unreachable ∷ [], 9 ∷ []) }
    ensures exception { leaf_at trapless unnamed [] (some_of heap.Exn) (4 ∷ 0 ∷ 9 ∷ []) ≡ (instr.Unreachable ∷ [], 9 ∷ []) }
{}

fn in_place_of_null()
    ensures struct_of_default_values { leaf_at default_config unnamed [] (any 0) (4 ∷ 0 ∷ 9 ∷ [])
        ≡ (instr.Aggregate (aggregate.StructNewDefault 0) ∷ [], 9 ∷ []) }
    ensures array_of_default_values { leaf_at default_config unnamed [] (any 2) (4 ∷ 0 ∷ 3 ∷ 9 ∷ [])
        ≡ (number 7 ∷ instr.Aggregate (aggregate.ArrayNewDefault 2) ∷ [], 9 ∷ []) }
    ensures any_array { leaf_at default_config unnamed [] (any_of heap.Eq) (4 ∷ 5 ∷ 1 ∷ 0 ∷ 9 ∷ [])
        ≡ (number 4 ∷ instr.Aggregate (aggregate.ArrayNewDefault 3) ∷ [], 9 ∷ []) }
    ensures i31 { leaf_at default_config unnamed [] (any_of heap.Eq) (4 ∷ 10 ∷ 0 ∷ 5 ∷ 9 ∷ [])
        ≡ (number 5 ∷ instr.Aggregate aggregate.RefI31 ∷ [], 9 ∷ []) }
    ensures null_all_the_same { leaf_at default_config unnamed [] (any 0) (4 ∷ 15 ∷ 9 ∷ [])
        ≡ (instr.Reference (reference.Null (Concrete 0)) ∷ [], 9 ∷ []) }
    ensures no_default_values { leaf_at default_config unnamed [] (any 1) (4 ∷ 0 ∷ 9 ∷ [])
        ≡ (instr.Reference (reference.Null (Concrete 1)) ∷ [], 9 ∷ []) }
    ensures kind_that_is_not_allowed { leaf_at (of_kinds (kinds_of Reference)) unnamed [] (any 0) (4 ∷ 0 ∷ 9 ∷ [])
        ≡ (instr.Reference (reference.Null (Concrete 0)) ∷ [], 9 ∷ []) }
    ensures local_without_null { leaf_at default_config (record unnamed { locals = any 0 ∷ some 0 ∷ []; params = 2 }) [] (any 0) (4 ∷ 0 ∷ 9
        ∷ []) ≡ (instr.LocalGet 1 ∷ [], 9 ∷ []) }
    ensures local_that_may_be_null { leaf_at default_config (record unnamed { locals = any 1 ∷ []; params = 1 }) [] (any 1) (4 ∷ 0 ∷ 9 ∷ [])
        ≡ (instr.LocalGet 0 ∷ [], 9 ∷ []) }
    ensures never_of_another_type { ¬ (leaf_at default_config unnamed [] (any 2) (4 ∷ 0 ∷ 3 ∷ 9 ∷ [])
        ≡ (instr.Aggregate (aggregate.StructNewDefault 0) ∷ [], 3 ∷ 9 ∷ [])) }
{}

fn orderly()
    ensures some { IsOrderly unnamed.types }
    ensures none { IsOrderly untyped.types }
    ensures structs { IsOrderly nested.types }
    ensures pairs { IsOrderly paired.types }
    ensures functions { IsOrderly wrapped.types }
{}

fn others()
    ensures exception { HasNoOther trapless unnamed [] (some_of heap.Exn) }
    ensures struct_of_default_values { ¬ HasNoOther trapless unnamed [] (some 0) }
    ensures i31 { ¬ HasNoOther trapless unnamed [] (some_of heap.I31) }
    ensures i31_of_no_allowed_constant { HasNoOther (record trapless { allowed_instructions = kinds_of Aggregate }) untyped []
        (some_of heap.I31) }
    ensures two_levels { ¬ HasNoOther trapless nested [] (some 3) }
    ensures pair_of_pairs { HasNoOther trapless paired [] (some 2) }
    ensures any_struct { ¬ HasNoOther trapless wrapped [] (some_of heap.Struct) }
    ensures struct_of_a_struct { ¬ HasNoOther trapless nested [] (some 1) }
    ensures external { ¬ HasNoOther trapless unnamed [] (some_of heap.Extern) }
    ensures external_without_types { ¬ HasNoOther trapless untyped [] (some_of heap.Extern) }
    ensures external_of_no_allowed_constant { HasNoOther (record trapless { allowed_instructions = kinds_of Aggregate }) untyped []
        (some_of heap.Extern) }
{
    orderly();
}
