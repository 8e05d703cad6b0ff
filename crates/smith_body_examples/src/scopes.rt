#![tactic(auto, unfolding(smith_body_leaves::specs::Leaves::longest_leaf, smith_body_leaves::specs::Leaves::widest_struct, smith_body_nodes::specs::Scopes::widest))]

ghost use Rattle.std.specs.Prelude.{◌≡◌, ◌-◌, ◌^◌, [], ◌∷◌, replicate};
ghost use Rattle.smith_types.specs.ExampleTypes.{final_type, plain_func, struct, taking};
ghost use Rattle.smith_types.specs.Syntax.composite_type.CompositeInnerType.TheVariants.{Func};
ghost use Rattle.smith_types.specs.Syntax.value_type.ValType.TheVariants.{I32, I64};
ghost use Rattle.smith_config.specs.Config.{default_config};
ghost use Rattle.smith_body_nodes.specs.Scopes.{func_size, indexed, most, widest};
ghost use Rattle.smith_body_leaves.specs.Leaves.{longest_leaf, widest_struct};
ghost use Rattle.smith_body_examples.specs.ExampleAggregates.{with_fields};
ghost use Rattle.smith_body_examples.specs.ExampleBytes.{trapless};

fn indices()
    ensures few { indexed 3 ≡ 3 }
    ensures all { indexed (2 ^ 32 - 1) ≡ 2 ^ 32 - 1 }
    ensures more { indexed (2 ^ 32) ≡ 2 ^ 32 - 1 }
{}

fn sizes()
    ensures no_type { widest [] ≡ 3 }
    ensures of_a_function { func_size (Func (record { params = I32 ∷ I32 ∷ []; results = I64 ∷ [] })) ≡ 3 }
    ensures of_a_struct { func_size (struct []) ≡ 0 }
    ensures a_wide_function { widest (final_type plain_func ∷ final_type (Func (record { params = replicate 4 I32; results = I64 ∷ [] }))
        ∷ []) ≡ 5 }
    ensures a_narrow_function { widest (final_type plain_func ∷ []) ≡ 3 }
    ensures instructions_for_one_unit { most [] ≡ 16 }
{}

fn fields()
    ensures no_type { widest_struct [] ≡ 2 }
    ensures of_one_field { widest_struct (with_fields 1 ∷ []) ≡ 2 }
    ensures of_three_fields { widest_struct (with_fields 3 ∷ []) ≡ 3 }
    ensures between_others { widest_struct (with_fields 3 ∷ with_fields 5 ∷ with_fields 4 ∷ []) ≡ 5 }
    ensures no_struct { widest_struct (final_type (taking (replicate 5 I32)) ∷ []) ≡ 2 }
{}

fn values_without_a_budget()
    ensures with_traps { longest_leaf default_config (with_fields 5 ∷ []) ≡ 2 }
    ensures no_type { longest_leaf trapless [] ≡ 3 }
    ensures no_struct { longest_leaf trapless (final_type (taking (replicate 5 I32)) ∷ []) ≡ 3 }
    ensures of_two_fields { longest_leaf trapless (with_fields 2 ∷ []) ≡ 3 }
    ensures of_five_fields { longest_leaf trapless (with_fields 5 ∷ []) ≡ 6 }
    ensures between_others { longest_leaf trapless (with_fields 3 ∷ with_fields 5 ∷ with_fields 4 ∷ []) ≡ 6 }
{}
