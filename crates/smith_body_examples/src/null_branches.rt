#![tactic(auto, unfolding(smith_body_reference_branches::specs::NullChoices::br_on_non_null_at, smith_body_reference_branches::specs::NullChoices::br_on_null_at, smith_body_reference_branches::specs::NullChoices::br_on_null_value_at, smith_body_reference_branches::specs::NullChoices::null_branch_at, smith_body_nodes::specs::ReferenceChoices::referent_at, smith_body_nodes::specs::Offered::chunk_at, smith_body_nodes::specs::Offered::offered, smith_draw_types::specs::Choices::chosen_at, smith_bytes::specs::Draws::bool_at, smith_bytes::specs::Draws::choose_at, smith_bytes::specs::Draws::digit_count, smith_bytes::specs::Draws::range_at))]

ghost use Rattle.std.specs.Prelude.{◌≡◌, Some, None, [], ◌∷◌};
ghost use Rattle.smith_types.specs.Flags.{funcref};
ghost use Rattle.smith_types.specs.Syntax.value_type.ValType.TheVariants.{I32, I64, Ref};
ghost use Rattle.smith_instr.specs.declared.instr.Instr.TheVariants as instr;
ghost use Rattle.smith_instr_examples.specs.ExampleBodies.{some_func};
ghost use Rattle.smith_body_nodes.specs.Nodes.{node_of};
ghost use Rattle.smith_body_reference_branches.specs.NullChoices.{br_on_null_value_at, null_branch_at};
ghost use Rattle.smith_body_examples.specs.ExampleContexts.{among, external, labelled_four, without_references};

fn values()
    ensures label_without_values { br_on_null_value_at labelled_four some_func (1 ∷ [])
        ≡ (Some (node_of (Ref funcref ∷ []) (instr.BrOnNull 0) 0), 1 ∷ []) }
    ensures one_of_two_labels { br_on_null_value_at (among ([] ∷ (I64 ∷ []) ∷ [] ∷ [])) some_func (1 ∷ [])
        ≡ (Some (node_of (Ref funcref ∷ []) (instr.BrOnNull 2) 0), []) }
    ensures no_such_label { br_on_null_value_at (among ((I64 ∷ []) ∷ [])) some_func (1 ∷ []) ≡ (None, 1 ∷ []) }
    ensures number { br_on_null_value_at labelled_four I32 (1 ∷ []) ≡ (None, 1 ∷ []) }
{}

fn on_null()
    ensures value_and_reference_are_dropped { null_branch_at labelled_four (1 ∷ 1 ∷ 1 ∷ [])
        ≡ (Some (node_of (I64 ∷ Ref external ∷ []) (instr.BrOnNull 1) 2), []) }
    ensures reference_is_not_taken { null_branch_at labelled_four (1 ∷ 2 ∷ 0 ∷ [])
        ≡ (Some (node_of (I32 ∷ Ref funcref ∷ Ref funcref ∷ []) (instr.BrOnNull 3) 3), []) }
    ensures label_of_three_values { ¬ (null_branch_at labelled_four (1 ∷ 2 ∷ 0 ∷ [])
        ≡ (Some (node_of (I32 ∷ I32 ∷ I32 ∷ Ref funcref ∷ []) (instr.BrOnNull 2) 4), [])) }
    ensures without_reference_types { null_branch_at (without_references labelled_four) (1 ∷ 1 ∷ 1 ∷ []) ≡ (None, 1 ∷ 1 ∷ []) }
{}

fn on_what_is_not_null()
    ensures reference_is_taken { null_branch_at labelled_four (0 ∷ 5 ∷ [])
        ≡ (Some (node_of (I32 ∷ Ref funcref ∷ []) (instr.BrOnNonNull 3) 1), 5 ∷ []) }
    ensures reference_is_dropped { ¬ (null_branch_at labelled_four (0 ∷ 5 ∷ [])
        ≡ (Some (node_of (I32 ∷ Ref funcref ∷ []) (instr.BrOnNonNull 3) 2), 5 ∷ [])) }
    ensures for_what_is_never_null { null_branch_at (among ((some_func ∷ []) ∷ [])) (0 ∷ [])
        ≡ (Some (node_of (Ref funcref ∷ []) (instr.BrOnNonNull 0) 0), []) }
    ensures no_such_label { null_branch_at (among ((Ref funcref ∷ I64 ∷ []) ∷ [])) (0 ∷ 5 ∷ []) ≡ (None, 5 ∷ []) }
{}
