#![tactic(auto, unfolding(smith_body_reference_branches::specs::CastBranchChoices::cast_branch_for, smith_body_reference_branches::specs::CastBranchChoices::left_out_at, smith_body_reference_branches::specs::CastBranchChoices::cast_value_at, smith_body_casts::specs::CastChoices::cast_at, smith_body_casts::specs::CastChoices::cast_choice_at, smith_body_casts::specs::CastChoices::cast_for, smith_body_casts::specs::CastChoices::conversion_at, smith_body_casts::specs::CastChoices::non_null_test_at, smith_body_casts::specs::CastChoices::scalar_at, smith_body_casts::specs::CastChoices::type_test_at, smith_body_nodes::specs::Offered::chunk_at, smith_body_nodes::specs::Offered::offered, smith_draw_types::specs::Below::is_heap_below, smith_draw_types::specs::Choices::chosen_at, smith_draw_types::specs::Offered::ancestors, smith_bytes::specs::Draws::bool_at, smith_bytes::specs::Draws::choose_at, smith_bytes::specs::Draws::digit_count, smith_bytes::specs::Draws::range_at))]

ghost use Rattle.std.specs.Prelude.{◌≡◌, Some, None, [], ◌∷◌, false, true};
ghost use Rattle.smith_types.specs.ExampleTypes.{not_null, nullable, plain};
ghost use Rattle.smith_types.specs.Flags.{funcref};
ghost use Rattle.smith_types.specs.Syntax.value_type.AbstractHeapType.TheVariants as heap;
ghost use Rattle.smith_types.specs.Syntax.value_type.HeapType.TheVariants.{Abstract, Concrete};
ghost use Rattle.smith_types.specs.Syntax.value_type.ValType.TheVariants.{I32, I64, Ref};
ghost use Rattle.smith_instr.specs.declared.aggregate.AggregateInstr.TheVariants as aggregate;
ghost use Rattle.smith_instr.specs.declared.instr.Instr.TheVariants as instr;
ghost use Rattle.smith_instr.specs.declared.reference.ReferenceInstr.TheVariants as reference;
ghost use Rattle.smith_body_reference_branches.specs.CastBranchChoices.{cast_branch_at, cast_value_at, is_exception};
ghost use Rattle.smith_body_casts.specs.CastChoices.{cast_choice_at};
ghost use Rattle.smith_body_nodes.specs.Nodes.{aggregate_of, node_of};
ghost use Rattle.smith_instr_examples.specs.ExampleManaged.{casting as cast};
ghost use Rattle.smith_instr_examples.specs.ExampleBodies.{exnref};
ghost use Rattle.smith_body_examples.specs.ExampleAggregates.{aggregates, any, any_of, branching, labelled_by, references, some, some_of};
ghost use Rattle.smith_body_examples.specs.ExampleAggregates.{unmanaged};

fn numbers()
    ensures length { cast_choice_at (aggregates []) I32 (0 ∷ 9 ∷ [])
        ≡ (Some (aggregate_of (any_of heap.Array ∷ []) aggregate.ArrayLen), 9 ∷ []) }
    ensures with_its_sign { cast_choice_at (aggregates []) I32 (1 ∷ 9 ∷ [])
        ≡ (Some (aggregate_of (any_of heap.I31 ∷ []) aggregate.I31GetS), 9 ∷ []) }
    ensures without_a_sign { cast_choice_at (aggregates []) I32 (2 ∷ 9 ∷ [])
        ≡ (Some (aggregate_of (any_of heap.I31 ∷ []) aggregate.I31GetU), 9 ∷ []) }
    ensures wide { cast_choice_at (aggregates []) I64 (0 ∷ 9 ∷ []) ≡ (None, 0 ∷ 9 ∷ []) }
    ensures without_garbage_collection { cast_choice_at unmanaged I32 (0 ∷ 9 ∷ []) ≡ (None, 0 ∷ 9 ∷ []) }
{}

fn tests()
    ensures from_a_type_above { cast_choice_at (aggregates references) I32 (3 ∷ 0 ∷ 0 ∷ 1 ∷ [])
        ≡ (Some (node_of (any_of heap.Struct ∷ []) (instr.Reference (reference.Test (not_null (Concrete 0)))) 0), []) }
    ensures from_the_top { cast_choice_at (aggregates references) I32 (3 ∷ 0 ∷ 1 ∷ 9 ∷ [])
        ≡ (Some (node_of (any_of heap.Any ∷ []) (instr.Reference (reference.Test (not_null (Concrete 0)))) 0), 9 ∷ []) }
    ensures from_another_hierarchy { ¬ (cast_choice_at (aggregates references) I32 (3 ∷ 0 ∷ 0 ∷ 2 ∷ [])
        ≡ (Some (node_of (any_of heap.Extern ∷ []) (instr.Reference (reference.Test (not_null (Concrete 0)))) 0), [])) }
    ensures from_the_type_itself { cast_choice_at (aggregates references) I32 (3 ∷ 2 ∷ 0 ∷ 9 ∷ [])
        ≡ (Some (node_of (any_of heap.Extern ∷ []) (instr.Reference (reference.Test (nullable (plain heap.Extern)))) 0), 9 ∷ []) }
    ensures without_a_reference { cast_choice_at (aggregates (I64 ∷ [])) I32 (3 ∷ 9 ∷ []) ≡ (None, 9 ∷ []) }
    ensures without_null { cast_choice_at (aggregates references) I32 (4 ∷ 2 ∷ 0 ∷ 9 ∷ [])
        ≡ (Some (node_of (any_of heap.Extern ∷ []) (instr.Reference (reference.Test (not_null (plain heap.Extern)))) 0), 9 ∷ []) }
{}

fn conversions()
    ensures i31 { cast_choice_at (aggregates []) (any_of heap.Eq) (0 ∷ 9 ∷ []) ≡ (Some (aggregate_of (I32 ∷ []) aggregate.RefI31), 9 ∷ []) }
    ensures shared_i31 { cast_choice_at (aggregates []) (Ref (not_null (Abstract true heap.I31))) (0 ∷ 9 ∷ [])
        ≡ (Some (aggregate_of (I32 ∷ []) aggregate.RefI31Shared), 9 ∷ []) }
    ensures no_i31 { cast_choice_at (aggregates []) (Ref funcref) (0 ∷ 9 ∷ []) ≡ (None, 9 ∷ []) }
    ensures to_internal { cast_choice_at (aggregates []) (any_of heap.Any) (1 ∷ 9 ∷ [])
        ≡ (Some (aggregate_of (any_of heap.Extern ∷ []) aggregate.AnyConvertExtern), 9 ∷ []) }
    ensures to_external { cast_choice_at (aggregates []) (some_of heap.Extern) (1 ∷ 9 ∷ [])
        ≡ (Some (aggregate_of (some_of heap.Any ∷ []) aggregate.ExternConvertAny), 9 ∷ []) }
    ensures null_becomes_something { ¬ (cast_choice_at (aggregates []) (some_of heap.Extern) (1 ∷ 9 ∷ [])
        ≡ (Some (aggregate_of (any_of heap.Any ∷ []) aggregate.ExternConvertAny), 9 ∷ [])) }
    ensures to_a_struct { cast_choice_at (aggregates []) (some 0) (1 ∷ 9 ∷ []) ≡ (None, 9 ∷ []) }
    ensures to_internal_again { cast_choice_at (aggregates []) (any_of heap.Any) (4 ∷ 9 ∷ [])
        ≡ (Some (aggregate_of (any_of heap.Extern ∷ []) aggregate.AnyConvertExtern), 9 ∷ []) }
{}

fn casts()
    ensures from_a_local { cast_choice_at (aggregates references) (some 1) (2 ∷ 0 ∷ 9 ∷ [])
        ≡ (Some (node_of (any_of heap.Struct ∷ []) (instr.Reference (reference.Cast (not_null (Concrete 1)))) 0), 9 ∷ []) }
    ensures from_another_hierarchy { ¬ (cast_choice_at (aggregates references) (some 1) (2 ∷ 0 ∷ 9 ∷ [])
        ≡ (Some (node_of (any_of heap.Extern ∷ []) (instr.Reference (reference.Cast (not_null (Concrete 1)))) 0), 9 ∷ [])) }
    ensures without_a_local { cast_choice_at (aggregates []) (some 0) (2 ∷ 0 ∷ 9 ∷ [])
        ≡ (Some (node_of (any_of heap.Any ∷ []) (instr.Reference (reference.Cast (not_null (Concrete 0)))) 0), 9 ∷ []) }
    ensures from_the_top { cast_choice_at (aggregates references) (some 0) (2 ∷ 1 ∷ 9 ∷ [])
        ≡ (Some (node_of (any_of heap.Any ∷ []) (instr.Reference (reference.Cast (not_null (Concrete 0)))) 0), 9 ∷ []) }
    ensures from_the_top_of_external_values { cast_choice_at (aggregates []) (some_of heap.NoExtern) (2 ∷ 1 ∷ 9 ∷ [])
        ≡ (Some (node_of (any_of heap.Extern ∷ []) (instr.Reference (reference.Cast (not_null (plain heap.NoExtern)))) 0), 9 ∷ []) }
    ensures of_an_exception { cast_choice_at (aggregates []) (some_of heap.NoExn) (2 ∷ 1 ∷ 9 ∷ [])
        ≡ (Some (node_of (any_of heap.NoExn ∷ []) (instr.Reference (reference.Cast (not_null (plain heap.NoExn)))) 0), 9 ∷ []) }
    ensures without_null { cast_choice_at (aggregates []) (any 0) (3 ∷ 0 ∷ 9 ∷ [])
        ≡ (Some (node_of (any_of heap.Any ∷ []) (instr.Reference (reference.Cast (not_null (Concrete 0)))) 0), 9 ∷ []) }
{}

fn branches()
    ensures on_a_cast { cast_branch_at (branching (any_of heap.Struct ∷ [])) (1 ∷ 0 ∷ 0 ∷ 9 ∷ [])
        ≡ (
          Some (node_of (I32 ∷ any_of heap.Struct ∷ [])
              (instr.BrOnCast (cast 0 (nullable (plain heap.Struct)) (nullable (Concrete 0)))) 2),
          9 ∷ [],
        ) }
    ensures on_its_failure { cast_branch_at (branching (I64 ∷ some 0 ∷ [])) (0 ∷ 0 ∷ 0 ∷ 9 ∷ [])
        ≡ (Some (node_of (I32 ∷ any 0 ∷ []) (instr.BrOnCastFail (cast 0 (nullable (Concrete 0)) (not_null (Concrete 0)))) 2), 9 ∷ []) }
    ensures without_a_local { cast_branch_at (branching []) (0 ∷ 0 ∷ 0 ∷ 9 ∷ [])
        ≡ (Some (node_of (I32 ∷ any 0 ∷ []) (instr.BrOnCastFail (cast 0 (nullable (Concrete 0)) (nullable (Concrete 0)))) 2), 9 ∷ []) }
    ensures number_is_kept { ¬ (cast_branch_at (branching []) (0 ∷ 0 ∷ 0 ∷ 9 ∷ [])
        ≡ (Some (node_of (I32 ∷ any 0 ∷ []) (instr.BrOnCastFail (cast 0 (nullable (Concrete 0)) (nullable (Concrete 0)))) 1), 9 ∷ [])) }
    ensures no_label_of_a_reference { cast_branch_at (labelled_by ((any 0 ∷ I64 ∷ []) ∷ [])) (1 ∷ 9 ∷ []) ≡ (None, 1 ∷ 9 ∷ []) }
{}

fn branches_between_types()
    ensures to_a_type_below { cast_branch_at (labelled_by ((any_of heap.Struct ∷ []) ∷ [])) (1 ∷ 1 ∷ 1 ∷ 1 ∷ 9 ∷ [])
        ≡ (Some (node_of (any_of heap.Any ∷ []) (instr.BrOnCast (cast 0 (nullable (plain heap.Any)) (nullable (Concrete 1)))) 1), 9 ∷ []) }
    ensures from_a_type_below { cast_branch_at (labelled_by ((any_of heap.Struct ∷ []) ∷ [])) (0 ∷ 1 ∷ 0 ∷ 0 ∷ 9 ∷ [])
        ≡ (Some (node_of (any 0 ∷ []) (instr.BrOnCastFail (cast 0 (nullable (Concrete 0)) (nullable (Concrete 0)))) 1), 9 ∷ []) }
    ensures failed_to_a_type_below { cast_branch_at (labelled_by ((some_of heap.Array ∷ []) ∷ [])) (0 ∷ 0 ∷ 1 ∷ 2 ∷ 9 ∷ [])
        ≡ (
          Some (node_of (some_of heap.Array ∷ [])
              (instr.BrOnCastFail (cast 0 (not_null (plain heap.Array)) (not_null (Concrete 4)))) 1),
          9 ∷ [],
        ) }
    ensures no_type_below { cast_branch_at (labelled_by ((any 0 ∷ []) ∷ [])) (1 ∷ 1 ∷ 1 ∷ 9 ∷ [])
        ≡ (Some (node_of (any_of heap.Any ∷ []) (instr.BrOnCast (cast 0 (nullable (plain heap.Any)) (nullable (Concrete 0)))) 1), 9 ∷ []) }
{}

fn branches_on_exceptions()
    ensures left_out { cast_branch_at (labelled_by ((exnref ∷ []) ∷ [])) (14 ∷ 9 ∷ []) ≡ (None, 9 ∷ []) }
    ensures one_of_16 { cast_branch_at (labelled_by ((exnref ∷ []) ∷ [])) (15 ∷ 0 ∷ 0 ∷ 0 ∷ 9 ∷ [])
        ≡ (Some (node_of (exnref ∷ []) (instr.BrOnCastFail (cast 0 (nullable (plain heap.Exn)) (nullable (plain heap.Exn)))) 1), 9 ∷ []) }
    ensures always_made { ¬ (cast_branch_at (labelled_by ((exnref ∷ []) ∷ [])) (0 ∷ 0 ∷ 0 ∷ 9 ∷ [])
        ≡ (Some (node_of (exnref ∷ []) (instr.BrOnCastFail (cast 0 (nullable (plain heap.Exn)) (nullable (plain heap.Exn)))) 1), 9 ∷ [])) }
{}

fn kept_casts_of_exceptions()
    ensures left_out { cast_value_at (labelled_by ((exnref ∷ []) ∷ [])) exnref (0 ∷ 9 ∷ []) ≡ (None, 9 ∷ []) }
    ensures one_of_16 { cast_value_at (labelled_by ((exnref ∷ []) ∷ [])) exnref (15 ∷ 9 ∷ [])
        ≡ (Some (node_of (exnref ∷ []) (instr.BrOnCastFail (cast 0 (nullable (plain heap.Exn)) (nullable (plain heap.Exn)))) 0), 9 ∷ []) }
{}

fn exceptions()
    ensures of_all { is_exception (plain heap.Exn) ≡ true }
    ensures of_none { is_exception (Abstract true heap.NoExn) ≡ true }
    ensures external { is_exception (plain heap.Extern) ≡ false }
    ensures of_a_type { is_exception (Concrete 0) ≡ false }
{}

fn kept_casts()
    ensures one_of_two_labels { cast_value_at (labelled_by ((any_of heap.Struct ∷ []) ∷ (any 0 ∷ []) ∷ [])) (some 0) (1 ∷ 9 ∷ [])
        ≡ (Some (node_of (any 0 ∷ []) (instr.BrOnCastFail (cast 1 (nullable (Concrete 0)) (not_null (Concrete 0)))) 0), 9 ∷ []) }
    ensures label_of_another_hierarchy { cast_value_at (labelled_by ((any_of heap.Extern ∷ []) ∷ [])) (some 0) (9 ∷ []) ≡ (None, 9 ∷ []) }
    ensures label_of_two_values { cast_value_at (labelled_by ((I32 ∷ any 0 ∷ []) ∷ [])) (some 0) (9 ∷ []) ≡ (None, 9 ∷ []) }
    ensures number { cast_value_at (labelled_by ((any 0 ∷ []) ∷ [])) I32 (9 ∷ []) ≡ (None, 9 ∷ []) }
{}
