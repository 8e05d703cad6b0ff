#![tactic(auto, unfolding(smith_body_nodes::specs::ReferenceChoices::reference_value_at, smith_body_nodes::specs::ReferenceChoices::referent_at, smith_body_nodes::specs::ReferenceChoices::test_at, smith_draw_types::specs::Choices::chosen_at, smith_bytes::specs::Draws::bool_at, smith_bytes::specs::Draws::digit_count, smith_bytes::specs::Draws::range_at))]

ghost use Rattle.std.specs.Prelude.{◌≡◌, Some, None, [], ◌∷◌};
ghost use Rattle.smith_types.specs.ExampleTypes.{eqref, not_null, nullable, plain};
ghost use Rattle.smith_types.specs.Flags.{funcref};
ghost use Rattle.smith_types.specs.Syntax.value_type.AbstractHeapType.TheVariants as heap;
ghost use Rattle.smith_types.specs.Syntax.value_type.HeapType.TheVariants.{Concrete};
ghost use Rattle.smith_types.specs.Syntax.value_type.ValType.TheVariants.{I32, I64, F64, Ref};
ghost use Rattle.smith_instr.specs.declared.instr.Instr.TheVariants as instr;
ghost use Rattle.smith_instr.specs.declared.reference.ReferenceInstr.TheVariants as reference;
ghost use Rattle.smith_instr_examples.specs.ExampleBodies.{function_of, some_func};
ghost use Rattle.smith_body_nodes.specs.Nodes.{node_of};
ghost use Rattle.smith_body_nodes.specs.ReferenceChoices.{reference_value_at, referent_at, select_typed_node};
ghost use Rattle.smith_body_examples.specs.ExampleContexts.{external, unmanaged, without_references};

fn referents()
    ensures from_the_host { referent_at [] (1 ∷ 9 ∷ []) ≡ (plain heap.Extern, 9 ∷ []) }
    ensures of_a_local { referent_at (I64 ∷ Ref (not_null (Concrete 2)) ∷ []) (3 ∷ []) ≡ (Concrete 2, []) }
    ensures of_a_number { referent_at (I64 ∷ Ref (not_null (Concrete 2)) ∷ []) (2 ∷ []) ≡ (plain heap.Func, []) }
{}

fn tests()
    ensures null { reference_value_at (function_of (Ref (not_null (Concrete 2)) ∷ []) []) I32 (0 ∷ 2 ∷ [])
        ≡ (Some (node_of (Ref (nullable (Concrete 2)) ∷ []) (instr.Reference reference.IsNull) 0), []) }
    ensures same { reference_value_at (function_of [] []) I32 (1 ∷ 1 ∷ [])
        ≡ (Some (node_of (eqref ∷ eqref ∷ []) (instr.Reference reference.Eq) 0), 1 ∷ []) }
    ensures same_without_gc { reference_value_at (unmanaged (function_of [] [])) I32 (1 ∷ 1 ∷ []) ≡ (None, 1 ∷ []) }
    ensures null_without_gc { reference_value_at (unmanaged (function_of [] [])) I32 (0 ∷ 1 ∷ [])
        ≡ (Some (node_of (Ref external ∷ []) (instr.Reference reference.IsNull) 0), []) }
    ensures without_reference_types { reference_value_at (without_references (function_of [] [])) I32 (0 ∷ 1 ∷ []) ≡ (None, 0 ∷ 1 ∷ []) }
{}

fn values()
    ensures never_null { reference_value_at (function_of [] []) some_func (7 ∷ [])
        ≡ (Some (node_of (Ref funcref ∷ []) (instr.Reference reference.AsNonNull) 0), 7 ∷ []) }
    ensures of_what_is_never_null { ¬ (reference_value_at (function_of [] []) some_func (7 ∷ [])
        ≡ (Some (node_of (some_func ∷ []) (instr.Reference reference.AsNonNull) 0), 7 ∷ [])) }
    ensures maybe_null { reference_value_at (function_of [] []) (Ref funcref) (7 ∷ [])
        ≡ (Some (node_of (Ref funcref ∷ []) (instr.Reference reference.AsNonNull) 0), 7 ∷ []) }
    ensures number { reference_value_at (function_of [] []) F64 (7 ∷ []) ≡ (None, 7 ∷ []) }
    ensures one_of_two { select_typed_node (Ref funcref) ≡ node_of (Ref funcref ∷ Ref funcref ∷ I32
        ∷ []) (instr.SelectTyped (Ref funcref ∷ [])) 0 }
{}
