ghost use Rattle.std.specs.Prelude.{◌≡◌, Some, None, [], ◌∷◌, false, true};
ghost use Rattle.smith_types.specs.ExampleFeatures.{usual_features};
ghost use Rattle.smith_instr.specs.declared.control.BlockType.TheVariants as block;
ghost use Rattle.smith_instr.specs.declared.control.Catch.TheVariants as catch;
ghost use Rattle.smith_instr_examples.specs.ExampleBodies.{exnref, function_of};
ghost use Rattle.smith_body_nodes.specs.Nodes.{blocked};
ghost use Rattle.smith_body_nodes.specs.declared.node.Opening.TheVariants as opening;
ghost use Rattle.smith_body_control.specs.BlockChoices.{any_block_at, handler, is_of_handler};
ghost use Rattle.smith_body_control.specs.TryChoices.{clause_at};
ghost use Rattle.smith_body_examples.specs.ExampleContexts.{among};

fn handlers()
    ensures least_number { any_block_at (function_of [] []) (240 ∷ 9 ∷ []) ≡ (Some handler, 9 ∷ []) }
    ensures greatest_number { any_block_at (function_of [] []) (255 ∷ 9 ∷ []) ≡ (Some handler, 9 ∷ []) }
    ensures reference_is_dropped { handler ≡ blocked (Some opening.Block) (block.Value exnref) [] (exnref ∷ []) 1 }
    ensures reference_is_kept { ¬ (handler ≡ blocked (Some opening.Block) (block.Value exnref) [] (exnref ∷ []) 0) }
{}

fn other_blocks()
    ensures number_too_small { any_block_at (function_of [] []) (239 ∷ 0 ∷ 9 ∷ [])
        ≡ (Some (blocked (Some opening.IfAlone) (block.Func 0) [] [] 0), 9 ∷ []) }
    ensures without_exceptions { is_of_handler (record usual_features { exceptions = false }) 240 ≡ false }
    ensures without_references_that_are_not_null { is_of_handler (record usual_features { function_references = false }) 240 ≡ false }
    ensures with_both { is_of_handler usual_features 240 ≡ true }
    ensures without_a_handler { any_block_at
        (record (function_of [] []) { features = record usual_features { function_references = false } }) (240 ∷ 0 ∷ 9 ∷ [])
        ≡ (Some (blocked (Some opening.Block) (block.Func 0) [] [] 0), 9 ∷ []) }
{}

fn labels()
    ensures of_a_handler { clause_at (among ((exnref ∷ []) ∷ [])) (0 ∷ 1 ∷ 9 ∷ []) ≡ (Some (catch.AllRef 0), 9 ∷ []) }
    ensures of_another_block { clause_at (among ([] ∷ [])) (0 ∷ 1 ∷ 9 ∷ []) ≡ (None, 9 ∷ []) }
{}
