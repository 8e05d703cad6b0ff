ghost use Rattle.std.specs.Prelude.{◌≡◌, [], ◌∷◌, ◌++◌, false};
ghost use Rattle.smith_types.specs.ExampleFeatures.{usual_features};
ghost use Rattle.smith_types.specs.Syntax.value_type.ValType.TheVariants.{I32, I64};
ghost use Rattle.smith_config.specs.Config.{default_config};
ghost use Rattle.smith_instr.specs.declared.control.BlockType.TheVariants as block;
ghost use Rattle.smith_instr.specs.declared.control.Catch.TheVariants as catch;
ghost use Rattle.smith_instr.specs.declared.instr.Instr.TheVariants as instr;
ghost use Rattle.smith_instr.specs.declared.reference.ReferenceInstr.TheVariants as reference;
ghost use Rattle.smith_instr_examples.specs.ExampleBodies.{exnref, function_of, number};
ghost use Rattle.smith_body.specs.Bodies.{body_at};
ghost use Rattle.smith_body_control.specs.ThrowChoices.{exn};
ghost use Rattle.smith_body_examples.specs.ExampleBytes.{narrow, wide, wide_number, without_exceptions};

fn throws()
    ensures exception_of_a_tag { body_at default_config (function_of [] []) 1 (252 ∷ 4 ∷ 1 ∷ narrow 5)
        ≡ (number 5 ∷ instr.Throw 0 ∷ [], []) }
    ensures for_a_value { body_at default_config (function_of [] (I64 ∷ [])) 1 (0 ∷ 12 ∷ 7 ∷ 4 ∷ 1 ∷ narrow 5)
        ≡ (number 5 ∷ instr.Throw 0 ∷ [], []) }
    ensures without_its_value { ¬ (body_at default_config (function_of [] []) 1 (252 ∷ 4 ∷ 1 ∷ narrow 5) ≡ (instr.Throw 0 ∷ [], narrow 5)) }
    ensures no_tag { body_at default_config (record (function_of [] []) { tags = [] }) 1 (252 ∷ 4 ∷ 1 ∷ []) ≡ ([], []) }
    ensures no_tag_for_a_value { body_at default_config (record (function_of [] (I64 ∷ [])) { tags = [] }) 1 (0 ∷ 12 ∷ 7 ∷ 4 ∷ 1 ∷ wide 5)
        ≡ (wide_number 5 ∷ [], []) }
    ensures by_reference { body_at default_config (function_of [] []) 1 (252 ∷ 4 ∷ 7 ∷ 4 ∷ [])
        ≡ (instr.Reference (reference.Null exn) ∷ instr.ThrowRef ∷ [], []) }
{}

fn clauses()
    ensures none { body_at default_config (function_of [] (I32 ∷ [])) 1 (0 ∷ 34 ∷ 0 ∷ narrow 5)
        ≡ (instr.TryTable (block.Value I32) [] ∷ number 5 ∷ instr.End ∷ [], []) }
    ensures of_a_tag { body_at default_config (function_of [] (I32 ∷ [])) 1 (0 ∷ 34 ∷ 1 ∷ 1 ∷ 0 ∷ narrow 5)
        ≡ (instr.TryTable (block.Value I32) (catch.One 0 0 ∷ []) ∷ number 5 ∷ instr.End ∷ [], []) }
    ensures of_a_tag_with_a_reference { body_at default_config (function_of [] (I32 ∷ exnref ∷ [])) 1
        (1 ∷ 29 ∷ 1 ∷ 1 ∷ 1 ∷ 0 ∷ narrow 5 ++ 4 ∷ [])
        ≡ (
          instr.TryTable (block.Func 0) (catch.OneRef 0 0 ∷ []) ∷ instr.End ∷ number 5 ∷ instr.Reference (reference.Null exn)
              ∷ [],
          [],
        ) }
    ensures of_all { body_at default_config (function_of [] []) 1 (1 ∷ 29 ∷ 1 ∷ 0 ∷ 0 ∷ 0 ∷ [])
        ≡ (instr.TryTable (block.Func 0) (catch.All 0 ∷ []) ∷ instr.End ∷ [], []) }
    ensures of_all_with_a_reference { body_at default_config (function_of [] (exnref ∷ [])) 1 (0 ∷ 34 ∷ 1 ∷ 0 ∷ 1 ∷ 4 ∷ [])
        ≡ (instr.TryTable (block.Value exnref) (catch.AllRef 0 ∷ []) ∷ instr.Reference (reference.Null exn) ∷ instr.End ∷ [], []) }
    ensures two { body_at default_config (function_of [] (I32 ∷ [])) 1 (0 ∷ 34 ∷ 2 ∷ 1 ∷ 0 ∷ 1 ∷ 0 ∷ narrow 5)
        ≡ (instr.TryTable (block.Value I32) (catch.One 0 0 ∷ catch.One 0 0 ∷ []) ∷ number 5 ∷ instr.End ∷ [], []) }
{}

fn labels()
    ensures without_the_value { body_at default_config (function_of [] []) 1 (1 ∷ 29 ∷ 1 ∷ 1 ∷ 0 ∷ 0 ∷ [])
        ≡ (instr.TryTable (block.Func 0) [] ∷ instr.End ∷ [], []) }
    ensures without_the_reference { body_at default_config (function_of [] (I32 ∷ [])) 1 (0 ∷ 34 ∷ 1 ∷ 1 ∷ 1 ∷ narrow 5)
        ≡ (instr.TryTable (block.Value I32) [] ∷ number 5 ∷ instr.End ∷ [], []) }
    ensures a_reference_to_a_label_without_it { ¬ (body_at default_config (function_of [] (I32 ∷ [])) 1 (0 ∷ 34 ∷ 1 ∷ 1 ∷ 1 ∷ narrow 5)
        ≡ (instr.TryTable (block.Value I32) (catch.OneRef 0 0 ∷ []) ∷ number 5 ∷ instr.End ∷ [], [])) }
    ensures of_the_blocks_around_it { body_at default_config (function_of [] []) 2 (1 ∷ 7 ∷ 0 ∷ 0 ∷ 1 ∷ 29 ∷ 1 ∷ 0 ∷ 0 ∷ 1 ∷ 0 ∷ [])
        ≡ (instr.Block (block.Func 0) ∷ instr.TryTable (block.Func 0) (catch.All 1 ∷ []) ∷ instr.End ∷ instr.End ∷ [], []) }
    ensures not_its_own { body_at default_config (function_of [] (I32 ∷ [])) 1 (1 ∷ 29 ∷ 1 ∷ 0 ∷ 0 ∷ 0 ∷ narrow 5)
        ≡ (instr.TryTable (block.Func 0) [] ∷ instr.End ∷ number 5 ∷ [], []) }
{}

fn features()
    ensures no_throw { body_at default_config (without_exceptions []) 1 (252 ∷ 4 ∷ 1 ∷ narrow 5) ≡ ([], narrow 5) }
    ensures no_throw_of_a_reference { body_at default_config (without_exceptions []) 1 (252 ∷ 4 ∷ 7 ∷ []) ≡ ([], []) }
    ensures no_block { body_at default_config (without_exceptions (I32 ∷ [])) 1 (0 ∷ 34 ∷ 0 ∷ narrow 5) ≡ (number 5 ∷ [], []) }
    ensures no_reference { body_at default_config
        (record (function_of [] []) { features = record usual_features { function_references = false } }) 1 (1 ∷ 29 ∷ 1 ∷ 0 ∷ 1 ∷ 0 ∷ [])
        ≡ (instr.TryTable (block.Func 0) (catch.All 0 ∷ []) ∷ instr.End ∷ [], []) }
{}
