ghost use Rattle.std.specs.Prelude.{◌≡◌, false, [], ◌∷◌};
ghost use Rattle.smith_types.specs.ExampleFeatures.{usual_features};
ghost use Rattle.smith_types.specs.Flags.{funcref};
ghost use Rattle.smith_types.specs.Syntax.instruction_kind.InstructionKind.TheVariants as kind;
ghost use Rattle.smith_types.specs.Syntax.value_type.ValType.TheVariants.{F32, I32, I64, Ref};
ghost use Rattle.smith_config.specs.Config.{default_config};
ghost use Rattle.smith_instr.specs.declared.control.BlockType.TheVariants as block;
ghost use Rattle.smith_instr.specs.declared.instr.Instr.TheVariants as instr;
ghost use Rattle.smith_instr.specs.declared.numeric.NumericInstr.TheVariants as numeric;
ghost use Rattle.smith_instr.specs.declared.numeric.WideArithmetic.TheVariants.{Add128};
ghost use Rattle.smith_instr.specs.declared.reference.ReferenceInstr.TheVariants as reference;
ghost use Rattle.smith_instr_examples.specs.ExampleBodies.{function_of, kinds_of, some_func};
ghost use Rattle.smith_body.specs.Left.{spare_of};
ghost use Rattle.smith_body_nodes.specs.declared.node.Head.TheVariants as head;
ghost use Rattle.smith_body_nodes.specs.declared.node.Opening.TheVariants as opening;
ghost use Rattle.smith_body_examples.specs.ExampleBytes.{calling};
ghost use Rattle.smith_body_examples.specs.ExampleContexts.{among};
ghost use Rattle.smith_body_examples.specs.ExampleSettled.{settled_by};

fn stored()
    ensures local { settled_by default_config (function_of (I64 ∷ I32 ∷ []) []) I32 [] ≡ (instr.LocalSet 1 ∷ [], []) }
    ensures variable_global { settled_by default_config (function_of (I64 ∷ I32 ∷ []) []) I32 (1 ∷ 9 ∷ [])
        ≡ (instr.GlobalSet 1 ∷ [], 9 ∷ []) }
    ensures constant_global { ¬ (settled_by default_config (function_of [] []) I32 [] ≡ (instr.GlobalSet 0 ∷ [], [])) }
    ensures not_of_another_type { settled_by default_config (function_of (Ref funcref ∷ []) []) some_func [] ≡ (instr.Drop ∷ [], []) }
    ensures not_if_forbidden { settled_by (record default_config { allowed_instructions = kinds_of kind.Numeric })
        (function_of (I32 ∷ []) []) I32 [] ≡ (instr.Drop ∷ [], []) }
{}

fn tested()
    ensures number { settled_by default_config (among ([] ∷ (I64 ∷ []) ∷ [] ∷ [])) I64 (1 ∷ 9 ∷ [])
        ≡ ((instr.Numeric numeric.I64Eqz) ∷ instr.BrIf 2 ∷ [], 9 ∷ []) }
    ensures only_labels_without_values { settled_by default_config (among ((I64 ∷ []) ∷ [])) I64 [] ≡ (instr.Drop ∷ [], []) }
    ensures nullable { settled_by default_config (among ([] ∷ [])) (Ref funcref) []
        ≡ ((instr.Reference reference.IsNull) ∷ instr.BrIf 0 ∷ [], []) }
    ensures never_null { settled_by default_config (among ([] ∷ [])) some_func [] ≡ (instr.Drop ∷ [], []) }
    ensures without_the_feature { settled_by default_config
        (record (among ([] ∷ [])) { features = record usual_features { saturating_float_to_int = false } }) F32 [] ≡ (instr.Drop ∷ [], []) }
{}

fn spare()
    ensures results_of_a_call { spare_of (calling []) (head.Plain (instr.Call 1)) 2 ≡ I32 ∷ I64 ∷ [] }
    ensures after_the_first { spare_of (calling []) (head.Plain (instr.Call 1)) 1 ≡ I64 ∷ [] }
    ensures first_of_a_call { ¬ (spare_of (calling []) (head.Plain (instr.Call 1)) 1 ≡ I32 ∷ []) }
    ensures of_a_branch { spare_of (among ((F32 ∷ []) ∷ [])) (head.Plain (instr.BrIf 0)) 1 ≡ F32 ∷ [] }
    ensures of_a_block { spare_of (among []) (head.Enclosed opening.Block (block.Func 0) (record { params = I32 ∷ []; results = F32 ∷ [] }))
        1 ≡ F32 ∷ [] }
    ensures not_known { spare_of (among []) (head.Plain (instr.Numeric (numeric.Wide Add128))) 1 ≡ [] }
{}
