ghost use Rattle.std.specs.Prelude.{◌≡◌, [], ◌∷◌, ◌++◌, false, true, pos};
ghost use Rattle.smith_types.specs.ExampleFeatures.{usual_features};
ghost use Rattle.smith_types.specs.Syntax.Instructions.{every_kind, kind_bits, kinds_bits, no_kind, union_of};
ghost use Rattle.smith_types.specs.Syntax.instruction_kind.InstructionKind.TheVariants as kind;
ghost use Rattle.smith_types.specs.Syntax.instruction_kind.InstructionKind.TheVariants.{Control, NumericInt};
ghost use Rattle.smith_types.specs.Syntax.value_type.ValType.TheVariants.{I32, I64, F32};
ghost use Rattle.smith_config.specs.Config.{default_config};
ghost use Rattle.smith_config.specs.ExampleMembers.{without_floats};
ghost use Rattle.smith_instr.specs.declared.instr.Instr.TheVariants as instr;
ghost use Rattle.smith_instr.specs.declared.memory.Load.TheVariants as load;
ghost use Rattle.smith_instr.specs.declared.numeric.Conversion.TheVariants as convert;
ghost use Rattle.smith_instr.specs.declared.numeric.FloatCompare.TheVariants as float_compare;
ghost use Rattle.smith_instr.specs.declared.numeric.IntCompare.TheVariants as int_compare;
ghost use Rattle.smith_instr.specs.declared.numeric.NumericInstr.TheVariants as numeric;
ghost use Rattle.smith_instr.specs.declared.vector.LaneShape.TheVariants as shape;
ghost use Rattle.smith_instr.specs.declared.vector.VectorInstr.TheVariants as vector;
ghost use Rattle.smith_instr_examples.specs.ExampleBodies.{aligned, function_of, kinds_of, number};
ghost use Rattle.smith_body.specs.Bodies.{body_at};
ghost use Rattle.smith_body_nodes.specs.Scopes.{is_permitted, kinds_of_bodies};
ghost use Rattle.smith_body_examples.specs.ExampleBytes.{calling, narrow, of_kinds, wide, wide_number};

fn kinds()
    ensures a_constant { body_at (of_kinds (kinds_of NumericInt)) (function_of [] (I32 ∷ [])) 1 (0 ∷ 0 ∷ narrow 7) ≡ (number 7 ∷ [], []) }
    ensures a_float { body_at (of_kinds (kinds_of NumericInt)) (function_of [] (F32 ∷ [])) 1 (0 ∷ 0 ∷ narrow 7)
        ≡ (instr.Unreachable ∷ [], []) }
    ensures a_global { body_at (of_kinds (kinds_of NumericInt)) (function_of [] (I32 ∷ [])) 1 (0 ∷ 0 ∷ 2 ∷ 1 ∷ [])
        ≡ (instr.Unreachable ∷ [], []) }
    ensures none { body_at (of_kinds no_kind) (function_of [] (I32 ∷ I64 ∷ [])) 5 [] ≡ (instr.Unreachable ∷ instr.Unreachable ∷ [], []) }
    ensures no_statement { body_at (of_kinds (kinds_of NumericInt)) (function_of [] (I32 ∷ [])) 1 (1 ∷ 3 ∷ 3 ∷ narrow 7)
        ≡ (number 7 ∷ [], []) }
    ensures nothing_is_dropped { body_at (of_kinds (kinds_of Control)) (calling []) 1 (1 ∷ 5 ∷ 1 ∷ 5 ∷ 1 ∷ wide 5) ≡ ([], wide 5) }
{}

fn features()
    ensures wide_arithmetic { body_at default_config
        (record (function_of [] (I64 ∷ [])) { features = record usual_features { wide_arithmetic = false } }) 1 (0 ∷ 1 ∷ 32 ∷ wide 1)
        ≡ (wide_number 1 ∷ [], []) }
{}

fn kinds_without_floats()
    ensures all { kinds_of_bodies default_config ≡ every_kind }
    ensures all_on_integers { kinds_bits (kinds_of_bodies without_floats) ≡ union_of (kind.NumericInt ∷ kind.VectorInt ∷ kind.Reference
        ∷ kind.Parametric ∷ kind.Variable ∷ kind.Table ∷ kind.MemoryInt ∷ kind.Control ∷ kind.Aggregate ∷ []) }
    ensures numbers { kinds_bits (kinds_of_bodies (record without_floats { allowed_instructions = kinds_of kind.Numeric }))
        ≡ kind_bits kind.NumericInt }
{}

fn floats()
    ensures constant { is_permitted usual_features without_floats (instr.F32Const 0) ≡ false }
    ensures comparison { is_permitted usual_features without_floats (instr.Numeric (numeric.F64Compare float_compare.Eq)) ≡ false }
    ensures truncation { is_permitted usual_features without_floats (instr.Numeric (numeric.Convert convert.I32TruncF32S)) ≡ false }
    ensures load { is_permitted usual_features without_floats (instr.Load load.F64 (aligned 0 3)) ≡ false }
    ensures lanes { is_permitted usual_features without_floats (instr.Vector (vector.Splat shape.F32x4)) ≡ false }
    ensures where_floats_are_allowed { is_permitted usual_features default_config (instr.F32Const 0) ≡ true }
{}

fn integers_without_floats()
    ensures constant { is_permitted usual_features without_floats (instr.I32Const (pos 0)) ≡ true }
    ensures comparison { is_permitted usual_features without_floats (instr.Numeric (numeric.I64Compare int_compare.Eq)) ≡ true }
    ensures wrap { is_permitted usual_features without_floats (instr.Numeric (numeric.Convert convert.I32WrapI64)) ≡ true }
    ensures load { is_permitted usual_features without_floats (instr.Load load.I64 (aligned 0 3)) ≡ true }
    ensures lanes { is_permitted usual_features without_floats (instr.Vector (vector.Splat shape.I8x16)) ≡ true }
{}

fn bodies_without_floats()
    ensures constant { body_at without_floats (function_of [] (F32 ∷ [])) 1 (0 ∷ 0 ∷ narrow 7) ≡ (instr.Unreachable ∷ [], []) }
    ensures comparison { body_at without_floats (function_of [] (I32 ∷ [])) 1 (0 ∷ 1 ∷ 40 ∷ narrow 7) ≡ (number 7 ∷ [], []) }
    ensures dropped { body_at without_floats (function_of [] []) 1 (1 ∷ 1 ∷ 2 ∷ narrow 7) ≡ (number 7 ∷ instr.Drop ∷ [], []) }
    ensures comparison_of_integers { body_at without_floats (function_of [] (I32 ∷ [])) 1 (0 ∷ 1 ∷ 30 ∷ wide 5 ++ wide 7)
        ≡ (wide_number 5 ∷ wide_number 7 ∷ instr.Numeric (numeric.I64Compare int_compare.Eq) ∷ [], []) }
{}
