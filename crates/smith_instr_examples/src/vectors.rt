ghost use Rattle.std.specs.Prelude.{[], ◌∷◌};
ghost use Rattle.smith_types.specs.Syntax.value_type.ValType.TheVariants.{I32, I64, V128};
ghost use Rattle.smith_instr.specs.declared.instr.Instr.TheVariants as instr;
ghost use Rattle.smith_instr.specs.declared.vector.IntShape.{IntShape};
ghost use Rattle.smith_instr.specs.declared.vector.RelaxedBinary.{RelaxedBinary};
ghost use Rattle.smith_instr.specs.declared.vector.RelaxedFloatBinary.{RelaxedFloatBinary};
ghost use Rattle.smith_instr.specs.declared.vector.RelaxedFloatTernary.{RelaxedFloatTernary};
ghost use Rattle.smith_instr.specs.declared.vector.RelaxedFloatUnary.{RelaxedFloatUnary};
ghost use Rattle.smith_instr.specs.declared.vector.RelaxedTernary.{RelaxedTernary};
ghost use Rattle.smith_instr.specs.declared.vector.VectorBinary.{VectorBinary};
ghost use Rattle.smith_instr.specs.declared.vector.VectorFloatBinary.{VectorFloatBinary};
ghost use Rattle.smith_instr.specs.declared.vector.VectorFloatUnary.{VectorFloatUnary};
ghost use Rattle.smith_instr.specs.declared.vector.VectorInstr.TheVariants as vector;
ghost use Rattle.smith_instr.specs.declared.vector.VectorShift.{VectorShift};
ghost use Rattle.smith_instr.specs.declared.vector.VectorUnary.{VectorUnary};
ghost use Rattle.smith_instr_examples.specs.ExampleTyping.{HasOnlyType, HasType, LeavesNot, TakesNot};

fn operators()
    ensures unary { (op : VectorUnary) → HasOnlyType (instr.Vector (vector.Unary op)) (V128 ∷ []) (V128 ∷ []) }
    ensures unary_on_floats { (op : VectorFloatUnary) → HasOnlyType (instr.Vector (vector.FloatUnary op)) (V128 ∷ []) (V128 ∷ []) }
    ensures binary { (op : VectorBinary) → HasOnlyType (instr.Vector (vector.Binary op)) (V128 ∷ V128 ∷ []) (V128 ∷ []) }
    ensures binary_on_floats { (op : VectorFloatBinary) → HasOnlyType (instr.Vector (vector.FloatBinary op)) (V128 ∷ V128 ∷ []) (V128
        ∷ []) }
{}

fn relaxed()
    ensures unary { (op : RelaxedFloatUnary) → HasOnlyType (instr.Vector (vector.RelaxedFloatUnary op)) (V128 ∷ []) (V128 ∷ []) }
    ensures binary { (op : RelaxedBinary) → HasOnlyType (instr.Vector (vector.RelaxedBinary op)) (V128 ∷ V128 ∷ []) (V128 ∷ []) }
    ensures binary_on_floats { (op : RelaxedFloatBinary) → HasOnlyType (instr.Vector (vector.RelaxedFloatBinary op)) (V128 ∷ V128
        ∷ []) (V128 ∷ []) }
{}

fn relaxed_on_three()
    ensures ternary { (op : RelaxedTernary) → HasOnlyType (instr.Vector (vector.RelaxedTernary op)) (V128 ∷ V128 ∷ V128 ∷ []) (V128 ∷ []) }
    ensures ternary_on_floats { (op : RelaxedFloatTernary) → HasOnlyType (instr.Vector (vector.RelaxedFloatTernary op)) (V128 ∷ V128 ∷ V128
        ∷ []) (V128 ∷ []) }
{}

fn tests()
    ensures bitselect { HasOnlyType (instr.Vector vector.Bitselect) (V128 ∷ V128 ∷ V128 ∷ []) (V128 ∷ []) }
    ensures any_true { HasOnlyType (instr.Vector vector.AnyTrue) (V128 ∷ []) (I32 ∷ []) }
    ensures all_true { (ty : IntShape) → HasOnlyType (instr.Vector (vector.AllTrue ty)) (V128 ∷ []) (I32 ∷ []) }
    ensures bitmask { (ty : IntShape) → HasOnlyType (instr.Vector (vector.Bitmask ty)) (V128 ∷ []) (I32 ∷ []) }
{}

fn shifts()
    ensures shift { (op : VectorShift) (ty : IntShape) → HasType (instr.Vector (vector.Shift op ty)) (V128 ∷ I32 ∷ []) (V128 ∷ []) }
    ensures shift_by_i64 { (op : VectorShift) (ty : IntShape) → TakesNot (instr.Vector (vector.Shift op ty)) (V128 ∷ I64 ∷ []) }
    ensures shift_by_a_vector { (op : VectorShift) (ty : IntShape) → TakesNot (instr.Vector (vector.Shift op ty)) (V128 ∷ V128 ∷ []) }
    ensures shift_by_none { (op : VectorShift) (ty : IntShape) → TakesNot (instr.Vector (vector.Shift op ty)) (V128 ∷ []) }
    ensures shift_amount_first { (op : VectorShift) (ty : IntShape) → TakesNot (instr.Vector (vector.Shift op ty)) (I32 ∷ V128 ∷ []) }
    ensures shift_to_i32 { (op : VectorShift) (ty : IntShape) → LeavesNot (instr.Vector (vector.Shift op ty)) (I32 ∷ []) }
{}
