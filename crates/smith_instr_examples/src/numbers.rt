ghost use Rattle.std.specs.Prelude.{[], ◌∷◌, pos};
ghost use Rattle.smith_types.specs.Syntax.value_type.ValType.TheVariants.{F32, F64, I32, I64, V128};
ghost use Rattle.smith_instr.specs.declared.instr.Instr.TheVariants as instr;
ghost use Rattle.smith_instr.specs.declared.numeric.FloatBinary.{FloatBinary};
ghost use Rattle.smith_instr.specs.declared.numeric.FloatCompare.{FloatCompare};
ghost use Rattle.smith_instr.specs.declared.numeric.FloatUnary.{FloatUnary};
ghost use Rattle.smith_instr.specs.declared.numeric.IntBinary.{IntBinary};
ghost use Rattle.smith_instr.specs.declared.numeric.IntCompare.{IntCompare};
ghost use Rattle.smith_instr.specs.declared.numeric.IntUnary.{IntUnary};
ghost use Rattle.smith_instr.specs.declared.numeric.NumericInstr.TheVariants as numeric;
ghost use Rattle.smith_instr_examples.specs.ExampleTyping.{HasOnlyType};

fn unary()
    ensures i32_unary { (op : IntUnary) → HasOnlyType (instr.Numeric (numeric.I32Unary op)) (I32 ∷ []) (I32 ∷ []) }
    ensures i64_unary { (op : IntUnary) → HasOnlyType (instr.Numeric (numeric.I64Unary op)) (I64 ∷ []) (I64 ∷ []) }
    ensures f32_unary { (op : FloatUnary) → HasOnlyType (instr.Numeric (numeric.F32Unary op)) (F32 ∷ []) (F32 ∷ []) }
    ensures f64_unary { (op : FloatUnary) → HasOnlyType (instr.Numeric (numeric.F64Unary op)) (F64 ∷ []) (F64 ∷ []) }
{}

fn binary_integers()
    ensures i32_binary { (op : IntBinary) → HasOnlyType (instr.Numeric (numeric.I32Binary op)) (I32 ∷ I32 ∷ []) (I32 ∷ []) }
    ensures i64_binary { (op : IntBinary) → HasOnlyType (instr.Numeric (numeric.I64Binary op)) (I64 ∷ I64 ∷ []) (I64 ∷ []) }
{}

fn binary_floats()
    ensures f32_binary { (op : FloatBinary) → HasOnlyType (instr.Numeric (numeric.F32Binary op)) (F32 ∷ F32 ∷ []) (F32 ∷ []) }
    ensures f64_binary { (op : FloatBinary) → HasOnlyType (instr.Numeric (numeric.F64Binary op)) (F64 ∷ F64 ∷ []) (F64 ∷ []) }
{}

fn comparisons_of_integers()
    ensures i32_comparison { (op : IntCompare) → HasOnlyType (instr.Numeric (numeric.I32Compare op)) (I32 ∷ I32 ∷ []) (I32 ∷ []) }
    ensures i64_comparison { (op : IntCompare) → HasOnlyType (instr.Numeric (numeric.I64Compare op)) (I64 ∷ I64 ∷ []) (I32 ∷ []) }
{}

fn comparisons_of_floats()
    ensures f32_comparison { (op : FloatCompare) → HasOnlyType (instr.Numeric (numeric.F32Compare op)) (F32 ∷ F32 ∷ []) (I32 ∷ []) }
    ensures f64_comparison { (op : FloatCompare) → HasOnlyType (instr.Numeric (numeric.F64Compare op)) (F64 ∷ F64 ∷ []) (I32 ∷ []) }
{}

fn tests()
    ensures i32_eqz { HasOnlyType (instr.Numeric numeric.I32Eqz) (I32 ∷ []) (I32 ∷ []) }
    ensures i64_eqz { HasOnlyType (instr.Numeric numeric.I64Eqz) (I64 ∷ []) (I32 ∷ []) }
{}

fn constants()
    ensures i32_const { HasOnlyType (instr.I32Const (pos 1)) [] (I32 ∷ []) }
    ensures i64_const { HasOnlyType (instr.I64Const (pos 1)) [] (I64 ∷ []) }
    ensures f32_const { HasOnlyType (instr.F32Const 0) [] (F32 ∷ []) }
    ensures f64_const { HasOnlyType (instr.F64Const 0) [] (F64 ∷ []) }
    ensures v128_const { HasOnlyType (instr.V128Const (pos 0)) [] (V128 ∷ []) }
{}
