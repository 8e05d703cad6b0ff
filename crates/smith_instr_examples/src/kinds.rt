ghost use Rattle.std.specs.List.{AllByRecursion as Each};
ghost use Rattle.std.specs.Prelude.{pos, IsTrue, List, [], ◌∷◌, ℕ};
ghost use Rattle.smith_types.specs.Syntax.Features.{every_feature};
ghost use Rattle.smith_types.specs.Syntax.instruction_kind.InstructionKind.TheVariants as kind;
ghost use Rattle.smith_types.specs.Syntax.value_type.HeapType.{HeapType};
ghost use Rattle.smith_types.specs.Syntax.value_type.ValType.{ValType};
ghost use Rattle.smith_instr.specs.Enabled.{IsEnabled, is_allowed, names_data};
ghost use Rattle.smith_instr.specs.declared.aggregate.AggregateInstr.TheVariants as aggregate;
ghost use Rattle.smith_instr.specs.declared.atomic.AtomicAccess.{AtomicAccess};
ghost use Rattle.smith_instr.specs.declared.control.BlockType.TheVariants as block;
ghost use Rattle.smith_instr.specs.declared.control.BranchCast.{BranchCast};
ghost use Rattle.smith_instr.specs.declared.instr.Instr.TheVariants as instr;
ghost use Rattle.smith_instr.specs.declared.memory.Load.TheVariants as load;
ghost use Rattle.smith_instr.specs.declared.memory.MemArg.{MemArg};
ghost use Rattle.smith_instr.specs.declared.memory.MemoryInstr.TheVariants as memory;
ghost use Rattle.smith_instr.specs.declared.memory.Store.TheVariants as store;
ghost use Rattle.smith_instr.specs.declared.numeric.Conversion.TheVariants as convert;
ghost use Rattle.smith_instr.specs.declared.numeric.FloatBinary.{FloatBinary};
ghost use Rattle.smith_instr.specs.declared.numeric.FloatCompare.{FloatCompare};
ghost use Rattle.smith_instr.specs.declared.numeric.FloatUnary.{FloatUnary};
ghost use Rattle.smith_instr.specs.declared.numeric.IntBinary.{IntBinary};
ghost use Rattle.smith_instr.specs.declared.numeric.IntCompare.{IntCompare};
ghost use Rattle.smith_instr.specs.declared.numeric.IntUnary.{IntUnary};
ghost use Rattle.smith_instr.specs.declared.numeric.NumericInstr.TheVariants as numeric;
ghost use Rattle.smith_instr.specs.declared.numeric.SaturatingConversion.{SaturatingConversion};
ghost use Rattle.smith_instr.specs.declared.numeric.SignExtension.{SignExtension};
ghost use Rattle.smith_instr.specs.declared.numeric.WideArithmetic.{WideArithmetic};
ghost use Rattle.smith_instr.specs.declared.reference.ReferenceInstr.TheVariants as reference;
ghost use Rattle.smith_instr.specs.declared.table.TableInstr.TheVariants as table;
ghost use Rattle.smith_instr.specs.declared.vector.IntShape.{IntShape};
ghost use Rattle.smith_instr.specs.declared.vector.LaneExtract.TheVariants as extract;
ghost use Rattle.smith_instr.specs.declared.vector.LaneShape.TheVariants as shape;
ghost use Rattle.smith_instr.specs.declared.vector.RelaxedBinary.{RelaxedBinary};
ghost use Rattle.smith_instr.specs.declared.vector.RelaxedFloatBinary.{RelaxedFloatBinary};
ghost use Rattle.smith_instr.specs.declared.vector.RelaxedFloatTernary.{RelaxedFloatTernary};
ghost use Rattle.smith_instr.specs.declared.vector.RelaxedFloatUnary.{RelaxedFloatUnary};
ghost use Rattle.smith_instr.specs.declared.vector.RelaxedTernary.{RelaxedTernary};
ghost use Rattle.smith_instr.specs.declared.vector.VectorBinary.{VectorBinary};
ghost use Rattle.smith_instr.specs.declared.vector.VectorFloatBinary.{VectorFloatBinary};
ghost use Rattle.smith_instr.specs.declared.vector.VectorFloatUnary.{VectorFloatUnary};
ghost use Rattle.smith_instr.specs.declared.vector.VectorInstr.TheVariants as vector;
ghost use Rattle.smith_instr.specs.declared.vector.VectorLoad.{VectorLoad};
ghost use Rattle.smith_instr.specs.declared.vector.VectorUnary.{VectorUnary};
ghost use Rattle.smith_instr_examples.specs.ExampleTyping.{IsOfKind, all_but, without_floats};
ghost use Rattle.smith_instr.specs.declared.instr.Instr.{Instr};
ghost use Rattle.smith_instr.specs.declared.memory.Load.{Load};
ghost use Rattle.smith_instr.specs.declared.memory.Store.{Store};
ghost use Rattle.smith_instr.specs.declared.numeric.Conversion.{Conversion};
ghost use Rattle.smith_instr.specs.declared.numeric.NumericInstr.{NumericInstr};
ghost use Rattle.smith_instr.specs.declared.vector.VectorInstr.{VectorInstr};
ghost use Rattle.smith_types.specs.Syntax.instruction_kind.InstructionKind.{InstructionKind};
ghost use Rattle.smith_instr_examples.specs.ExampleBodies.{kinds_of};

fn parametric()
    ensures of_any_type { (values : List ValType) → Each (IsOfKind kind.Parametric) (instr.Drop ∷ instr.Select ∷ instr.SelectTyped values
        ∷ []) }
    ensures variables { (index : ℕ) → Each (IsOfKind kind.Variable) (instr.LocalGet index ∷ instr.LocalSet index ∷ instr.LocalTee index
        ∷ instr.GlobalGet index ∷ instr.GlobalSet index ∷ []) }
{}

fn integers()
    ensures constants { Each (IsOfKind kind.NumericInt) (instr.I32Const (pos 0) ∷ instr.I64Const (pos 0) ∷ []) }
    ensures operators { (unary : IntUnary) (binary : IntBinary) (test : IntCompare) → Each
        (λ (op : NumericInstr). IsOfKind kind.NumericInt (instr.Numeric op)) (numeric.I32Unary unary ∷ numeric.I64Binary binary
        ∷ numeric.I32Compare test ∷ numeric.I64Eqz ∷ []) }
    ensures others { (extended : SignExtension) (wide : WideArithmetic) → Each
        (λ (op : NumericInstr). IsOfKind kind.NumericInt (instr.Numeric op)) (numeric.Extend extended ∷ numeric.Wide wide ∷ []) }
    ensures conversions { Each (λ (op : Conversion). IsOfKind kind.NumericInt (instr.Numeric (numeric.Convert op))) (convert.I64ExtendI32U
        ∷ convert.I64ExtendI32S ∷ []) }
{}

fn floats()
    ensures constants { Each (IsOfKind kind.Numeric) (instr.F32Const 0 ∷ instr.F64Const 0 ∷ []) }
    ensures operators { (unary : FloatUnary) (binary : FloatBinary) (test : FloatCompare) → Each
        (λ (op : NumericInstr). IsOfKind kind.Numeric (instr.Numeric op)) (numeric.F32Unary unary ∷ numeric.F64Unary unary
        ∷ numeric.F32Binary binary ∷ numeric.F64Binary binary ∷ numeric.F32Compare test ∷ numeric.F64Compare test ∷ []) }
    ensures saturating { (op : SaturatingConversion) → IsOfKind kind.Numeric (instr.Numeric (numeric.Saturate op)) }
    ensures conversions { Each (λ (op : Conversion). IsOfKind kind.Numeric (instr.Numeric (numeric.Convert op))) (convert.I32TruncF32S
        ∷ convert.I32TruncF64U ∷ convert.I64TruncF64U ∷ convert.F32ConvertI32S ∷ convert.F64ConvertI64U ∷ convert.F32DemoteF64
        ∷ convert.F64PromoteF32 ∷ convert.I32ReinterpretF32 ∷ convert.F64ReinterpretI64 ∷ []) }
{}

fn vectors()
    ensures constant { IsOfKind kind.VectorInt (instr.V128Const (pos 0)) }
    ensures operators { (unary : VectorUnary) (binary : VectorBinary) (relaxed : RelaxedBinary) (ternary : RelaxedTernary) → Each
        (λ (op : VectorInstr). IsOfKind kind.VectorInt (instr.Vector op)) (vector.Unary unary ∷ vector.Binary binary
        ∷ vector.RelaxedBinary relaxed ∷ vector.RelaxedTernary ternary ∷ []) }
    ensures lanes { (ty : IntShape) → Each (λ (op : VectorInstr). IsOfKind kind.VectorInt (instr.Vector op)) (vector.Splat shape.I64x2
        ∷ vector.ExtractLane extract.I16x8U 0 ∷ vector.ReplaceLane shape.I32x4 0 ∷ vector.Bitmask ty ∷ []) }
{}

fn vectors_of_floats()
    ensures operators { (unary : VectorFloatUnary) (binary : VectorFloatBinary) → Each
        (λ (op : VectorInstr). IsOfKind kind.Vector (instr.Vector op)) (vector.FloatUnary unary ∷ vector.FloatBinary binary ∷ []) }
    ensures relaxed { (unary : RelaxedFloatUnary) (binary : RelaxedFloatBinary) (ternary : RelaxedFloatTernary) → Each
        (λ (op : VectorInstr). IsOfKind kind.Vector (instr.Vector op)) (vector.RelaxedFloatUnary unary ∷ vector.RelaxedFloatBinary binary
        ∷ vector.RelaxedFloatTernary ternary ∷ []) }
    ensures lanes { Each (λ (op : VectorInstr). IsOfKind kind.Vector (instr.Vector op)) (vector.Splat shape.F32x4
        ∷ vector.ExtractLane extract.F32x4 0 ∷ vector.ReplaceLane shape.F32x4 0 ∷ vector.Splat shape.F64x2
        ∷ vector.ExtractLane extract.F64x2 0 ∷ vector.ReplaceLane shape.F64x2 0 ∷ []) }
{}

fn memories()
    ensures size { (index : ℕ) → IsOfKind kind.MemoryInt (instr.Memory (memory.Size index)) }
    ensures loads { (at : MemArg) → Each (λ (op : Load). IsOfKind kind.MemoryInt (instr.Load op at)) (load.I32 ∷ load.I64 ∷ load.I32From8S
        ∷ load.I64From32U ∷ []) }
    ensures stores { (at : MemArg) → Each (λ (op : Store). IsOfKind kind.MemoryInt (instr.Store op at)) (store.I32 ∷ store.I64
        ∷ store.I64To8 ∷ []) }
    ensures vectors { (op : VectorLoad) (bytes lane : ℕ) (at : MemArg) → Each (IsOfKind kind.MemoryInt) (instr.VectorLoad op at
        ∷ instr.VectorStore at ∷ instr.VectorLoadLane bytes at lane ∷ instr.VectorStoreLane bytes at lane ∷ []) }
    ensures atomics { (op : AtomicAccess) (at : MemArg) → Each (IsOfKind kind.MemoryInt) (instr.Atomic op at ∷ instr.AtomicFence ∷ []) }
    ensures of_floats { (at : MemArg) → Each (IsOfKind kind.Memory) (instr.Load load.F32 at ∷ instr.Load load.F64 at
        ∷ instr.Store store.F32 at ∷ instr.Store store.F64 at ∷ []) }
{}

fn kinds_alone()
    ensures itself { Each (λ (one : InstructionKind). IsTrue (is_allowed (kinds_of one) one)) (kind.Numeric ∷ kind.Vector ∷ kind.Memory
        ∷ kind.MemoryInt ∷ []) }
    ensures without_floats { Each (λ (one : InstructionKind). ¬ IsTrue (is_allowed without_floats one)) (kind.Numeric ∷ kind.Vector
        ∷ kind.Memory ∷ []) }
    ensures all_but_one { ¬ IsTrue (is_allowed (all_but kind.MemoryInt) kind.MemoryInt) }
{}

#[tactic(auto, unfolding(smith_instr::specs::Enabled::is_enabled))]
fn others()
    ensures reference { (ty : HeapType) → IsOfKind kind.Reference (instr.Reference (reference.Null ty)) }
    ensures table { (index : ℕ) → IsOfKind kind.Table (instr.Table (table.Size index)) }
    ensures aggregate { IsOfKind kind.Aggregate (instr.Aggregate aggregate.RefI31Shared) }
    ensures control { (index : ℕ) (cast : BranchCast) → Each (IsOfKind kind.Control) (instr.Call index ∷ instr.Nop ∷ instr.Block block.Empty
        ∷ instr.BrOnCast cast ∷ []) }
    ensures always { Each (IsEnabled every_feature (all_but kind.Control)) (instr.Unreachable ∷ instr.Else ∷ instr.End ∷ []) }
{}

fn data()
    ensures named { (index other : ℕ) → Each (λ (one : Instr). IsTrue (names_data one)) (instr.Memory (memory.Init index other)
        ∷ instr.Memory (memory.DataDrop index) ∷ instr.Aggregate (aggregate.ArrayNewData index other)
        ∷ instr.Aggregate (aggregate.ArrayInitData index other) ∷ []) }
    ensures not_named { (index other : ℕ) → Each (λ (one : Instr). ¬ IsTrue (names_data one)) (instr.Memory (memory.Copy index other)
        ∷ instr.Table (table.Init index other) ∷ instr.Table (table.ElemDrop index) ∷ instr.Aggregate (aggregate.ArrayNewElem index other)
        ∷ instr.Aggregate (aggregate.ArrayInitElem index other) ∷ []) }
{}
