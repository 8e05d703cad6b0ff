ghost use Rattle.std.specs.List.{AllByRecursion as Each};
ghost use Rattle.std.specs.Prelude.{List, [], ◌∷◌, true, pos, ℕ, ◌&&◌};
ghost use Rattle.smith_types.specs.Syntax.value_type.HeapType.{HeapType};
ghost use Rattle.smith_types.specs.Syntax.value_type.ValType.TheVariants.{I32};
ghost use Rattle.smith_types.specs.Syntax.value_type.ValType.{ValType};
ghost use Rattle.smith_instr.specs.declared.aggregate.AggregateInstr.TheVariants as aggregate;
ghost use Rattle.smith_instr.specs.declared.aggregate.Extension.TheVariants as extension;
ghost use Rattle.smith_instr.specs.declared.atomic.AtomicAccess.{AtomicAccess};
ghost use Rattle.smith_instr.specs.declared.control.BlockType.TheVariants as block;
ghost use Rattle.smith_instr.specs.declared.control.BranchCast.{BranchCast};
ghost use Rattle.smith_instr.specs.declared.instr.Instr.TheVariants as instr;
ghost use Rattle.smith_instr.specs.declared.memory.Load.{Load};
ghost use Rattle.smith_instr.specs.declared.memory.MemArg.{MemArg};
ghost use Rattle.smith_instr.specs.declared.memory.MemoryInstr.TheVariants as memory;
ghost use Rattle.smith_instr.specs.declared.memory.Store.{Store};
ghost use Rattle.smith_instr.specs.declared.numeric.Conversion.{Conversion};
ghost use Rattle.smith_instr.specs.declared.numeric.FloatCompare.{FloatCompare};
ghost use Rattle.smith_instr.specs.declared.numeric.IntBinary.{IntBinary};
ghost use Rattle.smith_instr.specs.declared.numeric.NumericInstr.TheVariants as numeric;
ghost use Rattle.smith_instr.specs.declared.numeric.SaturatingConversion.{SaturatingConversion};
ghost use Rattle.smith_instr.specs.declared.numeric.SignExtension.{SignExtension};
ghost use Rattle.smith_instr.specs.declared.numeric.WideArithmetic.{WideArithmetic};
ghost use Rattle.smith_instr.specs.declared.reference.ReferenceInstr.TheVariants as reference;
ghost use Rattle.smith_instr.specs.declared.table.TableInstr.TheVariants as table;
ghost use Rattle.smith_instr.specs.declared.vector.IntShape.{IntShape};
ghost use Rattle.smith_instr.specs.declared.vector.LaneShape.{LaneShape};
ghost use Rattle.smith_instr.specs.declared.vector.RelaxedBinary.{RelaxedBinary};
ghost use Rattle.smith_instr.specs.declared.vector.RelaxedFloatBinary.{RelaxedFloatBinary};
ghost use Rattle.smith_instr.specs.declared.vector.RelaxedFloatTernary.{RelaxedFloatTernary};
ghost use Rattle.smith_instr.specs.declared.vector.RelaxedFloatUnary.{RelaxedFloatUnary};
ghost use Rattle.smith_instr.specs.declared.vector.RelaxedTernary.{RelaxedTernary};
ghost use Rattle.smith_instr.specs.declared.vector.VectorBinary.{VectorBinary};
ghost use Rattle.smith_instr.specs.declared.vector.VectorFloatBinary.{VectorFloatBinary};
ghost use Rattle.smith_instr.specs.declared.vector.VectorFloatUnary.{VectorFloatUnary};
ghost use Rattle.smith_instr.specs.declared.vector.VectorInstr.TheVariants as vector;
ghost use Rattle.smith_instr.specs.declared.vector.VectorLoad.{VectorLoad};
ghost use Rattle.smith_instr.specs.declared.vector.VectorShift.{VectorShift};
ghost use Rattle.smith_instr.specs.declared.vector.VectorUnary.{VectorUnary};
ghost use Rattle.smith_instr_examples.specs.ExampleManaged.{some_struct};
ghost use Rattle.smith_instr_examples.specs.ExampleTyping.{IsOnWith};
ghost use Rattle.smith_instr.specs.declared.aggregate.AggregateInstr.{AggregateInstr};
ghost use Rattle.smith_instr.specs.declared.memory.MemoryInstr.{MemoryInstr};
ghost use Rattle.smith_instr.specs.declared.numeric.NumericInstr.{NumericInstr};
ghost use Rattle.smith_instr.specs.declared.numeric.FloatBinary.{FloatBinary};
ghost use Rattle.smith_instr.specs.declared.numeric.FloatUnary.{FloatUnary};
ghost use Rattle.smith_instr.specs.declared.reference.ReferenceInstr.{ReferenceInstr};
ghost use Rattle.smith_instr.specs.declared.table.TableInstr.{TableInstr};
ghost use Rattle.smith_instr.specs.declared.vector.LaneExtract.{LaneExtract};
ghost use Rattle.smith_instr.specs.declared.vector.VectorInstr.{VectorInstr};

fn blocks()
    ensures of_a_type { (index : ℕ) → Each (IsOnWith (λ on. on.multi_value)) (instr.Block (block.Func index) ∷ instr.Loop (block.Func index)
        ∷ instr.If (block.Func index) ∷ []) }
    ensures try_table { (index : ℕ) → IsOnWith (λ on. on.multi_value && on.exceptions) (instr.TryTable (block.Func index) []) }
    ensures of_a_value_or_none { Each (IsOnWith (λ on. true)) (instr.Block (block.Value I32) ∷ instr.Loop block.Empty ∷ []) }
    ensures try_table_of_no_type { IsOnWith (λ on. on.exceptions) (instr.TryTable block.Empty []) }
{}

fn control()
    ensures exceptions { (index : ℕ) → Each (IsOnWith (λ on. on.exceptions)) (instr.Throw index ∷ instr.ThrowRef ∷ []) }
    ensures branches_on_null { (index : ℕ) → Each (IsOnWith (λ on. on.function_references)) (instr.BrOnNull index ∷ instr.BrOnNonNull index
        ∷ []) }
    ensures branches_on_casts { (cast : BranchCast) → Each (IsOnWith (λ on. on.gc)) (instr.BrOnCast cast ∷ instr.BrOnCastFail cast ∷ []) }
    ensures calls { (index other : ℕ) → Each (IsOnWith (λ on. true)) (instr.Call index ∷ instr.CallIndirect index other ∷ []) }
    ensures call_ref { (index : ℕ) → IsOnWith (λ on. on.function_references) (instr.CallRef index) }
    ensures tail_calls { (index other : ℕ) → Each (IsOnWith (λ on. on.tail_call)) (instr.ReturnCall index
        ∷ instr.ReturnCallIndirect index other ∷ []) }
    ensures return_call_ref { (index : ℕ) → IsOnWith (λ on. on.tail_call && on.function_references) (instr.ReturnCallRef index) }
{}

fn numbers()
    ensures saturating { (op : SaturatingConversion) → IsOnWith (λ on. on.saturating_float_to_int) (instr.Numeric (numeric.Saturate op)) }
    ensures sign_extension { (op : SignExtension) → IsOnWith (λ on. on.sign_extension) (instr.Numeric (numeric.Extend op)) }
    ensures wide_arithmetic { (op : WideArithmetic) → IsOnWith (λ on. on.wide_arithmetic) (instr.Numeric (numeric.Wide op)) }
    ensures conversion { (op : Conversion) → IsOnWith (λ on. true) (instr.Numeric (numeric.Convert op)) }
    ensures binary { (op : IntBinary) → IsOnWith (λ on. true) (instr.Numeric (numeric.I32Binary op)) }
    ensures on_floats { (unary : FloatUnary) (binary : FloatBinary) (test : FloatCompare) → Each
        (λ (op : NumericInstr). IsOnWith (λ on. true) (instr.Numeric op)) (numeric.F32Unary unary ∷ numeric.F64Unary unary
        ∷ numeric.F32Binary binary ∷ numeric.F64Binary binary ∷ numeric.F32Compare test ∷ numeric.F64Compare test ∷ []) }
{}

fn references()
    ensures of_any_type { (ty : HeapType) (index : ℕ) → Each (λ (op : ReferenceInstr). IsOnWith (λ on. on.reference_types)
        (instr.Reference op)) (reference.Null ty ∷ reference.Func index ∷ reference.IsNull ∷ []) }
    ensures ref_as_non_null { IsOnWith (λ on. on.function_references) (instr.Reference reference.AsNonNull) }
    ensures others { Each (λ (op : ReferenceInstr). IsOnWith (λ on. on.gc) (instr.Reference op)) (reference.Eq ∷ reference.Test some_struct
        ∷ reference.Cast some_struct ∷ []) }
{}

fn tables()
    ensures elements { (index : ℕ) → Each (λ (op : TableInstr). IsOnWith (λ on. on.reference_types) (instr.Table op)) (table.Get index
        ∷ table.Set index ∷ table.Size index ∷ table.Grow index ∷ table.Fill index ∷ []) }
    ensures several_elements { (index other : ℕ) → Each (λ (op : TableInstr). IsOnWith (λ on. on.bulk_memory) (instr.Table op))
        (table.Copy index other ∷ table.Init index other ∷ table.ElemDrop index ∷ []) }
{}

fn memories()
    ensures always { (index : ℕ) (read : Load) (write : Store) (at : MemArg) → Each (IsOnWith (λ on. true))
        (instr.Memory (memory.Size index) ∷ instr.Memory (memory.Grow index) ∷ instr.Load read at ∷ instr.Store write at ∷ []) }
    ensures several_bytes { (index other : ℕ) → Each (λ (op : MemoryInstr). IsOnWith (λ on. on.bulk_memory) (instr.Memory op))
        (memory.Fill index ∷ memory.Copy index other ∷ memory.Init index other ∷ memory.DataDrop index ∷ []) }
    ensures atomics { (op : AtomicAccess) (at : MemArg) → Each (IsOnWith (λ on. on.threads)) (instr.Atomic op at ∷ instr.AtomicFence ∷ []) }
{}

fn aggregates()
    ensures structs { (index other : ℕ) → Each (λ (op : AggregateInstr). IsOnWith (λ on. on.gc) (instr.Aggregate op))
        (aggregate.StructNew index ∷ aggregate.StructNewDefault index ∷ aggregate.StructGet index other extension.Signed
        ∷ aggregate.StructSet index other ∷ []) }
    ensures new_arrays { (index other : ℕ) → Each (λ (op : AggregateInstr). IsOnWith (λ on. on.gc) (instr.Aggregate op))
        (aggregate.ArrayNew index ∷ aggregate.ArrayNewDefault index ∷ aggregate.ArrayNewFixed index other
        ∷ aggregate.ArrayNewElem index other ∷ []) }
    ensures arrays { (index other : ℕ) → Each (λ (op : AggregateInstr). IsOnWith (λ on. on.gc) (instr.Aggregate op))
        (aggregate.ArrayGet index extension.Unsigned ∷ aggregate.ArraySet index ∷ aggregate.ArrayLen ∷ aggregate.ArrayFill index
        ∷ aggregate.ArrayCopy index other ∷ aggregate.ArrayInitElem index other ∷ []) }
    ensures arrays_of_data { (index other : ℕ) → Each (λ (op : AggregateInstr). IsOnWith (λ on. on.gc && on.bulk_memory)
        (instr.Aggregate op)) (aggregate.ArrayNewData index other ∷ aggregate.ArrayInitData index other ∷ []) }
    ensures scalars { Each (λ (op : AggregateInstr). IsOnWith (λ on. on.gc) (instr.Aggregate op)) (aggregate.RefI31 ∷ aggregate.I31GetS
        ∷ aggregate.I31GetU ∷ aggregate.AnyConvertExtern ∷ aggregate.ExternConvertAny ∷ []) }
    ensures ref_i31_shared { IsOnWith (λ on. on.gc && on.shared_everything_threads) (instr.Aggregate aggregate.RefI31Shared) }
{}

fn relaxed_vectors()
    ensures on_one_or_two { (unary : RelaxedFloatUnary) (binary : RelaxedBinary) (on_floats : RelaxedFloatBinary) → Each
        (λ (op : VectorInstr). IsOnWith (λ on. on.simd && on.relaxed_simd) (instr.Vector op)) (vector.RelaxedFloatUnary unary
        ∷ vector.RelaxedBinary binary ∷ vector.RelaxedFloatBinary on_floats ∷ []) }
    ensures on_three { (ternary : RelaxedTernary) (on_floats : RelaxedFloatTernary) → Each
        (λ (op : VectorInstr). IsOnWith (λ on. on.simd && on.relaxed_simd) (instr.Vector op)) (vector.RelaxedTernary ternary
        ∷ vector.RelaxedFloatTernary on_floats ∷ []) }
{}

fn vectors()
    ensures on_integers { (unary : VectorUnary) (binary : VectorBinary) (shift : VectorShift) (ty : IntShape) → Each
        (λ (op : VectorInstr). IsOnWith (λ on. on.simd) (instr.Vector op)) (vector.Unary unary ∷ vector.Binary binary ∷ vector.Bitselect
        ∷ vector.Shift shift ty ∷ []) }
    ensures on_floats { (unary : VectorFloatUnary) (binary : VectorFloatBinary) → Each
        (λ (op : VectorInstr). IsOnWith (λ on. on.simd) (instr.Vector op)) (vector.FloatUnary unary ∷ vector.FloatBinary binary ∷ []) }
    ensures lanes { (ty : LaneShape) (from : LaneExtract) (lane : ℕ) → Each
        (λ (op : VectorInstr). IsOnWith (λ on. on.simd) (instr.Vector op)) (vector.Splat ty ∷ vector.ExtractLane from lane
        ∷ vector.ReplaceLane ty lane ∷ []) }
    ensures constant { IsOnWith (λ on. on.simd) (instr.V128Const (pos 0)) }
    ensures accesses { (op : VectorLoad) (bytes lane : ℕ) (at : MemArg) → Each (IsOnWith (λ on. on.simd)) (instr.VectorLoad op at
        ∷ instr.VectorStore at ∷ instr.VectorLoadLane bytes at lane ∷ instr.VectorStoreLane bytes at lane ∷ []) }
{}

fn others()
    ensures select_typed { (values : List ValType) → IsOnWith (λ on. on.reference_types) (instr.SelectTyped values) }
    ensures always { (index : ℕ) → Each (IsOnWith (λ on. true)) (instr.Select ∷ instr.Drop ∷ instr.Unreachable ∷ instr.Nop ∷ instr.Br index
        ∷ instr.LocalGet index ∷ instr.GlobalSet index ∷ instr.I32Const (pos 0) ∷ instr.F32Const 0 ∷ instr.F64Const 0 ∷ []) }
{}
