ghost use Rattle.std.specs.Prelude.{[], ◌∷◌, false};
ghost use Rattle.smith_types.specs.Expressions.{reference_to};
ghost use Rattle.smith_types.specs.Flags.{funcref};
ghost use Rattle.smith_types.specs.Syntax.value_type.AbstractHeapType.TheVariants as heap;
ghost use Rattle.smith_types.specs.Syntax.value_type.HeapType.TheVariants.{Abstract, Concrete};
ghost use Rattle.smith_types.specs.Syntax.value_type.ValType.TheVariants.{I32, I64, F64, Ref};
ghost use Rattle.smith_instr.specs.Contexts.{nullable_to, labelled, reference_to_function};
ghost use Rattle.smith_instr.specs.InstrTypes.{HasInstrType, IsCatch};
ghost use Rattle.smith_instr.specs.declared.control.Catch.TheVariants as catch;
ghost use Rattle.smith_instr.specs.declared.instr.Instr.TheVariants as instr;
ghost use Rattle.smith_instr.specs.declared.aggregate.AggregateInstr.TheVariants as aggregate;
ghost use Rattle.smith_instr.specs.declared.aggregate.Extension.TheVariants as extension;
ghost use Rattle.smith_instr.specs.declared.atomic.AtomicAccess.TheVariants as atomic;
ghost use Rattle.smith_instr.specs.declared.atomic.AtomicWidth.TheVariants as width;
ghost use Rattle.smith_instr.specs.declared.memory.Load.TheVariants as load;
ghost use Rattle.smith_instr.specs.declared.memory.Store.TheVariants as store;
ghost use Rattle.smith_instr.specs.declared.memory.MemoryInstr.TheVariants as memory;
ghost use Rattle.smith_instr.specs.declared.reference.ReferenceInstr.TheVariants as reference;
ghost use Rattle.smith_instr.specs.declared.table.TableInstr.TheVariants as table;
ghost use Rattle.smith_instr_examples.specs.ExampleBodies.{function_of, aligned, exnref, some_func};

fn globals()
    ensures variable_is_set { HasInstrType (function_of [] []) [] (instr.GlobalSet 1) (I32 ∷ []) [] }
    ensures constant_is_set { ¬ HasInstrType (function_of [] []) [] (instr.GlobalSet 0) (I32 ∷ []) [] }
    ensures constant_is_read { HasInstrType (function_of [] []) [] (instr.GlobalGet 0) [] (I32 ∷ []) }
    ensures past_the_last { ¬ HasInstrType (function_of [] []) [] (instr.GlobalGet 2) [] (I32 ∷ []) }
{}

fn parametric()
    ensures select { HasInstrType (function_of [] []) [] instr.Select (I64 ∷ I64 ∷ I32 ∷ []) (I64 ∷ []) }
    ensures select_of_a_reference { ¬ HasInstrType (function_of [] []) [] instr.Select (exnref ∷ exnref ∷ I32 ∷ []) (exnref ∷ []) }
    ensures select_condition_first { ¬ HasInstrType (function_of [] []) [] instr.Select (I32 ∷ I64 ∷ I64 ∷ []) (I64 ∷ []) }
{}

fn accesses()
    ensures of_its_alignment { HasInstrType (function_of [] []) [] (instr.Load load.I32 (aligned 0 2)) (I32 ∷ []) (I32 ∷ []) }
    ensures above_its_alignment { ¬ HasInstrType (function_of [] []) [] (instr.Load load.I32 (aligned 0 3)) (I32 ∷ []) (I32 ∷ []) }
    ensures of_a_wide_memory { HasInstrType (function_of [] []) [] (instr.Store store.F64 (aligned 1 3)) (I64 ∷ F64 ∷ []) [] }
    ensures of_a_wide_memory_by_a_narrow_address { ¬ HasInstrType (function_of [] []) [] (instr.Store store.F64 (aligned 1 3)) (I32 ∷ F64
        ∷ []) [] }
    ensures value_below_the_address { ¬ HasInstrType (function_of [] []) [] (instr.Store store.F64 (aligned 0 3)) (F64 ∷ I32 ∷ []) [] }
    ensures atomic { HasInstrType (function_of [] []) [] (instr.Atomic (atomic.Load width.I32) (aligned 0 2)) (I32 ∷ []) (I32 ∷ []) }
    ensures atomic_below_its_alignment { ¬ HasInstrType (function_of [] []) [] (instr.Atomic (atomic.Load width.I32) (aligned 0 1)) (I32
        ∷ []) (I32 ∷ []) }
{}

fn fields()
    ensures packed { HasInstrType (function_of [] []) [] (instr.Aggregate (aggregate.StructGet 2 0 extension.Signed))
        (nullable_to (Concrete 2) ∷ []) (I32 ∷ []) }
    ensures packed_without_extension { ¬ HasInstrType (function_of [] []) [] (instr.Aggregate (aggregate.StructGet 2 0 extension.Unpacked))
        (nullable_to (Concrete 2) ∷ []) (I32 ∷ []) }
    ensures variable_is_set { HasInstrType (function_of [] []) [] (instr.Aggregate (aggregate.StructSet 2 1)) (nullable_to (Concrete 2)
        ∷ I64 ∷ []) [] }
    ensures constant_is_set { ¬ HasInstrType (function_of [] []) [] (instr.Aggregate (aggregate.StructSet 2 0)) (nullable_to (Concrete 2)
        ∷ I32 ∷ []) [] }
{}

fn exceptions()
    ensures thrown_with_its_value { HasInstrType (function_of [] []) [] (instr.Throw 0) (I32 ∷ []) [] }
    ensures thrown_without_its_value { ¬ HasInstrType (function_of [] []) [] (instr.Throw 0) [] [] }
{}

fn calls()
    ensures of_its_parameter { HasInstrType (function_of [] []) [] (instr.Call 1) (I32 ∷ []) [] }
    ensures without_its_parameter { ¬ HasInstrType (function_of [] []) [] (instr.Call 1) [] [] }
    ensures last_with_other_results { ¬ HasInstrType (function_of [] (I32 ∷ [])) [] (instr.ReturnCall 0) [] [] }
{}

fn references()
    ensures declared { HasInstrType (function_of [] []) [] (instr.Reference (reference.Func 1)) []
        (reference_to_function (function_of [] []) 1 1 ∷ []) }
    ensures not_declared { ¬ HasInstrType (function_of [] []) [] (instr.Reference (reference.Func 0)) []
        (reference_to_function (function_of [] []) 0 0 ∷ []) }
    ensures is_null { HasInstrType (function_of [] []) [] (instr.Reference reference.IsNull) (Ref funcref ∷ []) (I32 ∷ []) }
    ensures as_non_null { HasInstrType (function_of [] []) [] (instr.Reference reference.AsNonNull) (Ref funcref ∷ []) (some_func ∷ []) }
    ensures still_null { ¬ HasInstrType (function_of [] []) [] (instr.Reference reference.AsNonNull) (Ref funcref ∷ []) (Ref funcref ∷ []) }
{}

fn tables()
    ensures get { HasInstrType (function_of [] []) [] (instr.Table (table.Get 0)) (I32 ∷ []) (Ref funcref ∷ []) }
    ensures set_value_first { ¬ HasInstrType (function_of [] []) [] (instr.Table (table.Set 0)) (Ref funcref ∷ I32 ∷ []) [] }
    ensures grown_value_first { HasInstrType (function_of [] []) [] (instr.Table (table.Grow 0)) (Ref funcref ∷ I32 ∷ []) (I32 ∷ []) }
    ensures past_the_last { ¬ HasInstrType (function_of [] []) [] (instr.Table (table.Size 1)) [] (I32 ∷ []) }
    ensures last_segment { HasInstrType (function_of [] []) [] (instr.Table (table.ElemDrop 0)) [] [] }
    ensures past_the_last_segment { ¬ HasInstrType (function_of [] []) [] (instr.Table (table.ElemDrop 1)) [] [] }
{}

fn memories()
    ensures wide_size { HasInstrType (function_of [] []) [] (instr.Memory (memory.Size 1)) [] (I64 ∷ []) }
    ensures narrow_size_of_a_wide_memory { ¬ HasInstrType (function_of [] []) [] (instr.Memory (memory.Size 1)) [] (I32 ∷ []) }
    ensures copied_by_the_narrower { HasInstrType (function_of [] []) [] (instr.Memory (memory.Copy 1 0)) (I64 ∷ I32 ∷ I32 ∷ []) [] }
    ensures copied_by_the_wider { ¬ HasInstrType (function_of [] []) [] (instr.Memory (memory.Copy 1 0)) (I64 ∷ I32 ∷ I64 ∷ []) [] }
    ensures past_the_last_segment { ¬ HasInstrType (function_of [] []) [] (instr.Memory (memory.Init 0 1)) (I32 ∷ I32 ∷ I32 ∷ []) [] }
{}

fn branches()
    ensures br_if { HasInstrType (labelled (function_of [] []) (I64 ∷ [])) [] (instr.BrIf 0) (I64 ∷ I32 ∷ []) (I64 ∷ []) }
    ensures br_if_without_condition { ¬ HasInstrType (labelled (function_of [] []) (I64 ∷ [])) [] (instr.BrIf 0) (I64 ∷ []) (I64 ∷ []) }
    ensures br_on_non_null { HasInstrType (labelled (function_of [] []) (some_func ∷ [])) [] (instr.BrOnNonNull 0) (Ref funcref ∷ []) [] }
    ensures br_on_non_null_without_reference { ¬ HasInstrType (labelled (function_of [] []) []) [] (instr.BrOnNonNull 0) (Ref funcref
        ∷ []) [] }
{}

fn clauses()
    ensures with_the_reference { IsCatch (labelled (function_of [] []) (I32 ∷ reference_to (Abstract false heap.Exn) ∷ []))
        (catch.OneRef 0 0) }
    ensures without_the_reference { ¬ IsCatch (labelled (function_of [] []) (I32 ∷ [])) (catch.OneRef 0 0) }
    ensures all { IsCatch (labelled (function_of [] []) []) (catch.All 0) }
{}
