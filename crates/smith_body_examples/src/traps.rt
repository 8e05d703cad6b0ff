ghost use Rattle.std.specs.List.{AllByRecursion as Each};
ghost use Rattle.smith_instr.specs.declared.aggregate.AggregateInstr.{AggregateInstr};
ghost use Rattle.smith_instr.specs.declared.instr.Instr.{Instr};
ghost use Rattle.smith_instr.specs.declared.numeric.NumericInstr.{NumericInstr};
ghost use Rattle.std.specs.Prelude.{◌≡◌, true, false, [], ◌∷◌, ◌++◌};
ghost use Rattle.smith_types.specs.Flags.{funcref};
ghost use Rattle.smith_types.specs.Syntax.instruction_kind.InstructionKind.TheVariants.{NumericInt};
ghost use Rattle.smith_types.specs.Syntax.value_type.ValType.TheVariants.{I32};
ghost use Rattle.smith_config.specs.Config.{default_config};
ghost use Rattle.smith_instr.specs.declared.aggregate.AggregateInstr.TheVariants as aggregate;
ghost use Rattle.smith_instr.specs.declared.aggregate.Extension.TheVariants as extension;
ghost use Rattle.smith_instr.specs.declared.atomic.AtomicAccess.TheVariants as atomic;
ghost use Rattle.smith_instr.specs.declared.control.BlockType.TheVariants as block;
ghost use Rattle.smith_instr.specs.declared.instr.Instr.TheVariants as instr;
ghost use Rattle.smith_instr.specs.declared.memory.Load.TheVariants as load;
ghost use Rattle.smith_instr.specs.declared.memory.MemoryInstr.TheVariants as memory;
ghost use Rattle.smith_instr.specs.declared.memory.Store.TheVariants as store;
ghost use Rattle.smith_instr.specs.declared.numeric.Conversion.TheVariants as convert;
ghost use Rattle.smith_instr.specs.declared.numeric.FloatBinary.TheVariants as float_binary;
ghost use Rattle.smith_instr.specs.declared.numeric.IntBinary.TheVariants as int_binary;
ghost use Rattle.smith_instr.specs.declared.numeric.NumericInstr.TheVariants as numeric;
ghost use Rattle.smith_instr.specs.declared.numeric.SaturatingConversion.TheVariants as saturate;
ghost use Rattle.smith_instr.specs.declared.reference.ReferenceInstr.TheVariants as reference;
ghost use Rattle.smith_instr.specs.declared.table.TableInstr.TheVariants as table;
ghost use Rattle.smith_instr.specs.declared.vector.VectorLoad.TheVariants as vector_load;
ghost use Rattle.smith_instr_examples.specs.ExampleBodies.{aligned, function_of, kinds_of, number, some_func};
ghost use Rattle.smith_body.specs.Bodies.{body_at};
ghost use Rattle.smith_body_nodes.specs.Traps.{IsTrapless, may_trap};
ghost use Rattle.smith_body_examples.specs.ExampleAggregates.{nested, paired, some};
ghost use Rattle.smith_body_examples.specs.ExampleBytes.{narrow, trapless};

fn numbers()
    ensures that_may { Each (λ (op : NumericInstr). may_trap (instr.Numeric op) ≡ true) (numeric.I32Binary int_binary.DivS
        ∷ numeric.I64Binary int_binary.RemU ∷ numeric.Convert convert.I32TruncF64U ∷ numeric.I64Binary int_binary.DivU
        ∷ numeric.I32Binary int_binary.RemS ∷ numeric.Convert convert.I32TruncF32S ∷ numeric.Convert convert.I32TruncF32U
        ∷ numeric.Convert convert.I32TruncF64S ∷ numeric.Convert convert.I64TruncF32S ∷ numeric.Convert convert.I64TruncF32U
        ∷ numeric.Convert convert.I64TruncF64S ∷ numeric.Convert convert.I64TruncF64U ∷ []) }
    ensures that_do_not { Each (λ (op : NumericInstr). may_trap (instr.Numeric op) ≡ false) (numeric.F32Binary float_binary.Div
        ∷ numeric.I32Binary int_binary.Shl ∷ numeric.Saturate saturate.I32TruncSatF64U ∷ numeric.Convert convert.I32WrapI64 ∷ []) }
{}

fn structures_and_arrays()
    ensures that_may { Each (λ (op : AggregateInstr). may_trap (instr.Aggregate op) ≡ true) (aggregate.StructGet 2 1 extension.Unpacked
        ∷ aggregate.ArrayNewElem 3 0 ∷ aggregate.ArrayGet 3 extension.Unpacked ∷ aggregate.ArraySet 3 ∷ aggregate.ArrayLen
        ∷ aggregate.ArrayFill 3 ∷ aggregate.ArrayCopy 3 3 ∷ aggregate.ArrayInitData 3 0 ∷ aggregate.ArrayInitElem 3 0 ∷ aggregate.I31GetU
        ∷ aggregate.StructSet 2 1 ∷ aggregate.ArrayNewData 3 0 ∷ aggregate.I31GetS ∷ []) }
    ensures new_array { Each (λ (op : AggregateInstr). may_trap (instr.Aggregate op) ≡ false) (aggregate.ArrayNew 3 ∷ []) }
{}

fn others()
    ensures that_may { Each (λ (op : Instr). may_trap op ≡ true) (instr.Load load.I32 (aligned 0 0)
        ∷ instr.Atomic atomic.Notify (aligned 0 2) ∷ instr.Memory (memory.Fill 0) ∷ instr.Table (table.Get 0)
        ∷ instr.Store store.I32 (aligned 0 0) ∷ instr.VectorLoad vector_load.V128 (aligned 0 0) ∷ instr.VectorStore (aligned 0 0)
        ∷ instr.VectorLoadLane 0 (aligned 0 0) 0 ∷ instr.VectorStoreLane 0 (aligned 0 0) 0 ∷ instr.Memory (memory.Copy 0 0)
        ∷ instr.Memory (memory.Init 0 0) ∷ instr.Table (table.Set 0) ∷ instr.Table (table.Fill 0) ∷ instr.Table (table.Copy 0 0)
        ∷ instr.Table (table.Init 0 0) ∷ instr.Reference (reference.Cast funcref) ∷ instr.Reference reference.AsNonNull ∷ instr.Unreachable
        ∷ instr.CallIndirect 0 0 ∷ instr.CallRef 0 ∷ instr.ReturnCallIndirect 0 0 ∷ instr.ReturnCallRef 0 ∷ instr.ThrowRef ∷ []) }
    ensures that_do_not { Each (λ (op : Instr). may_trap op ≡ false) (instr.AtomicFence ∷ instr.Memory (memory.Grow 0)
        ∷ instr.Memory (memory.DataDrop 0) ∷ instr.Table (table.Size 0) ∷ instr.Reference reference.IsNull ∷ instr.BrOnNull 0 ∷ instr.Call 0
        ∷ instr.Throw 0 ∷ instr.TryTable (block.Value I32) [] ∷ []) }
    ensures stop_is_left { IsTrapless instr.Unreachable }
    ensures load_is_not { ¬ IsTrapless (instr.Load load.I32 (aligned 0 0)) }
{}

fn with_traps()
    ensures division { body_at default_config (function_of [] (I32 ∷ [])) 1 (0 ∷ 1 ∷ 6 ∷ narrow 5 ++ narrow 7)
        ≡ (number 5 ∷ number 7 ∷ instr.Numeric (numeric.I32Binary int_binary.DivS) ∷ [], []) }
    ensures stop { body_at default_config (function_of [] []) 1 (252 ∷ 7 ∷ []) ≡ (instr.Unreachable ∷ [], []) }
    ensures constant_that_is_none { body_at default_config (function_of [] (some_func ∷ [])) 1 (0 ∷ 0 ∷ 4 ∷ 15 ∷ [])
        ≡ (instr.Unreachable ∷ [], []) }
{}

fn without_traps()
    ensures division { body_at trapless (function_of [] (I32 ∷ [])) 1 (0 ∷ 1 ∷ 6 ∷ narrow 5 ++ narrow 7) ≡ (number 5 ∷ [], narrow 7) }
    ensures subtraction { body_at trapless (function_of [] (I32 ∷ [])) 1 (0 ∷ 1 ∷ 4 ∷ narrow 5 ++ narrow 7)
        ≡ (number 5 ∷ number 7 ∷ instr.Numeric (numeric.I32Binary int_binary.Sub) ∷ [], []) }
    ensures call { body_at trapless (function_of [] []) 1 (1 ∷ 5 ∷ 0 ∷ []) ≡ (instr.Call 0 ∷ [], []) }
    ensures stop { body_at trapless (function_of [] []) 1 (252 ∷ 7 ∷ []) ≡ ([], []) }
    ensures growth { body_at trapless (function_of [] (I32 ∷ [])) 1 (0 ∷ 15 ∷ 1 ∷ 0 ∷ 2 ∷ [])
        ≡ (number 2 ∷ instr.Memory (memory.Grow 0) ∷ [], []) }
    ensures thrown { body_at trapless (function_of [] []) 1 (252 ∷ 4 ∷ 1 ∷ narrow 5) ≡ (number 5 ∷ instr.Throw 0 ∷ [], []) }
    ensures thrown_again { body_at trapless (function_of [] []) 1 (252 ∷ 4 ∷ 7 ∷ 4 ∷ []) ≡ ([], 4 ∷ []) }
    ensures block_that_catches { body_at trapless (function_of [] (I32 ∷ [])) 1 (0 ∷ 34 ∷ 0 ∷ narrow 5)
        ≡ (instr.TryTable (block.Value I32) [] ∷ number 5 ∷ instr.End ∷ [], []) }
    ensures drawn_all_the_same { ¬ (body_at trapless (function_of [] (I32 ∷ [])) 1 (0 ∷ 1 ∷ 6 ∷ narrow 5 ++ narrow 7)
        ≡ (number 5 ∷ number 7 ∷ instr.Numeric (numeric.I32Binary int_binary.DivS) ∷ [], [])) }
{}

fn in_place_of_a_stop()
    ensures function { body_at trapless (function_of [] (some_func ∷ [])) 1 (0 ∷ 0 ∷ 4 ∷ [])
        ≡ (instr.Reference (reference.Func 1) ∷ [], []) }
    ensures nothing { body_at trapless (record (function_of [] (some_func ∷ [])) { references = [] }) 1 (0 ∷ 0 ∷ 4 ∷ [])
        ≡ (instr.Unreachable ∷ [], []) }
    ensures struct_of_default_values { body_at trapless (function_of [] (some 2 ∷ [])) 1 (0 ∷ 0 ∷ 4 ∷ [])
        ≡ (instr.Aggregate (aggregate.StructNewDefault 2) ∷ [], []) }
    ensures struct_of_a_struct { body_at trapless (record nested { results = some 1 ∷ [] }) 1 (0 ∷ 0 ∷ 4 ∷ [])
        ≡ (instr.Aggregate (aggregate.StructNewDefault 0) ∷ instr.Aggregate (aggregate.StructNew 1) ∷ [], []) }
    ensures struct_of_a_struct_of_a_struct { body_at trapless (record nested { results = some 3 ∷ [] }) 1 (0 ∷ 0 ∷ 4 ∷ [])
        ≡ (
          instr.Aggregate (aggregate.StructNewDefault 0) ∷ instr.Aggregate (aggregate.StructNew 1) ∷ instr.Aggregate
              (aggregate.StructNew 3) ∷ [],
          [],
        ) }
    ensures pair_of_pairs { body_at trapless (record paired { results = some 2 ∷ [] }) 1 (0 ∷ 0 ∷ 4 ∷ []) ≡ (instr.Unreachable ∷ [], []) }
    ensures zero { body_at (record trapless { allowed_instructions = kinds_of NumericInt }) (function_of [] (I32 ∷ [])) 1 (0 ∷ 0 ∷ 2 ∷ 1
        ∷ []) ≡ (number 0 ∷ [], []) }
    ensures budget { body_at trapless (function_of [] (I32 ∷ [])) 0 [] ≡ (instr.Unreachable ∷ [], []) }
{}
