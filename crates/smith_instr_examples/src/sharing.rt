ghost use Rattle.std.specs.Prelude.{List, [], ◌∷◌, true, false};
ghost use Rattle.smith_types.specs.ExampleTypes.{plain};
ghost use Rattle.smith_types.specs.Expressions.{reference_to};
ghost use Rattle.smith_types.specs.Syntax.value_type.AbstractHeapType.TheVariants as heap;
ghost use Rattle.smith_types.specs.Syntax.value_type.HeapType.TheVariants.{Abstract, Concrete};
ghost use Rattle.smith_types.specs.Syntax.value_type.ValType.TheVariants.{I32, I64};
ghost use Rattle.smith_types.specs.Syntax.value_type.ValType.{ValType};
ghost use Rattle.smith_instr.specs.Contexts.{nullable_to};
ghost use Rattle.smith_instr.specs.InstrTypes.{HasInstrType};
ghost use Rattle.smith_instr.specs.Sequences.{AreTyped, stacked};
ghost use Rattle.smith_instr.specs.declared.aggregate.AggregateInstr.TheVariants as aggregate;
ghost use Rattle.smith_instr.specs.declared.aggregate.Extension.TheVariants as extension;
ghost use Rattle.smith_instr.specs.declared.instr.Instr.TheVariants as instr;
ghost use Rattle.smith_instr.specs.declared.reference.ReferenceInstr.TheVariants as reference;
ghost use Rattle.smith_instr.specs.declared.table.TableInstr.TheVariants as table;
ghost use Rattle.smith_instr_examples.specs.ExampleManaged.{sharing};
ghost use Rattle.smith_instr_examples.specs.ExampleTyping.{HasType, LeavesNot, TakesNot};

fn i31()
    ensures made { HasType (instr.Aggregate aggregate.RefI31Shared) (I32 ∷ []) (reference_to (Abstract true heap.I31) ∷ []) }
    ensures made_unshared { LeavesNot (instr.Aggregate aggregate.RefI31Shared) (reference_to (plain heap.I31) ∷ []) }
    ensures made_nullable { LeavesNot (instr.Aggregate aggregate.RefI31Shared) (nullable_to (Abstract true heap.I31) ∷ []) }
    ensures made_of_i64 { TakesNot (instr.Aggregate aggregate.RefI31Shared) (I64 ∷ []) }
    ensures made_of_none { TakesNot (instr.Aggregate aggregate.RefI31Shared) [] }
    ensures made_shared_by_another_instruction { LeavesNot (instr.Aggregate aggregate.RefI31) (reference_to (Abstract true heap.I31) ∷ []) }
    ensures signed { HasType (instr.Aggregate aggregate.I31GetS) (nullable_to (Abstract true heap.I31) ∷ []) (I32 ∷ []) }
    ensures unsigned { HasType (instr.Aggregate aggregate.I31GetU) (nullable_to (Abstract true heap.I31) ∷ []) (I32 ∷ []) }
    ensures signed_of_a_type_above { TakesNot (instr.Aggregate aggregate.I31GetS) (nullable_to (Abstract true heap.Eq) ∷ []) }
    ensures unsigned_of_a_type_above { TakesNot (instr.Aggregate aggregate.I31GetU) (nullable_to (Abstract true heap.Eq) ∷ []) }
    ensures unsigned_wide { LeavesNot (instr.Aggregate aggregate.I31GetU) (I64 ∷ []) }
    ensures unsigned_of_none { TakesNot (instr.Aggregate aggregate.I31GetU) [] }
{}

fn conversions()
    ensures inwards { HasType (instr.Aggregate aggregate.AnyConvertExtern) (nullable_to (Abstract true heap.Extern)
        ∷ []) (nullable_to (Abstract true heap.Any) ∷ []) }
    ensures outwards { HasType (instr.Aggregate aggregate.ExternConvertAny) (nullable_to (Abstract true heap.Any)
        ∷ []) (nullable_to (Abstract true heap.Extern) ∷ []) }
    ensures inwards_unshared { ¬ HasType (instr.Aggregate aggregate.AnyConvertExtern) (nullable_to (Abstract true heap.Extern)
        ∷ []) (nullable_to (Abstract false heap.Any) ∷ []) }
    ensures outwards_unshared { ¬ HasType (instr.Aggregate aggregate.ExternConvertAny) (nullable_to (Abstract true heap.Any)
        ∷ []) (nullable_to (Abstract false heap.Extern) ∷ []) }
{}

fn others()
    ensures equality { HasType (instr.Reference reference.Eq) (nullable_to (Abstract true heap.Eq) ∷ nullable_to (Abstract true heap.Eq)
        ∷ []) (I32 ∷ []) }
    ensures equality_of_either { HasType (instr.Reference reference.Eq) (nullable_to (Abstract true heap.Eq)
        ∷ nullable_to (Abstract false heap.Eq) ∷ []) (I32 ∷ []) }
    ensures equality_of_any { TakesNot (instr.Reference reference.Eq) (nullable_to (Abstract true heap.Eq)
        ∷ nullable_to (Abstract true heap.Any) ∷ []) }
    ensures equality_to_i64 { LeavesNot (instr.Reference reference.Eq) (I64 ∷ []) }
    ensures equality_of_one { TakesNot (instr.Reference reference.Eq) (nullable_to (Abstract false heap.Eq) ∷ []) }
    ensures array_len { HasType (instr.Aggregate aggregate.ArrayLen) (nullable_to (Abstract true heap.Array) ∷ []) (I32 ∷ []) }
    ensures array_len_to_i64 { LeavesNot (instr.Aggregate aggregate.ArrayLen) (I64 ∷ []) }
    ensures array_len_of_a_type_above { TakesNot (instr.Aggregate aggregate.ArrayLen) (nullable_to (Abstract true heap.Eq) ∷ []) }
{}

fn types()
    ensures struct_new { HasInstrType sharing [] (instr.Aggregate (aggregate.StructNew 0)) (I32 ∷ I64 ∷ []) (reference_to (Concrete 0)
        ∷ []) }
    ensures struct_get_of_16_bits { HasInstrType sharing [] (instr.Aggregate (aggregate.StructGet 0 0 extension.Signed))
        (nullable_to (Concrete 0) ∷ []) (I32 ∷ []) }
    ensures struct_get_of_16_bits_unpacked { (operands results : List ValType) → ¬ HasInstrType sharing []
        (instr.Aggregate (aggregate.StructGet 0 0 extension.Unpacked)) operands results }
    ensures struct_get_of_16_bits_wide { (operands : List ValType) → ¬ HasInstrType sharing []
        (instr.Aggregate (aggregate.StructGet 0 0 extension.Unsigned)) operands (I64 ∷ []) }
    ensures array_set { HasInstrType sharing [] (instr.Aggregate (aggregate.ArraySet 1)) (nullable_to (Concrete 1) ∷ I32 ∷ I32 ∷ []) [] }
    ensures array_counted { AreTyped sharing (instr.Aggregate (aggregate.ArrayNewDefault 1) ∷ instr.Aggregate aggregate.ArrayLen
        ∷ []) (stacked (I32 ∷ []) []) (stacked (I32 ∷ []) []) }
    ensures call_ref { HasInstrType sharing [] (instr.CallRef 2) (I64 ∷ nullable_to (Concrete 2) ∷ []) (I32 ∷ []) }
{}

fn tables()
    ensures call_indirect { HasInstrType sharing [] (instr.CallIndirect 0 2) (I64 ∷ I32 ∷ []) (I32 ∷ []) }
    ensures return_call_indirect { HasInstrType (record sharing { results = I32 ∷ [] }) [] (instr.ReturnCallIndirect 0 2) (I64 ∷ I32
        ∷ []) [] }
    ensures get { HasInstrType sharing [] (instr.Table (table.Get 0)) (I32 ∷ []) (nullable_to (Abstract true heap.Func) ∷ []) }
    ensures get_unshared { ¬ HasInstrType sharing [] (instr.Table (table.Get 0)) (I32 ∷ []) (nullable_to (Abstract false heap.Func) ∷ []) }
{}
