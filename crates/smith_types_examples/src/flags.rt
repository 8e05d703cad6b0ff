ghost use Rattle.std.specs.Prelude.{ℕ, Bool, List, [], ◌∷◌, true, false, pos, Some, None, IsTrue};
ghost use Rattle.std.specs.List.{AllByRecursion as Each};
ghost use Rattle.smith_types.specs.Syntax.Features.{Features};
ghost use Rattle.smith_types.specs.Syntax.value_type.AbstractHeapType.{AbstractHeapType};
ghost use Rattle.smith_types.specs.Syntax.value_type.AbstractHeapType.TheVariants as heap;
ghost use Rattle.smith_types.specs.Syntax.value_type.HeapType.TheVariants.{Abstract, Concrete, Exact};
ghost use Rattle.smith_types.specs.Syntax.value_type.ValType.TheVariants.{I32};
ghost use Rattle.smith_types.specs.Syntax.composite_type.StorageType.TheVariants.{I8};
ghost use Rattle.smith_types.specs.Syntax.entity_type.EntityType.{EntityType};
ghost use Rattle.smith_types.specs.Syntax.imports.Import.{Import};
ghost use Rattle.smith_types.specs.Syntax.imports.ImportItem.{ImportItem};
ghost use Rattle.smith_types.specs.Syntax.imports.Imports.TheVariants.{Single, Compact1, Compact2};
ghost use Rattle.smith_types.specs.Syntax.const_instr.ConstInstr.{ConstInstr};
ghost use Rattle.smith_types.specs.Syntax.const_instr.ConstInstr.TheVariants as instr;
ghost use Rattle.smith_types.specs.Flags.{IsAbstractEnabled, IsHeapTypeEnabled, IsInnerEnabled, IsSubTypeEnabled, IsElementTypeEnabled};
ghost use Rattle.smith_types.specs.Flags.{IsImportsEnabled, IsInstrEnabled, funcref};
ghost use Rattle.smith_types.specs.ExampleTypes.{open_type, final_type, shared_type, empty_struct, array, plain_func, giving, plain};
ghost use Rattle.smith_types.specs.ExampleTypes.{nullable, not_null, variable};
ghost use Rattle.smith_types_examples.specs.ExampleTables.{IsOnWith};

fn abstract_types()
    ensures functions { (on : Features) → IsAbstractEnabled on heap.Func }
    ensures outside { (on : Features) → IsAbstractEnabled on heap.Extern }
    ensures exceptions { IsOnWith (λ on. IsTrue on.exceptions) (λ on. IsAbstractEnabled on heap.Exn) }
    ensures no_exception { IsOnWith (λ on. IsTrue on.exceptions × IsTrue on.gc) (λ on. IsAbstractEnabled on heap.NoExn) }
    ensures others { Each (λ (ty : AbstractHeapType). IsOnWith (λ on. IsTrue on.gc) (λ on. IsAbstractEnabled on ty)) (heap.Any ∷ heap.Eq
        ∷ heap.I31 ∷ heap.Struct ∷ heap.Array ∷ heap.None ∷ heap.NoFunc ∷ heap.NoExtern ∷ []) }
{}

fn heap_types()
    ensures not_shared { (on : Features) → IsHeapTypeEnabled on (plain heap.Func) }
    ensures shared { IsOnWith (λ on. IsTrue on.shared_everything_threads) (λ on. IsHeapTypeEnabled on (Abstract true heap.Func)) }
    ensures shared_and_what_it_is { IsOnWith (λ on. IsTrue on.gc × IsTrue on.shared_everything_threads)
        (λ on. IsHeapTypeEnabled on (Abstract true heap.Any)) }
    ensures concrete { (index : ℕ) → IsOnWith (λ on. IsTrue on.gc) (λ on. IsHeapTypeEnabled on (Concrete index)) }
    ensures exact { (index : ℕ) → IsOnWith (λ on. IsTrue on.custom_descriptors) (λ on. IsHeapTypeEnabled on (Exact index)) }
{}

fn composite_types()
    ensures function { (on : Features) → IsInnerEnabled on plain_func }
    ensures one_result { (on : Features) → IsInnerEnabled on (giving (I32 ∷ [])) }
    ensures two_results { IsOnWith (λ on. IsTrue on.multi_value) (λ on. IsInnerEnabled on (giving (I32 ∷ I32 ∷ []))) }
    ensures a_struct { IsOnWith (λ on. IsTrue on.gc) (λ on. IsInnerEnabled on empty_struct) }
    ensures an_array { IsOnWith (λ on. IsTrue on.gc) (λ on. IsInnerEnabled on (array (variable I8))) }
{}

fn subtypes()
    ensures final_one { (on : Features) → IsSubTypeEnabled on (final_type plain_func) }
    ensures of_what_it_is { IsOnWith (λ on. IsTrue on.gc) (λ on. IsSubTypeEnabled on (final_type empty_struct)) }
    ensures open { IsOnWith (λ on. IsTrue on.gc) (λ on. IsSubTypeEnabled on (open_type None plain_func)) }
    ensures supertype { IsOnWith (λ on. IsTrue on.gc) (λ on. IsSubTypeEnabled on (record (final_type plain_func) { supertype = Some 0 })) }
    ensures shared { IsOnWith (λ on. IsTrue on.shared_everything_threads) (λ on. IsSubTypeEnabled on (shared_type plain_func)) }
{}

fn element_types()
    ensures of_functions { (on : Features) → IsElementTypeEnabled on funcref }
    ensures of_others { IsOnWith (λ on. IsTrue on.reference_types) (λ on. IsElementTypeEnabled on (nullable (plain heap.Extern))) }
    ensures not_null { IsOnWith (λ on. IsTrue on.reference_types) (λ on. IsElementTypeEnabled on (not_null (plain heap.Func))) }
    ensures shared_functions { IsOnWith (λ on. IsTrue on.reference_types)
        (λ on. IsElementTypeEnabled on (nullable (Abstract true heap.Func))) }
{}

fn imports()
    ensures single { (on : Features) (item : Import) → IsImportsEnabled on (Single item) }
    ensures several_types { (name : List ℕ) (items : List ImportItem) → IsOnWith (λ on. IsTrue on.compact_imports)
        (λ on. IsImportsEnabled on (Compact1 name items)) }
    ensures one_type { (name : List ℕ) (ty : EntityType) (names : List (List ℕ)) → IsOnWith (λ on. IsTrue on.compact_imports)
        (λ on. IsImportsEnabled on (Compact2 name ty names)) }
{}

fn constants()
    ensures numbers { (on : Features) → Each (λ (it : ConstInstr). IsInstrEnabled on 0 it) (instr.I32Const (pos 0) ∷ instr.I64Const (pos 0)
        ∷ instr.F32Const 0 ∷ instr.F64Const 0 ∷ []) }
    ensures vector { IsOnWith (λ on. IsTrue on.simd) (λ on. IsInstrEnabled on 0 (instr.V128Const (pos 0))) }
    ensures imported_global { (on : Features) → IsInstrEnabled on 1 (instr.GlobalGet 0) }
    ensures defined_global { IsOnWith (λ on. IsTrue on.gc) (λ on. IsInstrEnabled on 1 (instr.GlobalGet 1)) }
    ensures references { Each (λ (it : ConstInstr). IsOnWith (λ on. IsTrue on.reference_types) (λ on. IsInstrEnabled on 0 it))
        (instr.RefNull (plain heap.Func) ∷ instr.RefFunc 0 ∷ []) }
    ensures arithmetic { Each (λ (it : ConstInstr). IsOnWith (λ on. IsTrue on.extended_const) (λ on. IsInstrEnabled on 0 it)) (instr.I32Add
        ∷ instr.I32Sub ∷ instr.I32Mul ∷ instr.I64Add ∷ instr.I64Sub ∷ instr.I64Mul ∷ []) }
{}

fn creation()
    ensures shared_i31 { IsOnWith (λ on. IsTrue on.gc × IsTrue on.shared_everything_threads)
        (λ on. IsInstrEnabled on 0 instr.RefI31Shared) }
    ensures others { Each (λ (it : ConstInstr). IsOnWith (λ on. IsTrue on.gc) (λ on. IsInstrEnabled on 0 it)) (instr.RefI31
        ∷ instr.StructNew 0 ∷ instr.StructNewDefault 0 ∷ instr.ArrayNew 0 ∷ instr.ArrayNewDefault 0 ∷ instr.ArrayNewFixed 0 1
        ∷ instr.AnyConvertExtern ∷ instr.ExternConvertAny ∷ []) }
{}
