ghost use Rattle.std.specs.Prelude.{List, [], ◌∷◌, false};
ghost use Rattle.smith_types.specs.Syntax.value_type.AbstractHeapType.TheVariants as heap;
ghost use Rattle.smith_types.specs.Syntax.value_type.HeapType.TheVariants.{Abstract};
ghost use Rattle.smith_types.specs.Syntax.value_type.ValType.{ValType};
ghost use Rattle.smith_types.specs.Syntax.value_type.ValType.TheVariants.{I32, I64, Ref};
ghost use Rattle.smith_types.specs.Expressions.{reference_to};
ghost use Rattle.smith_instr.specs.InstrTypes.{HasInstrType, IsCatch};
ghost use Rattle.smith_instr.specs.Sequences.{AreTyped, Stacked, stacked};
ghost use Rattle.smith_instr.specs.declared.control.BlockType.TheVariants as block;
ghost use Rattle.smith_instr.specs.declared.control.Catch.TheVariants as catch;
ghost use Rattle.smith_instr.specs.declared.instr.Instr.TheVariants as instr;
ghost use Rattle.smith_instr_examples.specs.ExampleBodies.{exnref, number};
ghost use Rattle.smith_instr_examples.specs.ExampleManaged.{external, managed};

fn try_tables()
    ensures to_an_outer_label { AreTyped (managed ((I32 ∷ []) ∷ []) []) (instr.TryTable block.Empty (catch.One 0 0 ∷ []) ∷ number 1
        ∷ instr.Throw 0 ∷ instr.End ∷ []) (stacked [] []) (stacked [] []) }
    ensures with_a_result { AreTyped (managed ([] ∷ []) []) (instr.TryTable (block.Value I32) (catch.All 0 ∷ []) ∷ number 1 ∷ instr.End
        ∷ []) (stacked [] []) (stacked (I32 ∷ []) []) }
    ensures to_its_own_label { (before after : Stacked) → ¬ AreTyped (managed [] []) (instr.TryTable (block.Value I32) (catch.One 0 0 ∷ [])
        ∷ number 1 ∷ instr.End ∷ []) before after }
    ensures second_clause_to_another_type { (before after : Stacked) → ¬ AreTyped (managed ((I32 ∷ []) ∷ []) [])
        (instr.TryTable block.Empty (catch.One 0 0 ∷ catch.All 0 ∷ []) ∷ instr.End ∷ []) before after }
    ensures body_without_its_result { (before after : Stacked) → ¬ AreTyped (managed [] []) (instr.TryTable (block.Value I32) [] ∷ instr.End
        ∷ []) before after }
    ensures body_with_a_value_left { (before after : Stacked) → ¬ AreTyped (managed [] []) (instr.TryTable block.Empty [] ∷ number 1
        ∷ instr.End ∷ []) before after }
{}

fn clauses()
    ensures one { IsCatch (managed ((I32 ∷ []) ∷ []) []) (catch.One 0 0) }
    ensures one_without_its_value { ¬ IsCatch (managed ([] ∷ []) []) (catch.One 0 0) }
    ensures one_with_another_value { ¬ IsCatch (managed ((I64 ∷ []) ∷ []) []) (catch.One 0 0) }
    ensures one_with_a_reference { ¬ IsCatch (managed ((I32 ∷ reference_to (Abstract false heap.Exn) ∷ []) ∷ []) []) (catch.One 0 0) }
    ensures past_the_last_tag { ¬ IsCatch (managed ((I32 ∷ []) ∷ []) []) (catch.One 1 0) }
    ensures past_the_last_label { ¬ IsCatch (managed ((I32 ∷ []) ∷ []) []) (catch.One 0 1) }
    ensures one_to_a_nullable_reference { IsCatch (managed ((I32 ∷ exnref ∷ []) ∷ []) []) (catch.OneRef 0 0) }
    ensures reference_below_the_value { ¬ IsCatch (managed ((exnref ∷ I32 ∷ []) ∷ []) []) (catch.OneRef 0 0) }
    ensures all_with_a_value { ¬ IsCatch (managed ((I32 ∷ []) ∷ []) []) (catch.All 0) }
    ensures all_with_a_reference { IsCatch (managed ((exnref ∷ []) ∷ []) []) (catch.AllRef 0) }
    ensures all_with_another_reference { ¬ IsCatch (managed ((Ref external ∷ []) ∷ []) []) (catch.AllRef 0) }
    ensures all_without_the_reference { ¬ IsCatch (managed ([] ∷ []) []) (catch.AllRef 0) }
{}

fn rethrown()
    ensures exception { HasInstrType (managed [] []) [] instr.ThrowRef (I64 ∷ exnref ∷ []) (I32 ∷ []) }
    ensures nothing { (results : List ValType) → ¬ HasInstrType (managed [] []) [] instr.ThrowRef [] results }
    ensures another_reference { (results : List ValType) → ¬ HasInstrType (managed [] []) [] instr.ThrowRef (Ref external ∷ []) results }
    ensures below_another_value { (results : List ValType) → ¬ HasInstrType (managed [] []) [] instr.ThrowRef (exnref ∷ I32 ∷ []) results }
{}
