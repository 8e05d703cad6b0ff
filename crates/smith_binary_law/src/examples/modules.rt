ghost use Rattle.std.specs.Prelude.{ℕ, ◌^◌, ◌≤◌, ℤ, pos, negsuc, List, [], ◌∷◌};
ghost use Rattle.std.specs.Prelude.{length, false, true, None};
ghost use Rattle.smith_binary.specs.Numbers.{IsUnsigned, IsSigned};
ghost use Rattle.smith_types.specs.ExampleContexts.{context_with};
ghost use Rattle.smith_types.specs.ExampleEntities.{memory, all_addresses, table};
ghost use Rattle.smith_types.specs.ExampleFeatures.{usual_features};
ghost use Rattle.smith_types.specs.ExampleTypes.{nullable, plain};
ghost use Rattle.smith_types.specs.Flags.{funcref};
ghost use Rattle.smith_types.specs.Segments.{IsElementSegmentValid};
ghost use Rattle.smith_types.specs.Syntax.const_instr.ConstInstr.TheVariants.{I32Const, I64Const};
ghost use Rattle.smith_types.specs.Syntax.const_instr.ConstInstr.TheVariants.{RefNull};
ghost use Rattle.smith_types.specs.Syntax.segments.ElementKind.TheVariants as kind;
ghost use Rattle.smith_types.specs.Syntax.segments.Elements.TheVariants.{Functions, Expressions};
ghost use Rattle.smith_types.specs.Syntax.segments.Offset.TheVariants.{Const32};
ghost use Rattle.smith_types.specs.Syntax.value_type.AbstractHeapType.TheVariants as heap;
ghost use Rattle.smith_types.specs.Syntax.value_type.HeapType.TheVariants.{Concrete};
ghost use Rattle.smith_types.specs.Syntax.value_type.ValType.{ValType};
ghost use Rattle.smith_types.specs.Syntax.value_type.ValType.TheVariants.{I32};
ghost use Rattle.smith_binary_sections.specs.Codes.{IsLocals, IsLocalsWritten};
ghost use Rattle.smith_binary_sections.specs.Data.DataMode.{passive as kept, active as in_memory};
ghost use Rattle.smith_binary_sections.specs.Elements.{elem_of, func_ref, func_items};
ghost use Rattle.smith_binary_sections.specs.Elements.Mode.{passive, active};
ghost use Rattle.smith_binary_sections.specs.Long.{IsLongBody};
ghost use Rattle.smith_binary_sections.specs.Modules.{IsModule};
ghost use Rattle.smith_binary_law.specs.ExampleModules.{empty_module};
ghost use Rattle.smith_binary_law.specs.Segments.{IsElemTyped, IsDataTyped, AreListedAsFuncref};

// 3 has two spellings as an integer of 8 bits.
fn three_has_two_spellings()
    ensures short { IsUnsigned 8 3 (0x03 ∷ []) }
    ensures long { IsUnsigned 8 3 (0x83 ∷ 0x00 ∷ []) }
{}

// -2 has three spellings as a signed integer of 16 bits.
fn minus_two_has_three_spellings()
    ensures short { IsSigned 16 (negsuc 1) (0x7E ∷ []) }
    ensures longer { IsSigned 16 (negsuc 1) (0xFE ∷ 0x7F ∷ []) }
    ensures longest { IsSigned 16 (negsuc 1) (0xFE ∷ 0xFF ∷ 0x7F ∷ []) }
{}

// The unused bits of the last byte are clear.
fn unused_bits_are_kept_clear()
    ensures unsigned { (n : ℕ) → IsUnsigned 8 n (0x83 ∷ 0x10 ∷ []) → ⊥ }
    ensures signed { (z : ℤ) → IsSigned 8 z (0x83 ∷ 0x3E ∷ []) → ⊥ }
    ensures negative { (z : ℤ) → IsSigned 8 z (0xFF ∷ 0x7B ∷ []) → ⊥ }
{}

// The preamble alone is the empty module.
fn the_preamble_is_a_module()
    ensures { IsModule empty_module (0x00 ∷ 0x61 ∷ 0x73 ∷ 0x6D ∷ 0x01 ∷ 0x00 ∷ 0x00 ∷ 0x00 ∷ []) }
{}

// Element segments in the abstract syntax.
fn element_segments()
    ensures of_functions { IsElemTyped (context_with usual_features 3)
        (table funcref 2 None ∷ []) (record {
          ty = func_ref false;
          items = func_items (0 ∷ 1 ∷ []);
          mode = active 0 (I32Const (pos 0) ∷ []);
        }) }
    ensures of_a_function_that_is_not_there { ¬ IsElemTyped (context_with usual_features 3) []
        (record { ty = func_ref false; items = func_items (2 ∷ []); mode = passive }) }
    ensures null_among_those_that_are_not_null { ¬ IsElemTyped (context_with usual_features 3) []
        (record {
          ty = func_ref false;
          items = (RefNull (plain heap.Func) ∷ []) ∷ [];
          mode = passive;
        }) }
    ensures of_an_unknown_type { ¬ IsElemTyped (context_with usual_features 3) []
        (record { ty = nullable (Concrete 6); items = []; mode = passive }) }
    ensures into_no_table { ¬ IsElemTyped (context_with usual_features 3) []
        (record { ty = func_ref false; items = []; mode = active 0 (I32Const (pos 0) ∷ []) }) }
    ensures with_a_wide_offset { ¬ IsElemTyped (context_with usual_features 3)
        (table funcref 2 None ∷ [])
        (record { ty = func_ref false; items = []; mode = active 0 (I64Const (pos 0) ∷ []) }) }
{}

// A list of functions may be valid as a part of a module without being valid in the abstract
// syntax.
fn lists_of_functions_of_one_type()
    ensures part { IsElementSegmentValid (context_with usual_features 3)
        (table (nullable (Concrete 0)) 1 None ∷ []) (record {
          kind = kind.Active None (Const32 (pos 0));
          ty = nullable (Concrete 0);
          items = Functions (0 ∷ []);
        }) }
    ensures listed { ¬ AreListedAsFuncref (Functions (0 ∷ [])) (nullable (Concrete 0)) }
    ensures of_funcref { AreListedAsFuncref (Functions (0 ∷ [])) funcref }
    ensures of_expressions { AreListedAsFuncref (Expressions []) (nullable (Concrete 0)) }
    ensures in_the_abstract_syntax { ¬ IsElemTyped (context_with usual_features 3)
        (table (nullable (Concrete 0)) 1 None ∷ []) (elem_of (record {
          kind = kind.Active None (Const32 (pos 0));
          ty = nullable (Concrete 0);
          items = Functions (0 ∷ []);
        })) }
{}

// Data segments in the abstract syntax.
fn data_segments()
    ensures passive { IsDataTyped (context_with usual_features 3) []
        (record { bytes = 0 ∷ []; mode = kept }) }
    ensures into_a_memory { IsDataTyped (context_with usual_features 3) (memory 1 None ∷ [])
        (record { bytes = []; mode = in_memory 0 (I32Const (pos 0) ∷ []) }) }
    ensures into_no_memory { ¬ IsDataTyped (context_with usual_features 3) []
        (record { bytes = []; mode = in_memory 0 (I32Const (pos 0) ∷ []) }) }
    ensures with_a_narrow_offset { ¬ IsDataTyped (context_with usual_features 3)
        (all_addresses ∷ []) (record { bytes = []; mode = in_memory 0 (I32Const (pos 0) ∷ []) }) }
{}

// Locals in runs. The grammar allows any number of runs of no locals. Each local is written as a
// run of its own.
fn runs_of_locals()
    ensures of_no_local { IsLocals [] (0x01 ∷ 0x00 ∷ 0x7F ∷ []) }
    ensures of_no_local_as_written { ¬ IsLocalsWritten [] (0x01 ∷ 0x00 ∷ 0x7F ∷ []) }
    ensures of_two { IsLocals (I32 ∷ I32 ∷ []) (0x01 ∷ 0x02 ∷ 0x7F ∷ []) }
    ensures of_two_as_written { ¬ IsLocalsWritten (I32 ∷ I32 ∷ []) (0x01 ∷ 0x02 ∷ 0x7F ∷ []) }
    ensures one_by_one { IsLocalsWritten (I32 ∷ I32 ∷ [])
        (0x02 ∷ 0x01 ∷ 0x7F ∷ 0x01 ∷ 0x7F ∷ []) }
{}

// Bodies that are too long to be written.
fn lengths_of_bodies()
    ensures no_local { ¬ IsLongBody ([], 0x00 ∷ 0x0B ∷ []) }
    ensures one_local { ¬ IsLongBody (I32 ∷ [], 0x00 ∷ 0x0B ∷ []) }
    ensures many_locals { (locals : List ValType) → 2 ^ 32 ≤ length locals
        → IsLongBody (locals, 0x00 ∷ 0x0B ∷ []) }
    ensures many_bytes { (bytes : List ℕ) → 2 ^ 32 ≤ length bytes → IsLongBody ([], bytes) }
{}
