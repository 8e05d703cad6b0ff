#![tactic(auto)]

ghost use Rattle.std.specs.Prelude.{◌≡◌, true, [], ◌∷◌, None};
ghost use Rattle.smith_types.specs.Syntax.value_type.AbstractHeapType.TheVariants as heap;
ghost use Rattle.smith_types.specs.Syntax.value_type.HeapType.TheVariants.{Abstract, Concrete, Exact};
ghost use Rattle.smith_types.specs.Syntax.value_type.ValType.TheVariants.{I32, Ref};
ghost use Rattle.smith_types.specs.ExampleEntities.{constant_global, table};
ghost use Rattle.smith_types.specs.ExampleFeatures.{gc_alone, no_features};
ghost use Rattle.smith_types.specs.ExampleTypes.{not_null, nullable, plain};
ghost use Rattle.smith_types.specs.Flags.{funcref};
ghost use Rattle.smith_config.specs.Config.{default_config};
ghost use Rattle.smith_config.specs.ExampleMembers.{a_type, giving, without_gc};
ghost use Rattle.smith_module_rules_examples.specs.ExampleModules.{empty_module};
ghost use Rattle.smith_module_rules_examples.specs.ExampleParts.{trapping};
ghost use Rattle.smith_instr.specs.declared.control.BlockType.TheVariants as block;
ghost use Rattle.smith_instr.specs.declared.instr.Instr.TheVariants as instr;
ghost use Rattle.smith_program_examples.specs.ExamplePrograms.{block_of, indexed, indexed_elements, with_indexed_local};
ghost use Rattle.smith_binary_program.specs.Forms.{AreReferencesEnabled, IsRefFormEnabled, IsStatedEnabled, IsValFormEnabled, values_in};

// Reference types whose form needs a feature, and others that do not.

fn value_types()
    ensures to_any_function { IsRefFormEnabled no_features funcref }
    ensures without_null { ¬ IsRefFormEnabled no_features (not_null (plain heap.Func)) }
    ensures to_a_shared_function { ¬ IsRefFormEnabled no_features (nullable (Abstract true heap.Func)) }
    ensures to_a_type { ¬ IsRefFormEnabled no_features indexed }
    ensures to_exactly_a_type { ¬ IsRefFormEnabled no_features (nullable (Exact 0)) }
    ensures with_the_feature { IsRefFormEnabled gc_alone indexed }
    ensures of_a_number { IsValFormEnabled no_features I32 }
    ensures of_a_reference { ¬ IsValFormEnabled no_features (Ref indexed) }
{}

fn stated_types()
    ensures of_a_block { values_in (instr.Block (block.Value I32)) ≡ I32 ∷ [] }
    ensures of_a_block_of_a_type { values_in (instr.Loop (block.Func 3)) ≡ [] }
    ensures of_a_select { values_in (instr.SelectTyped (I32 ∷ [])) ≡ I32 ∷ [] }
    ensures of_a_select_without_a_type { values_in instr.Select ≡ [] }
    ensures enabled { IsStatedEnabled no_features (instr.If (block.Value (Ref funcref))) }
    ensures disabled { ¬ IsStatedEnabled no_features (instr.SelectTyped (Ref indexed ∷ [])) }
{}

fn modules()
    ensures without_references { AreReferencesEnabled (empty_module without_gc) [] }
    ensures of_a_type { ¬ AreReferencesEnabled (record (empty_module without_gc) { types = a_type (giving (Ref indexed)) true None ∷ [] })
        [] }
    ensures of_a_table { ¬ AreReferencesEnabled (record (empty_module without_gc) { tables = table indexed 1 None ∷ [] }) [] }
    ensures of_a_global { ¬ AreReferencesEnabled (record (empty_module without_gc) { globals = constant_global (Ref indexed) ∷ [] }) [] }
    ensures of_a_segment { ¬ AreReferencesEnabled (record (empty_module without_gc) { elems = indexed_elements ∷ [] }) [] }
    ensures of_a_local { ¬ AreReferencesEnabled (record (empty_module without_gc) { code = with_indexed_local ∷ [] }) [] }
    ensures of_a_block { ¬ AreReferencesEnabled (record (empty_module without_gc) { code = trapping ∷ [] }) (block_of indexed ∷ []) }
    ensures with_the_feature { AreReferencesEnabled (record (empty_module default_config) { code = trapping ∷ [] }) (block_of indexed
        ∷ []) }
{}
