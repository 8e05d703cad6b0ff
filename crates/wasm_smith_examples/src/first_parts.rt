ghost use Rattle.std.specs.Prelude.{◌≡◌, [], ◌∷◌, None, Ok, Err, codes};
ghost use Rattle.smith_bytes.specs.declared.error.Error.TheVariants.{IncorrectFormat};
ghost use Rattle.smith_bytes.specs.declared.error.Why.TheVariants.{SeveralMemories};
ghost use Rattle.smith_types.specs.Syntax.entity_type.ExportKind.TheVariants as kind;
ghost use Rattle.smith_config.specs.Config.{default_config};
ghost use Rattle.smith_config.specs.Shapes.{space_of};
ghost use Rattle.wasm_smith.specs.FirstParts.{first_parts_at, nothing_so_far};
ghost use Rattle.smith_draw_definitions.specs.Defined.{nothing_defined};
ghost use Rattle.smith_module_rules.specs.Module.{module_spaces};
ghost use Rattle.smith_module_rules_examples.specs.ExampleParts.{memory};
ghost use Rattle.smith_module_rules_examples.specs.ExampleModules.{three_memories};
ghost use Rattle.smith_module_rules_examples.specs.ExampleShapes.{for_module, for_imports, imported_memories, memories_in_and_out};
ghost use Rattle.smith_module_rules_examples.specs.ExampleShapes.{environment};

// A module shape adds its imports without the empty groups, and a memory for its export.
#[tactic(auto, unfolding(wasm_smith::specs::FirstParts::first_parts_at, wasm_smith::specs::FirstParts::first_parts_by_module_at, smith_draw_definitions::specs::RequiredExports::required_from, smith_draw_definitions::specs::RequiredExports::entity_required_at, smith_draw_definitions::specs::RequiredExports::defined_with_at))]
fn of_a_module_shape()
    ensures nothing { first_parts_at default_config (7 ∷ []) ≡ Ok (nothing_so_far, 7 ∷ []) }
    ensures imports { first_parts_at (for_module imported_memories (record default_config { max_memories = 3 })) (7 ∷ [])
        ≡ Ok (record nothing_so_far { groups = three_memories.imports; spaces = module_spaces three_memories }, 7 ∷ []) }
    ensures an_export { first_parts_at
        (for_module memories_in_and_out (record default_config { max_memories = 2 })) (7 ∷ [])
        ≡ Ok (
          record nothing_so_far {
            groups = three_memories.imports;
            spaces = record (module_spaces three_memories) {
              memories = memory 1 None ∷ memory 1 None ∷ memory 1 None ∷ memory 1 None ∷ [];
            };
            defined = record nothing_defined { num_memories = 1 };
            exports = (codes "d", kind.Memory, 3) ∷ [];
          },
          7 ∷ [],
        ) }
    ensures a_memory_too_many { first_parts_at (for_module memories_in_and_out (record default_config { max_memories = 1 })) []
        ≡ Err (IncorrectFormat SeveralMemories) }
{}

// Available imports add the types of their shape, even if no import is picked.
#[tactic(auto, unfolding(wasm_smith::specs::FirstParts::first_parts_at, wasm_smith::specs::FirstParts::first_parts_by_imports_at, smith_draw_shape_imports::specs::AvailableImports::available_at, smith_draw_shape_imports::specs::AvailableImports::picked_at, smith_draw_shape_imports::specs::AvailableImports::grouped_at, smith_bytes::specs::Draws::bool_at))]
fn of_available_imports()
    ensures none_picked { first_parts_at (for_imports environment default_config) (0 ∷ 0 ∷ 7 ∷ [])
        ≡ Ok (record nothing_so_far { types = space_of environment.groups }, 7 ∷ []) }
{}
