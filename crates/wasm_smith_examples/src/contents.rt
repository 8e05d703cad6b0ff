// The contents drawn after all definitions, their scope, and the offset of an element segment. The
// clauses are proved; nothing calls these functions.

ghost use Rattle.std.specs.Prelude.{[], ◌∷◌, true, pos, None, Some};
ghost use Rattle.smith_bytes.specs.declared.error.Error.TheVariants.{EmptyChoose, Memory, NotEnoughData};
ghost use Rattle.smith_types.specs.ExampleTypes.{not_null, plain};
ghost use Rattle.smith_types.specs.Flags.{funcref};
ghost use Rattle.smith_types.specs.Syntax.value_type.AbstractHeapType.TheVariants as heap;
ghost use Rattle.smith_types.specs.Syntax.segments.Offset.TheVariants.{Const32, Const64};
ghost use Rattle.smith_draw_consts.specs.ExampleConstExprs.{context_of_types};
ghost use Rattle.smith_config.specs.Config.{default_config};
ghost use Rattle.smith_config.specs.Shapes.{space_of};
ghost use Rattle.wasm_smith.specs.Contents.{MayHoldContents, MayRefuseContents};
ghost use Rattle.smith_draw_definitions.specs.Definitions.{table_scope};
ghost use Rattle.wasm_smith.specs.DrawnContents.{AreSegmentsFit, AreExportsMade, AreContents};
ghost use Rattle.smith_draw_contents.specs.DrawnElements.{IsPlaced};
ghost use Rattle.wasm_smith_examples.specs.ExampleDefinitions.{beside_globals, no_imports};
ghost use Rattle.smith_module_rules_examples.specs.ExampleParts.{table};
ghost use Rattle.smith_module_rules_examples.specs.ExampleShapes.{for_exports, empty_shape};

fn placed()
    ensures past_the_minimum { IsPlaced default_config (table_scope default_config (beside_globals [])) (table funcref 5 None)
        (Const32 (pos 6)) None }
    ensures of_another_width { ¬ IsPlaced default_config (table_scope default_config (beside_globals [])) (table funcref 5 None)
        (Const64 (pos 0)) None }
    ensures up_to_the_minimum { IsPlaced (record default_config { disallow_traps = true }) (table_scope default_config (beside_globals []))
        (table funcref 5 None) (Const32 (pos 2)) (Some 3) }
    ensures one_too_many { ¬ IsPlaced (record default_config { disallow_traps = true }) (table_scope default_config (beside_globals []))
        (table funcref 5 None) (Const32 (pos 2)) (Some 4) }
    ensures without_a_limit { ¬ IsPlaced (record default_config { disallow_traps = true }) (table_scope default_config (beside_globals []))
        (table funcref 5 None) (Const32 (pos 2)) None }
{}

fn segments()
    ensures none { AreSegmentsFit default_config [] no_imports no_imports (record { elems = []; data_segments = [] }) }
    ensures none_where_one_is_asked_for { ¬ AreSegmentsFit (record default_config { min_data_segments = 1 }) [] no_imports no_imports
        (record { elems = []; data_segments = [] }) }
{}

fn exports()
    ensures none { AreExportsMade default_config [] no_imports 3 (record { exports = []; type_size = 3 }) }
    ensures of_a_shape { AreExportsMade (for_exports empty_shape (record default_config { min_exports = 1 })) [] no_imports 3
        (record { exports = []; type_size = 3 }) }
    ensures that_add_what_is_not_counted { ¬ AreExportsMade (for_exports empty_shape default_config) [] no_imports 3
        (record { exports = []; type_size = 2 }) }
    ensures past_the_type_size { ¬ AreExportsMade (for_exports empty_shape default_config) [] no_imports 1001
        (record { exports = []; type_size = 1001 }) }
{}

fn refused()
    ensures no_choice { MayRefuseContents default_config (context_of_types []) (table (not_null (plain heap.Extern)) 1 None
        ∷ []) EmptyChoose }
    ensures no_table { ¬ MayRefuseContents default_config (context_of_types []) [] EmptyChoose }
    ensures as_a_module { MayRefuseContents default_config (context_of_types []) [] Memory }
    ensures too_few_bytes { ¬ MayRefuseContents default_config (context_of_types []) [] NotEnoughData }
{}

fn contents()
    ensures nothing { AreContents default_config [] no_imports no_imports 3 (record {
      exports = [];
      type_size = 3;
      encodes_types = true;
      start = None;
      segments = record { elems = []; data_segments = [] };
      code = [];
    }) }
    ensures of_another_size { ¬ AreContents default_config [] no_imports no_imports 3 (record {
      exports = [];
      type_size = 2;
      encodes_types = true;
      start = None;
      segments = record { elems = []; data_segments = [] };
      code = [];
    }) }
    ensures a_start_of_no_function { ¬ AreContents default_config [] no_imports no_imports 3
        (record {
          exports = [];
          type_size = 3;
          encodes_types = true;
          start = Some 0;
          segments = record { elems = []; data_segments = [] };
          code = [];
        }) }
{}

fn drawn_over()
    ensures nothing { MayHoldContents default_config (space_of []) no_imports 0 }
    ensures no_table_where_one_is_asked_for { ¬ MayHoldContents (record default_config { min_tables = 1 }) (space_of []) no_imports 0 }
    ensures imports_past_the_type_size { ¬ MayHoldContents default_config (space_of []) no_imports 1001 }
{}
