ghost use Rattle.std.specs.Prelude.{ℕ, [], ◌∷◌, Some};
ghost use Rattle.smith_types.specs.Grown.{Extends, IsContextGrown, AreSpacesGrown, AreGroupsAdded};
ghost use Rattle.smith_types.specs.ExampleFeatures.{usual_features, without_gc};
ghost use Rattle.smith_types.specs.ExampleTypes.{open_type, final_type, empty_struct, plain_func, range};
ghost use Rattle.smith_types.specs.ExampleEntities.{one_of_each};
ghost use Rattle.smith_types.specs.ExampleContexts.{context_with};

fn lists()
    ensures itself { Extends {A = ℕ} (1 ∷ []) (1 ∷ []) }
    ensures one_more { Extends {A = ℕ} (1 ∷ []) (1 ∷ 2 ∷ []) }
    ensures one_before { ¬ Extends {A = ℕ} (1 ∷ []) (2 ∷ 1 ∷ []) }
    ensures one_less { ¬ Extends {A = ℕ} (1 ∷ 2 ∷ []) (1 ∷ []) }
{}

fn contexts()
    ensures more_visible { IsContextGrown (context_with usual_features 2) (context_with usual_features 3) }
    ensures less_visible { ¬ IsContextGrown (context_with usual_features 3) (context_with usual_features 2) }
    ensures other_features { ¬ IsContextGrown (context_with usual_features 2) (context_with without_gc 2) }
    ensures more_functions { IsContextGrown (context_with usual_features 2)
        (record (context_with usual_features 2) { funcs = 0 ∷ 0 ∷ 0 ∷ [] }) }
    ensures types_lost { ¬ IsContextGrown (context_with usual_features 2) (record (context_with usual_features 2) { types = [] }) }
    ensures functions_lost { ¬ IsContextGrown (context_with usual_features 2) (record (context_with usual_features 2) { funcs = [] }) }
    ensures globals_lost { ¬ IsContextGrown (context_with usual_features 2) (record (context_with usual_features 2) { globals = [] }) }
    ensures more_functions_imported { ¬ IsContextGrown (context_with usual_features 2)
        (record (context_with usual_features 2) { imported_funcs = 2 }) }
    ensures more_globals_imported { ¬ IsContextGrown (context_with usual_features 2)
        (record (context_with usual_features 2) { imported_globals = 3 }) }
{}

fn spaces()
    ensures one_more_function { AreSpacesGrown one_of_each (record one_of_each { funcs = 0 ∷ 0 ∷ [] }) }
    ensures a_tag_lost { ¬ AreSpacesGrown one_of_each (record one_of_each { tags = [] }) }
    ensures a_function_lost { ¬ AreSpacesGrown one_of_each (record one_of_each { funcs = [] }) }
    ensures a_table_lost { ¬ AreSpacesGrown one_of_each (record one_of_each { tables = [] }) }
    ensures a_memory_lost { ¬ AreSpacesGrown one_of_each (record one_of_each { memories = [] }) }
    ensures a_global_lost { ¬ AreSpacesGrown one_of_each (record one_of_each { globals = [] }) }
{}

fn added_groups()
    ensures following { AreGroupsAdded usual_features (final_type plain_func ∷ []) (final_type plain_func ∷ []) (range 1 2 ∷ []) }
    ensures none { AreGroupsAdded usual_features (final_type plain_func ∷ []) [] [] }
    ensures before { ¬ AreGroupsAdded usual_features (final_type plain_func ∷ []) (final_type plain_func ∷ []) (range 0 2 ∷ []) }
    ensures in_no_group { ¬ AreGroupsAdded usual_features (final_type plain_func ∷ []) (final_type plain_func ∷ []) [] }
    ensures below_itself { ¬ AreGroupsAdded usual_features (final_type plain_func ∷ []) (open_type (Some 1) empty_struct ∷ []) (range 1 2
        ∷ []) }
    ensures without_its_feature { ¬ AreGroupsAdded without_gc (final_type plain_func ∷ []) (final_type empty_struct ∷ []) (range 1 2 ∷ []) }
{}
