ghost use Rattle.std.specs.Prelude.{[], ◌∷◌};
ghost use Rattle.smith_types.specs.OpenTypes.{AreTypesOpen};
ghost use Rattle.smith_types.specs.ExampleFeatures.{usual_features, without_gc};
ghost use Rattle.smith_types.specs.ExampleTypes.{final_type, empty_struct, plain_func, below_itself, referring, referring_type, range};

fn open_types()
    ensures nothing_yet { AreTypesOpen usual_features 0 (record { types = []; groups = [] }) }
    ensures referring_ahead { AreTypesOpen usual_features 2 (record { types = referring_type ∷ []; groups = [] }) }
    ensures referring_past_the_end { ¬ AreTypesOpen usual_features 1 (record { types = referring_type ∷ []; groups = [] }) }
    ensures after_a_group { AreTypesOpen usual_features 3
        (record { types = final_type plain_func ∷ final_type empty_struct ∷ []; groups = range 0 1 ∷ [] }) }
    ensures a_gap { ¬ AreTypesOpen usual_features 1 (record { types = final_type plain_func ∷ []; groups = range 1 1 ∷ [] }) }
    ensures a_group_past_the_types { ¬ AreTypesOpen usual_features 2
        (record { types = final_type plain_func ∷ []; groups = range 0 2 ∷ [] }) }
    ensures more_than_fit { ¬ AreTypesOpen usual_features 0 (record { types = final_type plain_func ∷ []; groups = [] }) }
    ensures below_itself { ¬ AreTypesOpen usual_features 1 (record { types = below_itself; groups = [] }) }
    ensures a_group_that_is_not_valid { ¬ AreTypesOpen usual_features 2 (record { types = referring; groups = range 0 1 ∷ [] }) }
    ensures a_type_that_is_not_enabled { ¬ AreTypesOpen without_gc 1 (record { types = final_type empty_struct ∷ []; groups = [] }) }
{}
