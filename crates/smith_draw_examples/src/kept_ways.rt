// Records of the ways to create values: correct ones, and others. Of the six types three are
// structs, two with defaults for all fields, and two are arrays, one with a default for its
// element. The clauses are proved; nothing calls these functions.

ghost use Rattle.std.specs.Prelude.{[], ◌∷◌};
ghost use Rattle.smith_types.specs.Syntax.value_type.ValType.TheVariants.{Ref};
ghost use Rattle.smith_types.specs.Syntax.value_type.HeapType.TheVariants.{Concrete};
ghost use Rattle.smith_types.specs.ExampleFeatures.{usual_features};
ghost use Rattle.smith_types.specs.ExampleTypes.{nullable};
ghost use Rattle.smith_types.specs.ExampleContexts.{context_with};
ghost use Rattle.smith_draw_consts.specs.KeptOffers.{AreWaysWhole, IsKeptWays, IsOnlyType};
ghost use Rattle.smith_draw_examples.specs.ExampleKeptOffers.{counts, unread, to_any, ways_for};

#[tactic(auto, unfolding(smith_draw_types::specs::Below::is_heap_below, smith_draw_types::specs::Offered::ancestors))]
fn ways()
    ensures nothing_read { IsKeptWays (context_with usual_features 3) (ways_for to_any unread unread unread) }
    ensures of_all_types { IsKeptWays (context_with usual_features 3) (ways_for to_any (counts 6 2 (0 ∷ [])) (counts 6 5 (0 ∷ []))
        (counts 6 5 (0 ∷ []))) }
    ensures of_the_first_types { IsKeptWays (context_with usual_features 3)
        (ways_for to_any (counts 2 1 (0 ∷ [])) unread (counts 3 3 (0 ∷ []))) }
    ensures of_one_struct_type { IsKeptWays (context_with usual_features 3) (ways_for (Ref (nullable (Concrete 1))) (counts 6 1 (0 ∷ []))
        (counts 6 2 (0 ∷ [])) (counts 6 0 (0 ∷ []))) }
{}

#[tactic(auto, unfolding(smith_draw_types::specs::Below::is_heap_below, smith_draw_types::specs::Offered::ancestors))]
fn wrong_ways()
    ensures fields_without_fuel { ¬ IsKeptWays (context_with usual_features 3) (ways_for to_any (counts 6 5 (0 ∷ [])) unread unread) }
    ensures arrays_among_structs { ¬ IsKeptWays (context_with usual_features 3) (ways_for to_any unread (counts 6 10 (0 ∷ [])) unread) }
    ensures more_types_than_exist { ¬ IsKeptWays (context_with usual_features 3) (ways_for to_any (counts 7 2 (0 ∷ [])) unread unread) }
    ensures for_a_type_past_the_last { ¬ IsKeptWays (context_with usual_features 3)
        (ways_for (Ref (nullable (Concrete 6))) unread unread unread) }
{}

#[tactic(auto, unfolding(smith_draw_types::specs::Below::is_heap_below, smith_draw_types::specs::Offered::ancestors))]
fn whole_ways()
    ensures without_fuel { AreWaysWhole (context_with usual_features 3) to_any 0 (ways_for to_any (counts 6 2 (0 ∷ [])) unread unread) }
    ensures with_fuel { AreWaysWhole (context_with usual_features 3) to_any 7
        (ways_for to_any unread (counts 6 5 (0 ∷ [])) (counts 6 5 (0 ∷ []))) }
    ensures a_type_left_out { ¬ AreWaysWhole (context_with usual_features 3) to_any 0
        (ways_for to_any (counts 5 1 (0 ∷ [])) unread unread) }
    ensures arrays_left_out { ¬ AreWaysWhole (context_with usual_features 3) to_any 1
        (ways_for to_any unread (counts 6 5 (0 ∷ [])) unread) }
{}

#[tactic(auto, unfolding(smith_draw_types::specs::Below::is_heap_below, smith_draw_types::specs::Offered::ancestors))]
fn only_types()
    ensures a_type_without_subtypes { IsOnlyType (context_with usual_features 3) (Ref (nullable (Concrete 1))) 1 }
    ensures another_type { ¬ IsOnlyType (context_with usual_features 3) (Ref (nullable (Concrete 1))) 2 }
    ensures one_of_several { ¬ IsOnlyType (context_with usual_features 3) to_any 1 }
{}
