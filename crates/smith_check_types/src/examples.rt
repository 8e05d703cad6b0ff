// Groups that are equal, and groups that are not.

ghost use Rattle.std.specs.Prelude.{◌≡◌, [], ◌∷◌, slice_get};
ghost use Rattle.smith_check_types.specs.Canonical.{rec_index, rolled, defined_types, AreCanonical};
ghost use Rattle.smith_check_types.specs.TypeSections.{canonical_groups, AreGroupsInScope};
ghost use Rattle.smith_check_types.specs.ExampleGroups.{
  struct_of,
  two_functions,
  two_pairs,
  own_and_earlier,
};

fn functions()
    ensures equal { AreCanonical two_functions (0 ∷ 0 ∷ []) }
    ensures not_different { ¬ AreCanonical two_functions (0 ∷ 1 ∷ []) }
    ensures one_type { slice_get (defined_types (0 ∷ 0 ∷ []) two_functions) 1
        ≡ slice_get (defined_types (0 ∷ 0 ∷ []) two_functions) 0 }
{}

fn pairs()
    ensures rolled_by_places { rolled (0 ∷ 1 ∷ []) 2 (struct_of 3 ∷ struct_of 2 ∷ [])
        ≡ struct_of (rec_index 1) ∷ struct_of (rec_index 0) ∷ [] }
    ensures equal { AreCanonical two_pairs (0 ∷ 1 ∷ 0 ∷ 1 ∷ []) }
    ensures not_different { ¬ AreCanonical two_pairs (0 ∷ 1 ∷ 2 ∷ 3 ∷ []) }
    ensures one_pair { canonical_groups (0 ∷ 1 ∷ 0 ∷ 1 ∷ []) two_pairs
        ≡ (struct_of 1 ∷ struct_of 0 ∷ []) ∷ (struct_of 1 ∷ struct_of 0 ∷ []) ∷ [] }
{}

fn own_type()
    ensures itself { rolled [] 0 (struct_of 0 ∷ []) ≡ struct_of (rec_index 0) ∷ [] }
    ensures an_earlier_one { rolled (0 ∷ []) 1 (struct_of 0 ∷ []) ≡ struct_of 0 ∷ [] }
    ensures different { AreCanonical own_and_earlier (0 ∷ 1 ∷ []) }
    ensures not_equal { ¬ AreCanonical own_and_earlier (0 ∷ 0 ∷ []) }
{}

fn scope()
    ensures own_group { AreGroupsInScope 0 two_pairs }
    ensures past_its_group { ¬ AreGroupsInScope 0 ((struct_of 1 ∷ []) ∷ (struct_of 0 ∷ []) ∷ []) }
{}
