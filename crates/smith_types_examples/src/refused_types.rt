// Types that only one rule refuses: they satisfy the other rules, and a neighbour of each is valid.
ghost use Rattle.std.specs.Prelude.{◌≡◌, [], ◌∷◌, false, Some};
ghost use Rattle.smith_types.specs.Syntax.value_type.HeapType.TheVariants.{Concrete};
ghost use Rattle.smith_types.specs.Types.{IsOrderly, AreCovered};
ghost use Rattle.smith_types.specs.Matching.{AreBelow, IsCompositeMatch};
ghost use Rattle.smith_types.specs.Flags.{IsHeapTypeEnabled};
ghost use Rattle.smith_types.specs.ValidTypes.{IsHeapTypeValid, IsSupertypeValid, IsTypeValid, IsGroupValid, AreTypesValid};
ghost use Rattle.smith_types.specs.ExampleFeatures.{usual_features};
ghost use Rattle.smith_types.specs.ExampleTypes.{open_type, final_type, empty_struct, struct_and_below, below_itself, below_final};
ghost use Rattle.smith_types.specs.ExampleTypes.{func_and_below, referring, in_one_group, range, anyref, eqref, func};

fn final_supertype()
    ensures refused { ¬ AreTypesValid usual_features (in_one_group below_final) }
    ensures as_a_supertype { ¬ IsSupertypeValid below_final (open_type (Some 0) empty_struct) (final_type empty_struct) }
    ensures is_final { ¬ (final_type empty_struct).is_final ≡ false }
    ensures but_matched { IsCompositeMatch below_final (open_type (Some 0) empty_struct).composite_type
        (final_type empty_struct).composite_type }
    ensures but_valid_itself { IsTypeValid usual_features below_final 2 (final_type empty_struct) }
    ensures but_orderly { IsOrderly below_final }
    ensures but_covered { AreCovered below_final (range 0 2 ∷ []) }
    ensures not_final { AreTypesValid usual_features (in_one_group struct_and_below) }
{}

fn narrowed_parameter()
    ensures refused { ¬ AreTypesValid usual_features (in_one_group (func_and_below (func anyref eqref) (func eqref eqref))) }
    ensures parameters { ¬ AreBelow (func_and_below (func anyref eqref) (func eqref eqref)) (anyref ∷ []) (eqref ∷ []) }
    ensures but_results { AreBelow (func_and_below (func anyref eqref) (func eqref eqref)) (eqref ∷ []) (eqref ∷ []) }
    ensures but_orderly { IsOrderly (func_and_below (func anyref eqref) (func eqref eqref)) }
    ensures but_covered { AreCovered (func_and_below (func anyref eqref) (func eqref eqref)) (range 0 2 ∷ []) }
    ensures kept { AreTypesValid usual_features (in_one_group (func_and_below (func eqref eqref) (func eqref eqref))) }
    ensures widened { AreTypesValid usual_features (in_one_group (func_and_below (func eqref eqref) (func anyref eqref))) }
{}

fn reference_past_its_group()
    ensures refused { ¬ AreTypesValid usual_features (record { types = referring; groups = range 0 1 ∷ range 1 2 ∷ [] }) }
    ensures past_the_end { ¬ IsHeapTypeValid usual_features 1 (Concrete 1) }
    ensures but_enabled { IsHeapTypeEnabled usual_features (Concrete 1) }
    ensures but_orderly { IsOrderly referring }
    ensures but_covered { AreCovered referring (range 0 1 ∷ range 1 2 ∷ []) }
    ensures but_second_group { IsGroupValid usual_features referring (range 1 2) }
    ensures in_one_group { AreTypesValid usual_features (in_one_group referring) }
{}

fn supertype_not_before()
    ensures refused { ¬ AreTypesValid usual_features (in_one_group below_itself) }
    ensures not_orderly { ¬ IsOrderly below_itself }
    ensures but_covered { AreCovered below_itself (range 0 1 ∷ []) }
    ensures but_group { IsGroupValid usual_features below_itself (range 0 1) }
{}
