ghost use Rattle.std.specs.Prelude.{◌≡◌, ◌+◌, ◌^◌, List, [], ◌∷◌, Some, None, length};
ghost use Rattle.smith_types.specs.Syntax.composite_type.SubType.{SubType};
ghost use Rattle.smith_types.specs.Types.{IsAlike, IsOrderly, AreConsecutive, AreCovered, end_from, next_start, next_group};
ghost use Rattle.smith_types.specs.GroupedTypes.{IsSound, MayFollow, HasDepth, AreDepths, AreExtensible, extensible_from};
ghost use Rattle.smith_types.specs.ExampleTypes.{open_type, final_type, shared_type, empty_struct, plain_func, struct_and_below};
ghost use Rattle.smith_types.specs.ExampleTypes.{below_itself, range};

fn orderly()
    ensures alike { IsAlike (open_type None empty_struct) (final_type empty_struct) }
    ensures kinds_apart { ¬ IsAlike (final_type plain_func) (final_type empty_struct) }
    ensures one_shared { ¬ IsAlike (shared_type plain_func) (final_type plain_func) }
    ensures supertype_before { IsOrderly struct_and_below }
    ensures supertype_after { ¬ IsOrderly (open_type (Some 1) empty_struct ∷ open_type None empty_struct ∷ []) }
    ensures its_own_supertype { ¬ IsOrderly below_itself }
    ensures supertype_past_the_end { ¬ IsOrderly (open_type (Some 7) empty_struct ∷ []) }
    ensures of_another_kind { ¬ IsOrderly (open_type None plain_func ∷ open_type (Some 0) empty_struct ∷ []) }
    ensures of_another_sharedness { ¬ IsOrderly (shared_type empty_struct ∷ open_type (Some 0) empty_struct ∷ []) }
{}

fn groups()
    ensures in_a_row { AreConsecutive 1 (range 1 3 ∷ range 3 3 ∷ range 3 4 ∷ []) }
    ensures not_from_there { ¬ AreConsecutive 0 (range 1 3 ∷ []) }
    ensures a_gap { ¬ AreConsecutive 0 (range 0 1 ∷ range 2 3 ∷ []) }
    ensures backwards { ¬ AreConsecutive 1 (range 1 0 ∷ []) }
    ensures end_of_none { end_from 3 [] ≡ 3 }
    ensures end_of_several { end_from 3 (range 3 5 ∷ range 5 6 ∷ []) ≡ 6 }
    ensures start_of_the_first { next_start [] ≡ 0 }
    ensures start_of_the_next { next_start (range 0 2 ∷ range 2 3 ∷ []) ≡ 3 }
    ensures what_is_left { next_group struct_and_below (range 0 1 ∷ []) ≡ range 1 2 }
{}

fn covered()
    ensures no_type { AreCovered [] [] }
    ensures an_empty_one { AreCovered struct_and_below (range 0 2 ∷ range 2 2 ∷ []) }
    ensures a_type_left_over { ¬ AreCovered struct_and_below (range 0 1 ∷ []) }
    ensures a_type_twice { ¬ AreCovered struct_and_below (range 0 2 ∷ range 1 2 ∷ []) }
    ensures a_type_too_many { ¬ AreCovered struct_and_below (range 0 3 ∷ []) }
{}

fn sound()
    ensures a_type_in_no_group { IsSound (record { types = struct_and_below; groups = range 0 1 ∷ [] }) }
    ensures its_own_supertype { ¬ IsSound (record { types = below_itself; groups = [] }) }
    ensures a_gap { ¬ IsSound (record { types = struct_and_below; groups = range 1 2 ∷ [] }) }
    ensures a_group_past_the_end { ¬ IsSound (record { types = struct_and_below; groups = range 0 3 ∷ [] }) }
    ensures as_many_as_indices { (types : List SubType) → length types ≡ 2 ^ 32 → ¬ IsSound (record { types = types; groups = [] }) }
{}

fn following()
    ensures the_first { MayFollow [] (open_type None empty_struct) }
    ensures below_another { MayFollow struct_and_below (open_type (Some 1) empty_struct) }
    ensures below_itself { ¬ MayFollow [] (open_type (Some 0) empty_struct) }
    ensures of_another_kind { ¬ MayFollow struct_and_below (open_type (Some 1) plain_func) }
    ensures one_shared { ¬ MayFollow (shared_type empty_struct ∷ []) (open_type (Some 0) empty_struct) }
    ensures no_index_left { (types : List SubType) → length types + 1 ≡ 2 ^ 32 → ¬ MayFollow types (open_type None empty_struct) }
{}

fn depths()
    ensures on_its_own { HasDepth struct_and_below 0 1 }
    ensures one_deeper { HasDepth struct_and_below 1 2 }
    ensures not_the_same { ¬ HasDepth struct_and_below 1 1 }
    ensures not_deeper { ¬ HasDepth struct_and_below 0 2 }
    ensures no_such_type { ¬ HasDepth [] 0 1 }
    ensures of_all { AreDepths struct_and_below (1 ∷ 2 ∷ []) }
    ensures of_all_but_one { ¬ AreDepths struct_and_below (1 ∷ []) }
    ensures of_another { ¬ AreDepths struct_and_below (1 ∷ 1 ∷ []) }
{}

fn extensible()
    ensures a_type_on_its_own { AreExtensible (open_type None empty_struct ∷ []) (0 ∷ []) }
    ensures a_final_one { ¬ AreExtensible (final_type empty_struct ∷ []) (0 ∷ []) }
    ensures after_a_final_one { extensible_from 2 (final_type empty_struct ∷ open_type None empty_struct ∷ []) (1 ∷ 1 ∷ []) ≡ 3 ∷ [] }
    ensures not_too_deep { extensible_from 5 (open_type None empty_struct ∷ open_type None empty_struct ∷ []) (59 ∷ 60 ∷ []) ≡ 5 ∷ [] }
{}
