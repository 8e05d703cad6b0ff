ghost use Rattle.std.specs.Prelude.{◌<◌, ◌^◌, [], ◌∷◌, None};
ghost use Rattle.smith_types.specs.Flags.{funcref};
ghost use Rattle.smith_config.specs.Config.{default_config};
ghost use Rattle.smith_module_rules.specs.InterestingValues.{IsNearPower, IsPattern, IsFloatEdge, IsInteresting64, IsInteresting32, AreAll};
ghost use Rattle.smith_module_rules.specs.InterestingValues.{HasInterestingValues};
ghost use Rattle.smith_module_rules_examples.specs.ExampleParts.{memory, table};
ghost use Rattle.smith_module_rules_examples.specs.ExampleModules.{empty_module};

fn near_powers()
    ensures zero { IsNearPower 0 }
    ensures most_of_32_bits { IsNearPower 4294967295 }
    ensures least_of_16_bits_with_sign { IsNearPower 18446744073709518848 }
    ensures all_but_one_bit { IsNearPower 18446744073709551611 }
    ensures five { ¬ IsNearPower 5 }
{}

fn patterns()
    ensures every_second_bit { IsPattern 6148914691236517205 }
    ensures one_of_four { IsPattern 1229782938247303441 }
    ensures half_of_one { ¬ IsPattern 1431655765 }
{}

fn floats()
    ensures nan { IsFloatEdge 9221120237041090560 }
    ensures nan_of_32_bits { IsFloatEdge 2143289344 }
    ensures least_sum_of_one { IsFloatEdge 4372995238176751616 }
    ensures least_of_32_bits { IsFloatEdge 4286578687 }
    ensures one { ¬ IsFloatEdge 4607182418800017408 }
{}

fn numbers()
    ensures all_bits { IsInteresting64 [] [] 18446744073709551615 }
    ensures past_64_bits { ¬ IsInteresting64 [] [] (2 ^ 64) }
    ensures five { ¬ IsInteresting64 [] [] 5 }
    ensures half_of_a_pattern { IsInteresting32 [] [] 1431655765 }
    ensures past_32_bits { ¬ IsInteresting32 [] [] (2 ^ 32) }
{}

fn limits()
    ensures elements { IsInteresting64 (table funcref 10 None ∷ []) [] 10 }
    ensures an_element_more { IsInteresting64 (table funcref 10 None ∷ []) [] 11 }
    ensures an_element_less { ¬ IsInteresting64 (table funcref 10 None ∷ []) [] 9 }
    ensures bytes_of_a_page { IsInteresting64 [] (memory 3 None ∷ []) 196608 }
    ensures sixteen_bytes_more { IsInteresting64 [] (memory 3 None ∷ []) 196624 }
    ensures two_bytes_less { IsInteresting64 [] (memory 3 None ∷ []) 196606 }
    ensures three_bytes_less { ¬ IsInteresting64 [] (memory 3 None ∷ []) 196605 }
{}

fn lists()
    ensures ascending { AreAll (λ n. n < 3) (0 ∷ 1 ∷ 2 ∷ []) }
    ensures out_of_order { ¬ AreAll (λ n. n < 3) (0 ∷ 2 ∷ 1 ∷ []) }
    ensures one_left_out { ¬ AreAll (λ n. n < 3) (0 ∷ 2 ∷ []) }
    ensures one_too_many { ¬ AreAll (λ n. n < 3) (0 ∷ 1 ∷ 2 ∷ 3 ∷ []) }
    ensures no_values { ¬ HasInterestingValues (empty_module default_config) }
{}
