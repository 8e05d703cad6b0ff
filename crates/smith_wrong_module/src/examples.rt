ghost use Rattle.std.specs.Prelude.{ℕ, [], ◌∷◌, Some};
ghost use Rattle.smith_decode.specs.BodyReadings.{body_of};
ghost use Rattle.smith_decode.specs.ExampleModules.{no_item, dropping};
ghost use Rattle.smith_decode.specs.declared.locations.Place.TheVariants as place;
ghost use Rattle.smith_wrong_module.specs.Changes.{IsChangedAt};
ghost use Rattle.smith_wrong_module.specs.Splices.{AtMostOne, DifferAt};

fn lists()
    ensures replaced { DifferAt {A = ℕ} AtMostOne 1 (7 ∷ 8 ∷ 9 ∷ []) (7 ∷ 5 ∷ 9 ∷ []) }
    ensures inserted { DifferAt {A = ℕ} AtMostOne 1 (7 ∷ 8 ∷ []) (7 ∷ 5 ∷ 8 ∷ []) }
    ensures removed { DifferAt {A = ℕ} AtMostOne 0 (7 ∷ 8 ∷ []) (8 ∷ []) }
    ensures two_more { DifferAt {A = ℕ} AtMostOne 0 (7 ∷ []) (8 ∷ 9 ∷ 7 ∷ []) → ⊥ }
{}

fn modules()
    ensures start { IsChangedAt place.Start no_item (record no_item { start = Some 0 }) }
    ensures instruction { IsChangedAt (place.Instruction 0 0) dropping
        (record dropping { bodies = body_of [] [] ∷ [] }) }
    ensures other_section { IsChangedAt place.DataCount no_item
        (record no_item { start = Some 0 }) → ⊥ }
    ensures two_changes { IsChangedAt (place.Instruction 0 0) dropping
        (record dropping { start = Some 0; bodies = body_of [] [] ∷ [] }) → ⊥ }
{}
