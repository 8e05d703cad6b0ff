ghost use Rattle.std.specs.Prelude.{◌≡◌, ◌≤◌, [], ◌∷◌, codes};
ghost use Rattle.smith_wrong_bytes.specs.ExampleSplices.{change};
ghost use Rattle.smith_wrong_bytes.specs.Families.{family_name};
ghost use Rattle.smith_wrong_bytes.specs.Splices.{HasPreamble, IsCutPreamble, IsOfPreamble, IsOtherPreamble, IsWithin, spliced};
ghost use Rattle.smith_wrong_bytes.specs.declared.family.BytesFamily.TheVariants as family;

fn files()
    ensures replaced { spliced (5 ∷ 6 ∷ 7 ∷ []) (change 1 1 (8 ∷ 9 ∷ [])) ≡ 5 ∷ 8 ∷ 9 ∷ 7 ∷ [] }
    ensures inserted { spliced (5 ∷ 6 ∷ []) (change 2 0 (8 ∷ [])) ≡ 5 ∷ 6 ∷ 8 ∷ [] }
    ensures removed { spliced (5 ∷ 6 ∷ 7 ∷ []) (change 0 2 []) ≡ 7 ∷ [] }
    ensures past_the_end { spliced (5 ∷ 6 ∷ []) (change 1 4 (8 ∷ [])) ≡ 5 ∷ 8 ∷ [] }
    ensures kept { spliced (5 ∷ 6 ∷ []) (change 0 1 []) ≡ 5 ∷ 6 ∷ [] → ⊥ }
{}

fn ranges()
    ensures whole { IsWithin (5 ∷ 6 ∷ []) (change 0 2 []) }
    ensures at_the_end { IsWithin (5 ∷ 6 ∷ []) (change 2 0 []) }
    ensures past_the_end { IsWithin (5 ∷ 6 ∷ []) (change 1 2 []) → ⊥ }
{}

fn preambles()
    ensures other { IsOtherPreamble (5 ∷ 6 ∷ 7 ∷ []) (change 1 1 (8 ∷ [])) }
    ensures same { IsOtherPreamble (5 ∷ 6 ∷ 7 ∷ []) (change 1 1 (6 ∷ [])) → ⊥ }
    ensures two_bytes { IsOtherPreamble (5 ∷ 6 ∷ 7 ∷ []) (change 1 2 (8 ∷ [])) → ⊥ }
    ensures cut { IsCutPreamble (5 ∷ 6 ∷ 7 ∷ []) (change 1 2 []) }
    ensures not_cut { IsCutPreamble (5 ∷ 6 ∷ 7 ∷ []) (change 1 1 []) → ⊥ }
    ensures family { IsOfPreamble family.CutFile (5 ∷ 6 ∷ 7 ∷ []) (change 1 2 []) }
    ensures other_family { IsOfPreamble family.LeftOverByte (5 ∷ 6 ∷ 7 ∷ []) (change 1 2 []) → ⊥ }
    ensures has { HasPreamble family.Preamble }
    ensures has_not { HasPreamble family.LeftOverByte → ⊥ }
{}

fn names()
    ensures first { family_name family.LongInteger ≡ codes "long-integer" }
    ensures last { family_name family.CutFile ≡ codes "cut-file" }
{}
