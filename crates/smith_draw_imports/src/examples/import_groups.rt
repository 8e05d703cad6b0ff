ghost use Rattle.std.specs.Prelude.{◌≡◌, [], ◌∷◌, false};
ghost use Rattle.smith_config.specs.Config.{default_config};
ghost use Rattle.smith_draw_imports.specs.ImportGroups.{kind_of_number, group_kind_at};
ghost use Rattle.smith_draw_imports.specs.declared.import_groups.GroupKind.TheVariants.{Single};
ghost use Rattle.smith_draw_imports.specs.declared.import_groups.GroupKind.TheVariants.{OfOneModule};
ghost use Rattle.smith_draw_imports.specs.declared.import_groups.GroupKind.TheVariants.{OfOneType};

fn kinds_of_numbers()
    ensures least { kind_of_number 0 ≡ Single }
    ensures last_single { kind_of_number 1431655765 ≡ Single }
    ensures first_of_one_module { kind_of_number 1431655766 ≡ OfOneModule }
    ensures last_of_one_module { kind_of_number 2863311530 ≡ OfOneModule }
    ensures first_of_one_type { kind_of_number 2863311531 ≡ OfOneType }
    ensures greatest { kind_of_number 4294967295 ≡ OfOneType }
{}

#[tactic(auto, unfolding(crate::specs::ImportGroups::group_kind_at, smith_bytes::specs::Draws::whole_at))]
fn drawn_kinds()
    ensures past_the_end { group_kind_at default_config [] ≡ (Single, []) }
    ensures by_the_highest_byte { group_kind_at default_config (0 ∷ 0 ∷ 0 ∷ 128 ∷ 9 ∷ [])
        ≡ (OfOneModule, 9 ∷ []) }
    ensures by_four_bytes { group_kind_at default_config (255 ∷ 255 ∷ 255 ∷ 255 ∷ 9 ∷ [])
        ≡ (OfOneType, 9 ∷ []) }
    ensures by_a_low_byte { group_kind_at default_config (255 ∷ []) ≡ (Single, []) }
    ensures without_compact_groups { group_kind_at
        (record default_config { compact_imports_enabled = false }) (255 ∷ 255 ∷ 255 ∷ 255 ∷ [])
        ≡ (Single, 255 ∷ 255 ∷ 255 ∷ 255 ∷ []) }
{}
