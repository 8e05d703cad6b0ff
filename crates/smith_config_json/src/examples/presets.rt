// Presets by their names, their changes, and the members that are not fields. The clauses are
// proved, and nothing calls these functions.

ghost use Rattle.std.specs.Prelude.{◌≡◌, ◌^◌, [], ◌∷◌, Some, None, true, false, codes};
ghost use Rattle.json.specs.Token.{begin_object, end_object, key, number, string, boolean};
ghost use Rattle.smith_config.specs.Config.{default_config};
ghost use Rattle.smith_config_json.specs.Members.{preset_in, fuel_in, is_fuel_exported_in};
ghost use Rattle.smith_config_json.specs.Members.{is_observed_in};
ghost use Rattle.smith_config_json.specs.Presets.{preset_named, with_preset, changed_by};
ghost use Rattle.smith_config_json.specs.declared.preset.Preset.TheVariants.{Run, Version1};
ghost use Rattle.smith_config_json.specs.declared.preset.Preset.TheVariants.{Proposals, V8};
ghost use Rattle.smith_config_json.specs.declared.preset.Preset.TheVariants.{JavaScriptCore};

fn names()
    ensures first { preset_named (codes "run") ≡ Some Run }
    ensures last { preset_named (codes "jsc") ≡ Some JavaScriptCore }
    ensures in_capitals { preset_named (codes "Run") ≡ None }
    ensures empty { preset_named [] ≡ None }
{}

fn changes()
    ensures none { changed_by None default_config ≡ default_config }
    ensures engine { with_preset V8 default_config ≡ record default_config {
      max_memory64_bytes = 2 ^ 34;
      compact_imports_enabled = false;
      wide_arithmetic_enabled = false;
    } }
    ensures of_another { (with_preset V8 (record default_config { max_types = 3 })).max_types ≡ 3 }
    ensures first_version { (with_preset Version1 default_config).multi_value_enabled ≡ false }
    ensures proposals { (with_preset Proposals default_config).custom_page_sizes_enabled ≡ true }
    ensures runs { (with_preset Run default_config).min_funcs ≡ 1 }
{}

fn members()
    ensures after_others { preset_in (begin_object ∷ key (codes "max-types") ∷ number (codes "3")
        ∷ key (codes "preset") ∷ string (codes "run") ∷ end_object ∷ []) ≡ Some Run }
    ensures no_preset { preset_in (begin_object ∷ key (codes "max-types") ∷ number (codes "3")
        ∷ end_object ∷ []) ≡ None }
    ensures no_name { preset_in (begin_object ∷ key (codes "preset") ∷ boolean true
        ∷ end_object ∷ []) ≡ None }
    ensures fuel { fuel_in (begin_object ∷ key (codes "fuel") ∷ number (codes "70")
        ∷ end_object ∷ []) ≡ Some 70 }
    ensures no_fuel { fuel_in (begin_object ∷ end_object ∷ []) ≡ None }
    ensures exported { is_fuel_exported_in (begin_object ∷ key (codes "fuel-export")
        ∷ boolean true ∷ end_object ∷ []) ≡ true }
    ensures unexported { is_fuel_exported_in (begin_object ∷ end_object ∷ []) ≡ false }
    ensures observed { is_observed_in (begin_object ∷ key (codes "fuel-export") ∷ boolean false
        ∷ key (codes "observe") ∷ boolean true ∷ end_object ∷ []) ≡ true }
    ensures unobserved { is_observed_in (begin_object ∷ key (codes "fuel-export") ∷ boolean true
        ∷ end_object ∷ []) ≡ false }
{}
