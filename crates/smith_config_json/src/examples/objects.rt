// Objects of members, and their changes of the default configuration; places in texts. The clauses
// are proved, and nothing calls these functions.

ghost use Rattle.std.specs.Prelude.{◌≡◌, [], ◌∷◌, Ok, Err, true, codes};
ghost use Rattle.json.specs.Token.{begin_object, end_object, begin_array, end_array, key, number, string, boolean, null};
ghost use Rattle.smith_config.specs.Config.{default_config};
ghost use Rattle.smith_config_json.specs.declared.fault.Fault.TheVariants.{UnknownField, RepeatedField};
ghost use Rattle.smith_config_json.specs.declared.fault.Fault.TheVariants.{WrongType, OutOfRange};
ghost use Rattle.smith_config_json.specs.declared.fault.Fault.TheVariants.{NotAnObject};
ghost use Rattle.smith_config_json.specs.Lines.{line_of, column_of};
ghost use Rattle.smith_config_json.specs.Objects.{ReadsObject};

fn objects()
    ensures empty { ReadsObject default_config (begin_object ∷ end_object ∷ null ∷ [])
        (Ok (default_config, null ∷ [])) }
    ensures field { ReadsObject default_config
        (begin_object ∷ key (codes "max-types") ∷ number (codes "3") ∷ end_object ∷ [])
        (Ok (record default_config { max_types = 3 }, [])) }
    ensures unchanged { ReadsObject default_config
        (begin_object ∷ key (codes "max-types") ∷ null ∷ end_object ∷ []) (Ok (default_config, [])) }
    ensures names { ReadsObject default_config
        (begin_object ∷ key (codes "allowed-instructions") ∷ begin_array ∷ string (codes "table")
        ∷ string (codes "Control") ∷ end_array ∷ end_object ∷ [])
        (Ok (record default_config { allowed_instructions = record { 0 = 1152 } }, [])) }
{}

fn refusals()
    ensures unknown { ReadsObject default_config
        (begin_object ∷ key (codes "max-typos") ∷ number (codes "3") ∷ end_object ∷ [])
        (Err (UnknownField, codes "max-typos", default_config)) }
    ensures repeated { ReadsObject default_config
        (begin_object ∷ key (codes "max-types") ∷ number (codes "3")
        ∷ key (codes "max-types") ∷ number (codes "4") ∷ end_object ∷ [])
        (Err (RepeatedField, codes "max-types", record default_config { max_types = 3 })) }
    ensures wrong_type { ReadsObject default_config
        (begin_object ∷ key (codes "max-types") ∷ boolean true ∷ end_object ∷ [])
        (Err (WrongType, codes "max-types", default_config)) }
    ensures wrong_type_of_no_field { ReadsObject default_config
        (begin_object ∷ key (codes "observe") ∷ number (codes "1") ∷ end_object ∷ [])
        (Err (WrongType, codes "observe", default_config)) }
    ensures out_of_range { ReadsObject default_config
        (begin_object ∷ key (codes "min-uleb-size") ∷ number (codes "256") ∷ end_object ∷ [])
        (Err (OutOfRange, codes "min-uleb-size", default_config)) }
    ensures zeros { ReadsObject default_config
        (begin_object ∷ key (codes "memory-offset-choices") ∷ begin_array ∷ number (codes "0")
        ∷ number (codes "0") ∷ number (codes "0") ∷ end_array ∷ end_object ∷ [])
        (Err (OutOfRange, codes "memory-offset-choices", default_config)) }
    ensures no_name { ReadsObject default_config
        (begin_object ∷ key (codes "allowed-instructions") ∷ begin_array ∷ number (codes "1")
        ∷ end_array ∷ end_object ∷ [])
        (Err (WrongType, codes "allowed-instructions", default_config)) }
    ensures no_object { ReadsObject default_config (string (codes "max-types") ∷ [])
        (Err (NotAnObject, [], default_config)) }
{}

fn places()
    ensures start { (line_of [] ≡ 1) × (column_of [] ≡ 1) }
    ensures second_line { (line_of (97 ∷ 10 ∷ 98 ∷ 99 ∷ []) ≡ 2)
        × (column_of (97 ∷ 10 ∷ 98 ∷ 99 ∷ []) ≡ 3) }
    ensures character_of_two_bytes { column_of (195 ∷ 164 ∷ []) ≡ 2 }
    ensures no_column_a_byte { ¬ (column_of (195 ∷ 164 ∷ []) ≡ 3) }
{}
