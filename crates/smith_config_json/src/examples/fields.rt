// The kinds of the values of fields. The clauses are proved, and nothing calls these functions.

ghost use Rattle.std.specs.Prelude.{Some, None, codes};
ghost use Rattle.smith_config_json.specs.Fields.{AreOfKind, field_named};
ghost use Rattle.smith_config_json.specs.declared.field.FieldKind.TheVariants as kind;

fn kinds()
    ensures byte { AreOfKind (field_named (codes "min-uleb-size")) (Some (kind.Whole 8)) }
    ensures truth { AreOfKind (field_named (codes "gc-enabled")) (Some kind.Flag) }
    ensures no_member_of_config { AreOfKind (field_named (codes "fuel-export")) (Some kind.Flag) }
    ensures sinks { AreOfKind (field_named (codes "observe")) (Some kind.Flag) }
    ensures path { AreOfKind (field_named (codes "exports")) (Some kind.File) }
    ensures no_field { AreOfKind (field_named (codes "max-typos")) None }
{}

fn other_kinds()
    ensures word { ¬ AreOfKind (field_named (codes "min-uleb-size")) (Some (kind.Whole 32)) }
    ensures truth { ¬ AreOfKind (field_named (codes "max-types")) (Some kind.Flag) }
    ensures no_kind { ¬ AreOfKind (field_named (codes "max-types")) None }
    ensures no_field { ¬ AreOfKind (field_named (codes "max-typos")) (Some kind.Flag) }
{}
