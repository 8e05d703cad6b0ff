ghost use Rattle.std.specs.Prelude.{◌≡◌, [], ◌∷◌, codes, Ok, Err};
ghost use Rattle.smith_bytes.specs.declared.error.Error.TheVariants.{EmptyChoose, Memory};
ghost use Rattle.smith_types.specs.Syntax.entity_type.ExportKind.TheVariants as kind;
ghost use Rattle.wasm_smith.specs.FuelExport.{fuel_name, with_fuel_export, AnswersFuelExport};
ghost use Rattle.smith_module_rules_examples.specs.ExampleGiven.{counting_once};

fn names()
    ensures alone { fuel_name [] ≡ codes "fuel" }
    ensures after_others { fuel_name ((codes "fuels", kind.Func, 0) ∷ []) ≡ codes "fuel" }
    ensures after_the_same { fuel_name ((codes "fuel", kind.Func, 0) ∷ (codes "fuel_", kind.Func, 1) ∷ []) ≡ codes "fuel_____" }
{}

fn answers()
    ensures an_export { AnswersFuelExport 0 counting_once (record counting_once { exports = (codes "fuel", kind.Global, 0) ∷ [] }) (Ok tt) }
    ensures after_another { AnswersFuelExport 0 (record counting_once { exports = (codes "fuel", kind.Global, 0) ∷ [] })
        (record counting_once { exports = (codes "fuel", kind.Global, 0) ∷ (codes "fuel____", kind.Global, 0) ∷ [] }) (Ok tt) }
    ensures want_of_memory { AnswersFuelExport 0 counting_once counting_once (Err Memory) }
    ensures no_export { ¬ AnswersFuelExport 0 counting_once counting_once (Ok tt) }
    ensures of_another_global { ¬ AnswersFuelExport 1 counting_once (with_fuel_export 0 counting_once) (Ok tt) }
    ensures refused_and_changed { ¬ AnswersFuelExport 0 counting_once (with_fuel_export 0 counting_once) (Err Memory) }
    ensures another_refusal { ¬ AnswersFuelExport 0 counting_once counting_once (Err EmptyChoose) }
{}
