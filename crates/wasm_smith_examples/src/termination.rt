ghost use Rattle.std.specs.Prelude.{[], ◌∷◌, codes, Ok, Err};
ghost use Rattle.smith_bytes.specs.declared.error.Error.TheVariants.{EmptyChoose, IncorrectFormat, Memory};
ghost use Rattle.smith_bytes.specs.declared.error.Why.TheVariants.{Loop, RawBody};
ghost use Rattle.smith_types.specs.Syntax.entity_type.ExportKind.TheVariants as kind;
ghost use Rattle.smith_config.specs.Config.{default_config};
ghost use Rattle.wasm_smith.specs.Termination.{HasRawBody, AddsCounter, MayAddNone, AnswersCounter};
ghost use Rattle.smith_module_rules_examples.specs.ExampleParts.{number, trapping};
ghost use Rattle.smith_module_rules_examples.specs.ExampleModules.{empty_module, two_imports};
ghost use Rattle.smith_module_rules_examples.specs.ExampleGiven.{without_gc, raw_body, raw_bytes, counting_once, counting_fuel};
ghost use Rattle.smith_module_rules_examples.specs.ExampleGiven.{counting_after};

fn raw_bodies()
    ensures alone { HasRawBody raw_body }
    ensures after_another { HasRawBody (record without_gc { code = trapping ∷ raw_bytes ∷ [] }) }
    ensures only_traps { ¬ HasRawBody without_gc }
    ensures no_body { ¬ HasRawBody (empty_module default_config) }
{}

fn fuel()
    ensures the_first { AddsCounter 4294967295 0 without_gc counting_once }
    ensures the_second { AddsCounter 5 1 counting_once counting_fuel }
    ensures after_imported_numbers { AddsCounter 5 2 two_imports counting_after }
    ensures of_another_index { ¬ AddsCounter 5 0 counting_once counting_fuel }
    ensures of_other_fuel { ¬ AddsCounter 6 1 counting_once counting_fuel }
    ensures none { ¬ AddsCounter 5 0 without_gc without_gc }
    ensures that_does_not_change { ¬ AddsCounter 4294967295 0 without_gc (record counting_once { globals = number ∷ [] }) }
    ensures without_its_number { ¬ AddsCounter 4294967295 0 without_gc (record counting_once { defined_globals = [] }) }
    ensures that_does_not_count { ¬ AddsCounter 4294967295 0 without_gc (record counting_once { fuel_globals = [] }) }
    ensures before_the_first { ¬ AddsCounter 5 1 counting_once (record counting_fuel { fuel_globals = 1 ∷ 0 ∷ [] }) }
    ensures that_is_exported { ¬ AddsCounter 4294967295 0 without_gc
        (record counting_once { exports = (codes "fuel", kind.Global, 0) ∷ [] }) }
{}

fn answers()
    ensures an_index { AnswersCounter 4294967295 without_gc counting_once (Ok 0) }
    ensures raw_bytes { AnswersCounter 5 raw_body raw_body (Err (IncorrectFormat RawBody)) }
    ensures want_of_memory { AnswersCounter 5 without_gc without_gc (Err Memory) }
    ensures an_index_beside_raw_bytes { ¬ AnswersCounter 5 raw_body raw_body (Ok 0) }
    ensures want_of_memory_beside_raw_bytes { ¬ AnswersCounter 5 raw_body raw_body (Err Memory) }
    ensures raw_bytes_that_are_not_there { ¬ AnswersCounter 5 without_gc without_gc (Err (IncorrectFormat RawBody)) }
    ensures refused_and_changed { ¬ AnswersCounter 4294967295 without_gc counting_once (Err Memory) }
    ensures another_format { ¬ MayAddNone raw_body (IncorrectFormat Loop) }
    ensures another_reason { ¬ MayAddNone raw_body EmptyChoose }
{}
