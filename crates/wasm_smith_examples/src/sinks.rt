ghost use Rattle.std.specs.Prelude.{◌≡◌, [], ◌∷◌, pos, negsuc, true, codes, Ok, Err};
ghost use Rattle.smith_bytes.specs.declared.error.Error.TheVariants.{IncorrectFormat, Memory};
ghost use Rattle.smith_bytes.specs.declared.error.Why.TheVariants.{RawBody};
ghost use Rattle.smith_types.specs.Syntax.value_type.ValType.TheVariants.{I32, I64};
ghost use Rattle.smith_types.specs.Syntax.const_instr.ConstInstr.TheVariants.{I32Const as NumberConst, I64Const as WideConst};
ghost use Rattle.smith_types.specs.Syntax.entity_type.ExportKind.TheVariants as kind;
ghost use Rattle.smith_module_rules_examples.specs.ExampleParts.{global};
ghost use Rattle.smith_module_rules_examples.specs.ExampleGiven.{without_gc, raw_body, counting_once};
ghost use Rattle.wasm_smith.specs.Sinks.{AddsSinks, AnswersSinks};
ghost use Rattle.wasm_smith.specs.SinkExports.{AnswersSinkExports, with_sinks};
ghost use Rattle.wasm_smith_examples.specs.ExampleSinks.{sunk, shown};

fn additions()
    ensures alone { AddsSinks 0 without_gc sunk }
    ensures after_a_counter { AddsSinks 1 counting_once (record counting_once {
      globals = global I32 true ∷ global I32 true ∷ global I64 true ∷ global I64 true ∷ [];
      defined_globals = (0, NumberConst (negsuc 0) ∷ []) ∷ (1, NumberConst (pos 0) ∷ [])
          ∷ (2, WideConst (pos 0) ∷ []) ∷ (3, WideConst (pos 0) ∷ []) ∷ [];
    }) }
    ensures of_another_index { ¬ AddsSinks 1 without_gc sunk }
    ensures none { ¬ AddsSinks 0 without_gc without_gc }
    ensures that_count_fuel { ¬ AddsSinks 0 without_gc (record sunk { fuel_globals = 0 ∷ [] }) }
    ensures that_are_not_defined { ¬ AddsSinks 0 without_gc (record sunk { defined_globals = [] }) }
    ensures that_are_exported { ¬ AddsSinks 0 without_gc shown }
{}

fn answers()
    ensures an_index { AnswersSinks without_gc sunk (Ok 0) }
    ensures raw_bytes { AnswersSinks raw_body raw_body (Err (IncorrectFormat RawBody)) }
    ensures want_of_memory { AnswersSinks without_gc without_gc (Err Memory) }
    ensures raw_bytes_that_are_not_there { ¬ AnswersSinks without_gc without_gc (Err (IncorrectFormat RawBody)) }
    ensures want_of_memory_beside_raw_bytes { ¬ AnswersSinks raw_body raw_body (Err Memory) }
    ensures refused_and_changed { ¬ AnswersSinks without_gc sunk (Err Memory) }
{}

fn exports()
    ensures alone { AnswersSinkExports 0 sunk shown (Ok tt) }
    ensures after_the_same { with_sinks 0 ((codes "sink_i64", kind.Func, 0) ∷ []) ≡ (codes "sink_i64", kind.Func, 0)
        ∷ (codes "sink_i32", kind.Global, 0) ∷ (codes "sink_i64________", kind.Global, 1) ∷ (codes "sink_i64_2", kind.Global, 2) ∷ [] }
    ensures want_of_memory { AnswersSinkExports 0 sunk sunk (Err Memory) }
    ensures no_export { ¬ AnswersSinkExports 0 sunk sunk (Ok tt) }
    ensures of_other_globals { ¬ AnswersSinkExports 1 sunk shown (Ok tt) }
    ensures refused_and_changed { ¬ AnswersSinkExports 0 sunk (record sunk { exports = (codes "sink_i32", kind.Global, 0) ∷ [] })
        (Err Memory) }
{}
