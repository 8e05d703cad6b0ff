// Drawn value types. The clauses are proved, and nothing calls these functions.

ghost use Rattle.std.specs.Prelude.{◌≡◌, [], ◌∷◌, true, false};
ghost use Rattle.smith_types.specs.Syntax.value_type.AbstractHeapType.TheVariants as heap;
ghost use Rattle.smith_config.specs.Config.{default_config};
ghost use Rattle.smith_draw_types.specs.declared.value_type.ValueClass.TheVariants as class;
ghost use Rattle.smith_draw_types.specs.Choices.{enabled};
ghost use Rattle.smith_draw_types.specs.ValueTypes.{value_classes, abstract_heap_types, sharedness_at};

fn classes_of_value_types()
    ensures all { enabled (value_classes default_config)
        ≡ class.I32 ∷ class.I64 ∷ class.F32 ∷ class.F64 ∷ class.V128 ∷ class.Reference ∷ [] }
    ensures without_floats { enabled (value_classes
        (record default_config { allow_floats = false }))
        ≡ class.I32 ∷ class.I64 ∷ class.V128 ∷ class.Reference ∷ [] }
    ensures without_vectors { enabled (value_classes
        (record default_config { simd_enabled = false }))
        ≡ class.I32 ∷ class.I64 ∷ class.F32 ∷ class.F64 ∷ class.Reference ∷ [] }
    ensures without_references { enabled (value_classes
        (record default_config { reference_types_enabled = false }))
        ≡ class.I32 ∷ class.I64 ∷ class.F32 ∷ class.F64 ∷ class.V128 ∷ [] }
{}

fn heap_types()
    ensures all { enabled (abstract_heap_types default_config)
        ≡ heap.Func ∷ heap.Extern ∷ heap.Exn ∷ heap.Any ∷ heap.None ∷ heap.NoExtern ∷ heap.NoFunc
        ∷ heap.Eq ∷ heap.Struct ∷ heap.Array ∷ heap.I31 ∷ [] }
    ensures without_exceptions { enabled
        (abstract_heap_types (record default_config { exceptions_enabled = false }))
        ≡ heap.Func ∷ heap.Extern ∷ heap.Any ∷ heap.None ∷ heap.NoExtern ∷ heap.NoFunc ∷ heap.Eq
        ∷ heap.Struct ∷ heap.Array ∷ heap.I31 ∷ [] }
    ensures without_gc { enabled (abstract_heap_types
        (record default_config { gc_enabled = false }))
        ≡ heap.Func ∷ heap.Extern ∷ heap.Exn ∷ [] }
{}

#[tactic(auto, unfolding(crate::specs::ValueTypes::sharedness_at, smith_bytes::specs::Draws::ratio_at, smith_bytes::specs::Draws::range_at, smith_bytes::specs::Draws::digit_count))]
fn sharedness()
    ensures must { sharedness_at default_config true (1 ∷ []) ≡ (true, 1 ∷ []) }
    ensures never { sharedness_at default_config false (0 ∷ []) ≡ (false, 0 ∷ []) }
    ensures first_of_four { sharedness_at
        (record default_config { shared_everything_threads_enabled = true }) false (0 ∷ [])
        ≡ (true, []) }
    ensures second_of_four { sharedness_at
        (record default_config { shared_everything_threads_enabled = true }) false (1 ∷ [])
        ≡ (false, []) }
    ensures third_of_four { sharedness_at
        (record default_config { shared_everything_threads_enabled = true }) false (2 ∷ [])
        ≡ (false, []) }
    ensures last_of_four { sharedness_at
        (record default_config { shared_everything_threads_enabled = true }) false (3 ∷ [])
        ≡ (false, []) }
    ensures past_the_four { sharedness_at
        (record default_config { shared_everything_threads_enabled = true }) false (4 ∷ [])
        ≡ (true, []) }
{}
