// Drawn locals. The clauses are proved; nothing calls these functions.

ghost use Rattle.std.specs.Prelude.{◌≡◌, [], ◌∷◌, replicate, false};
ghost use Rattle.smith_types.specs.ExampleTypes.{anyref, nullable, final_type, plain_func};
ghost use Rattle.smith_types.specs.Syntax.value_type.ValType.TheVariants.{I32, I64, F32, V128, Ref};
ghost use Rattle.smith_types.specs.Syntax.value_type.HeapType.TheVariants.{Concrete};
ghost use Rattle.smith_draw_consts.specs.ExampleConstExprs.{context_of_types};
ghost use Rattle.smith_config.specs.Config.{default_config};
ghost use Rattle.smith_draw_types.specs.Locals.{locals_at};

#[tactic(auto, unfolding(smith_draw_types::specs::Locals::locals_at, smith_draw_types::specs::CompositeTypes::val_types_at, smith_draw_types::specs::Choices::chosen_at, smith_draw_types::specs::ValueTypes::val_type_at, smith_draw_types::specs::ValueTypes::ref_type_at, smith_draw_types::specs::ValueTypes::granted_at, smith_draw_types::specs::ValueTypes::heap_type_at, smith_draw_types::specs::ValueTypes::type_index_at, smith_draw_types::specs::ValueTypes::abstract_heap_type_at, smith_draw_types::specs::ValueTypes::sharedness_at, smith_bytes::specs::Growth::grow_at, smith_bytes::specs::Draws::bool_at, smith_bytes::specs::Draws::range_at, smith_bytes::specs::Draws::digit_count, smith_bytes::specs::Draws::ratio_at))]
fn locals()
    ensures of_nothing { locals_at default_config (context_of_types []) [] ≡ ([], []) }
    ensures none { locals_at default_config (context_of_types []) (0 ∷ 1 ∷ 0 ∷ []) ≡ ([], 1 ∷ 0 ∷ []) }
    ensures in_order { locals_at default_config (context_of_types []) (1 ∷ 2 ∷ 1 ∷ 0 ∷ 0 ∷ 7 ∷ []) ≡ (F32 ∷ I32 ∷ [], 7 ∷ []) }
    ensures without_floats { locals_at (record default_config { allow_floats = false }) (context_of_types []) (1 ∷ 2 ∷ 0 ∷ [])
        ≡ (V128 ∷ [], []) }
    ensures reference { locals_at default_config (context_of_types []) (1 ∷ 5 ∷ 3 ∷ []) ≡ (anyref ∷ [], []) }
    ensures of_the_last_type { locals_at default_config (context_of_types (final_type plain_func ∷ final_type plain_func ∷ [])) (1 ∷ 5 ∷ 1
        ∷ 1 ∷ 0 ∷ []) ≡ (Ref (nullable (Concrete 1)) ∷ [], []) }
    ensures at_most { locals_at default_config (context_of_types []) (replicate 210 1) ≡ (replicate 100 I64, replicate 10 1) }
{}
