// Kinds of element segments that are offered. The clauses are proved; nothing calls these
// functions.

ghost use Rattle.std.specs.Prelude.{◌≡◌, [], ◌∷◌, false, None, Some};
ghost use Rattle.smith_types.specs.Flags.{funcref};
ghost use Rattle.smith_types.specs.ExampleTypes.{nullable, plain};
ghost use Rattle.smith_types.specs.ExampleEntities.{table};
ghost use Rattle.smith_types.specs.Syntax.value_type.AbstractHeapType.TheVariants as heap;
ghost use Rattle.smith_config.specs.Config.{default_config};
ghost use Rattle.smith_draw_contents.specs.ElementSegments.{element_kinds_at};
ghost use Rattle.smith_draw_contents.specs.declared.element_kinds.KindChoice.TheVariants.{Passive};
ghost use Rattle.smith_draw_contents.specs.declared.element_kinds.KindChoice.TheVariants.{Declared};
ghost use Rattle.smith_draw_contents.specs.declared.element_kinds.KindChoice.TheVariants.{Active};

// A table with a minimum is offered without a draw, any other if a number drawn from 0 to 10 is 0.
#[tactic(auto, unfolding(crate::specs::ElementSegments::element_kinds_at, crate::specs::ElementSegments::table_kinds_at, crate::specs::ElementSegments::is_offered_at, smith_bytes::specs::Draws::range_at, smith_bytes::specs::Draws::digit_count))]
fn kinds()
    ensures without_tables { element_kinds_at default_config [] (9 ∷ [])
        ≡ (Passive ∷ Declared ∷ [], 9 ∷ []) }
    ensures of_functions { element_kinds_at default_config (table funcref 1 None ∷ []) (9 ∷ []) ≡ (
      Passive ∷ Declared ∷ Active None (table funcref 1 None)
          ∷ Active (Some 0) (table funcref 1 None) ∷ [],
      9 ∷ [],
    ) }
    ensures of_others { element_kinds_at default_config
        (table (nullable (plain heap.Extern)) 1 None ∷ []) (9 ∷ [])
        ≡ (
          Passive ∷ Declared ∷ Active (Some 0) (table (nullable (plain heap.Extern)) 1 None) ∷ [],
          9 ∷ [],
        ) }
    ensures empty_ones { element_kinds_at default_config
        (table funcref 0 None ∷ table funcref 0 None ∷ []) (10 ∷ 11 ∷ 9 ∷ [])
        ≡ (Passive ∷ Declared ∷ Active (Some 1) (table funcref 0 None) ∷ [], 9 ∷ []) }
    ensures without_bulk_memory { element_kinds_at
        (record default_config { bulk_memory_enabled = false }) (table funcref 1 None ∷ []) []
        ≡ (Active None (table funcref 1 None) ∷ [], []) }
    ensures none { element_kinds_at (record default_config { bulk_memory_enabled = false })
        (table (nullable (plain heap.Extern)) 1 None ∷ []) []
        ≡ ([], []) }
{}
