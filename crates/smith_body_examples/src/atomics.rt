#![tactic(auto, unfolding(smith_body_memory::specs::AtomicChoices::atomic_at, smith_body_memory::specs::AtomicChoices::atomic_store_at, smith_body_memory::specs::Accesses::access_at, smith_body_memory::specs::Accesses::offset_at, smith_body_memory::specs::Accesses::place_at, smith_draw_types::specs::Choices::chosen_at, smith_bytes::specs::Draws::choose_at, smith_bytes::specs::Draws::digit_count, smith_bytes::specs::Draws::range_at))]

ghost use Rattle.std.specs.Prelude.{◌≡◌, Some, None, [], ◌∷◌};
ghost use Rattle.smith_types.specs.Syntax.value_type.ValType.TheVariants.{I32, I64, F32};
ghost use Rattle.smith_config.specs.Config.{default_config};
ghost use Rattle.smith_instr.specs.declared.atomic.AtomicAccess.TheVariants as atomic;
ghost use Rattle.smith_instr.specs.declared.atomic.AtomicUpdate.TheVariants as update;
ghost use Rattle.smith_instr.specs.declared.atomic.AtomicWidth.TheVariants as width;
ghost use Rattle.smith_instr.specs.declared.instr.Instr.TheVariants as instr;
ghost use Rattle.smith_instr_examples.specs.ExampleBodies.{aligned, function_of};
ghost use Rattle.smith_body_memory.specs.AtomicChoices.{atomic_at, atomic_store_at};
ghost use Rattle.smith_body_nodes.specs.Nodes.{node_of};

fn values()
    ensures load { atomic_at default_config (function_of [] []) I32 (3 ∷ 0 ∷ 0 ∷ 0 ∷ 8 ∷ 9 ∷ [])
        ≡ (Some (node_of (I32 ∷ []) (instr.Atomic (atomic.Load width.I32) (record (aligned 0 2) { offset = 8 })) 0), 9 ∷ []) }
    ensures less_aligned { ¬ (atomic_at default_config (function_of [] []) I32 (3 ∷ 0 ∷ 0 ∷ 0 ∷ 8 ∷ 9 ∷ [])
        ≡ (Some (node_of (I32 ∷ []) (instr.Atomic (atomic.Load width.I32) (record (aligned 0 0) { offset = 8 })) 0), 9 ∷ [])) }
    ensures wait { atomic_at default_config (function_of [] []) I32 (2 ∷ 1 ∷ 0 ∷ 0 ∷ 8 ∷ [])
        ≡ (Some (node_of (I64 ∷ I64 ∷ I64 ∷ []) (instr.Atomic atomic.Wait64 (record (aligned 1 3) { offset = 8 })) 0), []) }
    ensures compare { atomic_at default_config (function_of [] []) I32 (25 ∷ 0 ∷ 0 ∷ 0 ∷ 8 ∷ [])
        ≡ (
          Some (node_of (I32 ∷ I32 ∷ I32 ∷ []) (instr.Atomic (atomic.CompareExchange width.I32Of8) (record (aligned 0 0) { offset = 8 }))
              0),
          [],
        ) }
    ensures subtract { atomic_at default_config (function_of [] []) I64 (10 ∷ 0 ∷ 0 ∷ 0 ∷ 8 ∷ [])
        ≡ (
          Some (node_of (I32 ∷ I64 ∷ []) (instr.Atomic (atomic.Update update.Sub width.I64Of16) (record (aligned 0 1) { offset = 8 })) 0),
          [],
        ) }
    ensures float { atomic_at default_config (function_of [] []) F32 (3 ∷ 0 ∷ []) ≡ (None, 3 ∷ 0 ∷ []) }
    ensures without_a_memory { atomic_at default_config (record (function_of [] []) { memories = [] }) I32 (3 ∷ 0 ∷ []) ≡ (None, 0 ∷ []) }
{}

fn stores()
    ensures narrow { atomic_store_at default_config (function_of [] []) (2 ∷ 0 ∷ 0 ∷ 0 ∷ 8 ∷ [])
        ≡ (Some (node_of (I32 ∷ I32 ∷ []) (instr.Atomic (atomic.Store width.I32Of8) (record (aligned 0 0) { offset = 8 })) 0), []) }
    ensures wide { atomic_store_at default_config (function_of [] []) (6 ∷ 1 ∷ 0 ∷ 0 ∷ 8 ∷ [])
        ≡ (Some (node_of (I64 ∷ I64 ∷ []) (instr.Atomic (atomic.Store width.I64Of32) (record (aligned 1 2) { offset = 8 })) 0), []) }
    ensures without_a_memory { atomic_store_at default_config (record (function_of [] []) { memories = [] }) (6 ∷ 1 ∷ []) ≡ (None, 1 ∷ []) }
{}
