ghost use Rattle.std.specs.Prelude.{◌≡◌, ◌-◌, ◌^◌, Some, [], ◌∷◌, ◌++◌};
ghost use Rattle.smith_types.specs.Syntax.value_type.ValType.TheVariants.{I32};
ghost use Rattle.smith_config.specs.Config.{default_config};
ghost use Rattle.smith_config.specs.OffsetChoices.{default_choices, zero_choices};
ghost use Rattle.smith_instr.specs.declared.instr.Instr.TheVariants as instr;
ghost use Rattle.smith_instr.specs.declared.memory.Load.TheVariants as load;
ghost use Rattle.smith_instr_examples.specs.ExampleBodies.{aligned, function_of, narrow_memory, number, wide_memory};
ghost use Rattle.smith_body_memory.specs.Accesses.{least_bytes, most_bytes, offset_at};
ghost use Rattle.smith_body.specs.Bodies.{body_at};
ghost use Rattle.smith_body_examples.specs.ExampleBytes.{narrow};

fn bytes()
    ensures least { least_bytes narrow_memory ≡ 65536 }
    ensures greatest { most_bytes (record narrow_memory { maximum = Some 2 }) ≡ 131072 }
    ensures without_a_maximum { most_bytes narrow_memory ≡ 2 ^ 32 }
    ensures of_64_bits { most_bytes wide_memory ≡ 2 ^ 64 }
    ensures of_pages_of_a_byte { least_bytes (record narrow_memory { minimum = 3; page_size_log2 = Some 0 }) ≡ 3 }
{}

fn below()
    ensures first { offset_at default_choices narrow_memory (0 ∷ 0 ∷ 0 ∷ 7 ∷ []) ≡ (0, 7 ∷ []) }
    ensures some { offset_at default_choices narrow_memory (0 ∷ 1 ∷ 2 ∷ []) ≡ (258, []) }
    ensures last { offset_at default_choices narrow_memory (89 ∷ 255 ∷ 255 ∷ []) ≡ (65535, []) }
    ensures of_pages_of_a_byte { offset_at default_choices (record narrow_memory { minimum = 3; page_size_log2 = Some 0 }) (0 ∷ 4 ∷ [])
        ≡ (1, []) }
    ensures without_a_page { offset_at default_choices (record narrow_memory { minimum = 0 }) (0 ∷ 7 ∷ []) ≡ (0, 7 ∷ []) }
    ensures alone { offset_at (record { 0 = 1; 1 = 0; 2 = 0 }) narrow_memory (255 ∷ 255 ∷ []) ≡ (65535, []) }
    ensures past_it { ¬ (offset_at (record { 0 = 1; 1 = 0; 2 = 0 }) narrow_memory (255 ∷ 255 ∷ []) ≡ (65536, [])) }
{}

fn between()
    ensures first { offset_at default_choices narrow_memory (90 ∷ 0 ∷ 0 ∷ 0 ∷ 0 ∷ []) ≡ (65536, []) }
    ensures last { offset_at default_choices (record narrow_memory { maximum = Some 2 }) (98 ∷ 255 ∷ 255 ∷ []) ≡ (131071, []) }
    ensures of_one_size { offset_at default_choices (record narrow_memory { maximum = Some 1 }) (90 ∷ 7 ∷ []) ≡ (65536, 7 ∷ []) }
    ensures alone { offset_at (record { 0 = 0; 1 = 1; 2 = 0 }) (record narrow_memory { maximum = Some 2 }) (1 ∷ 0 ∷ []) ≡ (65792, []) }
{}

fn past()
    ensures first { offset_at default_choices (record narrow_memory { maximum = Some 2 }) (99 ∷ 0 ∷ 0 ∷ 0 ∷ 0 ∷ []) ≡ (131072, []) }
    ensures last_address { offset_at default_choices narrow_memory (99 ∷ 7 ∷ []) ≡ (2 ^ 32 - 1, 7 ∷ []) }
    ensures of_64_bits { offset_at default_choices wide_memory (99 ∷ []) ≡ (2 ^ 64 - 1, []) }
    ensures without_weights { offset_at zero_choices narrow_memory (7 ∷ []) ≡ (2 ^ 32 - 1, 7 ∷ []) }
{}

fn bodies()
    ensures below { body_at (record default_config { memory_offset_choices = record { 0 = 1; 1 = 0; 2 = 0 } }) (function_of [] (I32 ∷ [])) 1
        (0 ∷ 13 ∷ 4 ∷ 0 ∷ 1 ∷ 0 ∷ 8 ∷ 0 ∷ 3 ∷ []) ≡ (number 3 ∷ instr.Load load.I32From16U (record (aligned 0 1) { offset = 8 }) ∷ [], []) }
    ensures past { body_at (record default_config { memory_offset_choices = record { 0 = 0; 1 = 0; 2 = 1 } }) (function_of [] (I32 ∷ [])) 1
        (0 ∷ 13 ∷ 4 ∷ 0 ∷ 1 ∷ narrow 3) ≡ (number 3 ∷ instr.Load load.I32From16U (record (aligned 0 1) { offset = 2 ^ 32 - 1 }) ∷ [], []) }
{}
