ghost use Rattle.std.specs.Prelude.{◌≡◌, false, Some, None, Ok, Err, [], ◌∷◌, pos};
ghost use Rattle.smith_types.specs.Syntax.Features.{Features, every_feature};
ghost use Rattle.smith_types.specs.Syntax.value_type.ValType.TheVariants.{I32, V128};
ghost use Rattle.smith_instr.specs.declared.instr.Instr.TheVariants as instr;
ghost use Rattle.smith_instr.specs.declared.numeric.IntBinary.TheVariants.{Add};
ghost use Rattle.smith_instr.specs.declared.numeric.NumericInstr.TheVariants.{I32Binary};
ghost use Rattle.smith_binary_read.specs.declared.error.Reason.TheVariants as reason;
ghost use Rattle.smith_decode.specs.declared.data.DataMode.TheVariants as mode;
ghost use Rattle.smith_decode.specs.BodyReadings.{body_at, body_of};
ghost use Rattle.smith_decode.specs.DataReadings as data_segment;
ghost use Rattle.smith_decode.specs.DefinitionReadings.{global_at, global_of};
ghost use Rattle.smith_decode.specs.ExampleModules.{no_item, after_preamble, ctz, one_drop, dropping};
ghost use Rattle.smith_decode.specs.ExampleModules.{of_wide_memory, dropping_bytes};
ghost use Rattle.smith_decode.specs.ExampleModules.{two_supertypes, of_two_supertypes};
ghost use Rattle.smith_decode.specs.declared.locations.Place.TheVariants as place;
ghost use Rattle.smith_decode.specs.Forms.{AreFormsEnabled, IsOffAt, IsInstrEnabled};
ghost use Rattle.smith_decode.specs.Forms.{IsConstantEnabled, IsDataEnabled};
ghost use Rattle.smith_decode.specs.Locations.{located};
ghost use Rattle.smith_decode.specs.CustomReadings.{custom};
ghost use Rattle.smith_decode.specs.ModuleReadings.{module_at, with_customs};
ghost use Rattle.smith_decode.specs.Modules.{IsModuleBinary, Syntax, syntax_of};

fn modules()
    ensures preamble { module_at (after_preamble []) ≡ Ok no_item }
    ensures custom_section { module_at (after_preamble (0x00 ∷ 0x02 ∷ 0x00 ∷ 0x2A ∷ []))
        ≡ Ok (with_customs no_item (custom None [] (0x2A ∷ []) ∷ [])) }
    ensures customs_around { module_at (after_preamble (0x00 ∷ 0x01 ∷ 0x00 ∷ 0x0A ∷ 0x01 ∷ 0x00 ∷ 0x00 ∷ 0x01 ∷ 0x00 ∷ []))
        ≡ Ok (with_customs no_item (custom None [] [] ∷ custom (Some 10) [] [] ∷ [])) }
    ensures empty_sections { module_at (after_preamble (0x01 ∷ 0x01 ∷ 0x00 ∷ 0x0A ∷ 0x01 ∷ 0x00 ∷ []))
        ≡ Ok no_item }
    ensures two_supertypes { module_at (after_preamble two_supertypes) ≡ Ok of_two_supertypes }
    ensures long_size { module_at (after_preamble (0x01 ∷ 0x81 ∷ 0x00 ∷ 0x00 ∷ [])) ≡ Ok no_item }
{}

fn faults()
    ensures other_version { module_at (0x00 ∷ 0x61 ∷ 0x73 ∷ 0x6D ∷ 0x02 ∷ [])
        ≡ Err (record { left = 1; reason = reason.UnknownByte }) }
    ensures out_of_order { module_at (after_preamble (0x0A ∷ 0x01 ∷ 0x00 ∷ 0x01 ∷ 0x01 ∷ 0x00 ∷ []))
        ≡ Err (record { left = 3; reason = reason.SectionOrder }) }
    ensures trailing_byte { module_at (after_preamble (0x01 ∷ 0x02 ∷ 0x00 ∷ 0x00 ∷ []))
        ≡ Err (record { left = 1; reason = reason.TrailingBytes }) }
    ensures without_a_body { module_at (after_preamble (0x03 ∷ 0x02 ∷ 0x01 ∷ 0x00 ∷ []))
        ≡ Err (record { left = 0; reason = reason.CountMismatch }) }
{}

fn bodies()
    ensures one_instruction { body_at (0x03 ∷ 0x00 ∷ 0x01 ∷ 0x0B ∷ 0x7F ∷ [])
        ≡ Ok (body_of [] (instr.Nop ∷ []), 0x7F ∷ []) }
    ensures open_block { body_at (0x04 ∷ 0x00 ∷ 0x02 ∷ 0x40 ∷ 0x0B ∷ 0x7F ∷ [])
        ≡ Err (record { left = 1; reason = reason.UnexpectedEnd }) }
    ensures after_the_end { body_at (0x03 ∷ 0x00 ∷ 0x0B ∷ 0x0B ∷ [])
        ≡ Err (record { left = 1; reason = reason.TrailingBytes }) }
{}

fn initialisers()
    ensures no_constant { global_at (0x7F ∷ 0x00 ∷ 0x41 ∷ 0x01 ∷ 0x68 ∷ 0x0B ∷ [])
        ≡ Ok (global_of (record { val_type = I32; mutable = false; shared = false }) ctz, []) }
    ensures open_block { global_at (0x7F ∷ 0x00 ∷ 0x02 ∷ 0x40 ∷ 0x0B ∷ [])
        ≡ Err (record { left = 0; reason = reason.UnexpectedEnd }) }
    ensures offset { data_segment.segment_at (0x00 ∷ 0x41 ∷ 0x01 ∷ 0x68 ∷ 0x0B ∷ 0x01 ∷ 0xFF ∷ [])
        ≡ Ok (data_segment.segment (mode.Active 0 ctz) (0xFF ∷ []), []) }
{}

fn data_counts()
    ensures stated { module_at (after_preamble (0x03 ∷ 0x02 ∷ 0x01 ∷ 0x00 ∷ 0x0C ∷ 0x01 ∷ 0x00 ∷ one_drop))
        ≡ Ok dropping }
    ensures missing { module_at (after_preamble (0x03 ∷ 0x02 ∷ 0x01 ∷ 0x00 ∷ one_drop))
        ≡ Err (record { left = 0; reason = reason.DataCountMissing }) }
    ensures other_count { module_at (after_preamble (0x0C ∷ 0x01 ∷ 0x01 ∷ []))
        ≡ Err (record { left = 0; reason = reason.CountMismatch }) }
{}

fn modules_in_the_abstract_syntax()
    ensures preamble { IsModuleBinary (syntax_of no_item) (after_preamble []) }
    ensures without_its_custom_section { ¬ IsModuleBinary (syntax_of no_item)
        (after_preamble (0x00 ∷ 0x02 ∷ 0x00 ∷ 0x2A ∷ [])) }
    ensures stated { IsModuleBinary (syntax_of dropping)
        (after_preamble (0x03 ∷ 0x02 ∷ 0x01 ∷ 0x00 ∷ 0x0C ∷ 0x01 ∷ 0x00 ∷ one_drop)) }
    ensures two_supertypes { IsModuleBinary (syntax_of of_two_supertypes)
        (after_preamble two_supertypes) }
    ensures without_the_second { ¬ IsModuleBinary
        (record (syntax_of of_two_supertypes) { further_supertypes = ([] ∷ []) ∷ [] })
        (after_preamble two_supertypes) }
    ensures not_stated { (m : Syntax)
        → ¬ IsModuleBinary m (after_preamble (0x03 ∷ 0x02 ∷ 0x01 ∷ 0x00 ∷ one_drop)) }
    ensures without_a_body { (m : Syntax)
        → ¬ IsModuleBinary m (after_preamble (0x03 ∷ 0x02 ∷ 0x01 ∷ 0x00 ∷ [])) }
    ensures out_of_order { (m : Syntax)
        → ¬ IsModuleBinary m (after_preamble (0x0A ∷ 0x01 ∷ 0x00 ∷ 0x01 ∷ 0x01 ∷ 0x00 ∷ [])) }
{}

fn forms()
    ensures no_item { (features : Features) → AreFormsEnabled features no_item }
    ensures wide_memory { ¬ AreFormsEnabled (record every_feature { memory64 = false }) of_wide_memory }
    ensures at_the_memory { IsOffAt (record every_feature { memory64 = false }) of_wide_memory
        (place.Memory 0) }
    ensures call { IsInstrEnabled (record every_feature { tail_call = false }) (instr.Call 0) }
    ensures tail_call { ¬ IsInstrEnabled (record every_feature { tail_call = false })
        (instr.ReturnCall 0) }
    ensures stated_type { ¬ IsInstrEnabled (record every_feature { simd = false })
        (instr.SelectTyped (V128 ∷ [])) }
    ensures sum { IsInstrEnabled (record every_feature { extended_const = false })
        (instr.Numeric (I32Binary Add)) }
    ensures constant_sum { ¬ IsConstantEnabled (record every_feature { extended_const = false })
        (instr.Numeric (I32Binary Add)) }
    ensures passive { ¬ IsDataEnabled (record every_feature { bulk_memory = false })
        (data_segment.segment mode.Passive []) }
{}

fn locations()
    ensures function { located (place.Function 0) dropping_bytes ≡ Some 11 }
    ensures data_count { located place.DataCount dropping_bytes ≡ Some 14 }
    ensures body { located (place.Body 0) dropping_bytes ≡ Some 18 }
    ensures instruction { located (place.Instruction 0 0) dropping_bytes ≡ Some 20 }
    ensures last_end { located (place.Instruction 0 1) dropping_bytes ≡ Some 23 }
    ensures no_second_body { located (place.Body 1) dropping_bytes ≡ None }
    ensures no_start { located place.Start dropping_bytes ≡ None }
{}
