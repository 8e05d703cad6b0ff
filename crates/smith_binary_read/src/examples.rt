ghost use Rattle.std.specs.Prelude.{◌≡◌, ℕ, List, true, false, Some, None, Ok, Err, [], ◌∷◌, negsuc};
ghost use Rattle.smith_types.specs.Syntax.value_type.ValType.TheVariants.{I32, I64};
ghost use Rattle.smith_binary_read.specs.declared.error.Reason.TheVariants as reason;
ghost use Rattle.smith_binary_read.specs.Numbers.{unsigned_at, signed_at, little_endian_at};
ghost use Rattle.smith_binary_read.specs.Contents.{content_at, list_at};
ghost use Rattle.smith_binary_read.specs.TypeReadings.{val_type_at, mutability_at};
ghost use Rattle.smith_binary_read.specs.TypeReadings.{declared_type_at, supertypes_at};
ghost use Rattle.smith_binary_read.specs.DeclaredTypes.{IsDeclaredType, with_further};
ghost use Rattle.smith_binary_read.specs.ExampleTypes.{sub_type};
ghost use Rattle.smith_binary_read.specs.EntityReadings.{memory_type_at, tag_type_at};

fn numbers()
    ensures short { unsigned_at 32 (0x03 ∷ 0x7F ∷ []) ≡ Ok (3, 0x7F ∷ []) }
    ensures longer_than_needed { unsigned_at 32 (0x83 ∷ 0x00 ∷ []) ≡ Ok (3, []) }
    ensures unused_bits { unsigned_at 32 (0x80 ∷ 0x80 ∷ 0x80 ∷ 0x80 ∷ 0x10 ∷ [])
        ≡ Err (record { left = 1; reason = reason.IntegerTooLarge }) }
    ensures six_bytes { unsigned_at 32 (0x80 ∷ 0x80 ∷ 0x80 ∷ 0x80 ∷ 0x80 ∷ 0x00 ∷ [])
        ≡ Err (record { left = 2; reason = reason.IntegerTooLong }) }
    ensures without_its_end { unsigned_at 32 (0x80 ∷ [])
        ≡ Err (record { left = 0; reason = reason.UnexpectedEnd }) }
    ensures negative { signed_at 33 (0x7E ∷ []) ≡ Ok (negsuc 1, []) }
    ensures negative_and_long { signed_at 32 (0xFE ∷ 0x7F ∷ []) ≡ Ok (negsuc 1, []) }
    ensures of_two_bytes { little_endian_at 2 (0x01 ∷ 0x02 ∷ []) ≡ Ok (513, []) }
{}

fn lists()
    ensures bytes { content_at (0x01 ∷ 0xFF ∷ 0x02 ∷ []) ≡ Ok (0xFF ∷ [], 0x02 ∷ []) }
    ensures too_few_bytes { content_at (0x02 ∷ 0xFF ∷ [])
        ≡ Err (record { left = 1; reason = reason.UnexpectedEnd }) }
    ensures types { list_at val_type_at (0x02 ∷ 0x7F ∷ 0x7E ∷ []) ≡ Ok (I32 ∷ I64 ∷ [], []) }
    ensures of_no_type { list_at val_type_at (0x01 ∷ 0x40 ∷ [])
        ≡ Err (record { left = 1; reason = reason.UnknownByte }) }
    ensures many_in_no_byte { list_at val_type_at (0xFF ∷ 0xFF ∷ 0xFF ∷ 0xFF ∷ 0x0F ∷ [])
        ≡ Err (record { left = 0; reason = reason.UnexpectedEnd }) }
{}

fn supertypes()
    ensures none { supertypes_at (0x00 ∷ []) ≡ Ok ((None, []), []) }
    ensures one { supertypes_at (0x01 ∷ 0x07 ∷ []) ≡ Ok ((Some 7, []), []) }
    ensures two { supertypes_at (0x02 ∷ 0x07 ∷ 0x01 ∷ []) ≡ Ok ((Some 7, 1 ∷ []), []) }
    ensures without_the_second { supertypes_at (0x02 ∷ 0x07 ∷ [])
        ≡ Err (record { left = 0; reason = reason.UnexpectedEnd }) }
    ensures of_a_struct { declared_type_at (0x50 ∷ 0x02 ∷ 0x07 ∷ 0x01 ∷ 0x5F ∷ 0x00 ∷ [])
        ≡ Ok (with_further (sub_type (Some 7)) (1 ∷ []), []) }
    ensures form { IsDeclaredType (with_further (sub_type (Some 7)) (1 ∷ []))
        (0x50 ∷ 0x02 ∷ 0x07 ∷ 0x01 ∷ 0x5F ∷ 0x00 ∷ []) }
    ensures further_without_a_first { (piece : List ℕ)
        → ¬ IsDeclaredType (with_further (sub_type None) (1 ∷ [])) piece }
{}

fn types()
    ensures immutable { mutability_at (0x00 ∷ []) ≡ Ok (false, []) }
    ensures no_mutability { mutability_at (0x02 ∷ [])
        ≡ Err (record { left = 1; reason = reason.UnknownByte }) }
    ensures memory { memory_type_at (0x00 ∷ 0x01 ∷ []) ≡ Ok (
      record {
        minimum = 1;
        maximum = None;
        memory64 = false;
        shared = false;
        page_size_log2 = None;
      },
      [],
    ) }
    ensures no_flags { memory_type_at (0x10 ∷ 0x01 ∷ [])
        ≡ Err (record { left = 2; reason = reason.UnknownByte }) }
    ensures no_tag { tag_type_at (0x01 ∷ 0x00 ∷ [])
        ≡ Err (record { left = 2; reason = reason.UnknownByte }) }
{}
