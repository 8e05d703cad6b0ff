#![tactic(auto)]

ghost use Rattle.std.specs.Prelude.{◌≡◌, pos, true, false, [], ◌∷◌, Some, None};
ghost use Rattle.smith_binary.specs.Pieces.{IsByte, IsListIn, IsSectionIn};
ghost use Rattle.smith_binary.specs.Spelling.{IsSignedIn, IsUnsignedIn};
ghost use Rattle.smith_binary.specs.Spelling.Spelling.{any, written};
ghost use Rattle.smith_types.specs.ExampleTypes.{final_type, not_null, nullable, plain, plain_func};
ghost use Rattle.smith_types.specs.Flags.{funcref};
ghost use Rattle.smith_types.specs.Syntax.value_type.AbstractHeapType.TheVariants as heap;
ghost use Rattle.smith_types.specs.Syntax.value_type.HeapType.TheVariants.{Abstract, Concrete, Exact};
ghost use Rattle.smith_binary_sections.specs.Types.{IsRecGroupWrittenIn, IsRefTypeIn, short_ref};

// Integers, types and sections as they are written, and other spellings of them.

fn unsigned_integers()
    ensures in_one_byte { IsUnsignedIn (written 0) 32 5 (0x05 ∷ []) }
    ensures longer { ¬ IsUnsignedIn (written 0) 32 5 (0x85 ∷ 0x00 ∷ []) }
    ensures longer_in_any_spelling { IsUnsignedIn any 32 5 (0x85 ∷ 0x00 ∷ []) }
    ensures in_two_bytes { IsUnsignedIn (written 2) 32 5 (0x85 ∷ 0x00 ∷ []) }
    ensures too_short { ¬ IsUnsignedIn (written 2) 32 5 (0x05 ∷ []) }
    ensures that_needs_three { IsUnsignedIn (written 2) 32 16384 (0x80 ∷ 0x80 ∷ 0x01 ∷ []) }
    ensures in_five_bytes { IsUnsignedIn (written 5) 32 5 (0x85 ∷ 0x80 ∷ 0x80 ∷ 0x80 ∷ 0x00 ∷ []) }
    ensures in_five_of_nine { IsUnsignedIn (written 9) 64 5 (0x85 ∷ 0x80 ∷ 0x80 ∷ 0x80 ∷ 0x00 ∷ []) }
    ensures in_six { ¬ IsUnsignedIn (written 9) 64 5 (0x85 ∷ 0x80 ∷ 0x80 ∷ 0x80 ∷ 0x80 ∷ 0x00 ∷ []) }
{}

fn signed_integers()
    ensures in_one_byte { IsSignedIn (written 9) 33 (pos 5) (0x05 ∷ []) }
    ensures longer { ¬ IsSignedIn (written 9) 33 (pos 5) (0x85 ∷ 0x00 ∷ []) }
{}

fn reference_types()
    ensures alone { short_ref true (plain heap.Func) ≡ Some heap.Func }
    ensures without_null { short_ref false (plain heap.Func) ≡ None }
    ensures to_shared_values { short_ref true (Abstract true heap.Func) ≡ None }
    ensures to_a_type { short_ref true (Concrete 0) ≡ None }
    ensures to_exactly_a_type { short_ref true (Exact 0) ≡ None }
    ensures in_one_byte { IsRefTypeIn (written 0) funcref (0x70 ∷ []) }
    ensures longer { ¬ IsRefTypeIn (written 0) funcref (0x63 ∷ 0x70 ∷ []) }
    ensures longer_in_any_spelling { IsRefTypeIn any funcref (0x63 ∷ 0x70 ∷ []) }
    ensures to_functions { IsRefTypeIn (written 0) (not_null (plain heap.Func)) (0x64 ∷ 0x70 ∷ []) }
    ensures to_the_fifth_type { IsRefTypeIn (written 9) (nullable (Concrete 5)) (0x63 ∷ 0x05 ∷ []) }
{}

fn sections()
    ensures of_a_function_type { IsSectionIn (written 2) 1
        (IsListIn (written 2) (IsRecGroupWrittenIn (written 2)) ((final_type plain_func ∷ []) ∷ [])) (0x01 ∷ 0x87 ∷ 0x00 ∷ 0x81 ∷ 0x00
        ∷ 0x60 ∷ 0x80 ∷ 0x00 ∷ 0x80 ∷ 0x00 ∷ []) }
    ensures of_a_short_size { ¬ IsSectionIn (written 2) 1 (λ content. Unit {0}) (0x01 ∷ 0x00 ∷ []) }
    ensures of_a_short_length { ¬ IsListIn (written 2) IsByte [] (0x00 ∷ []) }
{}
