ghost use Rattle.std.specs.Prelude.{◌≡◌, ◌<◌, ◌^◌, suc, ℕ, List};
ghost use Rattle.smith_binary.specs.Numbers.{IsUnsigned, IsSigned, shortest_bytes};
ghost use Rattle.smith_binary.specs.Spelling.{Shortest};
ghost use Rattle.smith_binary.specs.Unambiguous.{IsUnambiguous};

/// States that bytes begin with the spelling of at most one unsigned integer of a number of bits.
pub fn unsigned_integers_are_unambiguous()
    ensures { (bits : ℕ) → IsUnambiguous (IsUnsigned bits) }
{}

/// States that bytes begin with the spelling of at most one signed integer of a number of bits.
pub fn signed_integers_are_unambiguous()
    ensures { (bits : ℕ) → IsUnambiguous (IsSigned bits) }
{}

/// States that an unsigned integer has one shortest spelling.
pub fn shortest_spellings_are_known()
    ensures { (most bits n : ℕ) (piece : List ℕ) → n < 128 ^ suc most → n < 2 ^ bits
        → Shortest (IsUnsigned bits n) piece → piece ≡ shortest_bytes (suc most) n }
{}
