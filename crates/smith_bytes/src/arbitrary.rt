ghost use Rattle.std.specs.Prelude.{◌≡◌, ◌≤◌};
ghost use Rattle.smith_bytes.specs.Source.{KeepsPieces};

use crate::unstructured::Unstructured;

/// An unsigned integer type that [`Unstructured::int_in_range`] can draw from.
pub trait Int: Copy {
    ghost use Rattle.std.specs.Prelude.{ℕ};

    /// The mathematical value of an integer.
    ghost number: { Self → ℕ };

    /// Widens `self` to 128 bits.
    fn widen(self) -> u128
        ensures { result ≡ number self };

    /// Narrows `wide` to this type. Requires `wide` to be at most `most`.
    fn narrow(wide: u128, most: Self) -> Self
        requires { wide ≤ number most }
        ensures { number result ≡ wide };
}

impl Int for u8 {
    ghost number = { λ n. n };

    fn widen(self) -> u128 {
        self as u128
    }

    fn narrow(wide: u128, _most: u8) -> u8 {
        wide as u8
    }
}

impl Int for u16 {
    ghost number = { λ n. n };

    fn widen(self) -> u128 {
        self as u128
    }

    fn narrow(wide: u128, _most: u16) -> u16 {
        wide as u16
    }
}

impl Int for u32 {
    ghost number = { λ n. n };

    fn widen(self) -> u128 {
        self as u128
    }

    fn narrow(wide: u128, _most: u32) -> u32 {
        wide as u32
    }
}

impl Int for u64 {
    ghost number = { λ n. n };

    fn widen(self) -> u128 {
        self as u128
    }

    fn narrow(wide: u128, _most: u64) -> u64 {
        wide as u64
    }
}

impl Int for u128 {
    ghost number = { λ n. n };

    fn widen(self) -> u128 {
        self
    }

    fn narrow(wide: u128, _most: u128) -> u128 {
        wide
    }
}

impl Int for usize {
    ghost number = { λ n. n };

    fn widen(self) -> u128 {
        self as u128
    }

    fn narrow(wide: u128, _most: usize) -> usize {
        wide as usize
    }
}

/// A type whose values can be drawn from an [`Unstructured`].
///
/// An integer is read from as many bytes as it has, least significant byte first. A `bool` is the
/// lowest bit of one byte.
pub trait Arbitrary: Drop {
    ghost use Rattle.std.specs.Prelude.{ℕ, List};

    /// Returns the value drawn from bytes, and the bytes left.
    ghost drawn: { List ℕ → Self × List ℕ };

    /// Draws a value from the front of `u`. Bytes past the end are read as zeros.
    fn arbitrary(u: &mut Unstructured<'_>) -> Self
        ensures exact { drawn u.old ≡ (result, u.new) }
        ensures left { KeepsPieces u.old u.new };
}

impl Arbitrary for bool {
    ghost use Rattle.smith_bytes.specs.Draws.{bool_at};

    ghost drawn = { bool_at };

    #[tactic(auto, unfolding(crate::specs::Draws::bool_at, crate::specs::Draws::whole_at))]
    fn arbitrary(u: &mut Unstructured<'_>) -> bool {
        u.byte() % 2 == 1
    }
}

impl Arbitrary for u8 {
    ghost use Rattle.smith_bytes.specs.Draws.{whole_at};

    ghost drawn = { whole_at 1 };

    fn arbitrary(u: &mut Unstructured<'_>) -> u8 {
        u.byte()
    }
}

impl Arbitrary for u16 {
    ghost use Rattle.smith_bytes.specs.Draws.{whole_at};

    ghost drawn = { whole_at 2 };

    fn arbitrary(u: &mut Unstructured<'_>) -> u16 {
        u.whole(2) as u16
    }
}

impl Arbitrary for u32 {
    ghost use Rattle.smith_bytes.specs.Draws.{whole_at};

    ghost drawn = { whole_at 4 };

    fn arbitrary(u: &mut Unstructured<'_>) -> u32 {
        u.whole(4) as u32
    }
}

impl Arbitrary for u64 {
    ghost use Rattle.smith_bytes.specs.Draws.{whole_at};

    ghost drawn = { whole_at 8 };

    fn arbitrary(u: &mut Unstructured<'_>) -> u64 {
        u.whole(8)
    }
}

impl Arbitrary for u128 {
    ghost use Rattle.smith_bytes.specs.Draws.{whole_at};

    ghost drawn = { whole_at 16 };

    fn arbitrary(u: &mut Unstructured<'_>) -> u128 {
        u.wide()
    }
}

impl Arbitrary for i32 {
    ghost use Rattle.smith_bytes.specs.Draws.{whole_at};
    ghost use Rattle.std.specs.Int.{cast_signed, w32};

    ghost drawn = { λ bytes. (cast_signed w32 (whole_at 4 bytes).0, (whole_at 4 bytes).1) };

    fn arbitrary(u: &mut Unstructured<'_>) -> i32 {
        (u.whole(4) as u32).cast_signed()
    }
}

impl Arbitrary for i64 {
    ghost use Rattle.smith_bytes.specs.Draws.{whole_at};
    ghost use Rattle.std.specs.Int.{cast_signed, w64};

    ghost drawn = { λ bytes. (cast_signed w64 (whole_at 8 bytes).0, (whole_at 8 bytes).1) };

    fn arbitrary(u: &mut Unstructured<'_>) -> i64 {
        u.whole(8).cast_signed()
    }
}

impl Arbitrary for i128 {
    ghost use Rattle.smith_bytes.specs.Draws.{whole_at};
    ghost use Rattle.std.specs.Int.{cast_signed, w128};

    ghost drawn = { λ bytes. (cast_signed w128 (whole_at 16 bytes).0, (whole_at 16 bytes).1) };

    fn arbitrary(u: &mut Unstructured<'_>) -> i128 {
        u.wide().cast_signed()
    }
}
