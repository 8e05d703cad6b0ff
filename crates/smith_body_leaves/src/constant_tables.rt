ghost use Rattle.std.specs.Prelude.{◌≡◌};
ghost use Rattle.smith_body_leaves.specs.Constants.{constant_ways, doubles, floats, integers32};
ghost use Rattle.smith_body_leaves.specs.Constants.{integers64, lane_families, small_doubles};
ghost use Rattle.smith_body_leaves.specs.Constants.{small_floats};

/// How a constant is drawn.
#[derive(Clone, Copy)]
pub(crate) enum ConstantWay {
    Small,
    Interesting,
    Whole,
}

/// The numbers in the lanes of an interesting vector.
#[derive(Clone, Copy)]
pub(crate) enum LaneFamily {
    Bytes,
    Integers32,
    Integers64,
    Floats,
    Doubles,
}

/// Lists the ways to draw a constant, each as often as its weight.
pub(crate) fn constant_ways<'a>() -> &'a [ConstantWay]
    ensures { result.now ≡ constant_ways }
{
    &[
        ConstantWay::Small,
        ConstantWay::Interesting,
        ConstantWay::Interesting,
        ConstantWay::Whole,
    ]
}

/// Lists what the lanes of an interesting vector may be.
pub(crate) fn lane_families<'a>() -> &'a [LaneFamily]
    ensures { result.now ≡ lane_families }
{
    &[
        LaneFamily::Bytes,
        LaneFamily::Integers32,
        LaneFamily::Integers64,
        LaneFamily::Floats,
        LaneFamily::Doubles,
    ]
}

/// Lists interesting values of an i32: small ones, the least, the greatest, powers of two, and
/// numbers next to these.
pub(crate) fn integers32<'a>() -> &'a [u32]
    ensures { result.now ≡ integers32 }
{
    &[
        0x0000_0000,
        0x0000_0001,
        0x0000_0002,
        0x0000_0003,
        0x0000_0004,
        0x0000_0007,
        0x0000_0008,
        0x0000_000f,
        0x0000_0010,
        0x0000_001f,
        0x0000_0020,
        0x0000_0021,
        0x0000_003f,
        0x0000_0040,
        0x0000_007f,
        0x0000_0080,
        0x0000_00ff,
        0x0000_0100,
        0x0000_7fff,
        0x0000_8000,
        0x0000_ffff,
        0x0001_0000,
        0x0100_0000,
        0x7fff_fffe,
        0x7fff_ffff,
        0x8000_0000,
        0x8000_0001,
        0xffff_7fff,
        0xffff_8000,
        0xffff_ff80,
        0xffff_fffe,
        0xffff_ffff,
    ]
}

/// Lists interesting values of an i64, as [`integers32`] does of an i32.
pub(crate) fn integers64<'a>() -> &'a [u64]
    ensures { result.now ≡ integers64 }
{
    &[
        0x0000_0000_0000_0000,
        0x0000_0000_0000_0001,
        0x0000_0000_0000_0002,
        0x0000_0000_0000_0008,
        0x0000_0000_0000_001f,
        0x0000_0000_0000_0020,
        0x0000_0000_0000_003f,
        0x0000_0000_0000_0040,
        0x0000_0000_0000_0041,
        0x0000_0000_0000_007f,
        0x0000_0000_0000_0080,
        0x0000_0000_0000_00ff,
        0x0000_0000_0000_7fff,
        0x0000_0000_0000_8000,
        0x0000_0000_0000_ffff,
        0x0000_0000_0001_0000,
        0x0000_0000_7fff_ffff,
        0x0000_0000_8000_0000,
        0x0000_0000_ffff_ffff,
        0x0000_0001_0000_0000,
        0x0020_0000_0000_0000,
        0x4000_0000_0000_0000,
        0x7fff_ffff_ffff_fffe,
        0x7fff_ffff_ffff_ffff,
        0x8000_0000_0000_0000,
        0x8000_0000_0000_0001,
        0xffff_ffff_7fff_ffff,
        0xffff_ffff_8000_0000,
        0xffff_ffff_ffff_8000,
        0xffff_ffff_ffff_ff80,
        0xffff_ffff_ffff_fffe,
        0xffff_ffff_ffff_ffff,
    ]
}

/// Lists the bits of interesting values of an f32: zeros, ones, infinities, NaNs, subnormal numbers,
/// the least normal number, the greatest ones, and numbers at the limits of integers.
pub(crate) fn floats<'a>() -> &'a [u32]
    ensures { result.now ≡ floats }
{
    &[
        0x0000_0000,
        0x8000_0000,
        0x3f80_0000,
        0xbf80_0000,
        0x7f80_0000,
        0xff80_0000,
        0x7fc0_0000,
        0xffc0_0000,
        0x7fa0_0000,
        0xffa0_0001,
        0x7fff_ffff,
        0x0000_0001,
        0x8000_0001,
        0x007f_ffff,
        0x0080_0000,
        0x7f7f_ffff,
        0xff7f_ffff,
        0x3f00_0000,
        0xbf7f_ffff,
        0x3fc0_0000,
        0x4b80_0000,
        0x4eff_ffff,
        0x4f00_0000,
        0xcf00_0000,
        0xcf00_0001,
        0x4f7f_ffff,
        0x4f80_0000,
        0x5eff_ffff,
        0x5f00_0000,
        0xdf00_0000,
        0x5f7f_ffff,
        0x5f80_0000,
    ]
}

/// Lists the bits of interesting values of an f64, as [`floats`] does of an f32.
pub(crate) fn doubles<'a>() -> &'a [u64]
    ensures { result.now ≡ doubles }
{
    &[
        0x0000_0000_0000_0000,
        0x8000_0000_0000_0000,
        0x3ff0_0000_0000_0000,
        0xbff0_0000_0000_0000,
        0x7ff0_0000_0000_0000,
        0xfff0_0000_0000_0000,
        0x7ff8_0000_0000_0000,
        0xfff8_0000_0000_0000,
        0x7ff4_0000_0000_0000,
        0xfff4_0000_0000_0001,
        0x7fff_ffff_ffff_ffff,
        0x0000_0000_0000_0001,
        0x8000_0000_0000_0001,
        0x000f_ffff_ffff_ffff,
        0x0010_0000_0000_0000,
        0x7fef_ffff_ffff_ffff,
        0xffef_ffff_ffff_ffff,
        0x3fe0_0000_0000_0000,
        0xbfef_ffff_ffff_ffff,
        0x3ff8_0000_0000_0000,
        0x4340_0000_0000_0000,
        0x41df_ffff_ffc0_0000,
        0x41e0_0000_0000_0000,
        0xc1e0_0000_0000_0000,
        0xc1e0_0000_0020_0000,
        0x41ef_ffff_ffe0_0000,
        0x41f0_0000_0000_0000,
        0x43df_ffff_ffff_ffff,
        0x43e0_0000_0000_0000,
        0xc3e0_0000_0000_0000,
        0x43ef_ffff_ffff_ffff,
        0x43f0_0000_0000_0000,
    ]
}

/// Lists the bits of zero and one of an f32, with both signs.
pub(crate) fn small_floats<'a>() -> &'a [u32]
    ensures { result.now ≡ small_floats }
{
    &[0x0000_0000, 0x8000_0000, 0x3f80_0000, 0xbf80_0000]
}

/// Lists the bits of zero and one of an f64, with both signs.
pub(crate) fn small_doubles<'a>() -> &'a [u64]
    ensures { result.now ≡ small_doubles }
{
    &[
        0x0000_0000_0000_0000,
        0x8000_0000_0000_0000,
        0x3ff0_0000_0000_0000,
        0xbff0_0000_0000_0000,
    ]
}
