ghost use Rattle.std.specs.Prelude.{◌≡◌};
ghost use Rattle.smith_bytes.specs.Source.{KeepsPieces};
ghost use Rattle.smith_body_leaves.specs.Constants.{alternating, double_at, float_at, halves};
ghost use Rattle.smith_body_leaves.specs.Constants.{integer32_at, integer64_at, lanes_at, vector_at};

use crate::constant_tables::{
    ConstantWay, LaneFamily, constant_ways, doubles, floats, integers32, integers64, lane_families,
    small_doubles, small_floats,
};
use smith_bytes::Unstructured;
use smith_draw_types::choose;

/// Draws an i32: a byte with its sign, an interesting value, or any.
pub(crate) fn draw_integer32(u: &mut Unstructured<'_>) -> i32
    ensures exact { integer32_at u.old ≡ (result, u.new) }
    ensures left { KeepsPieces u.old u.new }
{
    match choose(constant_ways(), u) {
        ConstantWay::Small => i32::from(u.arbitrary::<u8>().cast_signed()),
        ConstantWay::Interesting => choose(integers32(), u).cast_signed(),
        ConstantWay::Whole => u.arbitrary(),
    }
}

/// Draws an i64: a byte with its sign, an interesting value, or any.
pub(crate) fn draw_integer64(u: &mut Unstructured<'_>) -> i64
    ensures exact { integer64_at u.old ≡ (result, u.new) }
    ensures left { KeepsPieces u.old u.new }
{
    match choose(constant_ways(), u) {
        ConstantWay::Small => i64::from(u.arbitrary::<u8>().cast_signed()),
        ConstantWay::Interesting => choose(integers64(), u).cast_signed(),
        ConstantWay::Whole => u.arbitrary(),
    }
}

/// Draws the bits of an f32: of zero or one with a sign, of an interesting value, or any.
pub(crate) fn draw_float(u: &mut Unstructured<'_>) -> u32
    ensures exact { float_at u.old ≡ (result, u.new) }
    ensures left { KeepsPieces u.old u.new }
{
    match choose(constant_ways(), u) {
        ConstantWay::Small => choose(small_floats(), u),
        ConstantWay::Interesting => choose(floats(), u),
        ConstantWay::Whole => u.arbitrary(),
    }
}

/// Draws the bits of an f64: of zero or one with a sign, of an interesting value, or any.
pub(crate) fn draw_double(u: &mut Unstructured<'_>) -> u64
    ensures exact { double_at u.old ≡ (result, u.new) }
    ensures left { KeepsPieces u.old u.new }
{
    match choose(constant_ways(), u) {
        ConstantWay::Small => choose(small_doubles(), u),
        ConstantWay::Interesting => choose(doubles(), u),
        ConstantWay::Whole => u.arbitrary(),
    }
}

/// Draws a vector: a byte, interesting lanes, or any.
pub(crate) fn draw_vector(u: &mut Unstructured<'_>) -> i128
    ensures exact { vector_at u.old ≡ (result, u.new) }
    ensures left { KeepsPieces u.old u.new }
{
    match choose(constant_ways(), u) {
        ConstantWay::Small => i128::from(u.arbitrary::<u8>()),
        ConstantWay::Interesting => draw_lanes(u).cast_signed(),
        ConstantWay::Whole => u.arbitrary(),
    }
}

/// Draws the bits of a vector with the same byte or the same i32 in each lane, with two i64 or two
/// f64, or with two f32 that alternate.
fn draw_lanes(u: &mut Unstructured<'_>) -> u128
    ensures exact { lanes_at u.old ≡ (result, u.new) }
    ensures left { KeepsPieces u.old u.new }
{
    match choose(lane_families(), u) {
        LaneFamily::Bytes => u128::from(u.arbitrary::<u8>()) * SAME_BYTES,
        LaneFamily::Integers32 => {
            let number = choose(integers32(), u);
            alternate(number, number)
        }
        LaneFamily::Integers64 => {
            let low = choose(integers64(), u);
            let high = choose(integers64(), u);
            join(low, high)
        }
        LaneFamily::Floats => {
            let low = choose(floats(), u);
            let high = choose(floats(), u);
            alternate(low, high)
        }
        LaneFamily::Doubles => {
            let low = choose(doubles(), u);
            let high = choose(doubles(), u);
            join(low, high)
        }
    }
}

/// A vector with 1 in each byte.
const SAME_BYTES: u128 = 0x0101_0101_0101_0101_0101_0101_0101_0101;

/// Returns the bits of a vector of two halves.
fn join(low: u64, high: u64) -> u128
    ensures { result ≡ halves low high }
{
    u128::from(low) + u128::from(high) * 0x1_0000_0000_0000_0000
}

/// Returns the bits of a vector in whose lanes two numbers alternate.
fn alternate(low: u32, high: u32) -> u128
    ensures { result ≡ alternating low high }
{
    let half = u64::from(low) + u64::from(high) * 0x1_0000_0000;
    join(half, half)
}
