ghost use Rattle.std.specs.Prelude.{◌≡◌, false, is_err, OnOk};
ghost use Rattle.smith_text.specs.Written.{Keeps};

use crate::sink::Sink;
use std::fmt;

// The parts of a binary floating-point number.
#[derive(Drop)]
struct Float {
    is_negative: bool,
    // The exponent as it is stored, and the one of infinities and NaNs.
    exponent: i32,
    greatest: i32,
    // The bias of the stored exponent.
    bias: i32,
    // The stored bits of the significand.
    significand: u64,
    // The hexadecimal digits of the significand, and their number.
    fraction: u64,
    digits: u32,
}

// Writes the digits of a fraction with their point, without zeros at the end, or nothing for a
// fraction of 0.
fn write_fraction<S: Sink>(fraction: u64, digits: u32, sink: &mut S) -> fmt::Result
    requires open { S.failed sink.old ≡ false }
    ensures fault { S.failed sink.new ≡ is_err result }
    ensures keeps { OnOk result (Keeps S.has sink.old sink.new) }
{
    if fraction == 0 {
        return Ok(());
    }
    let zeros = fraction.trailing_zeros() / 4;
    let width = digits.saturating_sub(zeros) as usize;
    let shown = fraction.checked_shr(4 * zeros).unwrap_or(0);
    write!(sink, ".{shown:0width$x}")
}

// Writes a number without its sign. The section Text Format, Floating-Point.
fn write_magnitude<S: Sink>(float: &Float, sink: &mut S) -> fmt::Result
    requires open { S.failed sink.old ≡ false }
    ensures fault { S.failed sink.new ≡ is_err result }
    ensures keeps { OnOk result (Keeps S.has sink.old sink.new) }
{
    if float.exponent == float.greatest {
        return match float.significand {
            0 => sink.write_str("inf"),
            payload => write!(sink, "nan:0x{payload:x}"),
        };
    }
    let (whole, exponent) = match (float.exponent, float.significand) {
        (0, 0) => (0, 0),
        (0, _) => (0, 1i32.saturating_sub(float.bias)),
        (stored, _) => (1, stored.saturating_sub(float.bias)),
    };
    write!(sink, "0x{whole}")?;
    write_fraction(float.fraction, float.digits, sink)?;
    write!(sink, "p{exponent:+}")
}

fn write_float<S: Sink>(float: &Float, sink: &mut S) -> fmt::Result
    requires open { S.failed sink.old ≡ false }
    ensures fault { S.failed sink.new ≡ is_err result }
    ensures keeps { OnOk result (Keeps S.has sink.old sink.new) }
{
    sink.write_str(if float.is_negative { " -" } else { " " })?;
    write_magnitude(float, sink)
}

/// Writes, after a space, the number of 32 bits whose bits are `bits`: a hexadecimal number that is
/// equal, an infinity, or a NaN with its payload.
pub(crate) fn write_f32<S: Sink>(bits: u32, sink: &mut S) -> fmt::Result
    requires open { S.failed sink.old ≡ false }
    ensures fault { S.failed sink.new ≡ is_err result }
    ensures keeps { OnOk result (Keeps S.has sink.old sink.new) }
{
    let significand = u64::from(bits & 0x007f_ffff);
    let float = Float {
        is_negative: bits >> 31 == 1,
        exponent: ((bits >> 23) & 0xff) as i32,
        greatest: 0xff,
        bias: 127,
        significand,
        fraction: significand << 1,
        digits: 6,
    };
    write_float(&float, sink)
}

/// Writes the number of 64 bits whose bits are `bits`, as [`write_f32`] does.
pub(crate) fn write_f64<S: Sink>(bits: u64, sink: &mut S) -> fmt::Result
    requires open { S.failed sink.old ≡ false }
    ensures fault { S.failed sink.new ≡ is_err result }
    ensures keeps { OnOk result (Keeps S.has sink.old sink.new) }
{
    let significand = bits & 0x000f_ffff_ffff_ffff;
    let float = Float {
        is_negative: bits >> 63 == 1,
        exponent: ((bits >> 52) & 0x7ff) as i32,
        greatest: 0x7ff,
        bias: 1023,
        significand,
        fraction: significand,
        digits: 13,
    };
    write_float(&float, sink)
}
