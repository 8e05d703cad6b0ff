ghost use Rattle.std.specs.Prelude.{◌≡◌, ◌≤◌, true, IfSome, IsSome};
ghost use Rattle.smith_draw_types.specs.Drawing.{AlwaysDraws};
ghost use Rattle.smith_draw_types.specs.Limits.{scaled, sixth_power, gradual, gradually_at, limits64_at};

use smith_bytes::Unstructured;

/// Returns `n * x / u32::MAX`, rounded down.
#[tactic(auto, unfolding(crate::specs::Limits::scaled))]
fn scale(n: u64, x: u32) -> u64
    ensures exact { result ≡ scaled n x }
    ensures within { result ≤ n }
{
    (u128::from(n) * u128::from(x) / u128::from(u32::MAX)) as u64
}

fn scale_u32(n: u32, x: u32) -> u32
    ensures exact { result ≡ scaled n x }
    ensures within { result ≤ n }
{
    scale(u64::from(n), x) as u32
}

#[tactic(auto, unfolding(crate::specs::Limits::sixth_power))]
fn raise(x: u32) -> u32
    ensures exact { result ≡ sixth_power x }
{
    let square = scale_u32(x, x);
    let cube = scale_u32(square, x);
    scale_u32(scale_u32(scale_u32(cube, x), x), x)
}

#[tactic(auto, unfolding(crate::specs::Limits::gradual))]
fn grow_by(min: u64, inbounds: u64, max: u64, x: u32) -> u64
    requires low { min ≤ inbounds }
    requires high { inbounds ≤ max }
    ensures exact { result ≡ gradual min inbounds max x }
    ensures above { min ≤ result }
    ensures within { result ≤ max }
{
    if 1000 * u64::from(x) < 995 * u64::from(u32::MAX) {
        min + scale(inbounds - min, raise(x))
    } else {
        min + scale(max - min, x)
    }
}

/// Draws a number between `min` and `max`, mostly near `min` and at most `inb`. Requires `inb` to
/// be between `min` and `max`.
#[tactic(auto, unfolding(crate::specs::Limits::gradually_at))]
pub fn gradually_grow(min: u64, inb: u64, max: u64, u: &mut Unstructured<'_>) -> u64
    requires low { min ≤ inb }
    requires high { inb ≤ max }
    ensures draws { AlwaysDraws (gradually_at min inb max u.old) result u.old u.new }
    ensures above { min ≤ result }
    ensures within { result ≤ max }
{
    if min == max {
        return min;
    }
    let x: u32 = u.arbitrary();
    grow_by(min, inb, max, x)
}

/// Draws limits: a minimum between `least` and `most`, and a maximum between that minimum and
/// `most`. See the standard, section Structure, Limits.
///
/// The minimum is drawn by [`gradually_grow`], and is mostly at most `inbounds`. If `required` is
/// `false`, a bool is drawn to decide whether there is a maximum.
///
/// Requires `inbounds` to be between `least` and `most`.
#[tactic(auto, unfolding(crate::specs::Limits::limits64_at))]
pub fn arbitrary_limits64(
    least: u64,
    most: u64,
    required: bool,
    inbounds: u64,
    u: &mut Unstructured<'_>,
) -> (u64, Option<u64>)
    requires low { least ≤ inbounds }
    requires high { inbounds ≤ most }
    ensures draws { AlwaysDraws (limits64_at least most required inbounds u.old)
        result u.old u.new }
    ensures minimum { (least ≤ result.0) × (result.0 ≤ most) }
    ensures maximum { IfSome result.1 (λ maximum. (result.0 ≤ maximum) × (maximum ≤ most)) }
    ensures required { required ≡ true → IsSome result.1 }
{
    let minimum = gradually_grow(least, inbounds, most, u);
    if required || u.arbitrary() {
        return (minimum, Some(u.int_in_range(minimum..=most)));
    }
    (minimum, None)
}
