ghost use Rattle.std.specs.Prelude.{◌≡◌};
ghost use Rattle.smith_bytes.specs.Source.{KeepsPieces};
ghost use Rattle.smith_body.specs.Operands.{address_constant, mask_of, masking, number_at};
ghost use Rattle.smith_body.specs.Operands.{operand_ways};

use smith_bytes::Unstructured;
use smith_instr::{Instr, IntBinary, NumericInstr};

/// How an operand that has a limit is drawn.
#[derive(Clone, Copy)]
pub(crate) enum OperandWay {
    /// A constant at a place.
    Constant(Place),
    /// A value whose upper bits are cleared.
    Masked,
    /// Any value.
    Unlimited,
}

/// Where a constant is among the numbers below a limit and next to it.
#[derive(Clone, Copy)]
pub(crate) enum Place {
    /// One of the first 16.
    Start,
    /// Any below the limit.
    Inside,
    /// One of the last 12 below the limit or the first 4 from there on.
    Edge,
}

/// Lists the ways to draw an operand, each as often as its weight.
pub(crate) fn operand_ways<'a>() -> &'a [OperandWay]
    ensures { result.now ≡ operand_ways }
{
    &[
        OperandWay::Constant(Place::Start),
        OperandWay::Constant(Place::Start),
        OperandWay::Constant(Place::Start),
        OperandWay::Constant(Place::Inside),
        OperandWay::Constant(Place::Edge),
        OperandWay::Masked,
        OperandWay::Masked,
        OperandWay::Unlimited,
    ]
}

/// Draws a number at a `place` below `limit` or next to it.
pub(crate) fn draw_number(place: Place, limit: u64, u: &mut Unstructured<'_>) -> u64
    ensures exact { number_at place limit u.old ≡ (result, u.new) }
    ensures left { KeepsPieces u.old u.new }
{
    let last = limit.saturating_sub(1);
    match place {
        Place::Start => u.int_in_range(0..=last.min(15)),
        Place::Inside => u.int_in_range(0..=last),
        Place::Edge => u.int_in_range(limit.saturating_sub(12)..=limit.saturating_add(3)),
    }
}

/// Returns the constant of an address: of 64 bits if `wide` is set, else the lower 32 bits of
/// `number`.
pub(crate) fn address_constant(wide: bool, number: u64) -> Instr
    ensures { result ≡ address_constant wide number }
{
    if wide {
        return Instr::I64Const(number.cast_signed());
    }
    Instr::I32Const(((number % 0x1_0000_0000) as u32).cast_signed())
}

/// Returns the `and` of two addresses: of 64 bits if `wide` is set, else of 32 bits.
pub(crate) fn masking(wide: bool) -> Instr
    ensures { result ≡ masking wide }
{
    if wide {
        return Instr::Numeric(NumericInstr::I64Binary(IntBinary::And));
    }
    Instr::Numeric(NumericInstr::I32Binary(IntBinary::And))
}

/// Returns the greatest number below `limit` whose binary digits are all ones.
pub(crate) fn mask_of(limit: u64) -> u64
    ensures { result ≡ mask_of limit }
{
    (1 << 63_u32.saturating_sub(limit.leading_zeros())) - 1
}
