use crate::answer_lines::{write_line, write_pair};
use smith_bytes::Unstructured;
use smith_case::arguments::value;
use smith_case::call::NumberCall;
use smith_case::{Case, Fault, Obstacle};
use smith_draw::{arbitrary_limits64, arbitrary_offset, gradually_grow};

/// Appends the numbers that `call` draws: a number from the first argument to the third, mostly up
/// to the second; limits from the first argument to the second, the minimum mostly up to the third,
/// with a maximum if the fourth argument requires one; or the offset of a segment of the size of
/// the third argument, in a table or memory with the limits of the first two.
pub(crate) fn answer_number(
    case: &Case,
    call: NumberCall,
    u: &mut Unstructured<'_>,
    answer: &mut String,
) -> Result<(), Fault> {
    let is_required = match call {
        NumberCall::Limits64 => value(case, 3)?,
        _ => false,
    };
    let (first, second, third) = (value(case, 0)?, value(case, 1)?, value(case, 2)?);
    let drawn = match call {
        NumberCall::GraduallyGrow if first <= second && second <= third => {
            (gradually_grow(first, second, third, u), None)
        }
        NumberCall::Limits64 if first <= third && third <= second => {
            arbitrary_limits64(first, second, is_required, third, u)
        }
        NumberCall::Offset if first <= second => {
            (arbitrary_offset(first, second, third as usize, u), None)
        }
        _ => return Err(Fault::NotCallable(Obstacle::Disorder)),
    };
    match drawn {
        (least, Some(most)) => write_pair(least, most, answer),
        (least, None) => write_line(least, answer),
    }
}
