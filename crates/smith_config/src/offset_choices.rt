ghost use Rattle.std.specs.Prelude.{◌≡◌, ◌↔◌, IsTrue};
ghost use Rattle.smith_config.specs.OffsetChoices.{default_choices, zero_choices, AreReadChoices};

use std::str::FromStr;
use thiserror::Error;

/// Weights for the position of the offset of a memory access: below the minimum size of the memory,
/// between its minimum and its maximum, or past its maximum. Each weight is relative to the sum of
/// the three. Defaults to (90, 9, 1).
///
/// As text, the weights are listed in the order of the fields, separated by commas.
#[derive(Clone, Copy, Debug, PartialEq, Eq)]
pub struct MemoryOffsetChoices(pub u32, pub u32, pub u32);

/// The error of parsing a [`MemoryOffsetChoices`].
#[derive(Clone, Copy, Debug, PartialEq, Eq, Error)]
pub enum OffsetChoicesFault {
    /// The text has fewer than three parts, and all of them are numbers.
    #[error("need three numbers between commas")]
    NeedThree,
    /// The part at this position, counted from 0, is not a number below `2^32`.
    #[error("part {0} isn't a number of 32 bits")]
    Number(usize),
    /// The text has more than three parts, and the first three are numbers.
    #[error("more than three parts")]
    TooMany,
    /// All three numbers are zero.
    #[error("one of the three must be above zero")]
    AllZero,
}

impl Default for MemoryOffsetChoices {
    ghost is_default = { λ choices. choices ≡ default_choices };

    fn default() -> MemoryOffsetChoices {
        MemoryOffsetChoices(90, 9, 1)
    }
}

impl FromStr for MemoryOffsetChoices {
    type Err = OffsetChoicesFault;

    ghost from_str_gives = { AreReadChoices };

    fn from_str(s: &str) -> Result<MemoryOffsetChoices, OffsetChoicesFault> {
        let mut numbers = [0; 3];
        let mut place = 0;
        for part in s.split(',') {
            if place == 3 {
                return Err(OffsetChoicesFault::TooMany);
            }
            match u32::from_str(part) {
                Ok(number) => numbers[place] = number,
                Err(_) => return Err(OffsetChoicesFault::Number(place)),
            }
            place += 1;
        }
        if place < 3 {
            return Err(OffsetChoicesFault::NeedThree);
        }
        let choices = MemoryOffsetChoices(numbers[0], numbers[1], numbers[2]);
        if choices.are_zero() {
            return Err(OffsetChoicesFault::AllZero);
        }
        Ok(choices)
    }
}

impl MemoryOffsetChoices {
    fn are_zero(&self) -> bool
        ensures { IsTrue result ↔ (self.now ≡ zero_choices) }
    {
        matches!(self, MemoryOffsetChoices(0, 0, 0))
    }
}
