use crate::cursor::Cursor;
use crate::fault::{Fault, TextFault};

/// Returns the whole number that `word` spells in decimal or hexadecimal digits, with underscores
/// between them, if it is below 2^64 (Integers).
pub(crate) fn number_of(word: &[u8]) -> Option<u64> {
    match word {
        [b'0', b'x', digits @ ..] => number_in(digits, 16),
        digits => number_in(digits, 10),
    }
}

// Returns the number that `digits` spell in the base `base`.
fn number_in(digits: &[u8], base: u64) -> Option<u64> {
    let mut value = 0u64;
    let mut is_after_digit = false;
    for byte in digits {
        if *byte == b'_' && is_after_digit {
            is_after_digit = false;
        } else {
            let digit = digit_of(*byte)?;
            if digit >= base {
                return None;
            }
            value = value.checked_mul(base)?.checked_add(digit)?;
            is_after_digit = true;
        }
    }
    if is_after_digit { Some(value) } else { None }
}

/// Returns the value of a hexadecimal digit.
pub(crate) fn digit_of(byte: u8) -> Option<u64> {
    match byte {
        b'0'..=b'9' => Some(u64::from(byte - b'0')),
        b'a'..=b'f' => Some(u64::from(byte - b'a' + 10)),
        b'A'..=b'F' => Some(u64::from(byte - b'A' + 10)),
        _ => None,
    }
}

impl Cursor<'_> {
    /// Returns whether the next token begins with a digit.
    pub(crate) fn is_number(&self) -> bool {
        match self.word() {
            [b'0'..=b'9', ..] => true,
            _ => false,
        }
    }

    /// Reads a whole number below 2^64.
    pub(crate) fn number(&mut self) -> Result<u64, Fault> {
        match number_of(self.word()) {
            Some(value) => {
                self.skip();
                Ok(value)
            }
            None => Err(self.fault(TextFault::Number)),
        }
    }

    /// Reads a whole number below 2^64, if one is next.
    pub(crate) fn optional_number(&mut self) -> Result<Option<u64>, Fault> {
        if !self.is_number() {
            return Ok(None);
        }
        let value = self.number()?;
        Ok(Some(value))
    }
}
