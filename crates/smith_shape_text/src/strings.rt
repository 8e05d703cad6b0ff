use crate::fault::{Fault, TextFault};
use crate::numbers::digit_of;
use crate::reading::Reading;
use smith_types::Name;

// The open escape before a byte of a string.
#[derive(Clone, Copy)]
enum State {
    // Nothing.
    Plain,
    // A backslash.
    Escape,
    // A backslash and a digit of this value.
    Digit(u64),
    // A backslash and a `u`.
    Brace,
    // A backslash, a `u`, an opening brace and digits of this value, if there are any.
    Scalar(Option<u64>),
}

// Appends `byte` to `made`, and returns that nothing is open.
fn push(made: &mut Vec<u8>, byte: u8) -> Result<Option<State>, Fault> {
    made.push(byte)?;
    Ok(Some(State::Plain))
}

// Reads the byte `byte` of a string. Returns nothing if it is not part of a character (Strings).
fn step(made: &mut Vec<u8>, state: State, byte: u8) -> Result<Option<State>, Fault> {
    match state {
        State::Plain => match byte {
            b'\\' => Ok(Some(State::Escape)),
            _ => push(made, byte),
        },
        State::Escape => escape(made, byte),
        State::Digit(high) => match digit_of(byte) {
            Some(low) => push(made, byte_of(high, low)),
            None => Ok(None),
        },
        State::Brace => Ok(match byte {
            b'{' => Some(State::Scalar(None)),
            _ => None,
        }),
        State::Scalar(value) => match byte {
            b'}' => push_scalar(made, value),
            _ => Ok(longer(value, byte)),
        },
    }
}

// Returns the byte of two hexadecimal digits.
fn byte_of(high: u64, low: u64) -> u8 {
    ((high % 16) * 16 + low % 16) as u8
}

// Reads the byte `byte` after a backslash.
fn escape(made: &mut Vec<u8>, byte: u8) -> Result<Option<State>, Fault> {
    match byte {
        b't' => push(made, b'\t'),
        b'n' => push(made, b'\n'),
        b'r' => push(made, b'\r'),
        b'"' | b'\'' | b'\\' => push(made, byte),
        b'u' => Ok(Some(State::Brace)),
        _ => Ok(match digit_of(byte) {
            Some(high) => Some(State::Digit(high)),
            None => None,
        }),
    }
}

// Returns the state after the digit `byte`, with digits of the value `value` before it.
fn longer(value: Option<u64>, byte: u8) -> Option<State> {
    let digit = digit_of(byte)?;
    let before = value.unwrap_or(0);
    let value = before.checked_mul(16)?.checked_add(digit)?;
    Some(State::Scalar(Some(value)))
}

// Appends the character of the scalar value `value`, if there is one.
fn push_scalar(made: &mut Vec<u8>, value: Option<u64>) -> Result<Option<State>, Fault> {
    let Some(character) = character_of(value) else {
        return Ok(None);
    };
    let mut buffer = [0u8; 4];
    let text = character.encode_utf8(&mut buffer);
    made.extend_from_slice(text.as_bytes())?;
    Ok(Some(State::Plain))
}

// Returns the character of the scalar value `value`, if there is one.
fn character_of(value: Option<u64>) -> Option<char> {
    match u32::try_from(value?) {
        Ok(code) => char::from_u32(code),
        Err(_) => None,
    }
}

impl Reading<'_> {
    /// Reads a string (Strings).
    pub(crate) fn string(&mut self) -> Result<Vec<u8>, Fault> {
        let Some(quoted) = self.cursor.string() else {
            return Err(self.cursor.fault(TextFault::NoString));
        };
        let escape = self.cursor.fault(TextFault::Escape);
        let inside = quoted.get(1..quoted.len().saturating_sub(1)).unwrap_or(&[]);
        let mut made = Vec::new(self.alloc);
        let mut state = State::Plain;
        for byte in inside {
            match step(&mut made, state, *byte)? {
                Some(next) => state = next,
                None => return Err(escape),
            }
        }
        self.cursor.skip();
        match state {
            State::Plain => Ok(made),
            _ => Err(escape),
        }
    }

    /// Reads a name: a string in UTF-8 (Names).
    pub(crate) fn name(&mut self) -> Result<Name, Fault> {
        let fault = self.cursor.fault(TextFault::Name);
        let bytes = self.string()?;
        match String::from_utf8(bytes) {
            Ok(text) => Ok(Name::from_string(text)),
            Err(_) => Err(fault),
        }
    }
}
