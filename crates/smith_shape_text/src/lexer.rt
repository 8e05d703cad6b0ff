use crate::fault::{Fault, TextFault};
use std::alloc::Global;

/// The kind of a token.
#[derive(Clone, Copy, Debug, PartialEq, Eq)]
pub(crate) enum Kind {
    /// An opening parenthesis.
    Open,
    /// A closing parenthesis.
    Close,
    /// A keyword, a number, an identifier or a reserved word.
    Word,
    /// A string.
    Text,
}

/// A token of a text (Tokens): its kind, and its first byte and the one after its last, counted from 0.
#[derive(Clone, Copy, Debug)]
pub(crate) struct Token {
    pub(crate) kind: Kind,
    pub(crate) start: usize,
    pub(crate) end: usize,
}

// The open construct before a byte.
#[derive(Clone, Copy)]
enum State {
    // Nothing.
    Between,
    // A word that begins at this byte.
    Word(usize),
    // A string that begins at this byte, and whether its last character is a backslash that is not escaped.
    Text(usize, bool),
    // A comment to the end of the line.
    Line,
    // Block comments that begin at this byte: how many, and the byte before, or 0 if it is used.
    Block(usize, usize, u8),
}

/// Returns the tokens of `text`, without white space and comments (Lexical Format). Words and strings need
/// no white space between them.
pub(crate) fn tokens_of(alloc: Global, text: &[u8]) -> Result<Vec<Token>, Fault> {
    let mut tokens = Vec::new(alloc);
    let mut state = State::Between;
    for (place, byte) in text.iter().enumerate() {
        let next = text.get(place.saturating_add(1)).copied().unwrap_or(b'\n');
        state = step(&mut tokens, state, place, *byte, next)?;
    }
    finish(&mut tokens, state, text.len())?;
    Ok(tokens)
}

// Ends the text after its last byte.
fn finish(tokens: &mut Vec<Token>, state: State, end: usize) -> Result<(), Fault> {
    match state {
        State::Between | State::Line => Ok(()),
        State::Word(start) => push(tokens, Kind::Word, start, end),
        State::Text(offset, _) => Err(Fault {
            reason: TextFault::OpenString,
            offset,
        }),
        State::Block(offset, _, _) => Err(Fault {
            reason: TextFault::OpenComment,
            offset,
        }),
    }
}

fn push(tokens: &mut Vec<Token>, kind: Kind, start: usize, end: usize) -> Result<(), Fault> {
    tokens.push(Token { kind, start, end })?;
    Ok(())
}

// Reads the byte `byte` at `place`, with `next` after it.
fn step(
    tokens: &mut Vec<Token>,
    state: State,
    place: usize,
    byte: u8,
    next: u8,
) -> Result<State, Fault> {
    match state {
        State::Between => begin(tokens, place, byte, next),
        State::Word(start) => {
            if is_word_character(byte) {
                return Ok(State::Word(start));
            }
            push(tokens, Kind::Word, start, place)?;
            begin(tokens, place, byte, next)
        }
        State::Text(start, true) => Ok(State::Text(start, false)),
        State::Text(start, false) => in_text(tokens, start, place, byte),
        State::Line => Ok(if byte == b'\n' || byte == b'\r' {
            State::Between
        } else {
            State::Line
        }),
        State::Block(start, depth, before) => Ok(in_block(start, depth, before, byte)),
    }
}

// Reads the byte `byte` at `place` of a string that begins at `start`.
fn in_text(tokens: &mut Vec<Token>, start: usize, place: usize, byte: u8) -> Result<State, Fault> {
    match byte {
        b'"' => {
            push(tokens, Kind::Text, start, place.saturating_add(1))?;
            Ok(State::Between)
        }
        b'\\' => Ok(State::Text(start, true)),
        0x00..=0x1F | 0x7F => Err(Fault {
            reason: TextFault::Escape,
            offset: place,
        }),
        _ => Ok(State::Text(start, false)),
    }
}

// Reads the byte `byte` of `depth` block comments, after the byte `before`.
fn in_block(start: usize, depth: usize, before: u8, byte: u8) -> State {
    match (before, byte) {
        (b'(', b';') => State::Block(start, depth.saturating_add(1), 0),
        (b';', b')') => {
            if depth <= 1 {
                State::Between
            } else {
                State::Block(start, depth.saturating_sub(1), 0)
            }
        }
        _ => State::Block(start, depth, byte),
    }
}

// Reads the byte `byte` at `place`, with `next` after it, where nothing is open.
fn begin(tokens: &mut Vec<Token>, place: usize, byte: u8, next: u8) -> Result<State, Fault> {
    match (byte, next) {
        (b' ' | b'\t' | b'\n' | b'\r', _) => return Ok(State::Between),
        (b'(', b';') => return Ok(State::Block(place, 0, byte)),
        (b';', b';') => return Ok(State::Line),
        (b'"', _) => return Ok(State::Text(place, false)),
        _ => {}
    }
    let end = place.saturating_add(1);
    match byte {
        b'(' => push(tokens, Kind::Open, place, end)?,
        b')' => push(tokens, Kind::Close, place, end)?,
        _ if is_word_character(byte) => return Ok(State::Word(place)),
        _ => {
            return Err(Fault {
                reason: TextFault::Character,
                offset: place,
            });
        }
    }
    Ok(State::Between)
}

// Returns whether `byte` is a character of words: of identifiers, keywords and numbers (Identifiers).
fn is_word_character(byte: u8) -> bool {
    match byte {
        b'"' | b',' | b';' | b'(' | b')' | b'[' | b']' | b'{' | b'}' => false,
        _ => (0x21..=0x7E).contains(&byte),
    }
}
