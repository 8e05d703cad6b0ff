use crate::case::{Case, Wanted, list};
use crate::fault::Fault;
use std::fmt;

/// The first difference of an answer from the wanted one.
#[derive(Clone, Copy, Drop)]
pub enum Difference<'a> {
    /// The kind of the answer is none of those allowed.
    Kind(&'a str),
    /// Another line at this place, from 1.
    Line {
        /// The place of the line.
        place: usize,
        /// The line that is wanted, empty past the last.
        wanted: &'a str,
        /// The line of the answer, empty past the last.
        given: &'a str,
    },
    /// A text that is missing, or that must not be there.
    Text {
        /// What is wrong: `no line`, `no piece` or `a piece`.
        what: &'static str,
        /// The line or the piece.
        text: &'a str,
    },
}

impl fmt::Display for Difference<'_> {
    fn fmt<W: fmt::Write>(&self, f: &mut fmt::Formatter<W>) -> fmt::Result {
        match *self {
            Difference::Kind(given) => write!(f, "the answer is {given}"),
            Difference::Line {
                place,
                wanted,
                given,
            } => write!(f, "line {place} is {given:?}, and {wanted:?} is wanted"),
            Difference::Text { what, text } => write!(f, "{what} {text:?}"),
        }
    }
}

/// Checks that `case` wants an answer, lines, pieces or kinds, and that it has no empty list, no
/// blank text, no answer that begins with a line for all further lines, and no line after such a
/// line.
///
/// # Errors
///
/// Returns `WantsNothing`, `WantsUnread` or `EmptyPiece`.
pub fn check_wanted(case: &Case) -> Result<(), Fault> {
    let wanted = &case.wanted;
    let answer = list(&wanted.answer);
    if wants_nothing(wanted) || begins_with_anything(answer) {
        return Err(Fault::WantsNothing);
    }
    if goes_past_anything(answer) {
        return Err(Fault::WantsUnread);
    }
    check_texts(&wanted.answer)
        .and(check_texts(&wanted.lines))
        .and(check_texts(&wanted.pieces))
        .and(check_texts(&wanted.absent))
        .and(check_texts(&wanted.may))
}

fn wants_nothing(wanted: &Wanted) -> bool {
    wanted.answer.is_none()
        && wanted.lines.is_none()
        && wanted.pieces.is_none()
        && wanted.may.is_none()
}

// Checks that `texts` is no empty list, and has no blank text.
fn check_texts(texts: &Option<Vec<String>>) -> Result<(), Fault> {
    let Some(texts) = texts else {
        return Ok(());
    };
    if texts.is_empty() {
        return Err(Fault::WantsNothing);
    }
    for text in texts.as_slice() {
        if text.as_str().trim().is_empty() {
            return Err(Fault::EmptyPiece);
        }
    }
    Ok(())
}

fn begins_with_anything(lines: &[String]) -> bool {
    match lines.first() {
        Some(line) => line.as_str().trim() == ANYTHING,
        None => false,
    }
}

// Returns whether a line that matches all further lines is not the last of `lines`.
fn goes_past_anything(lines: &[String]) -> bool {
    let Some((_, others)) = lines.split_last() else {
        return false;
    };
    for line in others {
        if line.as_str().trim() == ANYTHING {
            return true;
        }
    }
    false
}

/// Returns the first difference of the answer `answer` from the one that `case` wants: of its kind,
/// then of all of its lines, then of single lines, of pieces, and of absent pieces.
pub fn first_difference<'a>(answer: &'a str, case: &'a Case) -> Option<Difference<'a>> {
    let wanted = &case.wanted;
    other_kind(answer, &wanted.may)
        .or(other_line(answer, &wanted.answer))
        .or(missing_line(answer, list(&wanted.lines)))
        .or(other_piece(answer, list(&wanted.pieces), true))
        .or(other_piece(answer, list(&wanted.absent), false))
}

// Returns the kind of `answer` if it is none of those that `may` lists.
fn other_kind<'a>(answer: &'a str, may: &Option<Vec<String>>) -> Option<Difference<'a>> {
    let Some(may) = may else {
        return None;
    };
    let given = kind_of(answer);
    for kind in may.as_slice() {
        if kind.as_str() == given {
            return None;
        }
    }
    Some(Difference::Kind(given))
}

// Returns the kind of an answer: its first refusal, or `Ok`.
fn kind_of(answer: &str) -> &str {
    for line in answer.lines() {
        if let Some(refusal) = line.strip_prefix("refused: ") {
            return refusal;
        }
    }
    "Ok"
}

// The line that matches all further lines.
const ANYTHING: &str = "...";

// Returns the first line of `answer` that is not the line at its place in `wanted`.
fn other_line<'a>(answer: &'a str, wanted: &'a Option<Vec<String>>) -> Option<Difference<'a>> {
    match wanted {
        Some(wanted) => other_line_among(answer, wanted.as_slice()),
        None => None,
    }
}

fn other_line_among<'a>(answer: &'a str, wanted: &'a [String]) -> Option<Difference<'a>> {
    let mut left = wanted;
    let mut place: usize = 1;
    for line in answer.lines() {
        let (wanted, others) = next_line(left);
        if wanted == ANYTHING {
            return None;
        }
        let given = line.trim();
        if given != wanted {
            return Some(Difference::Line {
                place,
                wanted,
                given,
            });
        }
        left = others;
        place = place.saturating_add(1);
    }
    let (wanted, given) = (next_line(left).0, "");
    if wanted.is_empty() {
        return None;
    }
    Some(Difference::Line {
        place,
        wanted,
        given,
    })
}

// Returns the first of `lines` without blanks around it, or an empty text, and the others.
fn next_line(lines: &[String]) -> (&str, &[String]) {
    match lines.split_first() {
        Some((line, others)) => (line.as_str().trim(), others),
        None => ("", &[]),
    }
}

// Returns the first of `wanted` that does not follow those before it among the lines of `answer`.
fn missing_line<'a>(answer: &str, wanted: &'a [String]) -> Option<Difference<'a>> {
    let mut left = wanted;
    for line in answer.lines() {
        let (first, others) = next_line(left);
        if first == line.trim() {
            left = others;
        }
    }
    let line = left.first()?;
    Some(Difference::Text {
        what: "no line",
        text: line.as_str(),
    })
}

// Returns the first of `pieces` that `answer` lacks, or if none of them is wanted, that it has.
fn other_piece<'a>(answer: &str, pieces: &'a [String], are_wanted: bool) -> Option<Difference<'a>> {
    for piece in pieces {
        if answer.contains(piece.as_str()) != are_wanted {
            return Some(Difference::Text {
                what: if are_wanted { "no piece" } else { "a piece" },
                text: piece.as_str(),
            });
        }
    }
    None
}
