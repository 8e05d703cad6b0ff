use smith_bytes::{Error, Unstructured};
use smith_case::Fault;
use smith_text::{TextForm, text_of};
use smith_types::{Items, TypeSpace};
use std::fmt::{Debug, Display};

/// Returns the result of work that nothing but a lack of memory stops.
pub(crate) fn or_memory<E: Drop>(done: Result<(), E>) -> Result<(), Fault> {
    match done {
        Ok(()) => Ok(()),
        Err(_) => Err(Fault::Memory),
    }
}

/// Appends a line of `value` in the text format.
pub(crate) fn write_value<T: TextForm>(value: &T, answer: &mut String) -> Result<(), Fault> {
    match text_of(*answer.allocator(), value) {
        Ok(text) => write_line(text.as_str(), answer),
        Err(_) => Err(Fault::Memory),
    }
}

/// Appends a line of `value`.
pub(crate) fn write_line<T: Display + Copy>(value: T, answer: &mut String) -> Result<(), Fault> {
    or_memory(writeln!(answer, "{value}"))
}

/// Returns the text of an answer on whether a copy is equal.
pub(crate) fn equality(is_equal: bool) -> &'static str {
    if is_equal { "is equal" } else { "differs" }
}

/// Appends a line of `first` and `second`.
pub(crate) fn write_pair<A: Display + Copy, B: Display + Copy>(
    first: A,
    second: B,
    answer: &mut String,
) -> Result<(), Fault> {
    or_memory(writeln!(answer, "{first} {second}"))
}

/// Appends a line of `value` as it prints for debugging.
pub(crate) fn write_debug<T: Debug>(value: &T, answer: &mut String) -> Result<(), Fault> {
    or_memory(writeln!(answer, "{value:?}"))
}

/// Appends a line of the drawn value, or the refusal.
pub(crate) fn write_drawn<T: TextForm + Drop>(
    drawn: Result<T, Error>,
    answer: &mut String,
) -> Result<(), Fault> {
    match drawn {
        Ok(value) => write_value(&value, answer),
        Err(refusal) => write_refusal(refusal, answer),
    }
}

/// Appends a line for each of the drawn values, or the refusal.
pub(crate) fn write_drawn_values<T: TextForm + Drop>(
    drawn: Result<Items<T>, Error>,
    answer: &mut String,
) -> Result<(), Fault> {
    match drawn {
        Ok(values) => write_values(values.as_slice(), answer),
        Err(refusal) => write_refusal(refusal, answer),
    }
}

/// Appends a line for each of `values`.
pub(crate) fn write_values<T: TextForm>(values: &[T], answer: &mut String) -> Result<(), Fault> {
    for value in values {
        write_value(value, answer)?;
    }
    Ok(())
}

/// Appends a line `group START END` for each group of `types`, followed by a line for each of its
/// types.
pub(crate) fn write_types(types: &TypeSpace, answer: &mut String) -> Result<(), Fault> {
    for group in types.rec_groups() {
        or_memory(writeln!(answer, "group {} {}", group.start, group.end))?;
        write_values(
            types.types().get(group.start..group.end).unwrap_or(&[]),
            answer,
        )?;
    }
    Ok(())
}

/// Appends the line of the refusal `refusal`.
pub(crate) fn write_refusal<T: Debug + Drop>(refusal: T, answer: &mut String) -> Result<(), Fault> {
    or_memory(writeln!(answer, "refused: {refusal:?}"))
}

/// Appends the result `checked` of a check.
pub(crate) fn write_check(checked: Result<(), Error>, answer: &mut String) -> Result<(), Fault> {
    match checked {
        Ok(()) => write_line("passes", answer),
        Err(refusal) => write_refusal(refusal, answer),
    }
}

/// Appends the number of bytes that `u` has left, and the next of these.
pub(crate) fn write_rest(u: &Unstructured<'_>, answer: &mut String) -> Result<(), Fault> {
    let count = u.len();
    write_pair("left", count, answer)?;
    match u.peek_bytes(count.min(MOST_BYTES)) {
        Some(next) => write_bytes("next", next, answer),
        None => Ok(()),
    }
}

// The greatest number of bytes left that are written.
const MOST_BYTES: usize = 16;

/// Appends a line of `word` and `bytes` in hexadecimal, if there are any.
pub(crate) fn write_bytes(word: &str, bytes: &[u8], answer: &mut String) -> Result<(), Fault> {
    if bytes.is_empty() {
        return Ok(());
    }
    or_memory(write!(answer, "{word} "))?;
    for byte in bytes {
        or_memory(write!(answer, "{byte:02x}"))?;
    }
    or_memory(answer.push_str("\n"))
}
