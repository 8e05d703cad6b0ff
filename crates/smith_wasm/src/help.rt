use crate::failure::Failure;
use clap::Error;
use std::alloc::{AllocError, Global};
use std::env;
use std::io::IsTerminal;

/// The width of a terminal for which the environment has no `COLUMNS`.
const WIDTH: usize = 80;

/// The column up to which a description begins in the line of its word.
const LAST_COLUMN: usize = 45;

/// Prints a message of the command line. On a terminal, lines of the help that are too long are
/// continued below their descriptions.
pub(crate) fn print(rt: &HostRuntime, message: &Error) -> Result<(), Failure> {
    if message.use_stderr() || !rt.stdout().is_terminal() {
        return Ok(message.print(rt)?);
    }
    let text = format!(in rt.alloc(); "{message}")?;
    let wrapped = wrap(rt.alloc(), text.as_str(), width(rt))?;
    Ok(rt.print(&wrapped)?)
}

/// Returns the width of the terminal in columns.
fn width(rt: &HostRuntime) -> usize {
    match env::var(rt, "COLUMNS") {
        Ok(columns) => columns.parse::<usize>().unwrap_or(WIDTH),
        Err(_) => WIDTH,
    }
}

/// Returns `text` with its lines broken between words, so that none is longer than `width` unless a
/// word is.
fn wrap(alloc: Global, text: &str, width: usize) -> Result<String, AllocError> {
    let mut wrapped = String::new(alloc);
    for line in text.lines() {
        wrap_line(line, width, &mut wrapped)?;
        wrapped.push('\n')?;
    }
    Ok(wrapped)
}

/// Appends `line` to `wrapped`. Lines that continue it begin below its description.
fn wrap_line(line: &str, width: usize, wrapped: &mut String) -> Result<(), AllocError> {
    let indent = description_column(line);
    let (start, description) = line.split_at_checked(indent).unwrap_or(("", line));
    wrapped.push_str(start)?;
    let mut column = indent;
    for (place, word) in description.split(' ').enumerate() {
        let mut end = column.saturating_add(word.len());
        if place > 0 && end > width {
            break_line(indent, wrapped)?;
            end = indent.saturating_add(word.len());
        } else if place > 0 {
            wrapped.push(' ')?;
        }
        wrapped.push_str(word)?;
        column = end.saturating_add(1);
    }
    Ok(())
}

/// Appends a line break, and `indent` spaces.
fn break_line(indent: usize, wrapped: &mut String) -> Result<(), AllocError> {
    wrapped.push('\n')?;
    for _ in 0..indent {
        wrapped.push(' ')?;
    }
    Ok(())
}

/// Returns the column at which the description in `line` begins: after the last two spaces among its
/// first columns.
fn description_column(line: &str) -> usize {
    let start = line.get(..LAST_COLUMN).unwrap_or(line);
    start
        .rfind("  ")
        .map_or(0, |column| column.saturating_add(2))
}
