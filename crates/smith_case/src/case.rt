use crate::fault::Fault;
use json::{Reader, Scratch, Token};
use std::alloc::Global;

/// A case: the value of each of its keys. The documentation of this crate explains the keys.
#[derive(Default, Drop)]
pub struct Case {
    /// The value of `name`.
    pub name: Option<String>,
    /// The value of `call`.
    pub call: Option<String>,
    /// The offset in bytes of the value of `config`.
    pub config: Option<usize>,
    /// The value of `input`.
    pub input: Option<String>,
    /// The value of `inputs`.
    pub inputs: Option<String>,
    /// The value of `args`.
    pub args: Option<Vec<String>>,
    /// The names of shapes.
    pub shapes: ShapeNames,
    /// The properties that the answer must have.
    pub wanted: Wanted,
}

/// The names of the shapes of a case.
#[derive(Default, Drop)]
pub struct ShapeNames {
    /// The value of `types`.
    pub types: Option<String>,
    /// The value of `shape`.
    pub shape: Option<String>,
    /// The value of `available-imports`.
    pub available_imports: Option<String>,
    /// The value of `exports`.
    pub exports: Option<String>,
    /// The value of `module-shape`.
    pub module_shape: Option<String>,
}

/// The properties that a case wants of its answer.
#[derive(Default, Drop)]
pub struct Wanted {
    /// The value of `answer`.
    pub answer: Option<Vec<String>>,
    /// The value of `lines`.
    pub lines: Option<Vec<String>>,
    /// The value of `pieces`.
    pub pieces: Option<Vec<String>>,
    /// The value of `absent`.
    pub absent: Option<Vec<String>>,
    /// The value of `may`.
    pub may: Option<Vec<String>>,
}

impl Case {
    /// Returns the arguments of the call.
    pub fn args(&self) -> &[String] {
        list(&self.args)
    }

    // Returns the text of the key `key`, if that key has a text.
    fn text_under<'c>(&'c mut self, key: &str) -> Option<&'c mut Option<String>> {
        match key {
            "name" => Some(&mut self.name),
            "call" => Some(&mut self.call),
            "input" => Some(&mut self.input),
            "inputs" => Some(&mut self.inputs),
            _ => self.shapes.text_under(key),
        }
    }

    // Returns the list of texts of the key `key`, if that key has a list.
    fn list_under<'c>(&'c mut self, key: &str) -> Option<&'c mut Option<Vec<String>>> {
        match key {
            "args" => Some(&mut self.args),
            _ => self.wanted.list_under(key),
        }
    }
}

impl ShapeNames {
    /// Returns whether a shape of the configuration is named.
    pub(crate) fn has_configured(&self) -> bool {
        self.available_imports.is_some() || self.exports.is_some() || self.module_shape.is_some()
    }

    // Returns the name of the key `key`, if that key names a shape.
    fn text_under<'c>(&'c mut self, key: &str) -> Option<&'c mut Option<String>> {
        match key {
            "types" => Some(&mut self.types),
            "shape" => Some(&mut self.shape),
            "available-imports" => Some(&mut self.available_imports),
            "exports" => Some(&mut self.exports),
            "module-shape" => Some(&mut self.module_shape),
            _ => None,
        }
    }
}

impl Wanted {
    // Returns the list of texts of the key `key`, if that key has one.
    fn list_under<'c>(&'c mut self, key: &str) -> Option<&'c mut Option<Vec<String>>> {
        match key {
            "answer" => Some(&mut self.answer),
            "lines" => Some(&mut self.lines),
            "pieces" => Some(&mut self.pieces),
            "absent" => Some(&mut self.absent),
            "may" => Some(&mut self.may),
            _ => None,
        }
    }
}

/// Returns the text `text`, or `other` if there is none.
pub fn text_or<'a>(text: &'a Option<String>, other: &'a str) -> &'a str {
    match text {
        Some(text) => text.as_str(),
        None => other,
    }
}

/// Returns the texts of `texts`, or an empty slice if there is no list.
pub(crate) fn list(texts: &Option<Vec<String>>) -> &[String] {
    match texts {
        Some(texts) => texts.as_slice(),
        None => &[],
    }
}

/// Reads the case of `line` into `case`, whose fields are empty. The configuration is only skipped.
///
/// # Errors
///
/// Reports the first key that no case has or that occurs twice, or the first place from which
/// `line` is no JSON object of a case, or lack of memory. `case` has the keys before it then.
pub fn read_case(alloc: Global, line: &str, case: &mut Case) -> Result<(), Fault> {
    let mut scratch = Scratch::new(alloc);
    let mut reader = Reader::new(line, &mut scratch)?;
    read_members(alloc, line.len(), &mut reader, case)
}

// Reads the object that `reader` is at, of at most `most` keys.
fn read_members(
    alloc: Global,
    most: usize,
    reader: &mut Reader<'_>,
    case: &mut Case,
) -> Result<(), Fault> {
    if matches!(reader.next(), Some(Token::BeginObject)) {
        for _ in 0..most {
            match reader.next_key() {
                Ok(Some(key)) => read_member(alloc, key, reader, case)?,
                Ok(None) => return check_end(reader),
                Err(_) => break,
            }
        }
    }
    Err(Fault::Syntax(reader.offset()))
}

// Checks that nothing follows the object.
fn check_end(reader: &mut Reader<'_>) -> Result<(), Fault> {
    match reader.next() {
        None => Ok(()),
        Some(_) => Err(Fault::Syntax(reader.offset())),
    }
}

fn read_member(
    alloc: Global,
    key: &str,
    reader: &mut Reader<'_>,
    case: &mut Case,
) -> Result<(), Fault> {
    let place = reader.offset();
    if key == "config" {
        return put(&mut case.config, pass(reader), place);
    }
    match case.text_under(key) {
        Some(slot) => put(slot, read_text(alloc, reader), place),
        None => read_list_member(alloc, key, reader, case),
    }
}

// Reads the value of the key `key`, which is no text.
fn read_list_member(
    alloc: Global,
    key: &str,
    reader: &mut Reader<'_>,
    case: &mut Case,
) -> Result<(), Fault> {
    let place = reader.offset();
    match case.list_under(key) {
        Some(slot) => put(slot, read_list(alloc, reader), place),
        None => Err(Fault::UnknownKey(place)),
    }
}

// Puts `value` into `slot`, which must be empty, if it could be read.
fn put<T: Drop>(slot: &mut Option<T>, value: Result<T, Fault>, place: usize) -> Result<(), Fault> {
    let value = value?;
    if slot.is_some() {
        return Err(Fault::RepeatedKey(place));
    }
    *slot = Some(value);
    Ok(())
}

// Skips a value, and returns its offset.
fn pass(reader: &mut Reader<'_>) -> Result<usize, Fault> {
    let start = reader.offset();
    match reader.skip_value(json::MAX_DEPTH) {
        Ok(()) => Ok(start),
        Err(_) => Err(Fault::Syntax(reader.offset())),
    }
}

fn read_text(alloc: Global, reader: &mut Reader<'_>) -> Result<String, Fault> {
    match reader.next() {
        Some(Token::String(text)) => Ok(String::from_str(alloc, text)?),
        _ => Err(Fault::Syntax(reader.offset())),
    }
}

// The greatest number of texts of a list.
const MOST_TEXTS: usize = 100_000;

fn read_list(alloc: Global, reader: &mut Reader<'_>) -> Result<Vec<String>, Fault> {
    let mut texts = Vec::new(alloc);
    read_texts(alloc, reader, &mut texts)?;
    Ok(texts)
}

// Reads the list that `reader` is at into `texts`.
fn read_texts(
    alloc: Global,
    reader: &mut Reader<'_>,
    texts: &mut Vec<String>,
) -> Result<(), Fault> {
    if matches!(reader.next(), Some(Token::BeginArray)) {
        for _ in 0..MOST_TEXTS {
            if reader.take_end_array() {
                return Ok(());
            }
            texts.push(read_text(alloc, reader)?)?;
        }
    }
    Err(Fault::Syntax(reader.offset()))
}
