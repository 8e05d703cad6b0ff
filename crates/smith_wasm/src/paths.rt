use crate::failure::Failure;
use crate::words::{AVAILABLE_IMPORTS, EXPORTS, MODULE_SHAPE};
use json::{Reader, Scratch, Token};
use std::alloc::Global;

/// The paths of the shapes of a configuration file, each of which may be absent.
#[derive(Drop)]
pub(crate) struct Paths {
    /// The member `available-imports`.
    pub(crate) available_imports: Option<String>,
    /// The member `exports`.
    pub(crate) exports: Option<String>,
    /// The member `module-shape`.
    pub(crate) module_shape: Option<String>,
}

/// The paths of no file.
pub(crate) const NO_PATHS: Paths = Paths {
    available_imports: None,
    exports: None,
    module_shape: None,
};

// A value in a text, from its first byte to the one after its last.
#[derive(Clone, Copy)]
struct Place {
    start: usize,
    end: usize,
}

/// Takes the paths out of `text`, the configuration file at `path`: each becomes `null`. A path that does
/// not begin with a slash is one from the folder of the configuration file.
pub(crate) fn take_paths(alloc: Global, path: &str, text: &mut String) -> Result<Paths, Failure> {
    let available_imports = take_path(alloc, path, AVAILABLE_IMPORTS, text)?;
    let exports = take_path(alloc, path, EXPORTS, text)?;
    let module_shape = take_path(alloc, path, MODULE_SHAPE, text)?;
    Ok(Paths {
        available_imports,
        exports,
        module_shape,
    })
}

// Takes the path of the member `name`, if its value is a string.
fn take_path(
    alloc: Global,
    path: &str,
    name: &str,
    text: &mut String,
) -> Result<Option<String>, Failure> {
    let Some((place, file)) = find_path(alloc, text.as_str(), name)? else {
        return Ok(None);
    };
    let before = text.as_str().get(..place.start).unwrap_or("");
    let after = text.as_str().get(place.end..).unwrap_or("");
    let replaced = format!(in alloc; "{before}null{after}")?;
    *text = replaced;
    let folder = if file.as_str().starts_with('/') {
        ""
    } else {
        folder_of(path)
    };
    Ok(Some(format!(in alloc; "{folder}{file}")?))
}

// Returns the folder of the file at `path`, with a slash at its end, or nothing for the current folder.
fn folder_of(path: &str) -> &str {
    match path.rfind('/') {
        Some(slash) => path.get(..slash.saturating_add(1)).unwrap_or(""),
        None => "",
    }
}

// Finds the first member `name` of the object in `text`, and returns the place of its value and the string
// that it is, if it is one.
fn find_path(alloc: Global, text: &str, name: &str) -> Result<Option<(Place, String)>, Failure> {
    let mut scratch = Scratch::new(alloc);
    let mut reader = Reader::new(text, &mut scratch)?;
    // Each token has a byte.
    for _ in 0..text.len() {
        match reader.next() {
            None => break,
            Some(Token::Key(key)) if key == name => return value_of(alloc, text, &mut reader),
            Some(_) => {}
        }
    }
    Ok(None)
}

// Reads the value after a key, and returns its place and the string that it is, if it is one.
fn value_of(
    alloc: Global,
    text: &str,
    reader: &mut Reader<'_>,
) -> Result<Option<(Place, String)>, Failure> {
    let past_key = reader.offset();
    let Some(Token::String(file)) = reader.next() else {
        return Ok(None);
    };
    // The reader is past a comma after the value, too.
    let between = text.get(past_key..reader.offset()).unwrap_or("");
    let first = between.find('"').unwrap_or(0);
    let last = between.rfind('"').unwrap_or(0);
    let start = past_key.saturating_add(first);
    let end = past_key.saturating_add(last).saturating_add(1);
    let file = String::from_str(alloc, file)?;
    Ok(Some((Place { start, end }, file)))
}
