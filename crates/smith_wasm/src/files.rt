use crate::failure::Failure;
use std::io::{IsTerminal, Read, Write};
use std::{fs, io};

/// The name of standard input in messages.
pub(crate) const STANDARD_INPUT: &str = "standard input";

// The end of the names of the files in a folder that are judged.
const ENDING: &str = ".wasm";

/// Reads the file at `path` whole, or standard input to its end if there is no path.
pub(crate) fn read_from(rt: &HostRuntime, path: Option<&str>) -> Result<Vec<u8>, Failure> {
    match path {
        Some(path) => with_path(rt, path, fs::read(rt, path)),
        None => read_input(rt),
    }
}

/// Reads the text of the file at `path`.
pub(crate) fn read_text(rt: &HostRuntime, path: &str) -> Result<String, Failure> {
    with_path(rt, path, fs::read_to_string(rt, path))
}

fn read_input(rt: &HostRuntime) -> Result<Vec<u8>, Failure> {
    let mut bytes = Vec::new(rt.alloc());
    let read = rt.stdin().read_to_end(&mut bytes);
    let _length = with_path(rt, STANDARD_INPUT, read)?;
    Ok(bytes)
}

/// Returns the paths of the files in the folder at `path` whose names end in `.wasm`, in the order of
/// their names.
pub(crate) fn names_in(rt: &HostRuntime, path: &str) -> Result<Vec<String>, Failure> {
    let listed = list_in(rt, path);
    let mut paths = with_path(rt, path, listed)?;
    paths.sort_unstable();
    Ok(paths)
}

fn list_in(rt: &HostRuntime, path: &str) -> io::Result<Vec<String>> {
    let mut paths = Vec::new(rt.alloc());
    for entry in fs::read_dir(rt, path)? {
        let entry = entry?;
        if entry.file_name().ends_with(ENDING) {
            paths.push(String::from_str(rt.alloc(), entry.path().as_str())?)?;
        }
    }
    Ok(paths)
}

/// Writes `bytes` to the file at `path`, which is created or replaced, or to standard output if there is
/// no path.
pub(crate) fn write_to(rt: &HostRuntime, path: Option<&str>, bytes: &[u8]) -> Result<(), Failure> {
    match path {
        Some(path) => with_path(rt, path, fs::write(rt, path, bytes)),
        None => with_path(rt, "standard output", put(rt, bytes)),
    }
}

/// Writes `bytes` to the file at `path`, which is created or replaced. If not all are written, the
/// file is removed. A file that can't be opened stays as it is.
pub(crate) fn write_whole_file(rt: &HostRuntime, path: &str, bytes: &[u8]) -> Result<(), Failure> {
    let mut file = with_path(rt, path, fs::File::create(rt, path))?;
    let written = file.write_all(bytes);
    drop(file);
    if written.is_err() {
        let _ = fs::remove_file(rt, path);
    }
    with_path(rt, path, written)
}

/// Creates the folder at `path`, and those above it, if they do not exist.
pub(crate) fn make_folder(rt: &HostRuntime, path: &str) -> Result<(), Failure> {
    with_path(rt, path, fs::create_dir_all(rt, path))
}

fn put(rt: &HostRuntime, bytes: &[u8]) -> io::Result<()> {
    let mut output = rt.stdout();
    output.write_all(bytes)?;
    output.flush()
}

/// Returns whether standard output is a terminal.
pub(crate) fn shows_output(rt: &HostRuntime) -> bool {
    rt.stdout().is_terminal()
}

/// Returns what `done` holds. An error becomes a failure of the file or the stream `path`.
fn with_path<T: Drop>(rt: &HostRuntime, path: &str, done: io::Result<T>) -> Result<T, Failure> {
    match done {
        Ok(value) => Ok(value),
        Err(error) => Err(Failure::File(String::from_str(rt.alloc(), path)?, error)),
    }
}
