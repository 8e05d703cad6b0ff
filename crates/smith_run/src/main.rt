//! Reads bytes from standard input, draws a WebAssembly module from them, and writes one line to
//! standard output that counts its items of each kind.
#![tactic(auto)]

#[cfg(test)]
mod hostile_tests;
mod line;
mod program;
mod run;
mod sink;
mod source;
#[cfg(test)]
mod tests;
mod words;

use crate::program::{exit_status, run_words};
use crate::run::RunFault;
use crate::sink::FromWrite;
use crate::source::FromRead;
use std::process::ExitCode;
use std::{env, io};

fn main(rt: HostRuntime) -> ExitCode {
    let asked = match read_words(&rt) {
        Ok(asked) => asked,
        Err(_) => return tell_unread(&rt),
    };
    let mut source = FromRead::new(rt.stdin());
    let mut sink = FromWrite::new(rt.stdout());
    let ended = run_words(rt.alloc(), asked.as_slice(), &mut source, &mut sink);
    if let Err(fault) = ended {
        let _ = eprintln!(rt; "{fault}");
    }
    ExitCode::from(exit_status(&ended))
}

/// Reports that the words were not read.
fn tell_unread(rt: &HostRuntime) -> ExitCode {
    let _ = eprintln!(rt; "{}", RunFault::Read);
    ExitCode::FAILURE
}

/// Reads the words after the program's name. Fails if a word is not UTF-8, or memory runs out.
fn read_words(rt: &HostRuntime) -> io::Result<Vec<String>> {
    let words = env::args(rt)?.skip(1).collect(rt.alloc())?;
    Ok(words)
}
