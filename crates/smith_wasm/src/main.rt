//! Makes a WebAssembly module from the bytes of a file or of standard input, and writes it in the
//! binary or the text format. The command `print` writes the module of a binary file as text, the command
//! `shape` only its types, imports, definitions and exports, the command `check` says whether files are
//! valid modules, and the command `invalid` makes files that are no valid modules.
//!
//! `smith_wasm --help` lists the words. Each field of the configuration is a word of
//! its own, named as in a configuration file.
#![tactic(auto)]

mod check;
mod configuration;
mod corpus;
mod counts;
mod failure;
mod fields;
mod files;
mod help;
mod index;
mod invalid;
mod lines;
mod malformed;
mod paths;
mod print;
mod request;
mod shape;
mod shapes;
mod warnings;
mod words;

use crate::check::{NOT_CHECKED, check_files};
use crate::failure::Failure;
use crate::invalid::make_invalid;
use crate::print::print_file;
use crate::request::answer;
use crate::shape::print_shape;
use crate::words::{CHECK, INVALID, PRINT, SHAPE, command};
use clap::ArgMatches;
use std::env;
use std::process::ExitCode;

fn main(rt: HostRuntime) -> ExitCode {
    match run(&rt) {
        Ok(status) => ExitCode::from(status),
        Err(failure) => {
            let _ = eprintln!(rt; "smith_wasm: {failure}");
            ExitCode::from(failure.status())
        }
    }
}

/// Runs the program with the words after its name. Returns the status.
fn run(rt: &HostRuntime) -> Result<u8, Failure> {
    let words: Vec<String> = env::args(rt)?.collect(rt.alloc())?;
    let command = command(rt.alloc())?;
    match command.try_get_matches_from(words.as_slice()) {
        Ok(matches) => {
            let answered = answer_command(rt, &matches);
            drop(matches);
            answered
        }
        Err(error) => {
            let printed = help::print(rt, &error);
            let status = error.exit_code() as u8;
            drop(error);
            printed?;
            Ok(status)
        }
    }
}

/// Does what the words of the command line request. Returns the status.
fn answer_command(rt: &HostRuntime, matches: &ArgMatches<'_>) -> Result<u8, Failure> {
    if let Some(words) = matches.subcommand_matches(CHECK) {
        return answer_check(rt, words);
    }
    if let Some(words) = matches.subcommand_matches(SHAPE) {
        return print_shape(rt, words).and(Ok(0));
    }
    if let Some(words) = matches.subcommand_matches(INVALID) {
        return make_invalid(rt, words).and(Ok(0));
    }
    let answered = match matches.subcommand_matches(PRINT) {
        Some(words) => print_file(rt, words),
        None => answer(rt, matches),
    };
    answered.and(Ok(0))
}

/// Judges the files that the words of the command `check` name. Returns the status, that of files that
/// are not checked after any failure.
fn answer_check(rt: &HostRuntime, words: &ArgMatches<'_>) -> Result<u8, Failure> {
    match check_files(rt, words) {
        Ok(status) => Ok(status),
        Err(failure) => {
            let _ = eprintln!(rt; "smith_wasm: {failure}");
            drop(failure);
            Ok(NOT_CHECKED)
        }
    }
}
