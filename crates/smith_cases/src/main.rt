//! Answers cases, each a JSON object on a line of standard input, and prints which answers are as
//! the cases want.
//!
//! For each case there is a line `ok NAME`, or `not ok NAME: ` and the first difference. The last
//! line counts, and the status is 1 if a case is not ok. If memory is refused outside of a call,
//! the last line is `not ok: Memory while reading` and the status is 1 too. A case is answered
//! twice, a case of checksums once; if the two answers differ, it is not ok. Blank lines, and lines
//! that begin with `#`, are skipped. The crate's own cases are in `stdin`. In this folder, this
//! command tries them in four to nine minutes of processor time, before any proof:
//!
//! ```sh
//! rt try --seconds 600 < stdin
//! ```
//!
//! The documentation of `smith_case` explains the keys of a case.
#![tactic(auto)]

use smith_case_answers::judge;
use std::io;
use std::process::ExitCode;

fn main(rt: HostRuntime) -> io::Result<ExitCode> {
    match answer_lines(&rt) {
        Err(error) if error.kind() == io::ErrorKind::OutOfMemory => {
            println!(rt; "not ok: Memory while reading")?;
            Ok(ExitCode::FAILURE)
        }
        ended => ended,
    }
}

// Answers the cases of the standard input. Fails if a line can't be read or written, or if memory
// for a line runs out.
fn answer_lines(rt: &HostRuntime) -> io::Result<ExitCode> {
    let alloc = rt.alloc();
    let mut right: u64 = 0;
    let mut wrong: u64 = 0;
    for line in rt.lines(alloc) {
        let line = line?;
        if is_passed_over(line.as_str()) {
            continue;
        }
        let mut report = String::new(alloc);
        let count = if judge(alloc, line.as_str(), &mut report)? {
            &mut right
        } else {
            &mut wrong
        };
        *count = count.saturating_add(1);
        print!(rt; "{report}")?;
    }
    println!(rt; "{right} ok, {wrong} not ok")?;
    Ok(if wrong == 0 {
        ExitCode::SUCCESS
    } else {
        ExitCode::FAILURE
    })
}

// Returns whether `line` has no case.
fn is_passed_over(line: &str) -> bool {
    line.trim().is_empty() || line.starts_with('#')
}
