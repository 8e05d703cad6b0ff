use crate::run::{Outcome, RunFault, run};
use crate::sink::FromWrite;
use crate::source::FromRead;
use smith_bytes::Error;
use smith_rows_memory::{Attempt, Ended, refusals};
use std::alloc::Global;
use std::io;
use std::io::{ErrorKind, Read, Write};
use std::test::Fail;

// The maximum number of bytes of a line of the program.
const MOST_BYTES: usize = 512;

// Inputs without bytes, with a function, with imports in a group, and with bytes that are not text.
const INPUTS: [&[u8]; 4] = [
    &[],
    &[1, 1, 1, 1, 0, 0, 0, 0, 0, 0, 1, 0],
    &[0, 1, 255, 255, 255, 255, 0, 0, 0, 1, 1, 98, 1, 0, 0],
    &[3, 102, 255, 4, 2, 4, 8, 6, 9, 2, 5, 200],
];

/// A reader that returns one byte of an input per read, and fails at one of the reads, counted from
/// 1.
#[derive(Drop)]
struct Trickle {
    rest: &'static [u8],
    reads: usize,
    fails_at: usize,
}

impl Read for Trickle {
    fn read(&mut self, buffer: &mut [u8]) -> io::Result<usize> {
        self.reads = self.reads.wrapping_add(1);
        if self.reads == self.fails_at {
            return Err(io::Error::from(ErrorKind::Other));
        }
        let Some((first, rest)) = self.rest.split_first() else {
            return Ok(0);
        };
        if buffer.is_empty() {
            return Ok(0);
        }
        buffer[0] = *first;
        self.rest = rest;
        Ok(1)
    }
}

/// A writer that keeps a line in its own memory. Takes one byte per write, and fails at one of the
/// writes, counted from 1.
#[derive(Drop)]
struct Page {
    line: [u8; MOST_BYTES],
    length: usize,
    writes: usize,
    fails_at: usize,
}

impl Page {
    fn failing_at(fails_at: usize) -> Self {
        Page {
            line: [0; MOST_BYTES],
            length: 0,
            writes: 0,
            fails_at,
        }
    }

    fn written_bytes(&self) -> &[u8] {
        self.line.get(..self.length).unwrap_or(&[])
    }
}

impl Write for Page {
    fn write(&mut self, piece: &[u8]) -> io::Result<usize> {
        self.writes = self.writes.wrapping_add(1);
        if self.writes == self.fails_at {
            return Err(io::Error::from(ErrorKind::Other));
        }
        let Some(first) = piece.first() else {
            return Ok(0);
        };
        if self.length >= MOST_BYTES {
            return Ok(0);
        }
        self.line[self.length] = *first;
        self.length += 1;
        Ok(1)
    }

    fn flush(&mut self) -> io::Result<()> {
        Ok(())
    }
}

// Runs the program on `input`, with a reader that fails at the read number `read`, and with `page`
// for its line.
fn run_with(
    alloc: Global,
    input: &'static [u8],
    read: usize,
    page: &mut Page,
) -> Result<Outcome, RunFault> {
    let mut source = FromRead::new(Trickle {
        rest: input,
        reads: 0,
        fails_at: read,
    });
    let mut sink = FromWrite::new(page);
    run(alloc, false, &mut source, &mut sink)
}

#[test]
fn each_read_fails_in_turn(rt: HostRuntime) {
    for input in INPUTS {
        for read in 1..=input.len().saturating_add(1) {
            let mut page = Page::failing_at(0);
            let ended = run_with(rt.alloc(), input, read, &mut page);
            assert_eq!(rt; ended, Err(RunFault::Read), "at {read}");
            assert_eq!(rt; page.length, 0, "at {read}");
        }
    }
}

#[test]
fn short_reads_and_writes_change_nothing(rt: HostRuntime) {
    for input in INPUTS {
        let mut out = Vec::new(rt.alloc());
        let mut source = FromRead::new(input);
        let mut sink = FromWrite::new(&mut out);
        assert_eq!(rt;
            run(rt.alloc(), false, &mut source, &mut sink),
            Ok(Outcome::Made)
        );
        let mut page = Page::failing_at(0);
        assert_eq!(rt;
            run_with(rt.alloc(), input, 0, &mut page),
            Ok(Outcome::Made)
        );
        assert_eq!(rt; page.written_bytes(), out.as_slice());
    }
}

#[test]
fn each_write_fails_in_turn(rt: HostRuntime) {
    for input in INPUTS {
        let mut whole = Page::failing_at(0);
        assert_eq!(rt;
            run_with(rt.alloc(), input, 0, &mut whole),
            Ok(Outcome::Made)
        );
        for written in 0..whole.length {
            let mut page = Page::failing_at(written + 1);
            let ended = run_with(rt.alloc(), input, 0, &mut page);
            assert_eq!(rt; ended, Err(RunFault::Write), "after {written}");
            assert_eq!(rt; page.length, written);
            assert!(rt;
                whole.written_bytes().starts_with(page.written_bytes()),
                "after {written}"
            );
        }
    }
}

/// A run over an input in memory.
#[derive(Drop)]
struct Running {
    input: &'static [u8],
}

impl Attempt for Running {
    fn run(&mut self, alloc: Global) -> Ended {
        let mut page = Page::failing_at(0);
        let outcome = run_with(alloc, self.input, 0, &mut page);
        match outcome {
            Ok(Outcome::Made) if page.written_bytes().starts_with(b"types ") => Ended::Given,
            Ok(Outcome::Refused(Error::Memory))
                if page.written_bytes() == b"refused: Memory\n".as_slice() => { Ended::Refused }
            _ => Ended::Wrong("a run comes to something else"),
        }
    }
}

#[test]
fn want_of_memory_is_told_without_memory(rt: HostRuntime) -> Result<(), Fail> {
    for input in INPUTS {
        assert!(rt; refusals(rt.alloc(), &mut Running { input })? > 0);
    }
    Ok(())
}
