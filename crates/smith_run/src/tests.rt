use crate::line::line;
use crate::run::{RunFault, run};
use crate::sink::{FromWrite, Sink};
use crate::source::{FromRead, Source};
use smith_bytes::{ConfigFault, Count, Error, ShapeFault, Which, Why};
use std::io;
use std::io::{ErrorKind, Read, Write};
use std::test::Fail;

/// A reader that returns one zero per read, and fails at one of the reads.
#[derive(Drop)]
struct ZeroReader {
    reads: usize,
    fails_at: usize,
    kind: ErrorKind,
}

impl Read for ZeroReader {
    fn read(&mut self, buffer: &mut [u8]) -> io::Result<usize> {
        self.reads = self.reads.wrapping_add(1);
        if self.reads == self.fails_at {
            return Err(io::Error::from(self.kind));
        }
        if buffer.is_empty() {
            return Ok(0);
        }
        buffer[0] = 0;
        Ok(1)
    }
}

/// A writer that takes one byte per write, and at one of the writes fails or takes nothing.
#[derive(Drop)]
struct ByteWriter {
    writes: usize,
    fails_at: usize,
    kind: Option<ErrorKind>,
}

impl Write for ByteWriter {
    fn write(&mut self, piece: &[u8]) -> io::Result<usize> {
        self.writes = self.writes.wrapping_add(1);
        if self.writes == self.fails_at {
            return match self.kind {
                Some(kind) => Err(io::Error::from(kind)),
                None => Ok(0),
            };
        }
        Ok(piece.len().min(1))
    }

    fn flush(&mut self) -> io::Result<()> {
        Ok(())
    }
}

impl ZeroReader {
    fn failing_at(fails_at: usize, kind: ErrorKind) -> Self {
        ZeroReader {
            reads: 0,
            fails_at,
            kind,
        }
    }
}

impl ByteWriter {
    fn failing_at(fails_at: usize, kind: Option<ErrorKind>) -> Self {
        ByteWriter {
            writes: 0,
            fails_at,
            kind,
        }
    }
}

#[test]
fn a_failed_read_is_told_and_nothing_is_written(rt: HostRuntime) -> Result<(), Fail> {
    for fails_at in 1..4 {
        for kind in [ErrorKind::Other, ErrorKind::Interrupted] {
            let mut out = Vec::new(rt.alloc());
            let mut source = FromRead::new(ZeroReader::failing_at(fails_at, kind));
            let mut sink = FromWrite::new(&mut out);
            let ended = run(rt.alloc(), false, &mut source, &mut sink);
            assert_eq!(rt; ended, Err(RunFault::Read), "at {fails_at}");
            assert!(rt; source.has_failed() && !sink.has_failed(), "at {fails_at}");
            assert!(rt; out.is_empty(), "at {fails_at}");
        }
    }
    Ok(())
}

#[test]
fn a_failed_write_is_told(rt: HostRuntime) -> Result<(), Fail> {
    for fails_at in 1..4 {
        for kind in [Some(ErrorKind::Other), Some(ErrorKind::Interrupted), None] {
            let mut source = FromRead::new(b"".as_slice());
            let mut sink = FromWrite::new(ByteWriter::failing_at(fails_at, kind));
            let ended = run(rt.alloc(), false, &mut source, &mut sink);
            assert_eq!(rt; ended, Err(RunFault::Write), "at {fails_at}");
            assert!(rt; sink.has_failed() && !source.has_failed(), "at {fails_at}");
        }
    }
    Ok(())
}

#[test]
fn each_refusal_has_its_line(rt: HostRuntime) -> Result<(), Fail> {
    let why = Why::Unmet(Count::Types);
    let shape = Error::Shape(Which::Exports, ShapeFault::Index);
    for (refusal, text) in [
        (Error::EmptyChoose, "refused: EmptyChoose\n"),
        (Error::NotEnoughData, "refused: NotEnoughData\n"),
        (Error::IncorrectFormat(why), "refused: IncorrectFormat\n"),
        (
            Error::Config(ConfigFault::Memory32Bytes),
            "refused: Config\n",
        ),
        (shape, "refused: Shape\n"),
        (Error::Memory, "refused: Memory\n"),
    ] {
        assert_eq!(rt; line(&Err(refusal)).as_str(), text);
    }
    Ok(())
}
