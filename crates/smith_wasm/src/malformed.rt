use smith_binary_read::Reason;
use std::alloc::{AllocError, Global};
use std::fmt;

// The number of bytes that are shown on either side of a fault.
const SHOWN: usize = 8;

/// The first fault of a file that is no module, with the bytes around it.
#[derive(Debug, Drop)]
pub(crate) struct Malformed {
    // The path of the file.
    path: String,
    // The number of bytes before the fault.
    offset: usize,
    reason: Reason,
    // The last bytes before the fault.
    before: Vec<u8>,
    // The faulty byte, unless the fault is the end of the file.
    faulty: Option<u8>,
    // The first bytes after it.
    after: Vec<u8>,
}

impl Malformed {
    /// Returns the fault `reason` at the byte `offset` of `bytes`, which are those of the file at
    /// `path`.
    pub(crate) fn new(
        alloc: Global,
        path: &str,
        bytes: &[u8],
        offset: usize,
        reason: Reason,
    ) -> Result<Malformed, AllocError> {
        let (before, rest) = bytes.split_at_checked(offset).unwrap_or((bytes, &[]));
        let (faulty, after) = match rest {
            [] => (None, rest),
            [byte, after @ ..] => (Some(*byte), after),
        };
        let start = before.len().saturating_sub(SHOWN);
        Ok(Malformed {
            path: String::from_str(alloc, path)?,
            offset,
            reason,
            before: Vec::from_slice(alloc, before.get(start..).unwrap_or(&[]))?,
            faulty,
            after: Vec::from_slice(alloc, after.get(..SHOWN).unwrap_or(after))?,
        })
    }
}

impl fmt::Display for Malformed {
    fn fmt<W: fmt::Write>(&self, f: &mut fmt::Formatter<W>) -> fmt::Result {
        let (path, offset, reason) = (&self.path, self.offset, self.reason);
        write!(f, "{path}: malformed at byte 0x{offset:x}: {reason}:")?;
        write_bytes(self.before.as_slice(), f)?;
        match self.faulty {
            Some(byte) => write!(f, " [{byte:02x}]")?,
            None => f.write_str(" [end]")?,
        }
        write_bytes(self.after.as_slice(), f)
    }
}

// Writes each of `bytes` in hexadecimal after a space.
fn write_bytes<W: fmt::Write>(bytes: &[u8], f: &mut fmt::Formatter<W>) -> fmt::Result {
    for byte in bytes {
        write!(f, " {byte:02x}")?;
    }
    Ok(())
}
