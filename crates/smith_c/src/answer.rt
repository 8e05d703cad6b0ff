ghost use Rattle.std.specs.Prelude.{◌≡◌};
ghost use Rattle.smith_c.specs.CallAnswers.{IsPut};

/// The answer to a call of the library.
#[repr(C)]
#[derive(Clone, Copy, Debug, PartialEq, Eq)]
pub struct Answer {
    /// The status: 0 if the output was written, 1 if the buffer is too short for it, or the number of
    /// a refusal.
    pub status: u32,
    /// The number of bytes of the output, written or not.
    pub length: usize,
}

/// The output was written.
pub const MADE: u32 = 0;

/// The buffer is too short for the output.
pub const SHORT: u32 = 1;

impl Answer {
    /// Returns the answer without an output.
    pub fn without_output(status: u32) -> Answer
        ensures { result ≡ record { status = status; length = 0 } }
    {
        Answer { status, length: 0 }
    }
}

/// Writes `bytes` to the front of `out`, and returns `status`. If they do not fit, writes nothing
/// and returns `SHORT`.
pub fn put(status: u32, bytes: &[u8], out: &mut [u8]) -> Answer
    ensures { IsPut status bytes.now out.old out.new result }
{
    let length = bytes.len();
    if out.len() < length {
        return Answer {
            status: SHORT,
            length,
        };
    }
    out[..length].copy_from_slice(bytes);
    Answer { status, length }
}
