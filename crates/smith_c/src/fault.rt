ghost use Rattle.std.specs.Prelude.{◌≡◌};
ghost use Rattle.smith_c.specs.CallAnswers.{IsPut};
ghost use Rattle.smith_c.specs.Files.{fault_of};

use crate::answer::{Answer, MADE, put};
use smith_judge::Verdict;
use smith_request::Wrong;

/// What is said of an invalid file, in memory as a caller in C has it.
#[repr(C)]
#[derive(Clone, Copy)]
pub struct Fault {
    /// The verdict on the file: that it is invalid or malformed, and its first fault.
    pub verdict: Verdict,
    /// The number of the family of the change that makes it so.
    pub family: u32,
}

impl Fault {
    /// Returns what is said of the file of `wrong`.
    pub fn of(wrong: &Wrong) -> Fault
        ensures { result ≡ fault_of wrong.now }
    {
        Fault {
            verdict: Verdict::of(&wrong.answer),
            family: wrong.family().number(),
        }
    }
}

/// Writes what is said of the file of `wrong` to `fault`, and the file to the front of `out`, if it fits.
pub fn put_file(wrong: &Wrong, fault: &mut Fault, out: &mut [u8]) -> Answer
    ensures fault { fault.new ≡ fault_of wrong.now }
    ensures file { IsPut 0 wrong.now.file.items out.old out.new result }
{
    *fault = Fault::of(wrong);
    put(MADE, wrong.file.as_slice(), out)
}
