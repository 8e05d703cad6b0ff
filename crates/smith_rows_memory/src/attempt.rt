use crate::held_memory::HeldMemory;
use std::alloc::Global;
use std::test::Fail;

/// The outcome of a call.
#[derive(Clone, Copy, Debug, PartialEq, Eq)]
pub enum Ended {
    /// The call was refused for lack of memory, and left its arguments in the required state.
    Refused,
    /// The call returned its result with ample memory.
    Given,
    /// Any other result.
    Wrong(&'static str),
}

/// A call that is tried with more and more memory. A try takes no other memory than the call.
pub trait Attempt {
    /// Makes the call, and returns its outcome.
    fn run(&mut self, alloc: Global) -> Ended;
}

// The maximum number of tries of a call. The last one has nearly a slot.
const MOST_TRIES: usize = 4_000;

// The bytes that a try has more than the one before: the least by which blocks differ.
const STEP: usize = 16;

/// Tries `call` with no memory and then with 16 bytes more each time, until it isn't refused.
/// Returns the number of refusals.
pub fn refusals<T: Attempt>(alloc: Global, call: &mut T) -> Result<usize, Fail> {
    let Some(mut held) = HeldMemory::new(alloc, MOST_TRIES)? else {
        return Err(Fail::new("the memory of this machine takes too many blocks"));
    };
    for count in 0..MOST_TRIES {
        if !held.leave(alloc, count.saturating_mul(STEP)) {
            return Err(Fail::new("there are too many blocks"));
        }
        match call.run(alloc) {
            Ended::Refused => {}
            Ended::Given => return Ok(count),
            Ended::Wrong(what) => return Err(Fail::new(what)),
        }
    }
    Err(Fail::new("the call wants more memory than is tried"))
}

/// Returns whether `left` is a piece of `whole`.
pub fn is_piece(left: &[u8], whole: &[u8]) -> bool {
    left.is_empty() || whole.windows(left.len()).any(|window| window == left)
}
