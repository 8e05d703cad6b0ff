use std::alloc::{AllocError, Global};

// The bytes of a slot: too few for the C library to map the slot by itself.
const SLOT: usize = 1 << 16;

// The bytes between two slots, which keep them apart when they are freed.
const GAP: usize = 64;

// The bytes of the largest requested block, more than a process can address.
const LARGEST: usize = 1 << 46;

// The bytes of the smallest block.
const SMALLEST: usize = 16;

// The maximum number of blocks in which the memory of a process is taken.
const MOST_BLOCKS: usize = 30_000;

// The maximum number of kept blocks: after each step, the blocks that the call freed are taken too.
const MOST_KEPT: usize = 500_000;

// The bytes of the largest block that the C library keeps apart when it is freed, for a request of
// the same size.
const LARGEST_APART: usize = 1024;

// Returns the bytes of the blocks that are taken after all of `size` bytes: half of `size`, or the
// next smaller size that is kept apart.
fn next_size(size: usize) -> usize {
    if size > LARGEST_APART {
        size / 2
    } else {
        size.saturating_sub(SMALLEST)
    }
}

/// All memory that the process can have, taken in blocks that nobody touches. Some slots are set
/// aside, and freed one by one. Dropping the held memory frees all of it.
#[derive(Drop)]
pub struct HeldMemory {
    kept: Vec<Vec<u8>>,
    slots: Vec<Vec<u8>>,
    gaps: Vec<Vec<u8>>,
}

impl HeldMemory {
    /// Takes all memory of the process except `slots` slots. Returns `None` if more than 30,000
    /// blocks would be needed.
    pub fn new(alloc: Global, slots: usize) -> Result<Option<HeldMemory>, AllocError> {
        let mut held = HeldMemory {
            kept: Vec::with_capacity(alloc, MOST_KEPT)?,
            slots: Vec::with_capacity(alloc, slots)?,
            gaps: Vec::with_capacity(alloc, slots)?,
        };
        held.set_aside(alloc, slots)?;
        let is_taken = held.take(alloc, LARGEST) && held.kept.len() <= MOST_BLOCKS;
        Ok(if is_taken { Some(held) } else { None })
    }

    fn set_aside(&mut self, alloc: Global, slots: usize) -> Result<(), AllocError> {
        for _ in 0..slots {
            self.slots.push(Vec::with_capacity(alloc, SLOT)?)?;
            self.gaps.push(Vec::with_capacity(alloc, GAP)?)?;
        }
        Ok(())
    }

    // Takes all memory, in blocks of at most `size` bytes, the largest first. Returns `false` if
    // there are too many blocks.
    fn take(&mut self, alloc: Global, size: usize) -> bool {
        let mut size = size;
        for _ in 0..MOST_KEPT {
            if self.kept.len() >= MOST_KEPT {
                return false;
            }
            match Vec::with_capacity(alloc, size) {
                Ok(block) => {
                    if self.kept.push(block).is_err() {
                        return false;
                    }
                }
                Err(_) if size <= SMALLEST => return true,
                Err(_) => size = next_size(size),
            }
        }
        false
    }

    /// Takes the memory that was freed since, and leaves one piece of at most `bytes` bytes, at
    /// most 64 KiB. Returns `false` if no slot is left, or if there are too many blocks.
    pub fn leave(&mut self, alloc: Global, bytes: usize) -> bool {
        if !self.take(alloc, SLOT) {
            return false;
        }
        let Some(slot) = self.slots.pop() else {
            return false;
        };
        drop(slot);
        match Vec::with_capacity(alloc, SLOT.saturating_sub(bytes)) {
            Ok(block) => self.kept.push(block).is_ok(),
            Err(_) => false,
        }
    }
}
