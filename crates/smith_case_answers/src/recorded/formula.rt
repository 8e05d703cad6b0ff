use std::alloc::{AllocError, Global};

/// A formula that numbers inputs.
#[derive(Clone, Copy)]
pub(crate) enum Formula {
    /// Input k has k bytes, and byte i of it is `31 * i + 17 * k`, modulo 256.
    Plain,
    /// Input k has `64 + 4 * k` bytes. They are the bits 16 to 23 of the states of a linear
    /// congruential generator after the initial state k + 1: whole if 4 divides k, else modulo 2, 4
    /// or 8 if k is 1, 2 or 3 modulo 4. Small numbers make large modules, since they seldom end a
    /// list.
    Rich,
}

/// Finds the formula named `name`, if there is one.
pub(crate) fn formula_named(name: &str) -> Option<Formula> {
    match name {
        "plain" => Some(Formula::Plain),
        "rich" => Some(Formula::Rich),
        _ => None,
    }
}

impl Formula {
    /// Creates the input with the number `number`.
    pub(crate) fn input(self, alloc: Global, number: u32) -> Result<Vec<u8>, AllocError> {
        match self {
            Formula::Plain => plain_input(alloc, number),
            Formula::Rich => rich_input(alloc, number),
        }
    }
}

fn plain_input(alloc: Global, number: u32) -> Result<Vec<u8>, AllocError> {
    let start = number.wrapping_mul(17);
    let mut input = Vec::with_capacity(alloc, number as usize)?;
    for i in 0..number {
        input.push(low_byte(i.wrapping_mul(31).wrapping_add(start)))?;
    }
    Ok(input)
}

fn rich_input(alloc: Global, number: u32) -> Result<Vec<u8>, AllocError> {
    let mask = mask_of(number);
    let mut state = number.wrapping_add(1);
    let mut input = Vec::new(alloc);
    for _ in 0..number.saturating_mul(4).saturating_add(64) {
        state = next_state(state);
        input.push(low_byte(state >> 16) & mask)?;
    }
    Ok(input)
}

// Returns the state after `state`, below 2^31. The loss of multiples of 2^32 does not change it.
fn next_state(state: u32) -> u32 {
    state.wrapping_mul(1_103_515_245).wrapping_add(12_345) & 0x7fff_ffff
}

// Returns the mask of the bits that bytes of the input have.
fn mask_of(number: u32) -> u8 {
    match number % 4 {
        0 => 255,
        1 => 1,
        2 => 3,
        _ => 7,
    }
}

fn low_byte(number: u32) -> u8 {
    let [low, ..] = number.to_le_bytes();
    low
}
