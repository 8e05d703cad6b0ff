use rand_core::{Rng, SeedableRng};
use rand_xoshiro::Xoshiro256PlusPlus;
use smith_bytes::Unstructured;
use std::alloc::{AllocError, Global};

// The number of bytes from which changes are drawn, and of those that an input gives at most.
const LENGTH: usize = 1024;

const FROM_INPUT: usize = 512;

/// Returns bytes from which changes of `twin` are drawn: the first ones that are left in `u`, and after
/// them pseudorandom ones that depend on `twin` alone.
pub(crate) fn seed_of(
    alloc: Global,
    twin: &[u8],
    u: &Unstructured<'_>,
) -> Result<Vec<u8>, AllocError> {
    let mut bytes = vec![in alloc; 0; LENGTH]?;
    Xoshiro256PlusPlus::seed_from_u64(hash(twin)).fill_bytes(bytes.as_mut_slice());
    let left = u.peek_bytes(u.len().min(FROM_INPUT)).unwrap_or(&[]);
    for (byte, given) in bytes.iter_mut().zip(left) {
        *byte = *given;
    }
    Ok(bytes)
}

// Returns the 64 bits of the hash FNV-1a of `bytes`.
fn hash(bytes: &[u8]) -> u64 {
    let mut hash: u64 = 0xCBF2_9CE4_8422_2325;
    for byte in bytes {
        hash = (hash ^ u64::from(*byte)).wrapping_mul(0x0000_0100_0000_01B3);
    }
    hash
}
