use smith_types::Items;

/// A change of a file: some of its bytes are replaced by others.
#[derive(Debug, Drop)]
pub struct Splice {
    /// The offset of the first byte that is replaced, counted from 0.
    pub at: usize,
    /// The number of bytes that are removed.
    pub removed: usize,
    /// The bytes that stand in their place.
    pub inserted: Items<u8>,
}
