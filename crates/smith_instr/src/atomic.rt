// The numbers of `AtomicUpdate` are those of the binary format for `i32`, after the prefix.

/// The value of an atomic access, and the bytes of memory that it accesses: the threads proposal.
#[derive(Clone, Copy, Debug)]
pub enum AtomicWidth {
    I32,
    I64,
    I32Of8,
    I32Of16,
    I64Of8,
    I64Of16,
    I64Of32,
}

/// An update of a value by an atomic access: the threads proposal.
#[derive(Clone, Copy, Debug)]
pub enum AtomicUpdate {
    Add = 0x1E,
    Sub = 0x25,
    And = 0x2C,
    Or = 0x33,
    Xor = 0x3A,
    Exchange = 0x41,
}

/// An atomic access to memory: the threads proposal.
#[derive(Clone, Copy, Debug)]
pub enum AtomicAccess {
    /// `memory.atomic.notify`.
    Notify,
    /// `memory.atomic.wait32`.
    Wait32,
    /// `memory.atomic.wait64`.
    Wait64,
    /// An atomic load.
    Load(AtomicWidth),
    /// An atomic store.
    Store(AtomicWidth),
    /// An atomic read-modify-write access.
    Update(AtomicUpdate, AtomicWidth),
    /// An atomic compare-and-exchange access.
    CompareExchange(AtomicWidth),
}
