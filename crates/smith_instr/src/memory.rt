// The numbers of loads and stores are their opcodes in the binary format.

/// The value that a load produces, and the bytes that it reads: the standard's section Structure,
/// Memory Instructions.
#[derive(Clone, Copy, Debug)]
pub enum Load {
    I32 = 0x28,
    I64 = 0x29,
    F32 = 0x2A,
    F64 = 0x2B,
    I32From8S = 0x2C,
    I32From8U = 0x2D,
    I32From16S = 0x2E,
    I32From16U = 0x2F,
    I64From8S = 0x30,
    I64From8U = 0x31,
    I64From16S = 0x32,
    I64From16U = 0x33,
    I64From32S = 0x34,
    I64From32U = 0x35,
}

/// The value that a store takes, and the bytes that it writes: the standard's section Structure,
/// Memory Instructions.
#[derive(Clone, Copy, Debug)]
pub enum Store {
    I32 = 0x36,
    I64 = 0x37,
    F32 = 0x38,
    F64 = 0x39,
    I32To8 = 0x3A,
    I32To16 = 0x3B,
    I64To8 = 0x3C,
    I64To16 = 0x3D,
    I64To32 = 0x3E,
}

/// A memory argument: the standard's section Structure, Memory Instructions.
#[derive(Clone, Copy, Debug)]
pub struct MemArg {
    /// The binary logarithm of the alignment.
    pub align: u32,
    /// The offset that is added to the address.
    pub offset: u64,
    /// The index of the memory.
    pub memory: u32,
}

/// An instruction on a whole memory or on a data segment: the standard's section Structure, Memory
/// Instructions.
#[derive(Clone, Copy, Debug)]
pub enum MemoryInstr {
    /// `memory.size` of a memory.
    Size(u32),
    /// `memory.grow` of a memory.
    Grow(u32),
    /// `memory.fill` of a memory.
    Fill(u32),
    /// `memory.copy` into the memory `to` from the memory `from`.
    Copy { to: u32, from: u32 },
    /// `memory.init` of a memory from a data segment.
    Init { memory: u32, segment: u32 },
    /// `data.drop` of a data segment.
    DataDrop(u32),
}
