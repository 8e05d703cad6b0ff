use crate::aggregate::AggregateInstr;
use crate::atomic::AtomicAccess;
use crate::control::{BlockType, BranchCast, Catch};
use crate::memory::{Load, MemArg, MemoryInstr, Store};
use crate::numeric::NumericInstr;
use crate::reference::ReferenceInstr;
use crate::table::TableInstr;
use crate::vector::{VectorInstr, VectorLoad};
use smith_types::{Items, ValType};

/// An instruction: the standard's section Structure, Instructions, flat as in its text and binary
/// formats. A `block`, `loop`, `if` or `try_table` extends to its `End`. Labels, functions, types
/// and other entities are named by their indices.
#[derive(Debug, Drop)]
pub enum Instr {
    /// `unreachable`.
    Unreachable,
    /// `nop`.
    Nop,
    /// `block`.
    Block(BlockType),
    /// `loop`.
    Loop(BlockType),
    /// `if`.
    If(BlockType),
    /// `else`.
    Else,
    /// `end`.
    End,
    /// `try_table`, with its clauses.
    TryTable(BlockType, Items<Catch>),
    /// `throw` of a tag.
    Throw(u32),
    /// `throw_ref`.
    ThrowRef,
    /// `br` to a label.
    Br(u32),
    /// `br_if` to a label.
    BrIf(u32),
    /// `br_table` with a list of labels and a default label.
    BrTable(Items<u32>, u32),
    /// `br_on_null` to a label.
    BrOnNull(u32),
    /// `br_on_non_null` to a label.
    BrOnNonNull(u32),
    /// `br_on_cast`.
    BrOnCast(BranchCast),
    /// `br_on_cast_fail`.
    BrOnCastFail(BranchCast),
    /// `return`.
    Return,
    /// `call` of a function.
    Call(u32),
    /// `call_indirect` of a function of the type `ty` in a table.
    CallIndirect {
        table: u32,
        ty: u32,
    },
    /// `call_ref` of a function of a type.
    CallRef(u32),
    /// `return_call` of a function.
    ReturnCall(u32),
    /// `return_call_indirect` of a function of the type `ty` in a table.
    ReturnCallIndirect {
        table: u32,
        ty: u32,
    },
    /// `return_call_ref` of a function of a type.
    ReturnCallRef(u32),
    /// `drop`.
    Drop,
    /// `select` without a type.
    Select,
    /// `select` with a list of types, which has exactly one type if the instruction is valid.
    SelectTyped(Items<ValType>),
    /// `local.get` of a local.
    LocalGet(u32),
    /// `local.set` of a local.
    LocalSet(u32),
    /// `local.tee` of a local.
    LocalTee(u32),
    /// `global.get` of a global.
    GlobalGet(u32),
    /// `global.set` of a global.
    GlobalSet(u32),
    /// `i32.const`, with the value.
    I32Const(i32),
    /// `i64.const`, with the value.
    I64Const(i64),
    /// `f32.const`, with the bits of the value.
    F32Const(u32),
    /// `f64.const`, with the bits of the value.
    F64Const(u64),
    /// `v128.const`, with the bits of the value.
    V128Const(i128),
    /// A numeric instruction without immediates.
    Numeric(NumericInstr),
    /// A reference instruction.
    Reference(ReferenceInstr),
    /// A table instruction.
    Table(TableInstr),
    /// A load of a number.
    Load(Load, MemArg),
    /// A store of a number.
    Store(Store, MemArg),
    /// An instruction on a whole memory or a data segment.
    Memory(MemoryInstr),
    /// An aggregate instruction.
    Aggregate(AggregateInstr),
    /// A vector instruction that accesses no memory.
    Vector(VectorInstr),
    /// A load of a vector.
    VectorLoad(VectorLoad, MemArg),
    /// `v128.store`.
    VectorStore(MemArg),
    /// A load into the lane `lane`, which has `2 ^ log2_bytes` bytes.
    VectorLoadLane {
        log2_bytes: u32,
        at: MemArg,
        lane: u8,
    },
    /// A store of the lane `lane`, which has `2 ^ log2_bytes` bytes.
    VectorStoreLane {
        log2_bytes: u32,
        at: MemArg,
        lane: u8,
    },
    /// An atomic access to memory.
    Atomic(AtomicAccess, MemArg),
    /// `atomic.fence`.
    AtomicFence,
}
