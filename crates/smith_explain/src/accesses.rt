ghost use Rattle.std.specs.Prelude.{◌≡◌, IfErr};

use crate::operands::{index_type, push_values};
use smith_bytes::Error;
use smith_check_instr::memory::narrower_type;
use smith_check_operands::Scope;
use smith_check_operands::lookups::address_type;
use smith_check_rules::Slot;
use smith_instr::{
    AtomicAccess, AtomicWidth, Instr, LaneShape, MemoryInstr, TableInstr, VectorInstr,
};
use smith_types::ValType;

// Returns whether the addresses of a memory are of 64 bits.
fn is_memory_wide(scope: &Scope, memory: u32) -> bool {
    match scope.memories.get(memory as usize) {
        Some(ty) => ty.memory64,
        None => false,
    }
}

fn address_of(scope: &Scope, memory: u32) -> ValType {
    address_type(is_memory_wide(scope, memory))
}

// Returns whether the indices of a table are of 64 bits.
fn is_table_wide(scope: &Scope, table: u32) -> bool {
    match scope.tables.get(table as usize) {
        Some(ty) => ty.table64,
        None => false,
    }
}

fn element_of(scope: &Scope, table: u32) -> ValType {
    match scope.tables.get(table as usize) {
        Some(ty) => ValType::Ref(ty.element_type),
        None => ValType::I32,
    }
}

// Appends the operands of an instruction on a whole memory.
fn push_memory(slots: &mut Vec<Slot>, scope: &Scope, op: MemoryInstr) -> Result<(), Error>
    ensures memory { IfErr result (λ e. e ≡ Error.Memory) }
{
    match op {
        MemoryInstr::Size(_) | MemoryInstr::DataDrop(_) => Ok(()),
        MemoryInstr::Grow(memory) => push_values(slots, &[address_of(scope, memory)]),
        MemoryInstr::Fill(memory) => {
            let address = address_of(scope, memory);
            push_values(slots, &[address, ValType::I32, address])
        }
        MemoryInstr::Copy { to, from } => {
            let count = narrower_type(is_memory_wide(scope, to), is_memory_wide(scope, from));
            push_values(
                slots,
                &[address_of(scope, to), address_of(scope, from), count],
            )
        }
        MemoryInstr::Init { memory, .. } => push_values(
            slots,
            &[address_of(scope, memory), ValType::I32, ValType::I32],
        ),
    }
}

// Appends the operands of a table instruction.
#[rattlefmt::skip]
fn push_table(slots: &mut Vec<Slot>, scope: &Scope, op: TableInstr) -> Result<(), Error>
    ensures memory { IfErr result (λ e. e ≡ Error.Memory) }
{
    match op {
        TableInstr::Size(_) | TableInstr::ElemDrop(_) => Ok(()),
        TableInstr::Get(table) => push_values(slots, &[index_type(scope, table)]),
        TableInstr::Set(table) => push_values(slots, &[index_type(scope, table), element_of(scope, table)]),
        TableInstr::Grow(table) => push_values(slots, &[element_of(scope, table), index_type(scope, table)]),
        TableInstr::Fill(table) => {
            let index = index_type(scope, table);
            push_values(slots, &[index, element_of(scope, table), index])
        }
        TableInstr::Copy { to, from } => {
            let count = narrower_type(is_table_wide(scope, to), is_table_wide(scope, from));
            push_values(
                slots,
                &[index_type(scope, to), index_type(scope, from), count],
            )
        }
        TableInstr::Init { table, .. } => push_values(slots, &[index_type(scope, table), ValType::I32, ValType::I32]),
    }
}

// Returns the type of a lane of a vector.
fn lane(shape: LaneShape) -> ValType {
    match shape {
        LaneShape::I8x16 | LaneShape::I16x8 | LaneShape::I32x4 => ValType::I32,
        LaneShape::I64x2 => ValType::I64,
        LaneShape::F32x4 => ValType::F32,
        LaneShape::F64x2 => ValType::F64,
    }
}

// Appends the operands of a vector instruction that accesses no memory.
fn push_vector(slots: &mut Vec<Slot>, op: VectorInstr) -> Result<(), Error>
    ensures memory { IfErr result (λ e. e ≡ Error.Memory) }
{
    match op {
        VectorInstr::Binary(_)
        | VectorInstr::FloatBinary(_)
        | VectorInstr::Shuffle(_)
        | VectorInstr::RelaxedBinary(_)
        | VectorInstr::RelaxedFloatBinary(_) => {
            push_values(slots, &[ValType::V128, ValType::V128])
        }
        VectorInstr::Bitselect
        | VectorInstr::RelaxedTernary(_)
        | VectorInstr::RelaxedFloatTernary(_) => {
            push_values(slots, &[ValType::V128, ValType::V128, ValType::V128])
        }
        VectorInstr::Shift(_, _) => push_values(slots, &[ValType::V128, ValType::I32]),
        VectorInstr::Splat(shape) => push_values(slots, &[lane(shape)]),
        VectorInstr::ReplaceLane(shape, _) => push_values(slots, &[ValType::V128, lane(shape)]),
        _ => push_values(slots, &[ValType::V128]),
    }
}

// Returns the type of the value of an atomic access.
fn accessed(width: AtomicWidth) -> ValType {
    match width {
        AtomicWidth::I32 | AtomicWidth::I32Of8 | AtomicWidth::I32Of16 => ValType::I32,
        _ => ValType::I64,
    }
}

// Appends the operands of an atomic access above its address.
fn push_atomic(slots: &mut Vec<Slot>, op: AtomicAccess) -> Result<(), Error>
    ensures memory { IfErr result (λ e. e ≡ Error.Memory) }
{
    match op {
        AtomicAccess::Notify => push_values(slots, &[ValType::I32]),
        AtomicAccess::Wait32 => push_values(slots, &[ValType::I32, ValType::I64]),
        AtomicAccess::Wait64 => push_values(slots, &[ValType::I64, ValType::I64]),
        AtomicAccess::Load(_) => Ok(()),
        AtomicAccess::Store(width) | AtomicAccess::Update(_, width) => {
            push_values(slots, &[accessed(width)])
        }
        AtomicAccess::CompareExchange(width) => {
            push_values(slots, &[accessed(width), accessed(width)])
        }
    }
}

/// Appends the operands of an instruction on a table or a memory, or on vectors.
pub fn push_access(slots: &mut Vec<Slot>, scope: &Scope, instr: &Instr) -> Result<(), Error>
    ensures memory { IfErr result (λ e. e ≡ Error.Memory) }
{
    match instr {
        Instr::Table(op) => push_table(slots, scope, *op),
        Instr::Memory(op) => push_memory(slots, scope, *op),
        Instr::Vector(op) => push_vector(slots, *op),
        Instr::Load(_, at) | Instr::VectorLoad(_, at) => {
            push_values(slots, &[address_of(scope, at.memory)])
        }
        Instr::Store(op, at) => { push_values(slots, &[address_of(scope, at.memory), op.value()]) }
        Instr::VectorStore(at)
        | Instr::VectorLoadLane { at, .. }
        | Instr::VectorStoreLane { at, .. } => {
            push_values(slots, &[address_of(scope, at.memory), ValType::V128])
        }
        Instr::Atomic(op, at) => {
            push_values(slots, &[address_of(scope, at.memory)])?;
            push_atomic(slots, *op)
        }
        _ => Ok(()),
    }
}
