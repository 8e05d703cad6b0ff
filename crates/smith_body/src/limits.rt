ghost use Rattle.std.specs.Prelude.{◌≡◌, ◌≤◌};
ghost use Rattle.smith_types.specs.Entities.{page_log2};
ghost use Rattle.smith_body.specs.Limits.{access_limit, array_limit, atomic_limit};
ghost use Rattle.smith_body.specs.Limits.{below_end, by_place, elements_in, least_size};
ghost use Rattle.smith_body.specs.Limits.{limit_at, limit_of, memory_limit, table_limit};
ghost use Rattle.smith_body_nodes.specs.Scopes.{IsScope, bare};

use smith_body_nodes::{Head, Scope};
use smith_instr::{AggregateInstr, AtomicAccess, Instr, MemArg, MemoryInstr, TableInstr};
use smith_types::MemoryType;

/// The limit of indices into arrays and segments, and of the lengths of copies there.
const FEW: u64 = 4;

/// The limit of the lengths of new arrays, and of the elements that a table grows by.
const SEVERAL: u64 = 16;

/// The limit of the lengths of bytes that are filled or copied in memories.
const BYTES: u64 = 64;

/// Returns the limit of an operand of `head` if it is an address, an index or a length. Most drawn
/// operands are below their limit. There are `above` operands above this one.
pub(crate) fn limit_at(scope: &Scope<'_>, head: &Head, above: usize) -> Option<u64>
    requires scope { IsScope (bare scope.now) }
    ensures { result ≡ limit_at scope.now.tables.now scope.now.memories.now head.now above }
{
    let Head::Plain(instruction) = head else {
        return None;
    };
    let limit = limit_of(scope, instruction, above);
    if limit == 0 {
        return None;
    }
    Some(limit)
}

/// Returns the limit of an operand of `instruction`, or 0 if it has none.
fn limit_of(scope: &Scope<'_>, instruction: &Instr, above: usize) -> u64
    requires scope { IsScope (bare scope.now) }
    ensures { result ≡ limit_of scope.now.tables.now scope.now.memories.now instruction.now above }
{
    match instruction {
        Instr::Load(_, at) | Instr::VectorLoad(_, at) => {
            by_place(above, access_limit(scope, *at), 0, 0)
        }
        Instr::Store(_, at) | Instr::VectorStore(at) => {
            by_place(above, 0, access_limit(scope, *at), 0)
        }
        Instr::VectorLoadLane { at, .. } | Instr::VectorStoreLane { at, .. } => {
            by_place(above, 0, access_limit(scope, *at), 0)
        }
        Instr::Atomic(op, at) => atomic_limit(*op, access_limit(scope, *at), above),
        Instr::CallIndirect { table, .. } | Instr::ReturnCallIndirect { table, .. } => {
            by_place(above, elements_in(scope, *table), 0, 0)
        }
        Instr::Table(op) => table_limit(scope, *op, above),
        Instr::Memory(op) => memory_limit(scope, *op, above),
        Instr::Aggregate(op) => array_limit(*op, above),
        _ => 0,
    }
}

/// Returns the number for the top operand, the second or the third.
fn by_place(above: usize, last: u64, second: u64, third: u64) -> u64
    ensures { result ≡ by_place above last second third }
{
    match above {
        0 => last,
        1 => second,
        2 => third,
        _ => 0,
    }
}

fn atomic_limit(op: AtomicAccess, limit: u64, above: usize) -> u64
    ensures { result ≡ atomic_limit op limit above }
{
    match op {
        AtomicAccess::Load(_) => by_place(above, limit, 0, 0),
        AtomicAccess::Notify | AtomicAccess::Store(_) => by_place(above, 0, limit, 0),
        AtomicAccess::Update(_, _) => by_place(above, 0, limit, 0),
        AtomicAccess::Wait32 | AtomicAccess::Wait64 => by_place(above, 0, 0, limit),
        AtomicAccess::CompareExchange(_) => by_place(above, 0, 0, limit),
    }
}

fn table_limit(scope: &Scope<'_>, op: TableInstr, above: usize) -> u64
    ensures { result ≡ table_limit scope.now.tables.now op above }
{
    match op {
        TableInstr::Get(table) => by_place(above, elements_in(scope, table), 0, 0),
        TableInstr::Set(table) => by_place(above, 0, elements_in(scope, table), 0),
        TableInstr::Grow(_) => by_place(above, SEVERAL, 0, 0),
        TableInstr::Fill(table) => by_place(above, FEW, 0, elements_in(scope, table)),
        TableInstr::Copy { to, from } => {
            by_place(above, FEW, elements_in(scope, from), elements_in(scope, to))
        }
        TableInstr::Init { table, .. } => by_place(above, FEW, FEW, elements_in(scope, table)),
        TableInstr::Size(_) | TableInstr::ElemDrop(_) => 0,
    }
}

fn memory_limit(scope: &Scope<'_>, op: MemoryInstr, above: usize) -> u64
    requires scope { IsScope (bare scope.now) }
    ensures { result ≡ memory_limit scope.now.memories.now op above }
{
    match op {
        MemoryInstr::Grow(_) => by_place(above, FEW, 0, 0),
        MemoryInstr::Fill(memory) => by_place(above, BYTES, 0, below_end(scope, memory, BYTES - 1)),
        MemoryInstr::Copy { to, from } => {
            let source = below_end(scope, from, BYTES - 1);
            by_place(above, BYTES, source, below_end(scope, to, BYTES - 1))
        }
        MemoryInstr::Init { memory, .. } => {
            by_place(above, FEW, FEW, below_end(scope, memory, FEW - 1))
        }
        MemoryInstr::Size(_) | MemoryInstr::DataDrop(_) => 0,
    }
}

fn array_limit(op: AggregateInstr, above: usize) -> u64
    ensures { result ≡ array_limit op above }
{
    match op {
        AggregateInstr::ArrayNew(_) | AggregateInstr::ArrayNewDefault(_) => {
            by_place(above, SEVERAL, 0, 0)
        }
        AggregateInstr::ArrayNewData { .. } | AggregateInstr::ArrayNewElem { .. } => FEW,
        AggregateInstr::ArrayGet { .. } => by_place(above, FEW, 0, 0),
        AggregateInstr::ArraySet(_) => by_place(above, 0, FEW, 0),
        AggregateInstr::ArrayFill(_) => by_place(above, FEW, 0, FEW),
        AggregateInstr::ArrayCopy { .. } => FEW,
        AggregateInstr::ArrayInitData { .. } | AggregateInstr::ArrayInitElem { .. } => FEW,
        _ => 0,
    }
}

/// Returns the limit of the address of an access. For an address below it, the 16 bytes from the
/// effective address on are within the minimum size of the memory. No access has more bytes.
fn access_limit(scope: &Scope<'_>, at: MemArg) -> u64
    requires scope { IsScope (bare scope.now) }
    ensures { result ≡ access_limit scope.now.memories.now at }
{
    below_end(scope, at.memory, at.offset).saturating_sub(15)
}

/// Returns the minimum number of bytes of a memory, less `bytes`.
fn below_end(scope: &Scope<'_>, memory: u32, bytes: u64) -> u64
    requires scope { IsScope (bare scope.now) }
    ensures { result ≡ below_end scope.now.memories.now memory bytes }
{
    match scope.memories.get(memory as usize) {
        Some(memory) => least_size(*memory).saturating_sub(bytes),
        None => 0,
    }
}

/// Returns the minimum number of bytes of `memory`, at most the greatest of 64 bits.
fn least_size(memory: MemoryType) -> u64
    requires { page_log2 memory.page_size_log2 ≤ 16 }
    ensures { result ≡ least_size memory }
{
    memory
        .minimum
        .saturating_mul(1 << memory.page_size_log2.unwrap_or(16))
}

/// Returns the minimum number of elements of a table.
fn elements_in(scope: &Scope<'_>, table: u32) -> u64
    ensures { result ≡ elements_in scope.now.tables.now table }
{
    match scope.tables.get(table as usize) {
        Some(table) => table.minimum,
        None => 0,
    }
}
