ghost use Rattle.std.specs.Prelude.{◌≡◌};
ghost use Rattle.smith_explain.specs.Names.{
  aggregate_names,
  block_names,
  clause_names,
  data_names,
  heap_name,
  memory_names,
  names,
  nothing_named,
  one_name,
  reference_names,
  table_names,
  two_names,
};

use crate::explanation::{Named, Space};
use smith_instr::{
    AggregateInstr, BlockType, Catch, Instr, MemoryInstr, ReferenceInstr, TableInstr,
};
use smith_types::{HeapType, ValType};

/// The items that an instruction names: at most three, the lists of `br_table` and `try_table` aside.
#[derive(Clone, Copy, Debug)]
pub struct Names {
    /// The first.
    pub first: Option<Named>,
    /// The second.
    pub second: Option<Named>,
    /// The third.
    pub third: Option<Named>,
}

fn nothing() -> Names
    ensures { result ≡ nothing_named }
{
    Names {
        first: None,
        second: None,
        third: None,
    }
}

fn one(space: Space, index: u32) -> Names
    ensures { result ≡ one_name space index }
{
    Names {
        first: Some(Named { space, index }),
        second: None,
        third: None,
    }
}

fn two(space: Space, index: u32, other: Space, second: u32) -> Names
    ensures { result ≡ two_names space index other second }
{
    Names {
        first: Some(Named { space, index }),
        second: Some(Named {
            space: other,
            index: second,
        }),
        third: None,
    }
}

// Returns the type that a heap type names, if it names one.
fn heap_name(heap_type: HeapType) -> Option<Named>
    ensures { result ≡ heap_name heap_type }
{
    match heap_type {
        HeapType::Abstract { .. } => None,
        HeapType::Concrete(index) | HeapType::Exact(index) => Some(Named {
            space: Space::Type,
            index,
        }),
    }
}

// Returns what the type of a block names.
fn block_names(ty: BlockType) -> Names
    ensures { result ≡ block_names ty }
{
    match ty {
        BlockType::Func(index) => one(Space::Type, index),
        BlockType::Value(ValType::Ref(reference)) => Names {
            first: heap_name(reference.heap_type),
            second: None,
            third: None,
        },
        _ => nothing(),
    }
}

/// Returns what a clause of `try_table` names.
pub fn clause_names(clause: Catch) -> Names
    ensures { result ≡ clause_names clause }
{
    match clause {
        Catch::One { tag, label } | Catch::OneRef { tag, label } => {
            two(Space::Tag, tag, Space::Label, label)
        }
        Catch::All { label } | Catch::AllRef { label } => one(Space::Label, label),
    }
}

fn reference_names(op: ReferenceInstr) -> Names
    ensures { result ≡ reference_names op }
{
    match op {
        ReferenceInstr::Func(index) => one(Space::Function, index),
        ReferenceInstr::Null(heap_type) => Names {
            first: heap_name(heap_type),
            second: None,
            third: None,
        },
        ReferenceInstr::Test(reference) | ReferenceInstr::Cast(reference) => Names {
            first: heap_name(reference.heap_type),
            second: None,
            third: None,
        },
        _ => nothing(),
    }
}

fn table_names(op: TableInstr) -> Names
    ensures { result ≡ table_names op }
{
    match op {
        TableInstr::Get(table)
        | TableInstr::Set(table)
        | TableInstr::Size(table)
        | TableInstr::Grow(table)
        | TableInstr::Fill(table) => one(Space::Table, table),
        TableInstr::Copy { to, from } => two(Space::Table, to, Space::Table, from),
        TableInstr::Init { table, segment } => two(Space::Table, table, Space::Element, segment),
        TableInstr::ElemDrop(segment) => one(Space::Element, segment),
    }
}

fn memory_names(op: MemoryInstr) -> Names
    ensures { result ≡ memory_names op }
{
    match op {
        MemoryInstr::Size(memory) | MemoryInstr::Grow(memory) | MemoryInstr::Fill(memory) => {
            one(Space::Memory, memory)
        }
        MemoryInstr::Copy { to, from } => two(Space::Memory, to, Space::Memory, from),
        MemoryInstr::Init { memory, segment } => two(Space::Memory, memory, Space::Data, segment),
        MemoryInstr::DataDrop(segment) => one(Space::Data, segment),
    }
}

#[rattlefmt::skip]
fn aggregate_names(op: AggregateInstr) -> Names
    ensures { result ≡ aggregate_names op }
{
    match op {
        AggregateInstr::StructNew(ty) | AggregateInstr::StructNewDefault(ty) | AggregateInstr::StructGet { ty, .. }
        | AggregateInstr::StructSet { ty, .. } | AggregateInstr::ArrayNew(ty) | AggregateInstr::ArrayNewDefault(ty)
        | AggregateInstr::ArrayNewFixed { ty, .. } | AggregateInstr::ArrayGet { ty, .. } | AggregateInstr::ArraySet(ty)
        | AggregateInstr::ArrayFill(ty) => one(Space::Type, ty),
        AggregateInstr::ArrayNewData { ty, segment }
        | AggregateInstr::ArrayInitData { ty, segment } => two(Space::Type, ty, Space::Data, segment),
        AggregateInstr::ArrayNewElem { ty, segment }
        | AggregateInstr::ArrayInitElem { ty, segment } => two(Space::Type, ty, Space::Element, segment),
        AggregateInstr::ArrayCopy { to, from } => two(Space::Type, to, Space::Type, from),
        _ => nothing(),
    }
}

/// Returns what an instruction names, the lists of `br_table` and `try_table` aside.
#[rattlefmt::skip]
pub fn names_of(instr: &Instr) -> Names
    ensures { result ≡ names instr.now }
{
    match instr {
        Instr::Block(ty) | Instr::Loop(ty) | Instr::If(ty) | Instr::TryTable(ty, _) => block_names(*ty),
        Instr::Throw(tag) => one(Space::Tag, *tag),
        Instr::Br(label) | Instr::BrIf(label) | Instr::BrTable(_, label) | Instr::BrOnNull(label)
        | Instr::BrOnNonNull(label) => one(Space::Label, *label),
        Instr::BrOnCast(cast) | Instr::BrOnCastFail(cast) => Names {
            first: Some(Named { space: Space::Label, index: cast.label }),
            second: heap_name(cast.from.heap_type),
            third: heap_name(cast.to.heap_type),
        },
        Instr::Call(function) | Instr::ReturnCall(function) => one(Space::Function, *function),
        Instr::CallIndirect { table, ty } | Instr::ReturnCallIndirect { table, ty } => two(Space::Table, *table, Space::Type, *ty),
        Instr::CallRef(ty) | Instr::ReturnCallRef(ty) => one(Space::Type, *ty),
        _ => data_names(instr),
    }
}

// Returns what an instruction on data names.
fn data_names(instr: &Instr) -> Names
    ensures { result ≡ data_names instr.now }
{
    match instr {
        Instr::LocalGet(local) | Instr::LocalSet(local) | Instr::LocalTee(local) => {
            one(Space::Local, *local)
        }
        Instr::GlobalGet(global) | Instr::GlobalSet(global) => one(Space::Global, *global),
        Instr::Reference(op) => reference_names(*op),
        Instr::Table(op) => table_names(*op),
        Instr::Memory(op) => memory_names(*op),
        Instr::Aggregate(op) => aggregate_names(*op),
        Instr::Load(_, at)
        | Instr::Store(_, at)
        | Instr::VectorLoad(_, at)
        | Instr::VectorStore(at)
        | Instr::VectorLoadLane { at, .. }
        | Instr::VectorStoreLane { at, .. }
        | Instr::Atomic(_, at) => one(Space::Memory, at.memory),
        _ => nothing(),
    }
}
