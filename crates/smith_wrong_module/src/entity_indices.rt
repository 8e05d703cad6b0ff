use crate::indices::Pick;
use smith_instr::{AggregateInstr, Instr, MemArg, MemoryInstr, ReferenceInstr, TableInstr};

/// Picks another local for `instruction`, of `count`.
pub(crate) fn pick_local(instruction: &Instr, pick: Pick, count: u64) -> Option<Instr> {
    match instruction {
        Instr::LocalGet(own) => Some(Instr::LocalGet(pick.index(*own, count)?)),
        Instr::LocalSet(own) => Some(Instr::LocalSet(pick.index(*own, count)?)),
        Instr::LocalTee(own) => Some(Instr::LocalTee(pick.index(*own, count)?)),
        _ => None,
    }
}

/// Picks another global for `instruction`, of `count`.
pub(crate) fn pick_global(instruction: &Instr, pick: Pick, count: u64) -> Option<Instr> {
    match instruction {
        Instr::GlobalGet(own) => Some(Instr::GlobalGet(pick.index(*own, count)?)),
        Instr::GlobalSet(own) => Some(Instr::GlobalSet(pick.index(*own, count)?)),
        _ => None,
    }
}

/// Picks another function for `instruction`, of `count`.
pub(crate) fn pick_function(instruction: &Instr, pick: Pick, count: u64) -> Option<Instr> {
    match instruction {
        Instr::Call(own) => Some(Instr::Call(pick.index(*own, count)?)),
        Instr::ReturnCall(own) => Some(Instr::ReturnCall(pick.index(*own, count)?)),
        Instr::Reference(ReferenceInstr::Func(own)) => {
            let index = pick.index(*own, count)?;
            Some(Instr::Reference(ReferenceInstr::Func(index)))
        }
        _ => None,
    }
}

/// Picks another tag for `instruction`, of `count`.
pub(crate) fn pick_tag(instruction: &Instr, pick: Pick, count: u64) -> Option<Instr> {
    match instruction {
        Instr::Throw(own) => Some(Instr::Throw(pick.index(*own, count)?)),
        _ => None,
    }
}

fn pick_in_place(at: MemArg, pick: Pick, count: u64) -> Option<MemArg> {
    Some(MemArg {
        align: at.align,
        offset: at.offset,
        memory: pick.index(at.memory, count)?,
    })
}

// Picks another memory for an instruction on a whole memory.
fn pick_whole_memory(instruction: MemoryInstr, pick: Pick, count: u64) -> Option<MemoryInstr> {
    Some(match instruction {
        MemoryInstr::Size(own) => MemoryInstr::Size(pick.index(own, count)?),
        MemoryInstr::Grow(own) => MemoryInstr::Grow(pick.index(own, count)?),
        MemoryInstr::Fill(own) => MemoryInstr::Fill(pick.index(own, count)?),
        MemoryInstr::Copy { to, from } => MemoryInstr::Copy {
            to: pick.index(to, count)?,
            from,
        },
        MemoryInstr::Init { memory, segment } => MemoryInstr::Init {
            memory: pick.index(memory, count)?,
            segment,
        },
        MemoryInstr::DataDrop(_) => return None,
    })
}

/// Picks another memory for `instruction`, of `count`.
pub(crate) fn pick_memory(instruction: &Instr, pick: Pick, count: u64) -> Option<Instr> {
    Some(match instruction {
        Instr::Load(op, at) => Instr::Load(*op, pick_in_place(*at, pick, count)?),
        Instr::Store(op, at) => Instr::Store(*op, pick_in_place(*at, pick, count)?),
        Instr::VectorLoad(op, at) => Instr::VectorLoad(*op, pick_in_place(*at, pick, count)?),
        Instr::VectorStore(at) => Instr::VectorStore(pick_in_place(*at, pick, count)?),
        Instr::Atomic(op, at) => Instr::Atomic(*op, pick_in_place(*at, pick, count)?),
        Instr::Memory(op) => Instr::Memory(pick_whole_memory(*op, pick, count)?),
        _ => return None,
    })
}

// Picks another table for a table instruction.
fn pick_whole_table(instruction: TableInstr, pick: Pick, count: u64) -> Option<TableInstr> {
    Some(match instruction {
        TableInstr::Get(own) => TableInstr::Get(pick.index(own, count)?),
        TableInstr::Set(own) => TableInstr::Set(pick.index(own, count)?),
        TableInstr::Size(own) => TableInstr::Size(pick.index(own, count)?),
        TableInstr::Grow(own) => TableInstr::Grow(pick.index(own, count)?),
        TableInstr::Fill(own) => TableInstr::Fill(pick.index(own, count)?),
        TableInstr::Copy { to, from } => TableInstr::Copy {
            to: pick.index(to, count)?,
            from,
        },
        TableInstr::Init { table, segment } => TableInstr::Init {
            table: pick.index(table, count)?,
            segment,
        },
        TableInstr::ElemDrop(_) => return None,
    })
}

/// Picks another table for `instruction`, of `count`.
pub(crate) fn pick_table(instruction: &Instr, pick: Pick, count: u64) -> Option<Instr> {
    Some(match instruction {
        Instr::Table(op) => Instr::Table(pick_whole_table(*op, pick, count)?),
        Instr::CallIndirect { table, ty } => Instr::CallIndirect {
            table: pick.index(*table, count)?,
            ty: *ty,
        },
        Instr::ReturnCallIndirect { table, ty } => Instr::ReturnCallIndirect {
            table: pick.index(*table, count)?,
            ty: *ty,
        },
        _ => return None,
    })
}

/// Picks another element segment for `instruction`, of `count`.
pub(crate) fn pick_element(instruction: &Instr, pick: Pick, count: u64) -> Option<Instr> {
    Some(match instruction {
        Instr::Table(TableInstr::ElemDrop(own)) => {
            Instr::Table(TableInstr::ElemDrop(pick.index(*own, count)?))
        }
        Instr::Table(TableInstr::Init { table, segment }) => Instr::Table(TableInstr::Init {
            table: *table,
            segment: pick.index(*segment, count)?,
        }),
        Instr::Aggregate(AggregateInstr::ArrayNewElem { ty, segment }) => {
            let segment = pick.index(*segment, count)?;
            Instr::Aggregate(AggregateInstr::ArrayNewElem { ty: *ty, segment })
        }
        Instr::Aggregate(AggregateInstr::ArrayInitElem { ty, segment }) => {
            let segment = pick.index(*segment, count)?;
            Instr::Aggregate(AggregateInstr::ArrayInitElem { ty: *ty, segment })
        }
        _ => return None,
    })
}

/// Picks another data segment for `instruction`, of `count`.
pub(crate) fn pick_data(instruction: &Instr, pick: Pick, count: u64) -> Option<Instr> {
    Some(match instruction {
        Instr::Memory(MemoryInstr::DataDrop(own)) => {
            Instr::Memory(MemoryInstr::DataDrop(pick.index(*own, count)?))
        }
        Instr::Memory(MemoryInstr::Init { memory, segment }) => Instr::Memory(MemoryInstr::Init {
            memory: *memory,
            segment: pick.index(*segment, count)?,
        }),
        Instr::Aggregate(AggregateInstr::ArrayNewData { ty, segment }) => {
            let segment = pick.index(*segment, count)?;
            Instr::Aggregate(AggregateInstr::ArrayNewData { ty: *ty, segment })
        }
        Instr::Aggregate(AggregateInstr::ArrayInitData { ty, segment }) => {
            let segment = pick.index(*segment, count)?;
            Instr::Aggregate(AggregateInstr::ArrayInitData { ty: *ty, segment })
        }
        _ => return None,
    })
}
