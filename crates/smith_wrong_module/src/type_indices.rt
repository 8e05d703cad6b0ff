ghost use Rattle.std.specs.Prelude.{◌≡◌, IfErr};

use crate::indices::Pick;
use smith_bytes::Error;
use smith_instr::{AggregateInstr, BlockType, BranchCast, Catch, Instr, ReferenceInstr};
use smith_types::{HeapType, Items, RefType};
use std::alloc::Global;

fn pick_in_heap_type(ty: HeapType, pick: Pick, count: u64) -> Option<HeapType> {
    match ty {
        HeapType::Concrete(own) => Some(HeapType::Concrete(pick.index(own, count)?)),
        HeapType::Exact(own) => Some(HeapType::Exact(pick.index(own, count)?)),
        HeapType::Abstract { .. } => None,
    }
}

fn pick_in_reference(ty: RefType, pick: Pick, count: u64) -> Option<RefType> {
    Some(RefType {
        nullable: ty.nullable,
        heap_type: pick_in_heap_type(ty.heap_type, pick, count)?,
    })
}

// Picks another type for a reference instruction.
fn pick_reference(instruction: ReferenceInstr, pick: Pick, count: u64) -> Option<ReferenceInstr> {
    Some(match instruction {
        ReferenceInstr::Null(ty) => ReferenceInstr::Null(pick_in_heap_type(ty, pick, count)?),
        ReferenceInstr::Test(ty) => ReferenceInstr::Test(pick_in_reference(ty, pick, count)?),
        ReferenceInstr::Cast(ty) => ReferenceInstr::Cast(pick_in_reference(ty, pick, count)?),
        _ => return None,
    })
}

// Picks another type for an instruction on a struct.
#[rattlefmt::skip]
fn pick_struct(instruction: AggregateInstr, pick: Pick, count: u64) -> Option<AggregateInstr> {
    Some(match instruction {
        AggregateInstr::StructNew(ty) => AggregateInstr::StructNew(pick.index(ty, count)?),
        AggregateInstr::StructNewDefault(ty) => AggregateInstr::StructNewDefault(pick.index(ty, count)?),
        AggregateInstr::StructGet { ty, field, extension } => AggregateInstr::StructGet { ty: pick.index(ty, count)?, field, extension },
        AggregateInstr::StructSet { ty, field } => AggregateInstr::StructSet { ty: pick.index(ty, count)?, field },
        _ => return None,
    })
}

// Picks another type for an instruction on an array.
#[rattlefmt::skip]
fn pick_array(instruction: AggregateInstr, pick: Pick, count: u64) -> Option<AggregateInstr> {
    Some(match instruction {
        AggregateInstr::ArrayNew(ty) => AggregateInstr::ArrayNew(pick.index(ty, count)?),
        AggregateInstr::ArrayNewDefault(ty) => AggregateInstr::ArrayNewDefault(pick.index(ty, count)?),
        AggregateInstr::ArrayNewFixed { ty, size } => AggregateInstr::ArrayNewFixed { ty: pick.index(ty, count)?, size },
        AggregateInstr::ArrayGet { ty, extension } => AggregateInstr::ArrayGet { ty: pick.index(ty, count)?, extension },
        AggregateInstr::ArraySet(ty) => AggregateInstr::ArraySet(pick.index(ty, count)?),
        AggregateInstr::ArrayFill(ty) => AggregateInstr::ArrayFill(pick.index(ty, count)?),
        AggregateInstr::ArrayCopy { to, from } => AggregateInstr::ArrayCopy { to: pick.index(to, count)?, from },
        _ => return None,
    })
}

fn pick_block(ty: BlockType, pick: Pick, count: u64) -> Option<BlockType> {
    match ty {
        BlockType::Func(own) => Some(BlockType::Func(pick.index(own, count)?)),
        BlockType::Empty | BlockType::Value(_) => None,
    }
}

/// Picks another type for `instruction`, of `count`.
#[rattlefmt::skip]
pub(crate) fn pick_type(instruction: &Instr, pick: Pick, count: u64) -> Option<Instr> {
    Some(match instruction {
        Instr::Block(ty) => Instr::Block(pick_block(*ty, pick, count)?),
        Instr::Loop(ty) => Instr::Loop(pick_block(*ty, pick, count)?),
        Instr::If(ty) => Instr::If(pick_block(*ty, pick, count)?),
        Instr::CallRef(own) => Instr::CallRef(pick.index(*own, count)?),
        Instr::ReturnCallRef(own) => Instr::ReturnCallRef(pick.index(*own, count)?),
        Instr::CallIndirect { table, ty } => Instr::CallIndirect { table: *table, ty: pick.index(*ty, count)? },
        Instr::ReturnCallIndirect { table, ty } => Instr::ReturnCallIndirect { table: *table, ty: pick.index(*ty, count)? },
        Instr::Reference(op) => Instr::Reference(pick_reference(*op, pick, count)?),
        Instr::Aggregate(op) => match pick_struct(*op, pick, count) {
            Some(changed) => Instr::Aggregate(changed),
            None => Instr::Aggregate(pick_array(*op, pick, count)?),
        },
        _ => return None,
    })
}

fn pick_in_cast(cast: BranchCast, pick: Pick, count: u64) -> Option<BranchCast> {
    Some(BranchCast {
        label: pick.index(cast.label, count)?,
        from: cast.from,
        to: cast.to,
    })
}

/// Picks another label for the branch `instruction`, of `count`.
pub(crate) fn pick_label(instruction: &Instr, pick: Pick, count: u64) -> Option<Instr> {
    Some(match instruction {
        Instr::Br(own) => Instr::Br(pick.index(*own, count)?),
        Instr::BrIf(own) => Instr::BrIf(pick.index(*own, count)?),
        Instr::BrOnNull(own) => Instr::BrOnNull(pick.index(*own, count)?),
        Instr::BrOnNonNull(own) => Instr::BrOnNonNull(pick.index(*own, count)?),
        Instr::BrOnCast(cast) => Instr::BrOnCast(pick_in_cast(*cast, pick, count)?),
        Instr::BrOnCastFail(cast) => Instr::BrOnCastFail(pick_in_cast(*cast, pick, count)?),
        _ => return None,
    })
}

#[rattlefmt::skip]
fn pick_in_catch(catch: Catch, pick: Pick, count: u64) -> Option<Catch> {
    Some(match catch {
        Catch::One { tag, label } => Catch::One { tag, label: pick.index(label, count)? },
        Catch::OneRef { tag, label } => Catch::OneRef { tag, label: pick.index(label, count)? },
        Catch::All { label } => Catch::All { label: pick.index(label, count)? },
        Catch::AllRef { label } => Catch::AllRef { label: pick.index(label, count)? },
    })
}

// Picks another label for the first of `catches`.
fn pick_in_catches(
    alloc: Global,
    catches: &[Catch],
    pick: Pick,
    count: u64,
) -> Result<Option<Items<Catch>>, Error>
    ensures memory { IfErr result (λ e. e ≡ Error.Memory) }
{
    let [first, rest @ ..] = catches else {
        return Ok(None);
    };
    match pick_in_catch(*first, pick, count) {
        None => Ok(None),
        Some(changed) => {
            let mut all = Items::from_slice(alloc, &[changed])?;
            all.extend_from_slice(rest)?;
            Ok(Some(all))
        }
    }
}

/// Picks another label for the `br_table` or the `try_table` `instruction`, of `count`: the last label, or
/// that of the first clause.
pub(crate) fn pick_listed_label(
    alloc: Global,
    instruction: &Instr,
    pick: Pick,
    count: u64,
) -> Result<Option<Instr>, Error>
    ensures memory { IfErr result (λ e. e ≡ Error.Memory) }
{
    match instruction {
        Instr::BrTable(labels, own) => match pick.index(*own, count) {
            None => Ok(None),
            Some(last) => Ok(Some(Instr::BrTable(labels.copy_in(alloc)?, last))),
        },
        Instr::TryTable(ty, catches) => {
            match pick_in_catches(alloc, catches.as_slice(), pick, count)? {
                None => Ok(None),
                Some(changed) => Ok(Some(Instr::TryTable(*ty, changed))),
            }
        }
        _ => Ok(None),
    }
}
