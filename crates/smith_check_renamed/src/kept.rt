ghost use Rattle.std.specs.Prelude.{◌≡◌, ℕ, IsTrue};
ghost use Rattle.smith_check_types.specs.Renamed.{renamed_heap, renamed_ref, renamed_val};
ghost use Rattle.smith_check_types.specs.TypeSections.{canonical_index};
ghost use Rattle.smith_check_renamed.specs.RenamedInstructions.{
  renamed_aggregate,
  renamed_block,
  renamed_body,
  renamed_cast,
  renamed_instr,
  renamed_reference,
};

use smith_check_types::canonical_index;
use smith_instr::{AggregateInstr, BlockType, BranchCast, Instr, ReferenceInstr};
use smith_types::{HeapType, RefType, ValType};

fn keeps_index(indices: &[u32], index: u32) -> bool
    ensures { IsTrue result → canonical_index indices.now index ≡ index }
{
    canonical_index(indices, index) == index
}

fn keeps_heap(indices: &[u32], heap_type: HeapType) -> bool
    ensures { IsTrue result → renamed_heap (canonical_index indices.now) heap_type ≡ heap_type }
{
    match heap_type {
        HeapType::Abstract { .. } => true,
        HeapType::Concrete(index) | HeapType::Exact(index) => keeps_index(indices, index),
    }
}

fn keeps_ref(indices: &[u32], reference: RefType) -> bool
    ensures { IsTrue result → renamed_ref (canonical_index indices.now) reference ≡ reference }
{
    keeps_heap(indices, reference.heap_type)
}

fn keeps_val(indices: &[u32], value: ValType) -> bool
    ensures { IsTrue result → renamed_val (canonical_index indices.now) value ≡ value }
{
    match value {
        ValType::Ref(reference) => keeps_ref(indices, reference),
        _ => true,
    }
}

fn keeps_block(indices: &[u32], ty: BlockType) -> bool
    ensures { IsTrue result → renamed_block (canonical_index indices.now) ty ≡ ty }
{
    match ty {
        BlockType::Empty => true,
        BlockType::Value(value) => keeps_val(indices, value),
        BlockType::Func(index) => keeps_index(indices, index),
    }
}

fn keeps_cast(indices: &[u32], cast: &BranchCast) -> bool
    ensures { IsTrue result → renamed_cast (canonical_index indices.now) cast.now ≡ cast.now }
{
    keeps_ref(indices, cast.from) && keeps_ref(indices, cast.to)
}

fn keeps_reference(indices: &[u32], op: &ReferenceInstr) -> bool
    ensures { IsTrue result → renamed_reference (canonical_index indices.now) op.now ≡ op.now }
{
    match op {
        ReferenceInstr::Null(heap_type) => keeps_heap(indices, *heap_type),
        ReferenceInstr::Test(to) | ReferenceInstr::Cast(to) => keeps_ref(indices, *to),
        _ => true,
    }
}

#[rattlefmt::skip]
fn keeps_aggregate(indices: &[u32], op: &AggregateInstr) -> bool
    ensures { IsTrue result → renamed_aggregate (canonical_index indices.now) op.now ≡ op.now }
{
    match op {
        AggregateInstr::StructNew(ty) | AggregateInstr::StructNewDefault(ty) => keeps_index(indices, *ty),
        AggregateInstr::StructGet { ty, .. } | AggregateInstr::StructSet { ty, .. } => keeps_index(indices, *ty),
        AggregateInstr::ArrayNew(ty) | AggregateInstr::ArrayNewDefault(ty) => keeps_index(indices, *ty),
        AggregateInstr::ArrayNewFixed { ty, .. } | AggregateInstr::ArrayNewData { ty, .. } => keeps_index(indices, *ty),
        AggregateInstr::ArrayNewElem { ty, .. } | AggregateInstr::ArrayGet { ty, .. } => keeps_index(indices, *ty),
        AggregateInstr::ArraySet(ty) | AggregateInstr::ArrayFill(ty) => keeps_index(indices, *ty),
        AggregateInstr::ArrayCopy { to, from } => keeps_index(indices, *to) && keeps_index(indices, *from),
        AggregateInstr::ArrayInitData { ty, .. } | AggregateInstr::ArrayInitElem { ty, .. } => keeps_index(indices, *ty),
        _ => true,
    }
}

// A `select` with types is copied.
fn keeps_instr(indices: &[u32], instr: &Instr) -> bool
    ensures { IsTrue result → renamed_instr (canonical_index indices.now) instr.now ≡ instr.now }
{
    match instr {
        Instr::Block(ty) | Instr::Loop(ty) | Instr::If(ty) => keeps_block(indices, *ty),
        Instr::TryTable(ty, _) => keeps_block(indices, *ty),
        Instr::BrOnCast(cast) | Instr::BrOnCastFail(cast) => keeps_cast(indices, cast),
        Instr::CallIndirect { ty, .. } | Instr::ReturnCallIndirect { ty, .. } => {
            keeps_index(indices, *ty)
        }
        Instr::CallRef(ty) | Instr::ReturnCallRef(ty) => keeps_index(indices, *ty),
        Instr::SelectTyped(_) => false,
        Instr::Reference(op) => keeps_reference(indices, op),
        Instr::Aggregate(op) => keeps_aggregate(indices, op),
        _ => true,
    }
}

// Returns whether there are at most `most` types, each of which has its own index.
fn are_own(indices: &[u32], most: usize) -> bool
    ensures { IsTrue result → (index : ℕ) → canonical_index indices.now index ≡ index }
{
    if indices.len() > most {
        return false;
    }
    for i in 0..indices.len() {
        let first = indices[i] as usize;
        if first != i {
            return false;
        }
    }
    true
}

/// Returns whether each type that `body` names has its own index in the canonical `indices`, so that
/// [`canonical_body`](crate::canonical_body) would copy it as it is. Returns false if a `select` names
/// types.
pub fn is_canonical_body(indices: &[u32], body: &[Instr]) -> bool
    ensures { IsTrue result → renamed_body (canonical_index indices.now) body.now ≡ body.now }
{
    if are_own(indices, body.len()) {
        return true;
    }
    for instr in body {
        if !keeps_instr(indices, instr) {
            return false;
        }
    }
    true
}
