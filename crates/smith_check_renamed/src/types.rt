ghost use Rattle.std.specs.Prelude.{◌≡◌, map, IfOk, IfErr};
ghost use Rattle.smith_check_types.specs.Renamed.{renamed_val};
ghost use Rattle.smith_check_types.specs.TypeSections.{canonical_index};
ghost use Rattle.smith_check_renamed.specs.RenamedInstructions.{
  renamed_block,
  renamed_cast,
  renamed_reference,
};

use smith_bytes::Error;
use smith_check_types::{
    canonical_heap_type, canonical_index, canonical_ref_type, canonical_val_type,
};
use smith_instr::{BlockType, BranchCast, ReferenceInstr};
use smith_types::{Items, ValType};
use std::alloc::Global;

// Returns the type of a block by canonical indices.
pub(crate) fn canonical_block(indices: &[u32], ty: BlockType) -> BlockType
    ensures { result ≡ renamed_block (canonical_index indices.now) ty }
{
    match ty {
        BlockType::Empty => BlockType::Empty,
        BlockType::Value(value) => BlockType::Value(canonical_val_type(indices, value)),
        BlockType::Func(index) => BlockType::Func(canonical_index(indices, index)),
    }
}

// Returns the types of a cast by canonical indices.
pub(crate) fn canonical_cast(indices: &[u32], cast: BranchCast) -> BranchCast
    ensures { result ≡ renamed_cast (canonical_index indices.now) cast }
{
    BranchCast {
        label: cast.label,
        from: canonical_ref_type(indices, cast.from),
        to: canonical_ref_type(indices, cast.to),
    }
}

// Returns a reference instruction by canonical indices.
pub(crate) fn canonical_reference(indices: &[u32], op: ReferenceInstr) -> ReferenceInstr
    ensures { result ≡ renamed_reference (canonical_index indices.now) op }
{
    match op {
        ReferenceInstr::Null(heap_type) => {
            ReferenceInstr::Null(canonical_heap_type(indices, heap_type))
        }
        ReferenceInstr::Test(to) => ReferenceInstr::Test(canonical_ref_type(indices, to)),
        ReferenceInstr::Cast(to) => ReferenceInstr::Cast(canonical_ref_type(indices, to)),
        _ => op,
    }
}

// Returns copies of value types by canonical indices.
pub(crate) fn canonical_values(
    alloc: Global,
    indices: &[u32],
    values: &[ValType],
) -> Result<Items<ValType>, Error>
    ensures ok { IfOk result (λ made.
        made ≡ map (renamed_val (canonical_index indices.now)) values.now) }
    ensures memory { IfErr result (λ e. e ≡ Error.Memory) }
{
    let mut made = Items::with_capacity(alloc, values.len())?;
    for value in values {
        made.push(canonical_val_type(indices, *value))?;
    }
    Ok(made)
}
