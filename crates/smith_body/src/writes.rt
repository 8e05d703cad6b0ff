ghost use Rattle.std.specs.Prelude.{◌≡◌, List, ◌∷◌, ◌++◌, replicate};
ghost use Rattle.std.specs.Prelude.{IfErr, OnOk};
ghost use Rattle.smith_types.specs.Syntax.value_type.ValType.{ValType as Val};
ghost use Rattle.smith_body.specs.DraftSteps.{IsWritten, IsOpened, IsEnded};

use smith_body_nodes::Draft;
use smith_bytes::Error;
use smith_instr::Instr;
use smith_types::{Items, ValType};
use std::alloc::Global;

/// Writes `instruction`, which sets the local `sets`.
pub(crate) fn write_plain(
    instruction: Instr,
    sets: Option<u32>,
    draft: &mut Draft,
) -> Result<(), Error>
    ensures written { OnOk result (IsWritten instruction sets draft.old draft.new) }
    ensures memory { IfErr result (λ e. e ≡ Error.Memory) }
{
    draft.out.push(instruction)?;
    if let Some(index) = sets {
        draft.set.push(index)?;
    }
    Ok(())
}

/// Writes the `opening` of a block whose label has the types `label`.
pub(crate) fn write_opening(
    alloc: Global,
    opening: Instr,
    label: &[ValType],
    draft: &mut Draft,
) -> Result<(), Error>
    ensures opened { OnOk result (IsOpened opening label.now draft.old draft.new) }
    ensures memory { IfErr result (λ e. e ≡ Error.Memory) }
{
    let label = Items::from_slice(alloc, label)?;
    draft.out.push(opening)?;
    draft.labels.insert(0, label)?;
    Ok(())
}

/// Writes `else`, and keeps only the first `height` of the locals that were set.
pub(crate) fn write_else(height: usize, draft: &mut Draft) -> Result<(), Error>
    ensures ended { OnOk result (IsEnded Instr.Else height draft.old draft.new) }
    ensures same { draft.new.labels.items ≡ draft.old.labels.items }
    ensures memory { IfErr result (λ e. e ≡ Error.Memory) }
{
    draft.set.truncate(height);
    draft.out.push(Instr::Else)
}

/// Writes `end`, keeps only the first `height` of the locals that were set, and leaves the
/// innermost label.
pub(crate) fn write_end(height: usize, draft: &mut Draft) -> Result<(), Error>
    ensures ended { OnOk result (IsEnded Instr.End height draft.old draft.new) }
    ensures left_label { (label : List Val) (labels : List (List Val))
        → draft.old.labels.items ≡ label ∷ labels → OnOk result (draft.new.labels.items ≡ labels) }
    ensures memory { IfErr result (λ e. e ≡ Error.Memory) }
{
    draft.set.truncate(height);
    if draft.labels.len() > 0 {
        let _label = draft.labels.remove(0);
    }
    draft.out.push(Instr::End)
}

/// Writes `count` instructions `drop`.
pub(crate) fn drop_values(count: usize, draft: &mut Draft) -> Result<(), Error>
    ensures out { OnOk result (draft.new.out ≡ draft.old.out ++ replicate count Instr.Drop) }
    ensures set { draft.new.set.items ≡ draft.old.set.items }
    ensures same { draft.new.labels.items ≡ draft.old.labels.items }
    ensures budget { draft.new.budget ≡ draft.old.budget }
    ensures memory { IfErr result (λ e. e ≡ Error.Memory) }
{
    for _ in 0..count {
        draft.out.push(Instr::Drop)?;
    }
    Ok(())
}
