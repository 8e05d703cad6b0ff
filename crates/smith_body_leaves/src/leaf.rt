ghost use Rattle.std.specs.Prelude.{◌≡◌, ◌++◌, IfErr, OnOk, option_to_list};
ghost use Rattle.smith_instr.specs.Contexts.{IsValid};
ghost use Rattle.smith_body_leaves.specs.Leaves.{first_leaf, instructions_of, only, spare_leaf};
ghost use Rattle.smith_body_leaves.specs.Leaves.{with_last};
ghost use Rattle.smith_body_nodes.specs.Scopes.{IsScope, bare, where_stands};

use crate::creations::{created_type, write_created};
use crate::search::leaf_within;
use smith_body_nodes::{Draft, Scope};
use smith_bytes::Error;
use smith_instr::Instr;
use smith_types::ValType;

/// A value that takes no budget.
#[derive(Drop)]
pub struct Leaf {
    /// An instruction without operands.
    pub value: Instr,
    /// The instruction that takes this value, if two instructions follow it.
    pub next: Option<Instr>,
    /// The last instruction after the value, if there is one. It takes the value before it.
    pub last: Option<Instr>,
}

/// Writes `unreachable`. Writes the first allowed value instead if traps are disallowed.
#[tactic(auto, unfolding(crate::specs::Leaves::spare_leaf))]
pub fn write_spare(scope: &Scope<'_>, wanted: ValType, draft: &mut Draft) -> Result<(), Error>
    requires scope { IsScope (bare scope.now) }
    requires wanted { IsValid (bare scope.now) wanted }
    ensures out { OnOk result (draft.new.out ≡ draft.old.out ++ spare_leaf scope.now.config.now
        (where_stands scope.now draft.old) draft.old.set.items wanted) }
    ensures set { draft.new.set.items ≡ draft.old.set.items }
    ensures same { draft.new.labels.items ≡ draft.old.labels.items }
    ensures budget { draft.new.budget ≡ draft.old.budget }
    ensures memory { IfErr result (λ e. e ≡ Error.Memory) }
{
    if scope.config.disallow_traps {
        return write_first(scope, wanted, draft);
    }
    write_instructions(only(Instr::Unreachable), draft)
}

/// Writes the first allowed value that matches `wanted`. Writes `unreachable` if there is none.
fn write_first(scope: &Scope<'_>, wanted: ValType, draft: &mut Draft) -> Result<(), Error>
    requires scope { IsScope (bare scope.now) }
    requires wanted { IsValid (bare scope.now) wanted }
    ensures out { OnOk result (draft.new.out ≡ draft.old.out ++ first_leaf scope.now.config.now
        (where_stands scope.now draft.old) draft.old.set.items wanted) }
    ensures set { draft.new.set.items ≡ draft.old.set.items }
    ensures same { draft.new.labels.items ≡ draft.old.labels.items }
    ensures budget { draft.new.budget ≡ draft.old.budget }
    ensures memory { IfErr result (λ e. e ≡ Error.Memory) }
{
    if let Some(leaf) = leaf_within(scope, wanted, 2, true, draft) {
        return write_instructions(leaf, draft);
    }
    if let Some(ty) = created_type(scope, wanted, draft) {
        return write_created(scope, ty, draft);
    }
    write_instructions(only(Instr::Unreachable), draft)
}

/// Writes the instructions of `leaf`.
pub fn write_instructions(leaf: Leaf, draft: &mut Draft) -> Result<(), Error>
    ensures out { OnOk result (draft.new.out ≡ draft.old.out ++ instructions_of leaf) }
    ensures set { draft.new.set.items ≡ draft.old.set.items }
    ensures same { draft.new.labels.items ≡ draft.old.labels.items }
    ensures budget { draft.new.budget ≡ draft.old.budget }
    ensures memory { IfErr result (λ e. e ≡ Error.Memory) }
{
    let Leaf { value, next, last } = leaf;
    draft.out.push(value)?;
    write_some(next, draft)?;
    write_some(last, draft)
}

/// Writes `instruction`, if there is one.
pub(crate) fn write_some(instruction: Option<Instr>, draft: &mut Draft) -> Result<(), Error>
    ensures out { OnOk result (draft.new.out ≡ draft.old.out ++ option_to_list instruction) }
    ensures set { draft.new.set.items ≡ draft.old.set.items }
    ensures same { draft.new.labels.items ≡ draft.old.labels.items }
    ensures budget { draft.new.budget ≡ draft.old.budget }
    ensures memory { IfErr result (λ e. e ≡ Error.Memory) }
{
    match instruction {
        Some(instruction) => draft.out.push(instruction),
        None => Ok(()),
    }
}

/// Creates a value of one instruction.
pub fn only(instruction: Instr) -> Leaf
    ensures { result ≡ only instruction }
{
    Leaf {
        value: instruction,
        next: None,
        last: None,
    }
}

/// Creates the value of `leaf`, which has at most two instructions, and then `instruction`, which
/// takes it.
pub(crate) fn with_last(instruction: Instr, leaf: Leaf) -> Leaf
    ensures { result ≡ with_last instruction leaf }
{
    let Leaf {
        value,
        next: _,
        last,
    } = leaf;
    Leaf {
        value,
        next: last,
        last: Some(instruction),
    }
}
