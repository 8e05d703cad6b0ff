ghost use Rattle.std.specs.Prelude.{◌≡◌, ℕ, List, [], ◌∷◌, length, pos, IfErr, IfSome, IsTrue, OnOk};
ghost use Rattle.std.specs.Int.{cast_signed, w32};
ghost use Rattle.smith_bytes.specs.Source.{KeepsPieces};
ghost use Rattle.smith_types.specs.Syntax.FeatureBits.{features_in};
ghost use Rattle.smith_types.specs.Syntax.value_type.ValType.TheVariants.{I32};
ghost use Rattle.smith_instr.specs.declared.instr.Instr.TheVariants as instr;
ghost use Rattle.smith_body.specs.Bodies.{count_set, counted_down};
ghost use Rattle.smith_body.specs.DraftSteps.{IsDrawn, state_of};
ghost use Rattle.smith_body.specs.declared.repeats.Repeat.TheVariants as repeats;
ghost use Rattle.smith_body.specs.Repeats.{IsCounter, IsRepeat, MayRepeat, is_counting_permitted};
ghost use Rattle.smith_body.specs.Repeats.{may_repeat, repeat_at, times_at, way_at};
ghost use Rattle.smith_body_nodes.specs.Scopes.{IsAllowedIn, IsScope, bare, where_stands};
ghost use Rattle.smith_body_nodes.specs.declared.scope.Scope.{Scope as Around};

use crate::writes::write_plain;
use smith_body_nodes::{Draft, Opening, Scope, Sides, choose_local, is_allowed};
use smith_bytes::{Error, Unstructured};
use smith_instr::{Instr, IntBinary, NumericInstr};
use smith_types::ValType;

/// The number that a loop tests at its end. The loop goes back to its start unless it is 0.
#[derive(Clone, Copy)]
pub(crate) enum Repeat {
    /// A local that counts down from a number of times.
    Counted { local: u32, times: u32 },
    /// Any number that is drawn.
    Tested,
}

/// Draws how a block of `sides` is repeated. A loop without parameters is repeated seven of eight
/// times while there is a budget; other blocks are not.
pub(crate) fn draw_repeat(
    scope: &Scope<'_>,
    opening: Opening,
    sides: &Sides,
    draft: &Draft,
    u: &mut Unstructured<'_>,
) -> Option<Repeat>
    requires scope { IsScope (bare scope.now) }
    ensures exact { repeat_at scope.now.config.now (where_stands scope.now draft.now) opening
        sides.now.params draft.now.budget u.old ≡ (result, u.new) }
    ensures may { IfSome result
        (MayRepeat scope.now opening sides.now.params draft.now.budget) }
    ensures left { KeepsPieces u.old u.new }
{
    if !may_repeat(opening, sides, draft) {
        return None;
    }
    let number = u.int_in_range(0..=7u8);
    if number == 0 {
        return None;
    }
    Some(draw_way(scope, draft, u))
}

fn may_repeat(opening: Opening, sides: &Sides, draft: &Draft) -> bool
    ensures { result ≡ may_repeat opening sides.now.params draft.now.budget }
{
    match opening {
        Opening::Loop => sides.params.is_empty() && draft.budget > 0,
        _ => false,
    }
}

/// Draws the local that counts a loop and how many times the loop runs. If no local can count,
/// any number is tested.
fn draw_way(scope: &Scope<'_>, draft: &Draft, u: &mut Unstructured<'_>) -> Repeat
    requires scope { IsScope (bare scope.now) }
    ensures exact { way_at scope.now.config.now (where_stands scope.now draft.now) u.old
        ≡ (result, u.new) }
    ensures counts { IsRepeat scope.now result }
    ensures left { KeepsPieces u.old u.new }
{
    let Some(local) = choose_local(scope, ValType::I32, u) else {
        return Repeat::Tested;
    };
    if !is_counting_allowed(scope, local) {
        return Repeat::Tested;
    }
    let times = draw_times(draft, u);
    Repeat::Counted { local, times }
}

/// Returns whether the instructions are allowed that count by the local `local`.
fn is_counting_allowed(scope: &Scope<'_>, local: u32) -> bool
    ensures exact { result ≡ is_counting_permitted (features_in scope.now.features)
        scope.now.config.now local }
    ensures constant { IsTrue result → IsAllowedIn scope.now (instr.I32Const (pos 1)) }
    ensures variable { IsTrue result → IsAllowedIn scope.now (instr.LocalGet local) }
{
    if !is_allowed(scope, &Instr::I32Const(1)) {
        return false;
    }
    is_allowed(scope, &Instr::LocalGet(local))
}

/// Draws how many times a loop runs: few times in another block.
#[tactic(auto, unfolding(crate::specs::Repeats::times_at))]
fn draw_times(draft: &Draft, u: &mut Unstructured<'_>) -> u32
    ensures exact { times_at (length draft.now.labels.items) u.old ≡ (result, u.new) }
    ensures left { KeepsPieces u.old u.new }
{
    if draft.labels.len() > 1 {
        return u.int_in_range(1..=4u32);
    }
    let kind = u.int_in_range(0..=31u8);
    if kind >= 31 {
        return u.int_in_range(1000..=9191u32);
    }
    if kind >= 28 {
        return u.int_in_range(64..=319u32);
    }
    u.int_in_range(1..=16u32)
}

/// Writes the instructions before a loop: they set the local that counts, if there is one.
pub(crate) fn write_count(repeat: Repeat, draft: &mut Draft) -> Result<(), Error>
    ensures exact { (scope : Around) (bytes : List ℕ) → OnOk result
        (count_set repeat (state_of scope draft.old bytes) ≡ state_of scope draft.new bytes) }
    ensures drawn { (scope : Around) → IsRepeat scope repeat
        → OnOk result (IsDrawn scope [] [] 2 draft.old draft.new) }
    ensures same { OnOk result (draft.new.labels.items ≡ draft.old.labels.items) }
    ensures memory { IfErr result (λ e. e ≡ Error.Memory) }
{
    match repeat {
        Repeat::Counted { local, times } => write_start(local, times, draft),
        Repeat::Tested => Ok(()),
    }
}

/// Writes the instructions that set the local `local` to `times`.
fn write_start(local: u32, times: u32, draft: &mut Draft) -> Result<(), Error>
    ensures exact { (scope : Around) (bytes : List ℕ) → OnOk result
        (count_set (repeats.Counted local times) (state_of scope draft.old bytes)
        ≡ state_of scope draft.new bytes) }
    ensures drawn { (scope : Around) → IsCounter scope local
        → OnOk result (IsDrawn scope [] [] 2 draft.old draft.new) }
    ensures same { OnOk result (draft.new.labels.items ≡ draft.old.labels.items) }
    ensures memory { IfErr result (λ e. e ≡ Error.Memory) }
{
    write_plain(constant(times), None, draft)?;
    write_plain(Instr::LocalSet(local), Some(local), draft)
}

fn constant(times: u32) -> Instr
    ensures { result ≡ instr.I32Const (cast_signed w32 times) }
{
    Instr::I32Const(times.cast_signed())
}

/// Writes the instructions that count down by the local `local`, and leave its number.
pub(crate) fn write_down(local: u32, draft: &mut Draft) -> Result<(), Error>
    ensures exact { (scope : Around) (bytes : List ℕ) → OnOk result
        (counted_down local (state_of scope draft.old bytes) ≡ state_of scope draft.new bytes) }
    ensures drawn { (scope : Around) → IsCounter scope local
        → OnOk result (IsDrawn scope [] (I32 ∷ []) 4 draft.old draft.new) }
    ensures memory { IfErr result (λ e. e ≡ Error.Memory) }
{
    let one_less = Instr::Numeric(NumericInstr::I32Binary(IntBinary::Sub));
    write_plain(Instr::LocalGet(local), None, draft)?;
    write_plain(Instr::I32Const(1), None, draft)?;
    write_plain(one_less, None, draft)?;
    write_plain(Instr::LocalTee(local), Some(local), draft)
}
