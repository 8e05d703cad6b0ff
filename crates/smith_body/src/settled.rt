ghost use Rattle.std.specs.Prelude.{◌≡◌, ◌<◌, ◌++◌, [], ◌∷◌, List, length, slice_get, true, Some};
ghost use Rattle.std.specs.Prelude.{IfErr, IfSome, OnOk};
ghost use Rattle.smith_bytes.specs.Source.{KeepsPieces};
ghost use Rattle.smith_types.specs.Syntax.value_type.ValType.{ValType as Val};
ghost use Rattle.smith_instr.specs.Contexts.{AreValid, IsValid};
ghost use Rattle.smith_instr.specs.declared.instr.Instr.TheVariants as instr;
ghost use Rattle.smith_instr.specs.declared.numeric.NumericInstr.TheVariants as numeric;
ghost use Rattle.smith_body.specs.Bodies.{settled, settled_all};
ghost use Rattle.smith_body.specs.DraftSteps.{IsDrawn, state_of};
ghost use Rattle.smith_body.specs.Settled.{Settles, is_place_of, label_at, local_count};
ghost use Rattle.smith_body.specs.Settled.{place_at, place_count, settling_at};
ghost use Rattle.smith_body.specs.Settled.{storing, test_at, test_of};
ghost use Rattle.smith_body_nodes.specs.Scopes.{IsAllowedIn, bare, where_stands};

use crate::writes::write_plain;
use smith_body_nodes::{
    Draft, Offer, Scope, choose_in_chunk, choose_offered, indexed_count, is_allowed,
};
use smith_bytes::{Error, Unstructured};
use smith_instr::{
    Instr, IntShape, NumericInstr, ReferenceInstr, SaturatingConversion, VectorInstr,
};
use smith_types::{Items, ValType};

/// What is done with a value that no other instruction pops.
#[derive(Drop)]
pub(crate) enum Settling {
    /// A local stores it.
    Local(u32),
    /// A global stores it.
    Global(u32),
    /// `test` turns it into a number, which decides a branch to `label`.
    Tested { test: Instr, label: u32 },
    /// It is dropped.
    Dropped,
}

/// Locals, and after them globals, that may store values of a type.
#[derive(Clone, Copy)]
struct PlaceOffer<'a> {
    scope: &'a Scope<'a>,
    value: ValType,
}

impl<'a> Offer for PlaceOffer<'a> {
    ghost use Rattle.smith_body.specs.Settled.{is_place_of, place_count};
    ghost use Rattle.smith_body_nodes.specs.Scopes.{bare};

    ghost ready = { λ self. Unit {0} };

    ghost size = { λ self. place_count (bare self.scope.now) };

    ghost test = { λ self index. is_place_of (bare self.scope.now) self.value index };

    fn count(&self) -> usize {
        indexed_count(self.scope.locals.len()) + indexed_count(self.scope.globals.len())
    }

    fn is_offered(&self, index: usize) -> bool {
        let locals = indexed_count(self.scope.locals.len());
        if index < locals {
            return self.scope.locals[index] == self.value;
        }
        let global = self.scope.globals[index - locals];
        global.mutable && global.val_type == self.value
    }
}

/// Labels without values.
#[derive(Clone, Copy)]
struct LabelOffer<'a> {
    labels: &'a [Items<ValType>],
}

impl<'a> Offer for LabelOffer<'a> {
    ghost use Rattle.std.specs.Prelude.{length, min};
    ghost use Rattle.smith_body.specs.Settled.{is_bare_label};

    ghost ready = { λ self. Unit {0} };

    ghost size = { λ self. min (length self.labels.now) 64 };

    ghost test = { λ self index. is_bare_label self.labels.now index };

    fn count(&self) -> usize {
        self.labels.len().min(64)
    }

    fn is_offered(&self, index: usize) -> bool {
        self.labels[index].is_empty()
    }
}

/// Settles values of the types `values`, with the last on top: each is stored, tested or dropped,
/// the last one first.
pub(crate) fn settle_values(
    scope: &Scope<'_>,
    values: &[ValType],
    draft: &mut Draft,
    u: &mut Unstructured<'_>,
) -> Result<(), Error>
    requires values { AreValid (bare scope.now) values.now }
    requires drops { 0 < length values.now → IsAllowedIn scope.now instr.Drop }
    ensures exact { OnOk result (settled_all scope.now.config.now values.now
        (state_of scope.now draft.old u.old) ≡ state_of scope.now draft.new u.new) }
    ensures drawn { OnOk result
        (IsDrawn scope.now values.now [] (length values.now) draft.old draft.new) }
    ensures memory { IfErr result (λ e. e ≡ Error.Memory) }
    ensures left { KeepsPieces u.old u.new }
{
    for place in 0..values.len() {
        settle_value(scope, values[values.len() - 1 - place], draft, u)?;
    }
    Ok(())
}

/// Settles a value of the type `value`: it is stored in a local or a global of exactly this type;
/// else it is tested, and decides a branch to a label without values; else it is dropped.
fn settle_value(
    scope: &Scope<'_>,
    value: ValType,
    draft: &mut Draft,
    u: &mut Unstructured<'_>,
) -> Result<(), Error>
    requires value { IsValid (bare scope.now) value }
    requires drop { IsAllowedIn scope.now instr.Drop }
    ensures exact { OnOk result (settled scope.now.config.now value
        (state_of scope.now draft.old u.old) ≡ state_of scope.now draft.new u.new) }
    ensures drawn { OnOk result (IsDrawn scope.now (value ∷ []) [] 1 draft.old draft.new) }
    ensures memory { IfErr result (λ e. e ≡ Error.Memory) }
    ensures left { KeepsPieces u.old u.new }
{
    match choose_settling(scope, value, draft, u) {
        Settling::Local(index) => write_plain(Instr::LocalSet(index), Some(index), draft),
        Settling::Global(index) => write_plain(Instr::GlobalSet(index), None, draft),
        Settling::Tested { test, label } => write_test(test, label, draft),
        Settling::Dropped => write_plain(Instr::Drop, None, draft),
    }
}

/// Writes `test`, and a branch to `label` that depends on it.
fn write_test(test: Instr, label: u32, draft: &mut Draft) -> Result<(), Error>
    ensures out { OnOk result
        (draft.new.out ≡ draft.old.out ++ test ∷ instr.BrIf label ∷ []) }
    ensures set { OnOk result (draft.new.set.items ≡ draft.old.set.items) }
    ensures labels { OnOk result (draft.new.labels.items ≡ draft.old.labels.items) }
    ensures budget { OnOk result (draft.new.budget ≡ draft.old.budget) }
    ensures memory { IfErr result (λ e. e ≡ Error.Memory) }
{
    draft.out.push(test)?;
    draft.out.push(Instr::BrIf(label))
}

fn choose_settling(
    scope: &Scope<'_>,
    value: ValType,
    draft: &Draft,
    u: &mut Unstructured<'_>,
) -> Settling
    requires value { IsValid (bare scope.now) value }
    ensures exact { settling_at scope.now.config.now (where_stands scope.now draft.now) value u.old
        ≡ (result, u.new) }
    ensures settles { Settles scope.now draft.now.labels.items value result }
    ensures left { KeepsPieces u.old u.new }
{
    if let Some(stored) = choose_place(scope, value, draft, u) {
        return stored;
    }
    match choose_test(scope, value, draft, u) {
        Some(tested) => tested,
        None => Settling::Dropped,
    }
}

/// Chooses a local or a mutable global of exactly the type `value`, if there is one that may be set.
fn choose_place(
    scope: &Scope<'_>,
    value: ValType,
    draft: &Draft,
    u: &mut Unstructured<'_>,
) -> Option<Settling>
    ensures exact { place_at scope.now.config.now (where_stands scope.now draft.now) value u.old
        ≡ (result, u.new) }
    ensures settles { IfSome result (Settles scope.now draft.now.labels.items value) }
    ensures left { KeepsPieces u.old u.new }
{
    let place = choose_in_chunk(&PlaceOffer { scope, value }, u)?;
    store(scope, value, place)
}

/// Returns the local or global that stores values of the type `value` at a `place`, if the store is
/// allowed.
fn store(scope: &Scope<'_>, value: ValType, place: usize) -> Option<Settling>
    requires below { place < place_count (bare scope.now) }
    requires offered { is_place_of (bare scope.now) value place ≡ true }
    ensures exact { storing scope.now.config.now (bare scope.now) place ≡ result }
    ensures settles { (labels : List (List Val)) → IfSome result (Settles scope.now labels value) }
{
    let locals = local_count(scope);
    if place < locals {
        let index = place as u32;
        if is_allowed(scope, &Instr::LocalSet(index)) {
            return Some(Settling::Local(index));
        }
        return None;
    }
    let index = (place - locals) as u32;
    if is_allowed(scope, &Instr::GlobalSet(index)) {
        return Some(Settling::Global(index));
    }
    None
}

/// Returns the number of locals that have an index.
fn local_count(scope: &Scope<'_>) -> usize
    ensures { result ≡ local_count (bare scope.now) }
{
    indexed_count(scope.locals.len())
}

/// Chooses a label without values for a branch that depends on a value of the type `value`, if there
/// is one, and if the test of the value and the branch are allowed.
fn choose_test(
    scope: &Scope<'_>,
    value: ValType,
    draft: &Draft,
    u: &mut Unstructured<'_>,
) -> Option<Settling>
    requires value { IsValid (bare scope.now) value }
    ensures exact { test_at scope.now.config.now (where_stands scope.now draft.now) value u.old
        ≡ (result, u.new) }
    ensures settles { IfSome result (Settles scope.now draft.now.labels.items value) }
    ensures left { KeepsPieces u.old u.new }
{
    let label = choose_label(draft, u)?;
    let test = test_of(value)?;
    if !is_allowed(scope, &test) || !is_allowed(scope, &Instr::BrIf(label)) {
        return None;
    }
    Some(Settling::Tested { test, label })
}

/// Chooses one of the 64 innermost labels without values, if there is one.
fn choose_label(draft: &Draft, u: &mut Unstructured<'_>) -> Option<u32>
    ensures exact { label_at draft.now.labels.items u.old ≡ (result, u.new) }
    ensures without { IfSome result (λ label. slice_get draft.now.labels.items label ≡ Some []) }
    ensures left { KeepsPieces u.old u.new }
{
    let labels = draft.labels.as_slice();
    let label = choose_offered(&LabelOffer { labels }, u)?;
    Some(label as u32)
}

/// Returns the instruction that turns a value of the type `value` into a number, often 0.
fn test_of(value: ValType) -> Option<Instr>
    ensures { result ≡ test_of value }
{
    match value {
        ValType::I32 => Some(Instr::Numeric(NumericInstr::I32Eqz)),
        ValType::I64 => Some(Instr::Numeric(NumericInstr::I64Eqz)),
        ValType::F32 => Some(truncating(SaturatingConversion::I32TruncSatF32U)),
        ValType::F64 => Some(truncating(SaturatingConversion::I32TruncSatF64U)),
        ValType::V128 => Some(Instr::Vector(VectorInstr::AllTrue(IntShape::I8x16))),
        ValType::Ref(reference) => {
            if reference.nullable {
                return Some(Instr::Reference(ReferenceInstr::IsNull));
            }
            None
        }
    }
}

fn truncating(conversion: SaturatingConversion) -> Instr
    ensures { result ≡ instr.Numeric (numeric.Saturate conversion) }
{
    Instr::Numeric(NumericInstr::Saturate(conversion))
}
