ghost use Rattle.std.specs.Prelude.{◌≡◌, ◌++◌, [], ◌∷◌, All, option_to_list, IfOk, IfErr, IfSome};
ghost use Rattle.std.specs.Prelude.{IsTrue, OnOk};
ghost use Rattle.smith_bytes.specs.Source.{KeepsPieces};
ghost use Rattle.smith_instr.specs.Contexts.{AreValid, IsValid};
ghost use Rattle.smith_instr.specs.InstrTypes.{IsCatch};
ghost use Rattle.smith_body_nodes.specs.Chosen.{or_nop};
ghost use Rattle.smith_body_nodes.specs.Nodes.{IsNode, IsOffer};
ghost use Rattle.smith_body_nodes.specs.Scopes.{AreLabels, IsScope, bare, context_of, where_stands};
ghost use Rattle.smith_body_control.specs.TryChoices.{IsCaught, any_try_at, clause_at, clause_of};
ghost use Rattle.smith_body_control.specs.TryChoices.{clause_to, passed_values, referenced_at};
ghost use Rattle.smith_body_control.specs.TryChoices.{refers_to_caught, some_clauses_at};
ghost use Rattle.smith_body_control.specs.TryChoices.{tagged_clause_at, try_at};

use crate::throws::{draw_tag, exn, refers_to_exceptions, tag_type_of};
use smith_body_nodes::{Draft, Node, Scope, choose_target, func_type_at, indexed_count, try_table};
use smith_bytes::{Error, Unstructured};
use smith_instr::{BlockType, Catch};
use smith_types::{Items, RefType, ValType, WasmFeatures};
use std::alloc::Global;

/// Returns whether non-nullable references to exceptions are enabled.
pub(crate) fn refers_to_caught(scope: &Scope<'_>) -> bool
    ensures { result ≡ refers_to_caught (bare scope.now).features }
{
    refers_to_exceptions(scope) && scope.features.contains(WasmFeatures::FUNCTION_REFERENCES)
}

/// Draws whether a clause passes a reference to the exception.
fn draw_referenced(scope: &Scope<'_>, u: &mut Unstructured<'_>) -> bool
    ensures exact { referenced_at (bare scope.now).features u.old ≡ (result, u.new) }
    ensures possible { IsTrue result → IsTrue (refers_to_caught (bare scope.now).features) }
    ensures left { KeepsPieces u.old u.new }
{
    if u.arbitrary() {
        return refers_to_caught(scope);
    }
    false
}

/// Returns the clause for the exceptions of `tag`, or for all exceptions, that goes to `label`. It
/// passes a reference to the exception if `referenced` is true.
fn clause_of(tag: Option<u32>, referenced: bool, label: u32) -> Catch
    ensures { result ≡ clause_of tag referenced label }
{
    match (tag, referenced) {
        (Some(tag), false) => Catch::One { tag, label },
        (Some(tag), true) => Catch::OneRef { tag, label },
        (None, false) => Catch::All { label },
        (None, true) => Catch::AllRef { label },
    }
}

/// Returns `values`, and then the type of a reference to an exception if `referenced` is true.
fn passed_values(
    alloc: Global,
    values: &[ValType],
    referenced: bool,
) -> Result<Items<ValType>, Error>
    ensures exact { IfOk result (λ items. items ≡ passed_values values.now referenced) }
    ensures memory { IfErr result (λ e. e ≡ Error.Memory) }
{
    let mut taken = Items::from_slice(alloc, values)?;
    if !referenced {
        return Ok(taken);
    }
    taken.push(ValType::Ref(RefType {
        nullable: false,
        heap_type: exn(),
    }))?;
    Ok(taken)
}

/// Chooses a label for a clause, if the values that the clause passes match the types of one. The
/// exceptions of `tag` hold `values`.
fn choose_clause_to(
    alloc: Global,
    scope: &Scope<'_>,
    labels: &[Items<ValType>],
    tag: Option<u32>,
    referenced: bool,
    values: &[ValType],
    u: &mut Unstructured<'_>,
) -> Result<Option<Catch>, Error>
    requires scope { IsScope (bare scope.now) }
    requires labels { AreLabels scope.now labels.now }
    requires values { AreValid (bare scope.now) values.now }
    requires caught { IsCaught (context_of scope.now labels.now) tag values.now }
    requires possible { IsTrue referenced → IsTrue (refers_to_caught (bare scope.now).features) }
    ensures exact { IfOk result (λ chosen.
        clause_to (context_of scope.now labels.now) tag referenced values.now u.old
        ≡ (chosen, u.new)) }
    ensures fits { IfOk result (λ chosen.
        IfSome chosen (IsCatch (context_of scope.now labels.now))) }
    ensures memory { IfErr result (λ e. e ≡ Error.Memory) }
    ensures left { KeepsPieces u.old u.new }
{
    let taken = passed_values(alloc, values, referenced)?;
    let Some(label) = choose_target(scope, labels, taken.as_slice(), u) else {
        return Ok(None);
    };
    Ok(Some(clause_of(tag, referenced, label)))
}

/// Chooses a clause for the exceptions of a tag to one of `labels`, if it is possible.
fn choose_tagged_clause(
    alloc: Global,
    scope: &Scope<'_>,
    labels: &[Items<ValType>],
    referenced: bool,
    u: &mut Unstructured<'_>,
) -> Result<Option<Catch>, Error>
    requires scope { IsScope (bare scope.now) }
    requires labels { AreLabels scope.now labels.now }
    requires possible { IsTrue referenced → IsTrue (refers_to_caught (bare scope.now).features) }
    ensures exact { IfOk result (λ chosen.
        tagged_clause_at (context_of scope.now labels.now) referenced u.old ≡ (chosen, u.new)) }
    ensures fits { IfOk result (λ chosen.
        IfSome chosen (IsCatch (context_of scope.now labels.now))) }
    ensures memory { IfErr result (λ e. e ≡ Error.Memory) }
    ensures left { KeepsPieces u.old u.new }
{
    let Some(tag) = draw_tag(scope, u) else {
        return Ok(None);
    };
    let Some(ty) = tag_type_of(scope, tag as usize) else {
        return Ok(None);
    };
    choose_clause_to(
        alloc,
        scope,
        labels,
        Some(tag),
        referenced,
        ty.params.as_slice(),
        u,
    )
}

/// Chooses a clause to one of `labels`, if it is possible.
fn choose_clause(
    alloc: Global,
    scope: &Scope<'_>,
    labels: &[Items<ValType>],
    u: &mut Unstructured<'_>,
) -> Result<Option<Catch>, Error>
    requires scope { IsScope (bare scope.now) }
    requires labels { AreLabels scope.now labels.now }
    ensures exact { IfOk result (λ chosen.
        clause_at (context_of scope.now labels.now) u.old ≡ (chosen, u.new)) }
    ensures fits { IfOk result (λ chosen.
        IfSome chosen (IsCatch (context_of scope.now labels.now))) }
    ensures memory { IfErr result (λ e. e ≡ Error.Memory) }
    ensures left { KeepsPieces u.old u.new }
{
    let tagged: bool = u.arbitrary();
    let referenced = draw_referenced(scope, u);
    if tagged {
        return choose_tagged_clause(alloc, scope, labels, referenced, u);
    }
    choose_clause_to(alloc, scope, labels, None, referenced, &[], u)
}

/// Adds `clause` to `clauses`, if there is one.
fn add_clause(clauses: &mut Items<Catch>, clause: Option<Catch>) -> Result<(), Error>
    ensures added { OnOk result (clauses.new ≡ clauses.old ++ option_to_list clause) }
    ensures memory { IfErr result (λ e. e ≡ Error.Memory) }
{
    if let Some(clause) = clause {
        clauses.push(clause)?;
    }
    Ok(())
}

/// Draws at most three clauses to `labels`.
fn draw_clauses(
    alloc: Global,
    scope: &Scope<'_>,
    labels: &[Items<ValType>],
    u: &mut Unstructured<'_>,
) -> Result<Items<Catch>, Error>
    requires scope { IsScope (bare scope.now) }
    requires labels { AreLabels scope.now labels.now }
    ensures exact { IfOk result (λ clauses.
        some_clauses_at (context_of scope.now labels.now) u.old ≡ (clauses, u.new)) }
    ensures fit { IfOk result (All (IsCatch (context_of scope.now labels.now))) }
    ensures memory { IfErr result (λ e. e ≡ Error.Memory) }
    ensures left { KeepsPieces u.old u.new }
{
    let count = u.int_in_range(0..=3u8);
    let mut clauses = Items::new(alloc);
    for _ in 0..count {
        let clause = choose_clause(alloc, scope, labels, u)?;
        add_clause(&mut clauses, clause)?;
    }
    Ok(clauses)
}

/// Chooses a `try_table` that produces a value of the type `wanted`.
pub fn choose_try(
    alloc: Global,
    scope: &Scope<'_>,
    wanted: ValType,
    draft: &Draft,
    u: &mut Unstructured<'_>,
) -> Result<Option<Node>, Error>
    requires scope { IsScope (bare scope.now) }
    requires labels { AreLabels scope.now draft.now.labels.items }
    requires wanted { IsValid (bare scope.now) wanted }
    ensures exact { IfOk result (λ chosen.
        try_at (where_stands scope.now draft.now) wanted u.old ≡ (chosen, u.new)) }
    ensures offer { IsOffer (where_stands scope.now draft.now) draft.now.set.items
        (wanted ∷ []) result }
    ensures memory { IfErr result (λ e. e ≡ Error.Memory) }
    ensures left { KeepsPieces u.old u.new }
{
    let clauses = draw_clauses(alloc, scope, draft.labels.as_slice(), u)?;
    let node = try_table(alloc, BlockType::Value(wanted), clauses, &[], &[wanted], 0)?;
    Ok(Some(node))
}

/// Chooses a `try_table` whose results are dropped. Its type is a function type, or has no
/// parameters and results.
pub fn choose_any_try(
    alloc: Global,
    scope: &Scope<'_>,
    draft: &Draft,
    u: &mut Unstructured<'_>,
) -> Result<Node, Error>
    requires scope { IsScope (bare scope.now) }
    requires labels { AreLabels scope.now draft.now.labels.items }
    ensures exact { IfOk result (λ node.
        or_nop (any_try_at (where_stands scope.now draft.now) u.old) ≡ (node, u.new)) }
    ensures node { IfOk result (IsNode (where_stands scope.now draft.now) draft.now.set.items []) }
    ensures memory { IfErr result (λ e. e ≡ Error.Memory) }
    ensures left { KeepsPieces u.old u.new }
{
    let clauses = draw_clauses(alloc, scope, draft.labels.as_slice(), u)?;
    let index = u.int_in_range(0..=indexed_count(scope.types.types().len()));
    match func_type_at(scope, index) {
        Some(function) => try_table(
            alloc,
            BlockType::Func(index as u32),
            clauses,
            function.params.as_slice(),
            function.results.as_slice(),
            function.results.len(),
        ),
        None => try_table(alloc, BlockType::Empty, clauses, &[], &[], 0),
    }
}
