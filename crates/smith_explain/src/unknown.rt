ghost use Rattle.std.specs.Prelude.{◌≡◌, ◌<◌, MatchOption, Some};
ghost use Rattle.std.specs.List.{Contains};
ghost use Rattle.smith_check_operands.specs.Scopes.{bare};
ghost use Rattle.smith_explain.specs.Names.{IsAmong, IsListed, IsNamed, clause_names};
ghost use Rattle.smith_instr.specs.declared.control.Catch.{Catch};
ghost use Rattle.smith_explain.specs.Causes.{AreThere, IsMissing, count_in};
ghost use Rattle.smith_explain.specs.declared.explanation.Space.TheVariants as space;

use crate::explanation::{Named, Space, Unknown};
use crate::names::{Names, clause_names, names_of};
use smith_check_operands::Scope;
use smith_instr::{Catch, Instr};

// Returns the number of items of an index space, where there are `labels` labels.
fn count_of(scope: &Scope, labels: usize, space: Space) -> usize
    ensures { result ≡ count_in (bare scope.now) labels space }
{
    match space {
        Space::Type => scope.types.types().len(),
        Space::Function => scope.funcs.len(),
        Space::Table => scope.tables.len(),
        Space::Memory => scope.memories.len(),
        Space::Global => scope.globals.len(),
        Space::Tag => scope.tags.len(),
        Space::Element => scope.elems.len(),
        Space::Data => scope.datas,
        Space::Local => scope.locals.len(),
        Space::Label => labels,
    }
}

// Returns what is named, if it is not there.
fn missing(scope: &Scope, labels: usize, named: Named) -> Option<Unknown>
    ensures { MatchOption result (named.index < count_in (bare scope.now) labels named.space)
        (λ unknown. (unknown.named ≡ named) × IsMissing (bare scope.now) labels unknown) }
{
    let count = count_of(scope, labels, named.space);
    if count <= named.index as usize {
        Some(Unknown { named, count })
    } else {
        None
    }
}

fn missing_of(scope: &Scope, labels: usize, named: Option<Named>) -> Option<Unknown>
    ensures { MatchOption result (AreThere (bare scope.now) labels (λ one. named ≡ Some one))
        (λ unknown. (named ≡ Some unknown.named) × IsMissing (bare scope.now) labels unknown) }
{
    match named {
        Some(named) => missing(scope, labels, named),
        None => None,
    }
}

// Returns the first of the items that are named that is not there.
fn missing_among(scope: &Scope, labels: usize, names: Names) -> Option<Unknown>
    ensures { MatchOption result (AreThere (bare scope.now) labels (IsAmong names))
        (λ unknown. IsAmong names unknown.named × IsMissing (bare scope.now) labels unknown) }
{
    match missing_of(scope, labels, names.first) {
        Some(unknown) => return Some(unknown),
        None => {}
    }
    match missing_of(scope, labels, names.second) {
        Some(unknown) => return Some(unknown),
        None => {}
    }
    missing_of(scope, labels, names.third)
}

// Returns the first of the labels of `br_table` that is not there.
fn missing_label(scope: &Scope, labels: usize, targets: &[u32]) -> Option<Unknown>
    ensures { MatchOption result
        (AreThere (bare scope.now) labels (λ one. (one.space ≡ space.Label) × Contains targets.now one.index))
        (λ unknown. (unknown.named.space ≡ space.Label) × Contains targets.now unknown.named.index
        × IsMissing (bare scope.now) labels unknown) }
{
    for i in 0..targets.len() {
        let named = Named {
            space: Space::Label,
            index: targets[i],
        };
        match missing(scope, labels, named) {
            Some(unknown) => return Some(unknown),
            None => {}
        }
    }
    None
}

// Returns the first item that a clause of `try_table` names and that is not there.
fn missing_in_clauses(scope: &Scope, labels: usize, clauses: &[Catch]) -> Option<Unknown>
    ensures { MatchOption result
        (AreThere (bare scope.now) labels
        (λ one. (clause : Catch) × Contains clauses.now clause × IsAmong (clause_names clause) one))
        (λ unknown. ((clause : Catch) × Contains clauses.now clause
        × IsAmong (clause_names clause) unknown.named) × IsMissing (bare scope.now) labels unknown) }
{
    for i in 0..clauses.len() {
        match missing_among(scope, labels, clause_names(clauses[i])) {
            Some(unknown) => return Some(unknown),
            None => {}
        }
    }
    None
}

// Returns the first item that is named in the labels of `br_table` or in a clause of `try_table`, and
// that is not there.
fn missing_listed(scope: &Scope, labels: usize, instr: &Instr) -> Option<Unknown>
    ensures { MatchOption result (AreThere (bare scope.now) labels (IsListed instr.now))
        (λ unknown. IsListed instr.now unknown.named × IsMissing (bare scope.now) labels unknown) }
{
    match instr {
        Instr::BrTable(targets, _) => missing_label(scope, labels, targets.as_slice()),
        Instr::TryTable(_, clauses) => missing_in_clauses(scope, labels, clauses.as_slice()),
        _ => None,
    }
}

/// Returns an item that an instruction names and that is not there, if there is one, where there are
/// `labels` labels.
pub fn unknown(scope: &Scope, labels: usize, instr: &Instr) -> Option<Unknown>
    ensures { MatchOption result (AreThere (bare scope.now) labels (IsNamed instr.now))
        (λ unknown. IsNamed instr.now unknown.named × IsMissing (bare scope.now) labels unknown) }
{
    match missing_among(scope, labels, names_of(instr)) {
        Some(unknown) => Some(unknown),
        None => missing_listed(scope, labels, instr),
    }
}
