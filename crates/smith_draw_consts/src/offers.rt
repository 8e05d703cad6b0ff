ghost use Rattle.std.specs.Prelude.{◌≡◌, ◌<◌, ◌≤◌, ◌++◌, [], ◌∷◌, length, take, drop, Some, IfOk};
ghost use Rattle.std.specs.Prelude.{IfErr, IfSome};
ghost use Rattle.smith_types.specs.Subtyping.{IsValInRange};
ghost use Rattle.smith_types.specs.Expressions.{unpacked};
ghost use Rattle.smith_types.specs.Grounded.{is_defaultable, are_defaultable};
ghost use Rattle.smith_types.specs.Syntax.value_type.ValType.TheVariants.{Ref};
ghost use Rattle.smith_draw_consts.specs.ConstScopes.{context_of, IsScope};
ghost use Rattle.smith_draw_consts.specs.ConstOffers.{
  past,
  each_from,
  offered_if,
  is_integer,
  global_offers,
  function_offers,
  struct_ways,
  array_ways,
  type_offers,
  types_offers,
  ways_by,
  conversions,
  conversions_to,
  other_offers,
  created_offers,
  reference_offers,
  constant_offers,
  offers,
};
ghost use Rattle.smith_draw_consts.specs.KeptOffers.{AreWaysWhole, IsKnown};

// Each of these functions searches the choices of one kind for the one at `place`, counted from the
// first of them. It returns that choice as an `Err`, so that `?` ends the search. If there are too
// few choices, it returns the place, counted from the end of them, as an `Ok`.

use crate::kept_ways::KeptWays;
use crate::knowledge::{Known, kind_of_function, kind_of_global};
use crate::node_choice::Choice;
use crate::references::{gives, i31, is_below, is_offered, only_type};
use crate::scope::Scope;
use smith_config::Config;
use smith_types::{
    AbstractHeapType, CompositeInnerType, FieldType, HeapType, RefType, ValType, are_defaultable,
    is_defaultable, unpack,
};

/// Searches all choices offered for a value of the type `wanted`.
#[tactic(auto, unfolding(crate::specs::ConstOffers::past))]
pub(crate) fn past_offers(
    scope: &Scope<'_>,
    known: Known<'_>,
    ways: Option<&KeptWays>,
    wanted: ValType,
    fuel: u32,
    place: usize,
) -> Result<usize, Choice>
    requires scope { IsScope (context_of scope.now) }
    requires upper { IsValInRange (context_of scope.now).types wanted }
    requires known { IsKnown (context_of scope.now) wanted known }
    requires ways { IfSome ways (λ kept.
        AreWaysWhole (context_of scope.now) wanted fuel kept.now) }
    ensures { result ≡ past (offers scope.now.config.now (context_of scope.now) wanted fuel) place }
{
    let place = past_globals(scope, known, wanted, place)?;
    let place = past_constants(scope, wanted, place)?;
    past_references(scope, known, ways, wanted, fuel, place)
}

fn past_globals(
    scope: &Scope<'_>,
    known: Known<'_>,
    wanted: ValType,
    place: usize,
) -> Result<usize, Choice>
    requires scope { IsScope (context_of scope.now) }
    requires upper { IsValInRange (context_of scope.now).types wanted }
    requires known { IsKnown (context_of scope.now) wanted known }
    ensures { result ≡ past (each_from (global_offers (context_of scope.now) wanted) 0
        (take scope.now.visible (context_of scope.now).globals)) place }
{
    match known.counts() {
        Some(kept) => {
            let (first, place) = kept.globals.search_from(place);
            past_globals_from(scope, known, wanted, first, place)
        }
        None => past_globals_from(scope, known, wanted, 0, place),
    }
}

/// Searches the globals from the index `first` on.

#[tactic(auto, using(crate::proofs::ConstFoundLemmas::past_append, crate::proofs::ConstFoundLemmas::past_front), unfolding(crate::specs::ConstOffers::past))]
fn past_globals_from(
    scope: &Scope<'_>,
    known: Known<'_>,
    wanted: ValType,
    first: usize,
    place: usize,
) -> Result<usize, Choice>
    requires scope { IsScope (context_of scope.now) }
    requires upper { IsValInRange (context_of scope.now).types wanted }
    requires known { IsKnown (context_of scope.now) wanted known }
    requires first { first ≤ scope.now.visible }
    ensures { result ≡ past (each_from (global_offers (context_of scope.now) wanted) first
        (drop first (take scope.now.visible (context_of scope.now).globals))) place }
{
    let mut rest = place;
    for index in first..scope.visible {
        let kind = kind_of_global(scope, known, wanted, index);
        let offered = is_offered(scope.spaces.types, kind, wanted);
        rest = past_if(offered, Choice::Global(index as u32), rest)?;
    }
    Ok(rest)
}

#[tactic(auto, using(crate::proofs::ConstFoundLemmas::past_append, crate::proofs::ConstFoundLemmas::past_front), unfolding(crate::specs::ConstOffers::past))]
fn past_constants(scope: &Scope<'_>, wanted: ValType, place: usize) -> Result<usize, Choice>
    ensures { result ≡ past (constant_offers (context_of scope.now) wanted) place }
{
    let place = past_if(is_defaultable(wanted), Choice::Constant, place)?;
    let extended = is_integer(wanted) && scope.config.extended_const_enabled;
    past_if(extended, Choice::Extended, place)
}

#[tactic(auto, using(crate::proofs::ConstFoundLemmas::past_append, crate::proofs::ConstFoundLemmas::past_front), unfolding(crate::specs::ConstOffers::past))]
fn past_references(
    scope: &Scope<'_>,
    known: Known<'_>,
    ways: Option<&KeptWays>,
    wanted: ValType,
    fuel: u32,
    place: usize,
) -> Result<usize, Choice>
    requires scope { IsScope (context_of scope.now) }
    requires upper { IsValInRange (context_of scope.now).types wanted }
    requires known { IsKnown (context_of scope.now) wanted known }
    requires ways { IfSome ways (λ kept.
        AreWaysWhole (context_of scope.now) wanted fuel kept.now) }
    ensures { result
        ≡ past (reference_offers scope.now.config.now (context_of scope.now) wanted fuel) place }
{
    match wanted {
        ValType::Ref(reference) => {
            let place = past_functions(scope, known, wanted, place)?;
            if !scope.config.gc_enabled {
                return Ok(place);
            }
            past_created(scope, ways, reference, fuel, place)
        }
        _ => Ok(place),
    }
}

fn past_functions(
    scope: &Scope<'_>,
    known: Known<'_>,
    wanted: ValType,
    place: usize,
) -> Result<usize, Choice>
    requires scope { IsScope (context_of scope.now) }
    requires upper { IsValInRange (context_of scope.now).types wanted }
    requires known { IsKnown (context_of scope.now) wanted known }
    ensures { result ≡ past (each_from (function_offers (context_of scope.now) wanted) 0
        (context_of scope.now).funcs) place }
{
    match known.counts() {
        Some(kept) => {
            let (first, place) = kept.funcs.search_from(place);
            past_functions_from(scope, known, wanted, first, place)
        }
        None => past_functions_from(scope, known, wanted, 0, place),
    }
}

/// Searches the functions from the index `first` on.

#[tactic(auto, using(crate::proofs::ConstFoundLemmas::past_append, crate::proofs::ConstFoundLemmas::past_front), unfolding(crate::specs::ConstOffers::past))]
fn past_functions_from(
    scope: &Scope<'_>,
    known: Known<'_>,
    wanted: ValType,
    first: usize,
    place: usize,
) -> Result<usize, Choice>
    requires scope { IsScope (context_of scope.now) }
    requires upper { IsValInRange (context_of scope.now).types wanted }
    requires known { IsKnown (context_of scope.now) wanted known }
    requires first { first ≤ length (context_of scope.now).funcs }
    ensures { result ≡ past (each_from (function_offers (context_of scope.now) wanted) first
        (drop first (context_of scope.now).funcs)) place }
{
    let entities = scope.spaces.entities;
    let mut rest = place;
    for index in first..entities.funcs.len() {
        let kind = kind_of_function(scope, known, wanted, index);
        let offered = is_offered(scope.spaces.types, kind, wanted);
        rest = past_if(offered, Choice::Function(index as u32), rest)?;
    }
    Ok(rest)
}

#[tactic(auto, using(crate::proofs::ConstFoundLemmas::past_append, crate::proofs::ConstFoundLemmas::past_front), unfolding(crate::specs::ConstOffers::past))]
fn past_created(
    scope: &Scope<'_>,
    ways: Option<&KeptWays>,
    wanted: RefType,
    fuel: u32,
    place: usize,
) -> Result<usize, Choice>
    requires scope { IsScope (context_of scope.now) }
    requires upper { IsValInRange (context_of scope.now).types (Ref wanted) }
    requires ways { IfSome ways (λ kept.
        AreWaysWhole (context_of scope.now) (Ref wanted) fuel kept.now) }
    ensures { result
        ≡ past (created_offers scope.now.config.now (context_of scope.now) wanted fuel) place }
{
    let place = past_types(scope, ways, ValType::Ref(wanted), fuel, false, place)?;
    let place = past_types(scope, ways, ValType::Ref(wanted), fuel, true, place)?;
    past_others(scope, wanted, fuel, place)
}

/// Searches the ways to create a value of each struct type, or of each array type if `arrays` is
/// `true`.
fn past_types(
    scope: &Scope<'_>,
    ways: Option<&KeptWays>,
    wanted: ValType,
    fuel: u32,
    arrays: bool,
    place: usize,
) -> Result<usize, Choice>
    requires scope { IsScope (context_of scope.now) }
    requires upper { IsValInRange (context_of scope.now).types wanted }
    requires ways { IfSome ways (λ kept.
        AreWaysWhole (context_of scope.now) wanted fuel kept.now) }
    ensures { result ≡ past (types_offers (context_of scope.now) wanted fuel arrays) place }
{
    if arrays && fuel == 0 {
        return Ok(place);
    }
    match ways {
        Some(kept) => {
            let (first, place) = kept.counts(fuel, arrays).search_from(place);
            past_types_from(scope, wanted, fuel, arrays, first, place)
        }
        None => past_few_types(scope, wanted, fuel, arrays, place),
    }
}

/// Searches the types as [`past_types`] does, without counts.
fn past_few_types(
    scope: &Scope<'_>,
    wanted: ValType,
    fuel: u32,
    arrays: bool,
    place: usize,
) -> Result<usize, Choice>
    requires scope { IsScope (context_of scope.now) }
    requires upper { IsValInRange (context_of scope.now).types wanted }
    ensures { result ≡ past (types_offers (context_of scope.now) wanted fuel arrays) place }
{
    let types = scope.spaces.types.types();
    match only_type(scope, wanted) {
        Some(index) => {
            let inner = &types[index as usize].composite_type.inner;
            past_type(scope, wanted, fuel, arrays, index, inner, place)
        }
        None => past_types_from(scope, wanted, fuel, arrays, 0, place),
    }
}

/// Searches the types from the index `first` on.
#[tactic(auto, using(crate::proofs::ConstFoundLemmas::past_append, crate::proofs::ConstFoundLemmas::past_front), unfolding(crate::specs::ConstOffers::past))]
fn past_types_from(
    scope: &Scope<'_>,
    wanted: ValType,
    fuel: u32,
    arrays: bool,
    first: usize,
    place: usize,
) -> Result<usize, Choice>
    requires scope { IsScope (context_of scope.now) }
    requires upper { IsValInRange (context_of scope.now).types wanted }
    requires first { first ≤ length (context_of scope.now).types }
    ensures { result ≡ past (each_from (ways_by (context_of scope.now) wanted fuel arrays) first
        (drop first (context_of scope.now).types)) place }
{
    let types = scope.spaces.types.types();
    let mut rest = place;
    for index in first..types.len() {
        let inner = &types[index].composite_type.inner;
        rest = past_type(scope, wanted, fuel, arrays, index as u32, inner, rest)?;
    }
    Ok(rest)
}

/// Searches the ways to create a value of the type `inner` with the index `index`: a struct type,
/// or an array type if `arrays` is `true`.
#[tactic(auto, using(crate::proofs::ConstFoundLemmas::past_append, crate::proofs::ConstFoundLemmas::past_front), unfolding(crate::specs::ConstOffers::past))]
pub(crate) fn past_type(
    scope: &Scope<'_>,
    wanted: ValType,
    fuel: u32,
    arrays: bool,
    index: u32,
    inner: &CompositeInnerType,
    place: usize,
) -> Result<usize, Choice>
    requires there { index < length (context_of scope.now).types }
    requires upper { IsValInRange (context_of scope.now).types wanted }
    ensures { result
        ≡ past (type_offers (context_of scope.now) wanted fuel arrays index inner.now) place }
{
    match inner {
        CompositeInnerType::Struct(structure) => {
            if arrays || !gives(scope, index, wanted) {
                return Ok(place);
            }
            past_struct_ways(fuel, index, structure.fields.as_slice(), place)
        }
        CompositeInnerType::Array(array) => {
            if !arrays || fuel == 0 || !gives(scope, index, wanted) {
                return Ok(place);
            }
            past_array_ways(index, array.0, place)
        }
        CompositeInnerType::Func(_) => Ok(place),
    }
}

#[tactic(auto, using(crate::proofs::ConstFoundLemmas::past_append, crate::proofs::ConstFoundLemmas::past_front), unfolding(crate::specs::ConstOffers::past))]
fn past_struct_ways(
    fuel: u32,
    index: u32,
    fields: &[FieldType],
    place: usize,
) -> Result<usize, Choice>
    ensures { result ≡ past (struct_ways fuel index fields.now) place }
{
    let place = past_if(fuel > 0 || fields.is_empty(), Choice::Struct(index), place)?;
    past_if(are_defaultable(fields), Choice::StructDefault(index), place)
}

#[tactic(auto, using(crate::proofs::ConstFoundLemmas::past_append, crate::proofs::ConstFoundLemmas::past_front), unfolding(crate::specs::ConstOffers::past))]
fn past_array_ways(index: u32, element: FieldType, place: usize) -> Result<usize, Choice>
    ensures { result ≡ past (array_ways index element) place }
{
    let place = past_if(true, Choice::Array(index), place)?;
    let place = past_if(true, Choice::FixedArray(index), place)?;
    past_if(
        is_defaultable(unpack(element.element_type)),
        Choice::ArrayDefault(index),
        place,
    )
}

#[tactic(auto, using(crate::proofs::ConstFoundLemmas::past_append, crate::proofs::ConstFoundLemmas::past_front), unfolding(crate::specs::ConstOffers::past))]
fn past_others(scope: &Scope<'_>, wanted: RefType, fuel: u32, place: usize) -> Result<usize, Choice>
    requires upper { IsValInRange (context_of scope.now).types (Ref wanted) }
    ensures { result
        ≡ past (other_offers scope.now.config.now (context_of scope.now) wanted fuel) place }
{
    if fuel == 0 {
        return Ok(place);
    }
    let types = scope.spaces.types;
    let below = is_below(types, i31(false), ValType::Ref(wanted));
    let place = past_if(below, Choice::I31, place)?;
    let below = scope.config.shared_everything_threads_enabled
        && is_below(types, i31(true), ValType::Ref(wanted));
    let place = past_if(below, Choice::SharedI31, place)?;
    past_conversions(scope.config, wanted, place)
}

#[tactic(auto, unfolding(crate::specs::ConstOffers::past))]
fn past_conversions(config: &Config, wanted: RefType, place: usize) -> Result<usize, Choice>
    ensures { result ≡ past (conversions config.now wanted) place }
{
    if !wanted.nullable && config.non_nullable_enabled {
        return Ok(place);
    }
    past_conversions_to(wanted.heap_type, place)
}

#[tactic(auto, unfolding(crate::specs::ConstOffers::past))]
fn past_conversions_to(heap_type: HeapType, place: usize) -> Result<usize, Choice>
    ensures { result ≡ past (conversions_to heap_type) place }
{
    match heap_type {
        HeapType::Abstract { ty, .. } => match ty {
            AbstractHeapType::Any => past_if(true, Choice::FromExtern, place),
            AbstractHeapType::Extern => past_if(true, Choice::FromAny, place),
            _ => Ok(place),
        },
        _ => Ok(place),
    }
}

/// Searches `choice` alone, if it is offered.
#[tactic(auto, unfolding(crate::specs::ConstOffers::past))]
fn past_if(is_offered: bool, choice: Choice, place: usize) -> Result<usize, Choice>
    ensures { result ≡ past (offered_if is_offered choice) place }
{
    if !is_offered {
        return Ok(place);
    }
    if place == 0 {
        return Err(choice);
    }
    Ok(place - 1)
}

pub(crate) fn is_integer(value: ValType) -> bool
    ensures { result ≡ is_integer value }
{
    matches!(value, ValType::I32 | ValType::I64)
}
