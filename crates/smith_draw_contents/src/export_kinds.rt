ghost use Rattle.std.specs.Prelude.{◌≡◌, ◌+◌, ◌<◌, ◌^◌, nat_lt, length, slice_index_or, All};
ghost use Rattle.std.specs.Prelude.{if◌then◌else◌};
ghost use Rattle.smith_types.specs.Entities.{IsFuncTypeIndex};
ghost use Rattle.smith_types.specs.EntitySpaces.{spaces_in};
ghost use Rattle.smith_types.specs.Sizes.{size_in};
ghost use Rattle.smith_draw_types.specs.Choices.{chosen_at};
ghost use Rattle.smith_draw_types.specs.Drawing.{AlwaysDraws};
ghost use Rattle.smith_draw_types.specs.TypeUses.{places_from};
ghost use Rattle.smith_draw_contents.specs.Exporting.{is_func_below, candidates, candidate_row};
ghost use Rattle.smith_draw_contents.specs.Exporting.{candidate_rows, offered_kinds};
ghost use Rattle.smith_draw_contents.specs.Exported.{HasSizeIn32Bits, IsFuncWithin, MayOffer};
ghost use Rattle.smith_draw_contents.specs.Exported.{IsCandidate};

use smith_bytes::Unstructured;
use smith_draw_types::{choose_enabled, count_enabled};
use smith_types::{EntitySpaces, EntityType, ExportKind, TypeSpace};

/// The size of a table, a memory or a global, plus 1.
const SIZE_OF_OTHER: u32 = 2;

/// Returns the size of a function of the type `func`, plus 1.
fn func_size(types: &TypeSpace, func: u32) -> u32
    requires sized { All HasSizeIn32Bits types.now.types }
    requires valid { IsFuncTypeIndex types.now.types func }
    ensures { result ≡ size_in types.now.types (EntityType.Func func) + 1 }
{
    types.size_of(&EntityType::Func(func)) + 1
}

/// Returns whether the size of a function of the type `func`, plus 1, is below `left`.
fn is_func_below(types: &TypeSpace, left: u32, func: u32) -> bool
    requires sized { All HasSizeIn32Bits types.now.types }
    requires valid { IsFuncTypeIndex types.now.types func }
    ensures { result ≡ is_func_below types.now.types left func }
{
    func_size(types, func) < left
}

/// Returns the greatest size of a function of `funcs`, plus 1, or 0 if there is no function.
pub(crate) fn most_of_funcs(types: &TypeSpace, funcs: &[u32]) -> u32
    requires sized { All HasSizeIn32Bits types.now.types }
    requires valid { All (IsFuncTypeIndex types.now.types) funcs.now }
    ensures { All (IsFuncWithin types.now.types result) funcs.now }
{
    let mut most = 0;
    for func in funcs {
        let size = func_size(types, *func);
        if size > most {
            most = size;
        }
    }
    most
}

/// Counts the functions of `funcs` whose size, plus 1, is below `left`.
fn count_funcs(types: &TypeSpace, funcs: &[u32], left: u32) -> usize
    requires sized { All HasSizeIn32Bits types.now.types }
    requires valid { All (IsFuncTypeIndex types.now.types) funcs.now }
    ensures { result ≡ length (places_from (is_func_below types.now.types left) 0 funcs.now) }
{
    let mut count = 0;
    for func in funcs {
        if is_func_below(types, left, *func) {
            count += 1;
        }
    }
    count
}

/// Finds the index of the function at `place` among those of `funcs` whose size, plus 1, is below
/// `left`.
fn func_at(types: &TypeSpace, funcs: &[u32], left: u32, mut place: usize) -> u32
    requires sized { All HasSizeIn32Bits types.now.types }
    requires valid { All (IsFuncTypeIndex types.now.types) funcs.now }
    requires few { length funcs.now < 2 ^ 32 }
    ensures { result
        ≡ slice_index_or (places_from (is_func_below types.now.types left) 0 funcs.now) place 0 }
{
    for (index, func) in funcs.iter().enumerate() {
        if !is_func_below(types, left, *func) {
            continue;
        }
        if place == 0 {
            return index as u32;
        }
        place -= 1;
    }
    0
}

/// Counts the functions of `funcs` that may be exported. The size of each function, plus 1, is at
/// most `most`, so no function is examined if `left` is above `most`.
fn count_func_candidates(types: &TypeSpace, funcs: &[u32], most: u32, left: u32) -> usize
    requires sized { All HasSizeIn32Bits types.now.types }
    requires valid { All (IsFuncTypeIndex types.now.types) funcs.now }
    requires most { All (IsFuncWithin types.now.types most) funcs.now }
    ensures { result ≡ length (places_from (is_func_below types.now.types left) 0 funcs.now) }
{
    if left > most {
        return funcs.len();
    }
    count_funcs(types, funcs, left)
}

/// Finds the index of the function at `place` among those of `funcs` that may be exported.
fn func_candidate_at(types: &TypeSpace, funcs: &[u32], most: u32, left: u32, place: usize) -> u32
    requires sized { All HasSizeIn32Bits types.now.types }
    requires valid { All (IsFuncTypeIndex types.now.types) funcs.now }
    requires most { All (IsFuncWithin types.now.types most) funcs.now }
    requires few { length funcs.now < 2 ^ 32 }
    requires within { place
        < length (places_from (is_func_below types.now.types left) 0 funcs.now) }
    ensures { result
        ≡ slice_index_or (places_from (is_func_below types.now.types left) 0 funcs.now) place 0 }
{
    if left > most {
        return place as u32;
    }
    func_at(types, funcs, left, place)
}

/// Counts those of `count` tables, memories or globals that may be exported: all, or none.
fn count_others(count: usize, left: u32) -> usize
    ensures { result ≡ (if nat_lt 2 left then count else 0) }
{
    if left > SIZE_OF_OTHER { count } else { 0 }
}

/// Counts the items of the kind `kind` that may be exported if `left` of the type size is left.
fn count_candidates(
    types: &TypeSpace,
    spaces: &EntitySpaces,
    most: u32,
    left: u32,
    kind: ExportKind,
) -> usize
    requires { MayOffer types.now.types (spaces_in spaces.now) most }
    ensures { result ≡ length (candidates types.now.types (spaces_in spaces.now) left kind) }
{
    match kind {
        ExportKind::Func => count_func_candidates(types, spaces.funcs.as_slice(), most, left),
        ExportKind::Table => count_others(spaces.tables.len(), left),
        ExportKind::Memory => count_others(spaces.memories.len(), left),
        ExportKind::Global => count_others(spaces.globals.len(), left),
        ExportKind::Tag => 0,
    }
}

/// Finds the index of the item at `place` among those of the kind `kind` that may be exported.
fn candidate_at(
    types: &TypeSpace,
    spaces: &EntitySpaces,
    most: u32,
    left: u32,
    kind: ExportKind,
    place: usize,
) -> u32
    requires may { MayOffer types.now.types (spaces_in spaces.now) most }
    requires within { place < length (candidates types.now.types (spaces_in spaces.now) left kind) }
    ensures { result
        ≡ slice_index_or (candidates types.now.types (spaces_in spaces.now) left kind) place 0 }
{
    match kind {
        ExportKind::Func => func_candidate_at(types, spaces.funcs.as_slice(), most, left, place),
        _ => place as u32,
    }
}

/// Draws the index of an item of the kind `kind` that may be exported.
#[tactic(auto, unfolding(smith_draw_types::specs::Choices::chosen_at))]
pub(crate) fn choose_candidate(
    types: &TypeSpace,
    spaces: &EntitySpaces,
    most: u32,
    left: u32,
    kind: ExportKind,
    u: &mut Unstructured<'_>,
) -> u32
    requires may { MayOffer types.now.types (spaces_in spaces.now) most }
    requires some { 0 < length (candidates types.now.types (spaces_in spaces.now) left kind) }
    ensures draws { AlwaysDraws
        (chosen_at 0 (candidates types.now.types (spaces_in spaces.now) left kind) u.old)
        result u.old u.new }
    ensures candidate { IsCandidate types.now.types (spaces_in spaces.now) left kind result }
{
    let last = count_candidates(types, spaces, most, left, kind) - 1;
    let place = u.int_in_range(0..=last);
    candidate_at(types, spaces, most, left, kind, place)
}

/// Returns `kind`, and whether an item of that kind may be exported.
fn candidate_row(
    types: &TypeSpace,
    spaces: &EntitySpaces,
    most: u32,
    left: u32,
    kind: ExportKind,
) -> (ExportKind, bool)
    requires { MayOffer types.now.types (spaces_in spaces.now) most }
    ensures { result ≡ candidate_row types.now.types (spaces_in spaces.now) left kind }
{
    (kind, count_candidates(types, spaces, most, left, kind) > 0)
}

/// Lists the kinds in order, each with whether an item of that kind may be exported.
fn candidate_rows(
    types: &TypeSpace,
    spaces: &EntitySpaces,
    most: u32,
    left: u32,
) -> [(ExportKind, bool); 4]
    requires { MayOffer types.now.types (spaces_in spaces.now) most }
    ensures { result ≡ candidate_rows types.now.types (spaces_in spaces.now) left }
{
    [
        candidate_row(types, spaces, most, left, ExportKind::Func),
        candidate_row(types, spaces, most, left, ExportKind::Table),
        candidate_row(types, spaces, most, left, ExportKind::Memory),
        candidate_row(types, spaces, most, left, ExportKind::Global),
    ]
}

/// Returns whether an item may be exported if `left` of the type size is left.
pub(crate) fn has_candidates(types: &TypeSpace, spaces: &EntitySpaces, most: u32, left: u32) -> bool
    requires { MayOffer types.now.types (spaces_in spaces.now) most }
    ensures { result
        ≡ nat_lt 0 (length (offered_kinds types.now.types (spaces_in spaces.now) left)) }
{
    count_enabled(&candidate_rows(types, spaces, most, left)) > 0
}

/// Draws the kind of an item to export.
pub(crate) fn choose_export_kind(
    types: &TypeSpace,
    spaces: &EntitySpaces,
    most: u32,
    left: u32,
    u: &mut Unstructured<'_>,
) -> ExportKind
    requires may { MayOffer types.now.types (spaces_in spaces.now) most }
    requires some { 0 < length (offered_kinds types.now.types (spaces_in spaces.now) left) }
    ensures draws { AlwaysDraws (chosen_at ExportKind.Memory
        (offered_kinds types.now.types (spaces_in spaces.now) left) u.old) result u.old u.new }
    ensures offered { 0 < length (candidates types.now.types (spaces_in spaces.now) left result) }
{
    choose_enabled(&candidate_rows(types, spaces, most, left), u)
}
