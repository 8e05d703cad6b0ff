ghost use Rattle.std.specs.Prelude.{◌≡◌, ◌≤◌, ◌<◌, ◌↔◌, ℕ, List, Some, length, slice_get};
ghost use Rattle.smith_types.specs.Exports.{AreDistinct};
ghost use Rattle.smith_types.specs.Syntax.composite_type.SubType.{SubType as Sub};
ghost use Rattle.smith_check_types.specs.Canonical.{AreCanonical, defined_types};

/// States that a canonical index is at most the index, and that two types have the same canonical
/// index exactly if they are equal: if their groups are equal once they are rolled, and their places
/// in these groups are the same.
pub fn equal_types()
    ensures at_most { (groups : List (List Sub)) (indices : List ℕ) → AreCanonical groups indices
        → (index first : ℕ) → slice_get indices index ≡ Some first → first ≤ index }
    ensures same_index { (groups : List (List Sub)) (indices : List ℕ) → AreCanonical groups indices
        → (i j first other : ℕ) → slice_get indices i ≡ Some first → slice_get indices j ≡ Some other
        → (first ≡ other)
        ↔ (slice_get (defined_types indices groups) i ≡ slice_get (defined_types indices groups) j) }
{}

/// States that each type is its own canonical index if no two types are equal.
pub fn different_types()
    ensures { (groups : List (List Sub)) (indices : List ℕ) → AreCanonical groups indices
        → AreDistinct (defined_types indices groups)
        → (index : ℕ) → index < length indices → slice_get indices index ≡ Some index }
{}

/// States that groups have one list of canonical indices.
pub fn one_canonical()
    ensures { (groups : List (List Sub)) (one other : List ℕ) → AreCanonical groups one
        → AreCanonical groups other → one ≡ other }
{}
