ghost use Rattle.std.specs.Prelude.{◌≡◌, ◌+◌, ◌<◌, ◌^◌};
ghost use Rattle.smith_types.specs.KindCounts.{kind_count_at, counts_with, count_in, one_more_if};
ghost use Rattle.smith_types.specs.KindCounts.{has_no_results};
ghost use Rattle.smith_types.specs.declared.kind_counts.TypeSet.{TypeSet as Set};

use smith_syntax::{AbstractHeapType, CompositeInnerType, CompositeType, FuncType};

/// A set of types that a type space counts.
#[derive(Clone, Copy, Debug)]
pub enum TypeSet {
    /// The types of a kind and sharedness. The kinds of types are `Array`, `Func` and `Struct`; the
    /// set is empty for any other abstract heap type.
    OfKind {
        /// Whether the types are shared.
        shared: bool,
        /// The kind of the types.
        kind: AbstractHeapType,
    },
    /// All function types, shared or not.
    Functions,
    /// The function types without results, shared or not.
    WithoutResults,
}

// The number of types of each kind and sharedness in a list of types, and of the function types
// without results.
#[derive(Clone, Copy)]
pub(crate) struct KindCounts {
    pub(crate) arrays: u32,
    pub(crate) funcs: u32,
    pub(crate) structs: u32,
    pub(crate) shared_arrays: u32,
    pub(crate) shared_funcs: u32,
    pub(crate) shared_structs: u32,
    pub(crate) without_results: u32,
}

// Returns the counts of an empty list.
pub(crate) fn no_counts() -> KindCounts
    ensures { result ≡ record {
      arrays = 0;
      funcs = 0;
      structs = 0;
      shared_arrays = 0;
      shared_funcs = 0;
      shared_structs = 0;
      without_results = 0;
    } }
{
    KindCounts {
        arrays: 0,
        funcs: 0,
        structs: 0,
        shared_arrays: 0,
        shared_funcs: 0,
        shared_structs: 0,
        without_results: 0,
    }
}

impl KindCounts {
    // Returns the counts with a further composite type `ty`. Requires that no count is at its
    // limit.
    pub(crate) fn with(self, ty: &CompositeType) -> KindCounts
        requires room { (set : Set) → count_in self set + 1 < 2 ^ 32 }
        ensures { result ≡ counts_with ty.now.shared ty.now.inner self }
    {
        match (&ty.inner, ty.shared) {
            (CompositeInnerType::Array(_), false) => KindCounts {
                arrays: self.arrays + 1,
                ..self
            },
            (CompositeInnerType::Array(_), true) => KindCounts {
                shared_arrays: self.shared_arrays + 1,
                ..self
            },
            (CompositeInnerType::Func(function), false) => KindCounts {
                funcs: self.funcs + 1,
                without_results: self.without_results_with(function),
                ..self
            },
            (CompositeInnerType::Func(function), true) => KindCounts {
                shared_funcs: self.shared_funcs + 1,
                without_results: self.without_results_with(function),
                ..self
            },
            (CompositeInnerType::Struct(_), false) => KindCounts {
                structs: self.structs + 1,
                ..self
            },
            (CompositeInnerType::Struct(_), true) => KindCounts {
                shared_structs: self.shared_structs + 1,
                ..self
            },
        }
    }

    // Returns the number of function types without results, with a further function type `function`.
    // Requires that the count is not at its limit.
    fn without_results_with(self, function: &FuncType) -> u32
        requires room { self.without_results + 1 < 2 ^ 32 }
        ensures { result ≡ one_more_if (has_no_results function.now) self.without_results }
    {
        if function.results.is_empty() {
            self.without_results + 1
        } else {
            self.without_results
        }
    }

    // Returns the number of types in `set`.
    pub(crate) fn count(self, set: TypeSet) -> u32
        requires few { count_in self set < 2 ^ 32 }
        ensures { result ≡ count_in self set }
    {
        match set {
            TypeSet::OfKind { shared, kind } => self.count_of_kind(shared, kind),
            TypeSet::Functions => self.funcs + self.shared_funcs,
            TypeSet::WithoutResults => self.without_results,
        }
    }

    // Returns the number of types of the kind `kind` with the sharedness `shared`. Returns 0 for a
    // kind that no composite type has.
    fn count_of_kind(self, shared: bool, kind: AbstractHeapType) -> u32
        ensures { result ≡ kind_count_at self shared kind }
    {
        match (kind, shared) {
            (AbstractHeapType::Array, false) => self.arrays,
            (AbstractHeapType::Array, true) => self.shared_arrays,
            (AbstractHeapType::Func, false) => self.funcs,
            (AbstractHeapType::Func, true) => self.shared_funcs,
            (AbstractHeapType::Struct, false) => self.structs,
            (AbstractHeapType::Struct, true) => self.shared_structs,
            _ => 0,
        }
    }
}
