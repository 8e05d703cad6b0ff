ghost use Rattle.std.specs.Prelude.{◌≡◌, false};
ghost use Rattle.smith_types.specs.FuncGrounds.{are_below, kinds_of, kinds_with, noted_with};

use crate::subtyping::abstract_type_is_below;
use smith_syntax::{AbstractHeapType, CompositeInnerType, SubType};

// The kinds of composite types in a list of types.
#[derive(Clone, Copy)]
pub(crate) struct Kinds {
    pub(crate) arrays: bool,
    pub(crate) funcs: bool,
    pub(crate) structs: bool,
}

// The kinds among the unshared types (`plain`) and among the shared types.
#[derive(Clone, Copy)]
pub(crate) struct NotedKinds {
    pub(crate) plain: Kinds,
    pub(crate) shared: Kinds,
}

// Returns the kinds of an empty list.
pub(crate) fn no_kinds() -> NotedKinds
    ensures { result ≡ record {
      plain = record { arrays = false; funcs = false; structs = false };
      shared = record { arrays = false; funcs = false; structs = false };
    } }
{
    let none = Kinds {
        arrays: false,
        funcs: false,
        structs: false,
    };
    NotedKinds {
        plain: none,
        shared: none,
    }
}

impl Kinds {
    // Returns the kinds with that of `inner` added.
    fn with(self, inner: &CompositeInnerType) -> Kinds
        ensures { result ≡ kinds_with inner.now self }
    {
        match inner {
            CompositeInnerType::Array(_) => Kinds {
                arrays: true,
                ..self
            },
            CompositeInnerType::Func(_) => Kinds {
                funcs: true,
                ..self
            },
            CompositeInnerType::Struct(_) => Kinds {
                structs: true,
                ..self
            },
        }
    }

    // Returns whether one of the kinds is a subtype of the abstract heap type `ty`.
    fn are_below(self, ty: AbstractHeapType) -> bool
        ensures { result ≡ are_below self ty }
    {
        (self.arrays && abstract_type_is_below(AbstractHeapType::Array, ty))
            || (self.funcs && abstract_type_is_below(AbstractHeapType::Func, ty))
            || (self.structs && abstract_type_is_below(AbstractHeapType::Struct, ty))
    }
}

impl NotedKinds {
    // Returns the kinds with that of the type `ty` added.
    pub(crate) fn with(self, ty: &SubType) -> NotedKinds
        ensures { result
            ≡ noted_with ty.now.composite_type.shared ty.now.composite_type.inner self }
    {
        let inner = &ty.composite_type.inner;
        if ty.composite_type.shared {
            return NotedKinds {
                plain: self.plain,
                shared: self.shared.with(inner),
            };
        }
        NotedKinds {
            plain: self.plain.with(inner),
            shared: self.shared,
        }
    }

    // Returns whether one of the kinds with the sharedness `shared` is a subtype of the abstract
    // heap type `ty`.
    pub(crate) fn are_below(self, shared: bool, ty: AbstractHeapType) -> bool
        ensures { result ≡ are_below (kinds_of self shared) ty }
    {
        if shared {
            return self.shared.are_below(ty);
        }
        self.plain.are_below(ty)
    }
}
