ghost use Rattle.std.specs.Prelude.{◌≡◌, ◌<◌, ◌↔◌, [], Some, length, vec_len, IsTrue, ◌||◌, IfOk};
ghost use Rattle.std.specs.Prelude.{IfErr};
ghost use Rattle.smith_types.specs.Types.{IsOrderly};
ghost use Rattle.smith_types.specs.Subtyping.{IsInRange};
ghost use Rattle.smith_types.specs.Expressions.{Context};
ghost use Rattle.smith_types.specs.Grounded.{IsGroundedByFuncs};
ghost use Rattle.smith_types.specs.Grounds.{AreClosed};
ghost use Rattle.smith_types.specs.FuncGrounds.{AreFuncGrounds, IsFunctionAdded, IsTypeNoted};

use crate::ground::{Ground, mark_above};
use crate::noted_kinds::{NotedKinds, no_kinds};
use crate::type_space::TypeSpace;
use smith_bytes::Error;
use smith_syntax::{HeapType, SubType};
use std::alloc::Global;

/// The heap types that functions ground, updated as functions are noted. A query takes constant
/// time.
///
/// A function grounds each heap type that is a supertype of its reference. With custom descriptors
/// this reference is exact, unless the function is imported.
#[derive(Drop)]
pub struct FuncGrounds {
    // For each type: whether it is the type of a function whose reference is exact, and whether it
    // is the type of a function or a supertype of one.
    marks: Vec<Ground>,
    kinds: NotedKinds,
}

impl FuncGrounds {
    /// Starts without functions, over `types` types. Allocates a mark for each type from `alloc`.
    pub fn none(alloc: Global, types: usize) -> Result<FuncGrounds, Error>
        ensures none { (context : Context) → context.funcs ≡ [] → length context.types ≡ types
            → IfOk result (AreFuncGrounds context) }
        ensures memory { IfErr result (λ e. e ≡ Error.Memory) }
    {
        let unmarked = Ground {
            own: false,
            below: false,
        };
        Ok(FuncGrounds {
            marks: Vec::from_elem(alloc, unmarked, types)?,
            kinds: no_kinds(),
        })
    }

    /// Notes a function whose type has the index `index` in `types`, and whose reference is exact
    /// if `exact` is `true`.
    ///
    /// An index without a type is ignored, since such a function grounds no type that exists. All
    /// calls together take time linear in the number of types and functions.
    pub fn note(&mut self, types: &TypeSpace, index: u32, exact: bool)
        ensures { (before after : Context) → before.types ≡ types.now.types
            → IsFunctionAdded before after index exact → AreFuncGrounds before self.old
            → AreFuncGrounds after self.new }
    {
        let types = types.types();
        let Some(ty) = types.get(index as usize) else {
            return;
        };
        if index as usize >= self.marks.len() {
            return;
        }
        note_type(types, index, exact, &mut self.marks);
        self.kinds = self.kinds.with(ty);
    }

    /// Returns whether one of the functions grounds the heap type `ty`. If types were added after
    /// the record was made, no function grounds an added type.
    pub fn are_grounding(&self, ty: HeapType) -> bool
        ensures decided { (context : Context) → AreFuncGrounds context self.now → IsInRange context.types ty
            → IsTrue result ↔ IsGroundedByFuncs context ty }
        ensures within { (context : Context) → AreFuncGrounds context self.now → IsTrue result
            → IsInRange context.types ty }
    {
        match ty {
            HeapType::Abstract { shared, ty } => self.kinds.are_below(shared, ty),
            HeapType::Concrete(index) => match self.marks.get(index as usize) {
                Some(mark) => mark.below,
                None => false,
            },
            HeapType::Exact(index) => match self.marks.get(index as usize) {
                Some(mark) => mark.own,
                None => false,
            },
        }
    }
}

// Notes a function of the type `index` in `marks`.
fn note_type(types: &[SubType], index: u32, exact: bool, marks: &mut Vec<Ground>)
    requires orderly { IsOrderly types.now }
    requires stands { index < length types.now }
    requires entry { index < vec_len marks.old }
    ensures { AreClosed types.now marks.old.items
        → IsTypeNoted types.now index exact marks.old.items marks.new.items }
{
    marks[index as usize] = with_exact(marks[index as usize], exact);
    mark_above(types, Some(index), marks);
}

// Returns `mark`, with the exact reference added if `exact` is `true`.
fn with_exact(mark: Ground, exact: bool) -> Ground
    ensures { result ≡ record { own = mark.own || exact; below = mark.below } }
{
    Ground {
        own: mark.own || exact,
        below: mark.below,
    }
}
