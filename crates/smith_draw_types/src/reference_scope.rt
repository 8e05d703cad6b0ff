ghost use Rattle.std.specs.Prelude.{◌≡◌, ◌<◌, [], ◌∷◌, length, map, filter, IsTrue, IfSome, ◌↔◌};
ghost use Rattle.smith_types.specs.Syntax.value_type.AbstractHeapType.TheVariants.{Array, Func, Struct};
ghost use Rattle.smith_types.specs.Syntax.value_type.HeapType.TheVariants.{Concrete};
ghost use Rattle.smith_types.specs.Types.{IsOrderly};
ghost use Rattle.smith_types.specs.Subtyping.{IsInRange};
ghost use Rattle.smith_types.specs.Expressions.{reference_to, function_reference};
ghost use Rattle.smith_types.specs.FuncGrounds.{AreFuncGrounds};
ghost use Rattle.smith_draw_types.specs.Grounding.{standing_in, functions_of, over, any_from};
ghost use Rattle.smith_draw_types.specs.Grounding.{function_grounds, is_grounded};
ghost use Rattle.smith_draw_types.specs.GroundedTails.{IsGroundedFamily};
ghost use Rattle.smith_draw_types.specs.Offered.{kinds_below, of_kinds};
ghost use Rattle.smith_draw_types.specs.KeptGrounds.{AreEarlyGrounds, IsRecordOver};

use crate::early_grounds::EarlyGrounds;
use crate::function_families::FunctionFamilies;
use crate::spaces::Spaces;
use smith_config::Config;
use smith_types::{AbstractHeapType, FuncGrounds, HeapType, SubType, TypeSpace};
use std::marker::Model;

/// The types over which references are drawn, and the functions that may ground them.
#[derive(Drop)]
pub struct ReferenceScope<'a> {
    config: &'a Config,
    types: &'a TypeSpace,
    funcs: &'a [u32],
    imported_funcs: usize,
    // A record of the heap types that the functions ground, if there is one. It may have been made
    // when there were fewer types.
    kept: &'a Option<FuncGrounds>,
    // The types that the functions ground, if they are listed.
    families: Option<&'a FunctionFamilies>,
}

impl<'a> Model for ReferenceScope<'a> {
    ghost use Rattle.std.specs.Prelude.{IfSome};
    ghost use Rattle.smith_types.specs.Expressions.{Context};
    ghost use Rattle.smith_types.specs.FuncGrounds.{AreFuncGrounds};
    ghost use Rattle.smith_config.specs.Features.{features_of};
    ghost use Rattle.smith_draw_types.specs.Grounding.{function_context};
    ghost use Rattle.smith_draw_types.specs.KeptGrounds.{IsRecordOver, AreEarlyFamilies};

    ghost Value = { Context };

    ghost view = { λ a.
        function_context (features_of a.config.now) a.types.now.types a.funcs.now a.imported_funcs };

    ghost invariant = { λ a. IfSome a.kept.now (IsRecordOver
        (function_context (features_of a.config.now) a.types.now.types a.funcs.now a.imported_funcs))
        × IfSome a.families (λ families. AreEarlyFamilies
        (function_context (features_of a.config.now) a.types.now.types a.funcs.now a.imported_funcs)
        families.now) };
}

impl<'a> ReferenceScope<'a> {
    /// Returns the types of `types` and the functions of `grounds`. Checks of whether a function
    /// grounds a heap type use the record of `grounds`, if there is one. Types may have been added
    /// since it was made.
    pub(crate) fn beside(
        config: &'a Config,
        types: &'a TypeSpace,
        grounds: &'a EarlyGrounds<'a>,
    ) -> ReferenceScope<'a>
        requires { AreEarlyGrounds (over (functions_of config.now grounds.now) types.now.types)
            grounds.now }
        ensures { result ≡ over (functions_of config.now grounds.now) types.now.types }
    {
        ReferenceScope {
            config,
            types,
            funcs: grounds.funcs,
            imported_funcs: grounds.imported_funcs,
            kept: &grounds.kept,
            families: grounds.families.as_ref(),
        }
    }

    /// Returns the types and functions of `spaces`. Checks of whether a function grounds a heap
    /// type use the record `grounds`, if given.
    pub(crate) fn with_record(
        config: &'a Config,
        spaces: &Spaces<'a>,
        grounds: &'a Option<FuncGrounds>,
    ) -> ReferenceScope<'a>
        requires { IfSome grounds.now (AreFuncGrounds (standing_in config.now spaces.now)) }
        ensures { result ≡ standing_in config.now spaces.now }
    {
        ReferenceScope {
            config,
            types: spaces.types,
            funcs: spaces.entities.funcs,
            imported_funcs: spaces.entities.imported_funcs,
            kept: grounds,
            families: None,
        }
    }

    /// Returns the types.
    pub fn types(&self) -> &'a TypeSpace
        ensures { result.now.types ≡ self.now.types }
    {
        self.types
    }

    /// Proves that the types are orderly, as those of every type space are.
    pub(crate) fn orderly(&self)
        ensures { IsOrderly self.now.types }
    {
        let _types = self.types.types();
    }

    /// Returns whether a type or a function grounds the heap type `ty`.
    pub(crate) fn is_grounded(&self, ty: HeapType) -> bool
        ensures { result ≡ is_grounded self.now ty }
    {
        if !is_in_range(self.types.types(), ty) {
            return false;
        }
        let descriptors = self.config.custom_descriptors_enabled;
        if self.types.is_grounded_by_structs(ty, descriptors) {
            return true;
        }
        self.is_grounded_by_functions(ty)
    }

    /// Returns the indices of the grounded types among the concrete types that are offered as
    /// subtypes of the abstract type `ty` with the sharedness `shared`, in order. Returns `None` if
    /// they are not recorded.
    pub(crate) fn grounded_of_kinds(&self, shared: bool, ty: AbstractHeapType) -> Option<&'a [u32]>
        ensures { IfSome result (λ indices. filter (is_grounded self.now)
            (of_kinds self.now.types shared (kinds_below ty)) ≡ map Concrete indices.now) }
    {
        use AbstractHeapType::{Any, Array, Eq, Func, Struct};
        match ty {
            Any => self.grounded_aggregates(shared),
            Eq => self.grounded_aggregates(shared),
            Struct => self.grounded_structs(shared),
            Array => self.none_grounded(shared, Array),
            Func => self.grounded_functions(shared),
            _ => Some(&[]),
        }
    }

    /// Returns the indices of the grounded array and struct types with the sharedness `shared`, in
    /// order. Returns `None` if they are not recorded.
    fn grounded_aggregates(&self, shared: bool) -> Option<&'a [u32]>
        ensures { IfSome result (λ indices. filter (is_grounded self.now)
            (of_kinds self.now.types shared (Array ∷ Struct ∷ [])) ≡ map Concrete indices.now) }
    {
        match self.none_grounded(shared, AbstractHeapType::Array) {
            Some(_) => self.grounded_structs(shared),
            None => None,
        }
    }

    /// Returns the indices of the grounded struct types with the sharedness `shared`, in order.
    /// Returns `None` if they are not recorded.
    fn grounded_structs(&self, shared: bool) -> Option<&'a [u32]>
        ensures { IfSome result (λ indices. filter (is_grounded self.now)
            (of_kinds self.now.types shared (Struct ∷ [])) ≡ map Concrete indices.now) }
    {
        let above = HeapType::Abstract {
            shared,
            ty: AbstractHeapType::Struct,
        };
        self.orderly();
        if self.is_grounded_by_functions(above) {
            return None;
        }
        self.types.grounded_by_structs(shared)
    }

    /// Returns the indices of the grounded function types with the sharedness `shared`, in order.
    /// Returns `None` if they are not recorded.
    fn grounded_functions(&self, shared: bool) -> Option<&'a [u32]>
        ensures { IfSome result (λ indices. filter (is_grounded self.now)
            (of_kinds self.now.types shared (Func ∷ [])) ≡ map Concrete indices.now) }
    {
        self.orderly();
        match self.families {
            Some(families) => Some(families.function_types(shared)),
            None => self.none_grounded(shared, AbstractHeapType::Func),
        }
    }

    /// Returns the indices of the grounded direct subtypes of the type `index`, in order. Returns
    /// `None` if they are not recorded.
    pub(crate) fn grounded_direct(&self, index: u32) -> Option<&'a [u32]>
        ensures { IfSome result (λ indices. IsGroundedFamily self.now index indices.now) }
    {
        self.orderly();
        let above = HeapType::Concrete(index);
        if !is_in_range(self.types.types(), above) {
            return None;
        }
        if self.is_grounded_by_functions(above) {
            return self.direct_by_functions(index);
        }
        self.types.grounded_direct_subtypes(index)
    }

    /// Returns the same as [`ReferenceScope::grounded_direct`], from the lists of the types that
    /// functions ground. Returns `None` if a struct type grounds the type `index`.
    fn direct_by_functions(&self, index: u32) -> Option<&'a [u32]>
        requires { index < length self.now.types }
        ensures { IfSome result (λ indices. IsGroundedFamily self.now index indices.now) }
    {
        self.orderly();
        let Some(families) = self.families else {
            return None;
        };
        let descriptors = self.config.custom_descriptors_enabled;
        let above = HeapType::Concrete(index);
        if self.types.is_grounded_by_structs(above, descriptors) {
            return None;
        }
        Some(families.direct_subtypes(index))
    }

    /// Returns no indices if no type of the kind `kind` with the sharedness `shared` is grounded.
    /// Returns `None` if one may be.
    fn none_grounded(&self, shared: bool, kind: AbstractHeapType) -> Option<&'a [u32]>
        ensures { IfSome result (λ indices. (indices.now ≡ []) × (filter (is_grounded self.now)
            (of_kinds self.now.types shared (kind ∷ [])) ≡ [])) }
    {
        self.orderly();
        if self.is_grounded(HeapType::Abstract { shared, ty: kind }) {
            return None;
        }
        Some(&[])
    }

    /// Returns whether a function grounds the heap type `ty`. Requires the type named by `ty`, if
    /// any, to exist.
    fn is_grounded_by_functions(&self, ty: HeapType) -> bool
        requires orderly { IsOrderly self.now.types }
        requires stands { IsInRange self.now.types ty }
        ensures { result ≡ any_from (function_grounds self.now ty) 0 self.now.funcs }
    {
        if let Some(kept) = self.kept {
            return self.is_recorded(kept, ty);
        }
        self.is_above_a_function(ty)
    }

    /// Returns the same as [`ReferenceScope::is_grounded_by_functions`], from the record `kept`. No
    /// function grounds a type that was added after it was made.
    fn is_recorded(&self, kept: &FuncGrounds, ty: HeapType) -> bool
        requires orderly { IsOrderly self.now.types }
        requires stands { IsInRange self.now.types ty }
        requires kept { IsRecordOver self.now kept.now }
        ensures { result ≡ any_from (function_grounds self.now ty) 0 self.now.funcs }
    {
        kept.are_grounding(ty)
    }

    /// Returns the same as [`ReferenceScope::is_grounded_by_functions`], by reading each function.
    fn is_above_a_function(&self, ty: HeapType) -> bool
        requires { IsInRange self.now.types ty }
        ensures { result ≡ any_from (function_grounds self.now ty) 0 self.now.funcs }
    {
        let funcs = self.funcs;
        for function in 0..funcs.len() {
            if self.is_function_below(function, funcs[function], ty) {
                return true;
            }
        }
        false
    }

    /// Returns whether a reference to the function `function` with the type `index` is a subtype of
    /// the heap type `ty`. Requires the type named by `ty`, if any, to exist.
    fn is_function_below(&self, function: usize, index: u32, ty: HeapType) -> bool
        requires { IsInRange self.now.types ty }
        ensures { result ≡ function_grounds self.now ty function index }
    {
        if index as usize >= self.types.types().len() {
            return false;
        }
        let reference = self.reference_to(function, index);
        self.types.heap_type_is_sub_type(reference, ty)
    }

    /// Returns the heap type of a reference to the function `function` with the type `index`.
    fn reference_to(&self, function: usize, index: u32) -> HeapType
        ensures value { reference_to result ≡ function_reference self.now function index }
        ensures stands { index < length self.now.types → IsInRange self.now.types result }
    {
        if self.config.custom_descriptors_enabled && function >= self.imported_funcs {
            HeapType::Exact(index)
        } else {
            HeapType::Concrete(index)
        }
    }
}

/// Returns whether the type that `ty` refers to is one of `types`.
fn is_in_range(types: &[SubType], ty: HeapType) -> bool
    ensures { IsTrue result ↔ IsInRange types.now ty }
{
    match ty {
        HeapType::Abstract { .. } => true,
        HeapType::Concrete(index) => (index as usize) < types.len(),
        HeapType::Exact(index) => (index as usize) < types.len(),
    }
}
