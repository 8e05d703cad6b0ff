ghost use Rattle.std.specs.Prelude.{◌≡◌, ◌+◌, ◌++◌, ◌<◌, ℕ, Bool, List, [], ◌∷◌, Some, length, slice_get};
ghost use Rattle.std.specs.Prelude.{IsTrue, OnOk, IfOk, IfErr, if◌then◌else◌};
ghost use Rattle.smith_types.specs.Syntax.composite_type.SubType.{SubType as ListedType};
ghost use Rattle.smith_types.specs.Syntax.value_type.AbstractHeapType.TheVariants.{Func};
ghost use Rattle.smith_types.specs.Syntax.value_type.HeapType.TheVariants.{Concrete};
ghost use Rattle.smith_types.specs.Expressions.{Context};
ghost use Rattle.smith_types.specs.Families.{is_index};
ghost use Rattle.smith_types.specs.FuncGrounds.{AreFuncGrounds, is_noted};
ghost use Rattle.smith_types.specs.Grounds.{indices_where};
ghost use Rattle.smith_types.specs.declared.func_grounds.FuncGrounds.{FuncGrounds as Noted};
ghost use Rattle.smith_draw_types.specs.Offered.{is_kind};
ghost use Rattle.smith_draw_types.specs.FunctionFamilies.{is_noted_below, is_noted_function};
ghost use Rattle.smith_draw_types.specs.FunctionFamilies.{AreListed, AreFunctionFamilies};

use smith_bytes::Error;
use smith_types::{CompositeInnerType, FuncGrounds, HeapType, SubType, TypeSpace};
use std::alloc::Global;

/// The concrete types that functions ground, listed so that a draw needs no search for them.
#[derive(Drop)]
pub(crate) struct FunctionFamilies {
    /// For each type, the indices of its direct subtypes that functions ground, in order. Types
    /// without a list have none.
    pub direct: Vec<Vec<u32>>,
    /// The indices of the unshared function types that functions ground, in order.
    pub plain: Vec<u32>,
    /// The indices of the shared function types that functions ground, in order.
    pub shared: Vec<u32>,
}

impl FunctionFamilies {
    /// Lists the types of `types` that functions ground, by the record `grounds`. Reads each type
    /// once.
    pub(crate) fn of(
        alloc: Global,
        types: &TypeSpace,
        grounds: &FuncGrounds,
    ) -> Result<FunctionFamilies, Error>
        ensures listed { (context : Context) → context.types ≡ types.now.types
            → AreFuncGrounds context grounds.now → IfOk result
            (AreFunctionFamilies types.now.types grounds.now (length types.now.types)) }
        ensures memory { IfErr result (λ e. e ≡ Error.Memory) }
    {
        let mut families = FunctionFamilies {
            direct: Vec::new(alloc),
            plain: Vec::new(alloc),
            shared: Vec::new(alloc),
        };
        let types = types.types();
        for index in 0..types.len() {
            let grounded = grounds.are_grounding(HeapType::Concrete(index as u32));
            families.note(alloc, grounded, index as u32, &types[index])?;
        }
        Ok(families)
    }

    /// Lists the type `ty` with the index `index`, the next one, if `grounded` says that functions
    /// ground it.
    fn note(&mut self, alloc: Global, grounded: bool, index: u32, ty: &SubType) -> Result<(), Error>
        ensures listed { (types : List ListedType) (grounds : Noted)
            → slice_get types index ≡ Some ty.now → grounded ≡ is_noted grounds (Concrete index)
            → AreFunctionFamilies types grounds index self.old
            → OnOk result (AreFunctionFamilies types grounds (index + 1) self.new) }
        ensures memory { IfErr result (λ e. e ≡ Error.Memory) }
    {
        if !grounded {
            return Ok(());
        }
        list_below(alloc, ty.supertype, index, &mut self.direct)?;
        push_if(is_function(false, ty), index, &mut self.plain)?;
        push_if(is_function(true, ty), index, &mut self.shared)
    }

    /// Returns the indices of the direct subtypes of the type `index` that functions ground, in
    /// order.
    pub(crate) fn direct_subtypes(&self, index: u32) -> &[u32]
        ensures { (types : List ListedType) (grounds : Noted)
            → AreFunctionFamilies types grounds (length types) self.now
            → result.now ≡ indices_where (is_noted_below types grounds index) 0 (length types) }
    {
        match self.direct.get(index as usize) {
            Some(list) => list.as_slice(),
            None => &[],
        }
    }

    /// Returns the indices of the function types with the sharedness `shared` that functions
    /// ground, in order.
    pub(crate) fn function_types(&self, shared: bool) -> &[u32]
        ensures { (types : List ListedType) (grounds : Noted)
            → AreFunctionFamilies types grounds (length types) self.now
            → result.now ≡ indices_where (is_noted_function types grounds shared) 0 (length types) }
    {
        if shared {
            self.shared.as_slice()
        } else {
            self.plain.as_slice()
        }
    }
}

/// Appends `index` to the list of the type `supertype`, if there is one.
fn list_below(
    alloc: Global,
    supertype: Option<u32>,
    index: u32,
    lists: &mut Vec<Vec<u32>>,
) -> Result<(), Error>
    ensures listed { (test : ℕ → ℕ → Bool) → ((s : ℕ) → test s index ≡ is_index s supertype)
        → AreListed test index lists.old.items
        → OnOk result (AreListed test (index + 1) lists.new.items) }
    ensures memory { IfErr result (λ e. e ≡ Error.Memory) }
{
    if let Some(above) = supertype {
        extend_lists(alloc, above, lists)?;
        lists[above as usize].push(index)?;
    }
    Ok(())
}

/// Extends `lists` up to the type `index`.
fn extend_lists(alloc: Global, index: u32, lists: &mut Vec<Vec<u32>>) -> Result<(), Error>
    ensures kept { (test : ℕ → ℕ → Bool) (count : ℕ) → AreListed test count lists.old.items
        → AreListed test count lists.new.items }
    ensures long { OnOk result (index < length lists.new.items) }
    ensures memory { IfErr result (λ e. e ≡ Error.Memory) }
{
    while lists.len() <= index as usize {
        lists.push(Vec::new(alloc))?;
    }
    Ok(())
}

/// Appends `index` to `indices` if `wanted` is `true`.
fn push_if(wanted: bool, index: u32, indices: &mut Vec<u32>) -> Result<(), Error>
    ensures items { OnOk result (indices.new.items
        ≡ indices.old.items ++ (if wanted then index ∷ [] else [])) }
    ensures memory { IfErr result (λ e. e ≡ Error.Memory) }
{
    if wanted {
        indices.push(index)?;
    }
    Ok(())
}

/// Returns whether `ty` is a function type with the sharedness `shared`.
fn is_function(shared: bool, ty: &SubType) -> bool
    ensures { result ≡ is_kind shared Func ty.now }
{
    ty.composite_type.shared == shared
        && matches!(ty.composite_type.inner, CompositeInnerType::Func(_))
}
