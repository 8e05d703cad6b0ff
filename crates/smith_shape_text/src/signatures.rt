use crate::fault::Fault;
use smith_types::{
    AbstractHeapType, CompositeInnerType, FuncType, HeapType, Items, RefType, SubType, ValType,
};
use std::alloc::Global;
use std::collections::BTreeMap;

/// The first type of each pair of parameters and results: final, without a supertype, not shared, and in
/// a group of its own (Type Uses).
#[derive(Drop)]
pub(crate) struct Signatures {
    // The key of a function type has a number for each of its parameters, one between, and one for each
    // of its results.
    indices: BTreeMap<Vec<u64>, u32>,
    // The number of types so far.
    count: u32,
}

// The number between parameters and results.
const BETWEEN: u64 = 5;

// Returns the number of an abstract heap type, which is below 12.
fn abstract_code(ty: AbstractHeapType) -> u64 {
    ty as u64
}

// Returns the number of a heap type.
fn heap_code(ty: HeapType) -> u64 {
    match ty {
        HeapType::Abstract { shared: false, ty } => abstract_code(ty).saturating_mul(4),
        HeapType::Abstract { shared: true, ty } => {
            abstract_code(ty).saturating_mul(4).saturating_add(1)
        }
        HeapType::Concrete(index) => u64::from(index).saturating_mul(4).saturating_add(2),
        HeapType::Exact(index) => u64::from(index).saturating_mul(4).saturating_add(3),
    }
}

// Returns the number of a reference type, which is above the numbers of the other value types.
fn reference_code(ty: RefType) -> u64 {
    let code = heap_code(ty.heap_type).saturating_mul(2);
    let null = if ty.nullable { 1 } else { 0 };
    code.saturating_add(null).saturating_add(8)
}

// Returns the number of a value type.
fn value_code(ty: ValType) -> u64 {
    match ty {
        ValType::I32 => 0,
        ValType::I64 => 1,
        ValType::F32 => 2,
        ValType::F64 => 3,
        ValType::V128 => 4,
        ValType::Ref(reference) => reference_code(reference),
    }
}

fn push_codes(key: &mut Vec<u64>, values: &[ValType]) -> Result<(), Fault> {
    for value in values {
        key.push(value_code(*value))?;
    }
    Ok(())
}

// Returns the key of a function type.
fn key_of(alloc: Global, signature: &FuncType) -> Result<Vec<u64>, Fault> {
    let mut key = Vec::new(alloc);
    push_codes(&mut key, signature.params.as_slice())?;
    key.push(BETWEEN)?;
    push_codes(&mut key, signature.results.as_slice())?;
    Ok(key)
}

// Returns the parameters and results of `group`, if a type use without an index may name its type.
fn signature_in(group: &[SubType]) -> Option<&FuncType> {
    let [only] = group else {
        return None;
    };
    if !only.is_final || only.supertype.is_some() || only.composite_type.shared {
        return None;
    }
    match &only.composite_type.inner {
        CompositeInnerType::Func(signature) => Some(signature),
        _ => None,
    }
}

impl Signatures {
    /// Returns no signatures.
    pub(crate) fn new(alloc: Global) -> Signatures {
        Signatures {
            indices: BTreeMap::new(alloc),
            count: 0,
        }
    }

    /// Returns the signatures of the types of `groups`.
    pub(crate) fn of(alloc: Global, groups: &[Items<SubType>]) -> Result<Signatures, Fault> {
        let mut signatures = Signatures::new(alloc);
        for group in groups {
            signatures.add_group(alloc, group.as_slice())?;
        }
        Ok(signatures)
    }

    // Counts the types of `group`, and adds the signature of its type if there is a new one.
    fn add_group(&mut self, alloc: Global, group: &[SubType]) -> Result<(), Fault> {
        if let Some(signature) = signature_in(group) {
            let _ = self.find_or_add(alloc, signature, self.count)?;
        }
        let length = u32::try_from(group.len()).unwrap_or(u32::MAX);
        self.count = self.count.saturating_add(length);
        Ok(())
    }

    // Returns the index of `signature`, which becomes `index` if it has none.
    fn find_or_add(
        &mut self,
        alloc: Global,
        signature: &FuncType,
        index: u32,
    ) -> Result<u32, Fault> {
        let key = key_of(alloc, signature)?;
        if let Some(found) = self.indices.get(key.as_slice()) {
            return Ok(*found);
        }
        self.indices.insert(key, index)?;
        Ok(index)
    }

    /// Returns the index of `signature`, and whether its type is new. Counts a new type.
    pub(crate) fn index_of(
        &mut self,
        alloc: Global,
        signature: &FuncType,
    ) -> Result<(u32, bool), Fault> {
        let next = self.count;
        let index = self.find_or_add(alloc, signature, next)?;
        let is_new = index == next;
        if is_new {
            self.count = next.saturating_add(1);
        }
        Ok((index, is_new))
    }
}
