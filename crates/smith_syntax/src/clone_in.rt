ghost use Rattle.std.specs.Prelude.{◌≡◌, IfOk, IfErr};

use crate::composite_type::{CompositeInnerType, CompositeType, FuncType, StructType, SubType};
use crate::entity_type::ExportKind;
use crate::imports::{Import, ImportItem, Imports};
use crate::list::{Items, Name};
use smith_bytes::Error;
use std::alloc::Global;

/// A type whose values can be copied into newly allocated memory. Generic code uses this trait as a
/// bound; the method `clone` of each type calls [`CloneIn::clone_in`].
pub trait CloneIn: Sized + Drop {
    /// Copies the value into memory from `alloc`.
    fn clone_in(&self, alloc: Global) -> Result<Self, Error>
        ensures ok { IfOk result (λ copy. copy ≡ self.now) }
        ensures memory { IfErr result (λ e. e ≡ Error.Memory) };
}

impl<T: Copy> Items<T> {
    /// Copies the list into memory from `alloc`. Its elements are `Copy`.
    pub fn copy_in(&self, alloc: Global) -> Result<Items<T>, Error>
        ensures ok { IfOk result (λ copy. copy ≡ self.now) }
        ensures memory { IfErr result (λ e. e ≡ Error.Memory) }
    {
        Items::from_slice(alloc, self.as_slice())
    }
}

impl<T: CloneIn> CloneIn for Items<T> {
    fn clone_in(&self, alloc: Global) -> Result<Items<T>, Error> {
        let mut copies = Items::with_capacity(alloc, self.len())?;
        for item in self.as_slice() {
            copies.push(item.clone_in(alloc)?)?;
        }
        Ok(copies)
    }
}

impl CloneIn for Name {
    fn clone_in(&self, alloc: Global) -> Result<Name, Error> {
        Name::from_text(alloc, self.as_str())
    }
}

impl CloneIn for (Name, ExportKind, u32) {
    fn clone_in(&self, alloc: Global) -> Result<(Name, ExportKind, u32), Error> {
        Ok((self.0.clone_in(alloc)?, self.1, self.2))
    }
}

impl CloneIn for StructType {
    fn clone_in(&self, alloc: Global) -> Result<StructType, Error> {
        Ok(StructType {
            fields: self.fields.copy_in(alloc)?,
        })
    }
}

impl CloneIn for FuncType {
    fn clone_in(&self, alloc: Global) -> Result<FuncType, Error> {
        Ok(FuncType {
            params: self.params.copy_in(alloc)?,
            results: self.results.copy_in(alloc)?,
        })
    }
}

impl CloneIn for CompositeInnerType {
    fn clone_in(&self, alloc: Global) -> Result<CompositeInnerType, Error> {
        Ok(match self {
            CompositeInnerType::Array(array) => CompositeInnerType::Array(*array),
            CompositeInnerType::Func(func) => CompositeInnerType::Func(func.clone_in(alloc)?),
            CompositeInnerType::Struct(fields) => CompositeInnerType::Struct(fields.clone_in(
                alloc,
            )?),
        })
    }
}

impl CloneIn for CompositeType {
    fn clone_in(&self, alloc: Global) -> Result<CompositeType, Error> {
        Ok(CompositeType {
            inner: self.inner.clone_in(alloc)?,
            shared: self.shared,
        })
    }
}

impl CloneIn for SubType {
    fn clone_in(&self, alloc: Global) -> Result<SubType, Error> {
        Ok(SubType {
            is_final: self.is_final,
            supertype: self.supertype,
            composite_type: self.composite_type.clone_in(alloc)?,
        })
    }
}

impl CloneIn for Import {
    fn clone_in(&self, alloc: Global) -> Result<Import, Error> {
        Ok(Import {
            module: self.module.clone_in(alloc)?,
            name: self.name.clone_in(alloc)?,
            entity_type: self.entity_type,
        })
    }
}

impl CloneIn for ImportItem {
    fn clone_in(&self, alloc: Global) -> Result<ImportItem, Error> {
        Ok(ImportItem {
            name: self.name.clone_in(alloc)?,
            entity_type: self.entity_type,
        })
    }
}

impl CloneIn for Imports {
    fn clone_in(&self, alloc: Global) -> Result<Imports, Error> {
        Ok(match self {
            Imports::Single(import) => Imports::Single(import.clone_in(alloc)?),
            Imports::Compact1 { module, items } => Imports::Compact1 {
                module: module.clone_in(alloc)?,
                items: items.clone_in(alloc)?,
            },
            Imports::Compact2 {
                module,
                entity_type,
                names,
            } => Imports::Compact2 {
                module: module.clone_in(alloc)?,
                entity_type: *entity_type,
                names: names.clone_in(alloc)?,
            },
        })
    }
}

impl<T: CloneIn> Items<T> {
    /// Copies the list into memory from `alloc`.
    pub fn clone(&self, alloc: Global) -> Result<Self, Error>
        ensures ok { IfOk result (λ copy. copy ≡ self.now) }
        ensures memory { IfErr result (λ e. e ≡ Error.Memory) }
    {
        self.clone_in(alloc)
    }
}

impl Name {
    /// Copies the name into memory from `alloc`.
    pub fn clone(&self, alloc: Global) -> Result<Self, Error>
        ensures ok { IfOk result (λ copy. copy ≡ self.now) }
        ensures memory { IfErr result (λ e. e ≡ Error.Memory) }
    {
        self.clone_in(alloc)
    }
}

impl StructType {
    /// Copies the struct type into memory from `alloc`.
    pub fn clone(&self, alloc: Global) -> Result<Self, Error>
        ensures ok { IfOk result (λ copy. copy ≡ self.now) }
        ensures memory { IfErr result (λ e. e ≡ Error.Memory) }
    {
        self.clone_in(alloc)
    }
}

impl FuncType {
    /// Copies the function type into memory from `alloc`.
    pub fn clone(&self, alloc: Global) -> Result<Self, Error>
        ensures ok { IfOk result (λ copy. copy ≡ self.now) }
        ensures memory { IfErr result (λ e. e ≡ Error.Memory) }
    {
        self.clone_in(alloc)
    }
}

impl CompositeInnerType {
    /// Copies the composite type into memory from `alloc`.
    pub fn clone(&self, alloc: Global) -> Result<Self, Error>
        ensures ok { IfOk result (λ copy. copy ≡ self.now) }
        ensures memory { IfErr result (λ e. e ≡ Error.Memory) }
    {
        self.clone_in(alloc)
    }
}

impl CompositeType {
    /// Copies the composite type into memory from `alloc`.
    pub fn clone(&self, alloc: Global) -> Result<Self, Error>
        ensures ok { IfOk result (λ copy. copy ≡ self.now) }
        ensures memory { IfErr result (λ e. e ≡ Error.Memory) }
    {
        self.clone_in(alloc)
    }
}

impl SubType {
    /// Copies the subtype into memory from `alloc`.
    pub fn clone(&self, alloc: Global) -> Result<Self, Error>
        ensures ok { IfOk result (λ copy. copy ≡ self.now) }
        ensures memory { IfErr result (λ e. e ≡ Error.Memory) }
    {
        self.clone_in(alloc)
    }
}

impl Import {
    /// Copies the import into memory from `alloc`.
    pub fn clone(&self, alloc: Global) -> Result<Self, Error>
        ensures ok { IfOk result (λ copy. copy ≡ self.now) }
        ensures memory { IfErr result (λ e. e ≡ Error.Memory) }
    {
        self.clone_in(alloc)
    }
}

impl ImportItem {
    /// Copies the import into memory from `alloc`.
    pub fn clone(&self, alloc: Global) -> Result<Self, Error>
        ensures ok { IfOk result (λ copy. copy ≡ self.now) }
        ensures memory { IfErr result (λ e. e ≡ Error.Memory) }
    {
        self.clone_in(alloc)
    }
}

impl Imports {
    /// Copies the group of imports into memory from `alloc`.
    pub fn clone(&self, alloc: Global) -> Result<Self, Error>
        ensures ok { IfOk result (λ copy. copy ≡ self.now) }
        ensures memory { IfErr result (λ e. e ≡ Error.Memory) }
    {
        self.clone_in(alloc)
    }
}
