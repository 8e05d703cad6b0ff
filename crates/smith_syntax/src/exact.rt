ghost use Rattle.std.specs.Prelude.{◌≡◌, IsTrue, ◌↔◌};
ghost use Rattle.std.specs.Bool.{Decides};
ghost use Rattle.smith_syntax.specs.Same.{
  exact_items,
  exact_abstract,
  exact_heap,
  exact_ref,
  exact_val,
  exact_storage,
  exact_field,
  exact_array,
  exact_struct,
  exact_func,
  exact_inner,
  exact_composite,
  exact_sub,
  exact_table,
  exact_memory,
  exact_global,
  exact_entity,
  exact_kind,
  exact_export,
  exact_import,
  exact_item,
  exact_imports,
  exact_instr,
};

use crate::composite_type::{
    ArrayType, CompositeInnerType, CompositeType, FieldType, FuncType, StorageType, StructType,
    SubType,
};
use crate::const_instr::ConstInstr;
use crate::entity_type::{EntityType, ExportKind, GlobalType, MemoryType, TableType};
use crate::imports::{Import, ImportItem, Imports};
use crate::list::{Items, Name};
use crate::value_type::{AbstractHeapType, HeapType, RefType, ValType};

/// A type whose `==` returns `true` exactly for equal contents.
pub trait Exact: PartialEq {
    /// The proof that `==` decides equality.
    ghost exact: { (a b : Self) → Decides (Self.eq a b) (a ≡ b) };
}

impl Exact for AbstractHeapType {
    ghost exact = { exact_abstract };
}

impl Exact for HeapType {
    ghost exact = { exact_heap };
}

impl Exact for RefType {
    ghost exact = { exact_ref };
}

impl Exact for ValType {
    ghost exact = { exact_val };
}

impl Exact for StorageType {
    ghost exact = { exact_storage };
}

impl Exact for FieldType {
    ghost exact = { exact_field };
}

impl Exact for ArrayType {
    ghost exact = { exact_array };
}

impl Exact for StructType {
    ghost exact = { exact_struct };
}

impl Exact for FuncType {
    ghost exact = { exact_func };
}

impl Exact for CompositeInnerType {
    ghost exact = { exact_inner };
}

impl Exact for CompositeType {
    ghost exact = { exact_composite };
}

impl Exact for SubType {
    ghost exact = { exact_sub };
}

impl Exact for TableType {
    ghost exact = { exact_table };
}

impl Exact for MemoryType {
    ghost exact = { exact_memory };
}

impl Exact for GlobalType {
    ghost exact = { exact_global };
}

impl Exact for EntityType {
    ghost exact = { exact_entity };
}

impl Exact for ExportKind {
    ghost exact = { exact_kind };
}

impl Exact for Import {
    ghost exact = { exact_import };
}

impl Exact for ImportItem {
    ghost exact = { exact_item };
}

impl Exact for Imports {
    ghost exact = { exact_imports };
}

impl Exact for ConstInstr {
    ghost exact = { exact_instr };
}

impl Exact for Name {
    ghost use Rattle.std.proofs.lemmas.Slice.Eq.{bytes_eq-Decides};

    ghost exact = { bytes_eq-Decides };
}

impl<T: Exact> Exact for Items<T> {
    ghost exact = { exact_items T.exact };
}

impl Exact for u32 {
    ghost use Rattle.std.specs.Cmp.{unsigned_Decides};

    ghost exact = { unsigned_Decides };
}

impl Exact for (Name, ExportKind, u32) {
    ghost exact = { exact_export };
}

/// Returns whether `a` and `b` have equal contents.
pub fn is_same<T: Exact>(a: &T, b: &T) -> bool
    ensures { IsTrue result ↔ (a.now ≡ b.now) }
{
    a == b
}
