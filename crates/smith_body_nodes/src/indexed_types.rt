ghost use Rattle.std.specs.Prelude.{◌≡◌, ◌<◌, length, slice_get, None, Some, MatchOption};
ghost use Rattle.smith_instr.specs.Contexts.{IsValid, created_reference};
ghost use Rattle.smith_body_nodes.specs.IndexedTypes.{element_in, element_of, is_creatable};
ghost use Rattle.smith_body_nodes.specs.IndexedTypes.{is_created_below, names_types, struct_in};
ghost use Rattle.smith_body_nodes.specs.IndexedTypes.{struct_of};
ghost use Rattle.smith_body_nodes.specs.Scopes.{bare, indexed};

use crate::locals::is_sub_type;
use crate::offer::Offer;
use crate::scope::{Scope, indexed_count};
use smith_types::{
    CompositeInnerType, FieldType, HeapType, RefType, StructType, SubType, ValType, WasmFeatures,
    are_defaultable,
};

/// Struct types that may be created and whose created values match a wanted type. If `defaults` is
/// set, their fields get default values.
#[derive(Clone, Copy)]
pub struct CreatedStructOffer<'a> {
    /// What the body may refer to.
    pub scope: &'a Scope<'a>,
    /// The type that created values match.
    pub wanted: ValType,
    /// Whether fields get default values.
    pub defaults: bool,
}

impl<'a> Offer for CreatedStructOffer<'a> {
    ghost use Rattle.std.specs.Prelude.{length};
    ghost use Rattle.smith_instr.specs.Contexts.{IsValid};
    ghost use Rattle.smith_body_nodes.specs.IndexedTypes.{is_created_struct};
    ghost use Rattle.smith_body_nodes.specs.Scopes.{IsScope, bare, indexed};

    ghost ready = { λ self.
        IsScope (bare self.scope.now) × IsValid (bare self.scope.now) self.wanted };

    ghost size = { λ self. indexed (length self.scope.now.types.now.types) };

    ghost test = { λ self index.
        is_created_struct (bare self.scope.now) self.wanted self.defaults index };

    fn count(&self) -> usize {
        indexed_count(self.scope.types.types().len())
    }

    fn is_offered(&self, index: usize) -> bool {
        if !is_created_below(self.scope, self.wanted, index) {
            return false;
        }
        match struct_type_at(self.scope, index) {
            Some(structure) => is_creatable(self.defaults, structure.fields.as_slice()),
            None => false,
        }
    }
}

/// Returns whether a value may be a reference to a type.
pub fn names_types(scope: &Scope<'_>) -> bool
    ensures { result ≡ names_types (bare scope.now) }
{
    scope.features.contains(WasmFeatures::REFERENCE_TYPES)
        && scope.features.contains(WasmFeatures::GC)
}

/// Returns the struct type at `index` of the types of `scope`, if there is one.
pub fn struct_type_at<'a>(scope: &Scope<'a>, index: usize) -> Option<&'a StructType>
    ensures { MatchOption result (struct_in (slice_get (bare scope.now).types index) ≡ None)
        (λ structure. struct_in (slice_get (bare scope.now).types index) ≡ Some structure.now) }
{
    let types = scope.types;
    match types.types().get(index) {
        Some(ty) => inner_struct(ty),
        None => None,
    }
}

fn inner_struct<'a>(ty: &'a SubType) -> Option<&'a StructType>
    ensures { MatchOption result (struct_of ty.now.composite_type.inner ≡ None) (λ structure.
        struct_of ty.now.composite_type.inner ≡ Some structure.now) }
{
    match &ty.composite_type.inner {
        CompositeInnerType::Struct(structure) => Some(structure),
        _ => None,
    }
}

/// Returns the element of the array type at `index`, if there is one.
pub fn element_at(scope: &Scope<'_>, index: usize) -> Option<FieldType>
    ensures { result ≡ element_in (slice_get (bare scope.now).types index) }
{
    let types = scope.types;
    match types.types().get(index) {
        Some(ty) => inner_element(ty),
        None => None,
    }
}

fn inner_element(ty: &SubType) -> Option<FieldType>
    ensures { result ≡ element_of ty.now.composite_type.inner }
{
    match &ty.composite_type.inner {
        CompositeInnerType::Array(array) => Some(array.0),
        _ => None,
    }
}

/// Returns whether created values of the type at `index` match `wanted`.
pub fn is_created_below(scope: &Scope<'_>, wanted: ValType, index: usize) -> bool
    requires wanted { IsValid (bare scope.now) wanted }
    requires below { index < indexed (length scope.now.types.now.types) }
    ensures { result ≡ is_created_below (bare scope.now) wanted index }
{
    is_sub_type(scope, created_reference(scope, index as u32), wanted)
}

/// Returns the type of references to created values of the type `index`.
pub fn created_reference(scope: &Scope<'_>, index: u32) -> ValType
    ensures { result ≡ created_reference (bare scope.now) index }
{
    let heap_type = if scope.features.contains(WasmFeatures::CUSTOM_DESCRIPTORS) {
        HeapType::Exact(index)
    } else {
        HeapType::Concrete(index)
    };
    ValType::Ref(RefType {
        nullable: false,
        heap_type,
    })
}

/// Returns whether a struct of `fields` may be created: from default values if `defaults` is set,
/// else from at most seven operands.
fn is_creatable(defaults: bool, fields: &[FieldType]) -> bool
    ensures { result ≡ is_creatable defaults fields.now }
{
    if defaults {
        return are_defaultable(fields);
    }
    fields.len() <= 7
}
