ghost use Rattle.std.specs.Prelude.{◌≡◌, ◌<◌, ◌&&◌, true, length, Some, IfSome};
ghost use Rattle.smith_bytes.specs.Source.{KeepsPieces};
ghost use Rattle.smith_types.specs.Expressions.{IsArrayAt};
ghost use Rattle.smith_instr.specs.AggregateTypes.{IsFieldAt, value_of};
ghost use Rattle.smith_instr.specs.Contexts.{IsValid};
ghost use Rattle.smith_body_aggregates.specs.Aggregates.{array_at, created_array_at};
ghost use Rattle.smith_body_aggregates.specs.Aggregates.{created_struct_at, field_at, is_array};
ghost use Rattle.smith_body_nodes.specs.IndexedTypes.{AreFieldsValid, is_created_below};
ghost use Rattle.smith_body_nodes.specs.IndexedTypes.{is_created_struct};
ghost use Rattle.smith_body_aggregates.specs.Fields.{IsUse, is_usable};
ghost use Rattle.smith_body_nodes.specs.Scopes.{IsScope, bare, indexed};

use crate::fields::{FieldUse, is_usable};
use smith_body_nodes::{
    CreatedStructOffer, Offer, Scope, choose_in_chunk, choose_offered, count_offered, element_at,
    indexed_count, is_created_below, struct_type_at,
};
use smith_bytes::Unstructured;
use smith_types::{FieldType, ValType};

/// A field of a struct type.
#[derive(Clone, Copy)]
pub(crate) struct StructField {
    /// The index of the struct type.
    pub ty: u32,
    /// The index of the field.
    pub index: u32,
    /// The type of the field.
    pub field: FieldType,
}

/// Array types whose elements have a use.
#[derive(Clone, Copy)]
struct ArrayOffer<'a> {
    scope: &'a Scope<'a>,
    of: FieldUse,
}

impl<'a> Offer for ArrayOffer<'a> {
    ghost use Rattle.std.specs.Prelude.{length};
    ghost use Rattle.smith_body_aggregates.specs.Aggregates.{is_array};
    ghost use Rattle.smith_body_aggregates.specs.Fields.{IsUse};
    ghost use Rattle.smith_body_nodes.specs.Scopes.{IsScope, bare, indexed};

    ghost ready = { λ self. IsScope (bare self.scope.now) × IsUse (bare self.scope.now) self.of };

    ghost size = { λ self. indexed (length self.scope.now.types.now.types) };

    ghost test = { λ self index. is_array (bare self.scope.now) self.of index };

    fn count(&self) -> usize {
        indexed_count(self.scope.types.types().len())
    }

    fn is_offered(&self, index: usize) -> bool {
        is_array(self.scope, self.of, index)
    }
}

/// Array types whose elements have a use and whose created values match a wanted type.
#[derive(Clone, Copy)]
struct CreatedArrayOffer<'a> {
    scope: &'a Scope<'a>,
    wanted: ValType,
    of: FieldUse,
}

impl<'a> Offer for CreatedArrayOffer<'a> {
    ghost use Rattle.std.specs.Prelude.{length};
    ghost use Rattle.smith_instr.specs.Contexts.{IsValid};
    ghost use Rattle.smith_body_aggregates.specs.Aggregates.{is_created_array};
    ghost use Rattle.smith_body_aggregates.specs.Fields.{IsUse};
    ghost use Rattle.smith_body_nodes.specs.Scopes.{IsScope, bare, indexed};

    ghost ready = { λ self. IsScope (bare self.scope.now)
        × IsValid (bare self.scope.now) self.wanted × IsUse (bare self.scope.now) self.of };

    ghost size = { λ self. indexed (length self.scope.now.types.now.types) };

    ghost test = { λ self index. is_created_array (bare self.scope.now) self.wanted self.of index };

    fn count(&self) -> usize {
        indexed_count(self.scope.types.types().len())
    }

    fn is_offered(&self, index: usize) -> bool {
        is_created_below(self.scope, self.wanted, index) && is_array(self.scope, self.of, index)
    }
}

/// Fields that have a use.
#[derive(Clone, Copy)]
struct FieldOffer<'a> {
    scope: &'a Scope<'a>,
    of: FieldUse,
    fields: &'a [FieldType],
}

impl<'a> Offer for FieldOffer<'a> {
    ghost use Rattle.std.specs.Prelude.{length};
    ghost use Rattle.smith_body_aggregates.specs.Aggregates.{is_field};
    ghost use Rattle.smith_body_nodes.specs.IndexedTypes.{AreFieldsValid};
    ghost use Rattle.smith_body_aggregates.specs.Fields.{IsUse};
    ghost use Rattle.smith_body_nodes.specs.Scopes.{bare, indexed};

    ghost ready = { λ self. IsUse (bare self.scope.now) self.of
        × AreFieldsValid (bare self.scope.now) self.fields.now };

    ghost size = { λ self. indexed (length self.fields.now) };

    ghost test = { λ self index.
        is_field (bare self.scope.now).types self.of self.fields.now index };

    fn count(&self) -> usize {
        indexed_count(self.fields.len())
    }

    fn is_offered(&self, index: usize) -> bool {
        is_usable(self.scope, self.of, self.fields[index])
    }
}

/// Struct types that have a field with a use.
#[derive(Clone, Copy)]
struct StructOffer<'a> {
    scope: &'a Scope<'a>,
    of: FieldUse,
}

impl<'a> Offer for StructOffer<'a> {
    ghost use Rattle.std.specs.Prelude.{length};
    ghost use Rattle.smith_body_aggregates.specs.Aggregates.{is_struct};
    ghost use Rattle.smith_body_aggregates.specs.Fields.{IsUse};
    ghost use Rattle.smith_body_nodes.specs.Scopes.{IsScope, bare, indexed};

    ghost ready = { λ self. IsScope (bare self.scope.now) × IsUse (bare self.scope.now) self.of };

    ghost size = { λ self. indexed (length self.scope.now.types.now.types) };

    ghost test = { λ self index. is_struct (bare self.scope.now) self.of index };

    fn count(&self) -> usize {
        indexed_count(self.scope.types.types().len())
    }

    fn is_offered(&self, index: usize) -> bool {
        match struct_type_at(self.scope, index) {
            Some(structure) => {
                let fields = structure.fields.as_slice();
                let offer = FieldOffer {
                    scope: self.scope,
                    of: self.of,
                    fields,
                };
                count_offered(&offer) > 0
            }
            None => false,
        }
    }
}

/// Returns whether the type at `index` is an array type whose element may be used for `of`.
fn is_array(scope: &Scope<'_>, of: FieldUse, index: usize) -> bool
    requires scope { IsScope (bare scope.now) }
    requires of { IsUse (bare scope.now) of }
    ensures { result ≡ is_array (bare scope.now) of index }
{
    match element_at(scope, index) {
        Some(element) => is_usable(scope, of, element),
        None => false,
    }
}

/// Chooses an array type whose element may be used for `of`.
pub(crate) fn choose_array(
    scope: &Scope<'_>,
    of: FieldUse,
    u: &mut Unstructured<'_>,
) -> Option<(u32, FieldType)>
    requires scope { IsScope (bare scope.now) }
    requires of { IsUse (bare scope.now) of }
    ensures exact { array_at (bare scope.now) of u.old ≡ (result, u.new) }
    ensures there { IfSome result (λ array. IsArrayAt (bare scope.now).types array.0 array.1) }
    ensures valid { IfSome result (λ array. IsValid (bare scope.now) (value_of array.1)) }
    ensures usable { IfSome result (λ array. is_usable (bare scope.now).types of array.1 ≡ true) }
    ensures left { KeepsPieces u.old u.new }
{
    let index = choose_in_chunk(&ArrayOffer { scope, of }, u)?;
    let element = element_at(scope, index)?;
    Some((index as u32, element))
}

/// Chooses an array type whose element may be used for `of` and whose created values match
/// `wanted`.
pub(crate) fn choose_created_array(
    scope: &Scope<'_>,
    wanted: ValType,
    of: FieldUse,
    u: &mut Unstructured<'_>,
) -> Option<(u32, FieldType)>
    requires scope { IsScope (bare scope.now) }
    requires wanted { IsValid (bare scope.now) wanted }
    requires of { IsUse (bare scope.now) of }
    ensures exact { created_array_at (bare scope.now) wanted of u.old ≡ (result, u.new) }
    ensures there { IfSome result (λ array. IsArrayAt (bare scope.now).types array.0 array.1) }
    ensures valid { IfSome result (λ array. IsValid (bare scope.now) (value_of array.1)) }
    ensures usable { IfSome result (λ array. is_usable (bare scope.now).types of array.1 ≡ true) }
    ensures created { IfSome result (λ array.
        is_created_below (bare scope.now) wanted array.0 ≡ true) }
    ensures left { KeepsPieces u.old u.new }
{
    let index = choose_in_chunk(&CreatedArrayOffer { scope, wanted, of }, u)?;
    let element = element_at(scope, index)?;
    Some((index as u32, element))
}

/// Chooses a struct type that may be created and whose created values match `wanted`. If `defaults`
/// is set, its fields get default values.
pub(crate) fn choose_created_struct(
    scope: &Scope<'_>,
    wanted: ValType,
    defaults: bool,
    u: &mut Unstructured<'_>,
) -> Option<u32>
    requires scope { IsScope (bare scope.now) }
    requires wanted { IsValid (bare scope.now) wanted }
    ensures exact { created_struct_at (bare scope.now) wanted defaults u.old ≡ (result, u.new) }
    ensures offered { IfSome result (λ index.
        is_created_struct (bare scope.now) wanted defaults index ≡ true) }
    ensures left { KeepsPieces u.old u.new }
{
    let offer = CreatedStructOffer {
        scope,
        wanted,
        defaults,
    };
    let index = choose_in_chunk(&offer, u)?;
    Some(index as u32)
}

/// Chooses a field of a struct type that may be used for `of`.
pub(crate) fn choose_field(
    scope: &Scope<'_>,
    of: FieldUse,
    u: &mut Unstructured<'_>,
) -> Option<StructField>
    requires scope { IsScope (bare scope.now) }
    requires of { IsUse (bare scope.now) of }
    ensures exact { field_at (bare scope.now) of u.old ≡ (result, u.new) }
    ensures there { IfSome result (λ chosen.
        IsFieldAt (bare scope.now) chosen.ty chosen.index chosen.field) }
    ensures valid { IfSome result (λ chosen. IsValid (bare scope.now) (value_of chosen.field)) }
    ensures usable { IfSome result (λ chosen.
        is_usable (bare scope.now).types of chosen.field ≡ true) }
    ensures left { KeepsPieces u.old u.new }
{
    let ty = choose_in_chunk(&StructOffer { scope: &*scope, of }, u)?;
    let structure = struct_type_at(scope, ty)?;
    let fields = structure.fields.as_slice();
    let index = choose_offered(
        &FieldOffer {
            scope: &*scope,
            of,
            fields,
        },
        u,
    )?;
    Some(StructField {
        ty: ty as u32,
        index: index as u32,
        field: fields[index],
    })
}
