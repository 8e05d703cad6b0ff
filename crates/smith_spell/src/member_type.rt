ghost use Rattle.std.specs.Prelude.{◌≡◌, ◌↔◌, IsTrue, All};
ghost use Rattle.std.specs.List.{Contains};
ghost use Rattle.smith_types.specs.Syntax.value_type.ValType.TheVariants.{Ref};
ghost use Rattle.smith_draw_types.specs.Choices.{enabled};
ghost use Rattle.smith_draw_types.specs.ValueTypes.{abstract_heap_types};
ghost use Rattle.smith_draw_types.specs.CompositeTypes.{most_results};
ghost use Rattle.smith_spell.specs.Family.{
  IsMemberHeapType,
  IsMemberNullability,
  IsMemberValType,
  IsMemberStorage,
  IsMemberField,
  IsMemberFunction,
  IsMemberInner,
  IsMemberType,
};
ghost use Rattle.smith_spell.specs.Decided.{IsOffered};

use crate::earlier::Earlier;
use smith_config::Config;
use smith_types::{
    AbstractHeapType, CompositeInnerType, FieldType, FuncType, HeapType, RefType, StorageType,
    SubType, ValType,
};

/// The maximum number of parameters, of results and of fields.
const MOST: usize = 20;

/// Returns whether `ty` may follow `earlier` in lists of the family of `config`.
pub(crate) fn is_member_type(config: &Config, earlier: &Earlier<'_>, ty: &SubType) -> bool
    ensures { IsTrue result ↔ IsMemberType config.now earlier.now ty.now }
{
    !ty.composite_type.shared
        && ty.supertype.is_none()
        && (config.gc_enabled || ty.is_final)
        && is_member_inner(config, earlier, &ty.composite_type.inner)
}

fn is_member_inner(config: &Config, earlier: &Earlier<'_>, inner: &CompositeInnerType) -> bool
    ensures { IsTrue result ↔ IsMemberInner config.now earlier.now inner.now }
{
    match inner {
        CompositeInnerType::Array(array) => {
            config.gc_enabled && is_member_field(config, earlier, array.0)
        }
        CompositeInnerType::Func(function) => is_member_function(config, earlier, function),
        CompositeInnerType::Struct(structure) => {
            config.gc_enabled
                && structure.fields.len() <= MOST
                && are_member_fields(config, earlier, structure.fields.as_slice())
        }
    }
}

fn is_member_function(config: &Config, earlier: &Earlier<'_>, function: &FuncType) -> bool
    ensures { IsTrue result ↔ IsMemberFunction config.now earlier.now function.now }
{
    function.params.len() <= MOST
        && function.results.len() <= most_results(config)
        && are_member_values(config, earlier, function.params.as_slice())
        && are_member_values(config, earlier, function.results.as_slice())
}

fn most_results(config: &Config) -> usize
    ensures { result ≡ most_results config.now }
{
    if config.multi_value_enabled { MOST } else { 1 }
}

fn are_member_values(config: &Config, earlier: &Earlier<'_>, values: &[ValType]) -> bool
    ensures { IsTrue result ↔ All (IsMemberValType config.now earlier.now) values.now }
{
    values
        .iter()
        .all(|value| is_member_value(config, earlier, *value))
}

fn are_member_fields(config: &Config, earlier: &Earlier<'_>, fields: &[FieldType]) -> bool
    ensures { IsTrue result ↔ All (IsMemberField config.now earlier.now) fields.now }
{
    fields
        .iter()
        .all(|field| is_member_field(config, earlier, *field))
}

fn is_member_field(config: &Config, earlier: &Earlier<'_>, field: FieldType) -> bool
    ensures { IsTrue result ↔ IsMemberField config.now earlier.now field }
{
    is_member_storage(config, earlier, field.element_type)
}

fn is_member_storage(config: &Config, earlier: &Earlier<'_>, storage: StorageType) -> bool
    ensures { IsTrue result ↔ IsMemberStorage config.now earlier.now storage }
{
    match storage {
        StorageType::Val(value) => is_member_value(config, earlier, value),
        _ => true,
    }
}

fn is_member_value(config: &Config, earlier: &Earlier<'_>, value: ValType) -> bool
    ensures { IsTrue result ↔ IsMemberValType config.now earlier.now value }
{
    match value {
        ValType::I32 | ValType::I64 => true,
        ValType::F32 | ValType::F64 => config.allow_floats,
        ValType::V128 => config.simd_enabled,
        ValType::Ref(reference) => is_member_reference(config, earlier, reference),
    }
}

fn is_member_reference(config: &Config, earlier: &Earlier<'_>, reference: RefType) -> bool
    ensures { IsTrue result ↔ IsMemberValType config.now earlier.now (Ref reference) }
{
    config.reference_types_enabled
        && is_member_heap_type(config, earlier, reference.heap_type)
        && is_member_nullability(config, earlier, reference)
}

// Returns whether `reference` is nullable, or `config` and `earlier` allow a non-nullable one.
fn is_member_nullability(config: &Config, earlier: &Earlier<'_>, reference: RefType) -> bool
    requires { IsMemberHeapType config.now earlier.now reference.heap_type }
    ensures { IsTrue result ↔ IsMemberNullability config.now earlier.now reference }
{
    if reference.nullable {
        return true;
    }
    config.non_nullable_enabled && earlier.is_grounded(config, reference.heap_type)
}

fn is_member_heap_type(config: &Config, earlier: &Earlier<'_>, heap_type: HeapType) -> bool
    ensures { IsTrue result ↔ IsMemberHeapType config.now earlier.now heap_type }
{
    match heap_type {
        HeapType::Abstract { shared, ty } => !shared && is_listed(config, ty),
        HeapType::Concrete(index) => config.gc_enabled && (index as usize) < earlier.count(),
        HeapType::Exact(_) => false,
    }
}

// Returns whether the abstract heap type `ty` is one of those that are drawn.
fn is_listed(config: &Config, ty: AbstractHeapType) -> bool
    ensures { IsTrue result ↔ Contains (enabled (abstract_heap_types config.now)) ty }
{
    is_offered(config, ty)
}

fn is_offered(config: &Config, ty: AbstractHeapType) -> bool
    ensures { IsTrue result ↔ IsOffered config.now ty }
{
    match ty {
        AbstractHeapType::Func | AbstractHeapType::Extern => true,
        AbstractHeapType::Exn => config.exceptions_enabled,
        AbstractHeapType::NoExn => false,
        _ => config.gc_enabled,
    }
}
