ghost use Rattle.std.specs.Prelude.{◌≡◌, ◌<◌, ◌≤◌, ◌&&◌, nat_lt, true, false, List, IsTrue, Some};
ghost use Rattle.std.specs.Prelude.{OnOk, IfErr, length, slice_get, All};
ghost use Rattle.std.specs.List.{Contains};
ghost use Rattle.smith_bytes.specs.declared.error.Error.TheVariants.{Memory};
ghost use Rattle.smith_bytes.specs.Spelling.{Where, Listed, SpellsBool};
ghost use Rattle.smith_types.specs.Syntax.value_type.ValType.TheVariants.{Ref};
ghost use Rattle.smith_types.specs.Syntax.composite_type.SubType.{SubType as Sub};
ghost use Rattle.smith_draw_types.specs.Choices.{enabled};
ghost use Rattle.smith_draw_types.specs.ValueTypes.{value_classes, abstract_heap_types};
ghost use Rattle.smith_draw_types.specs.Spelling.{
  class_of,
  SpellsUnshared,
  SpellsConcrete,
  SpellsHeapType,
  SpellsNullable,
  SpellsRefType,
  SpellsPlace,
  SpellsValType,
};
ghost use Rattle.smith_spell.specs.Family.{IsMemberHeapType, IsMemberValType};
ghost use Rattle.smith_spell.specs.Written.{Writes, OverSome};

use crate::pieces::{write_bool, write_end, write_number, write_refusal};
use smith_bytes::Error;
use smith_config::Config;
use smith_types::{AbstractHeapType, HeapType, Items, RefType, ValType};

/// Returns the number of classes of value types that `config` enables.
fn count_classes(config: &Config) -> usize
    ensures { result ≡ length (enabled (value_classes config.now)) }
{
    let floats = if config.allow_floats { 2 } else { 0 };
    2 + floats + usize::from(config.simd_enabled) + usize::from(config.reference_types_enabled)
}

/// Returns the position of the class of `value` among the classes that `config` enables.
fn class_place(config: &Config, value: ValType) -> usize
    ensures { (types : List Sub) → IsMemberValType config.now types value
        → slice_get (enabled (value_classes config.now)) result ≡ Some (class_of value) }
{
    match value {
        ValType::I32 => 0,
        ValType::I64 => 1,
        ValType::F32 => 2,
        ValType::F64 => 3,
        ValType::V128 => { if config.allow_floats { 4 } else { 2 } }
        ValType::Ref(_) => count_classes(config) - 1,
    }
}

/// Returns the number of abstract heap types that may be drawn for `config`.
fn count_abstract(config: &Config) -> usize
    ensures { result ≡ length (enabled (abstract_heap_types config.now)) }
{
    let collected = if config.gc_enabled { 8 } else { 0 };
    2 + usize::from(config.exceptions_enabled) + collected
}

/// Returns the place of `ty` among the abstract heap types that may be drawn for `config`.
fn abstract_place(config: &Config, ty: AbstractHeapType) -> usize
    ensures { Contains (enabled (abstract_heap_types config.now)) ty
        → slice_get (enabled (abstract_heap_types config.now)) result ≡ Some ty }
{
    let exceptions = usize::from(config.exceptions_enabled);
    match ty {
        AbstractHeapType::Func => 0,
        AbstractHeapType::Extern => 1,
        AbstractHeapType::Exn => 2,
        AbstractHeapType::Any => 2 + exceptions,
        AbstractHeapType::None => 3 + exceptions,
        AbstractHeapType::NoExtern => 4 + exceptions,
        AbstractHeapType::NoFunc => 5 + exceptions,
        AbstractHeapType::Eq => 6 + exceptions,
        AbstractHeapType::Struct => 7 + exceptions,
        AbstractHeapType::Array => 8 + exceptions,
        AbstractHeapType::I31 => 9 + exceptions,
        AbstractHeapType::NoExn => 0,
    }
}

/// Writes that a type is not shared, if it could be.
pub(crate) fn write_unshared(config: &Config, bytes: &mut Items<u8>) -> Result<(), Error>
    ensures writes { OnOk result (Writes (SpellsUnshared config.now) bytes.old bytes.new) }
    ensures memory { IfErr result (λ e. e ≡ Memory) }
{
    write_refusal(config.shared_everything_threads_enabled, 4, bytes)
}

/// Writes `concrete`, whether a heap type is concrete, if it could be: with garbage collection, and
/// a type below `limit`.
fn write_concrete(
    config: &Config,
    limit: usize,
    concrete: bool,
    bytes: &mut Items<u8>,
) -> Result<(), Error>
    ensures writes { OnOk result
        (Writes (SpellsConcrete config.now limit concrete) bytes.old bytes.new) }
    ensures memory { IfErr result (λ e. e ≡ Memory) }
{
    if config.gc_enabled && 0 < limit {
        return write_bool(concrete, bytes);
    }
    Ok(())
}

/// Writes the place of the abstract heap type `ty`.
fn write_abstract(config: &Config, ty: AbstractHeapType, bytes: &mut Items<u8>) -> Result<(), Error>
    requires { Contains (enabled (abstract_heap_types config.now)) ty }
    ensures writes { OnOk result
        (Writes (SpellsPlace (enabled (abstract_heap_types config.now)) ty) bytes.old bytes.new) }
    ensures memory { IfErr result (λ e. e ≡ Memory) }
{
    write_number(
        abstract_place(config, ty),
        count_abstract(config) - 1,
        bytes,
    )
}

/// Writes `ty`, a heap type that a type of the family may refer to.
fn write_heap_type(
    config: &Config,
    limit: usize,
    ty: HeapType,
    bytes: &mut Items<u8>,
) -> Result<(), Error>
    requires { OverSome limit (λ types. IsMemberHeapType config.now types ty) }
    ensures writes { OnOk result (Writes (SpellsHeapType config.now limit ty) bytes.old bytes.new) }
    ensures memory { IfErr result (λ e. e ≡ Memory) }
{
    match ty {
        HeapType::Abstract { shared: _, ty } => {
            write_concrete(config, limit, false, bytes)?;
            write_unshared(config, bytes)?;
            write_abstract(config, ty, bytes)
        }
        HeapType::Concrete(index) => {
            write_concrete(config, limit, true, bytes)?;
            write_number(index as usize, limit - 1, bytes)
        }
        HeapType::Exact(_) => Ok(()),
    }
}

/// Writes whether a reference is non-nullable, the opposite of `nullable`, if `config` enables such
/// references.
fn write_nullable(config: &Config, nullable: bool, bytes: &mut Items<u8>) -> Result<(), Error>
    requires { config.now.non_nullable_enabled ≡ false → IsTrue nullable }
    ensures writes { OnOk result
        (Writes (SpellsNullable config.now.non_nullable_enabled nullable) bytes.old bytes.new) }
    ensures memory { IfErr result (λ e. e ≡ Memory) }
{
    if config.non_nullable_enabled {
        return write_bool(!nullable, bytes);
    }
    Ok(())
}

/// Writes `reference`, a reference type that a type of the family may have.
fn write_ref_type(
    config: &Config,
    limit: usize,
    reference: RefType,
    bytes: &mut Items<u8>,
) -> Result<(), Error>
    requires { OverSome limit (λ types. IsMemberValType config.now types (Ref reference)) }
    ensures writes { OnOk result
        (Writes (SpellsRefType config.now limit reference) bytes.old bytes.new) }
    ensures memory { IfErr result (λ e. e ≡ Memory) }
{
    write_heap_type(config, limit, reference.heap_type, bytes)?;
    write_nullable(config, reference.nullable, bytes)?;
    Ok(())
}

/// Writes the place of the class of `value`.
fn write_class(
    config: &Config,
    limit: usize,
    value: ValType,
    bytes: &mut Items<u8>,
) -> Result<(), Error>
    requires { OverSome limit (λ types. IsMemberValType config.now types value) }
    ensures writes { OnOk result (Writes
        (SpellsPlace (enabled (value_classes config.now)) (class_of value)) bytes.old bytes.new) }
    ensures memory { IfErr result (λ e. e ≡ Memory) }
{
    write_number(class_place(config, value), count_classes(config) - 1, bytes)
}

/// Writes `value`, a value type that a type of the family may have.
pub(crate) fn write_val_type(
    config: &Config,
    limit: usize,
    value: ValType,
    bytes: &mut Items<u8>,
) -> Result<(), Error>
    requires { OverSome limit (λ types. IsMemberValType config.now types value) }
    ensures writes { OnOk result
        (Writes (SpellsValType config.now limit value) bytes.old bytes.new) }
    ensures memory { IfErr result (λ e. e ≡ Memory) }
{
    write_class(config, limit, value, bytes)?;
    match value {
        ValType::Ref(reference) => write_ref_type(config, limit, reference, bytes),
        _ => Ok(()),
    }
}

/// Writes `values`, a list of at most `most` value types.
pub(crate) fn write_val_types(
    config: &Config,
    limit: usize,
    most: usize,
    values: &[ValType],
    bytes: &mut Items<u8>,
) -> Result<(), Error>
    requires members { OverSome limit (λ types. All (IsMemberValType config.now types) values.now) }
    requires few { length values.now ≤ most }
    ensures writes { OnOk result
        (Writes (Listed (SpellsValType config.now limit) most values.now) bytes.old bytes.new) }
    ensures memory { IfErr result (λ e. e ≡ Memory) }
{
    for value in values {
        write_bool(true, bytes)?;
        write_val_type(config, limit, *value, bytes)?;
    }
    let room = most - values.len();
    write_end(0 < room, bytes)
}
