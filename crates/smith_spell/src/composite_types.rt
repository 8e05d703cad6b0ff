ghost use Rattle.std.specs.Prelude.{◌≡◌, ◌≤◌, IsTrue, false, OnOk, IfErr, length, All};
ghost use Rattle.smith_bytes.specs.declared.error.Error.TheVariants.{Memory};
ghost use Rattle.smith_bytes.specs.Spelling.{Each, Listed};
ghost use Rattle.smith_draw_types.specs.CompositeTypes.{most_results};
ghost use Rattle.smith_draw_types.specs.Spelling.{
  SpellsStorage,
  SpellsField,
  SpellsFuncType,
  SpellsStructType,
  SpellsInner,
  SpellsPlainFunction,
};
ghost use Rattle.smith_spell.specs.Family.{IsMemberStorage, IsMemberField, IsMemberFunction};
ghost use Rattle.smith_spell.specs.Family.{IsMemberInner};
ghost use Rattle.smith_spell.specs.Written.{Writes, OverSome};

use crate::pieces::{write_bool, write_number};
use crate::value_types::{write_val_type, write_val_types};
use smith_bytes::Error;
use smith_config::Config;
use smith_types::{CompositeInnerType, FieldType, FuncType, Items, StorageType, StructType};

/// Writes `storage`, the storage type of a field.
fn write_storage(
    config: &Config,
    limit: usize,
    storage: StorageType,
    bytes: &mut Items<u8>,
) -> Result<(), Error>
    requires { OverSome limit (λ types. IsMemberStorage config.now types storage) }
    ensures writes { OnOk result
        (Writes (SpellsStorage config.now limit storage) bytes.old bytes.new) }
    ensures memory { IfErr result (λ e. e ≡ Memory) }
{
    match storage {
        StorageType::I8 => write_number(0, 2, bytes),
        StorageType::I16 => write_number(1, 2, bytes),
        StorageType::Val(value) => {
            write_number(2, 2, bytes)?;
            write_val_type(config, limit, value, bytes)
        }
    }
}

/// Writes `field`: its storage type, then whether it is mutable.
fn write_field(
    config: &Config,
    limit: usize,
    field: FieldType,
    bytes: &mut Items<u8>,
) -> Result<(), Error>
    requires { OverSome limit (λ types. IsMemberField config.now types field) }
    ensures writes { OnOk result (Writes (SpellsField config.now limit field) bytes.old bytes.new) }
    ensures memory { IfErr result (λ e. e ≡ Memory) }
{
    write_storage(config, limit, field.element_type, bytes)?;
    write_bool(field.mutable, bytes)
}

/// Writes `fields` one after another.
fn write_fields(
    config: &Config,
    limit: usize,
    fields: &[FieldType],
    bytes: &mut Items<u8>,
) -> Result<(), Error>
    requires { OverSome limit (λ types. All (IsMemberField config.now types) fields.now) }
    ensures writes { OnOk result
        (Writes (Each (SpellsField config.now limit) fields.now) bytes.old bytes.new) }
    ensures memory { IfErr result (λ e. e ≡ Memory) }
{
    for field in fields {
        write_field(config, limit, *field, bytes)?;
    }
    Ok(())
}

/// Writes the number of fields of `structure`, then the fields.
fn write_struct_type(
    config: &Config,
    limit: usize,
    structure: &StructType,
    bytes: &mut Items<u8>,
) -> Result<(), Error>
    requires few { length structure.now.fields ≤ 20 }
    requires members { OverSome limit (λ types.
        All (IsMemberField config.now types) structure.now.fields) }
    ensures writes { OnOk result
        (Writes (SpellsStructType config.now limit structure.now) bytes.old bytes.new) }
    ensures memory { IfErr result (λ e. e ≡ Memory) }
{
    write_number(structure.fields.len(), 20, bytes)?;
    write_fields(config, limit, structure.fields.as_slice(), bytes)
}

/// Returns the maximum number of results of a function type.
fn most_results(config: &Config) -> usize
    ensures { result ≡ most_results config.now }
{
    if config.multi_value_enabled { 20 } else { 1 }
}

/// Writes the parameters of `function`, then the results.
fn write_func_type(
    config: &Config,
    limit: usize,
    function: &FuncType,
    bytes: &mut Items<u8>,
) -> Result<(), Error>
    requires { OverSome limit (λ types. IsMemberFunction config.now types function.now) }
    ensures writes { OnOk result
        (Writes (SpellsFuncType config.now limit function.now) bytes.old bytes.new) }
    ensures memory { IfErr result (λ e. e ≡ Memory) }
{
    write_val_types(config, limit, 20, function.params.as_slice(), bytes)?;
    let most = most_results(config);
    write_val_types(config, limit, most, function.results.as_slice(), bytes)
}

/// Writes the kind of `inner`, then its parts.
pub(crate) fn write_inner(
    config: &Config,
    limit: usize,
    inner: &CompositeInnerType,
    bytes: &mut Items<u8>,
) -> Result<(), Error>
    requires { OverSome limit (λ types. IsMemberInner config.now types inner.now) }
    ensures writes { OnOk result
        (Writes (SpellsInner config.now limit inner.now) bytes.old bytes.new) }
    ensures memory { IfErr result (λ e. e ≡ Memory) }
{
    match inner {
        CompositeInnerType::Array(array) => {
            write_number(0, 2, bytes)?;
            write_field(config, limit, array.0, bytes)
        }
        CompositeInnerType::Func(function) => {
            write_number(1, 2, bytes)?;
            write_func_type(config, limit, function, bytes)
        }
        CompositeInnerType::Struct(structure) => {
            write_number(2, 2, bytes)?;
            write_struct_type(config, limit, structure, bytes)
        }
    }
}

/// Writes `inner`, a function type, without a kind. Requires garbage collection to be off.
pub(crate) fn write_plain_function(
    config: &Config,
    limit: usize,
    inner: &CompositeInnerType,
    bytes: &mut Items<u8>,
) -> Result<(), Error>
    requires plain { config.now.gc_enabled ≡ false }
    requires member { OverSome limit (λ types. IsMemberInner config.now types inner.now) }
    ensures writes { OnOk result
        (Writes (SpellsPlainFunction config.now limit inner.now) bytes.old bytes.new) }
    ensures memory { IfErr result (λ e. e ≡ Memory) }
{
    match inner {
        CompositeInnerType::Func(function) => write_func_type(config, limit, function, bytes),
        _ => Ok(()),
    }
}
