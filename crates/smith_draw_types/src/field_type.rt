ghost use Rattle.std.specs.Prelude.{◌≡◌, false, IsTrue, IsOk, IfOk, All};
ghost use Rattle.smith_bytes.specs.Takes.{Takes, SpellsSuch};
ghost use Rattle.smith_types.specs.Matching.{IsStorageInRange, IsFieldInRange};
ghost use Rattle.smith_types.specs.ValidTypes.{values_of_storage, IsValTypeValid, IsShareable};
ghost use Rattle.smith_config.specs.Features.{features_of};
ghost use Rattle.smith_config.specs.Sanitized.{IsSanitized};
ghost use Rattle.smith_draw_types.specs.Drawing.{AlwaysDraws, Draws};
ghost use Rattle.smith_config.specs.Granted.{IsGranted};
ghost use Rattle.smith_draw_types.specs.Grounding.{standing_in};
ghost use Rattle.smith_draw_types.specs.FieldTypes.{storage_of_number_at, storage_type_at, field_type_at};
ghost use Rattle.smith_draw_types.specs.Spelling.{RefersTo, SpellsStorage, SpellsField};

use crate::call_grounds::CallGrounds;
use crate::reference_scope::ReferenceScope;
use crate::spaces::{Spaces, orderly};
use crate::value_type::draw_val_type;
use smith_bytes::{Error, Unstructured};
use smith_config::Config;
use smith_types::{FieldType, StorageType};
use std::alloc::Global;

#[tactic(auto, unfolding(crate::specs::FieldTypes::storage_type_at))]
fn draw_storage_type(
    config: &Config,
    standing: &ReferenceScope<'_>,
    must_share: bool,
    limit: u32,
    u: &mut Unstructured<'_>,
) -> StorageType
    ensures { AlwaysDraws (storage_type_at config.now standing.now must_share limit u.old)
        result u.old u.new }
{
    match u.int_in_range(0..=2u8) {
        0 => StorageType::I8,
        1 => StorageType::I16,
        _ => StorageType::Val(draw_val_type(config, standing, must_share, limit, u)),
    }
}

#[tactic(auto, unfolding(crate::specs::FieldTypes::field_type_at))]
pub(crate) fn draw_field_type(
    config: &Config,
    standing: &ReferenceScope<'_>,
    must_share: bool,
    limit: u32,
    u: &mut Unstructured<'_>,
) -> FieldType
    ensures { AlwaysDraws (field_type_at config.now standing.now must_share limit u.old)
        result u.old u.new }
{
    let element_type = draw_storage_type(config, standing, must_share, limit, u);
    let mutable = u.arbitrary();
    FieldType {
        element_type,
        mutable,
    }
}

/// Draws a storage type: a packed type or a value type. See the standard, section Structure,
/// Composite Types.
///
/// The storage type refers only to types of `spaces` below `limit`, and only to shared types if
/// `must_share` is `true`.
///
/// Requires `config` to be sanitised, and to permit shared types if `must_share` is `true`.
///
/// Always returns `Ok`, since it does not allocate. All draws of types return a `Result`.
pub fn arbitrary_storage_type(
    _alloc: Global,
    config: &Config,
    spaces: &Spaces<'_>,
    must_share: bool,
    limit: u32,
    u: &mut Unstructured<'_>,
) -> Result<StorageType, Error>
    requires sanitized { IsSanitized config.now }
    requires may_share { IsTrue must_share → IsTrue config.now.shared_everything_threads_enabled }

    // The draw.
    ensures ok { IsOk result }
    ensures draws { Draws
        (storage_type_at config.now (standing_in config.now spaces.now) must_share limit u.old)
        result u.old u.new }

    // Validity and references.
    ensures granted { IfOk result (λ drawn.
        All (IsGranted config.now (standing_in config.now spaces.now)) (values_of_storage drawn)) }
    ensures valid { IfOk result (λ drawn.
        All (IsValTypeValid (features_of config.now) limit) (values_of_storage drawn)) }
    ensures stands { IfOk result (IsStorageInRange spaces.now.types.now.types) }
    ensures shared { IsTrue must_share → IfOk result (λ drawn.
        All (IsShareable spaces.now.types.now.types) (values_of_storage drawn)) }

    // Reach.
    ensures reach { must_share ≡ false → IfOk result (λ drawn. Takes (SpellsSuch (λ storage.
        All (RefersTo config.now spaces.now.types.now.types) (values_of_storage storage))
        (SpellsStorage config.now limit)) u.old drawn u.new) }
{
    orderly(spaces);
    let call = CallGrounds::without_record(config, spaces);
    let standing = call.scope();
    let drawn = draw_storage_type(config, &standing, must_share, limit, u);
    drop(call);
    Ok(drawn)
}

/// Draws a field type: a storage type, and whether the field is mutable. See the standard, section
/// Structure, Composite Types.
///
/// The field type refers only to types of `spaces` below `limit`, and only to shared types if
/// `must_share` is `true`.
///
/// Requires `config` to be sanitised, and to permit shared types if `must_share` is `true`.
///
/// Always returns `Ok`, since it does not allocate. All draws of types return a `Result`.
pub fn arbitrary_field_type(
    _alloc: Global,
    config: &Config,
    spaces: &Spaces<'_>,
    must_share: bool,
    limit: u32,
    u: &mut Unstructured<'_>,
) -> Result<FieldType, Error>
    requires sanitized { IsSanitized config.now }
    requires may_share { IsTrue must_share → IsTrue config.now.shared_everything_threads_enabled }

    // The draw.
    ensures ok { IsOk result }
    ensures draws { Draws
        (field_type_at config.now (standing_in config.now spaces.now) must_share limit u.old)
        result u.old u.new }

    // Validity and references.
    ensures granted { IfOk result (λ drawn.
        All (IsGranted config.now (standing_in config.now spaces.now))
        (values_of_storage drawn.element_type)) }
    ensures valid { IfOk result (λ drawn. All (IsValTypeValid (features_of config.now) limit)
        (values_of_storage drawn.element_type)) }
    ensures stands { IfOk result (IsFieldInRange spaces.now.types.now.types) }
    ensures shared { IsTrue must_share → IfOk result (λ drawn.
        All (IsShareable spaces.now.types.now.types) (values_of_storage drawn.element_type)) }

    // Reach.
    ensures reach { must_share ≡ false → IfOk result (λ drawn. Takes (SpellsSuch (λ field.
        All (RefersTo config.now spaces.now.types.now.types) (values_of_storage field.element_type))
        (SpellsField config.now limit)) u.old drawn u.new) }
{
    orderly(spaces);
    let call = CallGrounds::without_record(config, spaces);
    let standing = call.scope();
    let drawn = draw_field_type(config, &standing, must_share, limit, u);
    drop(call);
    Ok(drawn)
}
