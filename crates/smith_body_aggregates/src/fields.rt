ghost use Rattle.std.specs.Prelude.{◌≡◌};
ghost use Rattle.smith_types.specs.Expressions.{unpacked};
ghost use Rattle.smith_instr.specs.AggregateTypes.{value_of};
ghost use Rattle.smith_instr.specs.Contexts.{IsValid};
ghost use Rattle.smith_body_aggregates.specs.Fields.{IsUse, extension_of, is_of_bytes};
ghost use Rattle.smith_body_aggregates.specs.Fields.{is_of_references, is_storage_below, is_usable};
ghost use Rattle.smith_body_nodes.specs.Scopes.{bare};

use smith_body_nodes::{Scope, is_below};
use smith_instr::Extension;
use smith_types::{FieldType, StorageType, ValType, is_defaultable, unpack};

/// Uses of a field of a struct or of an element of an array.
#[derive(Clone, Copy)]
pub(crate) enum FieldUse {
    /// A read of a value of a wanted type.
    Read(ValType),
    /// Creation from a value.
    New,
    /// Creation from the default value.
    NewDefault,
    /// Creation from the bytes of a data segment.
    NewBytes,
    /// Creation from the references of an element segment.
    NewReferences,
    /// A write of a value.
    Set,
    /// A write of the bytes of a data segment.
    SetBytes,
    /// A write of the references of an element segment.
    SetReferences,
    /// A copy into an element of this storage type.
    CopyInto(StorageType),
}

/// Returns whether `field` may be used for `of`.
pub(crate) fn is_usable(scope: &Scope<'_>, of: FieldUse, field: FieldType) -> bool
    requires of { IsUse (bare scope.now) of }
    requires field { IsValid (bare scope.now) (value_of field) }
    ensures { result ≡ is_usable (bare scope.now).types of field }
{
    let stored = field.element_type;
    match of {
        FieldUse::Read(wanted) => is_below(scope, unpack(stored), wanted),
        FieldUse::New => true,
        FieldUse::NewDefault => is_defaultable(unpack(stored)),
        FieldUse::NewBytes => is_of_bytes(stored),
        FieldUse::NewReferences => is_of_references(stored),
        FieldUse::Set => field.mutable,
        FieldUse::SetBytes => field.mutable && is_of_bytes(stored),
        FieldUse::SetReferences => field.mutable && is_of_references(stored),
        FieldUse::CopyInto(into) => is_storage_below(scope, stored, into),
    }
}

fn is_of_bytes(stored: StorageType) -> bool
    ensures { result ≡ is_of_bytes stored }
{
    !is_of_references(stored)
}

fn is_of_references(stored: StorageType) -> bool
    ensures { result ≡ is_of_references stored }
{
    match stored {
        StorageType::Val(ValType::Ref(_)) => true,
        _ => false,
    }
}

/// Returns whether the storage type `stored` matches `into`.
fn is_storage_below(scope: &Scope<'_>, stored: StorageType, into: StorageType) -> bool
    requires stored { IsValid (bare scope.now) (unpacked stored) }
    requires into { IsValid (bare scope.now) (unpacked into) }
    ensures { result ≡ is_storage_below (bare scope.now).types stored into }
{
    match stored {
        StorageType::I8 => matches!(into, StorageType::I8),
        StorageType::I16 => matches!(into, StorageType::I16),
        StorageType::Val(value) => match into {
            StorageType::Val(wanted) => is_below(scope, value, wanted),
            _ => false,
        },
    }
}

/// Returns the extension of a value that is read from `stored`. A packed value is extended by its
/// sign if `signed` is set.
pub(crate) fn extension_of(stored: StorageType, signed: bool) -> Extension
    ensures { result ≡ extension_of stored signed }
{
    match stored {
        StorageType::Val(_) => Extension::Unpacked,
        _ => {
            if signed {
                Extension::Signed
            } else {
                Extension::Unsigned
            }
        }
    }
}
