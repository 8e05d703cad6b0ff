ghost use Rattle.std.specs.Prelude.{◌≡◌, ◌≤◌, length, IfOk, IfErr, IfSome, IsSome};
ghost use Rattle.smith_bytes.specs.Source.{KeepsPieces};
ghost use Rattle.smith_wrong_bytes.specs.Splices.{HasPreamble, IsOfPreamble};

use crate::change::Splice;
use crate::family::BytesFamily;
use smith_bytes::{Error, Unstructured};
use smith_types::Items;
use std::alloc::Global;

/// Returns a byte that isn't `byte`: the one that `pick` picks.
pub(crate) fn other_byte(byte: u8, pick: u16) -> u8
    ensures { result ≡ byte → ⊥ }
{
    byte.wrapping_add(1 + (pick % 255) as u8)
}

/// Draws a change of the magic number or the version of `file`, of the family `family`, from three bytes
/// of `u`, allocated from `alloc`. Returns `None` for a family that has no such change: all but
/// `Preamble` and `CutFile`. A module with such a change is none.
///
/// # Errors
///
/// Returns [`Error::Memory`] if an allocation fails.
pub fn break_preamble(
    alloc: Global,
    family: BytesFamily,
    file: &[u8],
    u: &mut Unstructured<'_>,
) -> Result<Option<Splice>, Error>
    requires { 8 ≤ length file.now }
    ensures drawn { IfOk result (λ drawn. IfSome drawn (IsOfPreamble family file.now)) }
    ensures found { HasPreamble family → IfOk result IsSome }
    ensures memory { IfErr result (λ e. e ≡ Error.Memory) }
    ensures left { KeepsPieces u.old u.new }
{
    let at = u.int_in_range(0..=7usize);
    let pick = u.arbitrary::<u16>();
    match family {
        BytesFamily::Preamble => {
            let inserted = Items::from_slice(alloc, &[other_byte(file[at], pick)])?;
            Ok(Some(Splice {
                at,
                removed: 1,
                inserted,
            }))
        }
        BytesFamily::CutFile => Ok(Some(Splice {
            at,
            removed: file.len() - at,
            inserted: Items::new(alloc),
        })),
        _ => Ok(None),
    }
}
