ghost use Rattle.std.specs.Prelude.{◌≡◌, ◌<◌, ◌≤◌, false, OnOk, IfErr};
ghost use Rattle.smith_bytes.specs.declared.error.Error.TheVariants.{Memory};
ghost use Rattle.smith_bytes.specs.Spelling.{SpellsBool, SpellsNumber, SpellsRefusal};
ghost use Rattle.smith_bytes.specs.Spelling.{SpellsAnyByte, Where};
ghost use Rattle.smith_spell.specs.Written.{Writes, SpellsDigits};

use smith_bytes::Error;
use smith_types::Items;

/// Writes the bool `value`.
pub(crate) fn write_bool(value: bool, bytes: &mut Items<u8>) -> Result<(), Error>
    ensures writes { OnOk result (Writes (SpellsBool value) bytes.old bytes.new) }
    ensures memory { IfErr result (λ e. e ≡ Memory) }
{
    bytes.push(u8::from(value))
}

/// Writes the end of a loop if `may_go_on` is set.
pub(crate) fn write_end(may_go_on: bool, bytes: &mut Items<u8>) -> Result<(), Error>
    ensures writes { OnOk result (Writes (Where may_go_on (SpellsBool false)) bytes.old bytes.new) }
    ensures memory { IfErr result (λ e. e ≡ Memory) }
{
    if may_go_on {
        return write_bool(false, bytes);
    }
    Ok(())
}

/// Writes the byte of a cleared flag.
pub(crate) fn write_flag(bytes: &mut Items<u8>) -> Result<(), Error>
    ensures writes { OnOk result (Writes SpellsAnyByte bytes.old bytes.new) }
    ensures memory { IfErr result (λ e. e ≡ Memory) }
{
    bytes.push(0)
}

/// Writes `number` in as many base-256 digits as `most` has, most significant first.
fn write_digits(number: usize, most: usize, bytes: &mut Items<u8>) -> Result<(), Error>
    requires { number ≤ most }
    ensures writes { OnOk result (Writes (SpellsDigits number most) bytes.old bytes.new) }
    ensures memory { IfErr result (λ e. e ≡ Memory) }
{
    if most == 0 {
        return Ok(());
    }
    write_digits(number / 256, most / 256, bytes)?;
    bytes.push((number % 256) as u8)
}

/// Writes `number`, which is at most `most`.
pub(crate) fn write_number(number: usize, most: usize, bytes: &mut Items<u8>) -> Result<(), Error>
    requires { number ≤ most }
    ensures writes { OnOk result (Writes (SpellsNumber number 0 most) bytes.old bytes.new) }
    ensures memory { IfErr result (λ e. e ≡ Memory) }
{
    write_digits(number, most, bytes)
}

/// Writes a choice other than the first of `chances`, if `is_asked` is `true`.
pub(crate) fn write_refusal(
    is_asked: bool,
    chances: usize,
    bytes: &mut Items<u8>,
) -> Result<(), Error>
    requires { 1 < chances }
    ensures writes { OnOk result
        (Writes (Where is_asked (SpellsRefusal chances)) bytes.old bytes.new) }
    ensures memory { IfErr result (λ e. e ≡ Memory) }
{
    if is_asked {
        return write_digits(1, chances - 1, bytes);
    }
    Ok(())
}
