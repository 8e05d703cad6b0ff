ghost use Rattle.std.specs.Prelude.{◌≡◌};
ghost use Rattle.smith_instr.specs.Contexts.{address};
ghost use Rattle.smith_instr.specs.ReferenceTypes.{narrower};
ghost use Rattle.smith_body_nodes.specs.Offered.{is_address};

use smith_types::ValType;

/// Returns the type of the addresses of a memory or a table: of 64 bits if `wide` is set, else of
/// 32 bits.
pub fn address(wide: bool) -> ValType
    ensures { result ≡ address wide }
{
    if wide { ValType::I64 } else { ValType::I32 }
}

/// Returns the narrower of the address types of two memories or tables.
pub fn narrower(one: bool, other: bool) -> ValType
    ensures { result ≡ narrower one other }
{
    if one { address(other) } else { ValType::I32 }
}

/// Returns whether the addresses of a memory or a table have the type `value`. They have 64 bits if
/// `wide` is set, else 32 bits.
pub fn is_address(value: ValType, wide: bool) -> bool
    ensures { result ≡ is_address value wide }
{
    match value {
        ValType::I32 => !wide,
        ValType::I64 => wide,
        _ => false,
    }
}
