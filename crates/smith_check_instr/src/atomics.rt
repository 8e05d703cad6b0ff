ghost use Rattle.std.specs.Prelude.{◌≡◌, ◌∷◌, [], ℕ, List, IfOk, IfErr, MatchOption};
ghost use Rattle.smith_types.specs.Syntax.value_type.ValType.{ValType};
ghost use Rattle.smith_instr.specs.MemoryTypes.{IsAccess, atomic_width};
ghost use Rattle.smith_instr.specs.declared.instr.Instr.TheVariants as instr;
ghost use Rattle.smith_check_rules.specs.Slots.{AreSlotsValid};
ghost use Rattle.smith_check_operands.specs.Scopes.{bare};
ghost use Rattle.smith_check_operands.specs.Covers.{held};
ghost use Rattle.smith_check_operands.specs.Applies.{IsTried};
ghost use Rattle.smith_check_instr.specs.AtomicSignatures.{HasNoAtomicAccess};
ghost use Rattle.smith_check_instr.specs.AtomicSignatures.{
  atomic_bytes,
  atomic_operands,
  atomic_results,
};

use crate::memory::{access, address_type};
use smith_bytes::Error;
use smith_check_operands::{Operands, Scope};
use smith_instr::{AtomicAccess, AtomicWidth, MemArg};
use smith_types::{MemoryType, ValType};

/// Returns whether the addresses of the memory that `at` names are of 64 bits, if they hold its
/// offset and its alignment is exactly `log2_bytes`, a binary logarithm (threads proposal).
pub fn atomic_access(memories: &[MemoryType], at: MemArg, log2_bytes: u32) -> Option<bool>
    ensures { MatchOption result (HasNoAtomicAccess memories.now at log2_bytes)
        (λ wide. IsAccess memories.now at wide × (at.align ≡ log2_bytes)) }
{
    if at.align != log2_bytes {
        return None;
    }
    access(memories, at, log2_bytes)
}

/// Tries an atomic access.
pub fn atomic(
    operands: &mut Operands,
    scope: &Scope,
    op: AtomicAccess,
    at: MemArg,
) -> Result<bool, Error>
    requires { AreSlotsValid (bare scope.now) operands.old.known.items }
    ensures ok { (labels : List (List ValType)) (set : List ℕ) → IfOk result
        (λ there. IsTried (bare scope.now) labels (instr.Atomic op at) set there
        (held operands.old) (held operands.new)) }
    ensures memory { IfErr result (λ e. e ≡ Error.Memory) }
{
    let Some(wide) = atomic_access(scope.memories, at, log2_bytes(op)) else {
        return Ok(false);
    };
    let address = address_type(wide);
    operands.apply_below(scope, &[address], operands_above(op), results(op))
}

/// Returns the binary logarithm of the number of bytes that are accessed.
fn log2_bytes(op: AtomicAccess) -> u32
    ensures { result ≡ atomic_bytes op }
{
    match op {
        AtomicAccess::Notify | AtomicAccess::Wait32 => 2,
        AtomicAccess::Wait64 => 3,
        AtomicAccess::Load(width) | AtomicAccess::Store(width) => log2_width(width),
        AtomicAccess::Update(_, width) | AtomicAccess::CompareExchange(width) => log2_width(width),
    }
}

fn log2_width(width: AtomicWidth) -> u32
    ensures { result ≡ (atomic_width width).1 }
{
    match width {
        AtomicWidth::I32Of8 | AtomicWidth::I64Of8 => 0,
        AtomicWidth::I32Of16 | AtomicWidth::I64Of16 => 1,
        AtomicWidth::I32 | AtomicWidth::I64Of32 => 2,
        AtomicWidth::I64 => 3,
    }
}

/// Returns the types of the operands above the address, the last on top.
fn operands_above<'a>(op: AtomicAccess) -> &'a [ValType]
    ensures { result.now ≡ atomic_operands op }
{
    match op {
        AtomicAccess::Notify => &[ValType::I32],
        AtomicAccess::Wait32 => &[ValType::I32, ValType::I64],
        AtomicAccess::Wait64 => &[ValType::I64, ValType::I64],
        AtomicAccess::Load(_) => &[],
        AtomicAccess::Store(width) | AtomicAccess::Update(_, width) => value(width),
        AtomicAccess::CompareExchange(width) => two_values(width),
    }
}

/// Returns the types of the results.
fn results<'a>(op: AtomicAccess) -> &'a [ValType]
    ensures { result.now ≡ atomic_results op }
{
    match op {
        AtomicAccess::Notify | AtomicAccess::Wait32 | AtomicAccess::Wait64 => &[ValType::I32],
        AtomicAccess::Store(_) => &[],
        AtomicAccess::Load(width) | AtomicAccess::Update(_, width) => value(width),
        AtomicAccess::CompareExchange(width) => value(width),
    }
}

fn value<'a>(width: AtomicWidth) -> &'a [ValType]
    ensures { result.now ≡ (atomic_width width).0 ∷ [] }
{
    match width {
        AtomicWidth::I32 | AtomicWidth::I32Of8 | AtomicWidth::I32Of16 => &[ValType::I32],
        AtomicWidth::I64 | AtomicWidth::I64Of8 => &[ValType::I64],
        AtomicWidth::I64Of16 | AtomicWidth::I64Of32 => &[ValType::I64],
    }
}

fn two_values<'a>(width: AtomicWidth) -> &'a [ValType]
    ensures { result.now ≡ (atomic_width width).0 ∷ (atomic_width width).0 ∷ [] }
{
    match width {
        AtomicWidth::I32 | AtomicWidth::I32Of8 | AtomicWidth::I32Of16 => {
            &[ValType::I32, ValType::I32]
        }
        AtomicWidth::I64 | AtomicWidth::I64Of8 => &[ValType::I64, ValType::I64],
        AtomicWidth::I64Of16 | AtomicWidth::I64Of32 => &[ValType::I64, ValType::I64],
    }
}
