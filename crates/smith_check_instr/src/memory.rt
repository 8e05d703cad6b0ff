ghost use Rattle.std.specs.Prelude.{IsTrue, ◌↔◌, ◌≡◌, ◌<◌, ◌≤◌, ℕ, List, IfOk, IfErr, MatchOption, slice_get};
ghost use Rattle.smith_instr.specs.declared.memory.MemoryInstr.TheVariants as memory;
ghost use Rattle.smith_types.specs.Syntax.value_type.ValType.{ValType};
ghost use Rattle.smith_instr.specs.Contexts.{address};
ghost use Rattle.smith_instr.specs.MemoryTypes.{IsAccess};
ghost use Rattle.smith_instr.specs.ReferenceTypes.{narrower};
ghost use Rattle.smith_instr.specs.declared.instr.Instr.TheVariants as instr;
ghost use Rattle.smith_check_rules.specs.Slots.{AreSlotsValid};
ghost use Rattle.smith_check_operands.specs.Scopes.{bare};
ghost use Rattle.smith_check_operands.specs.Covers.{held};
ghost use Rattle.smith_check_operands.specs.Applies.{IsTried};
ghost use Rattle.smith_check_operands.specs.Lookups.{HasNoAccess};

use smith_bytes::Error;
use smith_check_operands::{Operands, Scope};
use smith_instr::{Load, MemArg, MemoryInstr, Store};
use smith_types::{MemoryType, ValType};

/// Returns the type of the addresses of a memory or a table, which are of 64 bits if `wide` is
/// `true` (Validation, Address Types).
pub fn address_type(wide: bool) -> ValType
    ensures { result ≡ address wide }
{
    if wide { ValType::I64 } else { ValType::I32 }
}

/// Returns whether the addresses of the memory that `at` names are of 64 bits, if they hold its
/// offset and its alignment is at most `log2_bytes`, a binary logarithm (Validation, Memory
/// Instructions).
pub fn access(memories: &[MemoryType], at: MemArg, log2_bytes: u32) -> Option<bool>
    ensures { MatchOption result (HasNoAccess memories.now at log2_bytes)
        (λ wide. IsAccess memories.now at wide × (at.align ≤ log2_bytes)) }
{
    let index = at.memory as usize;
    if memories.len() <= index || log2_bytes < at.align {
        return None;
    }
    let wide = memories[index].memory64;
    if wide || at.offset < 0x1_0000_0000 {
        Some(wide)
    } else {
        None
    }
}

/// Tries a load of a number.
pub fn load(operands: &mut Operands, scope: &Scope, op: Load, at: MemArg) -> Result<bool, Error>
    requires { AreSlotsValid (bare scope.now) operands.old.known.items }
    ensures ok { (labels : List (List ValType)) (set : List ℕ) → IfOk result
        (λ there. IsTried (bare scope.now) labels (instr.Load op at) set there
        (held operands.old) (held operands.new)) }
    ensures memory { IfErr result (λ e. e ≡ Error.Memory) }
{
    let Some(wide) = access(scope.memories, at, op.log2_bytes()) else {
        return Ok(false);
    };
    operands.apply(scope, &[address_type(wide)], &[op.value()])
}

/// Tries a store of a number.
pub fn store(operands: &mut Operands, scope: &Scope, op: Store, at: MemArg) -> Result<bool, Error>
    requires { AreSlotsValid (bare scope.now) operands.old.known.items }
    ensures ok { (labels : List (List ValType)) (set : List ℕ) → IfOk result
        (λ there. IsTried (bare scope.now) labels (instr.Store op at) set there
        (held operands.old) (held operands.new)) }
    ensures memory { IfErr result (λ e. e ≡ Error.Memory) }
{
    let Some(wide) = access(scope.memories, at, op.log2_bytes()) else {
        return Ok(false);
    };
    operands.apply(scope, &[address_type(wide), op.value()], &[])
}

/// Returns the memory type at an index.
pub fn memory_at(memories: &[MemoryType], index: u32) -> Option<MemoryType>
    ensures { result ≡ slice_get memories.now index }
{
    let index = index as usize;
    if index < memories.len() {
        Some(memories[index])
    } else {
        None
    }
}

/// Tries `memory.size`.
pub fn memory_size(operands: &mut Operands, scope: &Scope, index: u32) -> Result<bool, Error>
    requires { AreSlotsValid (bare scope.now) operands.old.known.items }
    ensures ok { (labels : List (List ValType)) (set : List ℕ) → IfOk result
        (λ there. IsTried (bare scope.now) labels (instr.Memory (memory.Size index)) set there
        (held operands.old) (held operands.new)) }
    ensures memory { IfErr result (λ e. e ≡ Error.Memory) }
{
    let Some(memory) = memory_at(scope.memories, index) else {
        return Ok(false);
    };
    operands.apply(scope, &[], &[address_type(memory.memory64)])
}

/// Tries `memory.grow`.
pub fn memory_grow(operands: &mut Operands, scope: &Scope, index: u32) -> Result<bool, Error>
    requires { AreSlotsValid (bare scope.now) operands.old.known.items }
    ensures ok { (labels : List (List ValType)) (set : List ℕ) → IfOk result
        (λ there. IsTried (bare scope.now) labels (instr.Memory (memory.Grow index)) set there
        (held operands.old) (held operands.new)) }
    ensures memory { IfErr result (λ e. e ≡ Error.Memory) }
{
    let Some(memory) = memory_at(scope.memories, index) else {
        return Ok(false);
    };
    let address = address_type(memory.memory64);
    operands.apply(scope, &[address], &[address])
}

/// Tries `memory.fill`.
pub fn memory_fill(operands: &mut Operands, scope: &Scope, index: u32) -> Result<bool, Error>
    requires { AreSlotsValid (bare scope.now) operands.old.known.items }
    ensures ok { (labels : List (List ValType)) (set : List ℕ) → IfOk result
        (λ there. IsTried (bare scope.now) labels (instr.Memory (memory.Fill index)) set there
        (held operands.old) (held operands.new)) }
    ensures memory { IfErr result (λ e. e ≡ Error.Memory) }
{
    let Some(memory) = memory_at(scope.memories, index) else {
        return Ok(false);
    };
    let address = address_type(memory.memory64);
    operands.apply(scope, &[address, ValType::I32, address], &[])
}

/// Returns the type of the number of bytes that are copied between two memories, or of elements
/// between two tables: the narrower of their address types (Validation, Memory Instructions).
pub fn narrower_type(one: bool, other: bool) -> ValType
    ensures { result ≡ narrower one other }
{
    if one {
        address_type(other)
    } else {
        ValType::I32
    }
}

/// Tries `memory.copy`.
pub fn memory_copy(
    operands: &mut Operands,
    scope: &Scope,
    to: u32,
    from: u32,
) -> Result<bool, Error>
    requires { AreSlotsValid (bare scope.now) operands.old.known.items }
    ensures ok { (labels : List (List ValType)) (set : List ℕ) → IfOk result
        (λ there. IsTried (bare scope.now) labels (instr.Memory (memory.Copy to from)) set there
        (held operands.old) (held operands.new)) }
    ensures memory { IfErr result (λ e. e ≡ Error.Memory) }
{
    let Some(into) = memory_at(scope.memories, to) else {
        return Ok(false);
    };
    let Some(out) = memory_at(scope.memories, from) else {
        return Ok(false);
    };
    let first = address_type(into.memory64);
    let second = address_type(out.memory64);
    let length = narrower_type(into.memory64, out.memory64);
    operands.apply(scope, &[first, second, length], &[])
}

/// Tries `memory.init`.
pub fn memory_init(
    operands: &mut Operands,
    scope: &Scope,
    index: u32,
    segment: u32,
) -> Result<bool, Error>
    requires { AreSlotsValid (bare scope.now) operands.old.known.items }
    ensures ok { (labels : List (List ValType)) (set : List ℕ) → IfOk result
        (λ there. IsTried (bare scope.now) labels (instr.Memory (memory.Init index segment)) set there
        (held operands.old) (held operands.new)) }
    ensures memory { IfErr result (λ e. e ≡ Error.Memory) }
{
    let Some(memory) = memory_at(scope.memories, index) else {
        return Ok(false);
    };
    if !has_segment(scope, segment) {
        return Ok(false);
    }
    let address = address_type(memory.memory64);
    operands.apply(scope, &[address, ValType::I32, ValType::I32], &[])
}

/// Returns whether there is a data segment at an index (Validation, Contexts).
pub fn has_segment(scope: &Scope, segment: u32) -> bool
    ensures { IsTrue result ↔ (segment < scope.now.datas) }
{
    (segment as usize) < scope.datas
}

/// Tries `data.drop`.
pub fn data_drop(operands: &mut Operands, scope: &Scope, segment: u32) -> Result<bool, Error>
    requires { AreSlotsValid (bare scope.now) operands.old.known.items }
    ensures ok { (labels : List (List ValType)) (set : List ℕ) → IfOk result
        (λ there. IsTried (bare scope.now) labels (instr.Memory (memory.DataDrop segment)) set there
        (held operands.old) (held operands.new)) }
    ensures memory { IfErr result (λ e. e ≡ Error.Memory) }
{
    if !has_segment(scope, segment) {
        return Ok(false);
    }
    operands.apply(scope, &[], &[])
}

/// Tries an instruction on a whole memory or a data segment.
pub fn memory(operands: &mut Operands, scope: &Scope, op: MemoryInstr) -> Result<bool, Error>
    requires { AreSlotsValid (bare scope.now) operands.old.known.items }
    ensures ok { (labels : List (List ValType)) (set : List ℕ) → IfOk result
        (λ there. IsTried (bare scope.now) labels (instr.Memory op) set there
        (held operands.old) (held operands.new)) }
    ensures memory { IfErr result (λ e. e ≡ Error.Memory) }
{
    match op {
        MemoryInstr::Size(index) => memory_size(operands, scope, index),
        MemoryInstr::Grow(index) => memory_grow(operands, scope, index),
        MemoryInstr::Fill(index) => memory_fill(operands, scope, index),
        MemoryInstr::Copy { to, from } => memory_copy(operands, scope, to, from),
        MemoryInstr::Init { memory, segment } => memory_init(operands, scope, memory, segment),
        MemoryInstr::DataDrop(segment) => data_drop(operands, scope, segment),
    }
}
