ghost use Rattle.std.specs.Prelude.{◌≡◌, ◌≤◌};
ghost use Rattle.smith_binary_read.specs.Readings.{Gives};
ghost use Rattle.smith_binary_read_instr.specs.AtomicReadings.{
  width_of,
  update_of,
  access_of,
  atomic_of,
  fence_at,
  atomic_at,
};

use crate::memory::read_mem_arg;
use smith_binary_read::{ReadError, Reader, Reason};
use smith_instr::{AggregateInstr, AtomicAccess, AtomicUpdate, AtomicWidth, Instr};

#[tactic(auto, unfolding(crate::specs::AtomicReadings::width_of))]
fn width_of(place: u32) -> AtomicWidth
    ensures { result ≡ width_of place }
{
    match place {
        0 => AtomicWidth::I32,
        1 => AtomicWidth::I64,
        2 => AtomicWidth::I32Of8,
        3 => AtomicWidth::I32Of16,
        4 => AtomicWidth::I64Of8,
        5 => AtomicWidth::I64Of16,
        _ => AtomicWidth::I64Of32,
    }
}

// Returns the update of `number`, from 0x1E up to 0x47.
#[tactic(auto, unfolding(crate::specs::AtomicReadings::update_of))]
fn update_of(number: u32) -> AtomicAccess
    requires { 0x1E ≤ number }
    ensures { result ≡ update_of number }
{
    if number < 0x25 {
        return AtomicAccess::Update(AtomicUpdate::Add, width_of(number - 0x1E));
    }
    if number < 0x2C {
        return AtomicAccess::Update(AtomicUpdate::Sub, width_of(number - 0x25));
    }
    if number < 0x33 {
        return AtomicAccess::Update(AtomicUpdate::And, width_of(number - 0x2C));
    }
    if number < 0x3A {
        return AtomicAccess::Update(AtomicUpdate::Or, width_of(number - 0x33));
    }
    if number < 0x41 {
        return AtomicAccess::Update(AtomicUpdate::Xor, width_of(number - 0x3A));
    }
    AtomicAccess::Update(AtomicUpdate::Exchange, width_of(number - 0x41))
}

// Returns the access of `number`, from 0x10 on, if there is one.
#[tactic(auto, unfolding(crate::specs::AtomicReadings::access_of))]
fn access_of(number: u32) -> Option<AtomicAccess>
    ensures { result ≡ access_of number }
{
    if number < 0x10 {
        return None;
    }
    if number < 0x17 {
        return Some(AtomicAccess::Load(width_of(number - 0x10)));
    }
    if number < 0x1E {
        return Some(AtomicAccess::Store(width_of(number - 0x17)));
    }
    if number < 0x48 {
        return Some(update_of(number));
    }
    if number < 0x4F {
        return Some(AtomicAccess::CompareExchange(width_of(number - 0x48)));
    }
    None
}

// Returns the access of `number`, if there is one.
#[tactic(auto, unfolding(crate::specs::AtomicReadings::atomic_of))]
fn atomic_of(number: u32) -> Option<AtomicAccess>
    ensures { result ≡ atomic_of number }
{
    match number {
        0 => Some(AtomicAccess::Notify),
        1 => Some(AtomicAccess::Wait32),
        2 => Some(AtomicAccess::Wait64),
        _ => access_of(number),
    }
}

// Reads the byte after `atomic.fence`.
#[tactic(auto, unfolding(crate::specs::AtomicReadings::fence_at))]
fn read_fence(reader: &mut Reader<'_>) -> Result<Instr, ReadError>
    ensures { Gives result reader.new (fence_at reader.old) }
{
    let unknown = reader.fault(Reason::UnknownByte);
    let byte = reader.read_byte()?;
    if byte == 0 {
        return Ok(Instr::AtomicFence);
    }
    Err(unknown)
}

// Reads an instruction after the byte 0xFE: the threads proposal, and the shared i31.
#[tactic(auto, unfolding(crate::specs::AtomicReadings::atomic_at))]
#[inline(always)]
pub(crate) fn read_atomic(reader: &mut Reader<'_>) -> Result<Instr, ReadError>
    ensures { Gives result reader.new (atomic_at reader.old) }
{
    let unknown = reader.fault(Reason::UnknownByte);
    let number = reader.read_u32()?;
    if let Some(access) = atomic_of(number) {
        let at = read_mem_arg(reader)?;
        return Ok(Instr::Atomic(access, at));
    }
    match number {
        3 => read_fence(reader),
        114 => Ok(Instr::Aggregate(AggregateInstr::RefI31Shared)),
        _ => Err(unknown),
    }
}
