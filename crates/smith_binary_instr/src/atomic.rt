ghost use Rattle.std.specs.Prelude.{◌≡◌, ◌+◌, ◌<◌};
ghost use Rattle.smith_binary_instr.specs.Atomic.{atomic_number, update_number, width_number};

use smith_instr::{AtomicAccess, AtomicUpdate, AtomicWidth};

// Returns the number of the access of the width `width`. `first` is that of the first width.
fn sized_number(first: u32, width: AtomicWidth) -> u32
    requires { first < 200 }
    ensures { result ≡ first + width_number width }
{
    first + width as u32
}

// Returns the number of the update `update` of the first width.
fn update_number(update: AtomicUpdate) -> u32
    ensures is { result ≡ update_number update }
    ensures small { result < 200 }
{
    update as u32
}

// Returns the number of an atomic access, after its prefix.
pub(crate) fn atomic_number(access: AtomicAccess) -> u32
    ensures { result ≡ atomic_number access }
{
    match access {
        AtomicAccess::Notify => 0x00,
        AtomicAccess::Wait32 => 0x01,
        AtomicAccess::Wait64 => 0x02,
        AtomicAccess::Load(width) => sized_number(0x10, width),
        AtomicAccess::Store(width) => sized_number(0x17, width),
        AtomicAccess::Update(update, width) => sized_number(update_number(update), width),
        AtomicAccess::CompareExchange(width) => sized_number(0x48, width),
    }
}
