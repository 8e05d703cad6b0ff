ghost use Rattle.std.specs.Prelude.{◌≡◌, false, is_err, OnOk};
ghost use Rattle.smith_text.specs.Written.{Writes};

use crate::memory::write_mem_arg;
use smith_instr::{AtomicAccess, AtomicUpdate, AtomicWidth, MemArg};
use smith_text::Sink;
use std::fmt;

// Returns the type of the value of an atomic access.
fn type_of(width: AtomicWidth) -> &'static str {
    match width {
        AtomicWidth::I32 | AtomicWidth::I32Of8 | AtomicWidth::I32Of16 => "i32",
        AtomicWidth::I64 | AtomicWidth::I64Of8 | AtomicWidth::I64Of16 | AtomicWidth::I64Of32 => {
            "i64"
        }
    }
}

// Returns the bits of an access that is narrower than its value.
fn bits_of(width: AtomicWidth) -> &'static str {
    match width {
        AtomicWidth::I32 | AtomicWidth::I64 => "",
        AtomicWidth::I32Of8 | AtomicWidth::I64Of8 => "8",
        AtomicWidth::I32Of16 | AtomicWidth::I64Of16 => "16",
        AtomicWidth::I64Of32 => "32",
    }
}

// Returns the end of the keyword of an access that produces a value, which is extended by zeros if
// the access is narrower.
fn extension_suffix(width: AtomicWidth) -> &'static str {
    match width {
        AtomicWidth::I32 | AtomicWidth::I64 => "",
        _ => "_u",
    }
}

// Returns the keyword of an update.
fn update_keyword(update: AtomicUpdate) -> &'static str {
    match update {
        AtomicUpdate::Add => "add",
        AtomicUpdate::Sub => "sub",
        AtomicUpdate::And => "and",
        AtomicUpdate::Or => "or",
        AtomicUpdate::Xor => "xor",
        AtomicUpdate::Exchange => "xchg",
    }
}

// Writes the keyword of a read, an update and a write, as one access.
fn write_update<S: Sink>(operation: &str, width: AtomicWidth, sink: &mut S) -> fmt::Result
    requires open { S.failed sink.old ≡ false }
    ensures fault { S.failed sink.new ≡ is_err result }
    ensures writes { OnOk result (Writes S.has sink.old 1 sink.new) }
{
    let (ty, bits, extended) = (type_of(width), bits_of(width), extension_suffix(width));
    write!(sink, "{ty}.atomic.rmw{bits}.{operation}{extended}")
}

// Writes the keyword of an atomic access.
fn write_keyword<S: Sink>(access: AtomicAccess, sink: &mut S) -> fmt::Result
    requires open { S.failed sink.old ≡ false }
    ensures fault { S.failed sink.new ≡ is_err result }
    ensures writes { OnOk result (Writes S.has sink.old 1 sink.new) }
{
    match access {
        AtomicAccess::Notify => sink.write_str("memory.atomic.notify"),
        AtomicAccess::Wait32 => sink.write_str("memory.atomic.wait32"),
        AtomicAccess::Wait64 => sink.write_str("memory.atomic.wait64"),
        AtomicAccess::Load(width) => {
            write!(sink, "{}.atomic.load{}", type_of(width), bits_of(width))?;
            sink.write_str(extension_suffix(width))
        }
        AtomicAccess::Store(width) => {
            write!(sink, "{}.atomic.store{}", type_of(width), bits_of(width))
        }
        AtomicAccess::Update(update, width) => write_update(update_keyword(update), width, sink),
        AtomicAccess::CompareExchange(width) => write_update("cmpxchg", width, sink),
    }
}

/// Writes an atomic access to memory, as the threads proposal does.
pub(crate) fn write_atomic<S: Sink>(access: AtomicAccess, at: MemArg, sink: &mut S) -> fmt::Result
    requires open { S.failed sink.old ≡ false }
    ensures fault { S.failed sink.new ≡ is_err result }
    ensures writes { OnOk result (Writes S.has sink.old 1 sink.new) }
{
    write_keyword(access, sink)?;
    write_mem_arg(at, sink)
}
