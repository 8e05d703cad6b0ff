ghost use Rattle.std.specs.Prelude.{◌≡◌, ◌≤◌, false, is_err, length, OnOk};
ghost use Rattle.smith_text.specs.Written.{Keeps, Writes};

use crate::keywords::{write_indexed, write_indexed_twice};
use smith_instr::{Load, MemArg, MemoryInstr, Store, VectorLoad};
use smith_text::Sink;
use std::fmt;

// Returns the keyword of a load.
pub(crate) fn load_keyword(op: Load) -> &'static str
    ensures { 1 ≤ length result.now }
{
    match op {
        Load::I32 => "i32.load",
        Load::I64 => "i64.load",
        Load::F32 => "f32.load",
        Load::F64 => "f64.load",
        Load::I32From8S => "i32.load8_s",
        Load::I32From8U => "i32.load8_u",
        Load::I32From16S => "i32.load16_s",
        Load::I32From16U => "i32.load16_u",
        Load::I64From8S => "i64.load8_s",
        Load::I64From8U => "i64.load8_u",
        Load::I64From16S => "i64.load16_s",
        Load::I64From16U => "i64.load16_u",
        Load::I64From32S => "i64.load32_s",
        Load::I64From32U => "i64.load32_u",
    }
}

// Returns the keyword of a store.
pub(crate) fn store_keyword(op: Store) -> &'static str
    ensures { 1 ≤ length result.now }
{
    match op {
        Store::I32 => "i32.store",
        Store::I64 => "i64.store",
        Store::F32 => "f32.store",
        Store::F64 => "f64.store",
        Store::I32To8 => "i32.store8",
        Store::I32To16 => "i32.store16",
        Store::I64To8 => "i64.store8",
        Store::I64To16 => "i64.store16",
        Store::I64To32 => "i64.store32",
    }
}

// Returns the keyword of a load of a vector.
pub(crate) fn vector_load_keyword(op: VectorLoad) -> &'static str
    ensures { 1 ≤ length result.now }
{
    match op {
        VectorLoad::V128 => "v128.load",
        VectorLoad::I8x8S => "v128.load8x8_s",
        VectorLoad::I8x8U => "v128.load8x8_u",
        VectorLoad::I16x4S => "v128.load16x4_s",
        VectorLoad::I16x4U => "v128.load16x4_u",
        VectorLoad::I32x2S => "v128.load32x2_s",
        VectorLoad::I32x2U => "v128.load32x2_u",
        VectorLoad::Splat8 => "v128.load8_splat",
        VectorLoad::Splat16 => "v128.load16_splat",
        VectorLoad::Splat32 => "v128.load32_splat",
        VectorLoad::Splat64 => "v128.load64_splat",
        VectorLoad::Zero32 => "v128.load32_zero",
        VectorLoad::Zero64 => "v128.load64_zero",
    }
}

// Writes the index of a memory after a space, unless it is 0.
fn write_memory_index<S: Sink>(memory: u32, sink: &mut S) -> fmt::Result
    requires open { S.failed sink.old ≡ false }
    ensures fault { S.failed sink.new ≡ is_err result }
    ensures keeps { OnOk result (Keeps S.has sink.old sink.new) }
{
    if memory == 0 {
        return Ok(());
    }
    write!(sink, " {memory}")
}

/// Writes the access to memory of a keyword.
pub(crate) fn write_access<S: Sink>(keyword: &str, at: MemArg, sink: &mut S) -> fmt::Result
    requires open { S.failed sink.old ≡ false }
    ensures fault { S.failed sink.new ≡ is_err result }
    ensures writes { OnOk result (Writes S.has sink.old (length keyword.now) sink.new) }
{
    sink.write_str(keyword)?;
    write_mem_arg(at, sink)
}

/// Writes a memory argument after a space. An alignment that does not fit 64 bits is written as 0.
pub(crate) fn write_mem_arg<S: Sink>(at: MemArg, sink: &mut S) -> fmt::Result
    requires open { S.failed sink.old ≡ false }
    ensures fault { S.failed sink.new ≡ is_err result }
    ensures keeps { OnOk result (Keeps S.has sink.old sink.new) }
{
    write_memory_index(at.memory, sink)?;
    let alignment = 1u64.checked_shl(at.align).unwrap_or(0);
    write!(sink, " offset={} align={alignment}", at.offset)
}

/// Writes an access to the lane `lane` of `2 ^ log2_bytes` bytes; `verb` is `load` or `store`.
pub(crate) fn write_lane_access<S: Sink>(
    verb: &str,
    log2_bytes: u32,
    at: MemArg,
    lane: u8,
    sink: &mut S,
) -> fmt::Result
    requires open { S.failed sink.old ≡ false }
    ensures fault { S.failed sink.new ≡ is_err result }
    ensures writes { OnOk result (Writes S.has sink.old 1 sink.new) }
{
    let bits = 8u64.checked_shl(log2_bytes).unwrap_or(0);
    write!(sink, "v128.{verb}{bits}_lane")?;
    write_mem_arg(at, sink)?;
    write!(sink, " {lane}")
}

// Writes an instruction on a whole memory.
fn write_on_memory<S: Sink>(keyword: &str, memory: u32, sink: &mut S) -> fmt::Result
    requires open { S.failed sink.old ≡ false }
    ensures fault { S.failed sink.new ≡ is_err result }
    ensures writes { OnOk result (Writes S.has sink.old (length keyword.now) sink.new) }
{
    sink.write_str(keyword)?;
    write_memory_index(memory, sink)
}

// Writes `memory.init`.
fn write_init<S: Sink>(memory: u32, segment: u32, sink: &mut S) -> fmt::Result
    requires open { S.failed sink.old ≡ false }
    ensures fault { S.failed sink.new ≡ is_err result }
    ensures writes { OnOk result (Writes S.has sink.old 1 sink.new) }
{
    write_on_memory("memory.init", memory, sink)?;
    write!(sink, " {segment}")
}

/// Writes an instruction on a whole memory or a data segment.
pub(crate) fn write_memory<S: Sink>(instruction: MemoryInstr, sink: &mut S) -> fmt::Result
    requires open { S.failed sink.old ≡ false }
    ensures fault { S.failed sink.new ≡ is_err result }
    ensures writes { OnOk result (Writes S.has sink.old 1 sink.new) }
{
    match instruction {
        MemoryInstr::Size(memory) => write_on_memory("memory.size", memory, sink),
        MemoryInstr::Grow(memory) => write_on_memory("memory.grow", memory, sink),
        MemoryInstr::Fill(memory) => write_on_memory("memory.fill", memory, sink),
        MemoryInstr::Copy { to: 0, from: 0 } => sink.write_str("memory.copy"),
        MemoryInstr::Copy { to, from } => write_indexed_twice("memory.copy", to, from, sink),
        MemoryInstr::Init { memory, segment } => write_init(memory, segment, sink),
        MemoryInstr::DataDrop(segment) => write_indexed("data.drop", segment, sink),
    }
}
