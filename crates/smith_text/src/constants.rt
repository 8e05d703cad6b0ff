ghost use Rattle.std.specs.Prelude.{◌≡◌, ◌≤◌, false, is_err, length, OnOk};
ghost use Rattle.smith_text.specs.Written.{Keeps, Writes};

use crate::floats::{write_f32, write_f64};
use crate::sink::Sink;
use crate::text_form::TextForm;
use smith_types::ConstInstr;
use std::fmt;

fn keyword_of(instruction: &ConstInstr) -> &'static str
    ensures { 1 ≤ length result.now }
{
    match instruction {
        ConstInstr::I32Const(_) => "i32.const",
        ConstInstr::I64Const(_) => "i64.const",
        ConstInstr::F32Const(_) => "f32.const",
        ConstInstr::F64Const(_) => "f64.const",
        ConstInstr::V128Const(_) => "v128.const",
        ConstInstr::GlobalGet(_) => "global.get",
        ConstInstr::RefNull(_) => "ref.null",
        ConstInstr::RefFunc(_) => "ref.func",
        ConstInstr::I32Add => "i32.add",
        ConstInstr::I32Sub => "i32.sub",
        ConstInstr::I32Mul => "i32.mul",
        ConstInstr::I64Add => "i64.add",
        ConstInstr::I64Sub => "i64.sub",
        ConstInstr::I64Mul => "i64.mul",
        ConstInstr::RefI31 => "ref.i31",
        ConstInstr::RefI31Shared => "ref.i31_shared",
        ConstInstr::StructNew(_) => "struct.new",
        ConstInstr::StructNewDefault(_) => "struct.new_default",
        ConstInstr::ArrayNew(_) => "array.new",
        ConstInstr::ArrayNewDefault(_) => "array.new_default",
        ConstInstr::ArrayNewFixed { .. } => "array.new_fixed",
        ConstInstr::AnyConvertExtern => "any.convert_extern",
        ConstInstr::ExternConvertAny => "extern.convert_any",
    }
}

// Writes the lanes of 32 bits of the vector `value`, the lowest first.
fn write_lanes<S: Sink>(value: i128, sink: &mut S) -> fmt::Result
    requires open { S.failed sink.old ≡ false }
    ensures fault { S.failed sink.new ≡ is_err result }
    ensures keeps { OnOk result (Keeps S.has sink.old sink.new) }
{
    let bits = value.cast_unsigned();
    sink.write_str(" i32x4")?;
    for lane in 0..4u32 {
        let low = ((bits >> (32 * lane)) & 0xffff_ffff) as u32;
        write!(sink, " {low:#010x}")?;
    }
    Ok(())
}

// Writes the immediate arguments of an instruction, each after a space.
fn write_arguments<S: Sink>(instruction: &ConstInstr, sink: &mut S) -> fmt::Result
    requires open { S.failed sink.old ≡ false }
    ensures fault { S.failed sink.new ≡ is_err result }
    ensures keeps { OnOk result (Keeps S.has sink.old sink.new) }
{
    match instruction {
        ConstInstr::I32Const(value) => (" ", value).write_text(sink),
        ConstInstr::I64Const(value) => (" ", value).write_text(sink),
        ConstInstr::F32Const(bits) => write_f32(*bits, sink),
        ConstInstr::F64Const(bits) => write_f64(*bits, sink),
        ConstInstr::V128Const(bits) => write_lanes(*bits, sink),
        ConstInstr::RefNull(heap_type) => (" ", heap_type).write_text(sink),
        ConstInstr::GlobalGet(index)
        | ConstInstr::RefFunc(index)
        | ConstInstr::StructNew(index)
        | ConstInstr::StructNewDefault(index)
        | ConstInstr::ArrayNew(index)
        | ConstInstr::ArrayNewDefault(index) => (" ", index).write_text(sink),
        ConstInstr::ArrayNewFixed {
            array_type_index,
            array_size,
        } => ((" ", array_type_index), (" ", array_size)).write_text(sink),
        _ => Ok(()),
    }
}

/// Writes `instruction` to `sink` as [`TextForm::write_text`] does, and thus its keyword. Requires
/// that no write to `sink` has failed.
///
/// # Errors
///
/// Returns the error of the first write that fails. Nothing is written after it.
pub fn write_const_instr<S: Sink>(instruction: &ConstInstr, sink: &mut S) -> fmt::Result
    requires open { S.failed sink.old ≡ false }
    ensures fault { S.failed sink.new ≡ is_err result }
    ensures writes { OnOk result (Writes S.has sink.old 1 sink.new) }
{
    sink.write_str(keyword_of(instruction))?;
    write_arguments(instruction, sink)
}

/// The sections Text Format, Numeric, Vector, Reference, Aggregate and Variable Instructions;
/// `ref.i31_shared` as the shared-everything-threads proposal writes it. Integers are written in
/// decimal, with their sign.
impl TextForm for ConstInstr {
    fn write_text<S: Sink>(&self, sink: &mut S) -> fmt::Result {
        write_const_instr(self, sink)
    }
}
