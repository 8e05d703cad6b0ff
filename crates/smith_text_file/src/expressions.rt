use smith_instr::Instr;
use smith_text::{Sink, TextForm};
use smith_text_program::write_instr;
use smith_types::SubType;
use std::fmt;

/// An expression in the plain form of its instructions, each after a space. The function types among
/// `signatures` are written with their parameters and results.
#[derive(Clone, Copy)]
pub(crate) struct Expression<'a> {
    pub(crate) instructions: &'a [Instr],
    pub(crate) signatures: &'a [SubType],
}

/// The section Text Format, Expressions.
impl TextForm for Expression<'_> {
    fn write_text<S: Sink>(&self, sink: &mut S) -> fmt::Result {
        for instruction in self.instructions {
            sink.write_str(" ")?;
            write_instr(instruction, self.signatures, sink)?;
        }
        Ok(())
    }
}

/// An offset, with a space after it.
#[derive(Clone, Copy)]
pub(crate) struct Offset<'a>(pub(crate) Expression<'a>);

/// The sections Text Format, Element Segments and Data Segments, with their abbreviation of an offset of
/// one instruction.
impl TextForm for Offset<'_> {
    fn write_text<S: Sink>(&self, sink: &mut S) -> fmt::Result {
        let [only] = self.0.instructions else {
            return ("(offset", &self.0, ") ").write_text(sink);
        };
        sink.write_str("(")?;
        write_instr(only, self.0.signatures, sink)?;
        sink.write_str(") ")
    }
}
