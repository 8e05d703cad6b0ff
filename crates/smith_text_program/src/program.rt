ghost use Rattle.std.specs.Prelude.{
  ◌≡◌,
  ◌≤◌,
  false,
  is_err,
  length,
  slice_get,
  IfOk,
  IfErr,
  OnOk,
};
ghost use Rattle.std.specs.String.{string_bytes};
ghost use Rattle.smith_text_program.specs.Bodies.{body_size};
ghost use Rattle.smith_text.specs.Written.{Writes};

use crate::lines::write_counted_instrs;
use smith_bytes::Error;
use smith_program::{Body, Program};
use smith_text::{BodyText, Layout, OwnBodies, Sink, text_with_bodies, write_with_bodies};
use smith_types::{Code, SubType};
use std::alloc::Global;
use std::fmt;

// The depth of the instructions of a body.
const DEPTH: usize = 2;

/// The bodies of a program, as text.
#[derive(Clone, Copy)]
struct Bodies<'a> {
    bodies: &'a [Body],
    signatures: &'a [SubType],
}

impl<'a> BodyText for Bodies<'a> {
    ghost size = { λ bodies place body counters. body_size (slice_get bodies.bodies.now place) body counters };

    fn write_body<S: Sink>(
        &self,
        place: usize,
        body: &Code,
        fuel_globals: &[u32],
        sink: &mut S,
    ) -> fmt::Result {
        match self.bodies.get(place) {
            Some(Body::Drawn(instructions)) => {
                let instructions = instructions.as_slice();
                write_counted_instrs(instructions, fuel_globals, self.signatures, DEPTH, sink)
            }
            _ => OwnBodies.write_body(place, body, fuel_globals, sink),
        }
    }
}

// Returns the bodies of `program`, for its text in the form `layout`.
fn bodies_of(program: &Program, layout: Layout) -> Bodies<'_> {
    Bodies {
        bodies: program.bodies(),
        signatures: layout.signatures(program.module()),
    }
}

/// Writes `program` in the text format to `sink`, in the form `layout`. Requires that no write to it
/// has failed.
///
/// All parts but the bodies are written as the text of the module. The checks of its counters of
/// fuel are written at the start of each drawn body, and after each `loop` in it.
///
/// # Errors
///
/// Returns the error of the first write that fails. Nothing is written after it.
pub fn write_program<S: Sink>(program: &Program, layout: Layout, sink: &mut S) -> fmt::Result
    requires open { S.failed sink.old ≡ false }
    ensures fault { S.failed sink.new ≡ is_err result }
    ensures writes { OnOk result (Writes S.has sink.old 1 sink.new) }
{
    write_with_bodies(program.module(), &bodies_of(program, layout), layout, sink)
}

/// Returns the text of `program` in the form `layout`, as [`write_program`] writes it, allocated from
/// `alloc`.
///
/// # Errors
///
/// Returns `Memory` if an allocation fails.
pub fn text_in(alloc: Global, program: &Program, layout: Layout) -> Result<String, Error>
    ensures memory { IfErr result (λ e. e ≡ Error.Memory) }
    ensures some { IfOk result (λ text. 1 ≤ length (string_bytes text)) }
{
    text_with_bodies(alloc, program.module(), &bodies_of(program, layout), layout)
}

/// Returns the text of `program` in the form [`Layout::Notes`], allocated from `alloc`.
///
/// # Errors
///
/// Returns `Memory` if an allocation fails.
pub fn text(alloc: Global, program: &Program) -> Result<String, Error>
    ensures memory { IfErr result (λ e. e ≡ Error.Memory) }
    ensures some { IfOk result (λ text. 1 ≤ length (string_bytes text)) }
{
    text_in(alloc, program, Layout::Notes)
}
