ghost use Rattle.std.specs.Prelude.{◌≡◌, ℕ, List, false, is_err, OnOk};
ghost use Rattle.smith_text.specs.Written.{Keeps, Writes, own_size};
ghost use Rattle.smith_types.specs.Syntax.code.Code.{Code};

use crate::sink::Sink;
use crate::text_form::{Listed, TextForm};
use crate::types::TypeUse;
use smith_types::{Code, Instructions, SubType};
use std::fmt;
use wasm_smith::Module;

// Writes the check of a counter of fuel: a trap at 0, else 1 is subtracted.
fn write_check<S: Sink>(global: u32, sink: &mut S) -> fmt::Result
    requires open { S.failed sink.old ≡ false }
    ensures fault { S.failed sink.new ≡ is_err result }
    ensures keeps { OnOk result (Keeps S.has sink.old sink.new) }
{
    let trap = "\n    i32.eqz\n    if\n      unreachable\n    end\n";
    let check = ("    global.get ", global, trap);
    let count = (
        "    global.get ",
        global,
        "\n    i32.const 1\n    i32.sub\n",
    );
    (check, count, ("    global.set ", global, "\n")).write_text(sink)
}

// Writes a body that traps: the checks of the counters of fuel, the last first, before
// `unreachable`.
fn write_trap<S: Sink>(fuel_globals: &[u32], sink: &mut S) -> fmt::Result
    requires open { S.failed sink.old ≡ false }
    ensures fault { S.failed sink.new ≡ is_err result }
    ensures writes { OnOk result (Writes S.has sink.old 1 sink.new) }
{
    for global in fuel_globals.iter().rev() {
        write_check(*global, sink)?;
    }
    sink.write_str("    unreachable\n")
}

/// The instructions of the bodies of a module, as text.
pub trait BodyText {
    // The least number of bytes of a body: by its place, the module's body and the counters of fuel.
    ghost size: { Self → ℕ → Code → List ℕ → ℕ };

    /// Writes the instructions of the defined function `place` to `sink`: one line each, at least
    /// four spaces deep. `body` is the module's, and `fuel_globals` are the indices of its globals
    /// that count fuel. Requires that no write to `sink` has failed.
    ///
    /// # Errors
    ///
    /// Returns the error of the first write that fails. Nothing is written after it.
    fn write_body<S: Sink>(
        &self,
        place: usize,
        body: &Code,
        fuel_globals: &[u32],
        sink: &mut S,
    ) -> fmt::Result
        requires open { S.failed sink.old ≡ false }
        ensures fault { S.failed sink.new ≡ is_err result }
        ensures writes { OnOk result (Writes S.has sink.old (size self.now place body.now fuel_globals.now) sink.new) };
}

/// The bodies that a module has. Raw bytes have no text: they follow the module.
#[derive(Clone, Copy)]
pub struct OwnBodies;

impl BodyText for OwnBodies {
    ghost size = { λ _ _ body _. own_size body.instructions };

    fn write_body<S: Sink>(
        &self,
        _place: usize,
        body: &Code,
        fuel_globals: &[u32],
        sink: &mut S,
    ) -> fmt::Result {
        match body.instructions {
            Instructions::Unreachable => write_trap(fuel_globals, sink),
            Instructions::Arbitrary(_) => Ok(()),
        }
    }
}

// Returns the use of the type of the function `place`, if there is one, with its parameters and its
// results if it is one of `signatures`.
fn type_use<'a>(types: &[u32], place: usize, signatures: &'a [SubType]) -> Option<TypeUse<'a>> {
    let index = *types.get(place)?;
    Some(TypeUse { index, signatures })
}

/// Writes the start of the function `index`: its type, and on lines of their own its locals. The
/// section Text Format, Functions. Requires that no write to `sink` has failed.
///
/// # Errors
///
/// Returns the error of the first write that fails. Nothing is written after it.
pub fn write_function_start<U: TextForm, L: TextForm, S: Sink>(
    index: usize,
    ty: &U,
    locals: &L,
    sink: &mut S,
) -> fmt::Result
    requires open { S.failed sink.old ≡ false }
    ensures fault { S.failed sink.new ≡ is_err result }
    ensures keeps { OnOk result (Keeps S.has sink.old sink.new) }
{
    (("  (func (;", index, ";) "), ty, ("\n", locals)).write_text(sink)
}

/// Writes the functions that `module` defines, with the parameters and the results of the types
/// among `signatures`. `bodies` writes their instructions. The section Text Format, Functions.
pub(crate) fn write_functions<B: BodyText, S: Sink>(
    module: &Module,
    signatures: &[SubType],
    bodies: &B,
    sink: &mut S,
) -> fmt::Result
    requires open { S.failed sink.old ≡ false }
    ensures fault { S.failed sink.new ≡ is_err result }
    ensures keeps { OnOk result (Keeps S.has sink.old sink.new) }
{
    let (types, code) = (module.funcs(), module.code());
    let imported = types.len().saturating_sub(code.len());
    for (place, body) in code.iter().enumerate() {
        let index = imported.saturating_add(place);
        let ty = type_use(types, index, signatures);
        let locals = Listed("    (local", body.locals.as_slice(), ")\n");
        write_function_start(index, &ty, &locals, sink)?;
        bodies.write_body(place, body, module.fuel_globals(), sink)?;
        sink.write_str("  )\n")?;
    }
    Ok(())
}
