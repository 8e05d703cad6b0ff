ghost use Rattle.std.specs.Prelude.{◌≡◌, ◌<◌, ◌-◌, ◌^◌, ◌+◌, ◌++◌, IfOk, IfErr, Some};
ghost use Rattle.std.specs.Prelude.{[], length, slice_get, if◌then◌else◌};
ghost use Rattle.smith_types.specs.Syntax.code.Code.{Code as Defined};
ghost use Rattle.smith_types.specs.Syntax.composite_type.FuncType.{FuncType as Function};
ghost use Rattle.smith_module_rules.specs.Module.{IsValid};
ghost use Rattle.wasm_smith.specs.SinkExports.{AnswersSinkExports};
ghost use Rattle.smith_program.specs.Bodies.{AreBodiesOf, HasDefinedType};
ghost use Rattle.smith_program.specs.Observed.{AnswersObserved, AreObserved, leaves, observed};
ghost use Rattle.smith_program.specs.Observed.{observed_body};

use crate::bodies::{defined_type, join_locals};
use crate::copies::{copied, push_copies};
use crate::mixes::mixes;
use crate::program::{Body, Program};
use smith_bytes::{Error, Why};
use smith_instr::Instr;
use smith_types::Items;
use std::alloc::Global;
use wasm_smith::Module;

// Returns `mixed` if `instr` returns or branches without a condition, and otherwise nothing.
fn mixed_before<'a>(mixed: &'a [Instr], instr: &Instr) -> &'a [Instr]
    ensures { result.now ≡ (if leaves instr.now then mixed.now else []) }
{
    match instr {
        Instr::Return => mixed,
        Instr::Br(_) => mixed,
        Instr::BrTable(_, _) => mixed,
        Instr::ReturnCall(_) => mixed,
        Instr::ReturnCallIndirect { .. } => mixed,
        Instr::ReturnCallRef(_) => mixed,
        _ => &[],
    }
}

// Returns copies of `instructions`, with copies of `mixed` before each that returns or branches
// without a condition, and at the end.
fn observed(alloc: Global, mixed: &[Instr], instructions: &[Instr]) -> Result<Items<Instr>, Error>
    ensures ok { IfOk result (λ made. made ≡ observed mixed.now instructions.now) }
    ensures memory { IfErr result (λ e. e ≡ Error.Memory) }
{
    let mut made = Items::with_capacity(alloc, instructions.len())?;
    for instr in instructions {
        push_copies(alloc, &mut made, mixed_before(mixed, instr))?;
        made.push(copied(alloc, instr)?)?;
    }
    push_copies(alloc, &mut made, mixed)?;
    Ok(made)
}

// Returns a copy of the body of the defined function at `place`, which mixes its locals into the
// sinks from `first` on.
fn observed_body(
    alloc: Global,
    module: &Module,
    first: u32,
    place: usize,
    body: &Body,
) -> Result<Body, Error>
    requires valid { IsValid «module».now }
    requires room { first + 2 < 2 ^ 32 }
    requires inside { place < length «module».now.code }
    ensures ok { IfOk result (λ made. (code : Defined) (function : Function)
        → slice_get «module».now.code place ≡ Some code
        → HasDefinedType «module».now place function
        → made ≡ observed_body first (function.params ++ code.locals) body.now) }
    ensures memory { IfErr result (λ e. e ≡ Error.Memory) }
{
    let Body::Drawn(instructions) = body else {
        return Ok(Body::Raw);
    };
    let code = &module.code()[place];
    let function = defined_type(module, place);
    let locals = join_locals(alloc, function.params.as_slice(), code.locals.as_slice())?;
    let mixed = mixes(alloc, first, locals.as_slice())?;
    Ok(Body::Drawn(observed(alloc, mixed.as_slice(), instructions.as_slice())?))
}

// Returns copies of `bodies`, which mix their locals into the sinks from `first` on.
fn observed_bodies(
    alloc: Global,
    module: &Module,
    first: u32,
    bodies: &[Body],
) -> Result<Items<Body>, Error>
    requires valid { IsValid «module».now }
    requires room { first + 2 < 2 ^ 32 }
    requires each { length bodies.now ≡ length «module».now.code }
    ensures ok { IfOk result (AreObserved first «module».now bodies.now) }
    ensures memory { IfErr result (λ e. e ≡ Error.Memory) }
{
    let mut made = Items::with_capacity(alloc, bodies.len())?;
    for place in 0..bodies.len() {
        made.push(observed_body(alloc, module, first, place, &bodies[place])?)?;
    }
    Ok(made)
}

impl Program {
    /// Adds three globals to the module, the sinks, as [`Module::add_sinks`] does, and returns the
    /// index of the first. Each function then mixes the values of its locals into the sinks where
    /// it ends, so that two engines that compute other values differ in their sinks.
    ///
    /// Locals are mixed before each `return`, `return_call`, `return_call_indirect` and
    /// `return_call_ref`, before each `br` and `br_table`, whose label may be that of the function,
    /// and at the end of the body. Nothing is mixed if the function traps or throws, or ends by a
    /// branch with a condition. Parameters come first, and of more than 1,000 locals only the first 1,000 are mixed.
    ///
    /// A mix rotates a sink by 5 bits, and then applies exclusive or. An `i32` and the bits of an
    /// `f32` go to the first sink, an `i64` and the bits of an `f64` to the second, and the halves
    /// of a `v128` to the second and the third. References are not mixed. The bits of a NaN, which
    /// engines choose, are not seen: each NaN counts as the canonical one, and a half of a vector
    /// as 0 if one of its two parts, as an `f32`, is a NaN. An `f32x4.eq` finds these, even without
    /// `allow_floats`. Other results that engines choose, such as those of relaxed vector
    /// instructions, are mixed.
    ///
    /// A further call adds three more sinks, into which the same locals are mixed once more.
    ///
    /// Requires the module to be valid, and to have fewer than 2^32 - 3 globals.
    ///
    /// # Errors
    ///
    /// Returns `IncorrectFormat(RawBody)` if a body is raw bytes, into which nothing can be
    /// inserted. The program is unchanged after any error.
    ///
    /// [`Module::add_sinks`]: wasm_smith::Module::add_sinks
    pub fn observe(&mut self, alloc: Global) -> Result<u32, Error>
        requires room { length self.old.«module».globals < 2 ^ 32 - 3 }
        requires module_valid { IsValid self.old.«module» }
        ensures answer { AnswersObserved self.old self.new result }
        ensures valid { IsValid self.new.«module» }
        ensures typed { AreBodiesOf self.old.«module» self.old.bodies
            → AreBodiesOf self.new.«module» self.new.bodies }
    {
        if self.module.has_raw_body() {
            return Err(Error::IncorrectFormat(Why::RawBody));
        }
        let next = self.module.globals().len() as u32;
        let bodies = observed_bodies(alloc, &self.module, next, self.bodies.as_slice())?;
        let first = self.module.add_sinks(alloc)?;
        self.bodies = bodies;
        Ok(first)
    }

    /// Exports the sinks, the first of which is at `first`, as [`Program::observe`] returned it, so
    /// that a caller can read them, as [`Module::export_sinks`] does. The bodies are unchanged.
    ///
    /// Requires `first + 2` to be less than the number of globals, and to be a `u32`.
    ///
    /// # Errors
    ///
    /// The module is unchanged after an error.
    ///
    /// [`Module::export_sinks`]: wasm_smith::Module::export_sinks
    pub fn export_sinks(&mut self, alloc: Global, first: u32) -> Result<(), Error>
        requires there { first + 2 < length self.old.«module».globals }
        requires room { first + 2 < 2 ^ 32 }
        ensures answer { AnswersSinkExports first self.old.«module» self.new.«module» result }
        ensures valid { IsValid self.old.«module» → IsValid self.new.«module» }
        ensures bodies { self.new.bodies ≡ self.old.bodies }
        ensures typed { AreBodiesOf self.old.«module» self.old.bodies
            → AreBodiesOf self.new.«module» self.new.bodies }
    {
        self.module.export_sinks(alloc, first)
    }
}
