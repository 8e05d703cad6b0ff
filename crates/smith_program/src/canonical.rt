ghost use Rattle.std.specs.Prelude.{◌≡◌, ◌++◌, ◌+◌, ◌<◌, ◌-◌, ◌^◌, IfOk, IfErr, OnOk, length, map};
ghost use Rattle.std.specs.List.{flat_map};
ghost use Rattle.smith_module_rules.specs.Module.{IsValid};
ghost use Rattle.smith_program.specs.Bodies.{AreBodiesOf};
ghost use Rattle.smith_program.specs.Canonical.{AnswersCanonical, canonical, canonical_body};
ghost use Rattle.smith_program.specs.Canonical.{canonical_by, followed};

use crate::copies::copied;
use crate::nans::{Float, nan_of};
use crate::program::{Body, Program};
use smith_bytes::Error;
use smith_instr::{FloatCompare, Instr, NumericInstr, VectorFloatBinary, VectorInstr};
use smith_types::Items;
use std::alloc::Global;

// Appends instructions that put the value on the stack into the global at `scratch`, and then let
// `chosen` put `nan` in place of what doesn't equal itself by `equal`.
fn push_canonical_by(
    made: &mut Items<Instr>,
    scratch: u32,
    nan: Instr,
    equal: Instr,
    chosen: Instr,
) -> Result<(), Error>
    ensures ok { OnOk result (made.new ≡ made.old ++ canonical_by scratch nan equal chosen) }
    ensures memory { IfErr result (λ e. e ≡ Error.Memory) }
{
    made.push(Instr::GlobalSet(scratch))?;
    made.push(Instr::GlobalGet(scratch))?;
    made.push(nan)?;
    made.push(Instr::GlobalGet(scratch))?;
    made.push(Instr::GlobalGet(scratch))?;
    made.push(equal)?;
    made.push(chosen)
}

// Appends instructions that put the canonical NaN in place of a NaN on the stack, or of each in a
// vector. The scratch globals begin at `first`.
fn push_canonical(made: &mut Items<Instr>, first: u32, float: Float) -> Result<(), Error>
    requires room { first + 2 < 2 ^ 32 }
    ensures ok { OnOk result (made.new ≡ made.old ++ canonical first float) }
    ensures memory { IfErr result (λ e. e ≡ Error.Memory) }
{
    match float {
        Float::F32 => push_canonical_by(
            made,
            first,
            Instr::F32Const(0x7FC0_0000),
            Instr::Numeric(NumericInstr::F32Compare(FloatCompare::Eq)),
            Instr::Select,
        ),
        Float::F64 => push_canonical_by(
            made,
            first + 1,
            Instr::F64Const(0x7FF8_0000_0000_0000),
            Instr::Numeric(NumericInstr::F64Compare(FloatCompare::Eq)),
            Instr::Select,
        ),
        Float::F32x4 => push_canonical_by(
            made,
            first + 2,
            Instr::V128Const(0x7FC0_0000_7FC0_0000_7FC0_0000_7FC0_0000),
            Instr::Vector(VectorInstr::FloatBinary(VectorFloatBinary::F32x4Eq)),
            Instr::Vector(VectorInstr::Bitselect),
        ),
        Float::F64x2 => push_canonical_by(
            made,
            first + 2,
            Instr::V128Const(0x7FF8_0000_0000_0000_7FF8_0000_0000_0000),
            Instr::Vector(VectorInstr::FloatBinary(VectorFloatBinary::F64x2Eq)),
            Instr::Vector(VectorInstr::Bitselect),
        ),
    }
}

// Appends a copy of `instr`, and after it the canonical NaN in place of one that an engine chooses.
fn push_followed(
    alloc: Global,
    made: &mut Items<Instr>,
    vectors: bool,
    first: u32,
    instr: &Instr,
) -> Result<(), Error>
    requires room { first + 2 < 2 ^ 32 }
    ensures ok { OnOk result (made.new ≡ made.old ++ followed vectors first instr.now) }
    ensures memory { IfErr result (λ e. e ≡ Error.Memory) }
{
    made.push(copied(alloc, instr)?)?;
    match nan_of(vectors, instr) {
        Some(float) => push_canonical(made, first, float),
        None => Ok(()),
    }
}

// Returns copies of `instructions` with canonical NaNs.
fn canonical_instructions(
    alloc: Global,
    vectors: bool,
    first: u32,
    instructions: &[Instr],
) -> Result<Items<Instr>, Error>
    requires room { first + 2 < 2 ^ 32 }
    ensures ok { IfOk result (λ made.
        made ≡ flat_map (followed vectors first) instructions.now) }
    ensures memory { IfErr result (λ e. e ≡ Error.Memory) }
{
    let mut made = Items::with_capacity(alloc, instructions.len())?;
    for instr in instructions {
        push_followed(alloc, &mut made, vectors, first, instr)?;
    }
    Ok(made)
}

// Returns a copy of `body` with canonical NaNs.
fn canonical_body(alloc: Global, vectors: bool, first: u32, body: &Body) -> Result<Body, Error>
    requires room { first + 2 < 2 ^ 32 }
    ensures ok { IfOk result (λ made. made ≡ canonical_body vectors first body.now) }
    ensures memory { IfErr result (λ e. e ≡ Error.Memory) }
{
    let Body::Drawn(instructions) = body else {
        return Ok(Body::Raw);
    };
    let made = canonical_instructions(alloc, vectors, first, instructions.as_slice())?;
    Ok(Body::Drawn(made))
}

// Returns copies of `bodies` with canonical NaNs.
fn canonical_bodies(
    alloc: Global,
    vectors: bool,
    first: u32,
    bodies: &[Body],
) -> Result<Items<Body>, Error>
    requires room { first + 2 < 2 ^ 32 }
    ensures ok { IfOk result (λ made. made ≡ map (canonical_body vectors first) bodies.now) }
    ensures memory { IfErr result (λ e. e ≡ Error.Memory) }
{
    let mut made = Items::with_capacity(alloc, bodies.len())?;
    for body in bodies {
        made.push(canonical_body(alloc, vectors, first, body)?)?;
    }
    Ok(made)
}

impl Program {
    /// Adds scratch globals to the module, as [`Module::add_scratch`] does, and makes each NaN whose
    /// bits an engine chooses the positive canonical one, so that two engines compute the same bits.
    ///
    /// Such a NaN comes from an arithmetic operator, a rounding, a square root, a minimum, a maximum
    /// or a conversion between floats, also of vectors and relaxed. After each of these instructions
    /// follow seven, which put its result into a scratch global, compare the result with itself, and
    /// choose the canonical NaN, or for a vector one in each lane, where it differs. Instructions
    /// that keep the bits of a NaN, such as `f32.neg`, loads and constants, are left alone. So is
    /// what else engines choose, such as the result of a relaxed minimum of zeros. The results of
    /// imported functions are unknown too.
    ///
    /// A body of raw bytes is kept as it is. A further call adds more scratch globals and
    /// instructions, and changes no result.
    ///
    /// Requires the module to have fewer than 2^32 - 3 globals.
    ///
    /// # Errors
    ///
    /// The program is unchanged after an error.
    ///
    /// [`Module::add_scratch`]: wasm_smith::Module::add_scratch
    pub fn canonicalize_nans(&mut self, alloc: Global) -> Result<(), Error>
        requires room { length self.old.«module».globals < 2 ^ 32 - 3 }
        ensures answer { AnswersCanonical self.old self.new result }
        ensures valid { IsValid self.old.«module» → IsValid self.new.«module» }
        ensures typed { AreBodiesOf self.old.«module» self.old.bodies
            → AreBodiesOf self.new.«module» self.new.bodies }
    {
        let vectors = self.module.config().simd_enabled;
        let next = self.module.globals().len() as u32;
        let bodies = canonical_bodies(alloc, vectors, next, self.bodies.as_slice())?;
        self.module.add_scratch(alloc)?;
        self.bodies = bodies;
        Ok(())
    }
}
