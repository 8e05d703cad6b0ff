ghost use Rattle.std.specs.Prelude.{◌≡◌};
ghost use Rattle.smith_instr.specs.Enabled.{
  has_floats,
  instr_kind,
  lane_kind,
  load_kind,
  numeric_kind,
  store_kind,
  vector_kind,
};
ghost use Rattle.smith_instr.specs.VectorTypes.{extracted};

use crate::instr::Instr;
use crate::memory::{Load, Store};
use crate::numeric::{Conversion, NumericInstr};
use crate::vector::{LaneExtract, LaneShape, VectorInstr};
use smith_types::InstructionKind;

impl Instr {
    /// Returns the kind of the instruction. Every set of kinds allows `unreachable`, `else` and
    /// `end`.
    pub fn kind(&self) -> InstructionKind
        ensures { result ≡ instr_kind self.now }
    {
        match self {
            Instr::Drop | Instr::Select | Instr::SelectTyped(_) => InstructionKind::Parametric,
            Instr::LocalGet(_) | Instr::LocalSet(_) | Instr::LocalTee(_) =>
                InstructionKind::Variable,
            Instr::GlobalGet(_) | Instr::GlobalSet(_) => InstructionKind::Variable,
            Instr::I32Const(_) | Instr::I64Const(_) => InstructionKind::NumericInt,
            Instr::F32Const(_) | Instr::F64Const(_) => InstructionKind::Numeric,
            Instr::V128Const(_) => InstructionKind::VectorInt,
            Instr::Numeric(op) => numeric(*op),
            Instr::Reference(_) => InstructionKind::Reference,
            Instr::Table(_) => InstructionKind::Table,
            Instr::Load(op, _) => load(*op),
            Instr::Store(op, _) => store(*op),
            Instr::Memory(_) | Instr::Atomic(_, _) | Instr::AtomicFence =>
                InstructionKind::MemoryInt,
            Instr::VectorLoad(_, _) | Instr::VectorStore(_) => InstructionKind::MemoryInt,
            Instr::VectorLoadLane { .. } | Instr::VectorStoreLane { .. } =>
                InstructionKind::MemoryInt,
            Instr::Aggregate(_) => InstructionKind::Aggregate,
            Instr::Vector(op) => vector(*op),
            Instr::Unreachable | Instr::Nop | Instr::Else | Instr::End => InstructionKind::Control,
            Instr::Block(_) | Instr::Loop(_) | Instr::If(_) => InstructionKind::Control,
            Instr::TryTable(_, _) | Instr::Throw(_) | Instr::ThrowRef => InstructionKind::Control,
            Instr::Br(_) | Instr::BrIf(_) | Instr::BrTable(_, _) => InstructionKind::Control,
            Instr::BrOnNull(_) | Instr::BrOnNonNull(_) => InstructionKind::Control,
            Instr::BrOnCast(_) | Instr::BrOnCastFail(_) => InstructionKind::Control,
            Instr::Call(_) | Instr::CallIndirect { .. } | Instr::CallRef(_) =>
                InstructionKind::Control,
            Instr::Return | Instr::ReturnCall(_) => InstructionKind::Control,
            Instr::ReturnCallIndirect { .. } | Instr::ReturnCallRef(_) => InstructionKind::Control,
        }
    }
}

fn concerns_floats(op: Conversion) -> bool
    ensures { result ≡ has_floats op }
{
    !matches!(
        op,
        Conversion::I32WrapI64 | Conversion::I64ExtendI32S | Conversion::I64ExtendI32U
    )
}

fn numeric(op: NumericInstr) -> InstructionKind
    ensures { result ≡ numeric_kind op }
{
    match op {
        NumericInstr::F32Unary(_) | NumericInstr::F64Unary(_) => InstructionKind::Numeric,
        NumericInstr::F32Binary(_) | NumericInstr::F64Binary(_) => InstructionKind::Numeric,
        NumericInstr::F32Compare(_) | NumericInstr::F64Compare(_) => InstructionKind::Numeric,
        NumericInstr::Saturate(_) => InstructionKind::Numeric,
        NumericInstr::Convert(op) if concerns_floats(op) => InstructionKind::Numeric,
        _ => InstructionKind::NumericInt,
    }
}

fn lanes(shape: LaneShape) -> InstructionKind
    ensures { result ≡ lane_kind shape }
{
    match shape {
        LaneShape::F32x4 | LaneShape::F64x2 => InstructionKind::Vector,
        _ => InstructionKind::VectorInt,
    }
}

fn extracts(op: LaneExtract) -> InstructionKind
    ensures { result ≡ lane_kind (extracted op) }
{
    match op {
        LaneExtract::F32x4 | LaneExtract::F64x2 => InstructionKind::Vector,
        _ => InstructionKind::VectorInt,
    }
}

fn vector(op: VectorInstr) -> InstructionKind
    ensures { result ≡ vector_kind op }
{
    match op {
        VectorInstr::FloatUnary(_) | VectorInstr::FloatBinary(_) => InstructionKind::Vector,
        VectorInstr::RelaxedFloatUnary(_) | VectorInstr::RelaxedFloatBinary(_) =>
            InstructionKind::Vector,
        VectorInstr::RelaxedFloatTernary(_) => InstructionKind::Vector,
        VectorInstr::Splat(shape) | VectorInstr::ReplaceLane(shape, _) => lanes(shape),
        VectorInstr::ExtractLane(op, _) => extracts(op),
        _ => InstructionKind::VectorInt,
    }
}

fn load(op: Load) -> InstructionKind
    ensures { result ≡ load_kind op }
{
    match op {
        Load::F32 | Load::F64 => InstructionKind::Memory,
        _ => InstructionKind::MemoryInt,
    }
}

fn store(op: Store) -> InstructionKind
    ensures { result ≡ store_kind op }
{
    match op {
        Store::F32 | Store::F64 => InstructionKind::Memory,
        _ => InstructionKind::MemoryInt,
    }
}
