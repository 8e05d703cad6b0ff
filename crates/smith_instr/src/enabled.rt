ghost use Rattle.std.specs.Prelude.{◌≡◌, ◌&&◌};
ghost use Rattle.smith_types.specs.Syntax.FeatureBits.{features_in};
ghost use Rattle.smith_instr.specs.Enabled.{
  has_features,
  is_aggregate_enabled,
  is_always_allowed,
  is_block_enabled,
  is_enabled,
  is_kind_enabled,
  is_memory_enabled,
  is_numeric_enabled,
  is_reference_enabled,
  is_table_enabled,
  is_vector_enabled,
};

use crate::aggregate::AggregateInstr;
use crate::control::BlockType;
use crate::instr::Instr;
use crate::memory::MemoryInstr;
use crate::numeric::NumericInstr;
use crate::reference::ReferenceInstr;
use crate::table::TableInstr;
use crate::vector::VectorInstr;
use smith_types::{InstructionKinds, WasmFeatures};

impl Instr {
    /// Returns whether a body may have the instruction if `features` are enabled and `kinds` are
    /// allowed.
    #[tactic(auto, unfolding(crate::specs::Enabled::is_enabled))]
    pub fn is_enabled(&self, features: WasmFeatures, kinds: InstructionKinds) -> bool
        ensures { result ≡ is_enabled (features_in features) kinds self.now }
    {
        has_features(self, features) && is_kind_enabled(self, kinds)
    }
}

fn is_kind_enabled(instruction: &Instr, kinds: InstructionKinds) -> bool
    ensures { result ≡ is_kind_enabled kinds instruction.now }
{
    is_always_allowed(instruction) || kinds.contains(instruction.kind())
}

fn is_always_allowed(instruction: &Instr) -> bool
    ensures { result ≡ is_always_allowed instruction.now }
{
    match instruction {
        Instr::Unreachable | Instr::Else | Instr::End => true,
        _ => false,
    }
}

fn has_features(instruction: &Instr, features: WasmFeatures) -> bool
    ensures { result ≡ has_features (features_in features) instruction.now }
{
    match instruction {
        Instr::Block(ty) | Instr::Loop(ty) | Instr::If(ty) => is_block_enabled(*ty, features),
        Instr::TryTable(ty, _) => is_try_enabled(*ty, features),
        Instr::Throw(_) | Instr::ThrowRef => features.contains(WasmFeatures::EXCEPTIONS),
        Instr::BrOnNull(_) | Instr::BrOnNonNull(_) | Instr::CallRef(_) => features.contains(
            WasmFeatures::FUNCTION_REFERENCES,
        ),
        Instr::BrOnCast(_) | Instr::BrOnCastFail(_) => features.contains(WasmFeatures::GC),
        Instr::ReturnCall(_) | Instr::ReturnCallIndirect { .. } => features.contains(
            WasmFeatures::TAIL_CALL,
        ),
        Instr::ReturnCallRef(_) => is_tail_call_by_reference_enabled(features),
        Instr::SelectTyped(_) => features.contains(WasmFeatures::REFERENCE_TYPES),
        Instr::V128Const(_) => features.contains(WasmFeatures::SIMD),
        Instr::Numeric(op) => is_numeric_enabled(*op, features),
        Instr::Reference(op) => is_reference_enabled(*op, features),
        Instr::Table(op) => is_table_enabled(*op, features),
        Instr::Memory(op) => is_memory_enabled(*op, features),
        Instr::Aggregate(op) => is_aggregate_enabled(*op, features),
        Instr::Vector(op) => is_vector_enabled(*op, features),
        Instr::VectorLoad(_, _) | Instr::VectorStore(_) => features.contains(WasmFeatures::SIMD),
        Instr::VectorLoadLane { .. } | Instr::VectorStoreLane { .. } => features.contains(
            WasmFeatures::SIMD,
        ),
        Instr::Atomic(_, _) | Instr::AtomicFence => features.contains(WasmFeatures::THREADS),
        Instr::Unreachable | Instr::Nop | Instr::Else | Instr::End | Instr::Br(_) => true,
        Instr::BrIf(_) | Instr::BrTable(_, _) | Instr::Return | Instr::Call(_) => true,
        Instr::CallIndirect { .. } | Instr::Drop | Instr::Select | Instr::LocalGet(_) => true,
        Instr::LocalSet(_) | Instr::LocalTee(_) | Instr::GlobalGet(_) => true,
        Instr::GlobalSet(_) | Instr::I32Const(_) | Instr::I64Const(_) => true,
        Instr::F32Const(_) | Instr::F64Const(_) | Instr::Load(_, _) | Instr::Store(_, _) => true,
    }
}

fn is_block_enabled(ty: BlockType, features: WasmFeatures) -> bool
    ensures { result ≡ is_block_enabled (features_in features) ty }
{
    match ty {
        BlockType::Func(_) => features.contains(WasmFeatures::MULTI_VALUE),
        BlockType::Empty | BlockType::Value(_) => true,
    }
}

fn is_try_enabled(ty: BlockType, features: WasmFeatures) -> bool
    ensures { result
        ≡ (is_block_enabled (features_in features) ty && (features_in features).exceptions) }
{
    is_block_enabled(ty, features) && features.contains(WasmFeatures::EXCEPTIONS)
}

fn is_tail_call_by_reference_enabled(features: WasmFeatures) -> bool
    ensures { result
        ≡ ((features_in features).tail_call && (features_in features).function_references) }
{
    features.contains(WasmFeatures::TAIL_CALL)
        && features.contains(WasmFeatures::FUNCTION_REFERENCES)
}

fn is_numeric_enabled(op: NumericInstr, features: WasmFeatures) -> bool
    ensures { result ≡ is_numeric_enabled (features_in features) op }
{
    match op {
        NumericInstr::Saturate(_) => features.contains(WasmFeatures::SATURATING_FLOAT_TO_INT),
        NumericInstr::Extend(_) => features.contains(WasmFeatures::SIGN_EXTENSION),
        NumericInstr::Wide(_) => features.contains(WasmFeatures::WIDE_ARITHMETIC),
        _ => true,
    }
}

fn is_reference_enabled(op: ReferenceInstr, features: WasmFeatures) -> bool
    ensures { result ≡ is_reference_enabled (features_in features) op }
{
    match op {
        ReferenceInstr::Null(_) | ReferenceInstr::Func(_) | ReferenceInstr::IsNull =>
            features.contains(WasmFeatures::REFERENCE_TYPES),
        ReferenceInstr::AsNonNull => features.contains(WasmFeatures::FUNCTION_REFERENCES),
        ReferenceInstr::Eq | ReferenceInstr::Test(_) | ReferenceInstr::Cast(_) => features.contains(
            WasmFeatures::GC,
        ),
    }
}

fn is_table_enabled(op: TableInstr, features: WasmFeatures) -> bool
    ensures { result ≡ is_table_enabled (features_in features) op }
{
    match op {
        TableInstr::Copy { .. } | TableInstr::Init { .. } | TableInstr::ElemDrop(_) =>
            features.contains(WasmFeatures::BULK_MEMORY),
        _ => features.contains(WasmFeatures::REFERENCE_TYPES),
    }
}

fn is_memory_enabled(op: MemoryInstr, features: WasmFeatures) -> bool
    ensures { result ≡ is_memory_enabled (features_in features) op }
{
    match op {
        MemoryInstr::Size(_) | MemoryInstr::Grow(_) => true,
        _ => features.contains(WasmFeatures::BULK_MEMORY),
    }
}

fn is_aggregate_enabled(op: AggregateInstr, features: WasmFeatures) -> bool
    ensures { result ≡ is_aggregate_enabled (features_in features) op }
{
    match op {
        AggregateInstr::RefI31Shared => {
            features.contains(WasmFeatures::GC)
                && features.contains(WasmFeatures::SHARED_EVERYTHING_THREADS)
        }
        AggregateInstr::ArrayNewData { .. } | AggregateInstr::ArrayInitData { .. } => {
            features.contains(WasmFeatures::GC) && features.contains(WasmFeatures::BULK_MEMORY)
        }
        _ => features.contains(WasmFeatures::GC),
    }
}

fn is_vector_enabled(op: VectorInstr, features: WasmFeatures) -> bool
    ensures { result ≡ is_vector_enabled (features_in features) op }
{
    match op {
        VectorInstr::RelaxedFloatUnary(_) | VectorInstr::RelaxedBinary(_) => {
            is_relaxed_enabled(features)
        }
        VectorInstr::RelaxedFloatBinary(_) | VectorInstr::RelaxedTernary(_) => {
            is_relaxed_enabled(features)
        }
        VectorInstr::RelaxedFloatTernary(_) => is_relaxed_enabled(features),
        _ => features.contains(WasmFeatures::SIMD),
    }
}

fn is_relaxed_enabled(features: WasmFeatures) -> bool
    ensures { result ≡ ((features_in features).simd && (features_in features).relaxed_simd) }
{
    features.contains(WasmFeatures::SIMD) && features.contains(WasmFeatures::RELAXED_SIMD)
}
