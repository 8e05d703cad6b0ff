ghost use Rattle.std.specs.Prelude.{◌≡◌};
ghost use Rattle.smith_body_nodes.specs.Traps.{divides, may_aggregate_trap, may_memory_trap};
ghost use Rattle.smith_body_nodes.specs.Traps.{may_numeric_trap, may_reference_trap};
ghost use Rattle.smith_body_nodes.specs.Traps.{may_table_trap, may_trap, truncates};

use smith_instr::{
    AggregateInstr, Conversion, Instr, IntBinary, MemoryInstr, NumericInstr, ReferenceInstr,
    TableInstr,
};

/// Returns whether `instruction` may trap: the standard's chapter Execution.
pub(crate) fn may_trap(instruction: &Instr) -> bool
    ensures { result ≡ may_trap instruction.now }
{
    match instruction {
        Instr::Unreachable | Instr::ThrowRef => true,
        Instr::CallIndirect { .. } | Instr::CallRef(_) => true,
        Instr::ReturnCallIndirect { .. } | Instr::ReturnCallRef(_) => true,
        Instr::Load(_, _) | Instr::Store(_, _) | Instr::Atomic(_, _) => true,
        Instr::VectorLoad(_, _) | Instr::VectorStore(_) => true,
        Instr::VectorLoadLane { .. } | Instr::VectorStoreLane { .. } => true,
        Instr::Numeric(op) => may_numeric_trap(*op),
        Instr::Reference(op) => may_reference_trap(*op),
        Instr::Table(op) => may_table_trap(*op),
        Instr::Memory(op) => may_memory_trap(*op),
        Instr::Aggregate(op) => may_aggregate_trap(*op),
        _ => false,
    }
}

fn may_numeric_trap(op: NumericInstr) -> bool
    ensures { result ≡ may_numeric_trap op }
{
    match op {
        NumericInstr::I32Binary(op) | NumericInstr::I64Binary(op) => divides(op),
        NumericInstr::Convert(op) => truncates(op),
        _ => false,
    }
}

fn divides(op: IntBinary) -> bool
    ensures { result ≡ divides op }
{
    match op {
        IntBinary::DivS | IntBinary::DivU | IntBinary::RemS | IntBinary::RemU => true,
        _ => false,
    }
}

fn truncates(op: Conversion) -> bool
    ensures { result ≡ truncates op }
{
    match op {
        Conversion::I32TruncF32S | Conversion::I32TruncF32U => true,
        Conversion::I32TruncF64S | Conversion::I32TruncF64U => true,
        Conversion::I64TruncF32S | Conversion::I64TruncF32U => true,
        Conversion::I64TruncF64S | Conversion::I64TruncF64U => true,
        _ => false,
    }
}

fn may_reference_trap(op: ReferenceInstr) -> bool
    ensures { result ≡ may_reference_trap op }
{
    match op {
        ReferenceInstr::AsNonNull | ReferenceInstr::Cast(_) => true,
        _ => false,
    }
}

fn may_table_trap(op: TableInstr) -> bool
    ensures { result ≡ may_table_trap op }
{
    match op {
        TableInstr::Size(_) | TableInstr::Grow(_) | TableInstr::ElemDrop(_) => false,
        _ => true,
    }
}

fn may_memory_trap(op: MemoryInstr) -> bool
    ensures { result ≡ may_memory_trap op }
{
    match op {
        MemoryInstr::Size(_) | MemoryInstr::Grow(_) | MemoryInstr::DataDrop(_) => false,
        _ => true,
    }
}

fn may_aggregate_trap(op: AggregateInstr) -> bool
    ensures { result ≡ may_aggregate_trap op }
{
    match op {
        AggregateInstr::StructGet { .. } | AggregateInstr::StructSet { .. } => true,
        AggregateInstr::ArrayNewData { .. } | AggregateInstr::ArrayNewElem { .. } => true,
        AggregateInstr::ArrayGet { .. } | AggregateInstr::ArraySet(_) => true,
        AggregateInstr::ArrayLen | AggregateInstr::ArrayFill(_) => true,
        AggregateInstr::ArrayCopy { .. } => true,
        AggregateInstr::ArrayInitData { .. } | AggregateInstr::ArrayInitElem { .. } => true,
        AggregateInstr::I31GetS | AggregateInstr::I31GetU => true,
        _ => false,
    }
}
