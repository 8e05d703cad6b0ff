ghost use Rattle.std.specs.Prelude.{◌≡◌};
ghost use Rattle.smith_body_choices.specs.Choices.{
  ending_families,
  number_families,
  reference_value_families,
  statement_families,
  value_families,
  vector_value_families,
};

use smith_types::ValType;

/// Families of instructions that may produce a value.
#[derive(Clone, Copy)]
pub(crate) enum ValueFamily {
    /// An instruction without operands.
    Leaf,
    Numeric,
    Select,
    Tee,
    Call,
    Block,
    /// A block, or seldom an instruction that leaves.
    Ending,
    Load,
    /// The size of a memory, or its growth.
    Memory,
    /// An element of a table, its size, or its growth.
    Table,
    SelectTyped,
    /// An instruction on references.
    Reference,
    CallIndirect,
    CallRef,
    /// A branch on null.
    NullBranch,
    /// A vector, or the result of a vector instruction.
    Vector,
    Atomic,
    /// A struct or an array that is created.
    Creation,
    /// A field of a struct, or an element of an array.
    FieldRead,
    /// A cast, a test or a conversion of a reference, or an instruction on an i31.
    Cast,
    /// A branch on a failed cast.
    CastBranch,
    /// A block that catches exceptions.
    Try,
}

/// Families of instructions that may be a statement.
#[derive(Clone, Copy)]
pub(crate) enum StatementFamily {
    Nop,
    Drop,
    GlobalSet,
    Call,
    Block,
    /// A conditional branch.
    Branch,
    Store,
    LocalSet,
    TableChange,
    /// An instruction on several bytes of a memory, or on a data segment.
    Bulk,
    CallIndirect,
    CallRef,
    /// A branch on null, or on a reference that is not null.
    NullBranch,
    VectorStore,
    /// A store of a lane of a vector.
    StoreLane,
    AtomicStore,
    /// `atomic.fence`.
    Fence,
    /// A write to a struct or an array.
    FieldWrite,
    /// A branch on a cast.
    CastBranch,
    /// A block that catches exceptions.
    Try,
}

/// Families of instructions after which no code is reached.
#[derive(Clone, Copy)]
pub(crate) enum EndingFamily {
    /// `return`, or an unconditional branch to one label.
    Leaving,
    /// A tail call.
    TailCall,
    /// `throw` or `throw_ref`.
    Throw,
    /// An unconditional branch to one of several labels.
    Table,
    Unreachable,
}

/// Lists the families of values of the type `wanted`, each as often as its weight.
pub(crate) fn value_families<'a>(wanted: ValType) -> &'a [ValueFamily]
    ensures { result.now ≡ value_families wanted }
{
    match wanted {
        ValType::V128 => vector_value_families(),
        ValType::Ref(_) => reference_value_families(),
        _ => number_families(),
    }
}

/// Lists the families of values of a number type.
fn number_families<'a>() -> &'a [ValueFamily]
    ensures { result.now ≡ number_families }
{
    &[
        ValueFamily::Leaf,
        ValueFamily::Numeric,
        ValueFamily::Numeric,
        ValueFamily::Numeric,
        ValueFamily::Numeric,
        ValueFamily::Numeric,
        ValueFamily::Select,
        ValueFamily::Tee,
        ValueFamily::Call,
        ValueFamily::Call,
        ValueFamily::Block,
        ValueFamily::Block,
        ValueFamily::Ending,
        ValueFamily::Load,
        ValueFamily::Load,
        ValueFamily::Memory,
        ValueFamily::Table,
        ValueFamily::SelectTyped,
        ValueFamily::Reference,
        ValueFamily::CallIndirect,
        ValueFamily::CallRef,
        ValueFamily::Numeric,
        ValueFamily::Atomic,
        ValueFamily::Vector,
        ValueFamily::Vector,
        ValueFamily::Vector,
        ValueFamily::Atomic,
        ValueFamily::Atomic,
        ValueFamily::Numeric,
        ValueFamily::Numeric,
        ValueFamily::FieldRead,
        ValueFamily::Cast,
        ValueFamily::Leaf,
        ValueFamily::Try,
        ValueFamily::Try,
    ]
}

/// Lists the families of vectors.
fn vector_value_families<'a>() -> &'a [ValueFamily]
    ensures { result.now ≡ vector_value_families }
{
    &[
        ValueFamily::Leaf,
        ValueFamily::Vector,
        ValueFamily::Vector,
        ValueFamily::Vector,
        ValueFamily::Vector,
        ValueFamily::Vector,
        ValueFamily::Select,
        ValueFamily::Tee,
        ValueFamily::Call,
        ValueFamily::Call,
        ValueFamily::Block,
        ValueFamily::Block,
        ValueFamily::Ending,
        ValueFamily::Vector,
        ValueFamily::Vector,
        ValueFamily::Vector,
        ValueFamily::Vector,
        ValueFamily::SelectTyped,
        ValueFamily::Vector,
        ValueFamily::CallIndirect,
        ValueFamily::CallRef,
        ValueFamily::Vector,
        ValueFamily::Vector,
        ValueFamily::Vector,
        ValueFamily::Vector,
        ValueFamily::Vector,
        ValueFamily::Vector,
        ValueFamily::Vector,
        ValueFamily::Vector,
        ValueFamily::Leaf,
        ValueFamily::FieldRead,
        ValueFamily::Leaf,
        ValueFamily::Leaf,
        ValueFamily::Try,
        ValueFamily::Try,
    ]
}

/// Lists the families of references.
fn reference_value_families<'a>() -> &'a [ValueFamily]
    ensures { result.now ≡ reference_value_families }
{
    &[
        ValueFamily::Leaf,
        ValueFamily::Creation,
        ValueFamily::Creation,
        ValueFamily::Creation,
        ValueFamily::Creation,
        ValueFamily::Cast,
        ValueFamily::FieldRead,
        ValueFamily::Tee,
        ValueFamily::Call,
        ValueFamily::Call,
        ValueFamily::Block,
        ValueFamily::Block,
        ValueFamily::Ending,
        ValueFamily::Creation,
        ValueFamily::Creation,
        ValueFamily::Table,
        ValueFamily::Table,
        ValueFamily::SelectTyped,
        ValueFamily::Reference,
        ValueFamily::CallIndirect,
        ValueFamily::CallRef,
        ValueFamily::Creation,
        ValueFamily::NullBranch,
        ValueFamily::Cast,
        ValueFamily::Cast,
        ValueFamily::Cast,
        ValueFamily::Cast,
        ValueFamily::Creation,
        ValueFamily::Creation,
        ValueFamily::Creation,
        ValueFamily::FieldRead,
        ValueFamily::Cast,
        ValueFamily::CastBranch,
        ValueFamily::Try,
        ValueFamily::Try,
    ]
}

/// Lists the families of statements, each as often as its weight.
pub(crate) fn statement_families<'a>() -> &'a [StatementFamily]
    ensures { result.now ≡ statement_families }
{
    &[
        StatementFamily::Nop,
        StatementFamily::Drop,
        StatementFamily::Drop,
        StatementFamily::GlobalSet,
        StatementFamily::GlobalSet,
        StatementFamily::Call,
        StatementFamily::Call,
        StatementFamily::Block,
        StatementFamily::Block,
        StatementFamily::Branch,
        StatementFamily::Block,
        StatementFamily::LocalSet,
        StatementFamily::Store,
        StatementFamily::Store,
        StatementFamily::Branch,
        StatementFamily::LocalSet,
        StatementFamily::TableChange,
        StatementFamily::Bulk,
        StatementFamily::CallIndirect,
        StatementFamily::CallRef,
        StatementFamily::Block,
        StatementFamily::NullBranch,
        StatementFamily::VectorStore,
        StatementFamily::StoreLane,
        StatementFamily::AtomicStore,
        StatementFamily::Fence,
        StatementFamily::FieldWrite,
        StatementFamily::CastBranch,
        StatementFamily::Try,
        StatementFamily::Try,
    ]
}

/// Lists the families of instructions after which no code is reached, each as often as its weight.
pub(crate) fn ending_families<'a>() -> &'a [EndingFamily]
    ensures { result.now ≡ ending_families }
{
    &[
        EndingFamily::Leaving,
        EndingFamily::Leaving,
        EndingFamily::TailCall,
        EndingFamily::TailCall,
        EndingFamily::Throw,
        EndingFamily::Throw,
        EndingFamily::Table,
        EndingFamily::Unreachable,
    ]
}
