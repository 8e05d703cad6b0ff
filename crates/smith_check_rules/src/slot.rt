use smith_types::{AbstractHeapType, ValType};

/// The type of a value on the stack of a body: a value type, or one of the bottom types that values
/// have in dead code (the standard's section Validation, Types, of bottom types).
#[derive(Clone, Copy, Debug)]
pub enum Slot {
    /// The bottom type `bot`, which is below every type.
    Bottom,
    /// The type `(ref bot)` of a non-null reference, which is below every reference type.
    SomeRef,
    /// The type of a non-null reference to this heap type, shared or not, which is below the types of
    /// shared and of unshared references to it (own rule). The conversions between internal and
    /// external references leave it in dead code, where nobody knows whether their operand is shared.
    EitherRef(AbstractHeapType),
    /// A value type.
    Value(ValType),
}
