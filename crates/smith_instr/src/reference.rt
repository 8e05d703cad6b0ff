use smith_types::{HeapType, RefType};

/// A reference instruction: the standard's section Structure, Reference Instructions.
#[derive(Clone, Copy, Debug)]
pub enum ReferenceInstr {
    /// `ref.null` of a heap type.
    Null(HeapType),
    /// `ref.func` of a function.
    Func(u32),
    /// `ref.is_null`.
    IsNull,
    /// `ref.as_non_null`.
    AsNonNull,
    /// `ref.eq`.
    Eq,
    /// `ref.test` of a reference type.
    Test(RefType),
    /// `ref.cast` to a reference type.
    Cast(RefType),
}
