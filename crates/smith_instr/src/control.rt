use smith_types::{RefType, ValType};

/// The type of a block: the standard's section Structure, Control Instructions.
#[derive(Clone, Copy, Debug)]
pub enum BlockType {
    /// Neither parameters nor results.
    Empty,
    /// One result.
    Value(ValType),
    /// The parameters and results of the function type with an index.
    Func(u32),
}

/// A clause of `try_table`: the standard's section Structure, Control Instructions.
#[derive(Clone, Copy, Debug)]
pub enum Catch {
    /// `catch`: an exception of a tag goes to a label with its values.
    One { tag: u32, label: u32 },
    /// `catch_ref`: as `catch`, with a reference to the exception on top.
    OneRef { tag: u32, label: u32 },
    /// `catch_all`: every exception goes to a label.
    All { label: u32 },
    /// `catch_all_ref`: as `catch_all`, with a reference to the exception.
    AllRef { label: u32 },
}

/// The immediates of `br_on_cast` and `br_on_cast_fail`: the standard's section Structure, Control
/// Instructions.
#[derive(Clone, Copy, Debug)]
pub struct BranchCast {
    /// The label that the branch goes to.
    pub label: u32,
    /// The type of the operand.
    pub from: RefType,
    /// The type that the operand is cast to.
    pub to: RefType,
}
