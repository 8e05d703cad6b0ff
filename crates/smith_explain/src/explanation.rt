use smith_check_operands::Operands;
use smith_check_rules::Slot;

/// An index space (Structure, Indices).
#[derive(Clone, Copy, Debug)]
pub enum Space {
    /// The types.
    Type,
    /// The functions.
    Function,
    /// The tables.
    Table,
    /// The memories.
    Memory,
    /// The globals.
    Global,
    /// The tags.
    Tag,
    /// The element segments.
    Element,
    /// The data segments.
    Data,
    /// The locals, parameters first.
    Local,
    /// The labels, that of the innermost block first.
    Label,
}

/// What an instruction names: an item by its index.
#[derive(Clone, Copy, Debug)]
pub struct Named {
    /// The index space.
    pub space: Space,
    /// The index, a canonical one for a type.
    pub index: u32,
}

/// An item that is named and that is not there.
#[derive(Clone, Copy, Debug)]
pub struct Unknown {
    /// What is named.
    pub named: Named,
    /// The number of items that its index space has.
    pub count: usize,
}

/// Why an instruction is refused: the first of these that applies. It is proved that none of the first
/// three applies where a later one is said.
#[derive(Drop)]
pub enum Cause {
    /// The instruction names an item that is not there.
    Unknown(Unknown),
    /// `ref.func` names a function that is not declared: no item outside of the bodies of functions names
    /// it (Validation, Contexts).
    Undeclared {
        /// The index of the function.
        function: u32,
    },
    /// `local.get` names a local that has no default and is not set (Validation, Local Types).
    Unset {
        /// The index of the local.
        local: u32,
    },
    /// The instruction takes operands of these types, the last on top, which are not those on the stack.
    /// An operand of any type is [`Slot::Bottom`], and one of any reference type is [`Slot::SomeRef`].
    /// For `end`, `else` and the end of the body they are the results of the block, and there may be no
    /// others.
    Operands(Vec<Slot>),
    /// Something else. It is said of an instruction that opens or closes no block, or of one that takes no
    /// operands at all: the type of its block is not valid, a clause of `try_table` is wrong, or no block
    /// that it may end is open.
    Other,
}

/// What is known of a refused instruction.
#[derive(Drop)]
pub struct Explanation {
    /// The types that are on the stack before the instruction, since the innermost block began.
    pub stack: Operands,
    /// Why the instruction is refused.
    pub cause: Cause,
}
