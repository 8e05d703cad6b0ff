use smith_check_rules::Slot;
use smith_types::{Items, ValType};

/// The types of the values that are on the stack since a block began, the last on top. In dead code
/// there are any others below.
#[derive(Drop)]
pub struct Operands {
    /// The known types.
    pub known: Vec<Slot>,
    /// Whether the code is dead.
    pub dead: bool,
}

/// What a block is (Structure, Control Instructions).
#[derive(Clone, Copy, Debug)]
pub enum Kind {
    /// A function, a block, or the second part of an if.
    Block,
    /// A loop.
    Loop,
    /// The first part of an if.
    If,
}

/// A block, with the types of its parameters and results.
#[derive(Drop)]
pub struct Shape {
    /// What the block is.
    pub kind: Kind,
    /// The types of its parameters.
    pub params: Items<ValType>,
    /// The types of its results.
    pub results: Items<ValType>,
}

/// An open block, with what its instructions so far have left.
#[derive(Drop)]
pub struct Frame {
    /// The block.
    pub shape: Shape,
    /// What its instructions so far have left.
    pub operands: Operands,
    /// How many entries the list of set locals had when the block began.
    pub height: usize,
}
