use crate::list::Items;
use crate::value_type::ValType;

/// The body of a function defined in the module. See the standard, section Structure, Functions.
#[derive(Debug, Drop)]
pub struct Code {
    /// The types of the locals after the parameters.
    pub locals: Items<ValType>,
    /// The instructions of the body.
    pub instructions: Instructions,
}

/// The instructions of a body.
#[derive(Debug, Drop)]
pub enum Instructions {
    /// A single `unreachable`: the body traps at once.
    Unreachable,
    /// Raw bytes, which need not be valid.
    Arbitrary(Items<u8>),
}
