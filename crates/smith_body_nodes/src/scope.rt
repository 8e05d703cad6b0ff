ghost use Rattle.std.specs.Prelude.{◌≡◌};
ghost use Rattle.smith_body_nodes.specs.Scopes.{indexed};

use smith_config::Config;
use smith_instr::{Instr, SetLocals};
use smith_types::{
    GlobalType, Items, MemoryType, RefType, TableType, TypeSpace, ValType, WasmFeatures,
};

/// The context of a body without its labels: the standard's section Validation, Contexts. Imported
/// items come first.
#[derive(Clone, Copy)]
pub struct Scope<'a> {
    /// The features that are on.
    pub features: WasmFeatures,
    /// The configuration: the kinds of instructions that bodies may have, whether they may trap, and
    /// the weights of offsets into memories.
    pub config: &'a Config,
    /// The types.
    pub types: &'a TypeSpace,
    /// The index of the type of each function.
    pub funcs: &'a [u32],
    /// The number of imported functions.
    pub imported_funcs: usize,
    /// The type of each table.
    pub tables: &'a [TableType],
    /// The type of each memory.
    pub memories: &'a [MemoryType],
    /// The type of each global.
    pub globals: &'a [GlobalType],
    /// The index of the type of each tag.
    pub tags: &'a [u32],
    /// The type of each element segment.
    pub elems: &'a [RefType],
    /// The number of data segments.
    pub datas: usize,
    /// The functions that `ref.func` may name.
    pub references: &'a [u32],
    /// The types of the locals, parameters first.
    pub locals: &'a [ValType],
    /// The number of parameters.
    pub params: usize,
    /// The types of the results.
    pub results: &'a [ValType],
}

/// A body that is being drawn.
#[derive(Drop)]
pub struct Draft {
    /// The instructions so far.
    pub out: Items<Instr>,
    /// The locals that instructions have set and that are still set at this point.
    pub set: SetLocals,
    /// The types of the operands of a branch to each label, the innermost label first.
    pub labels: Vec<Items<ValType>>,
    /// The number of nodes that may still be drawn.
    pub budget: usize,
}

/// Returns how many of `count` items have an index: at most `2^32 - 1`.
pub fn indexed_count(count: usize) -> usize
    ensures { result ≡ indexed count }
{
    count.min(0xffff_ffff)
}
