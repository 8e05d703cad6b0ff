ghost use Rattle.std.specs.Prelude.{◌≡◌, ◌<◌, List, length, ◌∷◌, [], ◌++◌, ◌&&◌, replicate};
ghost use Rattle.std.specs.Prelude.{unwrap_or, Some, None, IfOk, IfErr, OnOk, IsTrue};
ghost use Rattle.smith_types.specs.Syntax.FeatureBits.{features_in};
ghost use Rattle.smith_types.specs.Syntax.value_type.ValType.{ValType as Val};
ghost use Rattle.smith_types.specs.Syntax.value_type.ValType.TheVariants.{I32};
ghost use Rattle.smith_instr.specs.declared.control.Catch.{Catch as Clause};
ghost use Rattle.smith_instr.specs.declared.instr.Instr.TheVariants as instr;
ghost use Rattle.smith_body_nodes.specs.Scopes.{IsAllowedIn, is_permitted, kinds_of_bodies};
ghost use Rattle.smith_body_nodes.specs.Nodes.{IsHeadAllowed, IsNodeAllowed, blocked, fitting};
ghost use Rattle.smith_body_nodes.specs.Nodes.{head_instruction, head_params, is_drop_allowed};
ghost use Rattle.smith_body_nodes.specs.Nodes.{is_head_allowed, is_node_allowed, node_of, setting};
ghost use Rattle.smith_body_nodes.specs.Nodes.{trying};

use crate::scope::Scope;
use crate::traps::may_trap;
use smith_bytes::Error;
use smith_config::Config;
use smith_instr::{BlockType, Catch, Instr};
use smith_types::{InstructionKinds, Items, ValType};
use std::alloc::Global;

/// The parameters and results of a block.
#[derive(Drop)]
pub struct Sides {
    /// The types of the parameters.
    pub params: Items<ValType>,
    /// The types of the results.
    pub results: Items<ValType>,
}

/// The opening of a block with one list of instructions and no clauses: any but an `if` with an
/// `else` and `try_table`.
#[derive(Clone, Copy)]
pub enum Opening {
    /// A `block`.
    Block,
    /// A `loop`.
    Loop,
    /// An `if` without `else`.
    IfAlone,
}

/// The part of a node after its operands.
#[derive(Drop)]
pub enum Head {
    /// An instruction.
    Plain(Instr),
    /// A block, a loop or an `if` without `else`, with its parameters and results.
    Enclosed(Opening, BlockType, Sides),
    /// An `if` with its `else`, with its parameters and results.
    If(BlockType, Sides),
    /// A `try_table` with its clauses, with its parameters and results.
    Try(BlockType, Items<Catch>, Sides),
}

/// An instruction or a block, with the operands drawn before it and the drops written after it.
#[derive(Drop)]
pub struct Node {
    /// The types of the operands, in the order in which they are drawn.
    pub operands: Items<ValType>,
    /// The part that takes the operands.
    pub head: Head,
    /// The local that the instruction sets.
    pub sets: Option<u32>,
    /// The number of results that are dropped.
    pub drops: usize,
}

/// Creates the node of `instruction`, which takes `operands`. Drops `drops` of its results.
pub fn plain(
    alloc: Global,
    operands: &[ValType],
    instruction: Instr,
    drops: usize,
) -> Result<Node, Error>
    ensures exact { IfOk result (λ node. node ≡ node_of operands.now instruction drops) }
    ensures memory { IfErr result (λ e. e ≡ Error.Memory) }
{
    Ok(Node {
        operands: Items::from_slice(alloc, operands)?,
        head: Head::Plain(instruction),
        sets: None,
        drops,
    })
}

/// Creates the node of `instruction`, which takes `operands` and then an `i32`. Drops `drops` of
/// its results.
pub fn conditional(
    alloc: Global,
    operands: &[ValType],
    instruction: Instr,
    drops: usize,
) -> Result<Node, Error>
    ensures exact { IfOk result (λ node.
        node ≡ node_of (operands.now ++ I32 ∷ []) instruction drops) }
    ensures memory { IfErr result (λ e. e ≡ Error.Memory) }
{
    node_with_top(alloc, operands, ValType::I32, instruction, drops)
}

/// Creates the node of `instruction`, which takes `operands` and then a `top`. Drops `drops` of its
/// results.
pub fn node_with_top(
    alloc: Global,
    operands: &[ValType],
    top: ValType,
    instruction: Instr,
    drops: usize,
) -> Result<Node, Error>
    ensures exact { IfOk result (λ node.
        node ≡ node_of (operands.now ++ top ∷ []) instruction drops) }
    ensures memory { IfErr result (λ e. e ≡ Error.Memory) }
{
    let mut operands = Items::from_slice(alloc, operands)?;
    operands.push(top)?;
    Ok(Node {
        operands,
        head: Head::Plain(instruction),
        sets: None,
        drops,
    })
}

/// Returns the node `chosen`, or that of `nop` if there is none.
pub fn or_nop(alloc: Global, chosen: Option<Node>) -> Result<Node, Error>
    ensures exact { IfOk result (λ node. node ≡ unwrap_or chosen (node_of [] instr.Nop 0)) }
    ensures memory { IfErr result (λ e. e ≡ Error.Memory) }
{
    match chosen {
        Some(node) => Ok(node),
        None => plain(alloc, &[], Instr::Nop, 0),
    }
}

/// Creates the node of `instruction`, which sets the local `index` of the type `value`.
pub fn setter(alloc: Global, index: u32, value: ValType, instruction: Instr) -> Result<Node, Error>
    ensures exact { IfOk result (λ node. node ≡ setting index value instruction) }
    ensures memory { IfErr result (λ e. e ≡ Error.Memory) }
{
    Ok(Node {
        operands: Items::from_slice(alloc, &[value])?,
        head: Head::Plain(instruction),
        sets: Some(index),
        drops: 0,
    })
}

/// Creates the node of a block of the type `ty`, from `params` to `results`. Drops `drops` of its
/// results. The block is an `if` with an `else` if `opening` is `None` or does not fit.
pub fn block(
    alloc: Global,
    opening: Option<Opening>,
    ty: BlockType,
    params: &[ValType],
    results: &[ValType],
    drops: usize,
) -> Result<Node, Error>
    ensures exact { IfOk result (λ node. node ≡ blocked opening ty params.now results.now drops) }
    ensures memory { IfErr result (λ e. e ≡ Error.Memory) }
{
    let sides = Sides {
        params: Items::from_slice(alloc, params)?,
        results: Items::from_slice(alloc, results)?,
    };
    let mut operands = Items::from_slice(alloc, params)?;
    let head = match fitting(opening, &sides) {
        Some(Opening::IfAlone) => {
            operands.push(ValType::I32)?;
            Head::Enclosed(Opening::IfAlone, ty, sides)
        }
        Some(opening) => Head::Enclosed(opening, ty, sides),
        None => {
            operands.push(ValType::I32)?;
            Head::If(ty, sides)
        }
    };
    Ok(Node {
        operands,
        head,
        sets: None,
        drops,
    })
}

/// Creates the node of a `try_table` of the type `ty`, from `params` to `results`, with `clauses`.
/// Drops `drops` of its results.
pub fn try_table(
    alloc: Global,
    ty: BlockType,
    clauses: Items<Catch>,
    params: &[ValType],
    results: &[ValType],
    drops: usize,
) -> Result<Node, Error>
    ensures exact { IfOk result (λ node. node ≡ trying ty clauses params.now results.now drops) }
    ensures memory { IfErr result (λ e. e ≡ Error.Memory) }
{
    let sides = Sides {
        params: Items::from_slice(alloc, params)?,
        results: Items::from_slice(alloc, results)?,
    };
    Ok(Node {
        operands: Items::from_slice(alloc, params)?,
        head: Head::Try(ty, clauses, sides),
        sets: None,
        drops,
    })
}

/// Returns `opening` if a block of `sides` may have it. An `if` without `else` requires results
/// equal to its parameters.
fn fitting(opening: Option<Opening>, sides: &Sides) -> Option<Opening>
    ensures { result ≡ fitting opening sides.now.params sides.now.results }
{
    match opening {
        Some(Opening::IfAlone) => {
            if sides.params == sides.results {
                return Some(Opening::IfAlone);
            }
            None
        }
        other => other,
    }
}

/// Returns whether the instructions of `node`, except its operands, are allowed in `scope`.
pub fn is_node_allowed(scope: &Scope<'_>, node: &Node) -> bool
    ensures exact { result
        ≡ is_node_allowed (features_in scope.now.features) scope.now.config.now node.now }
    ensures allowed { IsTrue result → IsNodeAllowed scope.now node.now }
{
    if !is_head_allowed(scope, &node.head) {
        return false;
    }
    node.drops == 0 || is_allowed(scope, &Instr::Drop)
}

fn is_head_allowed(scope: &Scope<'_>, head: &Head) -> bool
    ensures exact { result
        ≡ is_head_allowed (features_in scope.now.features) scope.now.config.now head.now }
    ensures allowed { IsTrue result → IsHeadAllowed scope.now head.now }
{
    match head {
        Head::Plain(instruction) => is_allowed(scope, instruction),
        Head::Enclosed(Opening::Block, ty, sides) => {
            is_block_allowed(scope, &Instr::Block(*ty), sides)
        }
        Head::Enclosed(Opening::Loop, ty, sides) => {
            is_block_allowed(scope, &Instr::Loop(*ty), sides)
        }
        Head::Enclosed(Opening::IfAlone, ty, sides) => {
            is_block_allowed(scope, &Instr::If(*ty), sides)
        }
        Head::If(ty, sides) => is_block_allowed(scope, &Instr::If(*ty), sides),
        Head::Try(ty, _, sides) => is_try_allowed(scope, *ty, sides),
    }
}

/// Returns whether a `try_table` of the type `ty` is allowed in `scope`: if `throw` and a `block`
/// of that type are.
fn is_try_allowed(scope: &Scope<'_>, ty: BlockType, sides: &Sides) -> bool
    ensures exact { (clauses : List Clause) → result ≡ (is_permitted
        (features_in scope.now.features) scope.now.config.now (instr.TryTable ty clauses)
        && is_drop_allowed (features_in scope.now.features) scope.now.config.now
        (length sides.now.params)) }
    ensures drops { IsTrue result → 0 < length sides.now.params → IsAllowedIn scope.now instr.Drop }
{
    if !is_allowed(scope, &Instr::Throw(0)) {
        return false;
    }
    is_block_allowed(scope, &Instr::Block(ty), sides)
}

fn is_block_allowed(scope: &Scope<'_>, opening: &Instr, sides: &Sides) -> bool
    ensures exact { result
        ≡ (is_permitted (features_in scope.now.features) scope.now.config.now opening.now
        && is_drop_allowed (features_in scope.now.features) scope.now.config.now
        (length sides.now.params)) }
    ensures opening { IsTrue result → IsAllowedIn scope.now opening.now }
    ensures drops { IsTrue result → 0 < length sides.now.params → IsAllowedIn scope.now instr.Drop }
{
    if !is_allowed(scope, opening) {
        return false;
    }
    sides.params.is_empty() || is_allowed(scope, &Instr::Drop)
}

/// Returns whether `instruction` may be chosen in `scope`: it is enabled, and with `disallow_traps`
/// it does not trap.
#[tactic(auto, unfolding(crate::specs::Scopes::is_permitted))]
pub fn is_allowed(scope: &Scope<'_>, instruction: &Instr) -> bool
    ensures exact { result
        ≡ is_permitted (features_in scope.now.features) scope.now.config.now instruction.now }
    ensures allowed { IsTrue result → IsAllowedIn scope.now instruction.now }
{
    if !instruction.is_enabled(scope.features, kinds_of_bodies(scope.config)) {
        return false;
    }
    !scope.config.disallow_traps || !may_trap(instruction)
}

/// Returns the kinds of instructions that bodies may have: those that `config` allows, without
/// those on floats unless it allows floats.
fn kinds_of_bodies(config: &Config) -> InstructionKinds
    ensures { result ≡ kinds_of_bodies config.now }
{
    if config.allow_floats {
        return config.allowed_instructions;
    }
    config.allowed_instructions.without_floats()
}
