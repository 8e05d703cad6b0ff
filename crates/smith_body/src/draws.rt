ghost use Rattle.std.specs.Prelude.{◌≡◌, ◌++◌, ◌+◌, ◌-◌, ◌<◌, ◌≤◌, [], ◌∷◌, All, List, length};
ghost use Rattle.std.specs.Prelude.{IfErr, IfOk, IsTrue, OnOk, option_to_list};
ghost use Rattle.smith_bytes.specs.Source.{KeepsPieces};
ghost use Rattle.smith_types.specs.Syntax.value_type.ValType.{ValType as Val};
ghost use Rattle.smith_types.specs.Syntax.value_type.ValType.TheVariants.{I32};
ghost use Rattle.smith_instr.specs.Contexts.{AreBelow, AreValid, IsBlockType, IsValid, address};
ghost use Rattle.smith_instr.specs.InstrTypes.{IsCatch};
ghost use Rattle.smith_instr.specs.declared.instr.Instr.TheVariants as instr;
ghost use Rattle.smith_body.specs.Bodies.{drawing_at, enclosed_at, head_at, inside_at, interval};
ghost use Rattle.smith_body.specs.Bodies.{limited_at, masked_at, near_at, node_at, operand_at};
ghost use Rattle.smith_body.specs.Bodies.{opened_at, operands_at, repeated_at, results_at};
ghost use Rattle.smith_body.specs.Bodies.{statement_at, tested_at, values_at, written};
ghost use Rattle.smith_body.specs.DraftSteps.{IsDrawn, state_of};
ghost use Rattle.smith_body.specs.Repeats.{IsRepeat};
ghost use Rattle.smith_body_nodes.specs.Nodes.{AreSidesValid, HasHeadType, IsHeadAllowed};
ghost use Rattle.smith_body_nodes.specs.Nodes.{IsHeadValid, IsNode, IsNodeAllowed, MayOpen};
ghost use Rattle.smith_body_nodes.specs.Nodes.{block_cost, head_instruction, head_sets, label_of};
ghost use Rattle.smith_body_nodes.specs.Nodes.{opened, taken_by};
ghost use Rattle.smith_body_nodes.specs.Scopes.{AreLabels, IsAllowedIn, IsScope, bare};
ghost use Rattle.smith_body_nodes.specs.Scopes.{where_stands, widest};
ghost use Rattle.smith_body_nodes.specs.Traps.{IsNoStop};

use crate::leaf::write_leaf;
use crate::left::spare_of;
use crate::limits::limit_at;
use crate::operands::{
    OperandWay, Place, address_constant, draw_number, mask_of, masking, operand_ways,
};
use crate::repeats::{Repeat, draw_repeat, write_count, write_down};
use crate::settled::settle_values;
use crate::writes::{drop_values, write_else, write_end, write_opening, write_plain};
use smith_body_choices::{choose_allowed, choose_ending, choose_statement};
use smith_body_nodes::{
    Draft, Head, Node, Opening, Scope, Sides, address, is_allowed, is_node_allowed,
};
use smith_bytes::{Error, Unstructured};
use smith_draw_types::choose;
use smith_instr::{BlockType, Catch, Instr};
use smith_types::{Items, ValType};
use std::alloc::Global;

/// Draws a value of the type `wanted` after the instructions of `draft`, at most `depth`
/// instructions deep.
#[cycle(body)]
fn draw_value(
    alloc: Global,
    scope: &Scope<'_>,
    wanted: ValType,
    depth: u32,
    draft: &mut Draft,
    u: &mut Unstructured<'_>,
) -> Result<(), Error>
    requires scope { IsScope (bare scope.now) }
    requires labels { AreLabels scope.now draft.old.labels.items }
    requires wanted { IsValid (bare scope.now) wanted }
    ensures exact { OnOk result
        ((drawing_at scope.now.config.now depth).value wanted (state_of scope.now draft.old u.old)
        ≡ state_of scope.now draft.new u.new) }
    ensures drawn { OnOk result (IsDrawn scope.now [] (wanted ∷ []) 1 draft.old draft.new) }
    ensures memory { IfErr result (λ e. e ≡ Error.Memory) }
    ensures left { KeepsPieces u.old u.new }
{
    if depth == 0 || draft.budget == 0 {
        return write_leaf(scope, wanted, draft, u);
    }
    let chosen = choose_allowed(alloc, scope, wanted, draft, u)?;
    match chosen {
        Some(node) => draw_node(alloc, scope, node, depth - 1, draft, u),
        None => write_leaf(scope, wanted, draft, u),
    }
}

/// Draws the operands of `node`, then its other instructions. Takes one unit of the budget.
#[cycle(body)]
fn draw_node(
    alloc: Global,
    scope: &Scope<'_>,
    node: Node,
    depth: u32,
    draft: &mut Draft,
    u: &mut Unstructured<'_>,
) -> Result<(), Error>
    requires scope { IsScope (bare scope.now) }
    requires labels { AreLabels scope.now draft.old.labels.items }
    requires valid { AreValid (bare scope.now) node.operands }
    requires inside { IsHeadValid (bare scope.now).features (bare scope.now).types node.head }
    requires allowed { IsNodeAllowed scope.now node }
    requires paid { 0 < draft.old.budget }
    ensures exact { OnOk result
        (node_at scope.now.config.now (drawing_at scope.now.config.now depth) node (state_of scope.now draft.old u.old)
        ≡ state_of scope.now draft.new u.new) }
    ensures drawn { (values : List Val)
        → IsNode (where_stands scope.now draft.old) draft.old.set.items values node
        → IsNoStop scope.now.config.now (head_instruction node.head)
        → OnOk result (IsDrawn scope.now [] values 0 draft.old draft.new) }
    ensures less { OnOk result (draft.new.budget < draft.old.budget) }
    ensures memory { IfErr result (λ e. e ≡ Error.Memory) }
    ensures left { KeepsPieces u.old u.new }
{
    draft.budget -= 1;
    let spare = spare_of(alloc, scope, &node, draft)?;
    let Node {
        operands,
        head,
        sets,
        drops,
    } = node;
    draw_operands(alloc, scope, &head, operands.as_slice(), depth, draft, u)?;
    draw_head(alloc, scope, head, sets, depth, draft, u)?;
    settle_values(scope, spare.as_slice(), draft, u)?;
    drop_values(drops.saturating_sub(spare.len()), draft)
}

/// Draws the operands of `head`, in order.
#[cycle(body)]
fn draw_operands(
    alloc: Global,
    scope: &Scope<'_>,
    head: &Head,
    operands: &[ValType],
    depth: u32,
    draft: &mut Draft,
    u: &mut Unstructured<'_>,
) -> Result<(), Error>
    requires scope { IsScope (bare scope.now) }
    requires labels { AreLabels scope.now draft.old.labels.items }
    requires valid { AreValid (bare scope.now) operands.now }
    ensures exact { OnOk result (operands_at scope.now.config.now
        (drawing_at scope.now.config.now depth) head.now operands.now
        (state_of scope.now draft.old u.old) ≡ state_of scope.now draft.new u.new) }
    ensures drawn { OnOk result
        (IsDrawn scope.now [] operands.now (length operands.now) draft.old draft.new) }
    ensures memory { IfErr result (λ e. e ≡ Error.Memory) }
    ensures left { KeepsPieces u.old u.new }
{
    for place in 0..operands.len() {
        let limit = limit_at(scope, head, operands.len() - 1 - place);
        draw_operand(alloc, scope, operands[place], limit, depth, draft, u)?;
    }
    Ok(())
}

/// Draws an operand of the type `wanted`. If there is a `limit`, most operands are below it.
#[cycle(body)]
fn draw_operand(
    alloc: Global,
    scope: &Scope<'_>,
    wanted: ValType,
    limit: Option<u64>,
    depth: u32,
    draft: &mut Draft,
    u: &mut Unstructured<'_>,
) -> Result<(), Error>
    requires scope { IsScope (bare scope.now) }
    requires labels { AreLabels scope.now draft.old.labels.items }
    requires wanted { IsValid (bare scope.now) wanted }
    ensures exact { OnOk result (operand_at scope.now.config.now
        (drawing_at scope.now.config.now depth) limit wanted (state_of scope.now draft.old u.old)
        ≡ state_of scope.now draft.new u.new) }
    ensures drawn { OnOk result (IsDrawn scope.now [] (wanted ∷ []) 1 draft.old draft.new) }
    ensures memory { IfErr result (λ e. e ≡ Error.Memory) }
    ensures left { KeepsPieces u.old u.new }
{
    let Some(limit) = limit else {
        return draw_value(alloc, scope, wanted, depth, draft, u);
    };
    match wanted {
        ValType::I32 => draw_limited(alloc, scope, false, limit, depth, draft, u),
        ValType::I64 => draw_limited(alloc, scope, true, limit, depth, draft, u),
        _ => draw_value(alloc, scope, wanted, depth, draft, u),
    }
}

/// Draws an address, an index or a length: of 64 bits if `wide` is set, else of 32 bits. Most are
/// below `limit`.
#[cycle(body)]
fn draw_limited(
    alloc: Global,
    scope: &Scope<'_>,
    wide: bool,
    limit: u64,
    depth: u32,
    draft: &mut Draft,
    u: &mut Unstructured<'_>,
) -> Result<(), Error>
    requires scope { IsScope (bare scope.now) }
    requires labels { AreLabels scope.now draft.old.labels.items }
    ensures exact { OnOk result (limited_at scope.now.config.now
        (drawing_at scope.now.config.now depth) wide limit (state_of scope.now draft.old u.old)
        ≡ state_of scope.now draft.new u.new) }
    ensures drawn { OnOk result (IsDrawn scope.now [] (address wide ∷ []) 1 draft.old draft.new) }
    ensures memory { IfErr result (λ e. e ≡ Error.Memory) }
    ensures left { KeepsPieces u.old u.new }
{
    match choose(operand_ways(), u) {
        OperandWay::Constant(place) => {
            draw_near(alloc, scope, wide, place, limit, depth, draft, u)
        }
        OperandWay::Masked => draw_masked(alloc, scope, wide, limit, depth, draft, u),
        OperandWay::Unlimited => draw_value(alloc, scope, address(wide), depth, draft, u),
    }
}

/// Draws a constant at a `place` below `limit` or next to it, or any value if the constant isn't
/// allowed.
#[cycle(body)]
fn draw_near(
    alloc: Global,
    scope: &Scope<'_>,
    wide: bool,
    place: Place,
    limit: u64,
    depth: u32,
    draft: &mut Draft,
    u: &mut Unstructured<'_>,
) -> Result<(), Error>
    requires scope { IsScope (bare scope.now) }
    requires labels { AreLabels scope.now draft.old.labels.items }
    ensures exact { OnOk result (near_at scope.now.config.now
        (drawing_at scope.now.config.now depth) wide place limit
        (state_of scope.now draft.old u.old) ≡ state_of scope.now draft.new u.new) }
    ensures drawn { OnOk result (IsDrawn scope.now [] (address wide ∷ []) 1 draft.old draft.new) }
    ensures memory { IfErr result (λ e. e ≡ Error.Memory) }
    ensures left { KeepsPieces u.old u.new }
{
    let number = draw_number(place, limit, u);
    let constant = address_constant(wide, number);
    if !is_allowed(scope, &constant) {
        return draw_value(alloc, scope, address(wide), depth, draft, u);
    }
    write_plain(constant, None, draft)
}

/// Draws a value and clears its upper bits, so that it is below `limit`. Takes one unit of the
/// budget. Without a budget, or if the instructions aren't allowed, draws any value.
#[cycle(body)]
fn draw_masked(
    alloc: Global,
    scope: &Scope<'_>,
    wide: bool,
    limit: u64,
    depth: u32,
    draft: &mut Draft,
    u: &mut Unstructured<'_>,
) -> Result<(), Error>
    requires scope { IsScope (bare scope.now) }
    requires labels { AreLabels scope.now draft.old.labels.items }
    ensures exact { OnOk result (masked_at scope.now.config.now
        (drawing_at scope.now.config.now depth) wide limit (state_of scope.now draft.old u.old)
        ≡ state_of scope.now draft.new u.new) }
    ensures drawn { OnOk result (IsDrawn scope.now [] (address wide ∷ []) 1 draft.old draft.new) }
    ensures memory { IfErr result (λ e. e ≡ Error.Memory) }
    ensures left { KeepsPieces u.old u.new }
{
    let mask = address_constant(wide, mask_of(limit));
    let both = masking(wide);
    if draft.budget == 0 || !is_allowed(scope, &mask) || !is_allowed(scope, &both) {
        return draw_value(alloc, scope, address(wide), depth, draft, u);
    }
    draft.budget = draft.budget.saturating_sub(1);
    draw_value(alloc, scope, address(wide), depth, draft, u)?;
    write_plain(mask, None, draft)?;
    write_plain(both, None, draft)
}

/// Draws the instructions after operands, and marks the local `sets` as set.
#[cycle(body)]
fn draw_head(
    alloc: Global,
    scope: &Scope<'_>,
    head: Head,
    sets: Option<u32>,
    depth: u32,
    draft: &mut Draft,
    u: &mut Unstructured<'_>,
) -> Result<(), Error>
    requires scope { IsScope (bare scope.now) }
    requires labels { AreLabels scope.now draft.old.labels.items }
    requires inside { IsHeadValid (bare scope.now).features (bare scope.now).types head }
    requires allowed { IsHeadAllowed scope.now head }
    ensures exact { OnOk result
        (head_at scope.now.config.now (drawing_at scope.now.config.now depth) head sets
        (state_of scope.now draft.old u.old) ≡ state_of scope.now draft.new u.new) }
    ensures drawn { (operands given values : List Val)
        → HasHeadType (where_stands scope.now draft.old) draft.old.set.items head operands given
        → AreBelow (bare scope.now) given values → AreValid (bare scope.now) values
        → IsNoStop scope.now.config.now (head_instruction head)
        → head_sets head ≡ option_to_list sets → OnOk result (IsDrawn scope.now operands values
        (block_cost scope.now.types.now.types) draft.old draft.new) }
    ensures less { OnOk result (draft.new.budget ≤ draft.old.budget) }
    ensures memory { IfErr result (λ e. e ≡ Error.Memory) }
    ensures left { KeepsPieces u.old u.new }
{
    match head {
        Head::Plain(instruction) => write_plain(instruction, sets, draft),
        Head::Enclosed(opening, ty, sides) => {
            draw_opened(alloc, scope, opening, ty, &sides, depth, draft, u)
        }
        Head::If(ty, sides) => draw_if(alloc, scope, ty, &sides, depth, draft, u),
        Head::Try(ty, clauses, sides) => {
            draw_try(alloc, scope, ty, clauses, &sides, depth, draft, u)
        }
    }
}

/// Draws a block, a loop or an `if` without `else`, whose type has `sides`. Most loops without
/// parameters go back to their start.
#[cycle(body)]
fn draw_opened(
    alloc: Global,
    scope: &Scope<'_>,
    opening: Opening,
    ty: BlockType,
    sides: &Sides,
    depth: u32,
    draft: &mut Draft,
    u: &mut Unstructured<'_>,
) -> Result<(), Error>
    requires scope { IsScope (bare scope.now) }
    requires labels { AreLabels scope.now draft.old.labels.items }
    requires sides { AreSidesValid (bare scope.now).features (bare scope.now).types sides.now }
    requires allowed { IsAllowedIn scope.now (opened opening ty) }
    requires drops { 0 < length sides.now.params → IsAllowedIn scope.now instr.Drop }
    ensures exact { OnOk result (opened_at scope.now.config.now
        (drawing_at scope.now.config.now depth) opening ty sides.now
        (state_of scope.now draft.old u.old) ≡ state_of scope.now draft.new u.new) }
    ensures drawn { (values : List Val)
        → IsBlockType (bare scope.now) ty sides.now.params sides.now.results
        → MayOpen opening sides.now.params sides.now.results
        → AreBelow (bare scope.now) sides.now.results values → AreValid (bare scope.now) values
        → OnOk result (IsDrawn scope.now (taken_by opening sides.now.params) values
        (block_cost scope.now.types.now.types) draft.old draft.new) }
    ensures less { OnOk result (draft.new.budget ≤ draft.old.budget) }
    ensures memory { IfErr result (λ e. e ≡ Error.Memory) }
    ensures left { KeepsPieces u.old u.new }
{
    match draw_repeat(scope, opening, sides, draft, u) {
        Some(repeat) => {
            draw_repeated(
                alloc,
                scope,
                repeat,
                ty,
                sides.results.as_slice(),
                depth,
                draft,
                u,
            )
        }
        None => draw_enclosed(alloc, scope, opening, ty, sides, depth, draft, u),
    }
}

/// Draws a block, a loop or an `if` without `else`, in which instructions are drawn once.
#[cycle(body)]
fn draw_enclosed(
    alloc: Global,
    scope: &Scope<'_>,
    opening: Opening,
    ty: BlockType,
    sides: &Sides,
    depth: u32,
    draft: &mut Draft,
    u: &mut Unstructured<'_>,
) -> Result<(), Error>
    requires scope { IsScope (bare scope.now) }
    requires labels { AreLabels scope.now draft.old.labels.items }
    requires sides { AreSidesValid (bare scope.now).features (bare scope.now).types sides.now }
    requires allowed { IsAllowedIn scope.now (opened opening ty) }
    requires drops { 0 < length sides.now.params → IsAllowedIn scope.now instr.Drop }
    ensures exact { OnOk result
        (written instr.End (enclosed_at scope.now.config.now (drawing_at scope.now.config.now depth)
        (label_of opening sides.now.params sides.now.results) sides.now
        (written (opened opening ty) (state_of scope.now draft.old u.old)))
        ≡ state_of scope.now draft.new u.new) }
    ensures drawn { (values : List Val)
        → IsBlockType (bare scope.now) ty sides.now.params sides.now.results
        → MayOpen opening sides.now.params sides.now.results
        → AreBelow (bare scope.now) sides.now.results values → AreValid (bare scope.now) values
        → OnOk result (IsDrawn scope.now (taken_by opening sides.now.params) values
        (block_cost scope.now.types.now.types) draft.old draft.new) }
    ensures less { OnOk result (draft.new.budget ≤ draft.old.budget) }
    ensures memory { IfErr result (λ e. e ≡ Error.Memory) }
    ensures left { KeepsPieces u.old u.new }
{
    let height = draft.set.len();
    let label = label_of(opening, sides);
    write_opening(alloc, opening_instr(opening, ty), label, draft)?;
    draw_inside(alloc, scope, sides, depth, draft, u)?;
    write_end(height, draft)
}

/// Draws a loop without parameters that goes back to its start. Takes one unit of the budget.
#[cycle(body)]
fn draw_repeated(
    alloc: Global,
    scope: &Scope<'_>,
    repeat: Repeat,
    ty: BlockType,
    results: &[ValType],
    depth: u32,
    draft: &mut Draft,
    u: &mut Unstructured<'_>,
) -> Result<(), Error>
    requires scope { IsScope (bare scope.now) }
    requires labels { AreLabels scope.now draft.old.labels.items }
    requires valid { AreValid (bare scope.now) results.now }
    requires few { length results.now ≤ widest scope.now.types.now.types }
    requires allowed { IsAllowedIn scope.now (instr.Loop ty) }
    requires counts { IsRepeat scope.now repeat }
    requires paid { 0 < draft.old.budget }
    ensures exact { OnOk result
        (repeated_at (drawing_at scope.now.config.now depth) repeat ty results.now
        (state_of scope.now draft.old u.old) ≡ state_of scope.now draft.new u.new) }
    ensures drawn { (values : List Val) → IsBlockType (bare scope.now) ty [] results.now
        → AreBelow (bare scope.now) results.now values → AreValid (bare scope.now) values
        → OnOk result (IsDrawn scope.now [] values 0 draft.old draft.new) }
    ensures less { OnOk result (draft.new.budget ≤ draft.old.budget) }
    ensures memory { IfErr result (λ e. e ≡ Error.Memory) }
    ensures left { KeepsPieces u.old u.new }
{
    draft.budget = draft.budget.saturating_sub(1);
    write_count(repeat, draft)?;
    let height = draft.set.len();
    write_opening(alloc, Instr::Loop(ty), &[], draft)?;
    draw_statements(alloc, scope, depth, draft, u)?;
    draw_tested(alloc, scope, repeat, depth, draft, u)?;
    write_plain(Instr::BrIf(0), None, draft)?;
    draw_values(alloc, scope, results, depth, draft, u)?;
    write_end(height, draft)
}

/// Draws the number that is tested at the end of a loop.
#[cycle(body)]
fn draw_tested(
    alloc: Global,
    scope: &Scope<'_>,
    repeat: Repeat,
    depth: u32,
    draft: &mut Draft,
    u: &mut Unstructured<'_>,
) -> Result<(), Error>
    requires scope { IsScope (bare scope.now) }
    requires labels { AreLabels scope.now draft.old.labels.items }
    requires counts { IsRepeat scope.now repeat }
    ensures exact { OnOk result (tested_at (drawing_at scope.now.config.now depth) repeat
        (state_of scope.now draft.old u.old) ≡ state_of scope.now draft.new u.new) }
    ensures drawn { OnOk result (IsDrawn scope.now [] (I32 ∷ []) 4 draft.old draft.new) }
    ensures memory { IfErr result (λ e. e ≡ Error.Memory) }
    ensures left { KeepsPieces u.old u.new }
{
    match repeat {
        Repeat::Counted { local, .. } => write_down(local, draft),
        Repeat::Tested => draw_value(alloc, scope, ValType::I32, depth, draft, u),
    }
}

fn opening_instr(opening: Opening, ty: BlockType) -> Instr
    ensures { result ≡ opened opening ty }
{
    match opening {
        Opening::Block => Instr::Block(ty),
        Opening::Loop => Instr::Loop(ty),
        Opening::IfAlone => Instr::If(ty),
    }
}

fn label_of<'a>(opening: Opening, sides: &'a Sides) -> &'a [ValType]
    ensures { result.now ≡ label_of opening sides.now.params sides.now.results }
{
    match opening {
        Opening::Block | Opening::IfAlone => sides.results.as_slice(),
        Opening::Loop => sides.params.as_slice(),
    }
}

/// Draws an `if` with its `else`, whose type has `sides`.
#[cycle(body)]
fn draw_if(
    alloc: Global,
    scope: &Scope<'_>,
    ty: BlockType,
    sides: &Sides,
    depth: u32,
    draft: &mut Draft,
    u: &mut Unstructured<'_>,
) -> Result<(), Error>
    requires scope { IsScope (bare scope.now) }
    requires labels { AreLabels scope.now draft.old.labels.items }
    requires sides { AreSidesValid (bare scope.now).features (bare scope.now).types sides.now }
    requires allowed { IsAllowedIn scope.now (instr.If ty) }
    requires drops { 0 < length sides.now.params → IsAllowedIn scope.now instr.Drop }
    ensures exact { OnOk result
        (written instr.End (enclosed_at scope.now.config.now (drawing_at scope.now.config.now depth) sides.now.results
        sides.now (written instr.Else (enclosed_at scope.now.config.now (drawing_at scope.now.config.now depth)
        sides.now.results sides.now (written (instr.If ty) (state_of scope.now draft.old u.old)))))
        ≡ state_of scope.now draft.new u.new) }
    ensures drawn { (values : List Val)
        → IsBlockType (bare scope.now) ty sides.now.params sides.now.results
        → AreBelow (bare scope.now) sides.now.results values → AreValid (bare scope.now) values
        → OnOk result (IsDrawn scope.now (sides.now.params ++ I32 ∷ []) values
        (block_cost scope.now.types.now.types) draft.old draft.new) }
    ensures less { OnOk result (draft.new.budget ≤ draft.old.budget) }
    ensures memory { IfErr result (λ e. e ≡ Error.Memory) }
    ensures left { KeepsPieces u.old u.new }
{
    let height = draft.set.len();
    write_opening(alloc, Instr::If(ty), sides.results.as_slice(), draft)?;
    draw_inside(alloc, scope, sides, depth, draft, u)?;
    write_else(height, draft)?;
    draw_inside(alloc, scope, sides, depth, draft, u)?;
    write_end(height, draft)
}

/// Draws a `try_table` with `clauses`, whose type has `sides`.
#[cycle(body)]
fn draw_try(
    alloc: Global,
    scope: &Scope<'_>,
    ty: BlockType,
    clauses: Items<Catch>,
    sides: &Sides,
    depth: u32,
    draft: &mut Draft,
    u: &mut Unstructured<'_>,
) -> Result<(), Error>
    requires scope { IsScope (bare scope.now) }
    requires labels { AreLabels scope.now draft.old.labels.items }
    requires sides { AreSidesValid (bare scope.now).features (bare scope.now).types sides.now }
    requires allowed { IsAllowedIn scope.now (instr.TryTable ty clauses) }
    requires drops { 0 < length sides.now.params → IsAllowedIn scope.now instr.Drop }
    ensures exact { OnOk result
        (written instr.End (enclosed_at scope.now.config.now (drawing_at scope.now.config.now depth) sides.now.results
        sides.now (written (instr.TryTable ty clauses) (state_of scope.now draft.old u.old)))
        ≡ state_of scope.now draft.new u.new) }
    ensures drawn { (values : List Val)
        → IsBlockType (bare scope.now) ty sides.now.params sides.now.results
        → All (IsCatch (where_stands scope.now draft.old)) clauses
        → AreBelow (bare scope.now) sides.now.results values → AreValid (bare scope.now) values
        → OnOk result (IsDrawn scope.now sides.now.params values
        (block_cost scope.now.types.now.types) draft.old draft.new) }
    ensures less { OnOk result (draft.new.budget ≤ draft.old.budget) }
    ensures memory { IfErr result (λ e. e ≡ Error.Memory) }
    ensures left { KeepsPieces u.old u.new }
{
    let height = draft.set.len();
    let opening = Instr::TryTable(ty, clauses);
    write_opening(alloc, opening, sides.results.as_slice(), draft)?;
    draw_inside(alloc, scope, sides, depth, draft, u)?;
    write_end(height, draft)
}

/// Draws the instructions inside a block, from its parameters to its results.
#[cycle(body)]
fn draw_inside(
    alloc: Global,
    scope: &Scope<'_>,
    sides: &Sides,
    depth: u32,
    draft: &mut Draft,
    u: &mut Unstructured<'_>,
) -> Result<(), Error>
    requires scope { IsScope (bare scope.now) }
    requires labels { AreLabels scope.now draft.old.labels.items }
    requires params { AreValid (bare scope.now) sides.now.params }
    requires results { AreValid (bare scope.now) sides.now.results }
    requires drops { 0 < length sides.now.params → IsAllowedIn scope.now instr.Drop }
    ensures exact { OnOk result (inside_at scope.now.config.now (drawing_at scope.now.config.now depth) sides.now
        (state_of scope.now draft.old u.old) ≡ state_of scope.now draft.new u.new) }
    ensures drawn { OnOk result (IsDrawn scope.now sides.now.params sides.now.results
        (length sides.now.params + length sides.now.results) draft.old draft.new) }
    ensures memory { IfErr result (λ e. e ≡ Error.Memory) }
    ensures left { KeepsPieces u.old u.new }
{
    settle_values(scope, sides.params.as_slice(), draft, u)?;
    draw_results(alloc, scope, sides.results.as_slice(), depth, draft, u)
}

/// Draws statements and the results of a block, or seldom an instruction after which no code is
/// reached. One of eight times, more statements and the results follow that instruction.
#[cycle(body)]
pub(crate) fn draw_results(
    alloc: Global,
    scope: &Scope<'_>,
    wanted: &[ValType],
    depth: u32,
    draft: &mut Draft,
    u: &mut Unstructured<'_>,
) -> Result<(), Error>
    requires scope { IsScope (bare scope.now) }
    requires labels { AreLabels scope.now draft.old.labels.items }
    requires valid { AreValid (bare scope.now) wanted.now }
    ensures exact { OnOk result (results_at (drawing_at scope.now.config.now depth) wanted.now
        (state_of scope.now draft.old u.old) ≡ state_of scope.now draft.new u.new) }
    ensures drawn { OnOk result
        (IsDrawn scope.now [] wanted.now (length wanted.now) draft.old draft.new) }
    ensures memory { IfErr result (λ e. e ≡ Error.Memory) }
    ensures left { KeepsPieces u.old u.new }
{
    let ends = draw_statements(alloc, scope, depth, draft, u)?;
    if !ends {
        return draw_values(alloc, scope, wanted, depth, draft, u);
    }
    let ended = draw_ending(alloc, scope, depth, draft, u)?;
    if !ended {
        return draw_values(alloc, scope, wanted, depth, draft, u);
    }
    let number = u.int_in_range(0..=7u8);
    if number < 7 {
        return Ok(());
    }
    let _ends = draw_statements(alloc, scope, depth, draft, u)?;
    draw_values(alloc, scope, wanted, depth, draft, u)
}

/// Draws an instruction after which no code is reached, at most `depth` instructions deep. It may
/// come in place of any values. Returns whether one was drawn.
#[cycle(body)]
fn draw_ending(
    alloc: Global,
    scope: &Scope<'_>,
    depth: u32,
    draft: &mut Draft,
    u: &mut Unstructured<'_>,
) -> Result<bool, Error>
    requires scope { IsScope (bare scope.now) }
    requires labels { AreLabels scope.now draft.old.labels.items }
    requires deep { 0 < depth }
    requires paid { 0 < draft.old.budget }
    ensures exact { IfOk result (λ ended. (drawing_at scope.now.config.now depth).ending
        (state_of scope.now draft.old u.old) ≡ (ended, state_of scope.now draft.new u.new)) }
    ensures drawn { OnOk result (IsDrawn scope.now [] [] 0 draft.old draft.new) }
    ensures any { (values : List Val) → AreValid (bare scope.now) values
        → IfOk result (λ ended. IsTrue ended
        → IsDrawn scope.now [] values 0 draft.old draft.new) }
    ensures memory { IfErr result (λ e. e ≡ Error.Memory) }
    ensures left { KeepsPieces u.old u.new }
{
    let chosen = choose_ending(alloc, scope, draft, u)?;
    let Some(node) = chosen else {
        return Ok(false);
    };
    if !is_node_allowed(scope, &node) {
        return Ok(false);
    }
    draw_node(alloc, scope, node, depth - 1, draft, u)?;
    Ok(true)
}

/// Draws values of the types `wanted`, in order.
#[cycle(body)]
fn draw_values(
    alloc: Global,
    scope: &Scope<'_>,
    wanted: &[ValType],
    depth: u32,
    draft: &mut Draft,
    u: &mut Unstructured<'_>,
) -> Result<(), Error>
    requires scope { IsScope (bare scope.now) }
    requires labels { AreLabels scope.now draft.old.labels.items }
    requires valid { AreValid (bare scope.now) wanted.now }
    ensures exact { OnOk result (values_at (drawing_at scope.now.config.now depth) wanted.now
        (state_of scope.now draft.old u.old) ≡ state_of scope.now draft.new u.new) }
    ensures drawn { OnOk result
        (IsDrawn scope.now [] wanted.now (length wanted.now) draft.old draft.new) }
    ensures memory { IfErr result (λ e. e ≡ Error.Memory) }
    ensures left { KeepsPieces u.old u.new }
{
    for value in wanted {
        draw_value(alloc, scope, *value, depth, draft, u)?;
    }
    Ok(())
}

/// Draws instructions that leave the stack unchanged, at most `depth` instructions deep. A choice
/// that is not allowed takes one unit of the budget and adds no instruction.
#[cycle(body)]
fn draw_statement(
    alloc: Global,
    scope: &Scope<'_>,
    depth: u32,
    draft: &mut Draft,
    u: &mut Unstructured<'_>,
) -> Result<(), Error>
    requires scope { IsScope (bare scope.now) }
    requires labels { AreLabels scope.now draft.old.labels.items }
    requires deep { 0 < depth }
    requires paid { 0 < draft.old.budget }
    ensures exact { OnOk result (statement_at scope.now.config.now
        (drawing_at scope.now.config.now (depth - 1)) (state_of scope.now draft.old u.old)
        ≡ state_of scope.now draft.new u.new) }
    ensures drawn { OnOk result (IsDrawn scope.now [] [] 0 draft.old draft.new) }
    ensures less { OnOk result (draft.new.budget < draft.old.budget) }
    ensures memory { IfErr result (λ e. e ≡ Error.Memory) }
    ensures left { KeepsPieces u.old u.new }
{
    let node = choose_statement(alloc, scope, draft, u)?;
    if !is_node_allowed(scope, &node) {
        draft.budget = draft.budget.saturating_sub(1);
        return Ok(());
    }
    draw_node(alloc, scope, node, depth - 1, draft, u)
}

/// Draws instructions that leave the stack unchanged, until the budget is spent or a number drawn
/// from 0 to 255 is a multiple of [`interval`]. Returns whether it is 248 or more.
#[cycle(body)]
fn draw_statements(
    alloc: Global,
    scope: &Scope<'_>,
    depth: u32,
    draft: &mut Draft,
    u: &mut Unstructured<'_>,
) -> Result<bool, Error>
    requires scope { IsScope (bare scope.now) }
    requires labels { AreLabels scope.now draft.old.labels.items }
    ensures exact { IfOk result (λ ends. (drawing_at scope.now.config.now depth).statements
        (state_of scope.now draft.old u.old) ≡ (ends, state_of scope.now draft.new u.new)) }
    ensures drawn { OnOk result (IsDrawn scope.now [] [] 0 draft.old draft.new) }
    ensures deep { IfOk result (λ ends. IsTrue ends → 0 < depth) }
    ensures paid { IfOk result (λ ends. IsTrue ends → 0 < draft.new.budget) }
    ensures memory { IfErr result (λ e. e ≡ Error.Memory) }
    ensures left { KeepsPieces u.old u.new }
{
    if depth == 0 {
        return Ok(false);
    }
    while draft.budget > 0 {
        let number = u.int_in_range(0..=255usize);
        if number % interval(draft) == 0 {
            return Ok(number >= 248);
        }
        draw_statement(alloc, scope, depth, draft, u)?;
    }
    Ok(false)
}

/// Returns about how many statements a draw goes on for: the more, the more of the budget is left,
/// and inside a block about a third of it.
#[tactic(auto, unfolding(crate::specs::Bodies::interval))]
fn interval(draft: &Draft) -> usize
    ensures exact { result ≡ interval (length draft.now.labels.items) draft.now.budget }
    ensures some { 0 < result }
{
    if draft.labels.len() == 1 {
        return 4 + draft.budget / 4;
    }
    4 + draft.budget / 3
}
