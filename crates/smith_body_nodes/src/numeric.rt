ghost use Rattle.std.specs.Prelude.{◌≡◌, ◌-◌, ℕ, List, length, [], ◌∷◌, IfOk, IfErr, IsTrue, ◌<◌};
ghost use Rattle.smith_bytes.specs.Source.{KeepsPieces};
ghost use Rattle.smith_instr.specs.Contexts.{BodyContext, IsValid};
ghost use Rattle.smith_instr.specs.InstrTypes.{IsNumberOrVector};
ghost use Rattle.smith_body_nodes.specs.NumericChoices.{is_numeric, numeric_at, select_node};
ghost use Rattle.smith_body_nodes.specs.Nodes.{IsOffer};
ghost use Rattle.smith_body_nodes.specs.NumericRows.{numeric_rows};

use crate::node::{Node, plain};
use crate::numeric_rows::numeric_rows;
use smith_bytes::{Error, Unstructured};
use smith_instr::{Instr, NumericInstr};
use smith_types::ValType;
use std::alloc::Global;

/// Chooses a numeric instruction whose first result has the type `wanted`, if there is one.
pub fn choose_numeric(
    alloc: Global,
    wanted: ValType,
    u: &mut Unstructured<'_>,
) -> Result<Option<Node>, Error>
    ensures exact { IfOk result (λ chosen. numeric_at wanted u.old ≡ (chosen, u.new)) }
    ensures offer { (context : BodyContext) (set : List ℕ)
        → IsOffer context set (wanted ∷ []) result }
    ensures memory { IfErr result (λ e. e ≡ Error.Memory) }
    ensures left { KeepsPieces u.old u.new }
{
    choose_row(alloc, numeric_rows(wanted), wanted, u)
}

fn choose_row(
    alloc: Global,
    rows: &[NumericInstr],
    wanted: ValType,
    u: &mut Unstructured<'_>,
) -> Result<Option<Node>, Error>
    requires rows { rows.now ≡ numeric_rows wanted }
    ensures exact { IfOk result (λ chosen. numeric_at wanted u.old ≡ (chosen, u.new)) }
    ensures offer { (context : BodyContext) (set : List ℕ)
        → IsOffer context set (wanted ∷ []) result }
    ensures memory { IfErr result (λ e. e ≡ Error.Memory) }
    ensures left { KeepsPieces u.old u.new }
{
    if rows.len() == 0 {
        return Ok(None);
    }
    let op = rows[u.int_in_range(0..=rows.len() - 1)];
    let drops = op.results().len().saturating_sub(1);
    let node = plain(alloc, op.operands(), Instr::Numeric(op), drops)?;
    Ok(Some(node))
}

/// Chooses `select`, if `wanted` is a number or vector type.
pub fn choose_select(alloc: Global, wanted: ValType) -> Result<Option<Node>, Error>
    ensures exact { IfOk result (λ chosen. chosen ≡ select_node wanted) }
    ensures offer { (context : BodyContext) (set : List ℕ) → IsValid context wanted
        → IsOffer context set (wanted ∷ []) result }
    ensures memory { IfErr result (λ e. e ≡ Error.Memory) }
{
    if !is_numeric(wanted) {
        return Ok(None);
    }
    let node = plain(alloc, &[wanted, wanted, ValType::I32], Instr::Select, 0)?;
    Ok(Some(node))
}

fn is_numeric(value: ValType) -> bool
    ensures exact { result ≡ is_numeric value }
    ensures numeric { IsTrue result → IsNumberOrVector value }
{
    match value {
        ValType::Ref(_) => false,
        _ => true,
    }
}
