ghost use Rattle.std.specs.Prelude.{None, ◌≡◌, ◌≤◌, ◌<◌, ◌⊎◌, ◌++◌, ◌+◌, [], ◌∷◌, IsTrue, IfOk};
ghost use Rattle.std.specs.Prelude.{IfErr, OnOk, length, reverse, List};
ghost use Rattle.smith_types.specs.Syntax.const_instr.ConstInstr.{ConstInstr};
ghost use Rattle.smith_bytes.specs.Source.{KeepsPieces};
ghost use Rattle.smith_types.specs.Expressions.{Context};
ghost use Rattle.smith_types.specs.Syntax.value_type.ValType.TheVariants.{I32, I64};
ghost use Rattle.smith_draw_types.specs.Drawing.{AlwaysDraws};
ghost use Rattle.smith_draw_consts.specs.Constants.{is_wide, operation, operator_of, operator_at};
ghost use Rattle.smith_draw_consts.specs.Constants.{extended_at};
ghost use Rattle.smith_draw_consts.specs.Putting.{Adds, Puts};

use crate::constant::draw_constant;
use smith_bytes::{Error, Unstructured};
use smith_types::{ConstInstr, Items, ValType};
use std::alloc::Global;

/// An operator of an extended constant.
#[derive(Clone, Copy)]
pub(crate) enum Operator {
    Add,
    Sub,
    Mul,
}

/// Returns the instruction of `operator`, for i64 if `wide` is `true`, otherwise for i32.
fn operation(wide: bool, operator: Operator) -> ConstInstr
    ensures { result ≡ operation wide operator }
{
    match (operator, wide) {
        (Operator::Add, false) => ConstInstr::I32Add,
        (Operator::Add, true) => ConstInstr::I64Add,
        (Operator::Sub, false) => ConstInstr::I32Sub,
        (Operator::Sub, true) => ConstInstr::I64Sub,
        (Operator::Mul, false) => ConstInstr::I32Mul,
        (Operator::Mul, true) => ConstInstr::I64Mul,
    }
}

fn operator_of(number: u8) -> Option<Operator>
    ensures { result ≡ operator_of number }
{
    match number {
        0 => None,
        1 => Some(Operator::Add),
        2 => Some(Operator::Sub),
        _ => Some(Operator::Mul),
    }
}

/// Draws the operator to put before `count` instructions, or `None` to put a constant there.
#[tactic(auto, unfolding(crate::specs::Constants::operator_at))]
fn draw_operator(count: usize, u: &mut Unstructured<'_>) -> Option<Operator>
    ensures draws { AlwaysDraws (operator_at count u.old) result u.old u.new }
    ensures few { 10 < count → result ≡ None }
{
    if u.is_empty() || count > 10 {
        return None;
    }
    operator_of(u.int_in_range(0..=3))
}

/// Draws the instructions of an extended constant of the type `wanted`, from the last to the first.
#[tactic(auto, unfolding(crate::specs::Constants::extended_at))]
fn draw_extended(
    alloc: Global,
    wanted: ValType,
    u: &mut Unstructured<'_>,
) -> Result<Items<ConstInstr>, Error>
    requires { (wanted ≡ I32) ⊎ (wanted ≡ I64) }
    ensures exact { IfOk result (λ drawn. extended_at wanted u.old ≡ (reverse drawn, u.new)) }
    ensures short { IfOk result (λ drawn. length drawn ≤ 23) }
    ensures adds { (context : Context) → IsTrue context.features.extended_const
        → IfOk result (λ drawn. Adds context wanted (reverse drawn)) }
    ensures memory { IfErr result (λ e. e ≡ Error.Memory) }
    ensures left { KeepsPieces u.old u.new }
{
    let wide = matches!(wanted, ValType::I64);
    let mut drawn = Items::new(alloc);
    let mut needed = 1usize;
    while needed > 0 {
        match draw_operator(drawn.len(), u) {
            None => {
                let constant = draw_constant(wanted, u);
                drawn.push(constant)?;
                needed -= 1;
            }
            Some(operator) => {
                drawn.push(operation(wide, operator))?;
                needed += 1;
            }
        }
    }
    Ok(drawn)
}

/// Draws an extended constant of the type `wanted` and appends its instructions to `out`.
pub(crate) fn draw_extended_constant(
    alloc: Global,
    wanted: ValType,
    out: &mut Items<ConstInstr>,
    u: &mut Unstructured<'_>,
) -> Result<(), Error>
    requires { (wanted ≡ I32) ⊎ (wanted ≡ I64) }
    ensures exact { OnOk result ((out.new ≡ out.old ++ (extended_at wanted u.old).0)
        × (u.new ≡ (extended_at wanted u.old).1)) }
    ensures short { OnOk result (length out.new ≤ length out.old + 23) }
    ensures puts { (context : Context) → IsTrue context.features.extended_const
        → OnOk result (Puts context (wanted ∷ []) out.old out.new) }
    ensures memory { IfErr result (λ e. e ≡ Error.Memory) }
    ensures left { KeepsPieces u.old u.new }
{
    let drawn = draw_extended(alloc, wanted, u)?;
    push_reversed(drawn.as_slice(), out)
}

fn push_reversed(drawn: &[ConstInstr], out: &mut Items<ConstInstr>) -> Result<(), Error>
    ensures ok { OnOk result (out.new ≡ out.old ++ reverse drawn.now) }
    ensures memory { IfErr result (λ e. e ≡ Error.Memory) }
{
    for index in 0..drawn.len() {
        out.push(drawn[drawn.len() - 1 - index])?;
    }
    Ok(())
}
