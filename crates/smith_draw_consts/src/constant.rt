ghost use Rattle.smith_draw_types.specs.Drawing.{AlwaysDraws};
ghost use Rattle.smith_draw_consts.specs.Constants.{constant_at};

use smith_bytes::Unstructured;
use smith_types::{ConstInstr, ValType};

/// Draws a constant of the type `wanted`: a number or a vector by its bits, or null.
#[tactic(auto, unfolding(crate::specs::Constants::constant_at))]
pub(crate) fn draw_constant(wanted: ValType, u: &mut Unstructured<'_>) -> ConstInstr
    ensures { AlwaysDraws (constant_at wanted u.old) result u.old u.new }
{
    match wanted {
        ValType::I32 => ConstInstr::I32Const(u.arbitrary()),
        ValType::I64 => ConstInstr::I64Const(u.arbitrary()),
        ValType::F32 => ConstInstr::F32Const(u.arbitrary()),
        ValType::F64 => ConstInstr::F64Const(u.arbitrary()),
        ValType::V128 => ConstInstr::V128Const(u.arbitrary()),
        ValType::Ref(reference) => ConstInstr::RefNull(reference.heap_type),
    }
}
