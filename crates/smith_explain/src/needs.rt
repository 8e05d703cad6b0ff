ghost use Rattle.std.specs.Prelude.{◌≡◌, ℕ, MatchOption};
ghost use Rattle.smith_instr.specs.Contexts.{IsLocalSet};
ghost use Rattle.smith_check_operands.specs.Scopes.{bare};
ghost use Rattle.smith_explain.specs.Causes.{IsUndeclared, IsUnset};

use smith_check_instr::variables::is_set;
use smith_check_operands::Scope;
use smith_check_operands::lookups::value_at;
use smith_instr::{Instr, ReferenceInstr, SetLocals};

/// Returns the function that `ref.func` names, if it is not declared.
pub fn undeclared(scope: &Scope, instr: &Instr) -> Option<u32>
    ensures { MatchOption result ((function : ℕ) → IsUndeclared (bare scope.now) instr.now function → ⊥)
        (IsUndeclared (bare scope.now) instr.now) }
{
    match instr {
        Instr::Reference(ReferenceInstr::Func(function)) => {
            if scope.references.contains(function) {
                None
            } else {
                Some(*function)
            }
        }
        _ => None,
    }
}

/// Returns the local that `local.get` names, if it is not set. A local that is not there is not set.
pub fn unset(scope: &Scope, log: &SetLocals, instr: &Instr) -> Option<u32>
    ensures { MatchOption result ((local : ℕ) → IsUnset (bare scope.now) log.now.items instr.now local → ⊥)
        (IsUnset (bare scope.now) log.now.items instr.now) }
{
    match instr {
        Instr::LocalGet(local) => match value_at(scope.locals, *local) {
            Some(value) => {
                if is_set(scope, log, *local, value) {
                    None
                } else {
                    Some(*local)
                }
            }
            None => Some(*local),
        },
        _ => None,
    }
}
