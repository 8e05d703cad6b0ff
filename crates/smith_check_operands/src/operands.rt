ghost use Rattle.std.specs.Prelude.{◌≡◌, IsTrue, MatchBool, true, [], ◌∷◌, ◌++◌, IfErr, IfOk, OnOk, MatchOption, All};
ghost use Rattle.smith_types.specs.Subtyping.{IsValInRange};
ghost use Rattle.smith_check_rules.specs.Slots.{values};
ghost use Rattle.smith_check_rules.specs.declared.slot.Slot.TheVariants.{Value};
ghost use Rattle.smith_instr.specs.Contexts.{AreValid};
ghost use Rattle.smith_check_rules.specs.Slots.{AreSlotsValid};
ghost use Rattle.smith_check_operands.specs.Scopes.{bare};
ghost use Rattle.smith_check_operands.specs.Covers.{held, Pops, PopsNothing, Pushes, Tops, TopsNothing};
ghost use Rattle.smith_check_operands.specs.Applies.{Applies, LeavesBy};
ghost use Rattle.smith_check_operands.specs.Closes.{EndsHere};

use crate::below::{fits, slots_fit};
use crate::frame::Operands;
use crate::scope::Scope;
use smith_bytes::Error;
use smith_check_rules::Slot;
use smith_types::ValType;

// Appends a slot to a list that has no room for it.
#[inline(never)]
fn push_growing(known: &mut Vec<Slot>, slot: Slot) -> Result<(), Error>
    ensures items { OnOk result (known.new.items ≡ known.old.items ++ slot ∷ []) }
    ensures memory { IfErr result (λ e. e ≡ Error.Memory) }
{
    known.push(slot)?;
    Ok(())
}

impl Operands {
    // Takes a value of the type `expected` off the stack, and returns whether it is there.
    #[inline(always)]
    fn pop_one(&mut self, scope: &Scope, expected: &ValType) -> bool
        requires known { AreSlotsValid (bare scope.now) self.old.known.items }
        requires expected { IsValInRange scope.now.types.now.types expected.now }
        ensures { MatchBool result
            (Pops (bare scope.now) (Value expected.now ∷ []) (held self.old) (held self.new))
            (PopsNothing (bare scope.now) (Value expected.now ∷ []) (held self.old)) }
    {
        let Some(top) = self.known.last() else {
            return self.dead;
        };
        if !fits(scope.types, top, expected) {
            return false;
        }
        let _ = self.known.pop();
        true
    }

    /// Takes values of the types `expected` off the stack, and returns whether they are there.
    #[inline(always)]
    pub fn pop_all(&mut self, scope: &Scope, expected: &[ValType]) -> bool
        requires known { AreSlotsValid (bare scope.now) self.old.known.items }
        requires expected { All (IsValInRange scope.now.types.now.types) expected.now }
        ensures { MatchBool result
            (Pops (bare scope.now) (values expected.now) (held self.old) (held self.new))
            (PopsNothing (bare scope.now) (values expected.now) (held self.old)) }
    {
        for i in (0..expected.len()).rev() {
            if !self.pop_one(scope, &expected[i]) {
                return false;
            }
        }
        true
    }

    // Puts a value of the type `value` on the stack.
    #[inline(always)]
    fn push_one(&mut self, value: ValType) -> Result<(), Error>
        ensures known { OnOk result (self.new.known.items ≡ self.old.known.items ++ Value value ∷ []) }
        ensures dead { OnOk result (self.new.dead ≡ self.old.dead) }
        ensures memory { IfErr result (λ e. e ≡ Error.Memory) }
    {
        if self.known.len() < self.known.capacity() {
            self.known.push_reserved(Slot::Value(value));
            return Ok(());
        }
        push_growing(&mut self.known, Slot::Value(value))
    }

    /// Puts values of the types `results` on the stack.
    #[inline(always)]
    pub fn push_all(&mut self, scope: &Scope, results: &[ValType]) -> Result<(), Error>
        requires known { AreSlotsValid (bare scope.now) self.old.known.items }
        requires valid { AreValid (bare scope.now) results.now }
        ensures ok { OnOk result (Pushes (bare scope.now) (values results.now) (held self.old) (held self.new)) }
        ensures memory { IfErr result (λ e. e ≡ Error.Memory) }
    {
        for value in results {
            self.push_one(*value)?;
        }
        Ok(())
    }

    /// Takes operands off the stack and puts results on it, and returns whether the operands are
    /// there.
    #[inline(always)]
    pub fn apply(
        &mut self,
        scope: &Scope,
        operands: &[ValType],
        results: &[ValType],
    ) -> Result<bool, Error>
        requires known { AreSlotsValid (bare scope.now) self.old.known.items }
        requires expected { All (IsValInRange scope.now.types.now.types) operands.now }
        requires valid { AreValid (bare scope.now) results.now }
        ensures ok { IfOk result (λ there. MatchBool there
            (Applies (bare scope.now) (values operands.now) (values results.now)
            (held self.old) (held self.new))
            (PopsNothing (bare scope.now) (values operands.now) (held self.old))) }
        ensures memory { IfErr result (λ e. e ≡ Error.Memory) }
    {
        if !self.pop_all(scope, operands) {
            return Ok(false);
        }
        self.push_all(scope, results)?;
        Ok(true)
    }

    /// Takes operands off the stack, `top` above `operands`, and puts results on it, and returns
    /// whether the operands are there.
    #[inline(always)]
    pub fn apply_below(
        &mut self,
        scope: &Scope,
        operands: &[ValType],
        top: &[ValType],
        results: &[ValType],
    ) -> Result<bool, Error>
        requires known { AreSlotsValid (bare scope.now) self.old.known.items }
        requires expected { All (IsValInRange scope.now.types.now.types) operands.now }
        requires expected_top { All (IsValInRange scope.now.types.now.types) top.now }
        requires valid { AreValid (bare scope.now) results.now }
        ensures ok { IfOk result (λ there. MatchBool there
            (Applies (bare scope.now) (values (operands.now ++ top.now)) (values results.now)
            (held self.old) (held self.new))
            (PopsNothing (bare scope.now) (values (operands.now ++ top.now)) (held self.old))) }
        ensures memory { IfErr result (λ e. e ≡ Error.Memory) }
    {
        if !self.pop_all(scope, top) {
            return Ok(false);
        }
        self.apply(scope, operands, results)
    }

    /// Takes a value of any type off the stack, and returns the type if there is one.
    pub fn pop(&mut self, scope: &Scope) -> Option<Slot>
        requires { AreSlotsValid (bare scope.now) self.old.known.items }
        ensures { MatchOption result (TopsNothing (bare scope.now) (held self.old))
            (λ top. Tops (bare scope.now) top (held self.old) (held self.new)) }
    {
        match self.known.pop() {
            Some(top) => Some(top),
            None => { if self.dead { Some(Slot::Bottom) } else { None } }
        }
    }

    /// Returns whether the stack may be of the types `results`.
    #[inline(always)]
    pub fn ends(&self, scope: &Scope, results: &[ValType]) -> bool
        requires known { AreSlotsValid (bare scope.now) self.now.known.items }
        requires valid { AreValid (bare scope.now) results.now }
        ensures { MatchBool result
            (EndsHere (bare scope.now) results.now (held self.now))
            (EndsHere (bare scope.now) results.now (held self.now) → ⊥) }
    {
        let known = self.known.len();
        let wanted = results.len();
        if known == wanted {
            return slots_fit(scope.types, &self.known, results);
        }
        if wanted < known {
            return false;
        }
        if !self.dead {
            return false;
        }
        slots_fit(scope.types, &self.known, &results[wanted - known..])
    }

    /// Takes values of the types `taken` off the stack, if they are there, and goes on in dead code.
    pub fn leave_with(&mut self, scope: &Scope, taken: &[ValType]) -> bool
        requires known { AreSlotsValid (bare scope.now) self.old.known.items }
        requires expected { All (IsValInRange scope.now.types.now.types) taken.now }
        ensures { MatchBool result
            (LeavesBy (bare scope.now) (values taken.now) (held self.old) (held self.new))
            (PopsNothing (bare scope.now) (values taken.now) (held self.old)) }
    {
        if !self.pop_all(scope, taken) {
            return false;
        }
        self.leave();
        true
    }

    /// Goes on in dead code.
    pub fn leave(&mut self)
        ensures known { self.new.known.items ≡ [] }
        ensures dead { self.new.dead ≡ true }
    {
        self.known.clear();
        self.dead = true;
    }
}
