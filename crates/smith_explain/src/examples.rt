// Reasons of refusals, and reasons that are wrong or not the first.

ghost use Rattle.std.specs.Prelude.{◌≡◌, [], ◌∷◌, length};
ghost use Rattle.std.specs.Global.{Vec};
ghost use Rattle.smith_types.specs.Syntax.value_type.ValType.TheVariants.{I32};
ghost use Rattle.smith_instr.specs.declared.instr.Instr.TheVariants as instr;
ghost use Rattle.smith_check_rules.specs.ExampleBodies.{plain};
ghost use Rattle.smith_check_rules.specs.declared.slot.Slot.{Slot};
ghost use Rattle.smith_check_rules.specs.declared.slot.Slot.TheVariants.{Value};
ghost use Rattle.smith_check_body.specs.declared.checker.Checker.{Checker};
ghost use Rattle.smith_explain.specs.Causes.{IsCause};
ghost use Rattle.smith_explain.specs.ExampleCauses.{IsAlwaysCause, IsAlwaysWanting, IsNeverCause, IsNeverWanting};
ghost use Rattle.smith_explain.specs.ExampleCauses.{adds, declared_function, one_function, refers, two_locals};
ghost use Rattle.smith_explain.specs.Names.{item};
ghost use Rattle.smith_explain.specs.declared.explanation.Cause.TheVariants as cause;
ghost use Rattle.smith_explain.specs.declared.explanation.Space.TheVariants as space;

// A local that is not there is not set either.
fn locals()
    ensures missing { IsAlwaysCause two_locals (instr.LocalGet 3)
        (cause.Unknown (record { named = item space.Local 3; count = 2 })) }
    ensures not_unset { IsNeverCause two_locals (instr.LocalGet 3) (cause.Unset 3) }
    ensures not_something_else { IsNeverCause two_locals (instr.LocalGet 3) cause.Other }
    ensures there { IsNeverCause two_locals (instr.LocalGet 1)
        (cause.Unknown (record { named = item space.Local 1; count = 2 })) }
{}

fn functions()
    ensures undeclared { IsAlwaysCause one_function refers (cause.Undeclared 0) }
    ensures not_something_else { IsNeverCause one_function refers cause.Other }
    ensures declared { IsNeverCause declared_function refers (cause.Undeclared 0) }
    ensures missing { IsNeverCause plain refers (cause.Undeclared 0) }
{}

fn operands()
    ensures two { IsAlwaysWanting adds (Value I32 ∷ Value I32 ∷ []) }
    ensures not_one { IsNeverWanting adds (Value I32 ∷ []) }
{}

// No block is open.
fn ends()
    ensures something_else { (checker : Checker) → length checker.outers.items ≡ 0
        → IsCause plain checker instr.End cause.Other }
    ensures not_operands { (checker : Checker) → length checker.outers.items ≡ 0
        → (wanted : Vec Slot) → IsCause plain checker instr.End (cause.Operands wanted) → ⊥ }
{}
