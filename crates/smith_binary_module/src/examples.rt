ghost use Rattle.std.specs.Prelude.{ℕ, ◌^◌, ◌≤◌, List, [], length};
ghost use Rattle.smith_types.specs.Syntax.code.Instructions.TheVariants.{Unreachable, Arbitrary};
ghost use Rattle.smith_types.specs.Syntax.value_type.ValType.{ValType};
ghost use Rattle.smith_binary_module.specs.ExampleModules.{one_function};
ghost use Rattle.smith_binary_module.specs.TooLong.{IsTooLong};

// Modules that are and are not too long. The clauses are proved, and nothing calls this function.
fn modules_with_one_function()
    ensures short { ¬ IsTooLong
        (one_function (record { locals = []; instructions = Unreachable })) }
    ensures with_many_locals { (locals : List ValType) → 2 ^ 32 ≤ length locals
        → IsTooLong (one_function (record { locals = locals; instructions = Unreachable })) }
    ensures with_many_bytes { (bytes : List ℕ) → 2 ^ 32 ≤ length bytes
        → IsTooLong (one_function (record { locals = []; instructions = Arbitrary bytes })) }
{}
