ghost use Rattle.std.specs.Prelude.{◌≡◌, ◌^◌, ◌≤◌, List, [], ◌∷◌, ◌++◌, Some, Ok, Err, IfSome, length};
ghost use Rattle.std.specs.List.{Contains};
ghost use Rattle.smith_types.specs.Syntax.code.Instructions.TheVariants.{Unreachable};
ghost use Rattle.smith_types.specs.Syntax.value_type.ValType.{ValType};
ghost use Rattle.smith_types.specs.Syntax.value_type.ValType.TheVariants.{I32};
ghost use Rattle.smith_binary_module.specs.ExampleModules.{one_function};
ghost use Rattle.smith_instr.specs.declared.instr.Instr.TheVariants as instr;
ghost use Rattle.smith_decode.specs.declared.error.DecodeError.TheVariants.{FeatureOff, Memory};
ghost use Rattle.smith_decode.specs.declared.modules.Module.{Module};
ghost use Rattle.smith_decode.specs.Modules.{syntax_of};
ghost use Rattle.smith_program.specs.Counted.{check_of};
ghost use Rattle.smith_program.specs.Valid.{IsValidProgram};
ghost use Rattle.smith_program.specs.declared.program.Body.TheVariants as body;
ghost use Rattle.smith_binary_program.specs.Decoded.{ComesBack, decoded};
ghost use Rattle.smith_binary_program.specs.ExamplePrograms.{function, nop, preamble};
ghost use Rattle.smith_binary_program.specs.Long.{IsLongProgram};
ghost use Rattle.smith_binary_program.specs.Valid.{HasSection, HaveSameInstructions};
ghost use Rattle.smith_binary_program.specs.Valid.{IsSameProgram, IsValidBinary};

use crate::programs::encode;
use smith_decode::{DecodeError, Module, decode};
use smith_program::Program;
use std::alloc::Global;

// Programs and bytes that meet the definitions, and others that do not. The clauses are proved, and
// nothing calls these functions.

fn programs_with_one_function()
    ensures short { ¬ IsLongProgram
        (one_function (record { locals = []; instructions = Unreachable }))
        (body.Drawn (instr.Nop ∷ []) ∷ []) }
    ensures with_many_locals { (locals : List ValType) → 2 ^ 32 ≤ length locals → IsLongProgram
        (one_function (record { locals = locals; instructions = Unreachable }))
        (body.Drawn (instr.Nop ∷ []) ∷ []) }
{}

fn same_instructions()
    ensures equal { HaveSameInstructions [] [] nop nop }
    ensures others { ¬ HaveSameInstructions [] [] nop (body.Drawn []) }
    ensures with_the_checks { HaveSameInstructions (5 ∷ []) [] nop
        (body.Drawn (check_of 5 ++ instr.Nop ∷ [])) }
    ensures without_the_checks { ¬ HaveSameInstructions (5 ∷ []) [] nop nop }
    ensures raw_bytes { HaveSameInstructions [] [] body.Raw nop }
{}

fn same_programs()
    ensures itself { IsSameProgram (function []) (function []) (nop ∷ []) (nop ∷ []) }
    ensures of_another_type_size { IsSameProgram (function [])
        (record (function []) { type_size = 7 }) (nop ∷ []) (nop ∷ []) }
    ensures that_starts { ¬ IsSameProgram (function [])
        (record (function []) { start = Some 0 }) (nop ∷ []) (nop ∷ []) }
    ensures with_a_local { ¬ IsSameProgram (function []) (function (I32 ∷ []))
        (nop ∷ []) (nop ∷ []) }
    ensures with_another_body { ¬ IsSameProgram (function []) (function [])
        (nop ∷ []) (body.Drawn [] ∷ []) }
    ensures without_its_body { ¬ IsSameProgram (function []) (function []) (nop ∷ []) [] }
{}

fn decoded_programs()
    ensures functions { (decoded (function (I32 ∷ [])) (nop ∷ [])).bodies
        ≡ ((I32 ∷ []), (instr.Nop ∷ [])) ∷ [] }
    ensures with_the_checks { (decoded (record (function []) { fuel_globals = 5 ∷ [] })
        (nop ∷ [])).bodies ≡ ([], (check_of 5 ++ instr.Nop ∷ [])) ∷ [] }
    ensures without_the_checks { ¬ ((decoded (record (function []) { fuel_globals = 5 ∷ [] })
        (nop ∷ [])).bodies ≡ ([], (instr.Nop ∷ [])) ∷ []) }
    ensures without_custom_sections { (decoded (function []) (nop ∷ [])).customs ≡ [] }
{}

fn decoded_answers()
    ensures itself { (back : Module) → ComesBack (syntax_of back) (Ok back) }
    ensures without_functions { (back : Module) → (syntax_of back).bodies ≡ []
        → ¬ ComesBack (decoded (function []) (nop ∷ [])) (Ok back) }
    ensures memory { ComesBack (decoded (function []) (nop ∷ [])) (Err Memory) }
    ensures feature_off { ¬ ComesBack (decoded (function []) (nop ∷ [])) (Err (FeatureOff 8)) }
{}

// Writes a valid program, and reads it with the features of its configuration.
fn read_back(alloc: Global, program: &Program) -> Option<Result<Module, DecodeError>>
    requires valid { IsValidProgram program.now.«module» program.now.bodies }
    requires drawn { ¬ Contains program.now.bodies body.Raw }
    ensures { IfSome result (ComesBack (decoded program.now.«module» program.now.bodies)) }
{
    match encode(alloc, program) {
        Ok(bytes) => {
            let features = program.module().config().features();
            Some(decode(alloc, bytes.as_slice(), features))
        }
        Err(_) => None,
    }
}

fn sections()
    ensures count_of_data { HasSection 12 (preamble ++ 0x0C ∷ 0x01 ∷ 0x00 ∷ []) }
    ensures no_section { ¬ HasSection 12 preamble }
{}

fn whole_bytes()
    ensures the_preamble { IsValidBinary preamble }
    ensures no_preamble { ¬ IsValidBinary [] }
{}
