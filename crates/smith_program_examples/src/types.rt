#![tactic(auto)]

ghost use Rattle.std.specs.Prelude.{[], ◌∷◌};
ghost use Rattle.smith_types.specs.Syntax.composite_type.FuncType.{FuncType};
ghost use Rattle.smith_module_rules_examples.specs.ExampleParts.{trapping};
ghost use Rattle.smith_instr.specs.declared.instr.Instr.TheVariants as instr;
ghost use Rattle.smith_instr_examples.specs.ExampleBodies.{number};
ghost use Rattle.smith_program.specs.Bodies.{HasDefinedType, IsBodyAt};
ghost use Rattle.smith_program_examples.specs.ExamplePrograms.{after_a_memory, after_an_import, gives_nothing, gives_number};
ghost use Rattle.smith_program_examples.specs.ExamplePrograms.{narrow_function, with_local};

fn functions()
    ensures alone { HasDefinedType narrow_function 0 gives_number }
    ensures after_an_imported_one { HasDefinedType after_an_import 0 gives_number }
    ensures after_an_imported_memory { HasDefinedType after_a_memory 0 gives_number }
    ensures of_the_imported_type { ¬ HasDefinedType after_an_import 0 gives_nothing }
    ensures past_the_last { (function : FuncType) → ¬ HasDefinedType after_an_import 1 function }
{}

fn bodies()
    ensures after_an_imported_function { IsBodyAt after_an_import 0 trapping (number 5 ∷ []) }
    ensures of_the_imported_type { ¬ IsBodyAt after_an_import 0 trapping [] }
    ensures past_the_last { ¬ IsBodyAt after_an_import 1 trapping (number 5 ∷ []) }
    ensures with_its_local { IsBodyAt narrow_function 0 with_local (instr.LocalGet 0 ∷ []) }
    ensures without_a_local { ¬ IsBodyAt narrow_function 0 trapping (instr.LocalGet 0 ∷ []) }
{}
