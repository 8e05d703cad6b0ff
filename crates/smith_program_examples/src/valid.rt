#![tactic(auto)]

ghost use Rattle.std.specs.Prelude.{[], ◌∷◌, false};
ghost use Rattle.smith_config.specs.Config.{default_config};
ghost use Rattle.smith_module_rules_examples.specs.ExampleModules.{bodiless, empty_module, one_function, passive_bytes};
ghost use Rattle.smith_instr.specs.declared.instr.Instr.TheVariants as instr;
ghost use Rattle.smith_instr.specs.declared.memory.MemoryInstr.TheVariants as memory;
ghost use Rattle.smith_instr.specs.declared.reference.ReferenceInstr.TheVariants as reference;
ghost use Rattle.smith_instr.specs.declared.table.TableInstr.TheVariants as table;
ghost use Rattle.smith_program.specs.Valid.{CountsData, IsDeclared, IsValidProgram, NameData};
ghost use Rattle.smith_program.specs.declared.program.Body.TheVariants as body;
ghost use Rattle.smith_program_examples.specs.ExamplePrograms.{constant};

fn named_functions()
    ensures declared { IsDeclared (3 ∷ []) (instr.Reference (reference.Func 3)) }
    ensures undeclared { ¬ IsDeclared (3 ∷ []) (instr.Reference (reference.Func 4)) }
    ensures called { IsDeclared [] (instr.Call 4) }
{}

fn named_segments()
    ensures of_data { NameData (body.Drawn (instr.Memory (memory.Init 0 1) ∷ []) ∷ []) }
    ensures of_elements { ¬ NameData (body.Drawn (instr.Table (table.Init 0 1) ∷ []) ∷ []) }
    ensures in_raw_bytes { ¬ NameData (body.Raw ∷ []) }
    ensures counted { CountsData passive_bytes }
    ensures without_bulk_memory { ¬ CountsData (record passive_bytes { config = record default_config { bulk_memory_enabled = false } }) }
    ensures without_a_segment { ¬ CountsData one_function }
{}

fn programs()
    ensures without_functions { IsValidProgram (empty_module default_config) [] }
    ensures with_a_function { IsValidProgram one_function (body.Drawn [] ∷ []) }
    ensures of_an_invalid_module { ¬ IsValidProgram bodiless [] }
    ensures without_its_body { ¬ IsValidProgram one_function [] }
    ensures with_a_value_left { ¬ IsValidProgram one_function (constant 1 ∷ []) }
    ensures of_a_disabled_feature { ¬ IsValidProgram (record one_function { config = record default_config { threads_enabled = false } })
        (body.Drawn (instr.AtomicFence ∷ []) ∷ []) }
    ensures of_an_undeclared_function { ¬ IsValidProgram one_function (body.Drawn (instr.Reference (reference.Func 0) ∷ instr.Drop ∷ [])
        ∷ []) }
    ensures of_uncounted_data { ¬ IsValidProgram one_function (body.Drawn (instr.Memory (memory.DataDrop 0) ∷ []) ∷ []) }
{}
