#![tactic(auto)]

ghost use Rattle.std.specs.Prelude.{false, true, [], ◌∷◌, Some, None};
ghost use Rattle.smith_types.specs.Syntax.Features.{every_feature};
ghost use Rattle.smith_config.specs.ExampleMembers.{a_type, plain_function};
ghost use Rattle.smith_instr.specs.declared.instr.Instr.TheVariants as instr;
ghost use Rattle.smith_binary_sections.specs.Elements.Form.{first_funcs, passive_funcs, table_funcs, declared_items};
ghost use Rattle.smith_binary_sections.specs.Data.DataForm.{first_memory, no_memory, named_memory};
ghost use Rattle.smith_binary_program.specs.Forms.{IsAccessEnabled, IsDataFormEnabled, IsElemFormEnabled, IsGroupFormEnabled};

// Forms that need a feature, and others that do not.
fn forms_of_groups()
    ensures of_a_function { IsGroupFormEnabled (record every_feature { gc = false }) (a_type plain_function true None ∷ []) }
    ensures of_an_open_function { ¬ IsGroupFormEnabled (record every_feature { gc = false }) (a_type plain_function false None ∷ []) }
    ensures of_a_subtype { ¬ IsGroupFormEnabled (record every_feature { gc = false }) (a_type plain_function true (Some 0) ∷ []) }
    ensures of_no_type { ¬ IsGroupFormEnabled (record every_feature { gc = false }) [] }
    ensures with_the_feature { IsGroupFormEnabled every_feature (a_type plain_function false None ∷ []) }
{}

fn forms_of_segments()
    ensures of_functions { IsElemFormEnabled (record every_feature { reference_types = false; bulk_memory = false }) first_funcs }
    ensures passive { ¬ IsElemFormEnabled (record every_feature { bulk_memory = false }) passive_funcs }
    ensures of_a_table { ¬ IsElemFormEnabled (record every_feature { reference_types = false }) table_funcs }
    ensures of_expressions { ¬ IsElemFormEnabled (record every_feature { reference_types = false }) declared_items }
    ensures of_the_first_memory { IsDataFormEnabled (record every_feature { bulk_memory = false }) first_memory }
    ensures of_no_memory { ¬ IsDataFormEnabled (record every_feature { bulk_memory = false }) no_memory }
    ensures of_a_named_memory { ¬ IsDataFormEnabled (record every_feature { multi_memory = false }) named_memory }
{}

fn accesses()
    ensures of_the_first_memory { IsAccessEnabled (record every_feature { multi_memory = false })
        (instr.VectorStore (record { align = 0; offset = 0; memory = 0 })) }
    ensures of_the_second { ¬ IsAccessEnabled (record every_feature { multi_memory = false })
        (instr.VectorStore (record { align = 0; offset = 0; memory = 1 })) }
    ensures of_none { IsAccessEnabled (record every_feature { multi_memory = false }) instr.Nop }
{}
