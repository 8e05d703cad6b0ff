//! Examples of modules that no bytes spell.

ghost use Rattle.smith_decode.specs.ExampleModules.{no_item};
ghost use Rattle.smith_decode.specs.Modules.{syntax_of};
ghost use Rattle.smith_encode.specs.ExampleModules.{in_open_block, with_customs_after, with_supertypes};
ghost use Rattle.smith_encode.specs.Faults.{HasNoSpelling};
ghost use Rattle.std.specs.Prelude.{◌∷◌, [], None, Some};

fn modules_without_a_spelling()
    ensures no_body { HasNoSpelling (syntax_of (record no_item { functions = 0 ∷ [] })) }
    ensures no_first_supertype { HasNoSpelling (syntax_of (with_supertypes None ((0 ∷ []) ∷ []))) }
    ensures no_list_of_supertypes { HasNoSpelling (syntax_of (with_supertypes (Some 0) [])) }
    ensures open_block { HasNoSpelling (syntax_of in_open_block) }
    ensures out_of_order { HasNoSpelling (syntax_of (with_customs_after (Some 3 ∷ Some 1 ∷ []))) }
    ensures no_start { HasNoSpelling (syntax_of (with_customs_after (Some 8 ∷ []))) }
    ensures no_such_section { HasNoSpelling (syntax_of (with_customs_after (Some 14 ∷ []))) }
{}
