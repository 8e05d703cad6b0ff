ghost use Rattle.std.specs.Prelude.{[], codes, true, false, pos};
ghost use Rattle.smith_types.specs.Syntax.const_instr.ConstInstr.TheVariants.{I32Const, GlobalGet};
ghost use Rattle.smith_module_rules.specs.Module.{IsValid};
ghost use Rattle.smith_module_rules_examples.specs.ExampleModules.{two_exports, named_imports, two_memories};
ghost use Rattle.smith_module_rules_examples.specs.ExampleShapes.{with_environment, with_ping};
ghost use Rattle.smith_module_rules_examples.specs.ExampleGiven.{cloned, array_and_struct_apart, references_array, nothing_allowed};
ghost use Rattle.smith_module_rules_examples.specs.ExampleGiven.{without_gc, raw_body, counting_once, counting_fuel, counting_after};
ghost use Rattle.smith_module_rules_examples.specs.ExampleGiven.{two_singles, memories_one_by_one, null_table, full_memory, forced_page};
ghost use Rattle.smith_module_rules_examples.specs.ExampleGiven.{last_byte, sixty_elements, exported_number, three_numbers};

fn groups()
    ensures a_group_and_its_clone { IsValid cloned }
    ensures a_struct_of_references { IsValid array_and_struct_apart }
    ensures an_array_of_references { IsValid references_array }
    ensures nothing_where_nothing_may_be { IsValid nothing_allowed }
{}

fn bodies()
    ensures a_function_without_gc { IsValid without_gc }
    ensures raw_bytes { IsValid raw_body }
    ensures a_counter_of_fuel { IsValid counting_once }
    ensures counters_of_fuel { IsValid counting_fuel }
    ensures a_counter_after_imported_numbers { IsValid counting_after }
{}

fn imports()
    ensures two_without_names { IsValid (two_singles []) }
    ensures one_with_a_number_for_its_name { IsValid (two_singles (codes "1")) }
    ensures two_without_names_in_a_group { IsValid (named_imports [] []) }
    ensures memories_one_by_one { IsValid memories_one_by_one }
    ensures a_function_and_a_memory { IsValid with_environment }
    ensures a_function_alone { IsValid with_ping }
{}

fn tables_and_memories()
    ensures many_references { IsValid (null_table 6789) }
    ensures more_references { IsValid (null_table 996093) }
    ensures all_addresses { IsValid full_memory }
    ensures a_page_that_is_forced { IsValid forced_page }
    ensures two_memories { IsValid (two_memories 2) }
    ensures a_byte_at_the_last_address { IsValid last_byte }
{}

fn elements()
    ensures sixty { IsValid sixty_elements }
{}

fn globals()
    ensures an_exported_number { IsValid exported_number }
    ensures numbers_from_the_first { IsValid (three_numbers true (GlobalGet 0)) }
    ensures numbers_without_gc { IsValid (three_numbers false (I32Const (pos 0))) }
{}

fn exports()
    ensures two_functions { IsValid two_exports }
{}
