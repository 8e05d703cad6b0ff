ghost use Rattle.std.specs.Prelude.{true, pos};
ghost use Rattle.smith_types.specs.Syntax.segments.Offset.TheVariants.{Const32};
ghost use Rattle.smith_config.specs.Config.{default_config};
ghost use Rattle.smith_module_rules.specs.Module.{IsValid};
ghost use Rattle.smith_module_rules_examples.specs.ExampleModules.{empty_module, empty_group, arrays, three_arrays, one_function};
ghost use Rattle.smith_module_rules_examples.specs.ExampleModules.{one_table, two_elements, one_import, two_imports, one_memory};
ghost use Rattle.smith_module_rules_examples.specs.ExampleModules.{three_memories, one_data_segment, one_tag, one_number, passive_bytes};
ghost use Rattle.smith_module_rules_examples.specs.ExampleModules.{one_of_each, filled_table, table_from_a_number};

fn types_and_functions()
    ensures nothing { IsValid (empty_module default_config) }
    ensures a_group_without_types { IsValid empty_group }
    ensures an_array_and_one_below_it { IsValid arrays }
    ensures two_below_one { IsValid three_arrays }
    ensures a_function { IsValid one_function }
{}

fn entities()
    ensures a_table { IsValid one_table }
    ensures an_import { IsValid one_import }
    ensures a_group_of_imports { IsValid two_imports }
    ensures a_memory { IsValid one_memory }
    ensures groups_of_memories { IsValid three_memories }
    ensures a_number { IsValid one_number }
{}

fn segments()
    ensures elements { IsValid two_elements }
    ensures copied_bytes { IsValid one_data_segment }
    ensures bytes { IsValid passive_bytes }
    ensures beside_a_tag_and_an_export { IsValid one_tag }
{}

fn started()
    ensures a_function_in_a_table { IsValid (filled_table (Const32 (pos 0))) }
    ensures from_where_a_number_says { IsValid (table_from_a_number true) }
{}

fn all_kinds()
    ensures valid { IsValid one_of_each }
{}
