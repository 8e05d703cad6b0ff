// Tables and memories within the bounds of a configuration, and past them.

ghost use Rattle.std.specs.Prelude.{◌+◌, ◌^◌, true, Some, None};
ghost use Rattle.smith_types.specs.Flags.{funcref};
ghost use Rattle.smith_types.specs.ExampleEntities.{memory, table, all_addresses};
ghost use Rattle.smith_config.specs.Config.{default_config};
ghost use Rattle.smith_config.specs.EntityBounds.{IsMemoryWithin, IsTableWithin};

fn memories()
    ensures every_byte { IsMemoryWithin default_config (memory 65536 None) }
    ensures a_page_more { ¬ IsMemoryWithin default_config (memory 65537 None) }
    ensures a_maximum_past_the_bytes { ¬ IsMemoryWithin default_config (memory 0 (Some 65537)) }
    ensures a_maximum_of_every_byte { IsMemoryWithin default_config (memory 0 (Some 65536)) }
    ensures a_wide_page_more { ¬ IsMemoryWithin default_config (record all_addresses { minimum = 2 ^ 48 + 1 }) }
    ensures wide_addresses_have_bytes_of_their_own { IsMemoryWithin (record default_config { max_memory32_bytes = 0 }) all_addresses }
    ensures a_wide_page_of_too_few_bytes { ¬ IsMemoryWithin (record default_config { max_memory64_bytes = 65535 })
        (record (memory 1 None) { memory64 = true }) }
    ensures ten_pages_of_one_byte { IsMemoryWithin (record default_config { max_memory32_bytes = 10 })
        (record (memory 10 None) { page_size_log2 = Some 0 }) }
    ensures eleven_pages_of_one_byte { ¬ IsMemoryWithin (record default_config { max_memory32_bytes = 10 })
        (record (memory 11 None) { page_size_log2 = Some 0 }) }
    ensures by_64_bits { IsMemoryWithin default_config all_addresses }
    ensures a_page_of_no_bytes { ¬ IsMemoryWithin (record default_config { max_memory32_bytes = 0 }) (memory 1 None) }
    ensures a_page_with_traps_disallowed { IsMemoryWithin (record default_config { max_memory32_bytes = 0; disallow_traps = true })
        (memory 1 None) }
    ensures two_pages_with_traps_disallowed { ¬ IsMemoryWithin (record default_config { max_memory32_bytes = 0; disallow_traps = true })
        (memory 2 None) }
    ensures a_maximum_of_two_pages_with_traps_disallowed { ¬ IsMemoryWithin
        (record default_config { max_memory32_bytes = 0; disallow_traps = true }) (memory 1 (Some 2)) }
    ensures no_maximum_where_tables_need_one { IsMemoryWithin (record default_config { table_max_size_required = true }) (memory 1 None) }
    ensures no_maximum_where_one_is_required { ¬ IsMemoryWithin (record default_config { memory_max_size_required = true })
        (memory 1 None) }
    ensures a_maximum_where_one_is_required { IsMemoryWithin (record default_config { memory_max_size_required = true })
        (memory 1 (Some 1)) }
{}

fn tables()
    ensures every_element { IsTableWithin default_config (table funcref 1000000 None) }
    ensures an_element_more { ¬ IsTableWithin default_config (table funcref 1000001 None) }
    ensures a_maximum_of_every_element { IsTableWithin default_config (table funcref 0 (Some 1000000)) }
    ensures a_maximum_past_the_elements { ¬ IsTableWithin default_config (table funcref 0 (Some 1000001)) }
    ensures a_wide_element_more { ¬ IsTableWithin default_config (record (table funcref 1000001 None) { table64 = true }) }
    ensures two_elements_with_traps_disallowed { ¬ IsTableWithin (record default_config { max_table_elements = 0; disallow_traps = true })
        (table funcref 2 None) }
    ensures a_maximum_where_one_is_required { IsTableWithin (record default_config { table_max_size_required = true })
        (table funcref 0 (Some 0)) }
    ensures no_maximum_where_memories_need_one { IsTableWithin (record default_config { memory_max_size_required = true })
        (table funcref 0 None) }
    ensures an_element_with_traps_disallowed { IsTableWithin (record default_config { max_table_elements = 0; disallow_traps = true })
        (table funcref 1 None) }
    ensures an_element_of_none { ¬ IsTableWithin (record default_config { max_table_elements = 0 }) (table funcref 1 None) }
    ensures no_maximum_where_one_is_required { ¬ IsTableWithin (record default_config { table_max_size_required = true })
        (table funcref 0 None) }
{}
