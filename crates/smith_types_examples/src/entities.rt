ghost use Rattle.std.specs.Prelude.{[], ◌∷◌, ◌≡◌, ◌+◌, ◌-◌, ◌^◌, true, false, Some, None};
ghost use Rattle.smith_types.specs.Syntax.value_type.AbstractHeapType.TheVariants as heap;
ghost use Rattle.smith_types.specs.Syntax.value_type.HeapType.TheVariants.{Abstract, Concrete};
ghost use Rattle.smith_types.specs.Syntax.value_type.ValType.TheVariants.{I32, I64, Ref};
ghost use Rattle.smith_types.specs.Syntax.composite_type.CompositeInnerType.TheVariants.{Func};
ghost use Rattle.smith_types.specs.Syntax.entity_type.EntityType.TheVariants as entity;
ghost use Rattle.smith_types.specs.Flags.{funcref};
ghost use Rattle.smith_types.specs.Sizes.{size_in, IsTyped};
ghost use Rattle.smith_types.specs.Entities.{AreLimitsValid, most_pages, most_elements, IsMemoryValid, IsTableValid, IsGlobalValid};
ghost use Rattle.smith_types.specs.Entities.{IsFuncTypeIndex, IsTagValid, AreEntitiesValid, AreCountsEnabled};
ghost use Rattle.smith_types.specs.ExampleFeatures.{usual_features};
ghost use Rattle.smith_types.specs.ExampleTypes.{final_type, shared_type, empty_struct, plain_func, giving, taking, func, nullable, plain};
ghost use Rattle.smith_types.specs.ExampleTypes.{anyref, shared_anyref};
ghost use Rattle.smith_types.specs.ExampleEntities.{memory, all_addresses, table, constant_global, one_of_each};

fn limits()
    ensures of_one_value { AreLimitsValid 10 10 (Some 10) }
    ensures no_maximum { AreLimitsValid 10 10 None }
    ensures minimum_above_maximum { ¬ AreLimitsValid 10 2 (Some 1) }
    ensures minimum_above_most { ¬ AreLimitsValid 10 11 None }
    ensures maximum_above_most { ¬ AreLimitsValid 10 1 (Some 11) }
{}

fn most()
    ensures pages { most_pages false None ≡ 2 ^ 16 }
    ensures wide_pages { most_pages true None ≡ 2 ^ 48 }
    ensures bytes { most_pages false (Some 0) ≡ 2 ^ 32 - 1 }
    ensures wide_bytes { most_pages true (Some 0) ≡ 2 ^ 64 - 1 }
    ensures stated_pages { most_pages false (Some 16) ≡ 2 ^ 16 }
    ensures elements { most_elements false ≡ 2 ^ 32 - 1 }
    ensures wide_elements { most_elements true ≡ 2 ^ 64 - 1 }
{}

fn memories()
    ensures of_4_gibibytes { IsMemoryValid usual_features (memory 65536 None) }
    ensures of_one_page_more { ¬ IsMemoryValid usual_features (memory 65537 None) }
    ensures of_all_addresses { IsMemoryValid usual_features all_addresses }
    ensures of_one_page_more_than_all { ¬ IsMemoryValid usual_features (record all_addresses { minimum = 2 ^ 48 + 1 }) }
    ensures of_wide_addresses { IsMemoryValid usual_features (record (memory 65537 None) { memory64 = true }) }
    ensures wide_addresses_need_their_feature { ¬ IsMemoryValid (record usual_features { memory64 = false })
        (record (memory 1 None) { memory64 = true }) }
    ensures shared { IsMemoryValid usual_features (record (memory 1 (Some 1)) { shared = true }) }
    ensures shared_without_maximum { ¬ IsMemoryValid usual_features (record (memory 1 None) { shared = true }) }
    ensures shared_without_threads { ¬ IsMemoryValid (record usual_features { threads = false })
        (record (memory 1 (Some 1)) { shared = true }) }
    ensures of_bytes { IsMemoryValid usual_features (record (memory 65537 None) { page_size_log2 = Some 0 }) }
    ensures of_stated_pages { IsMemoryValid usual_features (record (memory 65536 None) { page_size_log2 = Some 16 }) }
    ensures of_most_bytes { IsMemoryValid usual_features (record (memory (2 ^ 32 - 1) None) { page_size_log2 = Some 0 }) }
    ensures of_all_addresses_in_bytes { ¬ IsMemoryValid usual_features (record (memory (2 ^ 32) None) { page_size_log2 = Some 0 }) }
    ensures of_16_bytes { ¬ IsMemoryValid usual_features (record (memory 1 None) { page_size_log2 = Some 4 }) }
    ensures stated_pages_need_their_feature { ¬ IsMemoryValid (record usual_features { custom_page_sizes = false })
        (record (memory 1 None) { page_size_log2 = Some 16 }) }
{}

fn tables()
    ensures of_functions { IsTableValid (record usual_features { reference_types = false }) [] (table funcref 1 (Some 1)) }
    ensures minimum_above_maximum { ¬ IsTableValid usual_features [] (table funcref 2 (Some 1)) }
    ensures of_most_elements { IsTableValid usual_features [] (table funcref (2 ^ 32 - 1) None) }
    ensures of_one_element_more { ¬ IsTableValid usual_features [] (table funcref (2 ^ 32) None) }
    ensures wide_of_one_element_more { IsTableValid usual_features [] (record (table funcref (2 ^ 32) None) { table64 = true }) }
    ensures of_others { IsTableValid usual_features [] (table (nullable (plain heap.Extern)) 1 None) }
    ensures of_others_without_reference_types { ¬ IsTableValid (record usual_features { reference_types = false }) []
        (table (nullable (plain heap.Extern)) 1 None) }
    ensures of_an_unknown_type { ¬ IsTableValid usual_features [] (table (nullable (Concrete 0)) 1 None) }
    ensures wide { IsTableValid usual_features [] (record (table funcref 1 None) { table64 = true }) }
    ensures wide_without_its_feature { ¬ IsTableValid (record usual_features { memory64 = false }) []
        (record (table funcref 1 None) { table64 = true }) }
    ensures shared { IsTableValid usual_features [] (record (table (nullable (Abstract true heap.Func)) 1 None) { shared = true }) }
    ensures shared_of_unshared { ¬ IsTableValid usual_features [] (record (table funcref 1 None) { shared = true }) }
    ensures shared_of_a_shared_type { IsTableValid usual_features (shared_type plain_func
        ∷ []) (record (table (nullable (Concrete 0)) 1 None) { shared = true }) }
    ensures shared_of_an_unshared_type { ¬ IsTableValid usual_features (final_type plain_func
        ∷ []) (record (table (nullable (Concrete 0)) 1 None) { shared = true }) }
    ensures shared_without_its_feature { ¬ IsTableValid (record usual_features { shared_everything_threads = false })
        (shared_type plain_func ∷ []) (record (table (nullable (Concrete 0)) 1 None) { shared = true }) }
    ensures unshared_of_a_shared_type { IsTableValid usual_features (shared_type plain_func ∷ []) (table (nullable (Concrete 0)) 1 None) }
{}

fn globals()
    ensures number { IsGlobalValid usual_features [] (constant_global I32) }
    ensures of_an_unknown_type { ¬ IsGlobalValid usual_features [] (constant_global (Ref (nullable (Concrete 0)))) }
    ensures of_a_type { IsGlobalValid usual_features (final_type plain_func ∷ []) (constant_global (Ref (nullable (Concrete 0)))) }
    ensures shared { IsGlobalValid usual_features [] (record (constant_global shared_anyref) { shared = true }) }
    ensures shared_of_unshared { ¬ IsGlobalValid usual_features [] (record (constant_global anyref) { shared = true }) }
    ensures shared_without_its_feature { ¬ IsGlobalValid (record usual_features { shared_everything_threads = false }) []
        (record (constant_global I32) { shared = true }) }
{}

fn functions_and_tags()
    ensures function { IsFuncTypeIndex (final_type (giving (I32 ∷ [])) ∷ []) 0 }
    ensures function_of_a_struct { ¬ IsFuncTypeIndex (final_type empty_struct ∷ []) 0 }
    ensures function_of_no_type { ¬ IsFuncTypeIndex [] 0 }
    ensures tag { IsTagValid (final_type plain_func ∷ []) 0 }
    ensures tag_with_a_value { IsTagValid (final_type (taking (I32 ∷ [])) ∷ []) 0 }
    ensures tag_of_a_struct { ¬ IsTagValid (final_type empty_struct ∷ []) 0 }
    ensures tag_of_no_type { ¬ IsTagValid [] 0 }
    ensures tag_with_a_result { ¬ IsTagValid (final_type (giving (I32 ∷ [])) ∷ []) 0 }
{}

fn entities()
    ensures one_of_each_kind { AreEntitiesValid usual_features (final_type plain_func ∷ []) one_of_each }
    ensures tag_of_no_type { ¬ AreEntitiesValid usual_features (final_type plain_func ∷ []) (record one_of_each { tags = 0 ∷ 1 ∷ [] }) }
    ensures function_of_no_type { ¬ AreEntitiesValid usual_features (final_type plain_func
        ∷ []) (record one_of_each { funcs = 0 ∷ 1 ∷ [] }) }
    ensures table_above_its_maximum { ¬ AreEntitiesValid usual_features (final_type plain_func
        ∷ []) (record one_of_each { tables = table funcref 2 (Some 1) ∷ [] }) }
    ensures memory_above_its_maximum { ¬ AreEntitiesValid usual_features (final_type plain_func
        ∷ []) (record one_of_each { memories = memory 2 (Some 1) ∷ [] }) }
    ensures global_of_no_type { ¬ AreEntitiesValid usual_features (final_type plain_func
        ∷ []) (record one_of_each { globals = constant_global (Ref (nullable (Concrete 1))) ∷ [] }) }
{}

fn counts()
    ensures one_of_each_kind { AreCountsEnabled usual_features one_of_each }
    ensures several { AreCountsEnabled usual_features
        (record one_of_each { tables = table funcref 1 None ∷ table funcref 1 None ∷ []; memories = memory 1 None ∷ memory 1 None ∷ [] }) }
    ensures one_memory { AreCountsEnabled (record usual_features { multi_memory = false }) one_of_each }
    ensures a_second_memory { ¬ AreCountsEnabled (record usual_features { multi_memory = false })
        (record one_of_each { memories = memory 1 None ∷ memory 1 None ∷ [] }) }
    ensures one_table { AreCountsEnabled (record usual_features { reference_types = false }) one_of_each }
    ensures a_second_table { ¬ AreCountsEnabled (record usual_features { reference_types = false })
        (record one_of_each { tables = table funcref 1 None ∷ table funcref 1 None ∷ [] }) }
    ensures no_tag { AreCountsEnabled (record usual_features { exceptions = false }) (record one_of_each { tags = [] }) }
    ensures a_tag { ¬ AreCountsEnabled (record usual_features { exceptions = false }) one_of_each }
{}

fn sizes()
    ensures of_a_function { size_in (final_type (Func (func I32 I64)) ∷ []) (entity.Func 0) ≡ 3 }
    ensures of_a_plain_function { size_in (final_type plain_func ∷ []) (entity.Func 0) ≡ 1 }
    ensures of_a_memory { size_in [] (entity.Memory (memory 1 None)) ≡ 1 }
    ensures of_a_tag { size_in (final_type (Func (func I32 I64)) ∷ []) (entity.Tag 0) ≡ 1 }
    ensures of_a_typed_function { IsTyped (final_type plain_func ∷ []) (entity.Func 0) }
    ensures of_an_untyped_function { ¬ IsTyped [] (entity.Func 0) }
{}
