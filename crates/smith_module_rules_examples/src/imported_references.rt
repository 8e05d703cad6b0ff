ghost use Rattle.smith_types.specs.Syntax.value_type.HeapType.TheVariants.{Concrete, Exact};
ghost use Rattle.smith_module_rules.specs.Module.{IsValid};
ghost use Rattle.smith_module_rules_examples.specs.ExampleReferences.{imported_read, refers_to_function};

fn numbers()
    ensures an_imported_one_without_gc { IsValid imported_read }
{}

fn functions()
    ensures an_imported_one_by_its_type { IsValid (refers_to_function (Concrete 0) 0) }
    ensures an_imported_one_exactly { ¬ IsValid (refers_to_function (Exact 0) 0) }
    ensures a_defined_one_exactly { IsValid (refers_to_function (Exact 0) 1) }
    ensures none_exactly { ¬ IsValid (refers_to_function (Exact 0) 2) }
{}
