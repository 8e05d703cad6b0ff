ghost use Rattle.std.specs.Prelude.{ℕ, [], ◌∷◌, Some, None, codes};
ghost use Rattle.smith_types.specs.Syntax.value_type.ValType.TheVariants.{I32, I64};
ghost use Rattle.smith_types.specs.Syntax.entity_type.EntityType.TheVariants as entity;
ghost use Rattle.smith_types.specs.Syntax.entity_type.ExportKind.TheVariants as kind;
ghost use Rattle.smith_types.specs.Flags.{funcref};
ghost use Rattle.smith_types.specs.Exports.{IsEntityAt, AreDistinct, AreExportsStanding, AreExportsValid, IsStartValid};
ghost use Rattle.smith_types.specs.ExampleTypes.{final_type, empty_struct, plain_func, giving, taking};
ghost use Rattle.smith_types.specs.ExampleEntities.{memory, table, constant_global, one_of_each};

fn entities()
    ensures function { IsEntityAt one_of_each kind.Func 0 (entity.Func 0) }
    ensures of_another_kind { ¬ IsEntityAt one_of_each kind.Func 0 (entity.Tag 0) }
    ensures past_the_functions { ¬ IsEntityAt one_of_each kind.Func 1 (entity.Func 0) }
    ensures table { IsEntityAt one_of_each kind.Table 0 (entity.Table (table funcref 10 None)) }
    ensures another_table { ¬ IsEntityAt one_of_each kind.Table 0 (entity.Table (table funcref 1 None)) }
    ensures past_the_tables { ¬ IsEntityAt one_of_each kind.Table 1 (entity.Table (table funcref 10 None)) }
    ensures memory { IsEntityAt one_of_each kind.Memory 0 (entity.Memory (memory 1 None)) }
    ensures past_the_memories { ¬ IsEntityAt one_of_each kind.Memory 1 (entity.Memory (memory 1 None)) }
    ensures global { IsEntityAt one_of_each kind.Global 0 (entity.Global (constant_global I32)) }
    ensures another_global { ¬ IsEntityAt one_of_each kind.Global 0 (entity.Global (constant_global I64)) }
    ensures past_the_globals { ¬ IsEntityAt one_of_each kind.Global 1 (entity.Global (constant_global I32)) }
    ensures tag { IsEntityAt one_of_each kind.Tag 0 (entity.Tag 0) }
    ensures past_the_tags { ¬ IsEntityAt one_of_each kind.Tag 1 (entity.Tag 0) }
{}

fn distinct()
    ensures two { AreDistinct {A = ℕ} (1 ∷ 2 ∷ []) }
    ensures the_same_twice { ¬ AreDistinct {A = ℕ} (1 ∷ 2 ∷ 1 ∷ []) }
{}

fn exports()
    ensures two_names { AreExportsValid one_of_each ((codes "a", kind.Func, 0) ∷ (codes "b", kind.Func, 0) ∷ []) }
    ensures tag { AreExportsValid one_of_each ((codes "a", kind.Tag, 0) ∷ []) }
    ensures past_the_tags { ¬ AreExportsValid one_of_each ((codes "a", kind.Tag, 1) ∷ []) }
    ensures entities_of_a_name_stand { AreExportsStanding one_of_each ((codes "a", kind.Func, 0) ∷ (codes "a", kind.Func, 0) ∷ []) }
    ensures a_name_twice { ¬ AreExportsValid one_of_each ((codes "a", kind.Func, 0) ∷ (codes "a", kind.Func, 0) ∷ []) }
    ensures past_its_space { ¬ AreExportsValid one_of_each ((codes "a", kind.Func, 1) ∷ []) }
{}

fn start()
    ensures none { IsStartValid [] [] None }
    ensures taking_and_giving_nothing { IsStartValid (final_type plain_func ∷ []) (0 ∷ []) (Some 0) }
    ensures taking_a_value { ¬ IsStartValid (final_type (taking (I32 ∷ [])) ∷ []) (0 ∷ []) (Some 0) }
    ensures giving_a_value { ¬ IsStartValid (final_type (giving (I32 ∷ [])) ∷ []) (0 ∷ []) (Some 0) }
    ensures of_a_struct_type { ¬ IsStartValid (final_type empty_struct ∷ []) (0 ∷ []) (Some 0) }
    ensures past_the_functions { ¬ IsStartValid (final_type plain_func ∷ []) [] (Some 0) }
{}
