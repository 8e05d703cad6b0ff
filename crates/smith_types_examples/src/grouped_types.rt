// Types in groups, index spaces that grow, and the value types in both.

ghost use Rattle.std.specs.Prelude.{◌≡◌, [], ◌∷◌, Some, None, codes};
ghost use Rattle.smith_types.specs.Syntax.entity_type.EntityType.TheVariants as entity;
ghost use Rattle.smith_types.specs.Syntax.imports.Imports.TheVariants.{Single, Compact1, Compact2};
ghost use Rattle.smith_types.specs.Syntax.value_type.ValType.TheVariants.{I32, I64, Ref};
ghost use Rattle.smith_types.specs.Flags.{funcref};
ghost use Rattle.smith_types.specs.Groups.{ranges_from, space_of, AreFollowing};
ghost use Rattle.smith_types.specs.HeldValues.{values_in};
ghost use Rattle.smith_types.specs.Imports.{import_of};
ghost use Rattle.smith_types.specs.EntitySpaces.{with_entity, with_entities, entities_of};
ghost use Rattle.smith_types.specs.ExampleTypes.{open_type, final_type, empty_struct, plain_func, taking, struct_and_below, below_itself};
ghost use Rattle.smith_types.specs.ExampleTypes.{range};
ghost use Rattle.smith_types.specs.ExampleEntities.{memory, table, constant_global, item, one_of_each};

fn groups()
    ensures one_after_another { ranges_from 1 (struct_and_below ∷ [] ∷ below_itself ∷ []) ≡ range 1 3 ∷ range 3 3 ∷ range 3 4 ∷ [] }
    ensures none { space_of [] ≡ record { types = []; groups = [] } }
    ensures types_of_all { space_of ((final_type plain_func ∷ []) ∷ [] ∷ struct_and_below ∷ [])
        ≡ record { types = final_type plain_func ∷ struct_and_below; groups = range 0 1 ∷ range 1 1 ∷ range 1 3 ∷ [] } }
{}

fn following()
    ensures no_type { AreFollowing [] }
    ensures supertype_before { AreFollowing struct_and_below }
    ensures its_own_supertype { ¬ AreFollowing below_itself }
    ensures supertype_past_the_end { ¬ AreFollowing (open_type (Some 7) empty_struct ∷ []) }
    ensures of_another_kind { ¬ AreFollowing (open_type None plain_func ∷ open_type (Some 0) empty_struct ∷ []) }
{}

fn named_values()
    ensures of_types_tables_and_globals { values_in (final_type (taking (I64 ∷ [])) ∷ []) one_of_each ≡ I64 ∷ Ref funcref ∷ I32 ∷ [] }
    ensures of_packed_or_no_fields { values_in struct_and_below (record one_of_each { tables = []; globals = [] }) ≡ [] }
{}

fn entity_spaces()
    ensures function { with_entity one_of_each (entity.Func 5) ≡ record one_of_each { funcs = 0 ∷ 5 ∷ [] } }
    ensures memory { with_entity one_of_each (entity.Memory (memory 2 None))
        ≡ record one_of_each { memories = memory 1 None ∷ memory 2 None ∷ [] } }
    ensures in_order { with_entities one_of_each (entity.Tag 3 ∷ entity.Tag 4 ∷ []) ≡ record one_of_each { tags = 0 ∷ 3 ∷ 4 ∷ [] } }
    ensures of_one_import { entities_of (Single (import_of (codes "m") (codes "f") (entity.Func 7))) ≡ entity.Func 7 ∷ [] }
    ensures of_several_types { entities_of (Compact1 (codes "m") (item (codes "a") (entity.Func 0) ∷ item (codes "b") (entity.Tag 1) ∷ []))
        ≡ entity.Func 0 ∷ entity.Tag 1 ∷ [] }
    ensures of_one_type { entities_of (Compact2 (codes "m") (entity.Func 7) (codes "a" ∷ codes "b" ∷ [])) ≡ entity.Func 7 ∷ entity.Func 7
        ∷ [] }
    ensures of_an_empty_group { entities_of (Compact2 (codes "m") (entity.Func 7) []) ≡ [] }
{}
