ghost use Rattle.std.specs.Prelude.{ℕ, [], ◌∷◌, ◌≡◌, false, None, codes};
ghost use Rattle.smith_types.specs.Syntax.entity_type.EntityType.TheVariants as entity;
ghost use Rattle.smith_types.specs.Syntax.imports.Imports.TheVariants.{Single, Compact1, Compact2};
ghost use Rattle.smith_types.specs.Imports.{flattened, import_of, imported, func_of, memory_of, imported_spaces, Defines, IsImportsValid};
ghost use Rattle.smith_types.specs.Syntax.value_type.ValType.TheVariants.{I32};
ghost use Rattle.smith_types.specs.Flags.{funcref};
ghost use Rattle.smith_types.specs.ExampleFeatures.{usual_features};
ghost use Rattle.smith_types.specs.ExampleEntities.{memory, table, constant_global, item, mixed_imports};

fn flat_imports()
    ensures of_several_types { flattened (Compact1 (codes "m") (item (codes "a") (entity.Func 0) ∷ item (codes "b") (entity.Func 1) ∷ [])
        ∷ []) ≡ import_of (codes "m") (codes "a") (entity.Func 0) ∷ import_of (codes "m") (codes "b") (entity.Func 1) ∷ [] }
    ensures of_one_type { flattened (Compact2 (codes "m") (entity.Func 0) (codes "a" ∷ codes "b" ∷ []) ∷ [])
        ≡ import_of (codes "m") (codes "a") (entity.Func 0) ∷ import_of (codes "m") (codes "b") (entity.Func 0) ∷ [] }
    ensures in_order { flattened (Single (import_of (codes "m") (codes "a") (entity.Func 0)) ∷ Compact2 (codes "n") (entity.Tag 0)
        (codes "b" ∷ []) ∷ []) ≡ import_of (codes "m") (codes "a") (entity.Func 0) ∷ import_of (codes "n") (codes "b") (entity.Tag 0) ∷ [] }
    ensures empty_group { flattened (Compact2 (codes "m") (entity.Func 0) [] ∷ []) ≡ [] }
{}

fn groups()
    ensures filled { IsImportsValid usual_features (Compact2 (codes "m") (entity.Func 0) (codes "a" ∷ [])) }
    ensures empty { ¬ IsImportsValid usual_features (Compact2 (codes "m") (entity.Func 0) []) }
    ensures empty_of_several_types { ¬ IsImportsValid usual_features (Compact1 (codes "m") []) }
    ensures single_without_compact_imports { IsImportsValid (record usual_features { compact_imports = false })
        (Single (import_of (codes "m") (codes "a") (entity.Func 0))) }
    ensures not_enabled { ¬ IsImportsValid (record usual_features { compact_imports = false })
        (Compact2 (codes "m") (entity.Func 0) (codes "a" ∷ [])) }
{}

fn imported_entities()
    ensures functions { imported func_of mixed_imports ≡ 3 ∷ 1 ∷ [] }
    ensures memories { imported memory_of mixed_imports ≡ memory 1 None ∷ [] }
    ensures spaces { imported_spaces mixed_imports ≡ record {
      tags = 2 ∷ [];
      funcs = 3 ∷ 1 ∷ [];
      tables = table funcref 10 None ∷ [];
      memories = memory 1 None ∷ [];
      globals = constant_global I32 ∷ [];
    } }
{}

fn definitions()
    ensures after_imports { Defines {A = ℕ} (3 ∷ []) 2 (3 ∷ 5 ∷ 4 ∷ []) }
    ensures nothing_defined { Defines {A = ℕ} (3 ∷ []) 0 (3 ∷ []) }
    ensures an_import_lost { ¬ Defines {A = ℕ} (3 ∷ []) 0 [] }
    ensures another_count { ¬ Defines {A = ℕ} (3 ∷ []) 1 (3 ∷ 5 ∷ 4 ∷ []) }
    ensures before_imports { ¬ Defines {A = ℕ} (3 ∷ []) 1 (5 ∷ 3 ∷ []) }
{}
