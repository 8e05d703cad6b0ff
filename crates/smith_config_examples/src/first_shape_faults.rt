// The fault of a shape that is reported, and the conditions of lack of memory.

ghost use Rattle.std.specs.Prelude.{◌≡◌, ℕ, ◌+◌, ◌^◌, List, [], ◌∷◌, length, Some};
ghost use Rattle.smith_bytes.specs.declared.error.Error.TheVariants.{Memory, Shape, EmptyChoose};
ghost use Rattle.smith_bytes.specs.declared.error.Which.TheVariants.{Exports, ModuleShape};
ghost use Rattle.smith_bytes.specs.declared.error.ShapeFault.TheVariants.{TooLong, BadType, Index};
ghost use Rattle.smith_types.specs.ExampleTypes.{open_type, empty_struct};
ghost use Rattle.smith_config.specs.Config.{default_config};
ghost use Rattle.smith_config.specs.ShapeFaults.{IsFirstShapeFault, IsRefused};
ghost use Rattle.smith_config.specs.ExampleShapes.{empty_shape, of_types};

fn first_faults()
    ensures type_before_index { IsFirstShapeFault ModuleShape default_config
        (record (of_types (open_type (Some 0) empty_struct ∷ [])) { funcs = 5 ∷ [] }) BadType }
    ensures index_after_type { ¬ IsFirstShapeFault ModuleShape default_config
        (record (of_types (open_type (Some 0) empty_struct ∷ [])) { funcs = 5 ∷ [] }) Index }
    ensures length_before_all { (tags : List ℕ) → length tags ≡ 2 ^ 29 + 1 → IsFirstShapeFault ModuleShape default_config
        (record empty_shape { tags = tags }) TooLong }
{}

fn refusals()
    ensures for_its_use { IsRefused ModuleShape default_config (of_types (open_type (Some 0) empty_struct ∷ []))
        (Shape ModuleShape BadType) }
    ensures for_another_use { ¬ IsRefused ModuleShape default_config (of_types (open_type (Some 0) empty_struct ∷ []))
        (Shape Exports BadType) }
    ensures for_want_of_memory { IsRefused ModuleShape default_config empty_shape Memory }
    ensures too_long_before_memory { (tags : List ℕ) → length tags ≡ 2 ^ 29 + 1 → ¬ IsRefused ModuleShape default_config
        (record empty_shape { tags = tags }) Memory }
    ensures as_no_shape_is { ¬ IsRefused ModuleShape default_config empty_shape EmptyChoose }
{}
