// Shapes of modules.

ghost use Rattle.std.specs.Prelude.{◌≡◌, [], ◌∷◌};
ghost use Rattle.smith_config.specs.declared.shape.Shape.{Shape};
ghost use Rattle.smith_decode.specs.ExampleModules.{dropping, no_item, of_wide_memory, wide_memory};
ghost use Rattle.smith_decode.specs.Modules.{syntax_of};
ghost use Rattle.smith_shape.specs.ExampleShapes.{constant, no_shape, of_a_global};
ghost use Rattle.smith_shape.specs.ModuleShapes.{IsShapeOf, shape_of};

fn shapes()
    ensures of_nothing { shape_of no_item ≡ no_shape }
    ensures without_a_body { shape_of dropping ≡ record no_shape { funcs = 0 ∷ [] } }
    ensures of_a_memory { shape_of of_wide_memory ≡ record no_shape { memories = wide_memory ∷ [] } }
    ensures without_an_initialiser { shape_of of_a_global
        ≡ record no_shape { globals = constant ∷ [] } }
{}

fn parts()
    ensures other_type { ¬ IsShapeOf (syntax_of dropping) (record no_shape { funcs = 1 ∷ [] }) }
    ensures no_global { ¬ IsShapeOf (syntax_of of_a_global) no_shape }
    ensures several_supertypes { (shape : Shape)
        → ¬ IsShapeOf (syntax_of (record no_item { further_supertypes = ((0 ∷ []) ∷ []) ∷ [] })) shape }
{}
