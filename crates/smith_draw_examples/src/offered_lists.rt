// The subtypes and supertypes that are offered for each heap type. The clauses are proved; nothing
// calls these functions.

ghost use Rattle.std.specs.Prelude.{◌≡◌, [], ◌∷◌, true};
ghost use Rattle.smith_types.specs.Syntax.value_type.AbstractHeapType.TheVariants as heap;
ghost use Rattle.smith_types.specs.Syntax.value_type.HeapType.TheVariants.{Abstract, Concrete, Exact};
ghost use Rattle.smith_types.specs.ExampleTypes.{plain, struct_and_below};
ghost use Rattle.smith_config.specs.Config.{default_config};
ghost use Rattle.smith_draw_types.specs.Offered.{subtypes_offered, supertypes_offered};
ghost use Rattle.smith_draw_types.specs.ExampleReferenceScopes.{of_each_kind, chain};

#[tactic(auto, unfolding(smith_draw_types::specs::Offered::subtypes_offered))]
fn subtypes()
    ensures of_any { subtypes_offered default_config of_each_kind (plain heap.Any) ≡ plain heap.Any ∷ plain heap.Eq ∷ plain heap.Struct
        ∷ plain heap.Array ∷ plain heap.I31 ∷ plain heap.None ∷ Concrete 1 ∷ Concrete 7 ∷ Concrete 0 ∷ Concrete 6 ∷ [] }
    ensures of_eq { subtypes_offered default_config of_each_kind (plain heap.Eq) ≡ plain heap.Eq ∷ plain heap.Struct ∷ plain heap.Array
        ∷ plain heap.I31 ∷ plain heap.None ∷ Concrete 1 ∷ Concrete 7 ∷ Concrete 0 ∷ Concrete 6 ∷ [] }
    ensures of_struct { subtypes_offered default_config of_each_kind (plain heap.Struct) ≡ plain heap.Struct ∷ plain heap.Struct
        ∷ plain heap.None ∷ Concrete 0 ∷ Concrete 6 ∷ [] }
    ensures of_array { subtypes_offered default_config of_each_kind (plain heap.Array) ≡ plain heap.Array ∷ plain heap.Array
        ∷ plain heap.None ∷ Concrete 1 ∷ Concrete 7 ∷ [] }
    ensures of_i31 { subtypes_offered default_config of_each_kind (plain heap.I31) ≡ plain heap.I31 ∷ plain heap.None ∷ [] }
    ensures of_none { subtypes_offered default_config of_each_kind (plain heap.None) ≡ plain heap.None ∷ [] }
    ensures of_func { subtypes_offered default_config of_each_kind (plain heap.Func) ≡ plain heap.Func ∷ plain heap.NoFunc ∷ Concrete 2
        ∷ [] }
    ensures of_nofunc { subtypes_offered default_config of_each_kind (plain heap.NoFunc) ≡ plain heap.NoFunc ∷ [] }
    ensures of_extern { subtypes_offered default_config of_each_kind (plain heap.Extern) ≡ plain heap.Extern ∷ plain heap.NoExtern ∷ [] }
    ensures of_noextern { subtypes_offered default_config of_each_kind (plain heap.NoExtern) ≡ plain heap.NoExtern ∷ [] }
    ensures of_exn { subtypes_offered default_config of_each_kind (plain heap.Exn) ≡ plain heap.Exn ∷ [] }
    ensures of_noexn { subtypes_offered default_config of_each_kind (plain heap.NoExn) ≡ plain heap.NoExn ∷ [] }
{}

#[tactic(auto, unfolding(smith_draw_types::specs::Offered::subtypes_offered))]
fn shared_subtypes()
    ensures of_any { subtypes_offered default_config of_each_kind (Abstract true heap.Any) ≡ Abstract true heap.Any ∷ Abstract true heap.Eq
        ∷ Abstract true heap.Struct ∷ Abstract true heap.Array ∷ Abstract true heap.I31 ∷ Abstract true heap.None ∷ Concrete 4 ∷ Concrete 3
        ∷ [] }
    ensures of_eq { subtypes_offered default_config of_each_kind (Abstract true heap.Eq) ≡ Abstract true heap.Eq ∷ Abstract true heap.Struct
        ∷ Abstract true heap.Array ∷ Abstract true heap.I31 ∷ Abstract true heap.None ∷ Concrete 4 ∷ Concrete 3 ∷ [] }
    ensures of_struct { subtypes_offered default_config of_each_kind (Abstract true heap.Struct) ≡ Abstract true heap.Struct
        ∷ Abstract true heap.Struct ∷ Abstract true heap.None ∷ Concrete 3 ∷ [] }
    ensures of_array { subtypes_offered default_config of_each_kind (Abstract true heap.Array) ≡ Abstract true heap.Array
        ∷ Abstract true heap.Array ∷ Abstract true heap.None ∷ Concrete 4 ∷ [] }
    ensures of_i31 { subtypes_offered default_config of_each_kind (Abstract true heap.I31) ≡ Abstract true heap.I31
        ∷ Abstract true heap.None ∷ [] }
    ensures of_none { subtypes_offered default_config of_each_kind (Abstract true heap.None) ≡ Abstract true heap.None ∷ [] }
    ensures of_func { subtypes_offered default_config of_each_kind (Abstract true heap.Func) ≡ Abstract true heap.Func
        ∷ Abstract true heap.NoFunc ∷ Concrete 5 ∷ [] }
    ensures of_nofunc { subtypes_offered default_config of_each_kind (Abstract true heap.NoFunc) ≡ Abstract true heap.NoFunc ∷ [] }
    ensures of_extern { subtypes_offered default_config of_each_kind (Abstract true heap.Extern) ≡ Abstract true heap.Extern
        ∷ Abstract true heap.NoExtern ∷ [] }
    ensures of_noextern { subtypes_offered default_config of_each_kind (Abstract true heap.NoExtern) ≡ Abstract true heap.NoExtern ∷ [] }
    ensures of_exn { subtypes_offered default_config of_each_kind (Abstract true heap.Exn) ≡ Abstract true heap.Exn ∷ [] }
    ensures of_noexn { subtypes_offered default_config of_each_kind (Abstract true heap.NoExn) ≡ Abstract true heap.NoExn ∷ [] }
{}

#[tactic(auto, unfolding(smith_draw_types::specs::Offered::subtypes_offered))]
fn subtypes_of_types()
    ensures of_a_struct { subtypes_offered default_config struct_and_below (Concrete 0) ≡ Concrete 0 ∷ Concrete 1 ∷ plain heap.None ∷ [] }
    ensures of_an_array { subtypes_offered default_config of_each_kind (Concrete 1) ≡ Concrete 1 ∷ plain heap.None ∷ [] }
    ensures of_a_function { subtypes_offered default_config of_each_kind (Concrete 2) ≡ Concrete 2 ∷ plain heap.NoFunc ∷ [] }
    ensures of_a_shared_struct { subtypes_offered default_config of_each_kind (Concrete 3) ≡ Concrete 3 ∷ Abstract true heap.None ∷ [] }
    ensures of_a_shared_array { subtypes_offered default_config of_each_kind (Concrete 4) ≡ Concrete 4 ∷ Abstract true heap.None ∷ [] }
    ensures of_a_shared_function { subtypes_offered default_config of_each_kind (Concrete 5) ≡ Concrete 5 ∷ Abstract true heap.NoFunc ∷ [] }
    ensures direct_ones_alone { subtypes_offered default_config (chain 2) (Concrete 0) ≡ Concrete 0 ∷ Concrete 1 ∷ plain heap.None ∷ [] }
    ensures of_an_exact_type { subtypes_offered default_config struct_and_below (Exact 0) ≡ Exact 0 ∷ [] }
{}

#[tactic(auto, unfolding(smith_draw_types::specs::Offered::supertypes_offered))]
fn supertypes()
    ensures of_any { supertypes_offered default_config of_each_kind (plain heap.Any) ≡ plain heap.Any ∷ [] }
    ensures of_eq { supertypes_offered default_config of_each_kind (plain heap.Eq) ≡ plain heap.Eq ∷ plain heap.Any ∷ [] }
    ensures of_struct { supertypes_offered default_config of_each_kind (plain heap.Struct) ≡ plain heap.Struct ∷ plain heap.Any
        ∷ plain heap.Eq ∷ [] }
    ensures of_array { supertypes_offered default_config of_each_kind (plain heap.Array) ≡ plain heap.Array ∷ plain heap.Any ∷ plain heap.Eq
        ∷ [] }
    ensures of_i31 { supertypes_offered default_config of_each_kind (plain heap.I31) ≡ plain heap.I31 ∷ plain heap.Any ∷ plain heap.Eq
        ∷ [] }
    ensures of_none { supertypes_offered default_config of_each_kind (plain heap.None) ≡ plain heap.None ∷ plain heap.Any ∷ plain heap.Eq
        ∷ plain heap.Struct ∷ plain heap.Array ∷ plain heap.I31 ∷ Concrete 1 ∷ Concrete 7 ∷ Concrete 0 ∷ Concrete 6 ∷ [] }
    ensures of_func { supertypes_offered default_config of_each_kind (plain heap.Func) ≡ plain heap.Func ∷ [] }
    ensures of_nofunc { supertypes_offered default_config of_each_kind (plain heap.NoFunc) ≡ plain heap.NoFunc ∷ plain heap.Func
        ∷ Concrete 2 ∷ [] }
    ensures of_extern { supertypes_offered default_config of_each_kind (plain heap.Extern) ≡ plain heap.Extern ∷ [] }
    ensures of_noextern { supertypes_offered default_config of_each_kind (plain heap.NoExtern) ≡ plain heap.NoExtern ∷ plain heap.Extern
        ∷ [] }
    ensures of_exn { supertypes_offered default_config of_each_kind (plain heap.Exn) ≡ plain heap.Exn ∷ [] }
    ensures of_noexn { supertypes_offered default_config of_each_kind (plain heap.NoExn) ≡ plain heap.NoExn ∷ plain heap.Exn ∷ [] }
{}

#[tactic(auto, unfolding(smith_draw_types::specs::Offered::supertypes_offered))]
fn shared_supertypes()
    ensures of_any { supertypes_offered default_config of_each_kind (Abstract true heap.Any) ≡ Abstract true heap.Any ∷ [] }
    ensures of_eq { supertypes_offered default_config of_each_kind (Abstract true heap.Eq) ≡ Abstract true heap.Eq ∷ Abstract true heap.Any
        ∷ [] }
    ensures of_struct { supertypes_offered default_config of_each_kind (Abstract true heap.Struct) ≡ Abstract true heap.Struct
        ∷ Abstract true heap.Any ∷ Abstract true heap.Eq ∷ [] }
    ensures of_none { supertypes_offered default_config of_each_kind (Abstract true heap.None) ≡ Abstract true heap.None
        ∷ Abstract true heap.Any ∷ Abstract true heap.Eq ∷ Abstract true heap.Struct ∷ Abstract true heap.Array ∷ Abstract true heap.I31
        ∷ Concrete 4 ∷ Concrete 3 ∷ [] }
    ensures of_array { supertypes_offered default_config of_each_kind (Abstract true heap.Array) ≡ Abstract true heap.Array
        ∷ Abstract true heap.Any ∷ Abstract true heap.Eq ∷ [] }
    ensures of_i31 { supertypes_offered default_config of_each_kind (Abstract true heap.I31) ≡ Abstract true heap.I31
        ∷ Abstract true heap.Any ∷ Abstract true heap.Eq ∷ [] }
    ensures of_func { supertypes_offered default_config of_each_kind (Abstract true heap.Func) ≡ Abstract true heap.Func ∷ [] }
    ensures of_nofunc { supertypes_offered default_config of_each_kind (Abstract true heap.NoFunc) ≡ Abstract true heap.NoFunc
        ∷ Abstract true heap.Func ∷ Concrete 5 ∷ [] }
    ensures of_extern { supertypes_offered default_config of_each_kind (Abstract true heap.Extern) ≡ Abstract true heap.Extern ∷ [] }
    ensures of_noextern { supertypes_offered default_config of_each_kind (Abstract true heap.NoExtern) ≡ Abstract true heap.NoExtern
        ∷ Abstract true heap.Extern ∷ [] }
    ensures of_exn { supertypes_offered default_config of_each_kind (Abstract true heap.Exn) ≡ Abstract true heap.Exn ∷ [] }
    ensures of_noexn { supertypes_offered default_config of_each_kind (Abstract true heap.NoExn) ≡ Abstract true heap.NoExn
        ∷ Abstract true heap.Exn ∷ [] }
{}

#[tactic(auto, unfolding(smith_draw_types::specs::Offered::supertypes_offered, smith_draw_types::specs::Offered::ancestors))]
fn supertypes_of_types()
    ensures of_a_struct { supertypes_offered default_config of_each_kind (Concrete 0) ≡ Concrete 0 ∷ plain heap.Any ∷ plain heap.Eq
        ∷ plain heap.Struct ∷ [] }
    ensures of_an_array { supertypes_offered default_config of_each_kind (Concrete 1) ≡ Concrete 1 ∷ plain heap.Any ∷ plain heap.Eq
        ∷ plain heap.Array ∷ [] }
    ensures of_a_function { supertypes_offered default_config of_each_kind (Concrete 2) ≡ Concrete 2 ∷ plain heap.Func ∷ [] }
    ensures of_a_shared_struct { supertypes_offered default_config of_each_kind (Concrete 3) ≡ Concrete 3 ∷ Abstract true heap.Any
        ∷ Abstract true heap.Eq ∷ Abstract true heap.Struct ∷ [] }
    ensures of_a_shared_array { supertypes_offered default_config of_each_kind (Concrete 4) ≡ Concrete 4 ∷ Abstract true heap.Any
        ∷ Abstract true heap.Eq ∷ Abstract true heap.Array ∷ [] }
    ensures of_a_shared_function { supertypes_offered default_config of_each_kind (Concrete 5) ≡ Concrete 5 ∷ Abstract true heap.Func ∷ [] }
    ensures nearest_first { supertypes_offered default_config (chain 2) (Concrete 2) ≡ Concrete 2 ∷ plain heap.Any ∷ plain heap.Eq
        ∷ plain heap.Struct ∷ Concrete 1 ∷ Concrete 0 ∷ [] }
{}
