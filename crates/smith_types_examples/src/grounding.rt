ghost use Rattle.std.specs.Prelude.{[], ◌∷◌, true, Some, None};
ghost use Rattle.smith_types.specs.Syntax.value_type.AbstractHeapType.TheVariants as heap;
ghost use Rattle.smith_types.specs.Syntax.value_type.HeapType.TheVariants.{Abstract, Concrete, Exact};
ghost use Rattle.smith_types.specs.Syntax.value_type.ValType.TheVariants.{I64, Ref};
ghost use Rattle.smith_types.specs.Syntax.composite_type.StorageType.TheVariants.{I8, Val};
ghost use Rattle.smith_types.specs.Syntax.Features.{every_feature};
ghost use Rattle.smith_types.specs.Grounded.{IsGrounded};
ghost use Rattle.smith_types.specs.ExampleFeatures.{usual_features};
ghost use Rattle.smith_types.specs.ExampleTypes.{open_type, final_type, shared_type, struct, array, empty_struct, plain_func, plain};
ghost use Rattle.smith_types.specs.ExampleTypes.{not_null, anyref, constant, variable};
ghost use Rattle.smith_types.specs.ExampleContexts.{context_of};

fn structs()
    ensures its_type { IsGrounded (context_of usual_features (final_type empty_struct ∷ []) [] 0) (Concrete 0) }
    ensures its_kind { IsGrounded (context_of usual_features (final_type empty_struct ∷ []) [] 0) (plain heap.Struct) }
    ensures comparable { IsGrounded (context_of usual_features (final_type empty_struct ∷ []) [] 0) (plain heap.Eq) }
    ensures all { IsGrounded (context_of usual_features (final_type empty_struct ∷ []) [] 0) (plain heap.Any) }
    ensures another_kind { ¬ IsGrounded (context_of usual_features (final_type empty_struct ∷ []) [] 0) (plain heap.Array) }
    ensures i31 { ¬ IsGrounded (context_of usual_features (final_type empty_struct ∷ []) [] 0) (plain heap.I31) }
    ensures bottom { ¬ IsGrounded (context_of usual_features (final_type empty_struct ∷ []) [] 0) (plain heap.None) }
    ensures outside { ¬ IsGrounded (context_of usual_features (final_type empty_struct ∷ []) [] 0) (plain heap.Extern) }
    ensures no_types { ¬ IsGrounded (context_of usual_features [] [] 0) (plain heap.Any) }
{}

fn fields()
    ensures with_defaults { IsGrounded (context_of usual_features
        (final_type (struct (constant I8 ∷ variable (Val I64) ∷ constant (Val anyref) ∷ [])) ∷ []) [] 0) (Concrete 0) }
    ensures without_default { ¬ IsGrounded (context_of usual_features
        (final_type (struct (constant I8 ∷ constant (Val (Ref (not_null (plain heap.Func)))) ∷ [])) ∷ []) [] 0) (Concrete 0) }
    ensures of_an_array { ¬ IsGrounded (context_of usual_features (final_type (array (variable I8)) ∷ []) [] 0) (Concrete 0) }
{}

fn subtypes()
    ensures upper { IsGrounded (context_of usual_features (open_type None empty_struct ∷ open_type (Some 0) empty_struct ∷ []) [] 0)
        (Concrete 0) }
    ensures lower { ¬ IsGrounded (context_of usual_features (open_type None empty_struct
        ∷ open_type (Some 0) (struct (constant (Val (Ref (not_null (plain heap.Func)))) ∷ [])) ∷ []) [] 0) (Concrete 1) }
{}

fn exact_types()
    ensures with_descriptors { IsGrounded (context_of every_feature (final_type empty_struct ∷ []) [] 0) (Exact 0) }
    ensures not_exact_with_descriptors { IsGrounded (context_of every_feature (final_type empty_struct ∷ []) [] 0) (Concrete 0) }
    ensures without_descriptors { ¬ IsGrounded (context_of usual_features (final_type empty_struct ∷ []) [] 0) (Exact 0) }
{}

fn shared_types()
    ensures shared { IsGrounded (context_of usual_features (shared_type empty_struct ∷ []) [] 0) (Abstract true heap.Any) }
    ensures not_shared { ¬ IsGrounded (context_of usual_features (shared_type empty_struct ∷ []) [] 0) (plain heap.Any) }
    ensures by_one_that_is_not { ¬ IsGrounded (context_of usual_features (final_type empty_struct ∷ []) [] 0) (Abstract true heap.Any) }
{}

fn functions()
    ensures its_type { IsGrounded (context_of usual_features (final_type plain_func ∷ []) (0 ∷ []) 0) (Concrete 0) }
    ensures its_kind { IsGrounded (context_of usual_features (final_type plain_func ∷ []) (0 ∷ []) 1) (plain heap.Func) }
    ensures type_alone { ¬ IsGrounded (context_of usual_features (final_type plain_func ∷ []) [] 0) (plain heap.Func) }
    ensures defined_and_exact { IsGrounded (context_of every_feature (final_type plain_func ∷ []) (0 ∷ []) 0) (Exact 0) }
    ensures imported_with_descriptors { IsGrounded (context_of every_feature (final_type plain_func ∷ []) (0 ∷ []) 1) (Concrete 0) }
    ensures imported_and_exact { ¬ IsGrounded (context_of every_feature (final_type plain_func ∷ []) (0 ∷ []) 1) (Exact 0) }
{}
