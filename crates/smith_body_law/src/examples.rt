ghost use Rattle.std.specs.Prelude.{[], ◌∷◌};
ghost use Rattle.smith_types.specs.ExampleTypes.{constant, empty_struct, final_type, not_null};
ghost use Rattle.smith_types.specs.ExampleTypes.{nullable, plain, plain_func, struct};
ghost use Rattle.smith_types.specs.Syntax.composite_type.StorageType.TheVariants.{Val};
ghost use Rattle.smith_types.specs.Syntax.value_type.AbstractHeapType.TheVariants as heap;
ghost use Rattle.smith_types.specs.Syntax.value_type.HeapType.TheVariants.{Concrete};
ghost use Rattle.smith_types.specs.Syntax.value_type.ValType.TheVariants.{I32, Ref};
ghost use Rattle.smith_body_law.specs.ExampleContexts.{naming, outside, with_type};
ghost use Rattle.smith_body_law.specs.Barren.{IsBarrenReference};
ghost use Rattle.smith_body_law.specs.Unnamed.{AreOfOneModule, IsGroundedByUnnamed};

// Barren types, and others. The clauses are proved, and nothing calls these functions.
fn abstract_types()
    ensures exceptions { IsBarrenReference (with_type empty_struct)
        (Ref (not_null (plain heap.Exn))) }
    ensures nullable { ¬ IsBarrenReference (with_type empty_struct)
        (Ref (nullable (plain heap.Exn))) }
    ensures above_i31 { ¬ IsBarrenReference (with_type empty_struct)
        (Ref (not_null (plain heap.Eq))) }
    ensures external { ¬ IsBarrenReference (with_type empty_struct)
        (Ref (not_null (plain heap.Extern))) }
    ensures number { ¬ IsBarrenReference (with_type empty_struct) I32 }
{}

fn structs()
    ensures of_defaults { ¬ IsBarrenReference (with_type empty_struct)
        (Ref (not_null (Concrete 0))) }
    ensures with_a_function { IsBarrenReference
        (with_type (struct (constant (Val (Ref (not_null (plain heap.Func)))) ∷ [])))
        (Ref (not_null (Concrete 0))) }
{}

fn functions()
    ensures named { ¬ IsBarrenReference (naming (0 ∷ [])) (Ref (not_null (Concrete 0))) }
    ensures not_named { IsBarrenReference (naming []) (Ref (not_null (Concrete 0))) }
{}

fn unnamed_functions()
    ensures one { IsGroundedByUnnamed outside [] (Concrete 0) }
    ensures named { ¬ IsGroundedByUnnamed outside (0 ∷ []) (Concrete 0) }
    ensures none { ¬ IsGroundedByUnnamed outside [] (plain heap.Exn) }
    ensures one_module { AreOfOneModule outside (naming []) }
    ensures other_types { ¬ AreOfOneModule outside (with_type empty_struct) }
{}
