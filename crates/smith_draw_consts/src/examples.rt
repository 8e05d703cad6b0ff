// The choices in constant expressions, the nodes drawn for them, the lengths of expressions, and
// the cases without an expression. The clauses are proved, and nothing calls these functions.

ghost use Rattle.std.specs.Prelude.{◌≡◌, ◌-◌, ◌^◌, [], ◌∷◌, true, false, Some, None, pos, negsuc};
ghost use Rattle.std.specs.Prelude.{List};
ghost use Rattle.smith_bytes.specs.declared.error.Error.TheVariants as errors;
ghost use Rattle.smith_types.specs.Syntax.value_type.AbstractHeapType.TheVariants as heap;
ghost use Rattle.smith_types.specs.Syntax.value_type.HeapType.TheVariants.{Concrete, Exact};
ghost use Rattle.smith_types.specs.Syntax.value_type.ValType.{ValType};
ghost use Rattle.smith_types.specs.Syntax.value_type.ValType.TheVariants.{I32, I64, F32, Ref};
ghost use Rattle.smith_types.specs.Syntax.composite_type.StorageType.TheVariants.{I8, Val};
ghost use Rattle.smith_types.specs.Syntax.composite_type.SubType.{SubType};
ghost use Rattle.smith_types.specs.Syntax.const_instr.ConstInstr.TheVariants as instr;
ghost use Rattle.smith_types.specs.Expressions.{Context};
ghost use Rattle.smith_types.specs.Syntax.Features.{every_feature};
ghost use Rattle.smith_types.specs.ExampleFeatures.{usual_features, without_gc};
ghost use Rattle.smith_types.specs.ExampleTypes.{final_type, struct, array, taking, constant};
ghost use Rattle.smith_types.specs.ExampleTypes.{plain, nullable, not_null, anyref, shared_anyref};
ghost use Rattle.smith_types.specs.ExampleContexts.{context_types, context_with};
ghost use Rattle.smith_config.specs.Config.{default_config};
ghost use Rattle.smith_draw_consts.specs.declared.node_choice.Choice.TheVariants as choice;
ghost use Rattle.smith_draw_consts.specs.ConstOffers.{offers, readable_globals};
ghost use Rattle.smith_draw_consts.specs.ConstScopes.{IsReadable};
ghost use Rattle.smith_draw_consts.specs.ConstBounds.{widest, most_instructions, MayLack};
ghost use Rattle.smith_draw_consts.specs.ConstBounds.{MayRefuseConstExpr};
ghost use Rattle.smith_config.specs.Granted.{IsNonNullable};
ghost use Rattle.smith_draw_consts.specs.ConstExprs.{expression_alone_at};
ghost use Rattle.smith_draw_types.specs.SpelledConstants.{SpellsI32, SpellsConstant, SpellsConstExpr};
ghost use Rattle.smith_draw_consts.specs.ExampleConstExprs.{context_of_types, packed_struct, packed_array};
ghost use Rattle.smith_draw_consts.specs.ExampleConstExprs.{MutableGlobalsAreNotRead, NothingIsValid};
ghost use Rattle.smith_draw_consts.specs.ExampleConstExprs.{AFunctionNeedsItsType, AGlobalNeedsItsFeature};
ghost use Rattle.smith_draw_consts.specs.ExampleConstExprs.{ImportedGlobalsStand};

#[tactic(auto, unfolding(crate::specs::ConstOffers::offers, smith_draw_types::specs::Offered::ancestors, smith_draw_types::specs::Below::is_heap_below))]
fn offers_of_numbers()
    ensures a_global_comes_first { offers default_config (context_with usual_features 2) I32 1
        ≡ choice.Global 0 ∷ choice.Constant ∷ choice.Extended ∷ [] }
    ensures globals_by_their_index { offers default_config (context_with usual_features 3) I32 1
        ≡ choice.Global 0 ∷ choice.Global 2 ∷ choice.Constant ∷ choice.Extended ∷ [] }
    ensures no_global_of_another_type { offers default_config (context_with usual_features 3) I64 1
        ≡ choice.Constant ∷ choice.Extended ∷ [] }
    ensures without_fuel { offers default_config (context_with usual_features 0) I32 0
        ≡ choice.Constant ∷ choice.Extended ∷ [] }
    ensures without_sums { offers default_config
        (context_with (record usual_features { extended_const = false }) 0) I32 1
        ≡ choice.Constant ∷ [] }
    ensures a_float { offers default_config (context_with usual_features 3) F32 1
        ≡ choice.Constant ∷ [] }
{}

#[tactic(auto, unfolding(crate::specs::ConstOffers::offers, smith_draw_types::specs::Offered::ancestors, smith_draw_types::specs::Below::is_heap_below))]
fn offers_of_references()
    ensures functions { offers default_config (context_with usual_features 3)
        (Ref (nullable (plain heap.Func))) 1
        ≡ choice.Constant ∷ choice.Function 0 ∷ choice.Function 1 ∷ [] }
    ensures a_function_that_is_known_exactly { offers default_config (context_with every_feature 3)
        (Ref (not_null (Exact 0))) 1
        ≡ choice.Function 1 ∷ [] }
    ensures a_struct { offers default_config (context_with usual_features 3)
        (Ref (nullable (Concrete 1))) 1
        ≡ choice.Constant ∷ choice.Struct 1 ∷ choice.StructDefault 1 ∷ [] }
    ensures a_struct_without_fuel { offers default_config (context_with usual_features 3)
        (Ref (nullable (Concrete 1))) 0
        ≡ choice.Constant ∷ choice.StructDefault 1 ∷ [] }
    ensures a_struct_without_default { offers default_config (context_with usual_features 3)
        (Ref (not_null (Concrete 3))) 1
        ≡ choice.Struct 3 ∷ [] }
    ensures an_array { offers default_config (context_with usual_features 3)
        (Ref (not_null (Concrete 2))) 1
        ≡ choice.Array 2 ∷ choice.FixedArray 2 ∷ choice.ArrayDefault 2 ∷ [] }
    ensures an_array_without_default { offers default_config (context_with usual_features 3)
        (Ref (not_null (Concrete 4))) 1
        ≡ choice.Array 4 ∷ choice.FixedArray 4 ∷ [] }
    ensures anything { offers default_config (context_with usual_features 3) anyref 1
        ≡ choice.Constant ∷ choice.Struct 1 ∷ choice.StructDefault 1 ∷ choice.Struct 3
        ∷ choice.Struct 5 ∷ choice.StructDefault 5 ∷ choice.Array 2 ∷ choice.FixedArray 2
        ∷ choice.ArrayDefault 2 ∷ choice.Array 4 ∷ choice.FixedArray 4 ∷ choice.I31
        ∷ choice.FromExtern ∷ [] }
    ensures anything_without_fuel { offers default_config (context_with usual_features 3) anyref 0
        ≡ choice.Constant ∷ choice.StructDefault 1 ∷ choice.StructDefault 5 ∷ [] }
    ensures anything_without_collection { offers default_config (context_with without_gc 2) anyref 1
        ≡ choice.Constant ∷ [] }
    ensures anything_shared { offers default_config (context_with usual_features 3) shared_anyref 1
        ≡ choice.Constant ∷ choice.SharedI31 ∷ choice.FromExtern ∷ [] }
    ensures from_inside { offers default_config (context_with usual_features 3)
        (Ref (not_null (plain heap.Extern))) 1
        ≡ choice.FromAny ∷ [] }
    ensures nothing_from_inside_without_fuel { offers default_config (context_with usual_features 3)
        (Ref (not_null (plain heap.Extern))) 0 ≡ [] }
    ensures from_inside_where_null_is_told { offers
        (record default_config { non_nullable_enabled = true }) (context_with usual_features 3)
        (Ref (not_null (plain heap.Extern))) 1 ≡ [] }
    ensures from_inside_to_null { offers (record default_config { non_nullable_enabled = true })
        (context_with usual_features 3) (Ref (nullable (plain heap.Extern))) 1
        ≡ choice.Constant ∷ choice.FromAny ∷ [] }
    ensures nothing_below_every_reference { offers default_config (context_with usual_features 3)
        (Ref (not_null (plain heap.None))) 50 ≡ [] }
{}

#[tactic(auto, unfolding(crate::specs::ConstExprs::expression_alone_at, crate::specs::ConstExprs::expression_at, crate::specs::ConstNodes::node_at, crate::specs::Constants::constant_at, crate::specs::Constants::extended_at, crate::specs::Constants::extended_within, crate::specs::Constants::operator_at, crate::specs::ConstOffers::offers, smith_draw_types::specs::Offered::ancestors, smith_draw_types::specs::Below::is_heap_below, smith_bytes::specs::Draws::choose_at, smith_bytes::specs::Draws::range_at, smith_bytes::specs::Draws::whole_at, smith_bytes::specs::Draws::digit_count))]
fn draws()
    ensures a_sum { expression_alone_at (context_of_types []) default_config 50 I32
        (1 ∷ 1 ∷ 0 ∷ 5 ∷ 0 ∷ 0 ∷ 0 ∷ 0 ∷ 7 ∷ 0 ∷ 0 ∷ 0 ∷ [])
        ≡ Some (instr.I32Const (pos 7) ∷ instr.I32Const (pos 5) ∷ instr.I32Add ∷ [], []) }
    ensures a_struct { expression_alone_at (context_of_types (packed_struct ∷ [])) default_config 50
        (Ref (nullable (Concrete 0))) (1 ∷ 0 ∷ 9 ∷ 0 ∷ 0 ∷ 0 ∷ 8 ∷ [])
        ≡ Some (instr.I32Const (pos 9) ∷ instr.StructNew 0 ∷ [], 8 ∷ []) }
    ensures a_struct_without_fuel { expression_alone_at (context_of_types (packed_struct ∷ []))
        default_config 0 (Ref (nullable (Concrete 0))) (1 ∷ [])
        ≡ Some (instr.StructNewDefault 0 ∷ [], []) }
    ensures a_limited_length { expression_alone_at (context_of_types (packed_array ∷ []))
        (record default_config { limit_arrays_in_const_exprs = true }) 50
        (Ref (nullable (Concrete 0))) (3 ∷ 7 ∷ [])
        ≡ Some (instr.I32Const (pos 7) ∷ instr.ArrayNewDefault 0 ∷ [], []) }
    ensures a_length_past_the_numbers_with_sign { expression_alone_at
        (context_of_types (packed_array ∷ []))
        (record default_config { limit_arrays_in_const_exprs = true }) (2 ^ 32 - 1)
        (Ref (nullable (Concrete 0))) (3 ∷ 255 ∷ 255 ∷ 255 ∷ 254 ∷ [])
        ≡ Some (instr.I32Const (negsuc 1) ∷ instr.ArrayNewDefault 0 ∷ [], []) }
    ensures from_inside { expression_alone_at (context_of_types []) default_config 2
        (Ref (not_null (plain heap.Extern))) []
        ≡ Some (instr.I32Const (pos 0) ∷ instr.RefI31 ∷ instr.ExternConvertAny ∷ [], []) }
    ensures nothing_from_inside { expression_alone_at (context_of_types []) default_config 1
        (Ref (not_null (plain heap.Extern))) [] ≡ None }
{}

fn globals()
    ensures imported { readable_globals (context_with usual_features 2) I32 ≡ 0 ∷ [] }
    ensures all { readable_globals (context_with usual_features 3) I32 ≡ 0 ∷ 2 ∷ [] }
    ensures of_another_type { readable_globals (context_with usual_features 3) I64 ≡ [] }
    ensures mutable_ones_are_not_read { MutableGlobalsAreNotRead }
    ensures an_immutable_one { IsReadable (context_with usual_features 2) I32 0 }
    ensures a_mutable_one { ¬ IsReadable (context_with usual_features 2) I32 1 }
    ensures one_that_is_not_visible { ¬ IsReadable (context_with usual_features 2) I32 2 }
    ensures one_of_another_type { ¬ IsReadable (context_with usual_features 2) I64 0 }
{}

#[tactic(auto, unfolding(crate::specs::ConstBounds::widest))]
fn bounds()
    ensures no_type { widest [] ≡ 3 }
    ensures short_structs { widest context_types ≡ 3 }
    ensures a_long_struct { widest
        (final_type (struct (constant I8 ∷ constant I8 ∷ constant I8 ∷ constant I8 ∷ []))
        ∷ context_types)
        ≡ 4 }
    ensures of_the_default { most_instructions default_config [] ≡ 3473 }
    ensures without_fuel { most_instructions (record default_config { const_expr_fuel = 0 })
        context_types ≡ 23 }
    ensures of_the_most_fuel { most_instructions
        (record default_config { const_expr_fuel = 2 ^ 32 - 1 }) []
        ≡ 296352743378 }
{}

fn spaces()
    ensures nothing { NothingIsValid }
    ensures a_function_of_no_type { AFunctionNeedsItsType }
    ensures a_global_without_its_feature { AGlobalNeedsItsFeature }
    ensures imports_that_do_not_stand { ImportedGlobalsStand }
{}

fn refusals()
    ensures a_number { ¬ MayLack default_config (context_of_types []) I32 }
    ensures a_reference_that_may_be_null { ¬ MayLack default_config (context_of_types []) anyref }
    ensures a_reference_that_may_not_be_null { MayLack default_config (context_of_types [])
        (Ref (not_null (plain heap.Any))) }
    ensures a_field_that_may_not_be_null { MayLack default_config
        (context_of_types context_types) anyref }
    ensures an_element_that_may_not_be_null { MayLack default_config (context_of_types
        (final_type (array (constant (Val (Ref (not_null (plain heap.Func)))))) ∷ [])) I32 }
    ensures a_parameter_that_may_not_be_null { ¬ MayLack default_config
        (context_of_types (final_type (taking (Ref (not_null (plain heap.Func)) ∷ [])) ∷ [])) I32 }
    ensures fields_that_are_numbers { ¬ MayLack default_config
        (context_of_types (final_type (struct (constant I8 ∷ [])) ∷ [])) anyref }
    ensures want_of_memory { MayRefuseConstExpr default_config
        (context_of_types []) I32 errors.Memory }
    ensures nothing_to_choose_from { MayRefuseConstExpr default_config (context_of_types [])
        (Ref (not_null (plain heap.None))) errors.EmptyChoose }
    ensures a_number_is_there { ¬ MayRefuseConstExpr default_config
        (context_of_types []) I32 errors.EmptyChoose }
    ensures exhausted_input { ¬ MayRefuseConstExpr default_config
        (context_of_types context_types) anyref errors.NotEnoughData }
{}

fn spelled_constants()
    ensures four_bytes { SpellsI32 (negsuc 0) (255 ∷ 255 ∷ 255 ∷ 255 ∷ []) }
    ensures three_bytes { ¬ SpellsI32 (pos 7) (7 ∷ 0 ∷ 0 ∷ []) }
    ensures the_highest_first { ¬ SpellsI32 (pos 7) (0 ∷ 0 ∷ 0 ∷ 7 ∷ []) }
    ensures after_a_choice { SpellsConstant default_config (pos 7) (0 ∷ 7 ∷ 0 ∷ 0 ∷ 0 ∷ []) }
    ensures after_the_other_choice { ¬ SpellsConstant default_config (pos 7)
        (1 ∷ 7 ∷ 0 ∷ 0 ∷ 0 ∷ []) }
    ensures without_a_choice { SpellsConstant
        (record default_config { extended_const_enabled = false }) (pos 7) (7 ∷ 0 ∷ 0 ∷ 0 ∷ []) }
    ensures an_expression { SpellsConstExpr default_config (instr.I32Const (pos 7) ∷ [])
        (0 ∷ 7 ∷ 0 ∷ 0 ∷ 0 ∷ []) }
    ensures an_expression_of_two { ¬ SpellsConstExpr default_config
        (instr.I32Const (pos 7) ∷ instr.I32Const (pos 7) ∷ []) (0 ∷ 7 ∷ 0 ∷ 0 ∷ 0 ∷ []) }
{}
