// Function types of few values, and of too many. The clauses are proved; nothing calls these
// functions.

ghost use Rattle.std.specs.Prelude.{replicate};
ghost use Rattle.smith_types.specs.ExampleTypes.{final_type, empty_struct, taking, giving};
ghost use Rattle.smith_types.specs.Syntax.value_type.ValType.TheVariants.{I32};
ghost use Rattle.smith_draw_types.specs.FuncSizes.{IsSmall};

fn small_types()
    ensures twenty_parameters { IsSmall (final_type (taking (replicate 20 I32))) }
    ensures a_parameter_more { ¬ IsSmall (final_type (taking (replicate 21 I32))) }
    ensures twenty_results { IsSmall (final_type (giving (replicate 20 I32))) }
    ensures a_result_more { ¬ IsSmall (final_type (giving (replicate 21 I32))) }
    ensures a_struct { IsSmall (final_type empty_struct) }
{}
