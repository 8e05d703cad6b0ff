// Bytes that spell types, and bytes that do not. The clauses are proved; nothing calls these
// functions.

ghost use Rattle.smith_draw_types.specs.ExampleSpellings.{OneFunctionIsSpelled, MoreIsAskedFor};

/// Bytes that spell a list of groups, and a byte that does not.
fn spelled_groups()
    ensures one_function { OneFunctionIsSpelled }
    ensures asks_for_more { MoreIsAskedFor }
{}
