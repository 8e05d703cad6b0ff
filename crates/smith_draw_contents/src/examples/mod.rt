// Values of private types that meet the definitions. The clauses are proved; nothing calls these
// functions.

mod element_kinds;
