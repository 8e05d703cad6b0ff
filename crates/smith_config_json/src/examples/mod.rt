// The kinds of the values of fields, objects of members, and presets. The clauses are proved, and nothing
// calls these functions.

mod fields;
mod objects;
mod presets;
