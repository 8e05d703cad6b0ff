//! Values that meet the definitions of modules, and values that do not. The clauses are proved, and
//! nothing calls these functions.
#![tactic(auto)]

mod bounds;
mod given_modules;
mod imported_references;
mod interesting_values;
mod modules;
mod promises;
mod refusals;
mod refused_modules;
mod shapes;
