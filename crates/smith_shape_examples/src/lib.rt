//! Files that spell shapes, files that do not, and the faults of these. The clauses are proved, and
//! nothing calls these functions.
#![tactic(auto)]

mod files;
