//! Modules that are valid and modules that are not, what a judgement says of them, and the definitions
//! by which `smith_check` states it. The clauses are proved, and nothing calls these functions.
#![tactic(auto)]

mod faults;
mod judgements;
mod locals;
mod programs;
mod references;
