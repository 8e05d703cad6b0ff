//! Results of the definitions of draws on bytes, and results that they do not have. The clauses are
//! proved, and nothing calls these functions.
#![tactic(auto)]

mod bounds;
mod composite_types;
mod entity_types;
mod function_sizes;
mod kept_offers;
mod kept_ways;
mod locals;
mod offered_lists;
mod offers;
mod offsets;
mod references;
mod sizes;
mod spelled_groups;
