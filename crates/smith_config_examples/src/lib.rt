//! Configurations and shapes that meet their definitions, and others that do not. The clauses are
//! proved, and nothing calls these functions.
#![tactic(auto)]

mod configurations;
mod defaults;
mod draws_in_order;
mod first_shape_faults;
mod shape_faults;
mod shapes;
mod shapes_in_use;
