//! Draws of constant expressions over the types and index spaces defined so far.
//!
//! An expression is drawn by one loop over a list of tasks, and its length is bounded by fuel. A draw
//! takes its bytes from `u`. A call that returns a `Result` fails only if an allocation fails, apart
//! from the errors in its section `# Errors`.
#![tactic(auto)]

mod block_counts;
mod classes;
mod constant;
mod draws;
mod examples;
mod expression;
mod extended_constant;
mod few_items;
mod kept_offers;
mod kept_ways;
mod knowledge;
mod node;
mod node_choice;
mod offer_choice;
mod offers;
mod read_items;
mod references;
mod scope;
mod task;

pub use draws::{
    arbitrary_const_expr, arbitrary_table_init, draw_const_expr, draw_table_init,
    globals_for_const_expr,
};
pub use kept_offers::KeptOffers;
