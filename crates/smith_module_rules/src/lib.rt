//! Defines the parts and validity of a module, the properties that a configuration and its shapes
//! give it, and the condition of each error. Collects the interesting values of a module.
//!
//! A call that returns a `Result` fails only if an allocation fails.
#![tactic(auto)]

mod interesting_values;

pub use interesting_values::collect_interesting_values;
