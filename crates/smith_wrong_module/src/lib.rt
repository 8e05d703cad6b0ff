//! Changes of decoded modules, one production each, by which most valid modules get invalid. The standard
//! is the WebAssembly Core Specification 3.0. Sections in parentheses are those of its chapter
//! Validation.
#![tactic(auto)]

mod aggregates;
mod bodies;
mod change;
mod constants;
mod control;
mod draw;
mod edit;
mod entities;
mod entity_indices;
mod entity_types;
mod examples;
mod exports;
mod expressions;
mod facts;
mod family;
mod groups;
mod indices;
mod limits;
mod memory;
mod operands;
mod picks;
mod references;
mod rotation;
mod segments;
mod type_indices;
mod unset;
mod variables;

pub use draw::draw_change;
pub use family::ModuleFamily;
