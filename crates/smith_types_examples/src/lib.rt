//! Values that meet the definitions of types, entities and expressions, and values that do not.
//! The clauses are proved, and nothing calls these functions.
#![tactic(auto, using(crate::proofs::TypeExamples::examples))]

mod bodies;
mod entities;
mod exports;
mod expressions;
mod features;
mod flags;
mod grounding;
mod grouped_types;
mod growth;
mod imports;
mod kind_names;
mod matching;
mod open_types;
mod refused_types;
mod segments;
mod subtyping;
mod types;
mod valid_types;
