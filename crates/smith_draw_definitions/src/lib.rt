//! The entities that a module defines: tags, functions, tables, memories and globals, and those
//! that the exports of a shape require.
//!
//! A call that returns a `Result` fails only if an allocation fails, apart from the errors in its
//! section `# Errors`.
#![tactic(auto)]

mod definitions;
mod funcs;
mod globals;
mod memories;
mod past_maximum;
mod reference_scopes;
mod required_entities;
mod required_types;
mod shape_entities;
mod shape_exports;
mod tables;
mod tags;
mod typed_entities;

pub use definitions::{Definitions, define};
pub use shape_exports::{make_required_exports, make_shape_exports};
