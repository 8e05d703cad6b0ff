//! Reads the shape of a module from the text format of the WebAssembly Core Specification 3.0: its
//! types, its imports, the types of what it defines, and its exports. Sections in parentheses are
//! those of its chapter Text Format. Bodies, initialisers, segments and the start function are
//! skipped: only their parentheses, strings and comments are read.
#![tactic(auto)]

mod cursor;
mod definitions;
mod entities;
mod fault;
mod fields;
mod imports;
mod keywords;
mod lexer;
mod names;
mod numbers;
mod reading;
mod signatures;
mod strings;
mod type_uses;
mod types;
mod values;

pub use fault::{TextFault, TextRefusal};
pub use reading::shape_of_text;
