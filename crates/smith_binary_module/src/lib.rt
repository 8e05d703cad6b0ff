//! Modules in the binary format of the WebAssembly Core Specification 3.0 (chapter Binary Format).
//!
//! [`encode`] writes no custom sections. Additions of proposals outside the standard are written in
//! the encoding of the proposal: compact groups of imports (compact imports), page sizes (custom
//! page sizes), shared entities and types (threads, shared-everything-threads), and exact
//! references (custom descriptors).
#![tactic(auto)]

mod examples;
mod modules;
mod sections;

pub use modules::{encode, encode_with_bodies};
pub use smith_binary::EncodeError;
