//! Changes of the bytes of a file, each of one production of the binary format of the WebAssembly Core
//! Specification 3.0. Sections in parentheses are those of its chapter Binary Format. A change mostly
//! makes a valid file malformed: whether it did is for a judge to say.
#![tactic(auto)]

mod change;
mod changed;
mod counts;
mod draws;
mod edit;
mod entities;
mod examples;
mod family;
mod flags;
mod instructions;
mod integers;
mod items;
mod opcodes;
mod part;
mod places;
mod preamble;
mod sections;
mod stop;
mod types;
mod walk;

pub use change::Splice;
pub use changed::splice;
pub use draws::draw_splice;
pub use family::BytesFamily;
pub use preamble::break_preamble;
