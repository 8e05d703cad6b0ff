//! Modules in the text format of the WebAssembly Core Specification 3.0, chapter Text Format.
//! Additions of proposals are written in the text forms of the proposals.
#![tactic(auto)]

mod constants;
mod entities;
mod examples;
mod fields;
mod floats;
mod functions;
mod imports;
mod module;
mod notes;
mod segments;
mod sink;
mod strings;
mod text_form;
mod types;
mod values;

pub use constants::write_const_instr;
pub use fields::{write_export, write_field, write_start};
pub use functions::{BodyText, OwnBodies, write_function_start};
pub use imports::write_imports;
pub use module::{Layout, text, text_with_bodies, write_with_bodies};
pub use sink::{FromFmt, Sink};
pub use strings::write_string;
pub use text_form::{TextForm, text_of};
pub use types::{TypeUse, write_types};
