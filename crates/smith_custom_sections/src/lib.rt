//! Custom sections for modules in the binary format of the WebAssembly Core Specification 3.0: drawn
//! from bytes, and put between the sections of a file. Sections in parentheses are those of its
//! chapter Binary Format, Modules.
#![tactic(auto)]

mod addition;
mod custom_section;
mod draws;
mod examples;
mod insertion;

pub use addition::add_custom_sections;
pub use custom_section::CustomSection;
pub use draws::draw_custom_sections;
pub use insertion::insert_custom_sections;
