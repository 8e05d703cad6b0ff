//! An encoder of decoded modules in the binary format of the WebAssembly Core Specification 3.0, the other
//! direction of `smith_decode`. Sections in parentheses are those of its chapter Binary Format, Modules.
#![tactic(auto)]

mod datas;
mod elements;
mod error;
mod examples;
mod items;
/// Laws: functions with empty bodies whose clauses state theorems.
pub mod laws;
mod modules;
mod nesting;
mod places;
mod sections;
mod spelled;
mod types;

pub use error::EncodeFault;
pub use modules::encode;
