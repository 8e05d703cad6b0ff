//! Draws files that are no valid modules, each a valid module with one change that breaks a rule. The
//! standard is the WebAssembly Core Specification 3.0.
#![tactic(auto)]

mod changes;
mod examples;
mod families;
mod numbers;
mod refusal;
mod seed;
mod wrong;

pub use changes::Change;
pub use families::Family;
pub use refusal::WrongRefusal;
pub use smith_binary::EncodeError;
pub use smith_bytes::Error;
pub use smith_decode::Place;
pub use smith_judge::Answer;
pub use smith_wrong_bytes::{BytesFamily, Splice};
pub use smith_wrong_module::ModuleFamily;
pub use wrong::{TRIES, Wrong};
