//! Reads a configuration from a JSON object whose members are named after the fields of `Config`.
//!
//! A name has hyphens in place of the field's underscores, as in `max-types`. The macro [`fields`]
//! lists the names, with a description of each field. A field keeps its default if no member names
//! it, or if its member is `null`.
//!
//! Four members are no fields. `preset` names a [`Preset`], which changes the configuration before
//! the other members do, wherever it is. `fuel` is the number of calls and iterations of loops after
//! which a program traps; [`fuel`] finds it. `fuel-export` says whether the global that counts them
//! is exported; [`is_fuel_exported`] finds it. `observe` says whether a program mixes the values of its
//! locals into exported globals; [`is_observed`] finds it.
#![tactic(auto)]

mod examples;
mod fault;
mod field;
mod lend;
mod member;
mod place;
mod preset;
mod read;
mod refusal;
mod value;

pub use fault::Fault;
pub use field::{FieldKind, kind_of};
pub use member::{fuel, is_fuel_exported, is_observed};
pub use preset::{Preset, preset_named};
pub use read::{config, read_config, read_text};
pub use refusal::{ConfigRefusal, Refusal};
pub use value::set_field;
