//! Spells lists of types and functions as bytes from which modules with these lists are drawn.
//! Defines the family of lists that have such bytes, and the bytes that spell them.
#![tactic(auto)]

mod composite_types;
mod earlier;
mod family;
mod funcs;
mod groups;
mod requirements;
/// Laws: functions with empty bodies whose clauses state theorems.
pub mod laws;
mod member;
mod member_type;
mod pieces;
mod spelling;
mod sub_types;
mod value_types;

pub use spelling::spell;
