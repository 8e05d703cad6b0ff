//! Values that meet the definitions of `wasm_smith` and of the steps below it, and values that do
//! not. The clauses are proved, and nothing calls these functions.
#![tactic(auto)]

mod contents;
mod data_segments;
mod definitions;
mod drawn_bodies;
mod element_segments;
mod exports;
mod first_faulty;
mod first_parts;
mod fuel_export;
mod imports;
mod reach;
mod sinks;
mod start;
mod termination;
