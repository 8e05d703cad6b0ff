//! Instructions and bodies that meet the rules of typing, and others that do not. The clauses are
//! proved, and nothing calls these functions.
#![tactic(auto, using(crate::proofs::AccessExamples::accesses))]

mod atomics;
mod basics;
mod blocks;
mod bulk;
mod calls;
mod casts;
mod conversions;
mod creations;
mod elements;
mod enabled;
mod features;
mod frames;
mod handlers;
mod instructions;
mod jumps;
mod kinds;
mod labels;
mod lanes;
mod loads;
mod memories;
mod numbers;
mod plain;
mod scalars;
mod sequences;
mod sharing;
mod stores;
mod subsumption;
mod tables;
mod vector_accesses;
mod vectors;
