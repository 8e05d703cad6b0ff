//! Tests beyond the worked cases of `smith_cases`: complete examples of the library, data that
//! outlive a loan, the texts of errors and of plain data, a writer that fails, the bytes of
//! instructions, which are compared with those of another encoder, cases that are not ok, and calls
//! that lack memory.
#![tactic(auto)]

#[cfg(test)]
mod error_texts;
#[cfg(test)]
mod expectation;
#[cfg(test)]
mod instruction_bytes;
#[cfg(test)]
mod library_example;
#[cfg(test)]
mod loans;
#[cfg(test)]
mod memory;
#[cfg(test)]
mod pieces;
#[cfg(test)]
mod wrong_cases;
