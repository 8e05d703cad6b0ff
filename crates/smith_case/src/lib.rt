//! Cases, each a JSON object on a line: the call of a case, and its expected answer.
//!
//! Each key occurs once, and a key that the call does not read is refused.
//!
//! - `name` describes the case.
//! - `call` names the call as Rust does, such as `Module::new`, `spell` or `arbitrary_const_expr`.
//!   `call.rt` lists them. `Module::new of Config::arbitrary` draws the configuration first and the
//!   module from the bytes left. `encode` adds fuel to the module of `Module::new` for each
//!   argument and encodes it. `Program::new` adds fuel to the program likewise and answers its text,
//!   `encode of Program::new` its binary, and `Program::observe` adds exported sinks to it first and
//!   answers its text; all three report the bytes of the input left. `decode` answers
//!   the text of the module that the input is, or its first fault, and `judge` whether that module is
//!   valid, in the words of `smith_judge`; for both each feature is on that `config` doesn't turn off.
//!   `recorded` makes checksums of the results for generated inputs.
//! - `args` lists the arguments of the call: numbers in decimal, types and heap types as the text
//!   format writes them without its abbreviations, function types and entities as shapes write
//!   them, `true` and `false`, names. The functions of `smith_case_answers` that make the calls describe
//!   each.
//! - `config` holds the fields of the configuration that are not the default, as `smith_config_json` reads
//!   them.
//! - `available-imports`, `exports` and `module-shape` name the shapes of the configuration,
//!   `shape` the shape that the call is about, and `types` the shape whose types the call draws
//!   over or compares. `shapes/` lists the shapes.
//! - `input` is the input in hexadecimal, with blanks between words. `00*512` means 512 bytes 00.
//! - `inputs` is `each byte` for all inputs of one byte, `each even byte` or `each odd byte` for
//!   half of them, or `each cut` for each prefix of `input`. The case then wants the same of each
//!   answer.
//!
//! An answer is text: the text of a module as `smith_text` writes it, of a program as
//! `smith_text_program` does, or of a decoded file as `smith_text_file` does; for encoded ones the
//! line `8 bytes, SHA-256 93a4..`, and the bytes after the word `binary` if there are at most 200;
//! else a line for each value. A refusal is a line such as `refused: IncorrectFormat(TypeSize)`.
//! After a draw, `left 2` is the number of bytes left, and `next 0102` the first of them.
//!
//! A case wants at least one of the first four of these, none of them empty. Blanks around lines do
//! not count.
//!
//! - `answer` lists all lines, or the first ones and `...` in place of at least one more.
//! - `lines` lists lines that occur in this order.
//! - `pieces` lists pieces that occur.
//! - `may` lists the kinds that the answer may have: `Ok`, or the refusal's name as in
//!   `IncorrectFormat(TypeSize)`.
//! - `absent` lists pieces that do not occur.
#![tactic(auto)]

pub mod arguments;
pub mod call;
mod case;
mod comparison;
mod fault;
mod input;
mod keys;
pub mod shapes;

pub use case::{Case, ShapeNames, Wanted, read_case, text_or};
pub use comparison::{Difference, check_wanted, first_difference};
pub use fault::{Fault, Obstacle};
pub use input::bytes_of;
pub use keys::check_keys;
