// Bytes that spell instructions, bodies, tables and segments, and bytes that do not. The clauses
// are proved; nothing calls these functions.

mod bodies;
mod forms;
mod instructions;
mod modules;
