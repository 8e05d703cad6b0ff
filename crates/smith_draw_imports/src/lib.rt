//! The imports of a module so far with their counts, and the draws of imports that no shape fixes.
//!
//! A call that returns a `Result` fails only if an allocation fails, apart from the errors in its
//! section `# Errors`.
#![tactic(auto)]

mod examples;
mod import_entities;
mod import_groups;
mod import_kinds;
mod import_names;
mod imports;
mod imports_so_far;

pub use import_entities::entity_kind;
pub use import_groups::{GroupKind, draw_group_kind, has_imports, push_import};
pub use import_kinds::has_room;
pub use imports::arbitrary_imports;
pub use imports_so_far::Imported;
