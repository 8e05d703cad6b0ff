ghost use Rattle.std.specs.Prelude.{◌≡◌, ◌<◌, ◌↔◌, length, IsTrue, IfErr, OnOk};
ghost use Rattle.smith_types.specs.Imports.{imports_of};
ghost use Rattle.smith_draw_types.specs.Drawing.{AlwaysDraws};
ghost use Rattle.smith_draw_imports.specs.ImportGroups.{group_kind_at};
ghost use Rattle.smith_draw_imports.specs.Importing.{module_name, with_import};

use smith_bytes::{Error, Unstructured};
use smith_config::Config;
use smith_types::{EntityType, ImportItem, Imports, Name};

/// The form in which a group of imports is written.
#[derive(Clone, Copy)]
pub enum GroupKind {
    /// A single import.
    Single,
    /// Compact imports of one module, each with its own type.
    OfOneModule,
    /// Compact imports of one module and one type.
    OfOneType,
}

/// Draws the kind of a group. Returns a single import without a draw if `config` has no compact
/// imports.
#[tactic(auto, unfolding(crate::specs::ImportGroups::group_kind_at))]
pub fn draw_group_kind(config: &Config, u: &mut Unstructured<'_>) -> GroupKind
    ensures draws { AlwaysDraws (group_kind_at config.now u.old) result u.old u.new }
    ensures enabled { (result ≡ GroupKind.Single → ⊥) → IsTrue config.now.compact_imports_enabled }
    ensures shorter { (result ≡ GroupKind.Single → ⊥) → length u.new < length u.old }
{
    if !config.compact_imports_enabled {
        return GroupKind::Single;
    }
    let number: u32 = u.arbitrary();
    let third = (u64::from(number) * 3) >> 32;
    if third == 0 {
        return GroupKind::Single;
    }
    if third == 1 {
        return GroupKind::OfOneModule;
    }
    GroupKind::OfOneType
}

/// Returns the name of the module that `group` imports from.
pub(crate) fn module_name(group: &Imports) -> &Name
    ensures { result.now ≡ module_name group.now }
{
    match group {
        Imports::Single(imported) => &imported.module,
        Imports::Compact1 { module, .. } => module,
        Imports::Compact2 { module, .. } => module,
    }
}

/// Returns whether `group` has an import.
pub fn has_imports(group: &Imports) -> bool
    ensures { IsTrue result ↔ (0 < length (imports_of group.now)) }
{
    match group {
        Imports::Single(_) => true,
        Imports::Compact1 { items, .. } => !items.is_empty(),
        Imports::Compact2 { names, .. } => !names.is_empty(),
    }
}

/// Adds an import to the compact group `group`. Leaves a single import as it is.
pub fn push_import(group: &mut Imports, name: Name, entity_type: EntityType) -> Result<(), Error>
    ensures ok { OnOk result (group.new ≡ with_import group.old name entity_type) }
    ensures memory { IfErr result (λ e. e ≡ Error.Memory) }
{
    match group {
        Imports::Single(_) => Ok(()),
        Imports::Compact1 { items, .. } => items.push(ImportItem { name, entity_type }),
        Imports::Compact2 { names, .. } => names.push(name),
    }
}
