ghost use Rattle.std.specs.Prelude.{◌≡◌, ◌<◌, ◌^◌, ◌++◌, ◌∷◌, [], false, length, IfOk, IfErr, List};
ghost use Rattle.smith_bytes.specs.Source.{KeepsPieces};
ghost use Rattle.smith_module_rules.specs.ExportedItems.{Export};
ghost use Rattle.smith_draw_contents.specs.Exporting.{is_exported, export_name_at, HasNames};

use smith_bytes::{Error, Unstructured, unique_string};
use smith_types::Name;
use std::alloc::Global;
use std::collections::HashSet;

/// Draws the name of an export, which is not in `names` before, and adds it.
pub(crate) fn draw_export_name(
    alloc: Global,
    names: &mut HashSet<String>,
    u: &mut Unstructured<'_>,
) -> Result<Name, Error>
    ensures exact { (exports : List Export) → HasNames names.old exports → length exports < 2 ^ 64
        → IfOk result (λ name. export_name_at exports u.old ≡ (name, u.new)) }
    ensures fresh { (exports : List Export) → HasNames names.old exports
        → IfOk result (λ name. is_exported exports name ≡ false) }
    ensures names { (exports : List Export) (added : Export) → HasNames names.old exports
        → IfOk result (λ name. added.0 ≡ name → HasNames names.new (exports ++ added ∷ [])) }
    ensures memory { IfErr result (λ e. e ≡ Error.Memory) }
    ensures left { KeepsPieces u.old u.new }
{
    let name = unique_string(alloc, 1000, names, u)?;
    Ok(Name::from_string(name))
}
