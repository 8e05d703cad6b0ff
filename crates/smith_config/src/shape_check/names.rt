ghost use Rattle.std.specs.Prelude.{◌≡◌, ◌↔◌, ℕ, List, IsTrue, IfOk, IfErr, map};
ghost use Rattle.smith_types.specs.Exports.{AreDistinct};
ghost use Rattle.smith_types.specs.Syntax.entity_type.ExportKind.{ExportKind as Kind};

use smith_bytes::Error;
use smith_types::{ExportKind, Name};
use std::alloc::Global;
use std::collections::HashSet;

/// Returns whether the names of `exports` are distinct.
pub(crate) fn are_names_distinct(
    alloc: Global,
    exports: &[(Name, ExportKind, u32)],
) -> Result<bool, Error>
    ensures decided { IfOk result (λ yes.
        IsTrue yes ↔ AreDistinct (map (λ (one : List ℕ × Kind × ℕ). one.0) exports.now)) }
    ensures memory { IfErr result (λ e. e ≡ Error.Memory) }
{
    let mut names: HashSet<&str> = HashSet::new(alloc);
    for one in exports {
        let name = name_of(one);
        let is_new = names.insert(name)?;
        if !is_new {
            return Ok(false);
        }
    }
    Ok(true)
}

fn name_of(one: &(Name, ExportKind, u32)) -> &str
    ensures { result.now ≡ one.now.0 }
{
    one.0.as_str()
}
