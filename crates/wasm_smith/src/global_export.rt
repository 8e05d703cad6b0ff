ghost use Rattle.std.specs.Prelude.{◌≡◌, ◌++◌, [], ◌∷◌, IfOk, IfErr, OnOk, OnErr};
ghost use Rattle.smith_draw_contents.specs.Exporting.{is_exported, longest_export};
ghost use Rattle.wasm_smith.specs.GlobalExport.{unused_name, with_global};

use smith_bytes::Error;
use smith_types::{ExportKind, Items, Name};
use std::alloc::Global;

/// Returns whether an export has the name `text`.
fn is_taken(exports: &[(Name, ExportKind, u32)], text: &str) -> bool
    ensures { result ≡ is_exported exports.now text.now }
{
    for (name, _, _) in exports {
        if name.as_str() == text {
            return true;
        }
    }
    false
}

/// Returns the length of the longest name of an export, or 0 if there is no export.
fn longest_name(exports: &[(Name, ExportKind, u32)]) -> usize
    ensures { result ≡ longest_export exports.now }
{
    let mut longest = 0;
    for (name, _, _) in exports {
        if name.len() > longest {
            longest = name.len();
        }
    }
    longest
}

/// Creates a name that no export has, which begins with `text`.
fn unused_name(
    alloc: Global,
    exports: &[(Name, ExportKind, u32)],
    text: &str,
) -> Result<Name, Error>
    ensures exact { IfOk result (λ name. name ≡ unused_name text.now exports.now) }
    ensures memory { IfErr result (λ e. e ≡ Error.Memory) }
{
    let mut name = String::from_str(alloc, text)?;
    if is_taken(exports, text) {
        let more = "_".repeat(alloc, longest_name(exports))?;
        name.push_str(&more)?;
    }
    Ok(Name::from_string(name))
}

/// Exports the global at `index` after all others, under a name that no export has, which begins
/// with `text`. The name is allocated from `alloc`.
pub(crate) fn export_global(
    alloc: Global,
    exports: &mut Items<(Name, ExportKind, u32)>,
    text: &str,
    index: u32,
) -> Result<(), Error>
    ensures ok { OnOk result (exports.new ≡ with_global text.now index exports.old) }
    ensures err { OnErr result (exports.new ≡ exports.old) }
    ensures memory { IfErr result (λ e. e ≡ Error.Memory) }
{
    let name = unused_name(alloc, exports.as_slice(), text)?;
    exports.push((name, ExportKind::Global, index))
}
