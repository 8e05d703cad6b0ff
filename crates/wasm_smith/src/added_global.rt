ghost use Rattle.std.specs.Prelude.{◌≡◌, ◌+◌, ◌<◌, ◌^◌, ◌++◌, [], ◌∷◌, length, take};
ghost use Rattle.std.specs.Prelude.{IfOk, IfErr, OnOk, OnErr};
ghost use Rattle.wasm_smith.specs.AddedGlobals.{added_types, added_definitions};
ghost use Rattle.wasm_smith.specs.Sinks.{sink};

use smith_bytes::Error;
use smith_types::{ConstInstr, GlobalType, Items, ValType};
use std::alloc::Global;
use std::mem;

/// Removes all items but the first `count`.
pub(crate) fn truncate<T: Drop>(alloc: Global, items: &mut Items<T>, count: usize)
    ensures { items.new ≡ take count items.old }
{
    let mut all = mem::replace(items, Items::new(alloc)).into_vec();
    all.truncate(count);
    *items = Items::from_vec(all);
}

/// Adds a mutable, unshared global of the type `val_type`, and its definition with the initialiser
/// `initial`, or neither of them.
pub(crate) fn push_global(
    alloc: Global,
    val_type: ValType,
    initial: ConstInstr,
    globals: &mut Items<GlobalType>,
    definitions: &mut Items<(u32, Items<ConstInstr>)>,
) -> Result<(), Error>
    requires room { length globals.old < 2 ^ 32 }
    ensures globals { OnOk result (globals.new ≡ globals.old ++ sink val_type ∷ []) }
    ensures definitions { OnOk result (definitions.new
        ≡ definitions.old ++ (length globals.old, initial ∷ []) ∷ []) }
    ensures globals_kept { OnErr result (globals.new ≡ globals.old) }
    ensures definitions_kept { OnErr result (definitions.new ≡ definitions.old) }
    ensures memory { IfErr result (λ e. e ≡ Error.Memory) }
{
    let count = globals.len();
    let mut expression = Items::new(alloc);
    expression.push(initial)?;
    globals.push(GlobalType {
        val_type,
        mutable: true,
        shared: false,
    })?;
    if let Err(error) = definitions.push((count as u32, expression)) {
        truncate(alloc, globals, count);
        return Err(error);
    }
    Ok(())
}

/// Adds mutable, unshared globals of the types of `added`, and their definitions with the
/// initialisers beside the types, or nothing. Returns the index of the first.
pub(crate) fn push_globals(
    alloc: Global,
    added: &[(ValType, ConstInstr)],
    globals: &mut Items<GlobalType>,
    definitions: &mut Items<(u32, Items<ConstInstr>)>,
) -> Result<u32, Error>
    requires room { length globals.old + length added.now < 2 ^ 32 }

    // The globals.
    ensures first { IfOk result (λ first. first ≡ length globals.old) }
    ensures globals { OnOk result (globals.new ≡ globals.old ++ added_types added.now) }
    ensures definitions { OnOk result (definitions.new
        ≡ definitions.old ++ added_definitions (length globals.old) added.now) }

    // Refusals.
    ensures globals_kept { OnErr result (globals.new ≡ globals.old) }
    ensures definitions_kept { OnErr result (definitions.new ≡ definitions.old) }
    ensures memory { IfErr result (λ e. e ≡ Error.Memory) }
{
    let count = globals.len();
    let defined = definitions.len();
    for (val_type, initial) in added {
        if let Err(error) = push_global(alloc, *val_type, *initial, globals, definitions) {
            truncate(alloc, globals, count);
            truncate(alloc, definitions, defined);
            return Err(error);
        }
    }
    Ok(count as u32)
}
