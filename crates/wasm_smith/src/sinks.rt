ghost use Rattle.std.specs.Prelude.{◌≡◌, ◌+◌, ◌-◌, ◌<◌, ◌^◌, ◌++◌, length, take};
ghost use Rattle.std.specs.Prelude.{IfOk, IfErr, OnOk, OnErr};
ghost use Rattle.smith_module_rules.specs.Module.{IsValid};
ghost use Rattle.wasm_smith.specs.Sinks.{AnswersSinks, sinks, sink_definitions};
ghost use Rattle.wasm_smith.specs.SinkExports.{AnswersSinkExports, with_sinks};

use crate::added_global::{push_globals, truncate};
use crate::global_export::export_global;
use crate::module::Module;
use smith_bytes::{Error, Why};
use smith_types::{ConstInstr, ExportKind, GlobalType, Items, Name, ValType};
use std::alloc::Global;

// Adds the sinks to both lists, or to none, and returns the index of the first.
fn push_sinks(
    alloc: Global,
    globals: &mut Items<GlobalType>,
    definitions: &mut Items<(u32, Items<ConstInstr>)>,
) -> Result<u32, Error>
    requires room { length globals.old < 2 ^ 32 - 3 }

    // The sinks.
    ensures first { IfOk result (λ first. first ≡ length globals.old) }
    ensures globals { OnOk result (globals.new ≡ globals.old ++ sinks) }
    ensures definitions { OnOk result (definitions.new
        ≡ definitions.old ++ sink_definitions (length globals.old)) }

    // Refusals.
    ensures globals_kept { OnErr result (globals.new ≡ globals.old) }
    ensures definitions_kept { OnErr result (definitions.new ≡ definitions.old) }
    ensures memory { IfErr result (λ e. e ≡ Error.Memory) }
{
    let added = [
        (ValType::I32, ConstInstr::I32Const(0)),
        (ValType::I64, ConstInstr::I64Const(0)),
        (ValType::I64, ConstInstr::I64Const(0)),
    ];
    push_globals(alloc, &added, globals, definitions)
}

// Exports the sinks from `first` on. After an error there may be more exports than before.
fn push_each_export(
    alloc: Global,
    exports: &mut Items<(Name, ExportKind, u32)>,
    first: u32,
) -> Result<(), Error>
    requires room { first + 2 < 2 ^ 32 }
    ensures ok { OnOk result (exports.new ≡ with_sinks first exports.old) }
    ensures begin { OnErr result (take (length exports.old) exports.new ≡ exports.old) }
    ensures memory { IfErr result (λ e. e ≡ Error.Memory) }
{
    export_global(alloc, exports, "sink_i32", first)?;
    export_global(alloc, exports, "sink_i64", first + 1)?;
    export_global(alloc, exports, "sink_i64_2", first + 2)
}

// Exports the sinks from `first` on, or none of them.
fn push_exports(
    alloc: Global,
    exports: &mut Items<(Name, ExportKind, u32)>,
    first: u32,
) -> Result<(), Error>
    requires room { first + 2 < 2 ^ 32 }
    ensures ok { OnOk result (exports.new ≡ with_sinks first exports.old) }
    ensures err { OnErr result (exports.new ≡ exports.old) }
    ensures memory { IfErr result (λ e. e ≡ Error.Memory) }
{
    let count = exports.len();
    if let Err(error) = push_each_export(alloc, exports, first) {
        truncate(alloc, exports, count);
        return Err(error);
    }
    Ok(())
}

impl Module {
    /// Adds three mutable globals, the sinks: one `i32`, then two `i64`, which are 0 at first.
    /// Returns the index of the first. Instructions that are added to bodies can write values to
    /// them that the bodies drop, so that a caller can read these values.
    ///
    /// The sinks follow all other globals, even past the maximum of the configuration, and are not
    /// exported. A further call adds three more. The definitions are allocated from `alloc`.
    ///
    /// Requires the module to have fewer than 2^32 - 3 globals.
    ///
    /// # Errors
    ///
    /// Returns `IncorrectFormat(RawBody)` if a body is raw bytes, to which no instruction can be
    /// added. The module is unchanged after any error.
    ///
    /// # Examples
    ///
    /// Draws a module with sinks that are exported:
    ///
    /// ```
    /// use std::alloc::Global;
    /// use wasm_smith::{Error, Module, Unstructured};
    ///
    /// fn draw_with_sinks(alloc: Global, input: &[u8]) -> Result<Module, Error> {
    ///     let mut module = Module::arbitrary(alloc, &mut Unstructured::new(input))?;
    ///     if module.globals().len() < u32::MAX as usize - 2 {
    ///         let first = module.add_sinks(alloc)?;
    ///         module.export_sinks(alloc, first)?;
    ///     }
    ///     Ok(module)
    /// }
    /// ```
    pub fn add_sinks(&mut self, alloc: Global) -> Result<u32, Error>
        requires room { length self.old.globals < 2 ^ 32 - 3 }
        ensures answer { AnswersSinks self.old self.new result }
        ensures valid { IsValid self.old → IsValid self.new }
    {
        if self.has_raw_body() {
            return Err(Error::IncorrectFormat(Why::RawBody));
        }
        let drawn = self.drawn.as_mut();
        push_sinks(
            alloc,
            &mut drawn.imported.spaces.globals,
            &mut drawn.definitions.globals,
        )
    }

    /// Exports the three sinks from the index `first` on, which [`Module::add_sinks`] returned, so
    /// that a caller can read them. The exports follow all others, even past the maximum of the
    /// configuration, and add nothing to the type size.
    ///
    /// The names are `sink_i32`, `sink_i64` and `sink_i64_2`. If an earlier export has one of these
    /// names, as many `_` follow it as the longest name of an earlier export has bytes. The names
    /// are allocated from `alloc`.
    ///
    /// Requires `first + 2` to be less than the number of globals, and less than 2^32.
    ///
    /// # Errors
    ///
    /// The module is unchanged after an error.
    pub fn export_sinks(&mut self, alloc: Global, first: u32) -> Result<(), Error>
        requires there { first + 2 < length self.old.globals }
        requires room { first + 2 < 2 ^ 32 }
        ensures answer { AnswersSinkExports first self.old self.new result }
        ensures valid { IsValid self.old → IsValid self.new }
    {
        let exports = &mut self.drawn.as_mut().contents.exports;
        push_exports(alloc, exports, first)
    }
}
