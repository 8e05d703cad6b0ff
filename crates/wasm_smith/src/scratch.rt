ghost use Rattle.std.specs.Prelude.{◌≡◌, ◌-◌, ◌<◌, ◌^◌, ◌++◌, length};
ghost use Rattle.std.specs.Prelude.{IfOk, IfErr, OnOk, OnErr};
ghost use Rattle.smith_module_rules.specs.Module.{IsValid};
ghost use Rattle.wasm_smith.specs.Scratch.{AnswersScratch, scratch, scratch_definitions};

use crate::added_global::push_globals;
use crate::module::Module;
use smith_bytes::Error;
use smith_types::{ConstInstr, GlobalType, Items, ValType};
use std::alloc::Global;

// Adds the scratch globals to both lists, or to none, and returns the index of the first.
fn push_scratch(
    alloc: Global,
    vectors: bool,
    globals: &mut Items<GlobalType>,
    definitions: &mut Items<(u32, Items<ConstInstr>)>,
) -> Result<u32, Error>
    requires room { length globals.old < 2 ^ 32 - 3 }

    // The scratch globals.
    ensures first { IfOk result (λ first. first ≡ length globals.old) }
    ensures globals { OnOk result (globals.new ≡ globals.old ++ scratch vectors) }
    ensures definitions { OnOk result (definitions.new
        ≡ definitions.old ++ scratch_definitions vectors (length globals.old)) }

    // Refusals.
    ensures globals_kept { OnErr result (globals.new ≡ globals.old) }
    ensures definitions_kept { OnErr result (definitions.new ≡ definitions.old) }
    ensures memory { IfErr result (λ e. e ≡ Error.Memory) }
{
    let added = [
        (ValType::F32, ConstInstr::F32Const(0)),
        (ValType::F64, ConstInstr::F64Const(0)),
        (ValType::V128, ConstInstr::V128Const(0)),
    ];
    if vectors {
        push_globals(alloc, &added, globals, definitions)
    } else {
        push_globals(alloc, &added[..2], globals, definitions)
    }
}

impl Module {
    /// Adds mutable globals in which instructions can keep a value for a moment, the scratch
    /// globals: an `f32`, an `f64` and, if the configuration has `simd_enabled`, a `v128`, which
    /// are 0 at first. Returns the index of the first.
    ///
    /// The scratch globals follow all other globals, even past the maximum of the configuration,
    /// and are not exported. They are added even without `allow_floats`. Bodies are unchanged, raw
    /// ones too. A further call adds as many more. The definitions are allocated from `alloc`.
    ///
    /// Requires the module to have fewer than 2^32 - 3 globals.
    ///
    /// # Errors
    ///
    /// Returns `Memory` if an allocation fails. The module is then unchanged.
    ///
    /// # Examples
    ///
    /// Draws a module with scratch globals:
    ///
    /// ```
    /// use std::alloc::Global;
    /// use wasm_smith::{Error, Module, Unstructured};
    ///
    /// fn draw_with_scratch(alloc: Global, input: &[u8]) -> Result<Module, Error> {
    ///     let mut module = Module::arbitrary(alloc, &mut Unstructured::new(input))?;
    ///     if module.globals().len() < u32::MAX as usize - 2 {
    ///         module.add_scratch(alloc)?;
    ///     }
    ///     Ok(module)
    /// }
    /// ```
    pub fn add_scratch(&mut self, alloc: Global) -> Result<u32, Error>
        requires room { length self.old.globals < 2 ^ 32 - 3 }
        ensures answer { AnswersScratch self.old self.new result }
        ensures valid { IsValid self.old → IsValid self.new }
    {
        let vectors = self.config.simd_enabled;
        let drawn = self.drawn.as_mut();
        push_scratch(
            alloc,
            vectors,
            &mut drawn.imported.spaces.globals,
            &mut drawn.definitions.globals,
        )
    }
}
