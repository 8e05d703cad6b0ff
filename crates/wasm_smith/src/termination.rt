ghost use Rattle.std.specs.Prelude.{◌≡◌, ◌<◌, ◌-◌, ◌^◌, ◌++◌, [], ◌∷◌, length};
ghost use Rattle.std.specs.Prelude.{IfOk, OnOk, OnErr, IfErr};
ghost use Rattle.std.specs.Int.{cast_signed, w32};
ghost use Rattle.smith_types.specs.Syntax.const_instr.ConstInstr.TheVariants.{
  I32Const as NumberConst,
};
ghost use Rattle.smith_module_rules.specs.Module.{IsValid};
ghost use Rattle.wasm_smith.specs.Termination.{AnswersCounter, counter};

use crate::added_global::{push_global, truncate};
use crate::module::Module;
use smith_bytes::{Error, Why};
use smith_types::{ConstInstr, GlobalType, Items, ValType};
use std::alloc::Global;

// Adds a counter to each of the three lists, or to none.
fn push_counter(
    alloc: Global,
    fuel: u32,
    globals: &mut Items<GlobalType>,
    defined_globals: &mut Items<(u32, Items<ConstInstr>)>,
    fuel_globals: &mut Items<u32>,
) -> Result<u32, Error>
    requires room { length globals.old < 2 ^ 32 - 1 }

    // The counter.
    ensures index { IfOk result (λ index. index ≡ length globals.old) }
    ensures globals { OnOk result (globals.new ≡ globals.old ++ counter ∷ []) }
    ensures definitions { IfOk result (λ index. defined_globals.new
        ≡ defined_globals.old ++ (index, NumberConst (cast_signed w32 fuel) ∷ []) ∷ []) }
    ensures fuel { IfOk result (λ index. fuel_globals.new ≡ fuel_globals.old ++ index ∷ []) }

    // Refusals.
    ensures globals_kept { OnErr result (globals.new ≡ globals.old) }
    ensures definitions_kept { OnErr result (defined_globals.new ≡ defined_globals.old) }
    ensures fuel_kept { OnErr result (fuel_globals.new ≡ fuel_globals.old) }
    ensures memory { IfErr result (λ e. e ≡ Error.Memory) }
{
    let counters = fuel_globals.len();
    let index = globals.len() as u32;
    let full = ConstInstr::I32Const(fuel.cast_signed());
    fuel_globals.push(index)?;
    if let Err(error) = push_global(alloc, ValType::I32, full, globals, defined_globals) {
        truncate(alloc, fuel_globals, counters);
        return Err(error);
    }
    Ok(index)
}

impl Module {
    /// Adds a global that counts calls down from `default_fuel`, and returns its index. An encoder
    /// makes each call of a defined function subtract 1 from the counter, or trap at 0.
    ///
    /// The counter follows all other globals, even past the maximum of the configuration, and is
    /// not exported. A further call adds another counter, which bodies check before the earlier
    /// counters. The definition is allocated from `alloc`.
    ///
    /// Requires the module to have fewer than 2^32 - 1 globals.
    ///
    /// # Errors
    ///
    /// Returns `IncorrectFormat(RawBody)` if a body is raw bytes, before which no check can be
    /// placed. The module is unchanged after any error.
    ///
    /// # Examples
    ///
    /// Draws a module whose defined functions trap after 1,000 calls in all:
    ///
    /// ```
    /// use std::alloc::Global;
    /// use wasm_smith::{Error, Module, Unstructured};
    ///
    /// fn draw_terminating(alloc: Global, input: &[u8]) -> Result<Module, Error> {
    ///     let mut module = Module::arbitrary(alloc, &mut Unstructured::new(input))?;
    ///     if module.globals().len() < u32::MAX as usize {
    ///         module.ensure_termination(alloc, 1000)?;
    ///     }
    ///     Ok(module)
    /// }
    /// ```
    pub fn ensure_termination(&mut self, alloc: Global, default_fuel: u32) -> Result<u32, Error>
        requires room { length self.old.globals < 2 ^ 32 - 1 }
        ensures answer { AnswersCounter default_fuel self.old self.new result }
        ensures valid { IsValid self.old → IsValid self.new }
    {
        if self.has_raw_body() {
            return Err(Error::IncorrectFormat(Why::RawBody));
        }
        let drawn = self.drawn.as_mut();
        push_counter(
            alloc,
            default_fuel,
            &mut drawn.imported.spaces.globals,
            &mut drawn.definitions.globals,
            &mut self.fuel_globals,
        )
    }
}
