ghost use Rattle.std.specs.Prelude.{◌≡◌, ◌<◌, length};
ghost use Rattle.smith_module_rules.specs.Module.{IsValid};
ghost use Rattle.wasm_smith.specs.FuelExport.{AnswersFuelExport};
ghost use Rattle.smith_program.specs.Bodies.{AreBodiesOf};

use crate::program::Program;
use smith_bytes::Error;
use std::alloc::Global;

impl Program {
    /// Exports the global at `index`, which [`Program::ensure_termination`] returned, so that a
    /// caller can refill the counter, as [`Module::export_fuel`] does. The bodies are unchanged.
    ///
    /// Requires `index` to be less than the number of globals.
    ///
    /// # Errors
    ///
    /// The module is unchanged after an error.
    ///
    /// [`Module::export_fuel`]: wasm_smith::Module::export_fuel
    pub fn export_fuel(&mut self, alloc: Global, index: u32) -> Result<(), Error>
        requires there { index < length self.old.«module».globals }
        ensures answer { AnswersFuelExport index self.old.«module» self.new.«module» result }
        ensures valid { IsValid self.old.«module» → IsValid self.new.«module» }
        ensures bodies { self.new.bodies ≡ self.old.bodies }
        ensures typed { AreBodiesOf self.old.«module» self.old.bodies
            → AreBodiesOf self.new.«module» self.new.bodies }
    {
        self.module.export_fuel(alloc, index)
    }
}
