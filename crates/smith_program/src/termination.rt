ghost use Rattle.std.specs.Prelude.{◌≡◌, ◌<◌, ◌-◌, ◌^◌, length, map};
ghost use Rattle.smith_module_rules.specs.Module.{IsValid};
ghost use Rattle.wasm_smith.specs.Termination.{AnswersCounter};
ghost use Rattle.smith_program.specs.Bodies.{AreBodiesOf};
ghost use Rattle.smith_program.specs.Counted.{counted_body};

use crate::program::Program;
use smith_bytes::Error;
use std::alloc::Global;

impl Program {
    /// Adds a global that counts down from `default_fuel` to the module, and returns its index, as
    /// [`Module::ensure_termination`] does. An encoder makes each call of a defined function, and
    /// each iteration of a loop, subtract 1 from the counter, or trap at 0.
    ///
    /// The bodies are unchanged. They stay typed with the checks, which an encoder writes at their
    /// starts and after each `loop`.
    ///
    /// Requires the module to have fewer than 2^32 - 1 globals.
    ///
    /// # Errors
    ///
    /// Returns `IncorrectFormat(RawBody)` if a body is raw bytes, before which no check can be
    /// placed. The module is unchanged after any error.
    ///
    /// [`Module::ensure_termination`]: wasm_smith::Module::ensure_termination
    pub fn ensure_termination(&mut self, alloc: Global, default_fuel: u32) -> Result<u32, Error>
        requires room { length self.old.«module».globals < 2 ^ 32 - 1 }
        ensures answer { AnswersCounter default_fuel self.old.«module» self.new.«module» result }
        ensures valid { IsValid self.old.«module» → IsValid self.new.«module» }
        ensures bodies { self.new.bodies ≡ self.old.bodies }
        ensures typed { AreBodiesOf self.old.«module» self.old.bodies
            → AreBodiesOf self.new.«module» self.new.bodies }
        ensures counted { IsValid self.new.«module» → AreBodiesOf self.new.«module» self.new.bodies
            → AreBodiesOf self.new.«module»
            (map (counted_body self.new.«module».fuel_globals) self.new.bodies) }
    {
        self.module.ensure_termination(alloc, default_fuel)
    }
}
