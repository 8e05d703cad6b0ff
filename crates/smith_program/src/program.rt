use crate::bodies::draw_bodies;
use smith_bytes::{Error, Unstructured};
use smith_config::Config;
use smith_instr::Instr;
use smith_types::Items;
use std::alloc::Global;
use std::marker::Model;
use wasm_smith::Module;

/// The body of a function that a module defines.
#[derive(Debug, Drop)]
pub enum Body {
    /// The instructions, without the last `end`.
    Drawn(Items<Instr>),
    /// The raw bytes that the module has for the function.
    Raw,
}

/// A module, and the bodies of the functions that it defines.
#[derive(Drop)]
pub struct Program {
    /// The module. Its own bodies are `unreachable`, except those of raw bytes.
    pub(crate) module: Module,
    /// The body of each function that the module defines.
    pub(crate) bodies: Items<Body>,
}

impl Model for Program {
    ghost use Rattle.std.specs.Prelude.{◌≡◌, length};
    ghost use Rattle.smith_program.specs.Parts.{ProgramParts};

    ghost Value = { ProgramParts };

    ghost view = { λ p. record { «module» = p.«module»; bodies = p.bodies } };

    ghost invariant = { λ p. length p.bodies ≡ length p.«module».code };
}

impl Program {
    ghost use Rattle.std.specs.Prelude.{◌≡◌, length};
    ghost use Rattle.smith_program.specs.Generated.{IsProgram};

    /// Draws a module from the bytes of `u` as [`Module::new`] does, and bodies of its functions
    /// from the bytes left. With `disallow_traps` of `config`, only the instruction `unreachable`
    /// of a body may trap, raw bytes aside.
    ///
    /// # Errors
    ///
    /// Returns the errors of [`Module::new`]. The bodies add only `Memory`.
    pub fn new(alloc: Global, config: Config, u: &mut Unstructured<'_>) -> Result<Program, Error>
        ensures { IsProgram config u.old result u.new }
    {
        let module = Module::new(alloc, config, u)?;
        let bodies = draw_bodies(alloc, &module, u)?;
        Ok(Program { module, bodies })
    }

    /// Returns the module. Its own bodies are `unreachable`, except those of raw bytes.
    pub fn module(&self) -> &Module
        ensures { result.now ≡ self.now.«module» }
    {
        &self.module
    }

    /// Returns the body of each function that the module defines.
    pub fn bodies(&self) -> &[Body]
        ensures items { result.now ≡ self.now.bodies }
        ensures each { length self.now.bodies ≡ length self.now.«module».code }
    {
        self.bodies.as_slice()
    }
}
