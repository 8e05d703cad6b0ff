ghost use Rattle.std.specs.Prelude.{◌↔◌, IsTrue};
ghost use Rattle.smith_module_rules.specs.Held.{IsRaw};
ghost use Rattle.wasm_smith.specs.Termination.{HasRawBody};

use crate::module::Module;
use smith_types::{Code, Instructions};

fn is_raw(body: &Code) -> bool
    ensures { IsTrue result ↔ IsRaw body.now.instructions }
{
    match body.instructions {
        Instructions::Unreachable => false,
        Instructions::Arbitrary(_) => true,
    }
}

impl Module {
    /// Returns whether a body is raw bytes, to which no instruction can be added. Only a
    /// configuration with `allow_invalid_funcs` gives such a module.
    pub fn has_raw_body(&self) -> bool
        ensures { IsTrue result ↔ HasRawBody self.now }
    {
        self.drawn.contents.code.as_slice().iter().any(is_raw)
    }
}
