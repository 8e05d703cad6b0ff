ghost use Rattle.std.specs.Prelude.{◌≡◌, ◌<◌, false, length};
ghost use Rattle.smith_module_rules.specs.Module.{IsValid};
ghost use Rattle.smith_draw_contents.specs.Exporting.{is_exported};
ghost use Rattle.wasm_smith.specs.FuelExport.{AnswersFuelExport, fuel_name};

use crate::global_export::export_global;
use crate::module::Module;
use smith_bytes::Error;
use std::alloc::Global;

impl Module {
    /// Exports the global at `index`, which [`Module::ensure_termination`] returned, so that a
    /// caller can refill the counter. The export follows all others, even past the maximum of the
    /// configuration, and adds nothing to the type size.
    ///
    /// The name is `fuel`, or if an export has that name, `fuel` followed by as many `_` as the
    /// longest name of an export has bytes. It is allocated from `alloc`.
    ///
    /// Requires `index` to be less than the number of globals.
    ///
    /// # Errors
    ///
    /// The module is unchanged after an error.
    pub fn export_fuel(&mut self, alloc: Global, index: u32) -> Result<(), Error>
        requires there { index < length self.old.globals }
        ensures answer { AnswersFuelExport index self.old self.new result }
        ensures fresh { is_exported self.old.exports (fuel_name self.old.exports) ≡ false }
        ensures valid { IsValid self.old → IsValid self.new }
    {
        let exports = &mut self.drawn.as_mut().contents.exports;
        export_global(alloc, exports, "fuel", index)
    }
}
