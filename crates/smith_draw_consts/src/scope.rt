ghost use Rattle.std.specs.Prelude.{◌≡◌};
ghost use Rattle.smith_draw_consts.specs.ConstScopes.{visible_end};

use smith_config::Config;
use smith_draw_types::Spaces;

/// The context of an expression, in which only globals below `visible` may be read.
#[derive(Clone, Copy)]
pub(crate) struct Scope<'a> {
    /// The configuration.
    pub config: &'a Config,
    /// The types and entities defined so far.
    pub spaces: &'a Spaces<'a>,
    /// The number of globals that may be read, from the first.
    pub visible: usize,
}

/// Returns the number of globals that an expression may read, from the first.
pub(crate) fn visible_end(config: &Config, spaces: &Spaces<'_>, allow_defined: bool) -> usize
    ensures { result ≡ visible_end config.now spaces.now allow_defined }
{
    let entities = spaces.entities;
    if config.gc_enabled && allow_defined {
        return entities.globals.len();
    }
    entities.imported_globals
}
