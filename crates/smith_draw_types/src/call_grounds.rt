ghost use Rattle.std.specs.Prelude.{◌≡◌, ◌<◌, length, IsTrue, IfOk, IfErr};
ghost use Rattle.smith_draw_types.specs.Grounding.{standing_in};
ghost use Rattle.smith_draw_types.specs.KeptGrounds.{HasBegun};

use crate::kept_grounds::KeptGrounds;
use crate::reference_scope::ReferenceScope;
use crate::spaces::Spaces;
use smith_bytes::Error;
use smith_config::Config;
use std::alloc::Global;
use std::marker::Model;

/// The types and functions that one call draws references over, with a record of the heap types
/// that the functions ground.
#[derive(Drop)]
pub(crate) struct CallGrounds<'a> {
    config: &'a Config,
    spaces: Spaces<'a>,
    grounds: KeptGrounds,
}

impl<'a> Model for CallGrounds<'a> {
    ghost use Rattle.smith_draw_types.specs.Grounding.{standing_in};
    ghost use Rattle.smith_draw_types.specs.KeptGrounds.{AreKeptGrounds, CallOver};

    ghost Value = { CallOver };

    ghost view = { λ a.
        record { context = standing_in a.config.now a.spaces; grounds = a.grounds } };

    ghost invariant = { λ a. AreKeptGrounds (standing_in a.config.now a.spaces) a.grounds };
}

impl<'a> CallGrounds<'a> {
    /// Reads each function of `spaces` once, if `config` enables non-nullable references. Otherwise
    /// reads and allocates nothing.
    pub(crate) fn over(
        alloc: Global,
        config: &'a Config,
        spaces: &Spaces<'a>,
    ) -> Result<CallGrounds<'a>, Error>
        ensures exact { IfOk result (λ call. call.context ≡ standing_in config.now spaces.now) }
        ensures begun { IsTrue config.now.non_nullable_enabled
            → 0 < length spaces.now.entities.funcs.now → IfOk result (λ call. HasBegun call.grounds) }
        ensures memory { IfErr result (λ e. e ≡ Error.Memory) }
    {
        let mut grounds = KeptGrounds::new();
        grounds.keep(alloc, config, spaces)?;
        Ok(CallGrounds {
            config,
            spaces: *spaces,
            grounds,
        })
    }

    /// Records nothing. Each check of whether a function grounds a heap type reads all functions, so
    /// this is for calls that draw a single reference.
    pub(crate) fn without_record(config: &'a Config, spaces: &Spaces<'a>) -> CallGrounds<'a>
        ensures { result.context ≡ standing_in config.now spaces.now }
    {
        CallGrounds {
            config,
            spaces: *spaces,
            grounds: KeptGrounds::new(),
        }
    }

    /// Returns the types and functions, for the draws of this call.
    pub(crate) fn scope(&self) -> ReferenceScope<'_>
        ensures { result ≡ self.now.context }
    {
        self.grounds.scope(self.config, &self.spaces)
    }
}
