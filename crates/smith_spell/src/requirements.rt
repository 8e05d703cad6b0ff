ghost use Rattle.std.specs.Prelude.{◌≡◌, ◌↔◌, IsTrue, All, map};
ghost use Rattle.smith_config.specs.Faults.{counts, minimum_of};
ghost use Rattle.smith_config.specs.InUse.{HasNoShapes};
ghost use Rattle.smith_config.specs.Sanitized.{sanitized};
ghost use Rattle.smith_config.specs.Minimums.{HasNoMinimums};
ghost use Rattle.smith_spell.specs.Decided.{AsksForNothing};

use smith_config::Config;

/// Returns whether `config`, once sanitised, has no minimums and no shapes, and does not export
/// everything. Does not allocate, and reads no shape.
pub(crate) fn requires_nothing(config: &Config) -> bool
    ensures { IsTrue result ↔ AsksForNothing (sanitized config.now) }
{
    is_nothing_required(config)
}

fn is_nothing_required(config: &Config) -> bool
    ensures { IsTrue result ↔ AsksForNothing config.now }
{
    has_no_minimums(config) && has_no_shapes(config) && !config.export_everything
}

fn has_no_minimums(config: &Config) -> bool
    ensures { IsTrue result ↔ HasNoMinimums config.now }
{
    are_zero(&minimums(config))
}

fn are_zero(minimums: &[usize]) -> bool
    ensures { IsTrue result ↔ All (λ minimum. minimum ≡ 0) minimums.now }
{
    minimums.iter().all(|minimum| *minimum == 0)
}

fn minimums(config: &Config) -> [usize; 11]
    ensures { result ≡ map (minimum_of config.now) counts }
{
    [
        config.min_types,
        config.min_imports,
        config.min_tags,
        config.min_funcs,
        config.min_globals,
        config.min_exports,
        config.min_element_segments,
        config.min_elements,
        config.min_data_segments,
        config.min_memories as usize,
        config.min_tables as usize,
    ]
}

fn has_no_shapes(config: &Config) -> bool
    ensures { IsTrue result ↔ HasNoShapes config.now }
{
    config.available_imports.is_none() && config.exports.is_none() && config.module_shape.is_none()
}
