use crate::configuration::set_default;
use crate::failure::Failure;
use crate::request::Request;
use smith_config::Config;

// The fields for two features without instructions here, and the fields of the Rust crate for
// components, which don't exist here.
const WITHOUT_EFFECT: [&str; 8] = [
    "acquire-release-atomics-enabled",
    "multibyte-array-access-enabled",
    "max-aliases",
    "max-components",
    "max-instances",
    "max-modules",
    "max-nesting-depth",
    "max-values",
];

/// Returns whether the field `name` has no effect.
pub(crate) fn has_no_effect(name: &str) -> bool {
    WITHOUT_EFFECT.contains(&name)
}

/// Warns of each field that has no effect and is not set to its default. Fails if a preset or a
/// field has a wrong value.
pub(crate) fn warn(rt: &HostRuntime, asked: &Request<'_, '_>) -> Result<(), Failure> {
    let config = set_default(rt.alloc(), asked)?;
    let changed = are_changed(&config);
    drop(config);
    for (name, is_changed) in WITHOUT_EFFECT.iter().zip(changed.iter()) {
        if *is_changed {
            eprintln!(rt; "smith_wasm: the field {name} has no effect here")?;
        }
    }
    Ok(())
}

/// Returns of each field without effect, in their order, whether `config` has another value than the
/// default.
fn are_changed(config: &Config) -> [bool; 8] {
    [
        config.acquire_release_atomics_enabled,
        config.multibyte_array_access_enabled,
        config.max_aliases != 1000,
        config.max_components != 10,
        config.max_instances != 10,
        config.max_modules != 10,
        config.max_nesting_depth != 10,
        config.max_values != 10,
    ]
}
