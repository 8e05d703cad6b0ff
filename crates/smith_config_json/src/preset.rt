ghost use Rattle.std.specs.Prelude.{◌≡◌};
ghost use Rattle.smith_config_json.specs.Fields.{named};
ghost use Rattle.smith_config_json.specs.Presets.{
  preset_named,
  with_preset,
  changed_by,
  first_version,
  second_version,
  third_version,
  with_proposals,
  within_engines,
  within_javascriptcore,
  within_wabt,
  within_binaryen,
  to_run,
  presets_in,
};

use smith_config::Config;

/// A change of a configuration for a version of the standard, for a tool, or for modules that are
/// run.
///
/// The preset of a tool turns off the features that the tool lacks, and keeps its limits: in the
/// version that the variant states, the tool accepts at least 99 of 100 modules.
#[derive(Clone, Copy, Debug, PartialEq, Eq)]
pub enum Preset {
    /// `run`: modules without imports that have a function and export all functions. At least 98 of
    /// 100 can be instantiated by an engine of version 3.0 of the standard.
    Run,
    /// `mvp`: version 1.0 of the standard.
    Version1,
    /// `2.0`: version 2.0 of the standard.
    Version2,
    /// `3.0`: version 3.0 of the standard.
    Version3,
    /// `proposals`: version 3.0 of the standard, and the proposals beyond it.
    Proposals,
    /// `wabt`: wabt 1.0.32, with `--enable-all`.
    Wabt,
    /// `binaryen`: Binaryen 108, with `--all-features`.
    Binaryen,
    /// `v8`: V8 of Chromium 156.
    V8,
    /// `spidermonkey`: SpiderMonkey of Firefox 153.
    SpiderMonkey,
    /// `jsc`: JavaScriptCore 2.50.6.
    JavaScriptCore,
}

/// The name of every preset.
static PRESETS: [(&str, Preset); 10] = [
    ("run", Preset::Run),
    ("mvp", Preset::Version1),
    ("2.0", Preset::Version2),
    ("3.0", Preset::Version3),
    ("proposals", Preset::Proposals),
    ("wabt", Preset::Wabt),
    ("binaryen", Preset::Binaryen),
    ("v8", Preset::V8),
    ("spidermonkey", Preset::SpiderMonkey),
    ("jsc", Preset::JavaScriptCore),
];

/// Finds the preset named `name`.
#[tactic(auto, unfolding(crate::specs::Presets::preset_named))]
pub fn preset_named(name: &str) -> Option<Preset>
    ensures { result ≡ preset_named name.now }
{
    find_preset(&PRESETS, name)
}

/// Finds the first item with the name `name`.
fn find_preset(table: &[(&str, Preset)], name: &str) -> Option<Preset>
    ensures { result ≡ named name.now (presets_in table.now) }
{
    for (other, preset) in table {
        if name == *other {
            return Some(*preset);
        }
    }
    None
}

/// Changes `config` as `preset` does, if there is one.
pub(crate) fn change_by(preset: Option<Preset>, config: &mut Config)
    ensures { config.new ≡ changed_by preset config.old }
{
    if let Some(preset) = preset {
        preset.apply(config);
    }
}

impl Preset {
    /// Changes the fields of `config` that the preset names.
    #[tactic(auto, unfolding(crate::specs::Presets::with_preset))]
    pub fn apply(self, config: &mut Config)
        ensures { config.new ≡ with_preset self config.old }
    {
        match self {
            Preset::Run => choose_what_runs(config),
            Preset::Version1 => choose_first_version(config),
            Preset::Version2 => choose_second_version(config),
            Preset::Version3 => choose_third_version(config),
            Preset::Proposals => choose_proposals(config),
            Preset::Wabt => keep_to_wabt(config),
            Preset::Binaryen => keep_to_binaryen(config),
            Preset::V8 | Preset::SpiderMonkey => keep_to_engines(config),
            Preset::JavaScriptCore => keep_to_javascriptcore(config),
        }
    }
}

fn choose_third_version(config: &mut Config)
    ensures { config.new ≡ third_version config.old }
{
    config.max_memories = 4;
    config.max_tables = 4;
    config.reference_types_enabled = true;
    config.gc_enabled = true;
    config.custom_descriptors_enabled = false;
    config.multi_value_enabled = true;
    config.bulk_memory_enabled = true;
    config.simd_enabled = true;
    config.exceptions_enabled = true;
    config.threads_enabled = false;
    config.shared_everything_threads_enabled = false;
    config.memory64_enabled = true;
    config.custom_page_sizes_enabled = false;
    config.extended_const_enabled = true;
    config.compact_imports_enabled = false;
    config.relaxed_simd_enabled = true;
    config.saturating_float_to_int_enabled = true;
    config.sign_extension_ops_enabled = true;
    config.tail_call_enabled = true;
    config.wide_arithmetic_enabled = false;
    config.non_nullable_enabled = true;
}

fn choose_second_version(config: &mut Config)
    ensures { config.new ≡ second_version config.old }
{
    choose_third_version(config);
    config.max_memories = 1;
    config.gc_enabled = false;
    config.exceptions_enabled = false;
    config.memory64_enabled = false;
    config.extended_const_enabled = false;
    config.relaxed_simd_enabled = false;
    config.tail_call_enabled = false;
    config.non_nullable_enabled = false;
}

fn choose_first_version(config: &mut Config)
    ensures { config.new ≡ first_version config.old }
{
    choose_second_version(config);
    config.max_tables = 1;
    config.reference_types_enabled = false;
    config.multi_value_enabled = false;
    config.bulk_memory_enabled = false;
    config.simd_enabled = false;
    config.saturating_float_to_int_enabled = false;
    config.sign_extension_ops_enabled = false;
}

fn choose_proposals(config: &mut Config)
    ensures { config.new ≡ with_proposals config.old }
{
    choose_third_version(config);
    config.custom_descriptors_enabled = true;
    config.threads_enabled = true;
    config.shared_everything_threads_enabled = true;
    config.custom_page_sizes_enabled = true;
    config.compact_imports_enabled = true;
    config.wide_arithmetic_enabled = true;
}

fn keep_to_engines(config: &mut Config)
    ensures { config.new ≡ within_engines config.old }
{
    config.max_memory64_bytes = 1 << 34;
    config.custom_descriptors_enabled = false;
    config.shared_everything_threads_enabled = false;
    config.custom_page_sizes_enabled = false;
    config.compact_imports_enabled = false;
    config.wide_arithmetic_enabled = false;
}

fn keep_to_javascriptcore(config: &mut Config)
    ensures { config.new ≡ within_javascriptcore config.old }
{
    keep_to_engines(config);
    config.max_memories = 1;
    config.gc_enabled = false;
    config.memory64_enabled = false;
    config.relaxed_simd_enabled = false;
}

fn keep_to_wabt(config: &mut Config)
    ensures { config.new ≡ within_wabt config.old }
{
    keep_to_engines(config);
    config.reference_types_enabled = false;
    config.gc_enabled = false;
    config.exceptions_enabled = false;
    config.memory64_enabled = false;
}

fn keep_to_binaryen(config: &mut Config)
    ensures { config.new ≡ within_binaryen config.old }
{
    keep_to_wabt(config);
    config.max_imports = 0;
    config.max_exports = 1;
    config.min_memories = 1;
    config.max_memories = 1;
    config.disallow_traps = true;
    config.multi_value_enabled = false;
    config.bulk_memory_enabled = false;
    config.relaxed_simd_enabled = false;
}

fn choose_what_runs(config: &mut Config)
    ensures { config.new ≡ to_run config.old }
{
    keep_to_engines(config);
    config.min_types = 12;
    config.max_types = 100;
    config.max_imports = 0;
    config.min_funcs = 1;
    config.max_funcs = 100;
    config.max_element_segments = 4;
    config.max_data_segments = 1;
    config.max_memory32_bytes = 1 << 24;
    config.max_memory64_bytes = 1 << 24;
    config.max_table_elements = 10_000;
    config.limit_arrays_in_const_exprs = true;
    config.allow_start_export = false;
    config.export_everything = true;
}
