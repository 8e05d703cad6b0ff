ghost use Rattle.std.specs.Prelude.{◌≡◌, IfOk, IsOkAnd};
ghost use Rattle.smith_bytes.specs.Source.{KeepsPieces};
ghost use Rattle.smith_config.specs.Faults.{Passes};
ghost use Rattle.smith_config.specs.Sanitized.{sanitized, IsSanitized};
ghost use Rattle.smith_config.specs.Arbitrary.{config_at, maximums_at, sizes_at, proposals_at};
ghost use Rattle.smith_config.specs.Arbitrary.{instruction_kinds_at, rules_at, undrawn_config};

use crate::Config;
use smith_bytes::{Error, Unstructured};
use smith_types::{InstructionKind, InstructionKinds};

impl Config {
    /// Draws a configuration from `u`, so that many inputs reach modules with different features.
    /// Maximums, most proposals and some rules are drawn, and all minimums are 0. The configuration
    /// is sanitised and passes [`Config::check`].
    ///
    /// Always returns `Ok`. The `Result` matches the signature in the Rust crate.
    pub fn arbitrary(u: &mut Unstructured<'_>) -> Result<Config, Error>
        ensures exact { IsOkAnd result (λ config. config_at u.old ≡ (config, u.new)) }
        ensures passes { IfOk result Passes }
        ensures sound { IfOk result IsSanitized }
        ensures kept { IfOk result (λ config. sanitized config ≡ config) }
        ensures left { KeepsPieces u.old u.new }
    {
        Ok(Config::draw(u))
    }

    #[tactic(auto, unfolding(crate::specs::Arbitrary::config_at))]
    fn draw(u: &mut Unstructured<'_>) -> Config
        ensures exact { config_at u.old ≡ (result, u.new) }
        ensures sound { IsSanitized result }
        ensures kept { sanitized result ≡ result }
        ensures left { KeepsPieces u.old u.new }
    {
        let config = Config::draw_counts(Config::with_undrawn_fields(), u);
        let config = Config::draw_sizes(config, u);
        let config = Config::draw_proposals(config, u);
        let config = Config::draw_kinds(config, u);
        let mut config = Config::draw_rules(config, u);
        config.sanitize();
        config
    }

    fn with_undrawn_fields() -> Config
        ensures { result ≡ undrawn_config }
    {
        let mut config = Config::default();
        config.max_components = 0;
        config.max_instances = 0;
        config.max_modules = 0;
        config.max_values = 0;
        config.allowed_instructions = InstructionKinds::none();
        config.wide_arithmetic_enabled = false;
        config
    }

    #[tactic(auto, unfolding(crate::specs::Arbitrary::maximums_at))]
    fn draw_counts(mut config: Config, u: &mut Unstructured<'_>) -> Config
        ensures exact { maximums_at config u.old ≡ (result, u.new) }
        ensures left { KeepsPieces u.old u.new }
    {
        config.max_types = u.int_in_range(0..=1000);
        config.max_imports = u.int_in_range(0..=1000);
        config.max_tags = u.int_in_range(0..=1000);
        config.max_funcs = u.int_in_range(0..=1000);
        config.max_globals = u.int_in_range(0..=1000);
        config.max_exports = u.int_in_range(0..=1000);
        config.max_element_segments = u.int_in_range(0..=1000);
        config.max_elements = u.int_in_range(0..=1000);
        config.max_data_segments = u.int_in_range(0..=1000);
        config.max_instructions = u.int_in_range(0..=1000);
        config
    }

    #[tactic(auto, unfolding(crate::specs::Arbitrary::sizes_at))]
    fn draw_sizes(mut config: Config, u: &mut Unstructured<'_>) -> Config
        ensures exact { sizes_at config u.old ≡ (result, u.new) }
        ensures left { KeepsPieces u.old u.new }
    {
        config.max_memories = u.int_in_range(0..=100);
        config.max_tables = u.int_in_range(0..=100);
        config.max_memory32_bytes = u.int_in_range(0..=1 << 32);
        config.max_memory64_bytes = u.int_in_range(0..=1 << 64);
        config.min_uleb_size = u.int_in_range(0..=5);
        config
    }

    #[tactic(auto, unfolding(crate::specs::Arbitrary::proposals_at))]
    fn draw_proposals(mut config: Config, u: &mut Unstructured<'_>) -> Config
        ensures exact { proposals_at config u.old ≡ (result, u.new) }
        ensures left { KeepsPieces u.old u.new }
    {
        config.bulk_memory_enabled = u.arbitrary();
        config.reference_types_enabled = u.arbitrary();
        config.simd_enabled = u.arbitrary();
        config.multi_value_enabled = u.arbitrary();
        config.max_aliases = u.int_in_range(0..=1000);
        config.max_nesting_depth = u.int_in_range(0..=10);
        config.saturating_float_to_int_enabled = u.arbitrary();
        config.sign_extension_ops_enabled = u.arbitrary();
        config.relaxed_simd_enabled = u.arbitrary();
        config.exceptions_enabled = u.arbitrary();
        config.threads_enabled = u.arbitrary();
        config.tail_call_enabled = u.arbitrary();
        config.gc_enabled = u.arbitrary();
        config.compact_imports_enabled = u.arbitrary();
        config.memory64_enabled = u.arbitrary();
        config
    }

    #[tactic(auto, unfolding(crate::specs::Arbitrary::instruction_kinds_at))]
    fn draw_kinds(mut config: Config, u: &mut Unstructured<'_>) -> Config
        ensures exact { instruction_kinds_at config u.old ≡ (result, u.new) }
        ensures left { KeepsPieces u.old u.new }
    {
        config.allowed_instructions = config
            .allowed_instructions
            .with(u.arbitrary(), InstructionKind::NumericInt)
            .with(u.arbitrary(), InstructionKind::Numeric)
            .with(u.arbitrary(), InstructionKind::VectorInt)
            .with(u.arbitrary(), InstructionKind::Vector)
            .with(u.arbitrary(), InstructionKind::Reference)
            .with(u.arbitrary(), InstructionKind::Parametric)
            .with(u.arbitrary(), InstructionKind::Variable)
            .with(u.arbitrary(), InstructionKind::Table)
            .with(u.arbitrary(), InstructionKind::MemoryInt)
            .with(u.arbitrary(), InstructionKind::Memory)
            .with(u.arbitrary(), InstructionKind::Control)
            .with(u.arbitrary(), InstructionKind::Aggregate);
        config
    }

    #[tactic(auto, unfolding(crate::specs::Arbitrary::rules_at))]
    fn draw_rules(mut config: Config, u: &mut Unstructured<'_>) -> Config
        ensures exact { rules_at config u.old ≡ (result, u.new) }
        ensures left { KeepsPieces u.old u.new }
    {
        config.table_max_size_required = u.arbitrary();
        config.max_table_elements = u.int_in_range(0..=1_000_000);
        config.disallow_traps = u.arbitrary();
        config.allow_floats = u.arbitrary();
        config.extended_const_enabled = u.arbitrary();
        config.const_expr_fuel = u.int_in_range(0..=100);
        config.limit_arrays_in_const_exprs = u.arbitrary();
        config
    }
}
