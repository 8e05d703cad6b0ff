// The order of the draws of a configuration, by bytes in which consecutive bools differ.

ghost use Rattle.std.specs.Prelude.{◌≡◌, []};
ghost use Rattle.smith_config.specs.Arbitrary.{config_at};
ghost use Rattle.smith_config.specs.ExampleCoins.{changing_bytes, changing_config, turned_bytes, turned_config};

#[tactic(auto, unfolding(smith_config::specs::Arbitrary::config_at, smith_config::specs::Arbitrary::maximums_at, smith_config::specs::Arbitrary::sizes_at, smith_config::specs::Arbitrary::proposals_at, smith_config::specs::Arbitrary::instruction_kinds_at, smith_config::specs::Arbitrary::rules_at, smith_bytes::specs::Draws::range_at, smith_bytes::specs::Draws::bool_at, smith_bytes::specs::Draws::digit_count, smith_syntax::specs::Instructions::with_kind))]
fn draws()
    ensures changing_bools { config_at changing_bytes ≡ (changing_config, []) }
    ensures the_others { config_at turned_bytes ≡ (turned_config, []) }
{}
