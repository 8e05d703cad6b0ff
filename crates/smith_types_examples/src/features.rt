ghost use Rattle.std.specs.Prelude.{◌≡◌, true, false, IsTrue};
ghost use Rattle.smith_types.specs.Syntax.FeatureBits.{has, joined};
ghost use Rattle.smith_types.specs.Syntax.Features.{every_feature};
ghost use Rattle.smith_types.specs.ExampleFeatures.{no_features};
ghost use Rattle.smith_types_examples.specs.ExampleTables.{AreIn};

#[tactic(auto, unfolding(smith_syntax::specs::FeatureBits::joined))]
fn bits()
    ensures both { IsTrue (has 7 5) }
    ensures one_of_two { ¬ IsTrue (has 6 5) }
    ensures none_wanted { IsTrue (has 0 0) }
    ensures wanted { joined 1 true 4 ≡ 5 }
    ensures not_wanted { joined 1 false 4 ≡ 1 }
{}

fn single_features()
    ensures none_of_them { AreIn 0 no_features }
    ensures mutable_global { AreIn 1 (record no_features { mutable_global = true }) }
    ensures wasm1 { AreIn 2 (record no_features { wasm1 = true }) }
    ensures saturating_float_to_int { AreIn 4 (record no_features { saturating_float_to_int = true }) }
    ensures sign_extension { AreIn 8 (record no_features { sign_extension = true }) }
    ensures reference_types { AreIn 16 (record no_features { reference_types = true }) }
    ensures multi_value { AreIn 32 (record no_features { multi_value = true }) }
    ensures bulk_memory { AreIn 64 (record no_features { bulk_memory = true }) }
    ensures simd { AreIn 128 (record no_features { simd = true }) }
    ensures relaxed_simd { AreIn 256 (record no_features { relaxed_simd = true }) }
    ensures multi_memory { AreIn 512 (record no_features { multi_memory = true }) }
    ensures exceptions { AreIn 1024 (record no_features { exceptions = true }) }
    ensures memory64 { AreIn 2048 (record no_features { memory64 = true }) }
    ensures tail_call { AreIn 4096 (record no_features { tail_call = true }) }
    ensures function_references { AreIn 8192 (record no_features { function_references = true }) }
    ensures gc { AreIn 16384 (record no_features { gc = true }) }
    ensures compact_imports { AreIn 32768 (record no_features { compact_imports = true }) }
    ensures threads { AreIn 65536 (record no_features { threads = true }) }
    ensures shared_everything_threads { AreIn 131072 (record no_features { shared_everything_threads = true }) }
    ensures custom_page_sizes { AreIn 262144 (record no_features { custom_page_sizes = true }) }
    ensures extended_const { AreIn 524288 (record no_features { extended_const = true }) }
    ensures wide_arithmetic { AreIn 1048576 (record no_features { wide_arithmetic = true }) }
    ensures acquire_release_atomics { AreIn 2097152 (record no_features { acquire_release_atomics = true }) }
    ensures multibyte_array_access { AreIn 4194304 (record no_features { multibyte_array_access = true }) }
    ensures custom_descriptors { AreIn 8388608 (record no_features { custom_descriptors = true }) }
    ensures all_of_them { AreIn 16777215 every_feature }
{}
