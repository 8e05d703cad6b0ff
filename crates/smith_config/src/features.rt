ghost use Rattle.std.specs.Prelude.{◌≡◌};
ghost use Rattle.smith_types.specs.Syntax.FeatureBits.{bits_of, features_in};
ghost use Rattle.smith_config.specs.Features.{features_of, number_of};

use crate::Config;
use smith_types::WasmFeatures;

impl Config {
    /// Returns the features that a module drawn for the configuration may use.
    pub fn features(&self) -> WasmFeatures
        ensures flags { features_in result ≡ features_of self.now }
        ensures number { bits_of result ≡ number_of (features_of self.now) }
    {
        WasmFeatures::MUTABLE_GLOBAL
            .with(true, WasmFeatures::WASM1)
            .with(
                self.saturating_float_to_int_enabled,
                WasmFeatures::SATURATING_FLOAT_TO_INT,
            )
            .with(
                self.sign_extension_ops_enabled,
                WasmFeatures::SIGN_EXTENSION,
            )
            .with(self.reference_types_enabled, WasmFeatures::REFERENCE_TYPES)
            .with(self.multi_value_enabled, WasmFeatures::MULTI_VALUE)
            .with(self.bulk_memory_enabled, WasmFeatures::BULK_MEMORY)
            .with(self.simd_enabled, WasmFeatures::SIMD)
            .with(self.relaxed_simd_enabled, WasmFeatures::RELAXED_SIMD)
            .with(self.max_memories > 1, WasmFeatures::MULTI_MEMORY)
            .with(self.exceptions_enabled, WasmFeatures::EXCEPTIONS)
            .with(self.memory64_enabled, WasmFeatures::MEMORY64)
            .with(self.tail_call_enabled, WasmFeatures::TAIL_CALL)
            .with(self.gc_enabled, WasmFeatures::FUNCTION_REFERENCES)
            .with(self.gc_enabled, WasmFeatures::GC)
            .with(self.compact_imports_enabled, WasmFeatures::COMPACT_IMPORTS)
            .with(self.threads_enabled, WasmFeatures::THREADS)
            .with(
                self.shared_everything_threads_enabled,
                WasmFeatures::SHARED_EVERYTHING_THREADS,
            )
            .with(
                self.custom_page_sizes_enabled,
                WasmFeatures::CUSTOM_PAGE_SIZES,
            )
            .with(self.extended_const_enabled, WasmFeatures::EXTENDED_CONST)
            .with(self.wide_arithmetic_enabled, WasmFeatures::WIDE_ARITHMETIC)
            .with(
                self.acquire_release_atomics_enabled,
                WasmFeatures::ACQUIRE_RELEASE_ATOMICS,
            )
            .with(
                self.multibyte_array_access_enabled,
                WasmFeatures::MULTIBYTE_ARRAY_ACCESS,
            )
            .with(
                self.custom_descriptors_enabled,
                WasmFeatures::CUSTOM_DESCRIPTORS,
            )
    }
}
