ghost use Rattle.std.specs.Prelude.{◌≡◌, ⊤};
ghost use Rattle.smith_syntax.specs.FeatureBits.{bits_of, feature_table, has, joined, features_in};
ghost use Rattle.smith_syntax.specs.Features.{every_feature};

use bitflags::{Flag, Flags, bitflag_items};

/// A set of WebAssembly features, one bit each.
#[derive(Clone, Copy, Debug, PartialEq, Eq)]
pub struct WasmFeatures(u32);

bitflag_items! {
    impl WasmFeatures: u32 {
        /// Mutable imported and exported globals.
        const MUTABLE_GLOBAL = 1;
        /// The first version of the standard.
        const WASM1 = 2;
        /// Saturating conversions from floats to integers.
        const SATURATING_FLOAT_TO_INT = 4;
        /// Sign-extension instructions.
        const SIGN_EXTENSION = 8;
        /// References as value types, tables of other types than `funcref`, element expressions,
        /// and a second table.
        const REFERENCE_TYPES = 16;
        /// Functions with several results.
        const MULTI_VALUE = 32;
        /// Passive and declared segments, and segments with an explicit table.
        const BULK_MEMORY = 64;
        /// The value type `v128`.
        const SIMD = 128;
        /// Relaxed vector instructions.
        const RELAXED_SIMD = 256;
        /// Several memories.
        const MULTI_MEMORY = 512;
        /// Tags and exception references.
        const EXCEPTIONS = 1024;
        /// 64-bit memories and tables.
        const MEMORY64 = 2048;
        /// Tail calls.
        const TAIL_CALL = 4096;
        /// Non-nullable references.
        const FUNCTION_REFERENCES = 8192;
        /// Struct and array types, recursive groups, subtypes, and references to concrete types.
        const GC = 16384;
        /// Groups of imports with a common module name.
        const COMPACT_IMPORTS = 32768;
        /// Shared memories.
        const THREADS = 65536;
        /// Shared types, tables, globals and functions.
        const SHARED_EVERYTHING_THREADS = 131072;
        /// Memories with an explicit page size.
        const CUSTOM_PAGE_SIZES = 262144;
        /// Addition, subtraction and multiplication in constant expressions.
        const EXTENDED_CONST = 524288;
        /// 128-bit arithmetic.
        const WIDE_ARITHMETIC = 1048576;
        /// Atomic accesses with acquire and release ordering.
        const ACQUIRE_RELEASE_ATOMICS = 2097152;
        /// Accesses to several bytes of an array at once.
        const MULTIBYTE_ARRAY_ACCESS = 4194304;
        /// Exact references.
        const CUSTOM_DESCRIPTORS = 8388608;
    }
}

impl Flags for WasmFeatures {
    type Bits = u32;

    ghost exact = { ⊤ };

    ghost table = { feature_table };

    ghost set_of = { bits_of };

    fn flags<'a>() -> &'a [Flag<WasmFeatures>] {
        WasmFeatures::FLAGS
    }

    fn bits(&self) -> u32 {
        self.0
    }

    fn from_bits_retain(bits: u32) -> WasmFeatures {
        WasmFeatures(bits)
    }
}

impl WasmFeatures {
    /// Returns the set of all features.
    #[tactic(auto, unfolding(bitflags::proofs::OnLiterals::bitflags_on_literals))]
    pub fn every() -> WasmFeatures
        ensures { features_in result ≡ every_feature }
    {
        Flags::all()
    }

    /// Returns whether the set has every feature of `features`.
    pub fn contains(self, features: WasmFeatures) -> bool
        ensures { result ≡ has (bits_of self) (bits_of features) }
    {
        Flags::contains(&self, features)
    }

    /// Returns the set with `features` added if `wanted` is `true`.
    #[tactic(auto, unfolding(crate::specs::FeatureBits::joined))]
    pub fn with(self, wanted: bool, features: WasmFeatures) -> WasmFeatures
        ensures { bits_of result ≡ joined (bits_of self) wanted (bits_of features) }
    {
        if wanted { self.union(features) } else { self }
    }
}
