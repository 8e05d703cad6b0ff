ghost use Rattle.std.specs.Prelude.{◌≡◌, ◌↔◌, ◌≤◌, ◌^◌, IsTrue, IsOk, IfErr};
ghost use Rattle.std.specs.List.{AllByRecursion as Each};
ghost use Rattle.smith_config.specs.Decided.{AreBoundsInOrder};
ghost use Rattle.smith_config.specs.Faults.{counts, minimum_of, maximum_of, BoundsApply, HasFault};
ghost use Rattle.smith_config.specs.Faults.{IsFirstFault, Passes};

use crate::Config;
use smith_bytes::{ConfigFault, Count};

/// All faults, in the order of the check.
const FAULTS: [ConfigFault; 24] = [
    ConfigFault::MinAboveMax(Count::Types),
    ConfigFault::MinAboveMax(Count::Imports),
    ConfigFault::MinAboveMax(Count::Tags),
    ConfigFault::MinAboveMax(Count::Funcs),
    ConfigFault::MinAboveMax(Count::Globals),
    ConfigFault::MinAboveMax(Count::Exports),
    ConfigFault::MinAboveMax(Count::ElementSegments),
    ConfigFault::MinAboveMax(Count::Elements),
    ConfigFault::MinAboveMax(Count::DataSegments),
    ConfigFault::MinAboveMax(Count::Memories),
    ConfigFault::MinAboveMax(Count::Tables),
    ConfigFault::MaxTooLarge(Count::Types),
    ConfigFault::MaxTooLarge(Count::Imports),
    ConfigFault::MaxTooLarge(Count::Tags),
    ConfigFault::MaxTooLarge(Count::Funcs),
    ConfigFault::MaxTooLarge(Count::Globals),
    ConfigFault::MaxTooLarge(Count::Exports),
    ConfigFault::MaxTooLarge(Count::ElementSegments),
    ConfigFault::MaxTooLarge(Count::Elements),
    ConfigFault::MaxTooLarge(Count::DataSegments),
    ConfigFault::MaxTooLarge(Count::Memories),
    ConfigFault::MaxTooLarge(Count::Tables),
    ConfigFault::Memory32Bytes,
    ConfigFault::Memory64Bytes,
];

/// The largest permitted maximum of a count.
const MOST: usize = 1 << 31;

/// The number of bytes addressable with 32 bits.
const MEMORY32_BYTES: u64 = 1 << 32;

/// The number of bytes addressable with 64 bits.
const MEMORY64_BYTES: u128 = 1 << 64;

impl Config {
    /// Checks that every field is in range and that no minimum exceeds its maximum.
    ///
    /// Pairs of a minimum and a maximum are checked first, then maximums, each in the order of
    /// [`Count`], then the bytes of memories. The pair of imports is skipped if a shape fixes the
    /// imports. The pair of exports is skipped if a shape fixes the exports or everything is
    /// exported.
    ///
    /// # Errors
    ///
    /// Returns the first fault in this order.
    pub fn check(&self) -> Result<(), ConfigFault>
        ensures passes { IsOk result ↔ Passes self.now }
        ensures fault { IfErr result (λ fault. IsFirstFault self.now fault) }
    {
        if self.passes() {
            return Ok(());
        }
        for fault in FAULTS {
            if self.has_fault(fault) {
                return Err(fault);
            }
        }
        Ok(())
    }

    /// Returns whether the configuration has no fault.
    fn passes(&self) -> bool
        ensures { IsTrue result ↔ Passes self.now }
    {
        self.are_ordered() && self.are_few()
    }

    /// Returns whether no minimum that is in effect exceeds its maximum.
    fn are_ordered(&self) -> bool
        ensures { IsTrue result ↔ Each (AreBoundsInOrder self.now) counts }
    {
        self.is_ordered(Count::Types)
            && self.is_ordered(Count::Imports)
            && self.is_ordered(Count::Tags)
            && self.is_ordered(Count::Funcs)
            && self.is_ordered(Count::Globals)
            && self.is_ordered(Count::Exports)
            && self.is_ordered(Count::ElementSegments)
            && self.is_ordered(Count::Elements)
            && self.is_ordered(Count::DataSegments)
            && self.is_ordered(Count::Memories)
            && self.is_ordered(Count::Tables)
    }

    /// Returns whether the minimum of `count` is at most the maximum, or not in effect.
    #[tactic(auto, using(crate::proofs::FaultLemmas::in_order, crate::proofs::FaultLemmas::kept_in_order))]
    fn is_ordered(&self, count: Count) -> bool
        ensures { IsTrue result ↔ AreBoundsInOrder self.now count }
    {
        !self.is_bounded(count) || self.minimum(count) <= self.maximum(count)
    }

    /// Returns whether no maximum is too large.
    fn are_few(&self) -> bool
        ensures { IsTrue result ↔ Each (λ count. maximum_of self.now count ≤ 2 ^ 31) counts
            × ((self.now.max_memory32_bytes ≤ 2 ^ 32) × (self.now.max_memory64_bytes ≤ 2 ^ 64)) }
    {
        self.max_types <= MOST
            && self.max_imports <= MOST
            && self.max_tags <= MOST
            && self.max_funcs <= MOST
            && self.max_globals <= MOST
            && self.max_exports <= MOST
            && self.max_element_segments <= MOST
            && self.max_elements <= MOST
            && self.max_data_segments <= MOST
            && self.max_memories <= MOST
            && self.max_tables <= MOST
            && self.max_memory32_bytes <= MEMORY32_BYTES
            && self.max_memory64_bytes <= MEMORY64_BYTES
    }

    fn has_fault(&self, fault: ConfigFault) -> bool
        ensures { IsTrue result ↔ HasFault self.now fault }
    {
        match fault {
            ConfigFault::MinAboveMax(count) => {
                self.is_bounded(count) && self.minimum(count) > self.maximum(count)
            }
            ConfigFault::MaxTooLarge(count) => self.maximum(count) > MOST,
            ConfigFault::Memory32Bytes => self.max_memory32_bytes > MEMORY32_BYTES,
            ConfigFault::Memory64Bytes => self.max_memory64_bytes > MEMORY64_BYTES,
        }
    }

    fn is_bounded(&self, count: Count) -> bool
        ensures { IsTrue result ↔ BoundsApply self.now count }
    {
        match count {
            Count::Imports => self.available_imports.is_none() && self.module_shape.is_none(),
            Count::Exports => {
                !self.export_everything && self.exports.is_none() && self.module_shape.is_none()
            }
            _ => true,
        }
    }

    fn minimum(&self, count: Count) -> usize
        ensures { result ≡ minimum_of self.now count }
    {
        match count {
            Count::Types => self.min_types,
            Count::Imports => self.min_imports,
            Count::Tags => self.min_tags,
            Count::Funcs => self.min_funcs,
            Count::Globals => self.min_globals,
            Count::Exports => self.min_exports,
            Count::ElementSegments => self.min_element_segments,
            Count::Elements => self.min_elements,
            Count::DataSegments => self.min_data_segments,
            Count::Memories => self.min_memories as usize,
            Count::Tables => self.min_tables as usize,
        }
    }

    fn maximum(&self, count: Count) -> usize
        ensures { result ≡ maximum_of self.now count }
    {
        match count {
            Count::Types => self.max_types,
            Count::Imports => self.max_imports,
            Count::Tags => self.max_tags,
            Count::Funcs => self.max_funcs,
            Count::Globals => self.max_globals,
            Count::Exports => self.max_exports,
            Count::ElementSegments => self.max_element_segments,
            Count::Elements => self.max_elements,
            Count::DataSegments => self.max_data_segments,
            Count::Memories => self.max_memories,
            Count::Tables => self.max_tables,
        }
    }
}
