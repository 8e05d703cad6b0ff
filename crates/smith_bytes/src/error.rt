ghost use Rattle.std.specs.Prelude.{◌≡◌, ◌≤◌, length};
ghost use Rattle.smith_bytes.specs.declared.error.Error.TheVariants.{Memory};

use std::alloc::{AllocError, AllocFailed};
use thiserror::Error;

/// A count with a minimum and a maximum in the configuration. The check of a configuration follows
/// the order of the variants.
#[derive(Clone, Copy, Debug, PartialEq, Eq, Error)]
pub enum Count {
    /// Bounded by `min_types` and `max_types`.
    #[error("types")]
    Types,
    /// Bounded by `min_imports` and `max_imports`.
    #[error("imports")]
    Imports,
    /// Bounded by `min_tags` and `max_tags`.
    #[error("tags")]
    Tags,
    /// Bounded by `min_funcs` and `max_funcs`.
    #[error("functions")]
    Funcs,
    /// Bounded by `min_globals` and `max_globals`.
    #[error("globals")]
    Globals,
    /// Bounded by `min_exports` and `max_exports`.
    #[error("exports")]
    Exports,
    /// Bounded by `min_element_segments` and `max_element_segments`.
    #[error("element segments")]
    ElementSegments,
    /// Bounded by `min_elements` and `max_elements`.
    #[error("elements of a segment")]
    Elements,
    /// Bounded by `min_data_segments` and `max_data_segments`.
    #[error("data segments")]
    DataSegments,
    /// Bounded by `min_memories` and `max_memories`.
    #[error("memories")]
    Memories,
    /// Bounded by `min_tables` and `max_tables`.
    #[error("tables")]
    Tables,
}

/// The reason why the input cannot produce a module of the requested form.
#[derive(Clone, Copy, Debug, PartialEq, Eq, Error)]
pub enum Why {
    /// The count cannot reach its minimum.
    #[error("the minimum of {0} can't be met")]
    Unmet(Count),
    /// With `export_everything`, the exports would exceed `max_type_size`.
    #[error("the exports would pass the type size")]
    TypeSize,
    /// A shape needs a second memory, and `max_memories` is at most 1.
    #[error("a shape brings a second memory, and only one is enabled")]
    SeveralMemories,
    /// A shape needs a second table, and `reference_types_enabled` is off.
    #[error("a shape brings a second table, and only one is enabled")]
    SeveralTables,
    /// The closure of a loop returned `false` before the minimum number of calls.
    #[error("a loop ended below its minimum")]
    Loop,
    /// A body is raw bytes, which cannot be made to terminate.
    #[error("a body is raw bytes")]
    RawBody,
}

/// A fault of a configuration.
#[derive(Clone, Copy, Debug, PartialEq, Eq, Error)]
pub enum ConfigFault {
    /// The minimum of the count is above its maximum.
    #[error("the minimum of {0} is above the maximum")]
    MinAboveMax(Count),
    /// The maximum of the count is above `2^31`.
    #[error("the maximum of {0} is above 2^31")]
    MaxTooLarge(Count),
    /// `max_memory32_bytes` is above `2^32`.
    #[error("the bytes of a 32-bit memory are above 2^32")]
    Memory32Bytes,
    /// `max_memory64_bytes` is above `2^64`.
    #[error("the bytes of a 64-bit memory are above 2^64")]
    Memory64Bytes,
}

/// The use of a shape. Each variant is named after the field of the configuration that holds the
/// shape.
#[derive(Clone, Copy, Debug, PartialEq, Eq, Error)]
pub enum Which {
    /// Imports to choose from: `available_imports`.
    #[error("available imports")]
    AvailableImports,
    /// The exports of a module: `exports`.
    #[error("exports")]
    Exports,
    /// The first types of a module and all of its imports and exports: `module_shape`.
    #[error("module shape")]
    ModuleShape,
}

/// A fault of a shape. The check of a shape looks for faults in the order of the variants.
#[derive(Clone, Copy, Debug, PartialEq, Eq, Error)]
pub enum ShapeFault {
    /// A list has more than `2^29` items, or the groups have more than `2^29` types or imports in
    /// total.
    #[error("a list is too long")]
    TooLong,
    /// A type or a reference to a type is not valid, even with every feature enabled.
    #[error("a reference or supertype isn't valid")]
    BadType,
    /// A function, a tag or an export has an index that is out of range or refers to an item of
    /// another kind.
    #[error("an index is out of its space, or of the wrong kind")]
    Index,
    /// A memory type or the limits of a table are not valid, or a type is more than 62 supertypes
    /// deep.
    #[error("a limit isn't in range")]
    Limit,
    /// The shape needs a feature that the configuration disables.
    #[error("a feature isn't enabled")]
    Feature,
    /// Two exports have the same name.
    #[error("two exports have one name")]
    DuplicateExport,
    /// A shape for exports has a concrete reference, or a type that is not a final function type
    /// without a supertype.
    #[error("a type of an export isn't plain")]
    NotPlain,
    /// Something other than a memory is shared, or a reference is exact.
    #[error("a part that shapes leave out")]
    LeftOut,
}

/// The error of every fallible call.
#[derive(Clone, Copy, Debug, PartialEq, Eq, Error)]
pub enum Error {
    /// There were no items to choose from.
    #[error("nothing to choose from")]
    EmptyChoose,
    /// Fewer bytes remain than were requested.
    #[error("not enough bytes are left")]
    NotEnoughData,
    /// The input cannot produce a module of the requested form.
    #[error("incorrect format: {0}")]
    IncorrectFormat(Why),
    /// The sanitised configuration does not pass its check.
    #[error("configuration: {0}")]
    Config(ConfigFault),
    /// A shape does not pass its check.
    #[error("shape of {0}: {1}")]
    Shape(Which, ShapeFault),
    /// The allocator refused memory.
    #[error("out of memory")]
    Memory,
}

impl Error {
    ghost use Rattle.smith_bytes.specs.ErrorNames.{refusal_name};

    /// Returns the name of the variant without its fields, such as `Memory` or `Config`.
    ///
    /// # Examples
    ///
    /// ```rust
    /// assert_eq!(rt; Error::Memory.name(), "Memory");
    /// ```
    pub fn name(&self) -> &'static str
        ensures name { result.now ≡ refusal_name self.now }
        ensures short { length result.now ≤ 15 }
    {
        match self {
            Error::EmptyChoose => "EmptyChoose",
            Error::NotEnoughData => "NotEnoughData",
            Error::IncorrectFormat(_) => "IncorrectFormat",
            Error::Config(_) => "Config",
            Error::Shape(_, _) => "Shape",
            Error::Memory => "Memory",
        }
    }
}

impl From<AllocError> for Error {
    ghost from_gives = { λ _ e. e ≡ Memory };

    fn from(_refused: AllocError) -> Error {
        Error::Memory
    }
}

impl<T: Drop> From<AllocFailed<T>> for Error {
    ghost from_gives = { λ _ e. e ≡ Memory };

    fn from(_refused: AllocFailed<T>) -> Error {
        Error::Memory
    }
}
