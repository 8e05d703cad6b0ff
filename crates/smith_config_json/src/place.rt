/// A field of type `usize`.
#[derive(Clone, Copy)]
pub(crate) enum Size {
    MinTypes,
    MaxTypes,
    MinImports,
    MaxImports,
    MinTags,
    MaxTags,
    MinFuncs,
    MaxFuncs,
    MinGlobals,
    MaxGlobals,
    MinExports,
    MaxExports,
    MinElementSegments,
    MaxElementSegments,
    MinElements,
    MaxElements,
    MinDataSegments,
    MaxDataSegments,
    MaxMemories,
    MaxTables,
    MaxInstructions,
    MaxAliases,
    MaxComponents,
    MaxInstances,
    MaxModules,
    MaxNestingDepth,
    MaxValues,
}

/// A field of type `u32`.
#[derive(Clone, Copy)]
pub(crate) enum Word {
    MinMemories,
    MinTables,
    MaxTypeSize,
    ConstExprFuel,
}

/// A field of type `u64`.
#[derive(Clone, Copy)]
pub(crate) enum Long {
    MaxMemory32Bytes,
    MaxTableElements,
}

/// A field of type `bool`.
#[derive(Clone, Copy)]
pub(crate) enum Flag {
    MemoryMaxSizeRequired,
    TableMaxSizeRequired,
    LimitArraysInConstExprs,
    AllowStartExport,
    ExportEverything,
    AllowFloats,
    DisallowTraps,
    AllowInvalidFuncs,
    ReferenceTypesEnabled,
    GcEnabled,
    CustomDescriptorsEnabled,
    MultiValueEnabled,
    BulkMemoryEnabled,
    SimdEnabled,
    ExceptionsEnabled,
    ThreadsEnabled,
    SharedEverythingThreadsEnabled,
    Memory64Enabled,
    CustomPageSizesEnabled,
    ExtendedConstEnabled,
    CompactImportsEnabled,
    RelaxedSimdEnabled,
    SaturatingFloatToIntEnabled,
    SignExtensionOpsEnabled,
    TailCallEnabled,
    WideArithmeticEnabled,
    AcquireReleaseAtomicsEnabled,
    MultibyteArrayAccessEnabled,
    NonNullableEnabled,
    CanonicalizeNans,
    GenerateCustomSections,
}

/// A field that is a whole number, or the fuel, which is not a field.
#[derive(Clone, Copy)]
pub(crate) enum Number {
    Size(Size),
    Word(Word),
    Long(Long),
    MinUlebSize,
    MaxMemory64Bytes,
    Fuel,
}

/// A field of a configuration, or a member that no field holds: the preset, or whether something is
/// added to a program.
#[derive(Clone, Copy)]
pub(crate) enum Place {
    Number(Number),
    Flag(Flag),
    AllowedInstructions,
    MemoryOffsetChoices,
    File,
    Preset,
    Addition,
}
