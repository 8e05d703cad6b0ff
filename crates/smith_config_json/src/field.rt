ghost use Rattle.std.specs.Prelude.{◌≡◌, option_map};
ghost use Rattle.smith_config_json.specs.Fields.{AreOfKind, HasKind, named, field_named};
ghost use Rattle.smith_config_json.specs.Places.{field_of, fields_in};

use crate::place::{Flag, Long, Number, Place, Size, Word};
use std::fmt;

/// The kind of value that a field takes. Each field also takes `null`, which leaves it unchanged.
#[derive(Clone, Copy, Debug, PartialEq, Eq)]
pub enum FieldKind {
    /// A whole number below 2 to the power of this number, written in digits alone.
    Whole(u32),
    /// `true` or `false`.
    Flag,
    /// A set of kinds of instructions: a list of their names, a string of the names with commas
    /// between them, or the bits of the set as a number below `2^12`.
    InstructionKinds,
    /// A list of three whole numbers below `2^32`, at least one of them above zero.
    OffsetChoices,
    /// The path of a file in the Rust crate. No file is read, so only `null` is accepted.
    File,
    /// The name of a preset.
    Preset,
}

impl fmt::Display for FieldKind {
    fn fmt<W: fmt::Write>(&self, f: &mut fmt::Formatter<W>) -> fmt::Result {
        let text = match self {
            FieldKind::Whole(bits) => return write!(f, "a whole number below 2^{bits}"),
            FieldKind::Flag => "true or false",
            FieldKind::InstructionKinds => {
                "names of kinds of instructions in a list or separated by commas, or a whole number below 2^12"
            }
            FieldKind::OffsetChoices =>
                "a list of three whole numbers below 2^32, one of them above zero",
            FieldKind::File => "only null, since no file is read",
            FieldKind::Preset => {
                "one of run, mvp, 2.0, 3.0, proposals, wabt, binaryen, v8, spidermonkey and jsc"
            }
        };
        f.write_str(text)
    }
}

/// Makes an array of the fields, in the order of `Config`: the result of the macro `$row` for the
/// name, the place and the description of each field, and then the items `$more`.
#[macro_export]
macro_rules! fields {
    ($row:ident $(, $more:expr)*) => {
        [
            $row!("min-types", Size(MinTypes), "The minimum number of types. The default is 0."),
            $row!("max-types", Size(MaxTypes), "The maximum number of types. The default is 100."),
            $row!("min-imports", Size(MinImports),
                "The minimum number of imports, including each item of a compact group. The default is 0."),
            $row!("max-imports", Size(MaxImports),
                "The maximum number of imports, including each item of a compact group. The default is 100."),
            $row!("min-tags", Size(MinTags), "The minimum number of tags. The default is 0."),
            $row!("max-tags", Size(MaxTags), "The maximum number of tags. The default is 100."),
            $row!("min-funcs", Size(MinFuncs), "The minimum number of functions. The default is 0."),
            $row!("max-funcs", Size(MaxFuncs), "The maximum number of functions. The default is 100."),
            $row!("min-globals", Size(MinGlobals), "The minimum number of globals. The default is 0."),
            $row!("max-globals", Size(MaxGlobals), "The maximum number of globals. The default is 100."),
            $row!("min-exports", Size(MinExports), "The minimum number of exports. The default is 0."),
            $row!("max-exports", Size(MaxExports), "The maximum number of exports. The default is 100."),
            $row!("min-element-segments", Size(MinElementSegments), "The minimum number of element segments. The default is 0."),
            $row!("max-element-segments", Size(MaxElementSegments), "The maximum number of element segments. The default is 100."),
            $row!("min-elements", Size(MinElements), "The minimum number of items in each element segment. The default is 0."),
            $row!("max-elements", Size(MaxElements), "The maximum number of items in all element segments together. The default is 100."),
            $row!("min-data-segments", Size(MinDataSegments), "The minimum number of data segments. The default is 0."),
            $row!("max-data-segments", Size(MaxDataSegments), "The maximum number of data segments. The default is 100."),
            $row!("min-memories", Word(MinMemories), "The minimum number of memories. The default is 0."),
            $row!("max-memories", Size(MaxMemories), "The maximum number of memories. The default is 1."),
            $row!("min-tables", Word(MinTables), "The minimum number of tables. The default is 0."),
            $row!("max-tables", Size(MaxTables), "The maximum number of tables. The default is 1."),
            $row!("max-memory32-bytes", Long(MaxMemory32Bytes),
                "The upper bound for the minimum and the maximum of a 32-bit memory, in bytes. The default is 2^32."),
            $row!("max-memory64-bytes", MaxMemory64Bytes,
                "The upper bound for the minimum and the maximum of a 64-bit memory, in bytes. The default is 2^64."),
            $row!("memory-max-size-required", Flag(MemoryMaxSizeRequired), "Whether each memory has a maximum. The default is false."),
            $row!("max-table-elements", Long(MaxTableElements),
                "The upper bound for the minimum and the maximum of a table, in elements. The default is 1000000."),
            $row!("table-max-size-required", Flag(TableMaxSizeRequired), "Whether each table has a maximum. The default is false."),
            $row!("max-type-size", Word(MaxTypeSize),
                "The maximum type size of a module: the sum of the sizes of its imports and exports. The default is 1000."),
            $row!("const-expr-fuel", Word(ConstExprFuel),
                "The number of instructions with operands that a constant expression may draw before it is completed by the shortest means. The default is 50."),
            $row!("limit-arrays-in-const-exprs", Flag(LimitArraysInConstExprs),
                "Whether the length of an array in a constant expression is a small number, paid for with `const-expr-fuel`, instead of any i32 expression. The default is false."),
            $row!("allow-start-export", Flag(AllowStartExport), "Whether a module may have a start function. The default is true."),
            $row!("export-everything", Flag(ExportEverything),
                "Whether each function, table, memory, global and tag is exported exactly once. The default is false."),
            $row!("allow-floats", Flag(AllowFloats),
                "Whether f32 and f64 may occur in types and constants, and instructions on floats in bodies. The default is true."),
            $row!("disallow-traps", Flag(DisallowTraps),
                "Whether active segments lie within their tables and memories, so that they never trap, and no instruction of a generated body traps except `unreachable`, which is then used only as the whole body if `max-instructions` is 0, in the checks of fuel, or for a value that no other permitted instructions produce without a budget. The default is false."),
            $row!("allow-invalid-funcs", Flag(AllowInvalidFuncs),
                "Whether a body may be raw bytes of the input, which need not be valid. The default is false."),
            $row!("reference-types-enabled", Flag(ReferenceTypesEnabled),
                "References as value types, tables of other types than `funcref`, element expressions, and a second table. The default is true."),
            $row!("gc-enabled", Flag(GcEnabled),
                "Struct and array types, recursive groups, subtypes, and typed references. The default is true."),
            $row!("custom-descriptors-enabled", Flag(CustomDescriptorsEnabled), "Exact references. The default is false."),
            $row!("multi-value-enabled", Flag(MultiValueEnabled), "Functions with several results. The default is true."),
            $row!("bulk-memory-enabled", Flag(BulkMemoryEnabled),
                "Passive and declared segments, segments with an explicit table, and instructions that fill, copy and initialise memories and tables. The default is true."),
            $row!("simd-enabled", Flag(SimdEnabled), "The value type v128, and vector instructions in bodies. The default is true."),
            $row!("exceptions-enabled", Flag(ExceptionsEnabled), "Tags, exception references, and `throw`, `throw_ref` and `try_table` in bodies. The default is true."),
            $row!("threads-enabled", Flag(ThreadsEnabled), "Shared memories, and atomic accesses in bodies. The default is true."),
            $row!("shared-everything-threads-enabled", Flag(SharedEverythingThreadsEnabled),
                "Shared types, tables, globals and functions. The default is false."),
            $row!("memory64-enabled", Flag(Memory64Enabled), "64-bit memories and tables. The default is true."),
            $row!("custom-page-sizes-enabled", Flag(CustomPageSizesEnabled),
                "Memories with an explicit page size of 1 or 65,536 bytes. The default is false."),
            $row!("extended-const-enabled", Flag(ExtendedConstEnabled),
                "Addition, subtraction and multiplication in constant expressions. The default is true."),
            $row!("compact-imports-enabled", Flag(CompactImportsEnabled),
                "Groups of imports with a common module name, or a common module name and type. The default is true."),
            $row!("relaxed-simd-enabled", Flag(RelaxedSimdEnabled), "Relaxed vector instructions. The default is true."),
            $row!("saturating-float-to-int-enabled", Flag(SaturatingFloatToIntEnabled),
                "Saturating conversions from floats to integers. The default is true."),
            $row!("sign-extension-ops-enabled", Flag(SignExtensionOpsEnabled), "Sign-extension instructions. The default is true."),
            $row!("tail-call-enabled", Flag(TailCallEnabled), "Tail calls. The default is true."),
            $row!("wide-arithmetic-enabled", Flag(WideArithmeticEnabled), "128-bit arithmetic. The default is true."),
            $row!("acquire-release-atomics-enabled", Flag(AcquireReleaseAtomicsEnabled),
                "Atomic accesses with acquire and release ordering. The default is false."),
            $row!("multibyte-array-access-enabled", Flag(MultibyteArrayAccessEnabled),
                "Accesses to several bytes of an array at once. The default is false."),
            $row!("non-nullable-enabled", Flag(NonNullableEnabled),
                "Non-nullable references, to heap types for which an existing struct type or function provides one without operands. The default is false."),
            $row!("allowed-instructions", AllowedInstructions,
                "The kinds of instructions that bodies of a program may have, separated by commas, without those on floats if `allow-floats` is false: numeric_non_float, numeric, vector_non_float, vector, reference, parametric, variable, table, memory_non_float, memory, control, aggregate. The default is all."),
            $row!("memory-offset-choices", MemoryOffsetChoices,
                "The weights for the position of the offset of a memory access. The default is 90,9,1."),
            $row!("max-instructions", Size(MaxInstructions),
                "The maximum number of statements and values to choose for a body of a program, besides leaves, such as constants and locals. The default is 100."),
            $row!("canonicalize-nans", Flag(CanonicalizeNans), "Whether NaN results are made canonical. The default is false."),
            $row!("generate-custom-sections", Flag(GenerateCustomSections), "Whether custom sections are generated. The default is false."),
            $row!("min-uleb-size", MinUlebSize, "The minimum length of an encoded unsigned integer, in bytes. The default is 1."),
            $row!("max-aliases", Size(MaxAliases), "The maximum number of aliases of a component. The default is 1000."),
            $row!("max-components", Size(MaxComponents), "The maximum number of components of a component. The default is 10."),
            $row!("max-instances", Size(MaxInstances), "The maximum number of instances of a component. The default is 10."),
            $row!("max-modules", Size(MaxModules), "The maximum number of modules of a component. The default is 10."),
            $row!("max-nesting-depth", Size(MaxNestingDepth), "The maximum nesting depth of components. The default is 10."),
            $row!("max-values", Size(MaxValues), "The maximum number of values of a component. The default is 10."),
            $row!("available-imports", File, "The imports to choose from, instead of drawn imports."),
            $row!("exports", File, "The exports of a module, instead of drawn exports."),
            $row!("module-shape", File, "The first types of a module and all of its imports and exports, in order."),
            $($more,)*
        ]
    };
}

/// The row of a field for its place.
macro_rules! place {
    ($name:literal, Flag($flag:ident), $about:literal) => {
        ($name, Place::Flag(Flag::$flag))
    };
    ($name:literal, $number:ident($part:ident), $about:literal) => {
        ($name, Place::Number(Number::$number($number::$part)))
    };
    ($name:literal, MinUlebSize, $about:literal) => {
        ($name, Place::Number(Number::MinUlebSize))
    };
    ($name:literal, MaxMemory64Bytes, $about:literal) => {
        ($name, Place::Number(Number::MaxMemory64Bytes))
    };
    ($name:literal, $place:ident, $about:literal) => {
        ($name, Place::$place)
    };
}

/// The name and the place of every field, in the order of `Config`, and of the four members that
/// are no fields.
static PLACES: [(&str, Place); 75] = fields!(
    place,
    ("preset", Place::Preset),
    ("fuel", Place::Number(Number::Fuel)),
    ("fuel-export", Place::Addition),
    ("observe", Place::Addition)
);

/// Finds the place of the field named `name`.
#[tactic(auto, unfolding(crate::specs::Fields::fields))]
pub(crate) fn place_named(name: &str) -> Option<Place>
    ensures { option_map field_of result ≡ field_named name.now }
{
    find_place(&PLACES, name)
}

/// Finds the first item with the name `name`.
fn find_place(table: &[(&str, Place)], name: &str) -> Option<Place>
    ensures { option_map field_of result ≡ named name.now (fields_in table.now) }
{
    for (other, place) in table {
        if name == *other {
            return Some(*place);
        }
    }
    None
}

/// Finds the kind of the values of the field named `name`.
pub fn kind_of(name: &str) -> Option<FieldKind>
    ensures { AreOfKind (field_named name.now) result }
{
    let place = place_named(name)?;
    Some(kind_at(place))
}

/// Returns the kind of the values at a place.
fn kind_at(place: Place) -> FieldKind
    ensures { HasKind (field_of place) result }
{
    match place {
        Place::Number(Number::Size(_) | Number::Long(_)) => FieldKind::Whole(64),
        Place::Number(Number::Word(_) | Number::Fuel) => FieldKind::Whole(32),
        Place::Number(Number::MinUlebSize) => FieldKind::Whole(8),
        Place::Number(Number::MaxMemory64Bytes) => FieldKind::Whole(128),
        Place::Flag(_) | Place::Addition => FieldKind::Flag,
        Place::AllowedInstructions => FieldKind::InstructionKinds,
        Place::MemoryOffsetChoices => FieldKind::OffsetChoices,
        Place::File => FieldKind::File,
        Place::Preset => FieldKind::Preset,
    }
}
