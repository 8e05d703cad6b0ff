use smith_bytes::{ConfigFault, Count, Error, ShapeFault, Which, Why};
use smith_config::OffsetChoicesFault;
use smith_types::UnknownKind;
use std::alloc::Global;
use std::fmt;
use std::test::Fail;

// Each error, and each of its contents, at least once.
#[rattlefmt::skip]
static TEXTS: [(Error, &str); 29] = [
    (Error::EmptyChoose, "nothing to choose from"),
    (Error::NotEnoughData, "not enough bytes are left"),
    (Error::Memory, "out of memory"),
    (Error::IncorrectFormat(Why::Unmet(Count::Types)), "incorrect format: the minimum of types can't be met"),
    (Error::IncorrectFormat(Why::Unmet(Count::Imports)), "incorrect format: the minimum of imports can't be met"),
    (Error::IncorrectFormat(Why::Unmet(Count::Tags)), "incorrect format: the minimum of tags can't be met"),
    (Error::IncorrectFormat(Why::Unmet(Count::Globals)), "incorrect format: the minimum of globals can't be met"),
    (Error::IncorrectFormat(Why::Unmet(Count::Exports)), "incorrect format: the minimum of exports can't be met"),
    (Error::IncorrectFormat(Why::Unmet(Count::ElementSegments)), "incorrect format: the minimum of element segments can't be met"),
    (Error::IncorrectFormat(Why::Unmet(Count::DataSegments)), "incorrect format: the minimum of data segments can't be met"),
    (Error::IncorrectFormat(Why::TypeSize), "incorrect format: the exports would pass the type size"),
    (Error::IncorrectFormat(Why::SeveralMemories), "incorrect format: a shape brings a second memory, and only one is enabled"),
    (Error::IncorrectFormat(Why::SeveralTables), "incorrect format: a shape brings a second table, and only one is enabled"),
    (Error::IncorrectFormat(Why::Loop), "incorrect format: a loop ended below its minimum"),
    (Error::IncorrectFormat(Why::RawBody), "incorrect format: a body is raw bytes"),
    (Error::Config(ConfigFault::MinAboveMax(Count::Funcs)), "configuration: the minimum of functions is above the maximum"),
    (Error::Config(ConfigFault::MinAboveMax(Count::Elements)), "configuration: the minimum of elements of a segment is above the maximum"),
    (Error::Config(ConfigFault::MaxTooLarge(Count::Memories)), "configuration: the maximum of memories is above 2^31"),
    (Error::Config(ConfigFault::MaxTooLarge(Count::Tables)), "configuration: the maximum of tables is above 2^31"),
    (Error::Config(ConfigFault::Memory32Bytes), "configuration: the bytes of a 32-bit memory are above 2^32"),
    (Error::Config(ConfigFault::Memory64Bytes), "configuration: the bytes of a 64-bit memory are above 2^64"),
    (Error::Shape(Which::AvailableImports, ShapeFault::TooLong), "shape of available imports: a list is too long"),
    (Error::Shape(Which::ModuleShape, ShapeFault::BadType), "shape of module shape: a reference or supertype isn't valid"),
    (Error::Shape(Which::ModuleShape, ShapeFault::Index), "shape of module shape: an index is out of its space, or of the wrong kind"),
    (Error::Shape(Which::AvailableImports, ShapeFault::Limit), "shape of available imports: a limit isn't in range"),
    (Error::Shape(Which::Exports, ShapeFault::Feature), "shape of exports: a feature isn't enabled"),
    (Error::Shape(Which::Exports, ShapeFault::DuplicateExport), "shape of exports: two exports have one name"),
    (Error::Shape(Which::Exports, ShapeFault::NotPlain), "shape of exports: a type of an export isn't plain"),
    (Error::Shape(Which::ModuleShape, ShapeFault::LeftOut), "shape of module shape: a part that shapes leave out"),
];

// Fails unless `value` is written as `wanted`.
fn is_written<T: fmt::Display>(alloc: Global, value: &T, wanted: &str) -> Result<(), Fail> {
    let text = value.to_string(alloc)?;
    if text.as_str() == wanted {
        Ok(())
    } else {
        Err(Fail::new(format_args!("{text} in place of {wanted}")))
    }
}

// Fails unless each value is written as the text after it.
fn are_written<T: fmt::Display>(alloc: Global, cases: &[(T, &str)]) -> Result<(), Fail> {
    for (value, wanted) in cases {
        is_written(alloc, value, wanted)?;
    }
    Ok(())
}

#[test]
fn texts_of_errors(rt: HostRuntime) -> Result<(), Fail> {
    are_written(rt.alloc(), &TEXTS)
}

#[rattlefmt::skip]
static OFFSET_FAULTS: [(OffsetChoicesFault, &str); 4] = [
    (OffsetChoicesFault::NeedThree, "need three numbers between commas"),
    (OffsetChoicesFault::Number(2), "part 2 isn't a number of 32 bits"),
    (OffsetChoicesFault::TooMany, "more than three parts"),
    (OffsetChoicesFault::AllZero, "one of the three must be above zero"),
];

#[test]
fn texts_of_offset_faults(rt: HostRuntime) -> Result<(), Fail> {
    are_written(rt.alloc(), &OFFSET_FAULTS)
}

#[test]
fn the_text_of_an_unknown_kind(rt: HostRuntime) -> Result<(), Fail> {
    is_written(
        rt.alloc(),
        &UnknownKind { part: 0 },
        "part 0 names no kind of instructions",
    )
}
