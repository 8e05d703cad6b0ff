ghost use Rattle.std.specs.Prelude.{◌≡◌};
ghost use Rattle.smith_wrong_bytes.specs.Families.{family_name};

/// A family of changes of the bytes of a file: which production is changed, and how. The sizes of the
/// contents that a change is in are kept right, except by the families that are about sizes. Its
/// discriminant is its number among all families, which later versions keep.
#[derive(Clone, Copy, Debug, PartialEq, Eq)]
pub enum BytesFamily {
    /// An integer has more bytes than its type allows (Integers).
    LongInteger = 36,
    /// Unused bits of the last byte of an integer are set, or differ from its sign (Integers).
    UnusedBits = 37,
    /// The size of a section is one more or one less (Sections).
    SectionSize = 38,
    /// The size of a body is one more or one less (Code Section).
    BodySize = 39,
    /// The number of items of a list is one more or one less (Lists).
    ListCount = 40,
    /// The number of functions is not that of bodies (Modules).
    FunctionCount = 41,
    /// The number of data segments is not the stated one (Modules).
    DataCount = 42,
    /// The number of data segments is not stated, though a body may name one (Modules).
    DataCountMissing = 55,
    /// Two sections are exchanged, or one has the identifier of the one before it (Modules).
    SectionOrder = 43,
    /// A section occurs twice (Modules).
    SectionTwice = 44,
    /// A section has an identifier that no section has (Sections).
    UnknownSection = 45,
    /// A byte is left over at the end of a section or a body (Sections, Code Section).
    LeftOverByte = 46,
    /// A name is not UTF-8 (Names).
    NotUtf8 = 47,
    /// A byte that chooses among forms is another, or an integer of two bytes: flags of limits, the form of
    /// a segment, mutability, the kind of an import or an export (Limits, Element Section, Data Section).
    UnknownFlag = 48,
    /// A type begins with a byte with which none begins, or with its byte as an integer of two (Types).
    UnknownType = 49,
    /// An opcode is one that no instruction has (Instructions).
    UnknownOpcode = 50,
    /// The `end` of an expression is missing (Expressions).
    MissingEnd = 51,
    /// The `end` of an expression occurs twice (Expressions).
    SecondEnd = 52,
    /// A byte of the magic number or of the version is another (Modules).
    Preamble = 53,
    /// The file ends within a section, or within the magic number or the version (Modules).
    CutFile = 54,
}

impl BytesFamily {
    /// Every family, in order.
    pub const ALL: [BytesFamily; 20] = [
        BytesFamily::LongInteger,
        BytesFamily::UnusedBits,
        BytesFamily::SectionSize,
        BytesFamily::BodySize,
        BytesFamily::ListCount,
        BytesFamily::FunctionCount,
        BytesFamily::DataCount,
        BytesFamily::DataCountMissing,
        BytesFamily::SectionOrder,
        BytesFamily::SectionTwice,
        BytesFamily::UnknownSection,
        BytesFamily::LeftOverByte,
        BytesFamily::NotUtf8,
        BytesFamily::UnknownFlag,
        BytesFamily::UnknownType,
        BytesFamily::UnknownOpcode,
        BytesFamily::MissingEnd,
        BytesFamily::SecondEnd,
        BytesFamily::Preamble,
        BytesFamily::CutFile,
    ];

    /// Returns the name of the family, in kebab case.
    pub fn name(self) -> &'static str
        ensures { result.now ≡ family_name self }
    {
        match self {
            BytesFamily::LongInteger => "long-integer",
            BytesFamily::UnusedBits => "unused-bits",
            BytesFamily::SectionSize => "section-size",
            BytesFamily::BodySize => "body-size",
            BytesFamily::ListCount => "list-count",
            BytesFamily::FunctionCount => "function-count",
            BytesFamily::DataCount => "data-count",
            BytesFamily::DataCountMissing => "data-count-missing",
            BytesFamily::SectionOrder => "section-order",
            BytesFamily::SectionTwice => "section-twice",
            BytesFamily::UnknownSection => "unknown-section",
            BytesFamily::LeftOverByte => "left-over-byte",
            BytesFamily::NotUtf8 => "not-utf8",
            BytesFamily::UnknownFlag => "unknown-flag",
            BytesFamily::UnknownType => "unknown-type",
            BytesFamily::UnknownOpcode => "unknown-opcode",
            BytesFamily::MissingEnd => "missing-end",
            BytesFamily::SecondEnd => "second-end",
            BytesFamily::Preamble => "preamble",
            BytesFamily::CutFile => "cut-file",
        }
    }
}
