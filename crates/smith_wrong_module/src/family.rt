use std::fmt;

/// A family of changes of a module: the rule that a change is meant to break.
/// Its discriminant is its number among all families, which later versions keep.
#[derive(Clone, Copy, Debug, PartialEq, Eq)]
pub enum ModuleFamily {
    /// A constant, a `local.get` or a numeric instruction of another value type (Instructions).
    OperandType = 1,
    /// An instruction left out, so that a later one misses an operand, or has one too many (Instructions).
    MissingOperand = 2,
    /// A constant that nothing takes (Instructions).
    ExtraOperand = 3,
    /// Another type of a block (Blocks).
    BlockType = 4,
    /// A constant before the last `end` of a body (Functions).
    FunctionResult = 5,
    /// An index past the end of its index space, in a body (Indices).
    IndexPastEnd = 6,
    /// The index of another entity or type, in a body (Indices).
    OtherEntity = 7,
    /// Another heap type of a null reference, a test or a cast, or another nullability (Reference
    /// Instructions).
    ReferenceType = 8,
    /// Another label of a branch or a clause of `try_table` (Control Instructions).
    Label = 9,
    /// A test or a cast to a type of another hierarchy (Heap Types).
    CastHierarchy = 10,
    /// A tail call in place of a call, of another type than the function, or of a function with other results
    /// (Control Instructions).
    TailCall = 11,
    /// An instruction after one that leaves, where it is typed too (Control Instructions).
    DeadCode = 12,
    /// A local without a default value that isn't set before it is read (Variable Instructions).
    UnsetLocal = 13,
    /// A `global.set` of an immutable global (Variable Instructions).
    ImmutableGlobal = 14,
    /// A write to an immutable field or array (Aggregate Instructions).
    ImmutableField = 15,
    /// An extension of a field that isn't packed, or none of one that is (Aggregate Instructions).
    PackedField = 16,
    /// A `ref.func` of a function that nothing outside bodies refers to (Reference Instructions).
    UndeclaredFunction = 17,
    /// An alignment above the natural one, or other than it for an atomic access (Memory Instructions).
    Alignment = 18,
    /// An offset past the addresses of a 32-bit memory (Memory Instructions).
    Offset = 19,
    /// A lane past the last one (Vector Instructions).
    Lane = 20,
    /// A supertype that a type doesn't match, or that is declared later (Types).
    Supertype = 21,
    /// A type that is final and has subtypes (Types).
    FinalType = 22,
    /// A reference to a type after the recursive group (Types).
    ForwardReference = 23,
    /// A minimum of a table or a memory above its maximum (Limits).
    Limits = 24,
    /// A second export of a name (Modules).
    DuplicateExport = 25,
    /// An export of an entity past the end of its index space (Exports).
    ExportIndex = 26,
    /// A start function with parameters or results, or that doesn't exist (Start Function).
    StartFunction = 27,
    /// A constant expression of another type (Constant Expressions).
    ConstantType = 28,
    /// An instruction in a constant expression that isn't constant (Constant Expressions).
    NonConstant = 29,
    /// A mutable or a later global in a constant expression (Constant Expressions).
    LaterGlobal = 30,
    /// Another type of a function, or a type that doesn't exist (Functions).
    FunctionType = 31,
    /// A type of a tag that has results, is none of functions, or doesn't exist (Tags).
    TagType = 32,
    /// A type of an imported entity, or of the entities of a group, that isn't valid (Imports).
    ImportType = 33,
    /// An element segment of another type, for another table or of a function that doesn't exist (Element
    /// Segments).
    ElementSegment = 34,
    /// A data segment for a memory that doesn't exist (Data Segments).
    DataSegment = 35,
}

impl ModuleFamily {
    /// All families: first those of changes in bodies, and common rules before rare ones.
    pub const ALL: [ModuleFamily; 35] = [
        ModuleFamily::OperandType,
        ModuleFamily::MissingOperand,
        ModuleFamily::ExtraOperand,
        ModuleFamily::BlockType,
        ModuleFamily::FunctionResult,
        ModuleFamily::IndexPastEnd,
        ModuleFamily::OtherEntity,
        ModuleFamily::ReferenceType,
        ModuleFamily::Label,
        ModuleFamily::CastHierarchy,
        ModuleFamily::TailCall,
        ModuleFamily::DeadCode,
        ModuleFamily::UnsetLocal,
        ModuleFamily::ImmutableGlobal,
        ModuleFamily::ImmutableField,
        ModuleFamily::PackedField,
        ModuleFamily::UndeclaredFunction,
        ModuleFamily::Alignment,
        ModuleFamily::Offset,
        ModuleFamily::Lane,
        ModuleFamily::Supertype,
        ModuleFamily::FinalType,
        ModuleFamily::ForwardReference,
        ModuleFamily::Limits,
        ModuleFamily::DuplicateExport,
        ModuleFamily::ExportIndex,
        ModuleFamily::StartFunction,
        ModuleFamily::ConstantType,
        ModuleFamily::NonConstant,
        ModuleFamily::LaterGlobal,
        ModuleFamily::FunctionType,
        ModuleFamily::TagType,
        ModuleFamily::ImportType,
        ModuleFamily::ElementSegment,
        ModuleFamily::DataSegment,
    ];

    /// Returns the name of the family: words with `-` between them, for a command line.
    pub fn name(self) -> &'static str {
        match self {
            ModuleFamily::OperandType => "operand-type",
            ModuleFamily::MissingOperand => "missing-operand",
            ModuleFamily::ExtraOperand => "extra-operand",
            ModuleFamily::BlockType => "block-type",
            ModuleFamily::FunctionResult => "function-result",
            ModuleFamily::IndexPastEnd => "index-past-end",
            ModuleFamily::OtherEntity => "other-entity",
            ModuleFamily::ReferenceType => "reference-type",
            ModuleFamily::Label => "label",
            ModuleFamily::CastHierarchy => "cast-hierarchy",
            ModuleFamily::TailCall => "tail-call",
            ModuleFamily::DeadCode => "dead-code",
            ModuleFamily::UnsetLocal => "unset-local",
            ModuleFamily::ImmutableGlobal => "immutable-global",
            ModuleFamily::ImmutableField => "immutable-field",
            ModuleFamily::PackedField => "packed-field",
            ModuleFamily::UndeclaredFunction => "undeclared-function",
            ModuleFamily::Alignment => "alignment",
            ModuleFamily::Offset => "offset",
            ModuleFamily::Lane => "lane",
            ModuleFamily::Supertype => "supertype",
            ModuleFamily::FinalType => "final-type",
            ModuleFamily::ForwardReference => "forward-reference",
            ModuleFamily::Limits => "limits",
            ModuleFamily::DuplicateExport => "duplicate-export",
            ModuleFamily::ExportIndex => "export-index",
            ModuleFamily::StartFunction => "start-function",
            ModuleFamily::ConstantType => "constant-type",
            ModuleFamily::NonConstant => "non-constant",
            ModuleFamily::LaterGlobal => "later-global",
            ModuleFamily::FunctionType => "function-type",
            ModuleFamily::TagType => "tag-type",
            ModuleFamily::ImportType => "import-type",
            ModuleFamily::ElementSegment => "element-segment",
            ModuleFamily::DataSegment => "data-segment",
        }
    }
}

/// Writes the name of the family.
impl fmt::Display for ModuleFamily {
    fn fmt<W: fmt::Write>(&self, f: &mut fmt::Formatter<W>) -> fmt::Result {
        self.name().fmt(f)
    }
}
