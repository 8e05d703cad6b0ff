//! The calls that cases make, each by its name.

/// A call of a case.
#[derive(Clone, Copy)]
pub enum Call {
    /// A module, answered with its text or its binary.
    Module(ModuleCall),
    /// A program, answered with its text or its binary.
    Program(ProgramCall),
    /// A configuration, or a check of one.
    Config(ConfigCall),
    /// A call on a shape.
    Shape(ShapeCall),
    /// A draw over a type space.
    Draw(DrawCall),
    /// A draw of the byte source alone.
    Source(SourceCall),
    /// A name drawn from bytes.
    Name(NameCall),
    /// A parse of a text, or a set of kinds.
    Parser(ParserCall),
    /// `config`.
    ReadConfig,
    /// A call on a file.
    File(FileCall),
    /// A call on a type space.
    Space(SpaceCall),
    /// The recorded form of a set of answers.
    Recorded,
}

/// Calls that make a module.
#[derive(Clone, Copy)]
pub enum ModuleCall {
    /// `Module::new`.
    New,
    /// `Module::new_internal`.
    NewInternal,
    /// `Module::arbitrary`.
    Arbitrary,
    /// `Module::new` of a drawn configuration.
    NewOfDrawn,
    /// `Module::ensure_termination`.
    EnsureTermination,
    /// `encode` of a module.
    Encode,
}

/// Forms of a program in an answer.
#[derive(Clone, Copy)]
pub enum ProgramCall {
    /// The text.
    New,
    /// The binary.
    Encode,
    /// The text, with exported sinks.
    Observe,
}

/// Calls on a configuration.
#[derive(Clone, Copy)]
pub enum ConfigCall {
    /// `Config::arbitrary`.
    Arbitrary,
    /// `Config::clone`.
    Clone,
    /// `Config::sanitize`.
    Sanitize,
    /// `Config::check`.
    Check,
    /// `Config::features`.
    Features,
}

/// Calls on a shape.
#[derive(Clone, Copy)]
pub enum ShapeCall {
    /// `Shape::check`.
    Check,
    /// `spell`.
    Spell,
    /// Copies of the types and imports.
    Copies,
}

/// Draws over a type space.
#[derive(Clone, Copy)]
pub enum DrawCall {
    /// Types that are added to the type space.
    Types(TypesCall),
    /// A type.
    Free(FreeCall),
    /// A subtype or a supertype of another type.
    Matching(MatchingCall),
    /// The type of an entity, or locals.
    Entity(EntityCall),
    /// A constant expression, or the globals that it may read.
    Constant(ConstantCall),
    /// A number.
    Number(NumberCall),
}

/// Draws of types that are added to the type space.
#[derive(Clone, Copy)]
pub enum TypesCall {
    /// `arbitrary_types`.
    Arbitrary,
    /// `arbitrary_rec_group`.
    RecGroup,
    /// `clone_rec_group`.
    CloneRecGroup,
}

/// Draws of a type.
#[derive(Clone, Copy)]
pub enum FreeCall {
    /// `arbitrary_sub_type`.
    Sub,
    /// `arbitrary_sub_type_of_super_type`.
    SubOfSuper,
    /// `arbitrary_composite_type`.
    Composite,
    /// `arbitrary_struct_type`.
    Struct,
    /// `arbitrary_func_type`.
    Func,
    /// `arbitrary_field_type`.
    Field,
    /// `arbitrary_storage_type`.
    Storage,
    /// `arbitrary_valtype`.
    Val,
    /// `arbitrary_ref_type`.
    Ref,
    /// `arbitrary_heap_type`.
    Heap,
}

/// Draws of a subtype or a supertype of another type.
#[derive(Clone, Copy)]
pub enum MatchingCall {
    /// `arbitrary_matching_func_type`.
    Func,
    /// `arbitrary_matching_struct_type`.
    Struct,
    /// `arbitrary_matching_field_type`.
    Field,
    /// `arbitrary_matching_storage_type`.
    Storage,
    /// `arbitrary_matching_val_type`.
    Val,
    /// `arbitrary_matching_ref_type`.
    Ref,
    /// `arbitrary_matching_heap_type`.
    Heap,
    /// `arbitrary_super_type_of_val_type`.
    AboveVal,
    /// `arbitrary_super_type_of_ref_type`.
    AboveRef,
    /// `arbitrary_super_type_of_heap_type`.
    AboveHeap,
}

/// Draws of the type of an entity, or of locals.
#[derive(Clone, Copy)]
pub enum EntityCall {
    /// `arbitrary_global_type`.
    Global,
    /// `arbitrary_tag_type`.
    Tag,
    /// `arbitrary_table_type`.
    Table,
    /// `arbitrary_memtype`.
    Mem,
    /// `arbitrary_locals`.
    Locals,
}

/// Draws of constant expressions, and the globals that they may read.
#[derive(Clone, Copy)]
pub enum ConstantCall {
    /// `arbitrary_const_expr`.
    Expression,
    /// `arbitrary_table_init`.
    TableInit,
    /// `globals_for_const_expr`.
    Globals,
}

/// Draws of numbers.
#[derive(Clone, Copy)]
pub enum NumberCall {
    /// `gradually_grow`.
    GraduallyGrow,
    /// `arbitrary_limits64`.
    Limits64,
    /// `arbitrary_offset`.
    Offset,
}

/// Draws of the byte source.
#[derive(Clone, Copy)]
pub enum SourceCall {
    /// `Unstructured::arbitrary`.
    Arbitrary,
    /// `Unstructured::int_in_range`.
    IntInRange,
    /// `Unstructured::ratio`.
    Ratio,
    /// `Unstructured::choose`.
    Choose,
    /// `Unstructured::bytes`.
    Bytes,
    /// `Unstructured::peek_bytes`.
    PeekBytes,
    /// `Unstructured::arbitrary_len`.
    ArbitraryLen,
    /// `arbitrary_loop`.
    ArbitraryLoop,
}

/// Draws of a name.
#[derive(Clone, Copy)]
pub enum NameCall {
    /// `limited_str`.
    LimitedStr,
    /// `limited_string`.
    LimitedString,
    /// `unique_string`.
    UniqueString,
    /// `unique_kebab_string`.
    UniqueKebabString,
    /// `unique_url`.
    UniqueUrl,
}

/// Parses of a text, and sets of kinds.
#[derive(Clone, Copy)]
pub enum ParserCall {
    /// `MemoryOffsetChoices::from_str`.
    OffsetChoices,
    /// `InstructionKind::from_str`.
    Kind,
    /// `InstructionKinds::from_str`.
    Kinds,
    /// `InstructionKinds::without_floats`.
    WithoutFloats,
    /// `InstructionKinds::contains`.
    Contains,
    /// `InstructionKinds::none`.
    NoKinds,
    /// `InstructionKinds::all`.
    AllKinds,
    /// `InstructionKinds::default`.
    DefaultKinds,
}

/// Calls on a file.
#[derive(Clone, Copy)]
pub enum FileCall {
    /// `decode`.
    Decode,
    /// `judge`.
    Judge,
}

/// Subtype tests, by the form of the types.
#[derive(Clone, Copy)]
pub enum SubtypeCall {
    /// `TypeSpace::heap_type_is_sub_type`.
    HeapType,
    /// `TypeSpace::ref_type_is_sub_type`.
    RefType,
    /// `TypeSpace::val_type_is_sub_type`.
    ValType,
}

/// Calls on a type space.
#[derive(Clone, Copy)]
pub enum SpaceCall {
    /// A subtype test.
    Subtype(SubtypeCall),
    /// `TypeSpace::depth`.
    Depth,
    /// `TypeSpace::size_of`.
    Size,
    /// `TypeSpace::composite_type_matches`.
    Matches,
    /// `TypeSpace::push_type`.
    PushType,
    /// `add_type`.
    AddType,
    /// `list_types`.
    ListTypes,
}

/// The name of the call that makes recorded answers.
pub const RECORDED: &str = "recorded";

// The greatest number of arguments of a call that has any number.
const ANY: usize = usize::MAX;

// Each call by its name, with the greatest number of its arguments.
#[rattlefmt::skip]
static CALLS: [(&str, Call, usize); 85] = [
    ("Module::new", Call::Module(ModuleCall::New), ANY),
    ("Module::new_internal", Call::Module(ModuleCall::NewInternal), ANY),
    ("Module::arbitrary", Call::Module(ModuleCall::Arbitrary), 0),
    ("Module::new of Config::arbitrary", Call::Module(ModuleCall::NewOfDrawn), 0),
    ("Module::ensure_termination", Call::Module(ModuleCall::EnsureTermination), ANY),
    ("encode", Call::Module(ModuleCall::Encode), ANY),
    ("Program::new", Call::Program(ProgramCall::New), ANY),
    ("encode of Program::new", Call::Program(ProgramCall::Encode), ANY),
    ("Program::observe", Call::Program(ProgramCall::Observe), ANY),
    ("Config::arbitrary", Call::Config(ConfigCall::Arbitrary), 0),
    ("Config::clone", Call::Config(ConfigCall::Clone), 0),
    ("Config::sanitize", Call::Config(ConfigCall::Sanitize), 0),
    ("Config::check", Call::Config(ConfigCall::Check), 0),
    ("Config::features", Call::Config(ConfigCall::Features), 0),
    ("Shape::check", Call::Shape(ShapeCall::Check), 1),
    ("spell", Call::Shape(ShapeCall::Spell), 0),
    ("arbitrary_types", Call::Draw(DrawCall::Types(TypesCall::Arbitrary)), 0),
    ("arbitrary_rec_group", Call::Draw(DrawCall::Types(TypesCall::RecGroup)), ANY),
    ("clone_rec_group", Call::Draw(DrawCall::Types(TypesCall::CloneRecGroup)), 0),
    ("arbitrary_sub_type_of_super_type", Call::Draw(DrawCall::Free(FreeCall::SubOfSuper)), 2),
    ("arbitrary_matching_struct_type", Call::Draw(DrawCall::Matching(MatchingCall::Struct)), 1),
    ("globals_for_const_expr", Call::Draw(DrawCall::Constant(ConstantCall::Globals)), 2),
    ("arbitrary_sub_type", Call::Draw(DrawCall::Free(FreeCall::Sub)), 2),
    ("arbitrary_composite_type", Call::Draw(DrawCall::Free(FreeCall::Composite)), 2),
    ("arbitrary_struct_type", Call::Draw(DrawCall::Free(FreeCall::Struct)), 2),
    ("arbitrary_func_type", Call::Draw(DrawCall::Free(FreeCall::Func)), 2),
    ("arbitrary_field_type", Call::Draw(DrawCall::Free(FreeCall::Field)), 2),
    ("arbitrary_storage_type", Call::Draw(DrawCall::Free(FreeCall::Storage)), 2),
    ("arbitrary_valtype", Call::Draw(DrawCall::Free(FreeCall::Val)), 2),
    ("arbitrary_ref_type", Call::Draw(DrawCall::Free(FreeCall::Ref)), 2),
    ("arbitrary_heap_type", Call::Draw(DrawCall::Free(FreeCall::Heap)), 2),
    ("arbitrary_matching_func_type", Call::Draw(DrawCall::Matching(MatchingCall::Func)), 1),
    ("arbitrary_matching_field_type", Call::Draw(DrawCall::Matching(MatchingCall::Field)), 1),
    ("arbitrary_matching_storage_type", Call::Draw(DrawCall::Matching(MatchingCall::Storage)), 1),
    ("arbitrary_matching_val_type", Call::Draw(DrawCall::Matching(MatchingCall::Val)), 1),
    ("arbitrary_matching_ref_type", Call::Draw(DrawCall::Matching(MatchingCall::Ref)), 1),
    ("arbitrary_matching_heap_type", Call::Draw(DrawCall::Matching(MatchingCall::Heap)), 1),
    ("arbitrary_super_type_of_val_type", Call::Draw(DrawCall::Matching(MatchingCall::AboveVal)), 1),
    ("arbitrary_super_type_of_ref_type", Call::Draw(DrawCall::Matching(MatchingCall::AboveRef)), 1),
    ("arbitrary_super_type_of_heap_type", Call::Draw(DrawCall::Matching(MatchingCall::AboveHeap)), 1),
    ("arbitrary_global_type", Call::Draw(DrawCall::Entity(EntityCall::Global)), 0),
    ("arbitrary_tag_type", Call::Draw(DrawCall::Entity(EntityCall::Tag)), 0),
    ("arbitrary_table_type", Call::Draw(DrawCall::Entity(EntityCall::Table)), 0),
    ("arbitrary_memtype", Call::Draw(DrawCall::Entity(EntityCall::Mem)), 0),
    ("arbitrary_const_expr", Call::Draw(DrawCall::Constant(ConstantCall::Expression)), 3),
    ("arbitrary_table_init", Call::Draw(DrawCall::Constant(ConstantCall::TableInit)), 1),
    ("arbitrary_locals", Call::Draw(DrawCall::Entity(EntityCall::Locals)), 0),
    ("gradually_grow", Call::Draw(DrawCall::Number(NumberCall::GraduallyGrow)), 3),
    ("arbitrary_limits64", Call::Draw(DrawCall::Number(NumberCall::Limits64)), 4),
    ("arbitrary_offset", Call::Draw(DrawCall::Number(NumberCall::Offset)), 3),
    ("Unstructured::arbitrary", Call::Source(SourceCall::Arbitrary), 1),
    ("Unstructured::int_in_range", Call::Source(SourceCall::IntInRange), 3),
    ("Unstructured::ratio", Call::Source(SourceCall::Ratio), 2),
    ("Unstructured::choose", Call::Source(SourceCall::Choose), ANY),
    ("Unstructured::bytes", Call::Source(SourceCall::Bytes), 1),
    ("Unstructured::peek_bytes", Call::Source(SourceCall::PeekBytes), 1),
    ("Unstructured::arbitrary_len", Call::Source(SourceCall::ArbitraryLen), 0),
    ("arbitrary_loop", Call::Source(SourceCall::ArbitraryLoop), ANY),
    ("limited_str", Call::Name(NameCall::LimitedStr), 1),
    ("limited_string", Call::Name(NameCall::LimitedString), 1),
    ("unique_string", Call::Name(NameCall::UniqueString), ANY),
    ("unique_kebab_string", Call::Name(NameCall::UniqueKebabString), ANY),
    ("unique_url", Call::Name(NameCall::UniqueUrl), ANY),
    ("MemoryOffsetChoices::from_str", Call::Parser(ParserCall::OffsetChoices), 1),
    ("InstructionKind::from_str", Call::Parser(ParserCall::Kind), ANY),
    ("InstructionKinds::from_str", Call::Parser(ParserCall::Kinds), 1),
    ("InstructionKinds::without_floats", Call::Parser(ParserCall::WithoutFloats), 1),
    ("InstructionKinds::contains", Call::Parser(ParserCall::Contains), 2),
    ("InstructionKinds::none", Call::Parser(ParserCall::NoKinds), 0),
    ("InstructionKinds::all", Call::Parser(ParserCall::AllKinds), 0),
    ("InstructionKinds::default", Call::Parser(ParserCall::DefaultKinds), 0),
    ("config", Call::ReadConfig, ANY),
    ("decode", Call::File(FileCall::Decode), 0),
    ("judge", Call::File(FileCall::Judge), 0),
    ("TypeSpace::heap_type_is_sub_type", Call::Space(SpaceCall::Subtype(SubtypeCall::HeapType)), 2),
    ("TypeSpace::ref_type_is_sub_type", Call::Space(SpaceCall::Subtype(SubtypeCall::RefType)), 2),
    ("TypeSpace::val_type_is_sub_type", Call::Space(SpaceCall::Subtype(SubtypeCall::ValType)), 2),
    ("TypeSpace::composite_type_matches", Call::Space(SpaceCall::Matches), 2),
    ("TypeSpace::depth", Call::Space(SpaceCall::Depth), 1),
    ("TypeSpace::size_of", Call::Space(SpaceCall::Size), 1),
    ("TypeSpace::push_type", Call::Space(SpaceCall::PushType), 0),
    ("add_type", Call::Space(SpaceCall::AddType), 0),
    ("list_types", Call::Space(SpaceCall::ListTypes), 1),
    ("clone", Call::Shape(ShapeCall::Copies), 0),
    (RECORDED, Call::Recorded, 3),
];

// Returns each call by its name, with the greatest number of its arguments.
fn calls() -> &'static [(&'static str, Call, usize)] {
    &CALLS
}

/// Finds the call named `name` and the greatest number of its arguments, if there is such a call.
pub fn call_named(name: &str) -> Option<(Call, usize)> {
    call_among(calls(), name)
}

// Finds the call named `name` among `calls`.
fn call_among(calls: &[(&str, Call, usize)], name: &str) -> Option<(Call, usize)> {
    for (other, call, most) in calls {
        if *other == name {
            return Some((*call, *most));
        }
    }
    None
}
