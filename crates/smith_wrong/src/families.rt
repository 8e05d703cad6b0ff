ghost use Rattle.std.specs.Prelude.{◌≡◌, ◌^◌, ◌-◌, IfSome, min};
ghost use Rattle.std.specs.List.{Contains};
ghost use Rattle.smith_wrong.specs.Weights.{bytes_weight_of, drawn_family, family_in, module_weight_of, total_of, weight_of};

use smith_bytes::Unstructured;
use smith_wrong_bytes::BytesFamily;
use smith_wrong_module::ModuleFamily;

/// A family of changes, each of which breaks rules of one kind.
#[derive(Clone, Copy, Debug, PartialEq, Eq)]
pub enum Family {
    /// Changes of one item of a module.
    Module(ModuleFamily),
    /// Changes of bytes of a file that stand next to each other.
    Bytes(BytesFamily),
}

impl Family {
    /// Every family.
    pub const ALL: [Family; 55] = [
        Family::Module(ModuleFamily::OperandType),
        Family::Module(ModuleFamily::MissingOperand),
        Family::Module(ModuleFamily::ExtraOperand),
        Family::Module(ModuleFamily::BlockType),
        Family::Module(ModuleFamily::FunctionResult),
        Family::Module(ModuleFamily::IndexPastEnd),
        Family::Module(ModuleFamily::OtherEntity),
        Family::Module(ModuleFamily::ReferenceType),
        Family::Module(ModuleFamily::Label),
        Family::Module(ModuleFamily::CastHierarchy),
        Family::Module(ModuleFamily::TailCall),
        Family::Module(ModuleFamily::DeadCode),
        Family::Module(ModuleFamily::UnsetLocal),
        Family::Module(ModuleFamily::ImmutableGlobal),
        Family::Module(ModuleFamily::ImmutableField),
        Family::Module(ModuleFamily::PackedField),
        Family::Module(ModuleFamily::UndeclaredFunction),
        Family::Module(ModuleFamily::Alignment),
        Family::Module(ModuleFamily::Offset),
        Family::Module(ModuleFamily::Lane),
        Family::Module(ModuleFamily::Supertype),
        Family::Module(ModuleFamily::FinalType),
        Family::Module(ModuleFamily::ForwardReference),
        Family::Module(ModuleFamily::Limits),
        Family::Module(ModuleFamily::DuplicateExport),
        Family::Module(ModuleFamily::ExportIndex),
        Family::Module(ModuleFamily::StartFunction),
        Family::Module(ModuleFamily::ConstantType),
        Family::Module(ModuleFamily::NonConstant),
        Family::Module(ModuleFamily::LaterGlobal),
        Family::Module(ModuleFamily::FunctionType),
        Family::Module(ModuleFamily::TagType),
        Family::Module(ModuleFamily::ImportType),
        Family::Module(ModuleFamily::ElementSegment),
        Family::Module(ModuleFamily::DataSegment),
        Family::Bytes(BytesFamily::LongInteger),
        Family::Bytes(BytesFamily::UnusedBits),
        Family::Bytes(BytesFamily::SectionSize),
        Family::Bytes(BytesFamily::BodySize),
        Family::Bytes(BytesFamily::ListCount),
        Family::Bytes(BytesFamily::FunctionCount),
        Family::Bytes(BytesFamily::DataCount),
        Family::Bytes(BytesFamily::DataCountMissing),
        Family::Bytes(BytesFamily::SectionOrder),
        Family::Bytes(BytesFamily::SectionTwice),
        Family::Bytes(BytesFamily::UnknownSection),
        Family::Bytes(BytesFamily::LeftOverByte),
        Family::Bytes(BytesFamily::NotUtf8),
        Family::Bytes(BytesFamily::UnknownFlag),
        Family::Bytes(BytesFamily::UnknownType),
        Family::Bytes(BytesFamily::UnknownOpcode),
        Family::Bytes(BytesFamily::MissingEnd),
        Family::Bytes(BytesFamily::SecondEnd),
        Family::Bytes(BytesFamily::Preamble),
        Family::Bytes(BytesFamily::CutFile),
    ];

    /// Returns the family named `name`, in the letters of [`Family::name`].
    pub fn from_name(name: &str) -> Option<Family> {
        Family::ALL
            .iter()
            .copied()
            .find(|family| family.name() == name)
    }

    /// Returns the name of the family, in lower case and with hyphens.
    pub fn name(self) -> &'static str {
        match self {
            Family::Module(family) => family.name(),
            Family::Bytes(family) => family.name(),
        }
    }

    /// Returns how often the family is drawn, next to the weights of the others.
    pub fn weight(self) -> u32
        ensures { result ≡ weight_of self }
    {
        match self {
            Family::Module(family) => module_weight(family),
            Family::Bytes(family) => bytes_weight(family),
        }
    }
}

/// Draws one of `families` by their weights from the bytes of `u`. Returns `None` if there are none.
pub(crate) fn draw_family(families: &[Family], u: &mut Unstructured<'_>) -> Option<Family>
    ensures exact { result ≡ drawn_family families.now u.old }
    ensures among { IfSome result (Contains families.now) }
{
    let sum = sum_of(families);
    if sum == 0 {
        return None;
    }
    family_at(families, u.int_in_range(0..=sum - 1))
}

// Returns the sum of the weights of `families`, or the greatest number if it is less.
fn sum_of(families: &[Family]) -> u32
    ensures { result ≡ min (total_of families.now) (2 ^ 32 - 1) }
{
    let mut sum: u32 = 0;
    for family in families {
        sum = sum.saturating_add(family.weight());
    }
    sum
}

// Returns the first of `families` with which the sum of the weights is above `place`.
fn family_at(families: &[Family], place: u32) -> Option<Family>
    ensures exact { result ≡ family_in families.now place }
    ensures among { IfSome result (Contains families.now) }
{
    let mut left = place;
    for family in families {
        let weight = family.weight();
        if left < weight {
            return Some(*family);
        }
        left -= weight;
    }
    None
}

// Families of which few modules have a place have greater weights, so that each is drawn.
fn module_weight(family: ModuleFamily) -> u32
    ensures { result ≡ module_weight_of family }
{
    match family {
        ModuleFamily::UndeclaredFunction => 44,
        ModuleFamily::ImmutableGlobal => 32,
        ModuleFamily::Offset | ModuleFamily::DeadCode => 24,
        ModuleFamily::TailCall => 20,
        // No drawn module has a local without a default value.
        ModuleFamily::UnsetLocal => 16,
        ModuleFamily::ElementSegment
        | ModuleFamily::ImmutableField
        | ModuleFamily::Alignment
        | ModuleFamily::CastHierarchy
        | ModuleFamily::ReferenceType => 12,
        ModuleFamily::Label => 10,
        ModuleFamily::PackedField
        | ModuleFamily::TagType
        | ModuleFamily::DataSegment
        | ModuleFamily::OtherEntity
        | ModuleFamily::Lane
        | ModuleFamily::MissingOperand => 8,
        ModuleFamily::OperandType
        | ModuleFamily::ExtraOperand
        | ModuleFamily::BlockType
        | ModuleFamily::FunctionResult
        | ModuleFamily::IndexPastEnd
        | ModuleFamily::FunctionType
        | ModuleFamily::ImportType => 6,
        ModuleFamily::Limits | ModuleFamily::ConstantType | ModuleFamily::NonConstant => 3,
        ModuleFamily::StartFunction => 2,
        _ => 4,
    }
}

fn bytes_weight(family: BytesFamily) -> u32
    ensures { result ≡ bytes_weight_of family }
{
    match family {
        BytesFamily::DataCountMissing => 24,
        BytesFamily::BodySize | BytesFamily::FunctionCount => 6,
        BytesFamily::DataCount => 4,
        BytesFamily::NotUtf8 => 3,
        _ => 2,
    }
}
