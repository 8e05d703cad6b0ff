ghost use Rattle.std.specs.Prelude.{◌≡◌, ◌↔◌, ⊤, IsTrue, bit_and};
ghost use Rattle.bitflags.specs.Sets.{without};
ghost use Rattle.smith_syntax.specs.Instructions.{
  kind_bits,
  instruction_kind_name,
  kind_table,
  kinds_bits,
  every_kind,
  no_kind,
  with_kind,
  union_of,
  float_bits,
  IsReadKind,
  AreReadKinds,
};

use bitflags::{Flag, Flags, bitflag_items};
use std::str::FromStr;
use thiserror::Error;

/// A kind of instructions, as grouped in the WebAssembly Core Specification. Three kinds exist
/// twice: complete, and without floats.
///
/// As text, a kind is a name such as `numeric_non_float`. Case is ignored.
#[derive(Clone, Copy, Debug, PartialEq, Eq)]
pub enum InstructionKind {
    /// Numeric instructions without floats.
    NumericInt,
    /// Numeric instructions.
    Numeric,
    /// Vector instructions without floats.
    VectorInt,
    /// Vector instructions.
    Vector,
    /// Reference instructions.
    Reference,
    /// Parametric instructions.
    Parametric,
    /// Variable instructions.
    Variable,
    /// Table instructions.
    Table,
    /// Memory instructions without floats.
    MemoryInt,
    /// Memory instructions.
    Memory,
    /// Control instructions.
    Control,
    /// Aggregate instructions.
    Aggregate,
}

/// The error of parsing a kind or a set of kinds: a part of the text between commas names no kind.
#[derive(Clone, Copy, Debug, PartialEq, Eq, Error)]
#[error("part {part} names no kind of instructions")]
pub struct UnknownKind {
    /// The position of the first such part, starting at 0.
    pub part: usize,
}

/// A set of kinds of instructions. A kind with floats includes the kind without floats.
///
/// As text, a set is the names of its kinds separated by commas.
#[derive(Clone, Copy, Debug, PartialEq, Eq)]
pub struct InstructionKinds(u16);

// The bits that only kinds with floats have, and not their counterparts without floats.
const FLOATS: InstructionKinds = InstructionKinds(2 + 8 + 512);

const KINDS: [InstructionKind; 12] = [
    InstructionKind::NumericInt,
    InstructionKind::Numeric,
    InstructionKind::VectorInt,
    InstructionKind::Vector,
    InstructionKind::Reference,
    InstructionKind::Parametric,
    InstructionKind::Variable,
    InstructionKind::Table,
    InstructionKind::MemoryInt,
    InstructionKind::Memory,
    InstructionKind::Control,
    InstructionKind::Aggregate,
];

impl InstructionKind {
    // Returns the set with only this kind.
    fn set(self) -> InstructionKinds
        ensures { kinds_bits result ≡ kind_bits self }
    {
        match self {
            InstructionKind::NumericInt => InstructionKinds::NUMERIC_INT,
            InstructionKind::Numeric => InstructionKinds::NUMERIC,
            InstructionKind::VectorInt => InstructionKinds::VECTOR_INT,
            InstructionKind::Vector => InstructionKinds::VECTOR,
            InstructionKind::Reference => InstructionKinds::REFERENCE,
            InstructionKind::Parametric => InstructionKinds::PARAMETRIC,
            InstructionKind::Variable => InstructionKinds::VARIABLE,
            InstructionKind::Table => InstructionKinds::TABLE,
            InstructionKind::MemoryInt => InstructionKinds::MEMORY_INT,
            InstructionKind::Memory => InstructionKinds::MEMORY,
            InstructionKind::Control => InstructionKinds::CONTROL,
            InstructionKind::Aggregate => InstructionKinds::AGGREGATE,
        }
    }

    fn name(self) -> &'static str
        ensures { result.now ≡ instruction_kind_name self }
    {
        match self {
            InstructionKind::NumericInt => "numeric_non_float",
            InstructionKind::Numeric => "numeric",
            InstructionKind::VectorInt => "vector_non_float",
            InstructionKind::Vector => "vector",
            InstructionKind::Reference => "reference",
            InstructionKind::Parametric => "parametric",
            InstructionKind::Variable => "variable",
            InstructionKind::Table => "table",
            InstructionKind::MemoryInt => "memory_non_float",
            InstructionKind::Memory => "memory",
            InstructionKind::Control => "control",
            InstructionKind::Aggregate => "aggregate",
        }
    }
}

impl FromStr for InstructionKind {
    type Err = UnknownKind;

    ghost from_str_gives = { IsReadKind };

    fn from_str(s: &str) -> Result<InstructionKind, UnknownKind> {
        for kind in KINDS {
            if kind.name().eq_ignore_ascii_case(s) {
                return Ok(kind);
            }
        }
        Err(UnknownKind { part: 0 })
    }
}

bitflag_items! {
    impl InstructionKinds: u16 {
        /// The set of [`InstructionKind::NumericInt`].
        const NUMERIC_INT = 1;
        /// The set of [`InstructionKind::Numeric`].
        const NUMERIC = 3;
        /// The set of [`InstructionKind::VectorInt`].
        const VECTOR_INT = 4;
        /// The set of [`InstructionKind::Vector`].
        const VECTOR = 12;
        /// The set of [`InstructionKind::Reference`].
        const REFERENCE = 16;
        /// The set of [`InstructionKind::Parametric`].
        const PARAMETRIC = 32;
        /// The set of [`InstructionKind::Variable`].
        const VARIABLE = 64;
        /// The set of [`InstructionKind::Table`].
        const TABLE = 128;
        /// The set of [`InstructionKind::MemoryInt`].
        const MEMORY_INT = 256;
        /// The set of [`InstructionKind::Memory`].
        const MEMORY = 768;
        /// The set of [`InstructionKind::Control`].
        const CONTROL = 1024;
        /// The set of [`InstructionKind::Aggregate`].
        const AGGREGATE = 2048;
    }
}

impl Flags for InstructionKinds {
    type Bits = u16;

    ghost exact = { ⊤ };

    ghost table = { kind_table };

    ghost set_of = { kinds_bits };

    fn flags<'a>() -> &'a [Flag<InstructionKinds>] {
        InstructionKinds::FLAGS
    }

    fn bits(&self) -> u16 {
        self.0
    }

    fn from_bits_retain(bits: u16) -> InstructionKinds {
        InstructionKinds(bits)
    }
}

impl InstructionKinds {
    /// Creates the set of the given kinds.
    #[tactic(auto, unfolding(crate::specs::Instructions::with_kind))]
    pub fn new(kinds: &[InstructionKind]) -> InstructionKinds
        ensures { kinds_bits result ≡ union_of kinds.now }
    {
        let mut all = InstructionKinds::none();
        for kind in kinds {
            all = all.with(true, *kind);
        }
        all
    }

    /// Returns the set of all kinds.
    #[tactic(auto, unfolding(bitflags::proofs::OnLiterals::bitflags_on_literals))]
    pub fn all() -> InstructionKinds
        ensures { result ≡ every_kind }
    {
        Flags::all()
    }

    /// Returns the empty set.
    pub fn none() -> InstructionKinds
        ensures { result ≡ no_kind }
    {
        Flags::empty()
    }

    /// Returns whether the set has every bit of `kind`.
    pub fn contains(&self, kind: InstructionKind) -> bool
        ensures { IsTrue result
            ↔ (bit_and (kinds_bits self.now) (kind_bits kind) ≡ kind_bits kind) }
    {
        Flags::contains(self, kind.set())
    }

    /// Returns the set without the bits that concern floats.
    pub fn without_floats(&self) -> InstructionKinds
        ensures { kinds_bits result ≡ without 16 (kinds_bits self.now) float_bits }
    {
        self.difference(FLOATS)
    }

    /// Returns the set with `kind` added if `wanted` is `true`.
    #[tactic(auto, unfolding(crate::specs::Instructions::with_kind))]
    pub fn with(self, wanted: bool, kind: InstructionKind) -> InstructionKinds
        ensures { result ≡ with_kind self wanted kind }
    {
        if wanted { self.union(kind.set()) } else { self }
    }
}

impl Default for InstructionKinds {
    ghost is_default = { λ kinds. kinds ≡ no_kind };

    fn default() -> InstructionKinds {
        InstructionKinds::none()
    }
}

impl FromStr for InstructionKinds {
    type Err = UnknownKind;

    ghost from_str_gives = { AreReadKinds };

    fn from_str(s: &str) -> Result<InstructionKinds, UnknownKind> {
        let mut all = InstructionKinds::none();
        let mut place = 0;
        for part in s.split(',') {
            match InstructionKind::from_str(part) {
                Ok(kind) => all = all.with(true, kind),
                Err(_) => return Err(UnknownKind { part: place }),
            }
            place += 1;
        }
        Ok(all)
    }
}
