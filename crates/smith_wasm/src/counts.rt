ghost use Rattle.std.specs.Prelude.{◌<◌};

use smith_instr::Instr;
use smith_program::{Body, Program};
use smith_types::InstructionKind;

/// The kinds of instructions. A kind without floats counts as the kind with them.
pub(crate) const KINDS: [&str; 9] = [
    "numeric",
    "vector",
    "reference",
    "parametric",
    "variable",
    "table",
    "memory",
    "control",
    "aggregate",
];

/// The counts of bodies.
#[derive(Clone, Copy)]
pub(crate) struct Counts {
    /// The number of functions with instructions, other than a lone `unreachable`.
    pub(crate) functions: u64,
    /// The number of instructions of each of [`KINDS`] in these functions.
    pub(crate) instructions: [u64; 9],
}

impl Counts {
    /// Returns the counts of no bodies.
    pub(crate) fn none() -> Counts {
        Counts {
            functions: 0,
            instructions: [0; 9],
        }
    }

    /// Returns the counts of the bodies of `program`.
    pub(crate) fn of(program: &Program) -> Counts {
        let mut counts = Counts::none();
        for body in program.bodies() {
            if let Body::Drawn(instructions) = body {
                counts.add_body(instructions.as_slice());
            }
        }
        counts
    }

    /// Adds the counts of a body of these instructions.
    fn add_body(&mut self, instructions: &[Instr]) {
        if is_bare(instructions) {
            return;
        }
        self.functions = self.functions.saturating_add(1);
        for instruction in instructions {
            let place = place_of(instruction.kind());
            self.instructions[place] = self.instructions[place].saturating_add(1);
        }
    }

    /// Adds the counts of other bodies.
    pub(crate) fn add(&mut self, other: &Counts) {
        self.functions = self.functions.saturating_add(other.functions);
        for place in 0..9 {
            self.instructions[place] = self.instructions[place].saturating_add(
                other.instructions[place],
            );
        }
    }
}

/// Returns whether a body has no instruction but a lone `unreachable`.
fn is_bare(instructions: &[Instr]) -> bool {
    match instructions.first() {
        Some(Instr::Unreachable) => instructions.len() == 1,
        Some(_) => false,
        None => true,
    }
}

/// Returns the place of a kind in [`KINDS`].
fn place_of(kind: InstructionKind) -> usize
    ensures { result < 9 }
{
    match kind {
        InstructionKind::NumericInt | InstructionKind::Numeric => 0,
        InstructionKind::VectorInt | InstructionKind::Vector => 1,
        InstructionKind::Reference => 2,
        InstructionKind::Parametric => 3,
        InstructionKind::Variable => 4,
        InstructionKind::Table => 5,
        InstructionKind::MemoryInt | InstructionKind::Memory => 6,
        InstructionKind::Control => 7,
        InstructionKind::Aggregate => 8,
    }
}
