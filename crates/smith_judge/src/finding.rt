ghost use Rattle.std.specs.Prelude.{◌≡◌};
ghost use Rattle.smith_judge.specs.Verdicts.{fault_inner, fault_item, item_number, part_item};

use crate::rules::Rule;
use smith_check::Fault;
use smith_check_module::Part;

/// The first fault of a module.
#[derive(Clone, Copy, Debug)]
pub struct Finding {
    /// The fault, by places in the sections of the file.
    pub fault: Fault,
    /// The rule that is broken.
    pub rule: Rule,
    /// The index of the item, with imported items first.
    pub index: usize,
    /// The offset in the file at which the item, or the instruction, begins, counted from 0.
    pub offset: usize,
}

/// A kind of items of a module.
#[derive(Clone, Copy, Debug, PartialEq, Eq)]
pub enum Item {
    /// A recursive group of types.
    Types = 1,
    /// A tag.
    Tag = 2,
    /// A function.
    Function = 3,
    /// A table.
    Table = 4,
    /// A memory.
    Memory = 5,
    /// A global.
    Global = 6,
    /// An export.
    Export = 7,
    /// The start function.
    Start = 8,
    /// An element segment.
    Element = 9,
    /// A data segment.
    Data = 10,
}

impl Item {
    /// Returns the number of the kind, from 1 on. Later versions append kinds and renumber none.
    pub fn number(self) -> u32
        ensures { result ≡ item_number self }
    {
        self as u32
    }

    /// Returns the kind in the words of the standard.
    pub fn name(self) -> &'static str {
        match self {
            Item::Types => "recursive type",
            Item::Tag => "tag",
            Item::Function => "function",
            Item::Table => "table",
            Item::Memory => "memory",
            Item::Global => "global",
            Item::Export => "export",
            Item::Start => "start function",
            Item::Element => "element segment",
            Item::Data => "data segment",
        }
    }
}

impl Finding {
    /// Returns the kind of the item.
    pub fn item(&self) -> Item
        ensures { result ≡ fault_item self.now.fault }
    {
        match self.fault {
            Fault::Types(_) => Item::Types,
            Fault::Section(fault) => item_of(fault.part),
            Fault::Local { .. } | Fault::Body { .. } => Item::Function,
        }
    }

    /// Returns the index of the instruction in its body, or of the run of locals, if the fault is one.
    pub fn inner(&self) -> Option<usize>
        ensures { result ≡ fault_inner self.now.fault }
    {
        match self.fault {
            Fault::Types(_) | Fault::Section(_) => None,
            Fault::Local { run, .. } => Some(run),
            Fault::Body { instruction, .. } => Some(instruction),
        }
    }
}

fn item_of(part: Part) -> Item
    ensures { result ≡ part_item part }
{
    match part {
        Part::Tags => Item::Tag,
        Part::Functions => Item::Function,
        Part::Tables | Part::TableInitials => Item::Table,
        Part::Memories => Item::Memory,
        Part::Globals | Part::GlobalInitials => Item::Global,
        Part::Exports => Item::Export,
        Part::Start => Item::Start,
        Part::Elements => Item::Element,
        Part::Datas => Item::Data,
    }
}
