/// A content after its size, of a section or of a body, by offsets in the file.
#[derive(Clone, Copy, Debug)]
pub(crate) struct Frame {
    /// The offset of the size.
    pub size: usize,
    /// The offset of the content.
    pub start: usize,
    /// The offset of the end of the content.
    pub end: usize,
}

/// The contents that a place is in.
#[derive(Clone, Copy, Debug)]
pub(crate) struct Frames {
    /// The content of a section.
    pub section: Option<Frame>,
    /// The body of a function, in the code section.
    pub body: Option<Frame>,
}

impl Frames {
    /// Those of a place between sections.
    pub(crate) const NONE: Frames = Frames {
        section: None,
        body: None,
    };
}

/// The production that a place has.
#[derive(Clone, Copy, Debug, PartialEq, Eq)]
pub(crate) enum Kind {
    /// An integer in LEB128.
    Integer,
    /// The size of a section.
    SectionSize,
    /// The size of a body.
    BodySize,
    /// The number of items of a list.
    Count,
    /// The number of functions or of bodies, and the first of these.
    Functions,
    /// The number of data segments, and the first of these.
    Segments,
    /// The number of data segments in the data count section.
    DataCount,
    /// A section that is not custom, with its identifier.
    Section,
    /// The function section or the code section.
    FunctionSection,
    /// The data count section.
    DataCountSection,
    /// The end of a section that is not custom, or of a body.
    ContentEnd,
    /// The bytes of a name, of which there are some.
    Name,
    /// A byte that chooses among forms.
    Flag,
    /// A type.
    Type,
    /// An instruction.
    Instruction,
    /// The `end` of an expression.
    End,
}

/// A place in a file, by offsets.
#[derive(Clone, Copy, Debug)]
pub(crate) struct Place {
    /// The offset of its first byte.
    pub start: usize,
    /// The offset after its last byte.
    pub end: usize,
    /// The number of bits of an integer, else 0.
    pub bits: u32,
    /// Whether it is a signed integer.
    pub signed: bool,
    /// The contents that it is in.
    pub frames: Frames,
}

/// A count of the places of a kind, which keeps the one at an index.
#[derive(Debug, Drop)]
pub(crate) struct Finder {
    kind: Kind,
    index: usize,
    seen: usize,
    found: Option<Place>,
}

impl Finder {
    /// Starts a count that keeps the place at `index` among those of `kind`.
    pub(crate) fn new(kind: Kind, index: usize) -> Self {
        Finder {
            kind,
            index,
            seen: 0,
            found: None,
        }
    }

    /// Counts `place`, if it is of the kind that is looked for.
    pub(crate) fn note(&mut self, kind: Kind, place: Place) {
        if kind != self.kind {
            return;
        }
        if self.seen == self.index {
            self.found = Some(place);
        }
        self.seen = self.seen.saturating_add(1);
    }

    /// Returns the number of places.
    pub(crate) fn seen(&self) -> usize {
        self.seen
    }

    /// Returns the place at the index, if there is one.
    pub(crate) fn found(&self) -> Option<Place> {
        self.found
    }
}
