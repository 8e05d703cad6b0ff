/// An index space (Conventions, Contexts).
#[derive(Clone, Copy)]
pub(crate) enum IndexKind {
    Local,
    Global,
    Function,
    Type,
    Label,
    Memory,
    Table,
    Element,
    Data,
    Field,
    Tag,
}

impl IndexKind {
    /// All index spaces.
    pub const ALL: [IndexKind; 11] = [
        IndexKind::Local,
        IndexKind::Global,
        IndexKind::Function,
        IndexKind::Type,
        IndexKind::Label,
        IndexKind::Memory,
        IndexKind::Table,
        IndexKind::Element,
        IndexKind::Data,
        IndexKind::Field,
        IndexKind::Tag,
    ];
}

/// A choice of another index.
#[derive(Clone, Copy)]
pub(crate) enum Pick {
    /// An index past the end of the space, by as many.
    PastEnd(u8),
    /// An index in the space, after the old one by as many and one, round the end.
    Other(u32),
}

impl Pick {
    /// Returns the index in place of `own` in a space of `count` indices, if there is one.
    pub fn index(self, own: u32, count: u64) -> Option<u32> {
        match self {
            Pick::PastEnd(by) => u32::try_from(count.saturating_add(u64::from(by))).ok(),
            Pick::Other(by) => {
                if count < 2 {
                    return None;
                }
                let step = u64::from(by) % (count - 1);
                let index = (u64::from(own).saturating_add(1).saturating_add(step)) % count;
                u32::try_from(index).ok()
            }
        }
    }
}
