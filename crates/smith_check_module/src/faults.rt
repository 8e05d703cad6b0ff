/// The parts of a module that are judged, apart from its types and the bodies of its functions, in the
/// order in which they are judged.
#[derive(Clone, Copy, Debug, PartialEq, Eq)]
pub enum Part {
    /// The types of the tags, imported ones first.
    Tags,
    /// The types of the functions, imported ones first.
    Functions,
    /// The types of the tables, imported ones first.
    Tables,
    /// The types of the memories, imported ones first.
    Memories,
    /// The types of the globals, imported ones first.
    Globals,
    /// The initialisers of the tables of the table section.
    TableInitials,
    /// The initialisers of the globals of the global section.
    GlobalInitials,
    /// The exports.
    Exports,
    /// The start function.
    Start,
    /// The element segments.
    Elements,
    /// The data segments.
    Datas,
}

/// An item of a module that is not valid.
#[derive(Clone, Copy, Debug, PartialEq, Eq)]
pub struct SectionFault {
    /// The part of the module.
    pub part: Part,
    /// The index of the item in the part, from 0. Entities are counted with imports.
    pub index: usize,
}
