use smith_types::{Items, Name};

/// A custom section (Custom Section), and its place among the sections of a file without custom
/// sections.
#[derive(Debug, Drop)]
pub struct CustomSection {
    /// The number of sections of the file before it. If the file has fewer, it comes after the last.
    pub place: usize,
    /// The name.
    pub name: Name,
    /// The bytes after the name.
    pub bytes: Items<u8>,
}
