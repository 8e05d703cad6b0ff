/// A table instruction: the standard's section Structure, Table Instructions.
#[derive(Clone, Copy, Debug)]
pub enum TableInstr {
    /// `table.get` of a table.
    Get(u32),
    /// `table.set` of a table.
    Set(u32),
    /// `table.size` of a table.
    Size(u32),
    /// `table.grow` of a table.
    Grow(u32),
    /// `table.fill` of a table.
    Fill(u32),
    /// `table.copy` into the table `to` from the table `from`.
    Copy { to: u32, from: u32 },
    /// `table.init` of a table from an element segment.
    Init { table: u32, segment: u32 },
    /// `elem.drop` of an element segment.
    ElemDrop(u32),
}
