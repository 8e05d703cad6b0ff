ghost use Rattle.smith_bytes.specs.ReadLaws.{DrawsReadWhatIsSpelled, ListsReadWhatIsSpelled};

/// States that from a piece that spells a bool, a number or a refusal, the draw returns that value
/// and leaves the bytes after the piece.
pub fn draws_read_what_is_spelled()
    ensures { DrawsReadWhatIsSpelled }
{}

/// States that from a piece that spells items of type `T`, a list grown by a draw of such items has
/// these items, and the bytes after the piece are left.
pub fn lists_read_what_is_spelled<T>()
    ensures { ListsReadWhatIsSpelled T }
{}
