/// Returns what `table` has for the keyword `word`.
pub(crate) fn find<T: Copy>(table: &[(&str, T)], word: &[u8]) -> Option<T> {
    for (name, item) in table {
        if name.as_bytes() == word {
            return Some(*item);
        }
    }
    None
}
