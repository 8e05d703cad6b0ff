/// What a check says of the body of a function.
#[derive(Clone, Copy, Debug)]
pub enum Verdict {
    /// The body is typed (Validation, Functions).
    Typed,
    /// The body is not typed.
    Refused {
        /// The index of the first instruction up to which no typed body begins as this one does, or
        /// the number of instructions if more are missing.
        at: usize,
    },
}
