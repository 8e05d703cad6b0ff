use smith_check_module::SectionFault;

/// The number of locals, parameters included, that a function may have to be judged.
pub const LOCALS: usize = 50_000;

/// What a check says of a module.
#[derive(Clone, Copy, Debug)]
pub enum Judgement {
    /// The module is valid (Validation, Modules).
    Valid,
    /// The module is not valid.
    Invalid(Fault),
    /// The module is not judged.
    NotJudged(Unjudged),
}

/// The first fault of a module: types come first, then the other sections in the order of
/// [`smith_check_module::Part`], then the bodies of functions in order.
#[derive(Clone, Copy, Debug)]
pub enum Fault {
    /// The types up to this group of the type section, the first that is wrong, are not valid
    /// (Validation, Types): one of its types has several supertypes, or breaks another rule.
    Types(usize),
    /// An item of another section is not valid (Validation, Modules).
    Section(SectionFault),
    /// The type of a run of locals is not valid (Validation, Locals). A run of no locals is.
    Local {
        /// The index of the body in the code section.
        body: usize,
        /// The index of the run in the body.
        run: usize,
    },
    /// A body is not typed (Validation, Functions).
    Body {
        /// The index of the body in the code section.
        body: usize,
        /// The index of the first instruction up to which no typed body begins as this one does, or
        /// the number of instructions if more are missing. It is 0 if there is no such body, or no
        /// type of its function.
        instruction: usize,
    },
}

/// Why a module is not judged.
#[derive(Clone, Copy, Debug)]
pub enum Unjudged {
    /// The module has 2^32 - 1 types or more.
    Types,
    /// A function has more than [`LOCALS`] locals, parameters included. The types and the other sections
    /// are valid, and so are the functions before it.
    Locals {
        /// The index of its body in the code section.
        body: usize,
    },
}
