ghost use Rattle.std.specs.Prelude.{◌≡◌};
ghost use Rattle.smith_judge.specs.Verdicts.{answer_number, gap_item};

use crate::finding::{Finding, Item};
use crate::words::Words;
use smith_binary_read::Reason;
use smith_check::Unjudged;
use std::fmt;

/// What is said of a file.
#[derive(Clone, Copy, Debug)]
pub enum Answer {
    /// The file is a valid module.
    Valid,
    /// The file is a module that is not valid, with its first fault.
    Invalid(Finding),
    /// The file is no module: the first fault is at the byte `offset`, counted from 0, and breaks the
    /// rule `reason`.
    Malformed { offset: usize, reason: Reason },
    /// The file is no module of the features that are on: the first item with a form of another feature
    /// begins at the byte `offset`, counted from 0.
    FeatureOff { offset: usize },
    /// The file is a module with a part that is not judged. All that is judged before it is valid.
    NotJudged(Gap),
}

/// What is not judged of a module.
#[derive(Clone, Copy, Debug)]
pub struct Gap {
    /// What it is, by its place in the sections of the file, and why.
    pub why: Unjudged,
    /// The index of the function, with imported functions first, or 0 if it is no function.
    pub index: usize,
    /// The offset in the file of the first type or the body, counted from 0.
    pub offset: usize,
}

impl Gap {
    /// Returns the kind of the item.
    pub fn item(&self) -> Item
        ensures { result ≡ gap_item self.now.why }
    {
        match self.why {
            Unjudged::Types => Item::Types,
            Unjudged::Locals { .. } => Item::Function,
        }
    }
}

impl Answer {
    /// Returns the number of the kind of the answer: 0 for a valid file, 1 for an invalid one, 2 for one
    /// that is no module of the features, and 3 for one that is not judged.
    pub fn number(&self) -> u32
        ensures { result ≡ answer_number self.now }
    {
        match self {
            Answer::Valid => 0,
            Answer::Invalid(_) => 1,
            Answer::Malformed { .. } | Answer::FeatureOff { .. } => 2,
            Answer::NotJudged(_) => 3,
        }
    }

    /// Returns the kind of the answer in words.
    pub fn name(&self) -> &'static str {
        match self {
            Answer::Valid => "valid",
            Answer::Invalid(_) => "invalid",
            Answer::Malformed { .. } | Answer::FeatureOff { .. } => "malformed",
            Answer::NotJudged(_) => "not judged",
        }
    }
}

/// The answer in words, in one line, without the name of an instruction, and without the types concerned. [`Words`] has them too.
impl fmt::Display for Answer {
    fn fmt<W: fmt::Write>(&self, f: &mut fmt::Formatter<W>) -> fmt::Result {
        let words = Words {
            answer: self,
            keyword: "",
            cause: "",
        };
        write!(f, "{words}")
    }
}
