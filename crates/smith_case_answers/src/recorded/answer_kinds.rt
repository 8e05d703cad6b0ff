use smith_bytes::Error;
use std::alloc::Global;
use std::collections::BTreeMap;
use std::fmt;

/// The number of answers of each kind, in the order of their texts.
#[derive(Drop)]
pub(crate) struct AnswerKinds {
    counts: BTreeMap<String, u32>,
}

impl AnswerKinds {
    /// Creates counts without answers.
    pub(crate) fn new(alloc: Global) -> Self {
        AnswerKinds {
            counts: BTreeMap::new(alloc),
        }
    }

    /// Counts an answer of the kind `kind`.
    pub(crate) fn count(&mut self, kind: String) -> Result<(), Error> {
        let count = self.counts.entry(kind)?.or_insert(0);
        *count = count.saturating_add(1);
        Ok(())
    }
}

/// Writes the number and the text of each kind, each pair followed by a comma.
impl fmt::Display for AnswerKinds {
    fn fmt<W: fmt::Write>(&self, f: &mut fmt::Formatter<W>) -> fmt::Result {
        for (kind, count) in &self.counts {
            write!(f, "{count} {kind}, ")?;
        }
        Ok(())
    }
}
