ghost use Rattle.std.specs.Prelude.{◌≡◌, ◌++◌, [], ◌∷◌, length, take, IfErr, OnOk, OnErr};
ghost use Rattle.smith_instr.specs.SetLocals.{is_among, IsNoted};

use smith_bytes::Error;
use std::alloc::Global;
use std::marker::Model;

/// The locals that are set at a point of a body, in the order in which instructions set them.
///
/// Checking whether a local is set takes constant time.
#[derive(Drop)]
pub struct SetLocals {
    /// The locals in the order in which they were set. A local may occur more than once.
    log: Vec<u32>,
    /// For each local that is set, the position of its first entry in `log`. The values of other
    /// locals have no meaning.
    first: Vec<usize>,
}

impl Model for SetLocals {
    ghost use Rattle.smith_instr.specs.SetLocals.{Entries, AreFirst};

    ghost Value = { Entries };

    ghost view = { λ a. record { items = a.log.items } };

    ghost invariant = { λ a. AreFirst a.log.items a.first.items };
}

impl SetLocals {
    /// Creates an empty list. Allocates from `alloc` only once locals are added.
    pub fn new(alloc: Global) -> Self
        ensures { result.items ≡ [] }
    {
        SetLocals {
            log: Vec::new(alloc),
            first: Vec::new(alloc),
        }
    }

    /// Returns the number of entries.
    pub fn len(&self) -> usize
        ensures { result ≡ length self.now.items }
    {
        self.log.len()
    }

    /// Returns whether the local `local` is set.
    pub fn contains(&self, local: usize) -> bool
        ensures { result ≡ is_among local self.now.items }
    {
        let Some(first) = self.first.get(local) else {
            return false;
        };
        match self.log.get(*first) {
            Some(entry) => *entry as usize == local,
            None => false,
        }
    }

    /// Appends an entry for the local `local`.
    pub fn push(&mut self, local: u32) -> Result<(), Error>
        ensures ok { OnOk result (self.new.items ≡ self.old.items ++ local ∷ []) }
        ensures err { OnErr result (self.new.items ≡ self.old.items) }
        ensures memory { IfErr result (λ e. e ≡ Error.Memory) }
    {
        if !self.contains(local as usize) {
            note_first(local, self.log.len(), &mut self.first)?;
        }
        self.log.push(local)?;
        Ok(())
    }

    /// Keeps only the first `height` entries.
    pub fn truncate(&mut self, height: usize)
        ensures { self.new.items ≡ take height self.old.items }
    {
        self.log.truncate(height);
    }
}

/// Writes `position` into `first` as the value of the local `local`. Grows `first` with zeros if it
/// has no value for this local.
fn note_first(local: u32, position: usize, first: &mut Vec<usize>) -> Result<(), Error>
    ensures ok { OnOk result (IsNoted local position first.old.items first.new.items) }
    ensures err { OnErr result (first.new.items ≡ first.old.items) }
    ensures memory { IfErr result (λ e. e ≡ Error.Memory) }
{
    let local = local as usize;
    if first.len() <= local {
        first.resize(local + 1, 0)?;
    }
    first[local] = position;
    Ok(())
}
