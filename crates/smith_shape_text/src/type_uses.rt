use crate::fault::Fault;
use crate::names::Space;
use crate::reading::{Reading, Stage};
use smith_types::{CompositeInnerType, CompositeType, FuncType, Items, SubType};

// Returns the type of the parameters and results `signature`: final, and without a supertype.
fn plain_type(signature: FuncType) -> SubType {
    SubType {
        is_final: true,
        supertype: None,
        composite_type: CompositeType {
            inner: CompositeInnerType::Func(signature),
            shared: false,
        },
    }
}

impl Reading<'_> {
    /// Reads a type use, and returns the index of its type (Type Uses). Parameters and results
    /// after an index are read, but not compared with the type. Without an index, the type is the
    /// first with these parameters and results, or a new type after all others.
    pub(crate) fn type_use(&mut self) -> Result<u32, Fault> {
        if self.cursor.try_open(b"type") {
            let index = self.index(Space::Type)?;
            self.cursor.close()?;
            drop(self.signature()?);
            return Ok(index);
        }
        let signature = self.signature()?;
        if self.stage != Stage::Whole {
            drop(signature);
            return Ok(0);
        }
        self.index_of_signature(signature)
    }

    // Returns the index of the type of `signature`, which is new if there is none.
    fn index_of_signature(&mut self, signature: FuncType) -> Result<u32, Fault> {
        let (index, is_new) = self.signatures.index_of(self.alloc, &signature)?;
        if is_new {
            let mut group = Items::new(self.alloc);
            group.push(plain_type(signature))?;
            self.implicit.push(group)?;
        }
        Ok(index)
    }
}
