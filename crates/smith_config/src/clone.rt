ghost use Rattle.std.specs.Prelude.{◌≡◌, IsOk, IfOk, IfErr, OnOk, Ok, Err};
ghost use Rattle.smith_config.specs.InUse.{HasNoShapes};

use crate::{Config, Shape};
use smith_bytes::Error;
use smith_types::{CloneIn, Items};
use std::alloc::Global;

impl CloneIn for Shape {
    fn clone_in(&self, alloc: Global) -> Result<Shape, Error> {
        let mut copy = Shape::empty(alloc);
        copy_parts(self, alloc, &mut copy).and(Ok(copy))
    }
}

// Copies the parts of `shape` into `copy`.
fn copy_parts(shape: &Shape, alloc: Global, copy: &mut Shape) -> Result<(), Error>
    ensures ok { OnOk result (copy.new ≡ shape.now) }
    ensures memory { IfErr result (λ e. e ≡ Error.Memory) }
{
    put(shape.groups.clone_in(alloc), &mut copy.groups)?;
    put(shape.imports.clone_in(alloc), &mut copy.imports)?;
    put(shape.funcs.copy_in(alloc), &mut copy.funcs)?;
    put(shape.tags.copy_in(alloc), &mut copy.tags)?;
    put(shape.tables.copy_in(alloc), &mut copy.tables)?;
    put(shape.memories.copy_in(alloc), &mut copy.memories)?;
    put(shape.globals.copy_in(alloc), &mut copy.globals)?;
    put(shape.exports.clone_in(alloc), &mut copy.exports)
}

impl Shape {
    // Creates a shape without parts.
    fn empty(alloc: Global) -> Self {
        Shape {
            groups: Items::new(alloc),
            imports: Items::new(alloc),
            funcs: Items::new(alloc),
            tags: Items::new(alloc),
            tables: Items::new(alloc),
            memories: Items::new(alloc),
            globals: Items::new(alloc),
            exports: Items::new(alloc),
        }
    }

    /// Copies the shape into memory from `alloc`.
    pub fn clone(&self, alloc: Global) -> Result<Self, Error>
        ensures ok { IfOk result (λ copy. copy ≡ self.now) }
        ensures memory { IfErr result (λ e. e ≡ Error.Memory) }
    {
        self.clone_in(alloc)
    }
}

impl Config {
    /// Copies the configuration. Only its shapes allocate from `alloc`, so copying a configuration
    /// without shapes always succeeds.
    pub fn clone(&self, alloc: Global) -> Result<Self, Error>
        ensures ok { IfOk result (λ copy. copy ≡ self.now) }
        ensures memory { IfErr result (λ e. e ≡ Error.Memory) }
        ensures shapeless { HasNoShapes self.now → IsOk result }
    {
        let mut copy = Config {
            available_imports: None,
            exports: None,
            module_shape: None,
            ..*self
        };
        copy_shapes(self, alloc, &mut copy).and(Ok(copy))
    }
}

// Copies the shapes of `config` into `copy`.
fn copy_shapes(config: &Config, alloc: Global, copy: &mut Config) -> Result<(), Error>
    ensures ok { OnOk result (copy.new ≡ record copy.old {
      available_imports = config.now.available_imports;
      exports = config.now.exports;
      module_shape = config.now.module_shape;
    }) }
    ensures memory { IfErr result (λ e. e ≡ Error.Memory) }
    ensures shapeless { HasNoShapes config.now → IsOk result }
{
    put(
        copy_of(&config.available_imports, alloc),
        &mut copy.available_imports,
    )?;
    put(copy_of(&config.exports, alloc), &mut copy.exports)?;
    put(copy_of(&config.module_shape, alloc), &mut copy.module_shape)
}

// Puts the new value into `slot`.
fn put<T: Drop>(made: Result<T, Error>, slot: &mut T) -> Result<(), Error>
    ensures ok { OnOk result (made ≡ Ok slot.new) }
    ensures err { IfErr result (λ e. made ≡ Err e) }
    ensures succeeds { IsOk made → IsOk result }
{
    *slot = made?;
    Ok(())
}

fn copy_of(shape: &Option<Shape>, alloc: Global) -> Result<Option<Shape>, Error>
    ensures ok { IfOk result (λ copy. copy ≡ shape.now) }
    ensures memory { IfErr result (λ e. e ≡ Error.Memory) }
    ensures none { shape.now ≡ None → IsOk result }
{
    Ok(match shape {
        Some(shape) => Some(shape.clone(alloc)?),
        None => None,
    })
}
