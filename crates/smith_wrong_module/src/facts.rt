ghost use Rattle.std.specs.Prelude.{◌≡◌, IfErr};

use smith_bytes::Error;
use smith_decode::{Body, LocalRun, Module};
use smith_instr::Instr;
use smith_types::{
    CompositeInnerType, EntitySpaces, EntityType, FuncType, SubType, ValType, imported_spaces_of,
};
use std::alloc::Global;

/// The index spaces of a module.
#[derive(Drop)]
pub(crate) struct Facts<'a> {
    /// The types.
    pub types: Vec<&'a SubType>,
    /// The entities, imported ones first.
    pub spaces: EntitySpaces,
    /// The number of imported globals.
    pub imported_globals: usize,
    /// The number of element segments.
    pub elements: usize,
    /// The number of data segments.
    pub datas: usize,
}

/// The locals of a function, with the parameters.
#[derive(Clone, Copy)]
pub(crate) struct Locals {
    /// The number of locals.
    pub count: u64,
    /// The first local of the first run of locals that have no default value.
    pub unset_start: u64,
    /// The first local after this run.
    pub unset_end: u64,
}

/// The body of a function, and what its instructions refer to.
#[derive(Clone, Copy)]
pub(crate) struct Scope<'f, 'a> {
    /// The index spaces of the module.
    pub facts: &'f Facts<'a>,
    /// The locals.
    pub locals: Locals,
    /// The instructions.
    pub instructions: &'a [Instr],
}

// Appends the types of `group`.
fn push_group<'a>(types: &mut Vec<&'a SubType>, group: &'a [SubType]) -> Result<(), Error>
    ensures memory { IfErr result (λ e. e ≡ Error.Memory) }
{
    for ty in group {
        types.push(ty)?;
    }
    Ok(())
}

// Returns the types of all groups.
fn types_of<'a>(alloc: Global, module: &'a Module) -> Result<Vec<&'a SubType>, Error>
    ensures memory { IfErr result (λ e. e ≡ Error.Memory) }
{
    let mut types = Vec::new(alloc);
    for group in module.types.as_slice() {
        push_group(&mut types, group.as_slice())?;
    }
    Ok(types)
}

// Appends the functions and tags of `module`.
fn push_typed(spaces: &mut EntitySpaces, module: &Module) -> Result<(), Error>
    ensures memory { IfErr result (λ e. e ≡ Error.Memory) }
{
    for ty in module.functions.as_slice() {
        spaces.push(EntityType::Func(*ty))?;
    }
    for tag in module.tags.as_slice() {
        spaces.push(EntityType::Tag(tag.0))?;
    }
    Ok(())
}

// Appends the tables, memories and globals of `module`.
fn push_others(spaces: &mut EntitySpaces, module: &Module) -> Result<(), Error>
    ensures memory { IfErr result (λ e. e ≡ Error.Memory) }
{
    for table in module.tables.as_slice() {
        spaces.push(EntityType::Table(table.ty))?;
    }
    for memory in module.memories.as_slice() {
        spaces.push(EntityType::Memory(*memory))?;
    }
    for global in module.globals.as_slice() {
        spaces.push(EntityType::Global(global.ty))?;
    }
    Ok(())
}

impl<'a> Facts<'a> {
    /// Lists the index spaces of `module`.
    pub fn new(alloc: Global, module: &'a Module) -> Result<Facts<'a>, Error>
        ensures memory { IfErr result (λ e. e ≡ Error.Memory) }
    {
        let types = types_of(alloc, module)?;
        let mut spaces = imported_spaces_of(alloc, module.imports.as_slice())?;
        let imported_globals = spaces.globals.len();
        push_typed(&mut spaces, module)?;
        push_others(&mut spaces, module)?;
        Ok(Facts {
            types,
            spaces,
            imported_globals,
            elements: module.elements.len(),
            datas: module.datas.len(),
        })
    }

    /// Returns the function type at `index`, if there is one.
    pub fn function_type(&self, index: u32) -> Option<&'a FuncType> {
        match &self
            .types
            .as_slice()
            .get(index as usize)?
            .composite_type
            .inner
        {
            CompositeInnerType::Func(ty) => Some(ty),
            _ => None,
        }
    }
}

// Returns whether a local of the type `ty` has no default value.
fn is_unset(ty: ValType) -> bool {
    match ty {
        ValType::Ref(ty) => !ty.nullable,
        _ => false,
    }
}

// Returns the locals of a function with so many parameters.
fn locals_of(params: usize, runs: &[LocalRun]) -> Locals {
    let mut locals = Locals {
        count: params as u64,
        unset_start: 0,
        unset_end: 0,
    };
    for run in runs {
        let end = locals.count.saturating_add(u64::from(run.count));
        if is_unset(run.ty) && locals.unset_end == 0 {
            locals.unset_start = locals.count;
            locals.unset_end = end;
        }
        locals.count = end;
    }
    locals
}

impl<'f, 'a> Scope<'f, 'a> {
    /// Returns the scope of `body`, the one at `index` of `module`.
    pub fn new(
        facts: &'f Facts<'a>,
        module: &'a Module,
        index: usize,
        body: &'a Body,
    ) -> Scope<'f, 'a> {
        let ty = match module.functions.as_slice().get(index) {
            Some(ty) => facts.function_type(*ty),
            None => None,
        };
        let params = match ty {
            Some(ty) => ty.params.len(),
            None => 0,
        };
        Scope {
            facts,
            locals: locals_of(params, body.locals.as_slice()),
            instructions: body.instructions.as_slice(),
        }
    }

    /// Returns the number of labels at the instruction `index`, of the blocks around it and of the body, but
    /// at least two: where there is one alone, the other is past the end.
    pub fn label_count(&self, index: usize) -> u64 {
        let mut count: u64 = 1;
        for instruction in self.instructions.iter().take(index) {
            match instruction {
                Instr::Block(_) | Instr::Loop(_) | Instr::If(_) | Instr::TryTable(_, _) => {
                    count = count.saturating_add(1);
                }
                Instr::End => count = count.saturating_sub(1),
                _ => {}
            }
        }
        count.max(2)
    }
}
