ghost use Rattle.std.specs.Prelude.{◌≡◌, ◌↔◌, ◌<◌, ◌+◌, IsTrue, IfOk, IfErr, slice_get, length};
ghost use Rattle.smith_validity.specs.Decided.{count_at};
ghost use Rattle.smith_decode.specs.Modules.{syntax_of};
ghost use Rattle.smith_check_module.specs.Contexts.{spaces_of};
ghost use Rattle.smith_judge.specs.Rules.{
  body_rule,
  defined_count,
  export_rule,
  fault_rule,
  instr_rule,
  kind_rule,
  part_rule,
  rule_number,
  types_rule,
};

use crate::origins::imported_count;
use crate::wording::wording_of;
use smith_binary_read::Export;
use smith_bytes::Error;
use smith_check::{Fault, is_single};
use smith_check_module::Part;
use smith_decode::{Body, Module};
use smith_instr::Instr;
use smith_types::{ExportKind, InstructionKind, Items};
use std::alloc::Global;

/// A rule of the chapter Validation of the standard, as far as a fault says which one it breaks: that of
/// an item of a section, or that of the kind of an instruction.
#[derive(Clone, Copy, Debug, PartialEq, Eq)]
pub enum Rule {
    /// Of a recursive group of types.
    Types = 1,
    /// Of the type of a tag.
    Tag = 2,
    /// Of the type of a function.
    Function = 3,
    /// Of the type of a table.
    Table = 4,
    /// Of the type of a memory.
    Memory = 5,
    /// Of the type of a global.
    Global = 6,
    /// Of the initialiser of a table.
    TableInitial = 7,
    /// Of the initialiser of a global.
    GlobalInitial = 8,
    /// That an export names an entity that is there.
    Export = 9,
    /// That the names of exports differ.
    ExportName = 10,
    /// Of the start function.
    Start = 11,
    /// Of an element segment.
    Element = 12,
    /// Of a data segment.
    Data = 13,
    /// Of the types of locals.
    Local = 14,
    /// Of numeric instructions.
    NumericInstruction = 15,
    /// Of vector instructions.
    VectorInstruction = 16,
    /// Of reference instructions.
    ReferenceInstruction = 17,
    /// Of parametric instructions.
    ParametricInstruction = 18,
    /// Of variable instructions.
    VariableInstruction = 19,
    /// Of table instructions.
    TableInstruction = 20,
    /// Of memory instructions, atomic ones among them.
    MemoryInstruction = 21,
    /// Of aggregate instructions.
    AggregateInstruction = 22,
    /// Of control instructions, `else` and `end` aside.
    ControlInstruction = 23,
    /// Of the end of a block or a body: `else` and `end`.
    End = 24,
    /// That a type has one supertype at most.
    Supertypes = 25,
}

impl Rule {
    /// Returns the number of the rule, from 1 on. Later versions append rules and renumber none.
    pub fn number(self) -> u32
        ensures { result ≡ rule_number self }
    {
        self as u32
    }

    /// Returns the name of the rule, in lower case and with hyphens.
    pub fn name(self) -> &'static str {
        wording_of(self).name
    }

    /// Returns the section of the chapter Validation that has the rule.
    pub fn section(self) -> &'static str {
        wording_of(self).section
    }

    /// Returns what is wrong if the rule is broken, in words.
    pub fn sentence(self) -> &'static str {
        wording_of(self).sentence
    }
}

// Returns the rule of instructions of the kind `kind`.
fn kind_rule(kind: InstructionKind) -> Rule
    ensures { result ≡ kind_rule kind }
{
    match kind {
        InstructionKind::NumericInt | InstructionKind::Numeric => Rule::NumericInstruction,
        InstructionKind::VectorInt | InstructionKind::Vector => Rule::VectorInstruction,
        InstructionKind::Reference => Rule::ReferenceInstruction,
        InstructionKind::Parametric => Rule::ParametricInstruction,
        InstructionKind::Variable => Rule::VariableInstruction,
        InstructionKind::Table => Rule::TableInstruction,
        InstructionKind::MemoryInt | InstructionKind::Memory => Rule::MemoryInstruction,
        InstructionKind::Control => Rule::ControlInstruction,
        InstructionKind::Aggregate => Rule::AggregateInstruction,
    }
}

// Returns the rule of `instruction`.
fn instr_rule(instruction: &Instr) -> Rule
    ensures { result ≡ instr_rule instruction.now }
{
    match instruction {
        Instr::Else | Instr::End => Rule::End,
        _ => kind_rule(instruction.kind()),
    }
}

// Returns the rule of the instruction at `index` of the body at `body`, or of the last `end` if there is
// none.
fn body_rule(bodies: &[Body], body: usize, index: usize) -> Rule
    ensures { result ≡ body_rule (slice_get bodies.now body) index }
{
    let Some(body) = bodies.get(body) else {
        return Rule::End;
    };
    match body.instructions.as_slice().get(index) {
        Some(instruction) => instr_rule(instruction),
        None => Rule::End,
    }
}

// Returns the number of entities of the kind `kind` that `module` defines.
fn defined_count(module: &Module, kind: ExportKind) -> usize
    ensures { result ≡ defined_count «module».now kind }
{
    match kind {
        ExportKind::Func => module.functions.len(),
        ExportKind::Table => module.tables.len(),
        ExportKind::Memory => module.memories.len(),
        ExportKind::Global => module.globals.len(),
        ExportKind::Tag => module.tags.len(),
    }
}

// Returns whether there is what `export` names.
fn is_there(alloc: Global, module: &Module, export: &Export) -> Result<bool, Error>
    ensures ok { IfOk result (λ there. IsTrue there
        ↔ (export.now.index < count_at (spaces_of (syntax_of «module».now)) export.now.kind)) }
    ensures memory { IfErr result (λ e. e ≡ Error.Memory) }
{
    let imported = imported_count(alloc, module.imports.as_slice(), export.kind)?;
    let index = export.index as usize;
    Ok(index < imported || index - imported < defined_count(module, export.kind))
}

// Returns the rule that the export at `index`, which is not valid, breaks: that of its name if there is
// what it names.
fn export_rule(alloc: Global, module: &Module, index: usize) -> Result<Rule, Error>
    ensures ok { IfOk result (λ rule.
        rule ≡ export_rule «module».now (slice_get «module».now.exports index)) }
    ensures memory { IfErr result (λ e. e ≡ Error.Memory) }
{
    let Some(export) = module.exports.as_slice().get(index) else {
        return Ok(Rule::Export);
    };
    let is_there = is_there(alloc, module, export)?;
    if is_there {
        Ok(Rule::ExportName)
    } else {
        Ok(Rule::Export)
    }
}

// Returns the rule that the item at `index` of a part breaks.
fn part_rule(alloc: Global, module: &Module, part: Part, index: usize) -> Result<Rule, Error>
    ensures ok { IfOk result (λ rule. rule ≡ part_rule «module».now part index) }
    ensures memory { IfErr result (λ e. e ≡ Error.Memory) }
{
    match part {
        Part::Tags => Ok(Rule::Tag),
        Part::Functions => Ok(Rule::Function),
        Part::Tables => Ok(Rule::Table),
        Part::Memories => Ok(Rule::Memory),
        Part::Globals => Ok(Rule::Global),
        Part::TableInitials => Ok(Rule::TableInitial),
        Part::GlobalInitials => Ok(Rule::GlobalInitial),
        Part::Exports => export_rule(alloc, module, index),
        Part::Start => Ok(Rule::Start),
        Part::Elements => Ok(Rule::Element),
        Part::Datas => Ok(Rule::Data),
    }
}

// Returns the rule that the wrong group at `index` breaks: that of the number of supertypes if a type has
// several. The groups are given by the supertypes of each type after its first.
fn types_rule(groups: &[Items<Items<u32>>], index: usize) -> Rule
    ensures { result ≡ types_rule (slice_get groups.now index) }
{
    let Some(group) = groups.get(index) else {
        return Rule::Types;
    };
    if is_single(group.as_slice()) {
        Rule::Types
    } else {
        Rule::Supertypes
    }
}

/// Returns the rule that `fault` of `module` breaks.
pub fn rule_of(alloc: Global, module: &Module, fault: Fault) -> Result<Rule, Error>
    ensures ok { IfOk result (λ rule. rule ≡ fault_rule «module».now fault) }
    ensures memory { IfErr result (λ e. e ≡ Error.Memory) }
{
    match fault {
        Fault::Types(group) => Ok(types_rule(module.further_supertypes.as_slice(), group)),
        Fault::Section(item) => part_rule(alloc, module, item.part, item.index),
        Fault::Local { .. } => Ok(Rule::Local),
        Fault::Body { body, instruction } => {
            Ok(body_rule(module.bodies.as_slice(), body, instruction))
        }
    }
}
