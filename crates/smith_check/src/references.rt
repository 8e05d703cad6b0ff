ghost use Rattle.std.specs.Prelude.{◌≡◌, ◌++◌, IfOk, IfErr, OnOk};
ghost use Rattle.std.specs.List.{flat_map};
ghost use Rattle.smith_binary_read.specs.declared.exports.Export.{Export as Exported};
ghost use Rattle.smith_decode.specs.DataReadings.{mode_view as data_mode_view};
ghost use Rattle.smith_decode.specs.ElementReadings.{element_view, items_view, mode_view};
ghost use Rattle.smith_decode.specs.Modules.{syntax_of};
ghost use Rattle.smith_decode.specs.declared.data.DataSegment.{DataSegment as Data};
ghost use Rattle.smith_decode.specs.declared.definitions.GlobalDefinition.{GlobalDefinition as Variable};
ghost use Rattle.smith_decode.specs.declared.definitions.TableDefinition.{TableDefinition as Table};
ghost use Rattle.smith_decode.specs.declared.elements.ElementSegment.{ElementSegment as Element};
ghost use Rattle.smith_check.specs.References.{
  exported_by,
  named_by,
  named_by_data_mode,
  named_by_element,
  named_by_element_mode,
  named_in,
  references_of,
};

use smith_binary_read::Export;
use smith_bytes::Error;
use smith_decode::{
    DataMode, DataSegment, ElementItems, ElementMode, ElementSegment, GlobalDefinition, Module,
    TableDefinition,
};
use smith_instr::{Instr, ReferenceInstr};
use smith_types::{ExportKind, Items};
use std::alloc::Global;

/// Returns the functions that `ref.func` may name in the bodies of `module`: those that the module names
/// elsewhere, each as often as it is named.
pub(crate) fn references_of(alloc: Global, module: &Module) -> Result<Items<u32>, Error>
    ensures references { IfOk result (λ references.
        references ≡ references_of (syntax_of «module».now)) }
    ensures memory { IfErr result (λ e. e ≡ Error.Memory) }
{
    let mut named = Items::new(alloc);
    push_exported(module.exports.as_slice(), &mut named)?;
    push_of_tables(module.tables.as_slice(), &mut named)?;
    push_of_globals(module.globals.as_slice(), &mut named)?;
    push_of_elements(module.elements.as_slice(), &mut named)?;
    push_of_datas(module.datas.as_slice(), &mut named)?;
    Ok(named)
}

fn push_exported(exports: &[Export], named: &mut Items<u32>) -> Result<(), Error>
    ensures named { OnOk result (named.new ≡ named.old
        ++ flat_map (λ (item : Exported). exported_by item.kind item.index) exports.now) }
    ensures memory { IfErr result (λ e. e ≡ Error.Memory) }
{
    for export in exports {
        push_export(export.kind, export.index, named)?;
    }
    Ok(())
}

fn push_export(kind: ExportKind, index: u32, named: &mut Items<u32>) -> Result<(), Error>
    ensures named { OnOk result (named.new ≡ named.old ++ exported_by kind index) }
    ensures memory { IfErr result (λ e. e ≡ Error.Memory) }
{
    match kind {
        ExportKind::Func => named.push(index),
        _ => Ok(()),
    }
}

fn push_of_tables(tables: &[TableDefinition], named: &mut Items<u32>) -> Result<(), Error>
    ensures named { OnOk result (named.new ≡ named.old
        ++ flat_map (λ (table : Table). named_in table.initial) tables.now) }
    ensures memory { IfErr result (λ e. e ≡ Error.Memory) }
{
    for table in tables {
        push_of_expression(table.initial.as_slice(), named)?;
    }
    Ok(())
}

fn push_of_globals(globals: &[GlobalDefinition], named: &mut Items<u32>) -> Result<(), Error>
    ensures named { OnOk result (named.new ≡ named.old
        ++ flat_map (λ (global : Variable). named_in global.initial) globals.now) }
    ensures memory { IfErr result (λ e. e ≡ Error.Memory) }
{
    for global in globals {
        push_of_expression(global.initial.as_slice(), named)?;
    }
    Ok(())
}

fn push_of_elements(segments: &[ElementSegment], named: &mut Items<u32>) -> Result<(), Error>
    ensures named { OnOk result (named.new ≡ named.old
        ++ flat_map (λ (segment : Element). named_by_element (element_view segment)) segments.now) }
    ensures memory { IfErr result (λ e. e ≡ Error.Memory) }
{
    for segment in segments {
        push_of_items(&segment.items, named)?;
        push_of_element_mode(&segment.mode, named)?;
    }
    Ok(())
}

fn push_of_items(items: &ElementItems, named: &mut Items<u32>) -> Result<(), Error>
    ensures named { OnOk result (named.new
        ≡ named.old ++ flat_map named_in (items_view items.now)) }
    ensures memory { IfErr result (λ e. e ≡ Error.Memory) }
{
    match items {
        ElementItems::Functions(functions) => named.extend_from_slice(functions.as_slice()),
        ElementItems::Expressions(expressions) => push_of_expressions(
            expressions.as_slice(),
            named,
        ),
    }
}

fn push_of_element_mode(mode: &ElementMode, named: &mut Items<u32>) -> Result<(), Error>
    ensures named { OnOk result (named.new
        ≡ named.old ++ named_by_element_mode (mode_view mode.now)) }
    ensures memory { IfErr result (λ e. e ≡ Error.Memory) }
{
    match mode {
        ElementMode::Active { offset, .. } => push_of_expression(offset.as_slice(), named),
        _ => Ok(()),
    }
}

fn push_of_datas(segments: &[DataSegment], named: &mut Items<u32>) -> Result<(), Error>
    ensures named { OnOk result (named.new ≡ named.old
        ++ flat_map (λ (segment : Data). named_by_data_mode (data_mode_view segment.mode))
        segments.now) }
    ensures memory { IfErr result (λ e. e ≡ Error.Memory) }
{
    for segment in segments {
        push_of_data_mode(&segment.mode, named)?;
    }
    Ok(())
}

fn push_of_data_mode(mode: &DataMode, named: &mut Items<u32>) -> Result<(), Error>
    ensures named { OnOk result (named.new
        ≡ named.old ++ named_by_data_mode (data_mode_view mode.now)) }
    ensures memory { IfErr result (λ e. e ≡ Error.Memory) }
{
    match mode {
        DataMode::Active { offset, .. } => push_of_expression(offset.as_slice(), named),
        DataMode::Passive => Ok(()),
    }
}

fn push_of_expressions(expressions: &[Items<Instr>], named: &mut Items<u32>) -> Result<(), Error>
    ensures named { OnOk result (named.new ≡ named.old ++ flat_map named_in expressions.now) }
    ensures memory { IfErr result (λ e. e ≡ Error.Memory) }
{
    for expression in expressions {
        push_of_expression(expression.as_slice(), named)?;
    }
    Ok(())
}

fn push_of_expression(expression: &[Instr], named: &mut Items<u32>) -> Result<(), Error>
    ensures named { OnOk result (named.new ≡ named.old ++ named_in expression.now) }
    ensures memory { IfErr result (λ e. e ≡ Error.Memory) }
{
    for instruction in expression {
        push_of_instruction(instruction, named)?;
    }
    Ok(())
}

fn push_of_instruction(instruction: &Instr, named: &mut Items<u32>) -> Result<(), Error>
    ensures named { OnOk result (named.new ≡ named.old ++ named_by instruction.now) }
    ensures memory { IfErr result (λ e. e ≡ Error.Memory) }
{
    match instruction {
        Instr::Reference(ReferenceInstr::Func(function)) => named.push(*function),
        _ => Ok(()),
    }
}
