ghost use Rattle.std.specs.Prelude.{◌≡◌, ◌++◌, ℕ, List, Option, map, IfOk, IfErr, OnOk};
ghost use Rattle.std.specs.List.{flat_map};
ghost use Rattle.smith_types.specs.Syntax.segments.ElementSegment.{ElementSegment as Segment};
ghost use Rattle.smith_types.specs.Syntax.const_instr.ConstInstr.{ConstInstr as Constant};
ghost use Rattle.smith_types.specs.Syntax.entity_type.ExportKind.{ExportKind as Kind};
ghost use Rattle.smith_program.specs.References.{
  exported_by,
  named_by,
  named_by_items,
  named_by_table,
  named_in,
  references_of,
};

use smith_bytes::Error;
use smith_types::{ConstInstr, ElementSegment, Elements, ExportKind, Items, Name, RefType};
use std::alloc::Global;
use wasm_smith::Module;

/// Lists the type of each element segment of `module`.
pub(crate) fn segment_types(alloc: Global, module: &Module) -> Result<Items<RefType>, Error>
    ensures types { IfOk result (λ types.
        types ≡ map (λ (segment : Segment). segment.ty) «module».now.elems) }
    ensures memory { IfErr result (λ e. e ≡ Error.Memory) }
{
    let mut types = Items::new(alloc);
    for segment in module.elems() {
        types.push(segment.ty)?;
    }
    Ok(types)
}

/// Lists the functions that `ref.func` may name in the bodies of `module`: those that the module
/// names elsewhere, some of them several times.
pub(crate) fn references_of(alloc: Global, module: &Module) -> Result<Items<u32>, Error>
    ensures references { IfOk result (λ references. references ≡ references_of «module».now) }
    ensures memory { IfErr result (λ e. e ≡ Error.Memory) }
{
    let mut named = Items::new(alloc);
    push_exported(module.exports(), &mut named)?;
    push_of_segments(module.elems(), &mut named)?;
    push_of_globals(module.defined_globals(), &mut named)?;
    push_of_tables(module.defined_tables(), &mut named)?;
    Ok(named)
}

fn push_exported(exports: &[(Name, ExportKind, u32)], named: &mut Items<u32>) -> Result<(), Error>
    ensures named { OnOk result (named.new ≡ named.old
        ++ flat_map (λ (export : List ℕ × Kind × ℕ). exported_by export.1 export.2) exports.now) }
    ensures memory { IfErr result (λ e. e ≡ Error.Memory) }
{
    for export in exports {
        push_export(export.1, export.2, named)?;
    }
    Ok(())
}

fn push_export(kind: ExportKind, index: u32, named: &mut Items<u32>) -> Result<(), Error>
    ensures named { OnOk result (named.new ≡ named.old ++ exported_by kind index) }
    ensures memory { IfErr result (λ e. e ≡ Error.Memory) }
{
    match kind {
        ExportKind::Func => named.push(index),
        _ => Ok(()),
    }
}

fn push_of_segments(segments: &[ElementSegment], named: &mut Items<u32>) -> Result<(), Error>
    ensures named { OnOk result (named.new ≡ named.old
        ++ flat_map (λ (segment : Segment). named_by_items segment.items) segments.now) }
    ensures memory { IfErr result (λ e. e ≡ Error.Memory) }
{
    for segment in segments {
        push_of_items(&segment.items, named)?;
    }
    Ok(())
}

fn push_of_items(items: &Elements, named: &mut Items<u32>) -> Result<(), Error>
    ensures named { OnOk result (named.new ≡ named.old ++ named_by_items items.now) }
    ensures memory { IfErr result (λ e. e ≡ Error.Memory) }
{
    match items {
        Elements::Functions(functions) => push_all(functions.as_slice(), named),
        Elements::Expressions(expressions) => push_of_expressions(expressions.as_slice(), named),
    }
}

fn push_of_globals(
    globals: &[(u32, Items<ConstInstr>)],
    named: &mut Items<u32>,
) -> Result<(), Error>
    ensures named { OnOk result (named.new
        ≡ named.old ++ flat_map (λ (global : ℕ × List Constant). named_in global.1) globals.now) }
    ensures memory { IfErr result (λ e. e ≡ Error.Memory) }
{
    for global in globals {
        push_of_expression(global.1.as_slice(), named)?;
    }
    Ok(())
}

fn push_of_tables(tables: &[Option<Items<ConstInstr>>], named: &mut Items<u32>) -> Result<(), Error>
    ensures named { OnOk result (named.new ≡ named.old ++ flat_map named_by_table tables.now) }
    ensures memory { IfErr result (λ e. e ≡ Error.Memory) }
{
    for table in tables {
        push_of_table(table, named)?;
    }
    Ok(())
}

fn push_of_table(table: &Option<Items<ConstInstr>>, named: &mut Items<u32>) -> Result<(), Error>
    ensures named { OnOk result (named.new ≡ named.old ++ named_by_table table.now) }
    ensures memory { IfErr result (λ e. e ≡ Error.Memory) }
{
    match table {
        Some(expression) => push_of_expression(expression.as_slice(), named),
        None => Ok(()),
    }
}

fn push_of_expressions(
    expressions: &[Items<ConstInstr>],
    named: &mut Items<u32>,
) -> Result<(), Error>
    ensures named { OnOk result (named.new ≡ named.old ++ flat_map named_in expressions.now) }
    ensures memory { IfErr result (λ e. e ≡ Error.Memory) }
{
    for expression in expressions {
        push_of_expression(expression.as_slice(), named)?;
    }
    Ok(())
}

fn push_of_expression(expression: &[ConstInstr], named: &mut Items<u32>) -> Result<(), Error>
    ensures named { OnOk result (named.new ≡ named.old ++ named_in expression.now) }
    ensures memory { IfErr result (λ e. e ≡ Error.Memory) }
{
    for instruction in expression {
        push_of_instruction(*instruction, named)?;
    }
    Ok(())
}

fn push_of_instruction(instruction: ConstInstr, named: &mut Items<u32>) -> Result<(), Error>
    ensures named { OnOk result (named.new ≡ named.old ++ named_by instruction) }
    ensures memory { IfErr result (λ e. e ≡ Error.Memory) }
{
    match instruction {
        ConstInstr::RefFunc(function) => named.push(function),
        _ => Ok(()),
    }
}

fn push_all(functions: &[u32], named: &mut Items<u32>) -> Result<(), Error>
    ensures named { OnOk result (named.new ≡ named.old ++ functions.now) }
    ensures memory { IfErr result (λ e. e ≡ Error.Memory) }
{
    for function in functions {
        named.push(*function)?;
    }
    Ok(())
}
