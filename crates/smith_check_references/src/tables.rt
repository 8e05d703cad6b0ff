ghost use Rattle.std.specs.Prelude.{◌≡◌, ℕ, List, IfOk, IfErr};
ghost use Rattle.smith_types.specs.Syntax.value_type.ValType.{ValType};
ghost use Rattle.smith_instr.specs.declared.instr.Instr.TheVariants as instr;
ghost use Rattle.smith_instr.specs.declared.table.TableInstr.TheVariants as table;
ghost use Rattle.smith_instr.specs.ReferenceTypes.{narrower};
ghost use Rattle.smith_check_rules.specs.Slots.{AreSlotsValid};
ghost use Rattle.smith_check_operands.specs.Applies.{IsTried};
ghost use Rattle.smith_check_operands.specs.Covers.{held};
ghost use Rattle.smith_check_operands.specs.Scopes.{bare, IsScope};

use crate::lookups::{elem_at, table_at};
use crate::offers::give;
use smith_bytes::Error;
use smith_check_operands::lookups::address_type;
use smith_check_operands::{Operands, Scope};
use smith_instr::TableInstr;
use smith_types::ValType;

/// Tries `table.get`.
fn table_get(operands: &mut Operands, scope: &Scope, index: u32) -> Result<bool, Error>
    requires known { AreSlotsValid (bare scope.now) operands.old.known.items }
    requires scope { IsScope (bare scope.now) }
    ensures ok { (labels : List (List ValType)) (set : List ℕ) → IfOk result
        (λ there. IsTried (bare scope.now) labels (instr.Table (table.Get index)) set there
        (held operands.old) (held operands.new)) }
    ensures memory { IfErr result (λ e. e ≡ Error.Memory) }
{
    let Some(table) = table_at(scope.tables, index) else {
        return Ok(false);
    };
    give(
        operands,
        scope,
        &[address_type(table.table64)],
        ValType::Ref(table.element_type),
    )
}

/// Tries `table.set`.
fn table_set(operands: &mut Operands, scope: &Scope, index: u32) -> Result<bool, Error>
    requires known { AreSlotsValid (bare scope.now) operands.old.known.items }
    requires scope { IsScope (bare scope.now) }
    ensures ok { (labels : List (List ValType)) (set : List ℕ) → IfOk result
        (λ there. IsTried (bare scope.now) labels (instr.Table (table.Set index)) set there
        (held operands.old) (held operands.new)) }
    ensures memory { IfErr result (λ e. e ≡ Error.Memory) }
{
    let Some(table) = table_at(scope.tables, index) else {
        return Ok(false);
    };
    let value = ValType::Ref(table.element_type);
    operands.apply(scope, &[address_type(table.table64), value], &[])
}

/// Tries `table.size`.
fn table_size(operands: &mut Operands, scope: &Scope, index: u32) -> Result<bool, Error>
    requires known { AreSlotsValid (bare scope.now) operands.old.known.items }
    ensures ok { (labels : List (List ValType)) (set : List ℕ) → IfOk result
        (λ there. IsTried (bare scope.now) labels (instr.Table (table.Size index)) set there
        (held operands.old) (held operands.new)) }
    ensures memory { IfErr result (λ e. e ≡ Error.Memory) }
{
    let Some(table) = table_at(scope.tables, index) else {
        return Ok(false);
    };
    operands.apply(scope, &[], &[address_type(table.table64)])
}

/// Tries `table.grow`.
fn table_grow(operands: &mut Operands, scope: &Scope, index: u32) -> Result<bool, Error>
    requires known { AreSlotsValid (bare scope.now) operands.old.known.items }
    requires scope { IsScope (bare scope.now) }
    ensures ok { (labels : List (List ValType)) (set : List ℕ) → IfOk result
        (λ there. IsTried (bare scope.now) labels (instr.Table (table.Grow index)) set there
        (held operands.old) (held operands.new)) }
    ensures memory { IfErr result (λ e. e ≡ Error.Memory) }
{
    let Some(table) = table_at(scope.tables, index) else {
        return Ok(false);
    };
    let address = address_type(table.table64);
    let value = ValType::Ref(table.element_type);
    operands.apply(scope, &[value, address], &[address])
}

/// Tries `table.fill`.
fn table_fill(operands: &mut Operands, scope: &Scope, index: u32) -> Result<bool, Error>
    requires known { AreSlotsValid (bare scope.now) operands.old.known.items }
    requires scope { IsScope (bare scope.now) }
    ensures ok { (labels : List (List ValType)) (set : List ℕ) → IfOk result
        (λ there. IsTried (bare scope.now) labels (instr.Table (table.Fill index)) set there
        (held operands.old) (held operands.new)) }
    ensures memory { IfErr result (λ e. e ≡ Error.Memory) }
{
    let Some(table) = table_at(scope.tables, index) else {
        return Ok(false);
    };
    let address = address_type(table.table64);
    let value = ValType::Ref(table.element_type);
    operands.apply(scope, &[address, value, address], &[])
}

/// Returns the type of the number of elements that are copied between two tables, whose addresses
/// are of 64 bits if `one` or `other` is `true` (Validation, Table Instructions, table.copy).
fn narrower_type(one: bool, other: bool) -> ValType
    ensures { result ≡ narrower one other }
{
    if one {
        address_type(other)
    } else {
        ValType::I32
    }
}

/// Tries `table.copy`.
fn table_copy(operands: &mut Operands, scope: &Scope, to: u32, from: u32) -> Result<bool, Error>
    requires known { AreSlotsValid (bare scope.now) operands.old.known.items }
    requires scope { IsScope (bare scope.now) }
    ensures ok { (labels : List (List ValType)) (set : List ℕ) → IfOk result
        (λ there. IsTried (bare scope.now) labels (instr.Table (table.Copy to from)) set there
        (held operands.old) (held operands.new)) }
    ensures memory { IfErr result (λ e. e ≡ Error.Memory) }
{
    let Some(into) = table_at(scope.tables, to) else {
        return Ok(false);
    };
    let Some(out) = table_at(scope.tables, from) else {
        return Ok(false);
    };
    if !scope
        .types
        .ref_type_is_sub_type(out.element_type, into.element_type)
    {
        return Ok(false);
    }
    let count = narrower_type(into.table64, out.table64);
    let target = address_type(into.table64);
    operands.apply(scope, &[target, address_type(out.table64), count], &[])
}

/// Tries `table.init`.
fn table_init(
    operands: &mut Operands,
    scope: &Scope,
    index: u32,
    segment: u32,
) -> Result<bool, Error>
    requires known { AreSlotsValid (bare scope.now) operands.old.known.items }
    requires scope { IsScope (bare scope.now) }
    ensures ok { (labels : List (List ValType)) (set : List ℕ) → IfOk result
        (λ there. IsTried (bare scope.now) labels (instr.Table (table.Init index segment)) set there
        (held operands.old) (held operands.new)) }
    ensures memory { IfErr result (λ e. e ≡ Error.Memory) }
{
    let Some(table) = table_at(scope.tables, index) else {
        return Ok(false);
    };
    let Some(held) = elem_at(scope.elems, segment) else {
        return Ok(false);
    };
    if !scope.types.ref_type_is_sub_type(held, table.element_type) {
        return Ok(false);
    }
    let address = address_type(table.table64);
    operands.apply(scope, &[address, ValType::I32, ValType::I32], &[])
}

/// Tries `elem.drop`.
fn elem_drop(operands: &mut Operands, scope: &Scope, segment: u32) -> Result<bool, Error>
    requires known { AreSlotsValid (bare scope.now) operands.old.known.items }
    ensures ok { (labels : List (List ValType)) (set : List ℕ) → IfOk result
        (λ there. IsTried (bare scope.now) labels (instr.Table (table.ElemDrop segment)) set there
        (held operands.old) (held operands.new)) }
    ensures memory { IfErr result (λ e. e ≡ Error.Memory) }
{
    if scope.elems.len() <= segment as usize {
        return Ok(false);
    }
    operands.apply(scope, &[], &[])
}

/// Tries a table instruction.
pub fn table(operands: &mut Operands, scope: &Scope, op: TableInstr) -> Result<bool, Error>
    requires known { AreSlotsValid (bare scope.now) operands.old.known.items }
    requires scope { IsScope (bare scope.now) }
    ensures ok { (labels : List (List ValType)) (set : List ℕ) → IfOk result
        (λ there. IsTried (bare scope.now) labels (instr.Table op) set there
        (held operands.old) (held operands.new)) }
    ensures memory { IfErr result (λ e. e ≡ Error.Memory) }
{
    match op {
        TableInstr::Get(index) => table_get(operands, scope, index),
        TableInstr::Set(index) => table_set(operands, scope, index),
        TableInstr::Size(index) => table_size(operands, scope, index),
        TableInstr::Grow(index) => table_grow(operands, scope, index),
        TableInstr::Fill(index) => table_fill(operands, scope, index),
        TableInstr::Copy { to, from } => table_copy(operands, scope, to, from),
        TableInstr::Init { table, segment } => table_init(operands, scope, table, segment),
        TableInstr::ElemDrop(segment) => elem_drop(operands, scope, segment),
    }
}
