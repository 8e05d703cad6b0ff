ghost use Rattle.std.specs.Prelude.{◌≡◌, ◌<◌, true, [], ◌∷◌, length, slice_get, Some, IfOk};
ghost use Rattle.std.specs.Prelude.{IfErr, IfSome};
ghost use Rattle.smith_bytes.specs.Source.{KeepsPieces};
ghost use Rattle.smith_types.specs.Subtyping.{IsValInRange};
ghost use Rattle.smith_types.specs.Syntax.entity_type.TableType.{TableType as Table};
ghost use Rattle.smith_types.specs.Syntax.value_type.ValType.TheVariants.{Ref};
ghost use Rattle.smith_instr.specs.Contexts.{IsValid};
ghost use Rattle.smith_body_nodes.specs.Chosen.{giving, or_nop};
ghost use Rattle.smith_body_nodes.specs.Nodes.{IsNode, IsOffer};
ghost use Rattle.smith_body_nodes.specs.Offered.{chunk_at};
ghost use Rattle.smith_body_nodes.specs.Scopes.{IsScope, bare, indexed, where_stands};
ghost use Rattle.smith_body_tables.specs.TableChoices.{elem_drop_at, held_table_at};
ghost use Rattle.smith_body_tables.specs.TableChoices.{is_table_addressed};
ghost use Rattle.smith_body_tables.specs.TableChoices.{is_table_below, table_change_at};
ghost use Rattle.smith_body_tables.specs.TableChoices.{table_changes, table_copied, table_copy_at};
ghost use Rattle.smith_body_tables.specs.TableChoices.{table_fill_node, table_get_at};
ghost use Rattle.smith_body_tables.specs.TableChoices.{table_growth_at, table_growth_node};
ghost use Rattle.smith_body_tables.specs.TableChoices.{table_init_at, table_initialized};
ghost use Rattle.smith_body_tables.specs.TableChoices.{table_set_node, table_value_at};

use smith_body_nodes::{
    Draft, Node, Offer, Scope, address, choose_in_chunk, choose_segment_below, draw_index,
    draw_item, indexed_count, is_address, is_sub_type, narrower, plain,
};
use smith_bytes::{Error, Unstructured};
use smith_draw_types::choose;
use smith_instr::{Instr, TableInstr};
use smith_types::{TableType, ValType, WasmFeatures};
use std::alloc::Global;

/// Statements on a table or an element segment.
#[derive(Clone, Copy)]
enum TableChange {
    Set,
    Fill,
    Copy,
    Init,
    ElemDrop,
}

fn table_changes<'a>() -> &'a [TableChange]
    ensures { result.now ≡ table_changes }
{
    &[
        TableChange::Set,
        TableChange::Fill,
        TableChange::Copy,
        TableChange::Init,
        TableChange::ElemDrop,
    ]
}

/// Tables whose element type matches a wanted type.
#[derive(Clone, Copy)]
struct TableOffer<'a> {
    scope: &'a Scope<'a>,
    wanted: ValType,
}

impl<'a> Offer for TableOffer<'a> {
    ghost use Rattle.std.specs.Prelude.{length};
    ghost use Rattle.smith_types.specs.Subtyping.{IsValInRange};
    ghost use Rattle.smith_body_nodes.specs.Scopes.{IsScope, bare, indexed};
    ghost use Rattle.smith_body_tables.specs.TableChoices.{is_table_below};

    ghost ready = { λ self.
        IsScope (bare self.scope.now) × IsValInRange (bare self.scope.now).types self.wanted };

    ghost size = { λ self. indexed (length self.scope.now.tables.now) };

    ghost test = { λ self index. is_table_below (bare self.scope.now) self.wanted index };

    fn count(&self) -> usize {
        indexed_count(self.scope.tables.len())
    }

    fn is_offered(&self, index: usize) -> bool {
        let held = ValType::Ref(self.scope.tables[index].element_type);
        is_sub_type(self.scope, held, self.wanted)
    }
}

/// Tables whose addresses have a wanted type, if reference types are on.
#[derive(Clone, Copy)]
struct TableAddressOffer<'a> {
    scope: &'a Scope<'a>,
    wanted: ValType,
}

impl<'a> Offer for TableAddressOffer<'a> {
    ghost use Rattle.std.specs.Prelude.{length};
    ghost use Rattle.smith_body_nodes.specs.Scopes.{bare, indexed};
    ghost use Rattle.smith_body_tables.specs.TableChoices.{is_table_addressed};

    ghost ready = { λ self. Unit {0} };

    ghost size = { λ self. indexed (length self.scope.now.tables.now) };

    ghost test = { λ self index. is_table_addressed (bare self.scope.now) self.wanted index };

    fn count(&self) -> usize {
        indexed_count(self.scope.tables.len())
    }

    fn is_offered(&self, index: usize) -> bool {
        has_references(self.scope) && is_address(self.wanted, self.scope.tables[index].table64)
    }
}

/// Returns whether reference types are on.
fn has_references(scope: &Scope<'_>) -> bool
    ensures { result ≡ (bare scope.now).features.reference_types }
{
    scope.features.contains(WasmFeatures::REFERENCE_TYPES)
}

/// Chooses a table instruction that produces a value of the type `wanted`.
pub fn choose_table_value(
    alloc: Global,
    scope: &Scope<'_>,
    wanted: ValType,
    draft: &Draft,
    u: &mut Unstructured<'_>,
) -> Result<Option<Node>, Error>
    requires scope { IsScope (bare scope.now) }
    requires wanted { IsValid (bare scope.now) wanted }
    ensures exact { IfOk result (λ chosen.
        table_value_at (where_stands scope.now draft.now) wanted u.old ≡ (chosen, u.new)) }
    ensures offer { IsOffer (where_stands scope.now draft.now) draft.now.set.items
        (wanted ∷ []) result }
    ensures memory { IfErr result (λ e. e ≡ Error.Memory) }
    ensures left { KeepsPieces u.old u.new }
{
    match wanted {
        ValType::Ref(_) => choose_table_get(alloc, scope, wanted, draft, u),
        _ => choose_table_growth(alloc, scope, wanted, draft, u),
    }
}

/// Chooses a table of a drawn chunk whose element type matches `wanted`, if there is one.
fn choose_table_below(scope: &Scope<'_>, wanted: ValType, u: &mut Unstructured<'_>) -> Option<u32>
    requires scope { IsScope (bare scope.now) }
    requires wanted { IsValInRange (bare scope.now).types wanted }
    ensures exact { chunk_at (is_table_below (bare scope.now) wanted)
        (indexed (length scope.now.tables.now)) u.old
        ≡ (result, u.new) }
    ensures below { IfSome result (λ index. index < length scope.now.tables.now) }
    ensures offered { IfSome result (λ index. is_table_below (bare scope.now) wanted index ≡ true) }
    ensures left { KeepsPieces u.old u.new }
{
    let index = choose_in_chunk(&TableOffer { scope, wanted }, u)?;
    Some(index as u32)
}

/// Chooses `table.get` of a table whose element type matches `wanted`.
fn choose_table_get(
    alloc: Global,
    scope: &Scope<'_>,
    wanted: ValType,
    draft: &Draft,
    u: &mut Unstructured<'_>,
) -> Result<Option<Node>, Error>
    requires scope { IsScope (bare scope.now) }
    requires wanted { IsValid (bare scope.now) wanted }
    ensures exact { IfOk result (λ chosen.
        table_get_at (where_stands scope.now draft.now) wanted u.old ≡ (chosen, u.new)) }
    ensures offer { IsOffer (where_stands scope.now draft.now) draft.now.set.items
        (wanted ∷ []) result }
    ensures memory { IfErr result (λ e. e ≡ Error.Memory) }
    ensures left { KeepsPieces u.old u.new }
{
    let Some(index) = choose_table_below(scope, wanted, u) else {
        return Ok(None);
    };
    let wide = scope.tables[index as usize].table64;
    let node = plain(
        alloc,
        &[address(wide)],
        Instr::Table(TableInstr::Get(index)),
        0,
    )?;
    Ok(Some(node))
}

/// Chooses a table of a drawn chunk whose addresses have the type `wanted`. Returns `None` without
/// reference types.
fn choose_table_addressed(
    scope: &Scope<'_>,
    wanted: ValType,
    u: &mut Unstructured<'_>,
) -> Option<u32>
    ensures exact { chunk_at (is_table_addressed (bare scope.now) wanted)
        (indexed (length scope.now.tables.now)) u.old
        ≡ (result, u.new) }
    ensures below { IfSome result (λ index. index < length scope.now.tables.now) }
    ensures offered { IfSome result (λ index.
        is_table_addressed (bare scope.now) wanted index ≡ true) }
    ensures left { KeepsPieces u.old u.new }
{
    let index = choose_in_chunk(&TableAddressOffer { scope, wanted }, u)?;
    Some(index as u32)
}

/// Chooses `table.size` or `table.grow` of a table whose addresses have the type `wanted`, if there
/// is one.
fn choose_table_growth(
    alloc: Global,
    scope: &Scope<'_>,
    wanted: ValType,
    draft: &Draft,
    u: &mut Unstructured<'_>,
) -> Result<Option<Node>, Error>
    requires scope { IsScope (bare scope.now) }
    ensures exact { IfOk result (λ chosen.
        table_growth_at (where_stands scope.now draft.now) wanted u.old ≡ (chosen, u.new)) }
    ensures offer { IsOffer (where_stands scope.now draft.now) draft.now.set.items
        (wanted ∷ []) result }
    ensures memory { IfErr result (λ e. e ≡ Error.Memory) }
    ensures left { KeepsPieces u.old u.new }
{
    let grown = u.arbitrary();
    let Some(index) = choose_table_addressed(scope, wanted, u) else {
        return Ok(None);
    };
    growth_of(alloc, scope, wanted, grown, index, draft)
}

/// Creates `table.grow` of the table `index` if `grown` is set, else `table.size`.
fn growth_of(
    alloc: Global,
    scope: &Scope<'_>,
    wanted: ValType,
    grown: bool,
    index: u32,
    draft: &Draft,
) -> Result<Option<Node>, Error>
    requires scope { IsScope (bare scope.now) }
    requires below { index < length scope.now.tables.now }
    requires addressed { is_table_addressed (bare scope.now) wanted index ≡ true }
    ensures exact { IfOk result (λ chosen.
        chosen ≡ table_growth_node (where_stands scope.now draft.now) wanted grown index) }
    ensures offer { IsOffer (where_stands scope.now draft.now) draft.now.set.items
        (wanted ∷ []) result }
    ensures memory { IfErr result (λ e. e ≡ Error.Memory) }
{
    if grown {
        let held = ValType::Ref(scope.tables[index as usize].element_type);
        let node = plain(
            alloc,
            &[held, wanted],
            Instr::Table(TableInstr::Grow(index)),
            0,
        )?;
        return Ok(Some(node));
    }
    let node = plain(alloc, &[], Instr::Table(TableInstr::Size(index)), 0)?;
    Ok(Some(node))
}

/// Chooses a statement on a table or an element segment.
pub fn choose_table_change(
    alloc: Global,
    scope: &Scope<'_>,
    draft: &Draft,
    u: &mut Unstructured<'_>,
) -> Result<Node, Error>
    requires scope { IsScope (bare scope.now) }
    ensures exact { IfOk result (λ node.
        or_nop (table_change_at (where_stands scope.now draft.now) u.old) ≡ (node, u.new)) }
    ensures node { IfOk result (IsNode (where_stands scope.now draft.now) draft.now.set.items []) }
    ensures memory { IfErr result (λ e. e ≡ Error.Memory) }
    ensures left { KeepsPieces u.old u.new }
{
    match choose(table_changes(), u) {
        TableChange::Set => choose_table_set(alloc, scope, draft, u),
        TableChange::Fill => choose_table_fill(alloc, scope, draft, u),
        TableChange::Copy => choose_table_copy(alloc, scope, draft, u),
        TableChange::Init => choose_table_init(alloc, scope, draft, u),
        TableChange::ElemDrop => choose_elem_drop(alloc, scope, draft, u),
    }
}

/// Draws a table, and returns it with its index. Returns `None` without reference types.
fn draw_held_table(scope: &Scope<'_>, u: &mut Unstructured<'_>) -> Option<(u32, TableType)>
    requires scope { IsScope (bare scope.now) }
    ensures exact { held_table_at (bare scope.now) u.old ≡ (result, u.new) }
    ensures there { IfSome result (λ table. slice_get scope.now.tables.now table.0 ≡ Some table.1) }
    ensures valid { IfSome result (λ table. IsValid (bare scope.now) (Ref table.1.element_type)) }
    ensures left { KeepsPieces u.old u.new }
{
    if !has_references(scope) {
        return None;
    }
    draw_item(scope.tables, u)
}

fn choose_table_set(
    alloc: Global,
    scope: &Scope<'_>,
    draft: &Draft,
    u: &mut Unstructured<'_>,
) -> Result<Node, Error>
    requires scope { IsScope (bare scope.now) }
    ensures exact { IfOk result (λ node.
        or_nop (giving table_set_node (held_table_at (where_stands scope.now draft.now) u.old))
        ≡ (node, u.new)) }
    ensures node { IfOk result (IsNode (where_stands scope.now draft.now) draft.now.set.items []) }
    ensures memory { IfErr result (λ e. e ≡ Error.Memory) }
    ensures left { KeepsPieces u.old u.new }
{
    let Some(into) = draw_held_table(scope, u) else {
        return plain(alloc, &[], Instr::Nop, 0);
    };
    let (index, table) = into;
    let operands = [address(table.table64), ValType::Ref(table.element_type)];
    plain(alloc, &operands, Instr::Table(TableInstr::Set(index)), 0)
}

fn choose_table_fill(
    alloc: Global,
    scope: &Scope<'_>,
    draft: &Draft,
    u: &mut Unstructured<'_>,
) -> Result<Node, Error>
    requires scope { IsScope (bare scope.now) }
    ensures exact { IfOk result (λ node.
        or_nop (giving table_fill_node (held_table_at (where_stands scope.now draft.now) u.old))
        ≡ (node, u.new)) }
    ensures node { IfOk result (IsNode (where_stands scope.now draft.now) draft.now.set.items []) }
    ensures memory { IfErr result (λ e. e ≡ Error.Memory) }
    ensures left { KeepsPieces u.old u.new }
{
    let Some(into) = draw_held_table(scope, u) else {
        return plain(alloc, &[], Instr::Nop, 0);
    };
    let (index, table) = into;
    let place = address(table.table64);
    let operands = [place, ValType::Ref(table.element_type), place];
    plain(alloc, &operands, Instr::Table(TableInstr::Fill(index)), 0)
}

fn choose_table_copy(
    alloc: Global,
    scope: &Scope<'_>,
    draft: &Draft,
    u: &mut Unstructured<'_>,
) -> Result<Node, Error>
    requires scope { IsScope (bare scope.now) }
    ensures exact { IfOk result (λ node.
        or_nop (table_copy_at (where_stands scope.now draft.now) u.old) ≡ (node, u.new)) }
    ensures node { IfOk result (IsNode (where_stands scope.now draft.now) draft.now.set.items []) }
    ensures memory { IfErr result (λ e. e ≡ Error.Memory) }
    ensures left { KeepsPieces u.old u.new }
{
    let Some(into) = draw_item(scope.tables, u) else {
        return plain(alloc, &[], Instr::Nop, 0);
    };
    copy_into(alloc, scope, into, draft, u)
}

/// Chooses a copy into the table `into`.
fn copy_into(
    alloc: Global,
    scope: &Scope<'_>,
    into: (u32, TableType),
    draft: &Draft,
    u: &mut Unstructured<'_>,
) -> Result<Node, Error>
    requires scope { IsScope (bare scope.now) }
    requires into { slice_get scope.now.tables.now into.0 ≡ Some into.1 }
    ensures exact { IfOk result (λ node.
        or_nop (table_copied (where_stands scope.now draft.now) into u.old) ≡ (node, u.new)) }
    ensures node { IfOk result (IsNode (where_stands scope.now draft.now) draft.now.set.items []) }
    ensures memory { IfErr result (λ e. e ≡ Error.Memory) }
    ensures left { KeepsPieces u.old u.new }
{
    let (to, table) = into;
    let Some(from) = choose_table_below(scope, ValType::Ref(table.element_type), u) else {
        return plain(alloc, &[], Instr::Nop, 0);
    };
    let wide = scope.tables[from as usize].table64;
    let operands = [
        address(table.table64),
        address(wide),
        narrower(table.table64, wide),
    ];
    plain(
        alloc,
        &operands,
        Instr::Table(TableInstr::Copy { to, from }),
        0,
    )
}

fn choose_table_init(
    alloc: Global,
    scope: &Scope<'_>,
    draft: &Draft,
    u: &mut Unstructured<'_>,
) -> Result<Node, Error>
    requires scope { IsScope (bare scope.now) }
    ensures exact { IfOk result (λ node.
        or_nop (table_init_at (where_stands scope.now draft.now) u.old) ≡ (node, u.new)) }
    ensures node { IfOk result (IsNode (where_stands scope.now draft.now) draft.now.set.items []) }
    ensures memory { IfErr result (λ e. e ≡ Error.Memory) }
    ensures left { KeepsPieces u.old u.new }
{
    let Some(into) = draw_item(scope.tables, u) else {
        return plain(alloc, &[], Instr::Nop, 0);
    };
    init_of(alloc, scope, into, draft, u)
}

/// Chooses an element segment to copy into the table `into`.
fn init_of(
    alloc: Global,
    scope: &Scope<'_>,
    into: (u32, TableType),
    draft: &Draft,
    u: &mut Unstructured<'_>,
) -> Result<Node, Error>
    requires scope { IsScope (bare scope.now) }
    requires into { slice_get scope.now.tables.now into.0 ≡ Some into.1 }
    ensures exact { IfOk result (λ node.
        or_nop (table_initialized (where_stands scope.now draft.now) into u.old) ≡ (node, u.new)) }
    ensures node { IfOk result (IsNode (where_stands scope.now draft.now) draft.now.set.items []) }
    ensures memory { IfErr result (λ e. e ≡ Error.Memory) }
    ensures left { KeepsPieces u.old u.new }
{
    let (index, table) = into;
    let Some(segment) = choose_segment_below(scope, ValType::Ref(table.element_type), u) else {
        return plain(alloc, &[], Instr::Nop, 0);
    };
    let operands = [address(table.table64), ValType::I32, ValType::I32];
    let instruction = Instr::Table(TableInstr::Init {
        table: index,
        segment,
    });
    plain(alloc, &operands, instruction, 0)
}

fn choose_elem_drop(
    alloc: Global,
    scope: &Scope<'_>,
    draft: &Draft,
    u: &mut Unstructured<'_>,
) -> Result<Node, Error>
    ensures exact { IfOk result (λ node.
        or_nop (elem_drop_at (where_stands scope.now draft.now) u.old) ≡ (node, u.new)) }
    ensures node { IfOk result (IsNode (where_stands scope.now draft.now) draft.now.set.items []) }
    ensures memory { IfErr result (λ e. e ≡ Error.Memory) }
    ensures left { KeepsPieces u.old u.new }
{
    let Some(segment) = draw_index(scope.elems.len(), u) else {
        return plain(alloc, &[], Instr::Nop, 0);
    };
    plain(alloc, &[], Instr::Table(TableInstr::ElemDrop(segment)), 0)
}
