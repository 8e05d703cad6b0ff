ghost use Rattle.std.specs.Prelude.{◌≡◌, ◌-◌, ◌<◌, [], ◌∷◌, IfOk, IfErr};
ghost use Rattle.smith_bytes.specs.Source.{KeepsPieces};
ghost use Rattle.smith_instr.specs.Contexts.{IsValid};
ghost use Rattle.smith_instr.specs.MemoryTypes.{atomic_width};
ghost use Rattle.smith_body_memory.specs.AtomicChoices.{atomic_at, atomic_node, atomic_store_at};
ghost use Rattle.smith_body_memory.specs.AtomicRows.{atomic_bytes, atomic_rows, atomic_widths};
ghost use Rattle.smith_body_memory.specs.AtomicRows.{i32_atomic_rows, i64_atomic_rows};
ghost use Rattle.smith_body_nodes.specs.Chosen.{or_nop};
ghost use Rattle.smith_body_nodes.specs.Nodes.{IsNode, IsOffer};
ghost use Rattle.smith_body_nodes.specs.Scopes.{IsScope, bare, where_stands};

use crate::memories::{Access, draw_access};
use smith_body_nodes::{Draft, Node, Scope, address, plain};
use smith_bytes::{Error, Unstructured};
use smith_draw_types::choose;
use smith_instr::{AtomicAccess, AtomicUpdate, AtomicWidth, Instr, MemArg};
use smith_types::ValType;
use std::alloc::Global;

/// Lists the atomic accesses that produce a value of the type `wanted`.
fn atomic_rows<'a>(wanted: ValType) -> &'a [AtomicAccess]
    ensures { result.now ≡ atomic_rows wanted }
{
    match wanted {
        ValType::I32 => i32_atomic_rows(),
        ValType::I64 => i64_atomic_rows(),
        ValType::F32 | ValType::F64 | ValType::V128 | ValType::Ref(_) => &[],
    }
}

fn i32_atomic_rows<'a>() -> &'a [AtomicAccess]
    ensures { result.now ≡ i32_atomic_rows }
{
    &[
        AtomicAccess::Notify,
        AtomicAccess::Wait32,
        AtomicAccess::Wait64,
        AtomicAccess::Load(AtomicWidth::I32),
        AtomicAccess::Load(AtomicWidth::I32Of8),
        AtomicAccess::Load(AtomicWidth::I32Of16),
        AtomicAccess::Update(AtomicUpdate::Add, AtomicWidth::I32),
        AtomicAccess::Update(AtomicUpdate::Add, AtomicWidth::I32Of8),
        AtomicAccess::Update(AtomicUpdate::Add, AtomicWidth::I32Of16),
        AtomicAccess::Update(AtomicUpdate::Sub, AtomicWidth::I32),
        AtomicAccess::Update(AtomicUpdate::Sub, AtomicWidth::I32Of8),
        AtomicAccess::Update(AtomicUpdate::Sub, AtomicWidth::I32Of16),
        AtomicAccess::Update(AtomicUpdate::And, AtomicWidth::I32),
        AtomicAccess::Update(AtomicUpdate::And, AtomicWidth::I32Of8),
        AtomicAccess::Update(AtomicUpdate::And, AtomicWidth::I32Of16),
        AtomicAccess::Update(AtomicUpdate::Or, AtomicWidth::I32),
        AtomicAccess::Update(AtomicUpdate::Or, AtomicWidth::I32Of8),
        AtomicAccess::Update(AtomicUpdate::Or, AtomicWidth::I32Of16),
        AtomicAccess::Update(AtomicUpdate::Xor, AtomicWidth::I32),
        AtomicAccess::Update(AtomicUpdate::Xor, AtomicWidth::I32Of8),
        AtomicAccess::Update(AtomicUpdate::Xor, AtomicWidth::I32Of16),
        AtomicAccess::Update(AtomicUpdate::Exchange, AtomicWidth::I32),
        AtomicAccess::Update(AtomicUpdate::Exchange, AtomicWidth::I32Of8),
        AtomicAccess::Update(AtomicUpdate::Exchange, AtomicWidth::I32Of16),
        AtomicAccess::CompareExchange(AtomicWidth::I32),
        AtomicAccess::CompareExchange(AtomicWidth::I32Of8),
        AtomicAccess::CompareExchange(AtomicWidth::I32Of16),
    ]
}

fn i64_atomic_rows<'a>() -> &'a [AtomicAccess]
    ensures { result.now ≡ i64_atomic_rows }
{
    &[
        AtomicAccess::Load(AtomicWidth::I64),
        AtomicAccess::Load(AtomicWidth::I64Of8),
        AtomicAccess::Load(AtomicWidth::I64Of16),
        AtomicAccess::Load(AtomicWidth::I64Of32),
        AtomicAccess::Update(AtomicUpdate::Add, AtomicWidth::I64),
        AtomicAccess::Update(AtomicUpdate::Add, AtomicWidth::I64Of8),
        AtomicAccess::Update(AtomicUpdate::Add, AtomicWidth::I64Of16),
        AtomicAccess::Update(AtomicUpdate::Add, AtomicWidth::I64Of32),
        AtomicAccess::Update(AtomicUpdate::Sub, AtomicWidth::I64),
        AtomicAccess::Update(AtomicUpdate::Sub, AtomicWidth::I64Of8),
        AtomicAccess::Update(AtomicUpdate::Sub, AtomicWidth::I64Of16),
        AtomicAccess::Update(AtomicUpdate::Sub, AtomicWidth::I64Of32),
        AtomicAccess::Update(AtomicUpdate::And, AtomicWidth::I64),
        AtomicAccess::Update(AtomicUpdate::And, AtomicWidth::I64Of8),
        AtomicAccess::Update(AtomicUpdate::And, AtomicWidth::I64Of16),
        AtomicAccess::Update(AtomicUpdate::And, AtomicWidth::I64Of32),
        AtomicAccess::Update(AtomicUpdate::Or, AtomicWidth::I64),
        AtomicAccess::Update(AtomicUpdate::Or, AtomicWidth::I64Of8),
        AtomicAccess::Update(AtomicUpdate::Or, AtomicWidth::I64Of16),
        AtomicAccess::Update(AtomicUpdate::Or, AtomicWidth::I64Of32),
        AtomicAccess::Update(AtomicUpdate::Xor, AtomicWidth::I64),
        AtomicAccess::Update(AtomicUpdate::Xor, AtomicWidth::I64Of8),
        AtomicAccess::Update(AtomicUpdate::Xor, AtomicWidth::I64Of16),
        AtomicAccess::Update(AtomicUpdate::Xor, AtomicWidth::I64Of32),
        AtomicAccess::Update(AtomicUpdate::Exchange, AtomicWidth::I64),
        AtomicAccess::Update(AtomicUpdate::Exchange, AtomicWidth::I64Of8),
        AtomicAccess::Update(AtomicUpdate::Exchange, AtomicWidth::I64Of16),
        AtomicAccess::Update(AtomicUpdate::Exchange, AtomicWidth::I64Of32),
        AtomicAccess::CompareExchange(AtomicWidth::I64),
        AtomicAccess::CompareExchange(AtomicWidth::I64Of8),
        AtomicAccess::CompareExchange(AtomicWidth::I64Of16),
        AtomicAccess::CompareExchange(AtomicWidth::I64Of32),
    ]
}

fn atomic_widths<'a>() -> &'a [AtomicWidth]
    ensures { result.now ≡ atomic_widths }
{
    &[
        AtomicWidth::I32,
        AtomicWidth::I64,
        AtomicWidth::I32Of8,
        AtomicWidth::I32Of16,
        AtomicWidth::I64Of8,
        AtomicWidth::I64Of16,
        AtomicWidth::I64Of32,
    ]
}

/// Chooses an atomic access that produces a value of the type `wanted`. Returns `None` if there is
/// no memory.
pub fn choose_atomic(
    alloc: Global,
    scope: &Scope<'_>,
    wanted: ValType,
    draft: &Draft,
    u: &mut Unstructured<'_>,
) -> Result<Option<Node>, Error>
    requires scope { IsScope (bare scope.now) }
    requires wanted { IsValid (bare scope.now) wanted }
    ensures exact { IfOk result (λ chosen.
        atomic_at scope.now.config.now (where_stands scope.now draft.now) wanted u.old
        ≡ (chosen, u.new)) }
    ensures offer { IsOffer (where_stands scope.now draft.now) draft.now.set.items
        (wanted ∷ []) result }
    ensures memory { IfErr result (λ e. e ≡ Error.Memory) }
    ensures left { KeepsPieces u.old u.new }
{
    let rows = atomic_rows(wanted);
    if rows.len() == 0 {
        return Ok(None);
    }
    let op = rows[u.int_in_range(0..=rows.len() - 1)];
    let Some(access) = draw_access(scope, 0, u) else {
        return Ok(None);
    };
    let node = atomic(alloc, op, access)?;
    Ok(Some(node))
}

/// Chooses an atomic store, or `nop` if there is no memory.
pub fn choose_atomic_store(
    alloc: Global,
    scope: &Scope<'_>,
    draft: &Draft,
    u: &mut Unstructured<'_>,
) -> Result<Node, Error>
    requires scope { IsScope (bare scope.now) }
    ensures exact { IfOk result (λ node.
        or_nop (atomic_store_at scope.now.config.now (where_stands scope.now draft.now) u.old)
        ≡ (node, u.new)) }
    ensures node { IfOk result (IsNode (where_stands scope.now draft.now) draft.now.set.items []) }
    ensures memory { IfErr result (λ e. e ≡ Error.Memory) }
    ensures left { KeepsPieces u.old u.new }
{
    let op = AtomicAccess::Store(choose(atomic_widths(), u));
    let Some(access) = draw_access(scope, 0, u) else {
        return plain(alloc, &[], Instr::Nop, 0);
    };
    atomic(alloc, op, access)
}

/// Creates the node of the access `op` to memory, whose alignment is that of its bytes.
fn atomic(alloc: Global, op: AtomicAccess, access: Access) -> Result<Node, Error>
    ensures exact { IfOk result (λ node. node ≡ atomic_node op access) }
    ensures memory { IfErr result (λ e. e ≡ Error.Memory) }
{
    let at = MemArg {
        align: log2_bytes(op),
        offset: access.at.offset,
        memory: access.at.memory,
    };
    let place = address(access.wide);
    let instruction = Instr::Atomic(op, at);
    match op {
        AtomicAccess::Notify => plain(alloc, &[place, ValType::I32], instruction, 0),
        AtomicAccess::Wait32 => plain(alloc, &[place, ValType::I32, ValType::I64], instruction, 0),
        AtomicAccess::Wait64 => plain(alloc, &[place, ValType::I64, ValType::I64], instruction, 0),
        AtomicAccess::Load(_) => plain(alloc, &[place], instruction, 0),
        AtomicAccess::Store(width) => plain(alloc, &[place, value(width)], instruction, 0),
        AtomicAccess::Update(_, width) => plain(alloc, &[place, value(width)], instruction, 0),
        AtomicAccess::CompareExchange(width) => {
            plain(alloc, &[place, value(width), value(width)], instruction, 0)
        }
    }
}

/// Returns the binary logarithm of the number of bytes that `op` accesses.
fn log2_bytes(op: AtomicAccess) -> u32
    ensures { result ≡ atomic_bytes op }
{
    match op {
        AtomicAccess::Notify | AtomicAccess::Wait32 => 2,
        AtomicAccess::Wait64 => 3,
        AtomicAccess::Load(width) => log2_width(width),
        AtomicAccess::Store(width) => log2_width(width),
        AtomicAccess::Update(_, width) => log2_width(width),
        AtomicAccess::CompareExchange(width) => log2_width(width),
    }
}

fn log2_width(width: AtomicWidth) -> u32
    ensures { result ≡ (atomic_width width).1 }
{
    match width {
        AtomicWidth::I32Of8 | AtomicWidth::I64Of8 => 0,
        AtomicWidth::I32Of16 | AtomicWidth::I64Of16 => 1,
        AtomicWidth::I32 | AtomicWidth::I64Of32 => 2,
        AtomicWidth::I64 => 3,
    }
}

/// Returns the type of the value that is accessed.
fn value(width: AtomicWidth) -> ValType
    ensures { result ≡ (atomic_width width).0 }
{
    match width {
        AtomicWidth::I32 | AtomicWidth::I32Of8 | AtomicWidth::I32Of16 => ValType::I32,
        AtomicWidth::I64 | AtomicWidth::I64Of8 => ValType::I64,
        AtomicWidth::I64Of16 | AtomicWidth::I64Of32 => ValType::I64,
    }
}
