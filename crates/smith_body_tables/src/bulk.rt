ghost use Rattle.std.specs.Prelude.{◌≡◌, [], slice_get, Some, IfOk, IfErr};
ghost use Rattle.smith_bytes.specs.Source.{KeepsPieces};
ghost use Rattle.smith_body_tables.specs.BulkChoices.{bulk_at, bulks, data_drop_at, memory_copied};
ghost use Rattle.smith_body_tables.specs.BulkChoices.{memory_copy_at, memory_fill_at};
ghost use Rattle.smith_body_tables.specs.BulkChoices.{memory_init_at, memory_initialized};
ghost use Rattle.smith_body_nodes.specs.Chosen.{or_nop};
ghost use Rattle.smith_body_nodes.specs.Nodes.{IsNode};
ghost use Rattle.smith_body_nodes.specs.Scopes.{where_stands};

use smith_body_nodes::{Draft, Node, Scope, address, draw_index, draw_item, narrower, plain};
use smith_bytes::{Error, Unstructured};
use smith_draw_types::choose;
use smith_instr::{Instr, MemoryInstr};
use smith_types::{MemoryType, ValType};
use std::alloc::Global;

/// Statements on several bytes of a memory, or on a data segment.
#[derive(Clone, Copy)]
enum Bulk {
    Fill,
    Copy,
    Init,
    DataDrop,
}

fn bulks<'a>() -> &'a [Bulk]
    ensures { result.now ≡ bulks }
{
    &[Bulk::Fill, Bulk::Copy, Bulk::Init, Bulk::DataDrop]
}

/// Chooses a statement on several bytes of a memory, or on a data segment.
pub fn choose_bulk(
    alloc: Global,
    scope: &Scope<'_>,
    draft: &Draft,
    u: &mut Unstructured<'_>,
) -> Result<Node, Error>
    ensures exact { IfOk result (λ node.
        or_nop (bulk_at (where_stands scope.now draft.now) u.old) ≡ (node, u.new)) }
    ensures node { IfOk result (IsNode (where_stands scope.now draft.now) draft.now.set.items []) }
    ensures memory { IfErr result (λ e. e ≡ Error.Memory) }
    ensures left { KeepsPieces u.old u.new }
{
    match choose(bulks(), u) {
        Bulk::Fill => choose_memory_fill(alloc, scope, draft, u),
        Bulk::Copy => choose_memory_copy(alloc, scope, draft, u),
        Bulk::Init => choose_memory_init(alloc, scope, draft, u),
        Bulk::DataDrop => choose_data_drop(alloc, scope, draft, u),
    }
}

fn choose_memory_fill(
    alloc: Global,
    scope: &Scope<'_>,
    draft: &Draft,
    u: &mut Unstructured<'_>,
) -> Result<Node, Error>
    ensures exact { IfOk result (λ node.
        or_nop (memory_fill_at (where_stands scope.now draft.now) u.old) ≡ (node, u.new)) }
    ensures node { IfOk result (IsNode (where_stands scope.now draft.now) draft.now.set.items []) }
    ensures memory { IfErr result (λ e. e ≡ Error.Memory) }
    ensures left { KeepsPieces u.old u.new }
{
    let Some(into) = draw_item(scope.memories, u) else {
        return plain(alloc, &[], Instr::Nop, 0);
    };
    let (index, memory) = into;
    let place = address(memory.memory64);
    let operands = [place, ValType::I32, place];
    plain(alloc, &operands, Instr::Memory(MemoryInstr::Fill(index)), 0)
}

fn choose_memory_copy(
    alloc: Global,
    scope: &Scope<'_>,
    draft: &Draft,
    u: &mut Unstructured<'_>,
) -> Result<Node, Error>
    ensures exact { IfOk result (λ node.
        or_nop (memory_copy_at (where_stands scope.now draft.now) u.old) ≡ (node, u.new)) }
    ensures node { IfOk result (IsNode (where_stands scope.now draft.now) draft.now.set.items []) }
    ensures memory { IfErr result (λ e. e ≡ Error.Memory) }
    ensures left { KeepsPieces u.old u.new }
{
    let Some(into) = draw_item(scope.memories, u) else {
        return plain(alloc, &[], Instr::Nop, 0);
    };
    copy_into(alloc, scope, into, draft, u)
}

/// Chooses a copy into the memory `into`.
fn copy_into(
    alloc: Global,
    scope: &Scope<'_>,
    into: (u32, MemoryType),
    draft: &Draft,
    u: &mut Unstructured<'_>,
) -> Result<Node, Error>
    requires into { slice_get scope.now.memories.now into.0 ≡ Some into.1 }
    ensures exact { IfOk result (λ node.
        or_nop (memory_copied (where_stands scope.now draft.now) into u.old) ≡ (node, u.new)) }
    ensures node { IfOk result (IsNode (where_stands scope.now draft.now) draft.now.set.items []) }
    ensures memory { IfErr result (λ e. e ≡ Error.Memory) }
    ensures left { KeepsPieces u.old u.new }
{
    let Some(out) = draw_item(scope.memories, u) else {
        return plain(alloc, &[], Instr::Nop, 0);
    };
    let (to, memory) = into;
    let (from, other) = out;
    let size = narrower(memory.memory64, other.memory64);
    let operands = [address(memory.memory64), address(other.memory64), size];
    plain(
        alloc,
        &operands,
        Instr::Memory(MemoryInstr::Copy { to, from }),
        0,
    )
}

fn choose_memory_init(
    alloc: Global,
    scope: &Scope<'_>,
    draft: &Draft,
    u: &mut Unstructured<'_>,
) -> Result<Node, Error>
    ensures exact { IfOk result (λ node.
        or_nop (memory_init_at (where_stands scope.now draft.now) u.old) ≡ (node, u.new)) }
    ensures node { IfOk result (IsNode (where_stands scope.now draft.now) draft.now.set.items []) }
    ensures memory { IfErr result (λ e. e ≡ Error.Memory) }
    ensures left { KeepsPieces u.old u.new }
{
    let Some(into) = draw_item(scope.memories, u) else {
        return plain(alloc, &[], Instr::Nop, 0);
    };
    init_of(alloc, scope, into, draft, u)
}

/// Chooses a data segment to copy into the memory `into`.
fn init_of(
    alloc: Global,
    scope: &Scope<'_>,
    into: (u32, MemoryType),
    draft: &Draft,
    u: &mut Unstructured<'_>,
) -> Result<Node, Error>
    requires into { slice_get scope.now.memories.now into.0 ≡ Some into.1 }
    ensures exact { IfOk result (λ node.
        or_nop (memory_initialized (where_stands scope.now draft.now) into u.old) ≡ (node, u.new)) }
    ensures node { IfOk result (IsNode (where_stands scope.now draft.now) draft.now.set.items []) }
    ensures memory { IfErr result (λ e. e ≡ Error.Memory) }
    ensures left { KeepsPieces u.old u.new }
{
    let Some(segment) = draw_index(scope.datas, u) else {
        return plain(alloc, &[], Instr::Nop, 0);
    };
    let (index, memory) = into;
    let operands = [address(memory.memory64), ValType::I32, ValType::I32];
    let instruction = Instr::Memory(MemoryInstr::Init {
        memory: index,
        segment,
    });
    plain(alloc, &operands, instruction, 0)
}

fn choose_data_drop(
    alloc: Global,
    scope: &Scope<'_>,
    draft: &Draft,
    u: &mut Unstructured<'_>,
) -> Result<Node, Error>
    ensures exact { IfOk result (λ node.
        or_nop (data_drop_at (where_stands scope.now draft.now) u.old) ≡ (node, u.new)) }
    ensures node { IfOk result (IsNode (where_stands scope.now draft.now) draft.now.set.items []) }
    ensures memory { IfErr result (λ e. e ≡ Error.Memory) }
    ensures left { KeepsPieces u.old u.new }
{
    let Some(segment) = draw_index(scope.datas, u) else {
        return plain(alloc, &[], Instr::Nop, 0);
    };
    plain(alloc, &[], Instr::Memory(MemoryInstr::DataDrop(segment)), 0)
}
