ghost use Rattle.std.specs.Prelude.{◌≡◌, ◌==◌, ◌&&◌, false, ℕ, List, OnOk, IfErr};
ghost use Rattle.smith_binary.specs.Faults.{IsFault};
ghost use Rattle.smith_binary.specs.Pieces.{Writes};
ghost use Rattle.smith_binary_sections.specs.Instructions.{offset_of};
ghost use Rattle.smith_binary_sections.specs.Elements.{active_funcs_form, active_items_form};
ghost use Rattle.smith_binary_sections.specs.Elements.{funcs_form, items_form, is_func};
ghost use Rattle.smith_binary_sections.specs.Elements.{is_func_ref, elem_of, elem_mode, func_ref};
ghost use Rattle.smith_binary_sections.specs.Elements.{func_items, IsElemFormIn, IsElemWrittenIn};
ghost use Rattle.smith_binary_sections.specs.Elements.{IsKindFuncsIn};
ghost use Rattle.smith_binary_sections.specs.Elements.Mode.{active as at_table};
ghost use Rattle.smith_binary_sections.specs.Long.{IsLongList, IsNeverLong, IsLongElem};

use crate::lists::{Encode, write_list};
use smith_binary::{EncodeError, Sink};
use smith_types::{
    AbstractHeapType, ConstInstr, ElementKind, ElementSegment, Elements, HeapType, Items, Offset,
    RefType,
};

// Writes the functions `funcs` after the byte of their kind.
fn write_kind_funcs(funcs: &[u32], sink: &mut Sink) -> Result<(), EncodeError>
    ensures writes { OnOk result (Writes (λ s. IsKindFuncsIn s funcs.now) sink.old sink.new) }
    ensures fault { IfErr result (IsFault (IsLongList IsNeverLong funcs.now)) }
{
    sink.write_byte(0x00)?;
    write_list(funcs, sink)
}

// Writes a segment that copies the functions `funcs` into a table, with the index of the table
// unless it is 0.
fn write_active_funcs(
    table: u32,
    offset: Offset,
    funcs: &[u32],
    sink: &mut Sink,
) -> Result<(), EncodeError>
    ensures writes { OnOk result (Writes (λ s. IsElemFormIn s (active_funcs_form table) (record {
      ty = func_ref false;
      items = func_items funcs.now;
      mode = at_table table (offset_of offset);
    })) sink.old sink.new) }
    ensures fault { IfErr result (IsFault (IsLongList IsNeverLong funcs.now)) }
{
    if table == 0 {
        sink.write_u32(0)?;
        offset.encode(sink)?;
        return write_list(funcs, sink);
    }
    sink.write_u32(2)?;
    sink.write_u32(table)?;
    offset.encode(sink)?;
    write_kind_funcs(funcs, sink)
}

// Writes a segment of the functions `funcs`.
fn write_funcs(kind: ElementKind, funcs: &[u32], sink: &mut Sink) -> Result<(), EncodeError>
    ensures writes { OnOk result (Writes (λ s. IsElemFormIn s (funcs_form kind)
        (record { ty = func_ref false; items = func_items funcs.now; mode = elem_mode kind }))
        sink.old sink.new) }
    ensures fault { IfErr result (IsFault (IsLongList IsNeverLong funcs.now)) }
{
    match kind {
        ElementKind::Passive => {
            sink.write_u32(1)?;
            write_kind_funcs(funcs, sink)
        }
        ElementKind::Declared => {
            sink.write_u32(3)?;
            write_kind_funcs(funcs, sink)
        }
        ElementKind::Active { table, offset } => {
            write_active_funcs(table.unwrap_or(0), offset, funcs, sink)
        }
    }
}

// Returns whether `heap_type` is `func`.
fn is_func(heap_type: HeapType) -> bool
    ensures { result ≡ is_func heap_type }
{
    match heap_type {
        HeapType::Abstract { shared, ty } => match ty {
            AbstractHeapType::Func => !shared,
            _ => false,
        },
        _ => false,
    }
}

// Returns whether a segment of the type `ty` that is copied into the table `table` has the form
// without a table and a type.
fn is_short(table: u32, ty: RefType) -> bool
    ensures { result ≡ ((table == 0) && is_func_ref ty) }
{
    table == 0 && ty.nullable && is_func(ty.heap_type)
}

// Writes a segment that copies `items` of the type `ty` into a table. Uses the short form, without
// a table and a type, if possible.
fn write_active_items(
    table: u32,
    offset: Offset,
    ty: RefType,
    items: &[Items<ConstInstr>],
    sink: &mut Sink,
) -> Result<(), EncodeError>
    ensures writes { OnOk result (Writes (λ s. IsElemFormIn s (active_items_form table ty)
        (record { ty = ty; items = items.now; mode = at_table table (offset_of offset) }))
        sink.old sink.new) }
    ensures fault { IfErr result (IsFault (IsLongList IsNeverLong items.now)) }
{
    if is_short(table, ty) {
        sink.write_u32(4)?;
        offset.encode(sink)?;
        return write_list(items, sink);
    }
    sink.write_u32(6)?;
    sink.write_u32(table)?;
    offset.encode(sink)?;
    ty.encode(sink)?;
    write_list(items, sink)
}

// Writes a segment of `items`, expressions of the type `ty`.
fn write_items(
    kind: ElementKind,
    ty: RefType,
    items: &[Items<ConstInstr>],
    sink: &mut Sink,
) -> Result<(), EncodeError>
    ensures writes { OnOk result (Writes (λ s. IsElemFormIn s (items_form ty kind)
        (record { ty = ty; items = items.now; mode = elem_mode kind })) sink.old sink.new) }
    ensures fault { IfErr result (IsFault (IsLongList IsNeverLong items.now)) }
{
    match kind {
        ElementKind::Passive => {
            sink.write_u32(5)?;
            ty.encode(sink)?;
            write_list(items, sink)
        }
        ElementKind::Declared => {
            sink.write_u32(7)?;
            ty.encode(sink)?;
            write_list(items, sink)
        }
        ElementKind::Active { table, offset } => {
            write_active_items(table.unwrap_or(0), offset, ty, items, sink)
        }
    }
}

impl Encode for ElementSegment {
    ghost spells = { IsElemWrittenIn };

    ghost is_long = { λ segment. IsLongElem (elem_of segment) };

    fn encode(&self, sink: &mut Sink) -> Result<(), EncodeError> {
        match &self.items {
            Elements::Functions(funcs) => write_funcs(self.kind, funcs.as_slice(), sink),
            Elements::Expressions(items) => {
                write_items(self.kind, self.ty, items.as_slice(), sink)
            }
        }
    }
}
