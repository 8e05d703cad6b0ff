ghost use Rattle.std.specs.Prelude.{◌≡◌, ◌⊎◌, true, OnOk, IfErr};
ghost use Rattle.smith_binary.specs.Faults.{IsFault};
ghost use Rattle.smith_binary.specs.Pieces.{Writes};
ghost use Rattle.smith_binary_sections.specs.Elements.{func_ref, IsFuncs, IsKindFuncs};
ghost use Rattle.smith_binary_sections.specs.Long.{IsLongList, IsNeverLong};
ghost use Rattle.smith_binary_read_instr.specs.Expressions.{IsNestedExpr};
ghost use Rattle.smith_decode.specs.ElementReadings.{items_view, mode_view};
ghost use Rattle.smith_decode.specs.Elements.{elem, IsElem, IsItems, IsTypedItems};
ghost use Rattle.smith_decode.specs.Elements.Mode.{active};
ghost use Rattle.smith_encode.specs.Nesting.{is_nested};
ghost use Rattle.smith_encode.specs.Segments.{functions_elem, IsSeenElem};
ghost use Rattle.smith_encode.specs.Spelled.{IfPasses, are_items_nested, is_element_nested};
ghost use Rattle.smith_encode.specs.Spelled.{is_element_mode_nested};
ghost use Rattle.smith_encode.specs.TooLong.{IsLongExpr, IsLongMode, IsLongSegment};

use crate::items::Decoded;
use smith_binary::{EncodeError, Sink};
use smith_binary_instr::encode_expr;
use smith_binary_sections::{Encode, EncodeItem, Listed, Plain};
use smith_decode::{ElementItems, ElementMode, ElementSegment};
use smith_instr::{Instr, ReferenceInstr};
use smith_types::{AbstractHeapType, HeapType, Items, RefType, is_same};

// A writer of a function as an expression.
#[derive(Clone, Copy)]
struct FunctionExprs;

impl EncodeItem<u32> for FunctionExprs {
    ghost use Rattle.std.specs.Prelude.{◌∷◌, []};
    ghost use Rattle.smith_instr.specs.declared.instr.Instr.TheVariants.{Reference};
    ghost use Rattle.smith_instr.specs.declared.reference.ReferenceInstr.TheVariants.{Func};

    ghost spells = { λ _ _ function. IsNestedExpr (Reference (Func function) ∷ []) };

    ghost is_long = { λ _ function. IsLongExpr (Reference (Func function) ∷ []) };

    fn encode_item(&self, item: &u32, sink: &mut Sink) -> Result<(), EncodeError> {
        encode_expr(sink, &[Instr::Reference(ReferenceInstr::Func(*item))])
    }
}

// Writes a list of `items` as expressions.
fn write_exprs(items: &ElementItems, sink: &mut Sink) -> Result<(), EncodeError>
    ensures writes { OnOk result (Writes (λ _ piece. are_items_nested items.now ≡ true
        → IsItems (items_view items.now) piece) sink.old sink.new) }
    ensures fault { IfErr result (IsFault (IsLongList IsLongExpr (items_view items.now))) }
{
    match items {
        ElementItems::Functions(functions) => {
            let list = Listed {
                writer: FunctionExprs,
                items: functions.as_slice(),
            };
            list.encode(sink)
        }
        ElementItems::Expressions(items) => {
            let list = Listed {
                writer: Decoded,
                items: items.as_slice(),
            };
            list.encode(sink)
        }
    }
}

// Writes a list of `functions`.
fn write_functions(functions: &[u32], sink: &mut Sink) -> Result<(), EncodeError>
    ensures writes { OnOk result (Writes (λ _. IsFuncs functions.now) sink.old sink.new) }
    ensures fault { IfErr result (IsFault (IsLongList IsNeverLong functions.now)) }
{
    let list = Listed {
        writer: Plain,
        items: functions,
    };
    list.encode(sink)
}

// Writes a list of `functions` after the byte of their kind.
fn write_kind_functions(functions: &[u32], sink: &mut Sink) -> Result<(), EncodeError>
    ensures writes { OnOk result (Writes (λ _. IsKindFuncs functions.now) sink.old sink.new) }
    ensures fault { IfErr result (IsFault (IsLongList IsNeverLong functions.now)) }
{
    sink.write_byte(0x00)?;
    write_functions(functions, sink)
}

// Writes a segment of `functions` that is copied into `table`, with the index of the table unless
// it is 0.
fn write_active_functions(
    table: u32,
    offset: &Items<Instr>,
    functions: &[u32],
    sink: &mut Sink,
) -> Result<(), EncodeError>
    ensures writes { OnOk result (Writes (λ _ piece. is_nested offset.now ≡ true
        → IsElem (functions_elem functions.now (active table offset.now)) piece) sink.old sink.new) }
    ensures fault { IfErr result
        (IsFault (IsLongExpr offset.now ⊎ IsLongList IsNeverLong functions.now)) }
{
    if table == 0 {
        sink.write_u32(0)?;
        Decoded.encode_item(offset, sink)?;
        return write_functions(functions, sink);
    }
    sink.write_u32(2)?;
    sink.write_u32(table)?;
    Decoded.encode_item(offset, sink)?;
    write_kind_functions(functions, sink)
}

// Writes a segment of `functions`, as a list of them.
fn write_listed(mode: &ElementMode, functions: &[u32], sink: &mut Sink) -> Result<(), EncodeError>
    ensures writes { OnOk result (Writes (λ _ piece. is_element_mode_nested mode.now ≡ true
        → IsElem (functions_elem functions.now (mode_view mode.now)) piece) sink.old sink.new) }
    ensures fault { IfErr result
        (IsFault (IsLongMode (mode_view mode.now) ⊎ IsLongList IsNeverLong functions.now)) }
{
    match mode {
        ElementMode::Passive => {
            sink.write_u32(1)?;
            write_kind_functions(functions, sink)
        }
        ElementMode::Declared => {
            sink.write_u32(3)?;
            write_kind_functions(functions, sink)
        }
        ElementMode::Active { table, offset } => {
            write_active_functions(*table, offset, functions, sink)
        }
    }
}

// Returns the type of references to functions, which may be null if `nullable` is set.
fn func_ref(nullable: bool) -> RefType
    ensures { result ≡ func_ref nullable }
{
    RefType {
        nullable,
        heap_type: HeapType::Abstract {
            shared: false,
            ty: AbstractHeapType::Func,
        },
    }
}

// Writes the items of a segment as expressions, after their type.
fn write_typed(ty: RefType, items: &ElementItems, sink: &mut Sink) -> Result<(), EncodeError>
    ensures writes { OnOk result (Writes (λ _ piece. are_items_nested items.now ≡ true
        → IsTypedItems ty (items_view items.now) piece) sink.old sink.new) }
    ensures fault { IfErr result (IsFault (IsLongList IsLongExpr (items_view items.now))) }
{
    ty.encode(sink)?;
    write_exprs(items, sink)
}

// Writes a segment of `items` of the type `ty` that is copied into `table`, as expressions. States
// the table and the type unless the table is 0 and the type is `funcref`.
fn write_active_exprs(
    table: u32,
    offset: &Items<Instr>,
    ty: RefType,
    items: &ElementItems,
    sink: &mut Sink,
) -> Result<(), EncodeError>
    ensures writes { OnOk result (Writes (λ _ piece. is_nested offset.now ≡ true
        → are_items_nested items.now ≡ true
        → IsElem (elem ty (items_view items.now) (active table offset.now)) piece) sink.old sink.new) }
    ensures fault { IfErr result
        (IsFault (IsLongExpr offset.now ⊎ IsLongList IsLongExpr (items_view items.now))) }
{
    if table == 0 && is_same(&ty, &func_ref(true)) {
        sink.write_u32(4)?;
        Decoded.encode_item(offset, sink)?;
        return write_exprs(items, sink);
    }
    sink.write_u32(6)?;
    sink.write_u32(table)?;
    Decoded.encode_item(offset, sink)?;
    write_typed(ty, items, sink)
}

// Writes a segment, its items as expressions.
fn write_segment(segment: &ElementSegment, sink: &mut Sink) -> Result<(), EncodeError>
    ensures writes { OnOk result (Writes (λ _. IfPasses is_element_nested IsSeenElem segment.now)
        sink.old sink.new) }
    ensures fault { IfErr result (IsFault (IsLongSegment segment.now)) }
{
    match &segment.mode {
        ElementMode::Passive => {
            sink.write_u32(5)?;
            write_typed(segment.ty, &segment.items, sink)
        }
        ElementMode::Declared => {
            sink.write_u32(7)?;
            write_typed(segment.ty, &segment.items, sink)
        }
        ElementMode::Active { table, offset } => {
            write_active_exprs(*table, offset, segment.ty, &segment.items, sink)
        }
    }
}

impl EncodeItem<ElementSegment> for Decoded {
    ghost spells = { λ _ _ segment. IfPasses is_element_nested IsSeenElem segment };

    ghost is_long = { λ _. IsLongSegment };

    fn encode_item(&self, item: &ElementSegment, sink: &mut Sink) -> Result<(), EncodeError> {
        match &item.items {
            ElementItems::Functions(functions) => {
                if is_same(&item.ty, &func_ref(false)) {
                    return write_listed(&item.mode, functions.as_slice(), sink);
                }
                write_segment(item, sink)
            }
            ElementItems::Expressions(_) => write_segment(item, sink),
        }
    }
}
