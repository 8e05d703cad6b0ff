ghost use Rattle.std.specs.Prelude.{◌≡◌, false};
ghost use Rattle.smith_binary_sections.specs.Elements.{func_ref};
ghost use Rattle.smith_binary_read.specs.Contents.{list_at};
ghost use Rattle.smith_binary_read.specs.Readings.{Gives, each_at};
ghost use Rattle.smith_binary_read_instr.specs.ExpressionReadings.{expr_at};
ghost use Rattle.smith_decode.specs.declared.elements.ElementItems.TheVariants as element_items;
ghost use Rattle.smith_decode.specs.ElementReadings.{element, kind_funcs_at, typed_items_at};
ghost use Rattle.smith_decode.specs.ElementReadings.{first_funcs_at, table_funcs_at};
ghost use Rattle.smith_decode.specs.ElementReadings.{first_items_at, table_items_at};

use smith_binary_read::{Decode, ReadError, Reader, Reason, read_list};
use smith_binary_read_instr::read_expr;
use smith_instr::Instr;
use smith_types::{AbstractHeapType, HeapType, Items, RefType};

/// The mode of an element segment: its effect at instantiation (Element Section).
#[derive(Debug, Drop)]
pub enum ElementMode {
    /// Keeps the segment for instructions that refer to it.
    Passive,
    /// Declares the functions that occur in the items, and nothing else.
    Declared,
    /// Copies the items into the table `table`, from the element on whose index is the value of
    /// `offset`.
    Active { table: u32, offset: Items<Instr> },
}

/// The items of an element segment (Element Section).
#[derive(Debug, Drop)]
pub enum ElementItems {
    /// References to functions, which are given by their indices.
    Functions(Items<u32>),
    /// The values of expressions, each without its `end`.
    Expressions(Items<Items<Instr>>),
}

/// An element segment, with any expressions as its offset and its items (Element Section).
#[derive(Debug, Drop)]
pub struct ElementSegment {
    /// The type of each item.
    pub ty: RefType,
    /// The items, in order.
    pub items: ElementItems,
    /// The mode of the segment.
    pub mode: ElementMode,
}

// Returns the type of references to functions, which may be null if `nullable` is set.
fn func_ref(nullable: bool) -> RefType
    ensures { result ≡ func_ref nullable }
{
    RefType {
        nullable,
        heap_type: HeapType::Abstract {
            shared: false,
            ty: AbstractHeapType::Func,
        },
    }
}

// Returns the segment of the functions `funcs`.
fn with_funcs(funcs: Items<u32>, mode: ElementMode) -> ElementSegment
    ensures { result ≡ element (func_ref false) (element_items.Functions funcs) mode }
{
    ElementSegment {
        ty: func_ref(false),
        items: ElementItems::Functions(funcs),
        mode,
    }
}

// Returns the segment of the expressions `items`, of the type `ty`.
fn with_items(ty: RefType, items: Items<Items<Instr>>, mode: ElementMode) -> ElementSegment
    ensures { result ≡ element ty (element_items.Expressions items) mode }
{
    ElementSegment {
        ty,
        items: ElementItems::Expressions(items),
        mode,
    }
}

// Reads functions after the byte of their kind.
#[tactic(auto, unfolding(crate::specs::ElementReadings::kind_funcs_at))]
fn read_kind_funcs(reader: &mut Reader<'_>) -> Result<Items<u32>, ReadError>
    ensures { Gives result reader.new (kind_funcs_at reader.old) }
{
    let unknown = reader.fault(Reason::UnknownByte);
    let byte = reader.read_byte()?;
    if byte != 0 {
        return Err(unknown);
    }
    read_list(reader)
}

// Reads `count` expressions. Nothing is reserved for them.
fn read_each_expr(reader: &mut Reader<'_>, count: u32) -> Result<Items<Items<Instr>>, ReadError>
    ensures { Gives result reader.new (each_at expr_at count reader.old) }
{
    let mut items = Vec::new(reader.alloc());
    for _ in 0..count {
        let item = read_expr(reader)?;
        items.push(item)?;
    }
    Ok(Items::from_vec(items))
}

// Reads expressions after their number.
#[tactic(auto, unfolding(smith_binary_read::specs::Contents::list_at))]
fn read_exprs(reader: &mut Reader<'_>) -> Result<Items<Items<Instr>>, ReadError>
    ensures { Gives result reader.new (list_at expr_at reader.old) }
{
    let count = reader.read_u32()?;
    read_each_expr(reader, count)
}

// Reads the type of items, then the items.
#[tactic(auto, unfolding(crate::specs::ElementReadings::typed_items_at))]
fn read_typed_items(reader: &mut Reader<'_>) -> Result<(RefType, Items<Items<Instr>>), ReadError>
    ensures { Gives result reader.new (typed_items_at reader.old) }
{
    let ty = RefType::decode(reader)?;
    let items = read_exprs(reader)?;
    Ok((ty, items))
}

// Reads functions that are copied into the first table.
fn read_first_funcs(reader: &mut Reader<'_>) -> Result<ElementSegment, ReadError>
    ensures { Gives result reader.new (first_funcs_at reader.old) }
{
    let offset = read_expr(reader)?;
    let funcs = read_list(reader)?;
    Ok(with_funcs(funcs, ElementMode::Active { table: 0, offset }))
}

// Reads functions that are copied into a table.
fn read_table_funcs(reader: &mut Reader<'_>) -> Result<ElementSegment, ReadError>
    ensures { Gives result reader.new (table_funcs_at reader.old) }
{
    let table = reader.read_u32()?;
    let offset = read_expr(reader)?;
    let funcs = read_kind_funcs(reader)?;
    Ok(with_funcs(funcs, ElementMode::Active { table, offset }))
}

// Reads expressions that are copied into the first table.
fn read_first_items(reader: &mut Reader<'_>) -> Result<ElementSegment, ReadError>
    ensures { Gives result reader.new (first_items_at reader.old) }
{
    let offset = read_expr(reader)?;
    let items = read_exprs(reader)?;
    let mode = ElementMode::Active { table: 0, offset };
    Ok(with_items(func_ref(true), items, mode))
}

// Reads expressions that are copied into a table.
fn read_table_items(reader: &mut Reader<'_>) -> Result<ElementSegment, ReadError>
    ensures { Gives result reader.new (table_items_at reader.old) }
{
    let table = reader.read_u32()?;
    let offset = read_expr(reader)?;
    let (ty, items) = read_typed_items(reader)?;
    Ok(with_items(ty, items, ElementMode::Active { table, offset }))
}

impl Decode for ElementSegment {
    ghost use Rattle.smith_decode.specs.ElementReadings.{segment_at};

    ghost reading = { segment_at };

    #[tactic(auto, unfolding(crate::specs::ElementReadings::segment_at))]
    fn decode(reader: &mut Reader<'_>) -> Result<ElementSegment, ReadError> {
        let unknown = reader.fault(Reason::UnknownByte);
        let form = reader.read_u32()?;
        match form {
            0 => read_first_funcs(reader),
            1 => {
                let funcs = read_kind_funcs(reader)?;
                Ok(with_funcs(funcs, ElementMode::Passive))
            }
            2 => read_table_funcs(reader),
            3 => {
                let funcs = read_kind_funcs(reader)?;
                Ok(with_funcs(funcs, ElementMode::Declared))
            }
            4 => read_first_items(reader),
            5 => {
                let (ty, items) = read_typed_items(reader)?;
                Ok(with_items(ty, items, ElementMode::Passive))
            }
            6 => read_table_items(reader),
            7 => {
                let (ty, items) = read_typed_items(reader)?;
                Ok(with_items(ty, items, ElementMode::Declared))
            }
            _ => Err(unknown),
        }
    }
}
