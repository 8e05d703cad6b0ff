ghost use Rattle.std.specs.Prelude.{◌≡◌, ◌≤◌, ◌<◌, ◌++◌, [], ◌∷◌, map, length, slice_get, Some};
ghost use Rattle.std.specs.Prelude.{IfOk, IfErr, OnOk};
ghost use Rattle.smith_draw_types.specs.Drawing.{Draws};
ghost use Rattle.smith_draw_consts.specs.ConstNodes.{fields_there, field_operands, repeated};
ghost use Rattle.smith_draw_consts.specs.ConstNodes.{is_shared_heap, converted, node_of, node_at};
ghost use Rattle.smith_draw_types.specs.HeldFields.{fields_of};
ghost use Rattle.smith_types.specs.Expressions.{field_values};
ghost use Rattle.smith_types.specs.Syntax.value_type.ValType.TheVariants.{I32};
ghost use Rattle.smith_draw_consts.specs.declared.node.Operand.TheVariants.{Value};

use crate::constant::draw_constant;
use crate::node_choice::Choice;
use smith_bytes::{Error, Unstructured};
use smith_types::{
    AbstractHeapType, CompositeInnerType, ConstInstr, HeapType, Items, RefType, SubType, ValType,
    unpack,
};
use std::alloc::Global;

/// An operand, which is drawn before the instruction that takes it.
#[derive(Clone, Copy)]
pub(crate) enum Operand {
    Value(ValType),
    /// The length of an array.
    Length,
}

/// An instruction and the operands that are drawn before it.
#[derive(Drop)]
pub(crate) struct Node {
    /// The operands, in the order in which they are drawn.
    pub operands: Items<Operand>,
    /// The instruction that takes the operands.
    pub instruction: ConstInstr,
}

/// Turns `choice` into a node. Draws the value of a constant and the size of a fixed array.
#[tactic(auto, unfolding(crate::specs::ConstNodes::node_at))]
pub(crate) fn draw_node(
    alloc: Global,
    types: &[SubType],
    wanted: ValType,
    choice: Choice,
    u: &mut Unstructured<'_>,
) -> Result<Node, Error>
    ensures { Draws (node_at types.now wanted choice u.old) result u.old u.new }
{
    match choice {
        Choice::Global(index) => Ok(leaf(alloc, ConstInstr::GlobalGet(index))),
        Choice::Constant | Choice::Extended => Ok(leaf(alloc, draw_constant(wanted, u))),
        Choice::Function(index) => Ok(leaf(alloc, ConstInstr::RefFunc(index))),
        Choice::Struct(index) => of_fields(alloc, types, index, ConstInstr::StructNew(index)),
        Choice::StructDefault(index) => Ok(leaf(alloc, ConstInstr::StructNewDefault(index))),
        Choice::Array(index) => array(alloc, types, index),
        Choice::FixedArray(index) => draw_fixed_array(alloc, types, index, u),
        Choice::ArrayDefault(index) => {
            of_one(alloc, Operand::Length, ConstInstr::ArrayNewDefault(index))
        }
        Choice::I31 => of_value(alloc, ValType::I32, ConstInstr::RefI31),
        Choice::SharedI31 => of_value(alloc, ValType::I32, ConstInstr::RefI31Shared),
        Choice::FromExtern => {
            let outside = source_reference(wanted, AbstractHeapType::Extern);
            of_value(alloc, outside, ConstInstr::AnyConvertExtern)
        }
        Choice::FromAny => {
            let inside = source_reference(wanted, AbstractHeapType::Any);
            of_value(alloc, inside, ConstInstr::ExternConvertAny)
        }
    }
}

fn leaf(alloc: Global, instruction: ConstInstr) -> Node
    ensures { result ≡ node_of [] instruction }
{
    Node {
        operands: Items::new(alloc),
        instruction,
    }
}

fn of_one(alloc: Global, operand: Operand, instruction: ConstInstr) -> Result<Node, Error>
    ensures exact { IfOk result (λ node. node ≡ node_of (operand ∷ []) instruction) }
    ensures memory { IfErr result (λ e. e ≡ Error.Memory) }
{
    let mut operands = Items::with_capacity(alloc, 1)?;
    operands.push(operand)?;
    Ok(Node {
        operands,
        instruction,
    })
}

fn of_value(alloc: Global, value: ValType, instruction: ConstInstr) -> Result<Node, Error>
    ensures exact { IfOk result (λ node. node ≡ node_of (Value value ∷ []) instruction) }
    ensures memory { IfErr result (λ e. e ≡ Error.Memory) }
{
    of_one(alloc, Operand::Value(value), instruction)
}

/// Returns the node of an array that repeats one element. The length follows the element.
fn array(alloc: Global, types: &[SubType], index: u32) -> Result<Node, Error>
    ensures exact { IfOk result (λ node. node
        ≡ node_of (field_operands types.now index ++ Operand.Length ∷ [])
        (ConstInstr.ArrayNew index)) }
    ensures memory { IfErr result (λ e. e ≡ Error.Memory) }
{
    let mut node = of_fields(alloc, types, index, ConstInstr::ArrayNew(index))?;
    node.operands.push(Operand::Length)?;
    Ok(node)
}

/// Returns the node of `instruction` for the type `index`. Its operands are the fields of a struct
/// type, or the element of an array type.
fn of_fields(
    alloc: Global,
    types: &[SubType],
    index: u32,
    instruction: ConstInstr,
) -> Result<Node, Error>
    ensures exact { IfOk result (λ node.
        node ≡ node_of (field_operands types.now index) instruction) }
    ensures memory { IfErr result (λ e. e ≡ Error.Memory) }
{
    let mut operands = Items::new(alloc);
    push_fields(&mut operands, types, index)?;
    Ok(Node {
        operands,
        instruction,
    })
}

/// Returns the node of an array of a drawn size, with an operand for each element.
#[tactic(auto, unfolding(crate::specs::ConstNodes::node_at))]
fn draw_fixed_array(
    alloc: Global,
    types: &[SubType],
    index: u32,
    u: &mut Unstructured<'_>,
) -> Result<Node, Error>
    ensures { Draws (node_at types.now I32 (Choice.FixedArray index) u.old) result u.old u.new }
{
    let array_size = u.int_in_range(0..=3u32);
    let mut operands = Items::with_capacity(alloc, array_size as usize)?;
    push_repeated(&mut operands, types, index, array_size)?;
    Ok(Node {
        operands,
        instruction: ConstInstr::ArrayNewFixed {
            array_type_index: index,
            array_size,
        },
    })
}

/// Appends the operands of the type `index`, `times` times.
fn push_repeated(
    operands: &mut Items<Operand>,
    types: &[SubType],
    index: u32,
    times: u32,
) -> Result<(), Error>
    ensures ok { OnOk result
        (operands.new ≡ operands.old ++ repeated times (field_operands types.now index)) }
    ensures memory { IfErr result (λ e. e ≡ Error.Memory) }
{
    for _ in 0..times {
        push_fields(operands, types, index)?;
    }
    Ok(())
}

/// Appends an operand for each field of the struct type `index`, or for the element of the array
/// type `index`.
fn push_fields(operands: &mut Items<Operand>, types: &[SubType], index: u32) -> Result<(), Error>
    ensures ok { OnOk result (operands.new ≡ operands.old ++ field_operands types.now index) }
    ensures memory { IfErr result (λ e. e ≡ Error.Memory) }
{
    match types.get(index as usize) {
        Some(ty) => push_fields_of(operands, &ty.composite_type.inner),
        None => Ok(()),
    }
}

fn push_fields_of(operands: &mut Items<Operand>, inner: &CompositeInnerType) -> Result<(), Error>
    ensures ok { OnOk result
        (operands.new ≡ operands.old ++ map Value (field_values (fields_of inner.now))) }
    ensures memory { IfErr result (λ e. e ≡ Error.Memory) }
{
    match inner {
        CompositeInnerType::Struct(structure) => {
            for field in structure.fields.as_slice() {
                operands.push(Operand::Value(unpack(field.element_type)))?;
            }
            Ok(())
        }
        CompositeInnerType::Array(array) => {
            operands.push(Operand::Value(unpack(array.0.element_type)))
        }
        CompositeInnerType::Func(_) => Ok(()),
    }
}

/// Returns the reference type to convert to `wanted`: to the heap type `ty`, with the nullability
/// and sharedness of `wanted`.
fn source_reference(wanted: ValType, ty: AbstractHeapType) -> ValType
    ensures { result ≡ converted wanted ty }
{
    match wanted {
        ValType::Ref(reference) => ValType::Ref(RefType {
            nullable: reference.nullable,
            heap_type: HeapType::Abstract {
                shared: is_shared_heap(reference.heap_type),
                ty,
            },
        }),
        value => value,
    }
}

fn is_shared_heap(heap_type: HeapType) -> bool
    ensures { result ≡ is_shared_heap heap_type }
{
    match heap_type {
        HeapType::Abstract { shared, .. } => shared,
        _ => false,
    }
}
