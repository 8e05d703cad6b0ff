ghost use Rattle.std.specs.Prelude.{◌≡◌, replicate, IfOk, IfErr};
ghost use Rattle.smith_types.specs.Expressions.{field_values};
ghost use Rattle.smith_body_nodes.specs.Nodes.{node_of};

use crate::node::{Head, Node};
use smith_bytes::Error;
use smith_instr::Instr;
use smith_types::{FieldType, Items, ValType, unpack};
use std::alloc::Global;

/// Lists the types of the values that `fields` hold.
pub fn field_values(alloc: Global, fields: &[FieldType]) -> Result<Items<ValType>, Error>
    ensures exact { IfOk result (λ values. values ≡ field_values fields.now) }
    ensures memory { IfErr result (λ e. e ≡ Error.Memory) }
{
    let mut values = Items::new(alloc);
    for index in 0..fields.len() {
        values.push(unpack(fields[index].element_type))?;
    }
    Ok(values)
}

/// Lists `value` `count` times.
pub fn repeat_value(alloc: Global, value: ValType, count: u32) -> Result<Items<ValType>, Error>
    ensures exact { IfOk result (λ values. values ≡ replicate count value) }
    ensures memory { IfErr result (λ e. e ≡ Error.Memory) }
{
    let mut values = Vec::new(alloc);
    values.resize(count as usize, value)?;
    Ok(Items::from_vec(values))
}

/// Creates the node of `instruction`, which takes `operands`.
pub fn node_taking(operands: Items<ValType>, instruction: Instr) -> Node
    ensures { result ≡ node_of operands instruction 0 }
{
    Node {
        operands,
        head: Head::Plain(instruction),
        sets: None,
        drops: 0,
    }
}
