ghost use Rattle.std.specs.Prelude.{◌≡◌, IfErr};

use smith_bytes::Error;
use smith_check_operands::Operands;
use smith_check_rules::Slot;
use smith_explain::{Cause, Explanation, Space, Unknown};
use smith_judge::Rule;
use smith_text::text_of;
use smith_types::{HeapType, RefType, ValType};
use std::alloc::Global;

// Returns an item of an index space in words.
fn space_name(space: Space) -> &'static str {
    match space {
        Space::Type => "type",
        Space::Function => "function",
        Space::Table => "table",
        Space::Memory => "memory",
        Space::Global => "global",
        Space::Tag => "tag",
        Space::Element => "element segment",
        Space::Data => "data segment",
        Space::Local => "local",
        Space::Label => "label",
    }
}

// The words for the two bottom types.
#[derive(Clone, Copy)]
struct Bottoms {
    any: &'static str,
    reference: &'static str,
}

const WANTED: Bottoms = Bottoms {
    any: "a value",
    reference: "a reference",
};

const FOUND: Bottoms = Bottoms {
    any: "bot",
    reference: "(ref bot)",
};

// Returns the type of a value on the stack in words.
fn slot_text(alloc: Global, slot: Slot, bottoms: Bottoms) -> Result<String, Error>
    ensures memory { IfErr result (λ e. e ≡ Error.Memory) }
{
    match slot {
        Slot::Bottom => Ok(String::from_str(alloc, bottoms.any)?),
        Slot::SomeRef => Ok(String::from_str(alloc, bottoms.reference)?),
        Slot::EitherRef(ty) => {
            let reference = RefType {
                nullable: false,
                heap_type: HeapType::Abstract { shared: false, ty },
            };
            text_of(alloc, &ValType::Ref(reference))
        }
        Slot::Value(value) => text_of(alloc, &value),
    }
}

// Returns types in words, the last on top, after two dots if there are others below.
fn slots_text(
    alloc: Global,
    slots: &[Slot],
    bottoms: Bottoms,
    others: bool,
) -> Result<String, Error>
    ensures memory { IfErr result (λ e. e ≡ Error.Memory) }
{
    let mut text = String::from_str(alloc, if others { "[.." } else { "[" })?;
    for i in 0..slots.len() {
        if i > 0 || others {
            text.push_str(" ")?;
        }
        let slot = slot_text(alloc, slots[i], bottoms)?;
        text.push_str(slot.as_str())?;
    }
    text.push_str("]")?;
    Ok(text)
}

// Returns the `count` types on top of the stack in words, after two dots if there are others below that
// matter.
fn top_text(alloc: Global, stack: &Operands, count: usize, is_whole: bool) -> Result<String, Error>
    ensures memory { IfErr result (λ e. e ≡ Error.Memory) }
{
    let known = stack.known.as_slice();
    if known.len() <= count {
        return slots_text(alloc, known, FOUND, stack.dead && known.len() < count);
    }
    slots_text(alloc, &known[known.len() - count..], FOUND, is_whole)
}

// Returns the types that an instruction takes, and those that are on the stack: as many, and one more where
// the block ends and there may be no others.
fn mismatch_text(
    alloc: Global,
    wanted: &[Slot],
    stack: &Operands,
    rule: Rule,
) -> Result<String, Error>
    ensures memory { IfErr result (λ e. e ≡ Error.Memory) }
{
    let is_whole = rule == Rule::End;
    let count = if is_whole {
        wanted.len().saturating_add(1)
    } else {
        wanted.len()
    };
    let expected = slots_text(alloc, wanted, WANTED, false)?;
    let found = top_text(alloc, stack, count, is_whole)?;
    Ok(format!(in alloc; "type mismatch: {expected} expected, {found} found")?)
}

// Returns an item that is not there in words.
fn unknown_text(alloc: Global, unknown: Unknown) -> Result<String, Error>
    ensures memory { IfErr result (λ e. e ≡ Error.Memory) }
{
    let name = space_name(unknown.named.space);
    let (index, count) = (unknown.named.index, unknown.count);
    Ok(format!(in alloc; "unknown {name} {index}: their number is {count}")?)
}

// The most types of the stack that are shown where no cause is known.
const SHOWN: usize = 8;

/// Returns why an instruction is wrong that breaks the rule `rule`, in words, or what the rule demands and
/// the types on top of the stack if that is not known.
pub fn cause_text(alloc: Global, explanation: &Explanation, rule: Rule) -> Result<String, Error>
    ensures memory { IfErr result (λ e. e ≡ Error.Memory) }
{
    let stack = &explanation.stack;
    match &explanation.cause {
        Cause::Unknown(unknown) => unknown_text(alloc, *unknown),
        Cause::Undeclared { function } => {
            Ok(format!(in alloc; "function {function} is not declared")?)
        }
        Cause::Unset { local } => Ok(format!(in alloc; "local {local} is not set")?),
        Cause::Operands(wanted) => mismatch_text(alloc, wanted.as_slice(), stack, rule),
        Cause::Other => {
            let top = top_text(alloc, stack, SHOWN, true)?;
            let sentence = rule.sentence();
            Ok(format!(in alloc; "{sentence}; on the stack: {top}")?)
        }
    }
}
