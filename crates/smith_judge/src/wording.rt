use crate::rules::Rule;

/// What is said of a rule.
#[derive(Clone, Copy, Debug)]
pub struct Wording {
    /// The name, in lower case and with hyphens.
    pub name: &'static str,
    /// The section of the chapter Validation of the standard.
    pub section: &'static str,
    /// What is wrong if it is broken.
    pub sentence: &'static str,
}

const NUMERIC: &str = "an operand has another type, or the stack holds fewer operands";

const VECTOR: &str =
    "an operand has another type, the stack holds fewer operands, or a lane is not there";

const REFERENCE: &str =
    "an operand has another type, the stack holds fewer operands, or it may not name this type or function";

const PARAMETRIC: &str =
    "an operand has another type, the stack holds fewer operands, or its type is not valid";

const VARIABLE: &str =
    "an operand has another type, the stack holds fewer operands, or the variable is not there, set or mutable";

const TABLE: &str =
    "an operand has another type, the stack holds fewer operands, or its table or segment is not there or of another type";

const MEMORY: &str =
    "an operand has another type, the stack holds fewer operands, or its memory, segment, offset or alignment is not valid";

const AGGREGATE: &str =
    "an operand has another type, the stack holds fewer operands, or its type, field or segment is not one for it";

const CONTROL: &str =
    "an operand has another type, the stack holds fewer operands, or what it names is not there or of another type";

const END: &str = "the operands are not the results of the block, or it may not end here";

fn row(name: &'static str, section: &'static str, sentence: &'static str) -> Wording {
    Wording {
        name,
        section,
        sentence,
    }
}

/// Returns what is said of `rule`.
pub fn wording_of(rule: Rule) -> Wording {
    match rule {
        Rule::Types => row("types", "Recursive Types", "a type of it is not valid"),
        Rule::Supertypes => row(
            "supertypes",
            "Recursive Types",
            "a type of it has several supertypes",
        ),
        Rule::Tag => row("tag", "Tag Types", "its type is not valid"),
        Rule::Function => row("function", "Functions", "its type is no function type"),
        Rule::Table => row("table", "Table Types", "its type is not valid"),
        Rule::Memory => row("memory", "Memory Types", "its type is not valid"),
        Rule::Global => row("global", "Global Types", "its type is not valid"),
        _ => definition_wording(rule),
    }
}

#[rattlefmt::skip]
fn definition_wording(rule: Rule) -> Wording {
    match rule {
        Rule::TableInitial => row("table-initial", "Tables", "its elements begin with no constant expression of their type"),
        Rule::GlobalInitial => row("global-initial", "Globals", "it begins with no constant expression of its type"),
        Rule::Export => row("export", "Exports", "what it names is not there"),
        Rule::ExportName => row("export-name", "Modules", "an earlier export has this name"),
        Rule::Start => row("start", "Start Function", "it is not there, or has parameters or results"),
        Rule::Element => row("element", "Element Segments", "its type, an item, its table or its offset is not valid"),
        Rule::Data => row(
            "data",
            "Data Segments",
            "its memory is not there, or its offset is no constant expression of the type of addresses",
        ),
        _ => body_wording(rule),
    }
}

#[rattlefmt::skip]
fn body_wording(rule: Rule) -> Wording {
    match rule {
        Rule::Local => row("local", "Functions", "their type is not valid"),
        Rule::NumericInstruction => row("numeric-instruction", "Numeric Instructions", NUMERIC),
        Rule::VectorInstruction => row("vector-instruction", "Vector Instructions", VECTOR),
        Rule::ReferenceInstruction => row("reference-instruction", "Reference Instructions", REFERENCE),
        Rule::ParametricInstruction => row("parametric-instruction", "Parametric Instructions", PARAMETRIC),
        Rule::VariableInstruction => row("variable-instruction", "Variable Instructions", VARIABLE),
        Rule::TableInstruction => row("table-instruction", "Table Instructions", TABLE),
        Rule::MemoryInstruction => row("memory-instruction", "Memory Instructions", MEMORY),
        Rule::AggregateInstruction => row("aggregate-instruction", "Aggregate Instructions", AGGREGATE),
        Rule::ControlInstruction => row("control-instruction", "Control Instructions", CONTROL),
        _ => row("end", "Instruction Sequences", END),
    }
}
