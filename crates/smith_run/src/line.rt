ghost use Rattle.std.specs.Prelude.{◌≡◌, ◌+◌, ◌≤◌, ◌++◌, length, decimal, codes};
ghost use Rattle.arrayvec.specs.ArrayString.{array_string_len};
ghost use Rattle.smith_bytes.specs.ErrorNames.{refusal_name};
ghost use Rattle.smith_run.specs.Line.{line_of, counts_line, index_or_none};

use arrayvec::ArrayString;
use wasm_smith::{Error, Module};

/// A line of text, which does not allocate. Lines of this program have at most 400 bytes.
pub type Line = ArrayString<512>;

/// Returns the line for `answer`, a module or a refusal.
pub fn line(answer: &Result<Module, Error>) -> Line
    ensures { result.bytes ≡ line_of answer.now }
{
    match answer {
        Ok(module) => counts(module),
        Err(refusal) => refusal_line(refusal),
    }
}

#[tactic(auto, unfolding(crate::specs::Line::counts_line))]
fn counts(module: &Module) -> Line
    ensures { result.bytes ≡ counts_line «module».now }
{
    let mut line = Line::new();
    push_count(&mut line, "types ", module.types().len());
    push_count(&mut line, " groups ", module.rec_groups().len());
    push_count(&mut line, " imports ", module.num_imports());
    push_count(&mut line, " tags ", module.tags().len());
    push_count(&mut line, " funcs ", module.funcs().len());
    push_count(&mut line, " tables ", module.tables().len());
    push_count(&mut line, " memories ", module.memories().len());
    push_count(&mut line, " globals ", module.globals().len());
    push_count(&mut line, " exports ", module.exports().len());
    push_start(&mut line, module.start());
    push_count(&mut line, " elems ", module.elems().len());
    push_count(&mut line, " data ", module.data().len());
    line.push_str("\n");
    line
}

fn push_count(line: &mut Line, name: &str, count: usize)
    requires { array_string_len line.old + length name.now + 20 ≤ 512 }
    ensures text { line.new.bytes ≡ line.old.bytes ++ name.now ++ decimal count }
    ensures short { array_string_len line.new ≤ array_string_len line.old + length name.now + 20 }
{
    line.push_str(name);
    line.push_str(itoa::Buffer::new().format(count));
}

fn push_start(line: &mut Line, start: Option<u32>)
    requires { array_string_len line.old + 27 ≤ 512 }
    ensures text { line.new.bytes ≡ line.old.bytes ++ codes " start " ++ index_or_none start }
    ensures short { array_string_len line.new ≤ array_string_len line.old + 27 }
{
    match start {
        Some(index) => push_count(line, " start ", index as usize),
        None => line.push_str(" start none"),
    }
}

fn refusal_line(refusal: &Error) -> Line
    ensures { result.bytes ≡ codes "refused: " ++ refusal_name refusal.now ++ codes "\n" }
{
    let mut line = Line::new();
    line.push_str("refused: ");
    line.push_str(refusal.name());
    line.push_str("\n");
    line
}
