ghost use Rattle.std.specs.Prelude.{◌≡◌, false, is_err, OnOk};
ghost use Rattle.smith_text.specs.Written.{Keeps};

use crate::sink::Sink;
use crate::text_form::TextForm;
use smith_types::Instructions;
use std::fmt;
use wasm_smith::Module;

// Writes the line of the raw body of the function `index`: its bytes in hexadecimal.
fn write_raw_body<S: Sink>(index: usize, bytes: &[u8], sink: &mut S) -> fmt::Result
    requires open { S.failed sink.old ≡ false }
    ensures fault { S.failed sink.new ≡ is_err result }
    ensures keeps { OnOk result (Keeps S.has sink.old sink.new) }
{
    (";; raw-body ", index, " 0x").write_text(sink)?;
    for byte in bytes {
        write!(sink, "{byte:02x}")?;
    }
    sink.write_str("\n")
}

/// Writes the raw bodies of a module, in lines of comments: the index of the function, and the
/// bytes.
pub(crate) fn write_raw_bodies<S: Sink>(module: &Module, sink: &mut S) -> fmt::Result
    requires open { S.failed sink.old ≡ false }
    ensures fault { S.failed sink.new ≡ is_err result }
    ensures keeps { OnOk result (Keeps S.has sink.old sink.new) }
{
    let code = module.code();
    let start = module.funcs().len().saturating_sub(code.len());
    for (place, body) in code.iter().enumerate() {
        if let Instructions::Arbitrary(bytes) = &body.instructions {
            write_raw_body(start.saturating_add(place), bytes.as_slice(), sink)?;
        }
    }
    Ok(())
}

/// Writes values that the text format cannot express, in lines of comments: a name, and values.
pub(crate) fn write_notes<S: Sink>(module: &Module, sink: &mut S) -> fmt::Result
    requires open { S.failed sink.old ≡ false }
    ensures fault { S.failed sink.new ≡ is_err result }
    ensures keeps { OnOk result (Keeps S.has sink.old sink.new) }
{
    let types = module.should_encode_types();
    let imports = module.should_encode_imports();
    let flags = (
        (";; should-encode-types ", types, "\n"),
        (";; should-encode-imports ", imports, "\n"),
    );
    let numbers = (
        (";; num-imports ", module.num_imports(), "\n"),
        (";; type-size ", module.type_size(), "\n"),
        (";; fuel-globals", module.fuel_globals(), "\n"),
    );
    (flags, numbers).write_text(sink)?;
    write_raw_bodies(module, sink)?;
    let values32 = (
        ";; interesting-values32",
        module.interesting_values32(),
        "\n",
    );
    let values64 = (
        ";; interesting-values64",
        module.interesting_values64(),
        "\n",
    );
    (values32, values64).write_text(sink)
}
