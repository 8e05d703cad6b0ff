ghost use Rattle.std.specs.Prelude.{◌≡◌, false, is_err, OnOk};
ghost use Rattle.smith_text.specs.Written.{Writes};

use smith_text::Sink;
use std::fmt;

/// Writes `keyword` and an index.
pub(crate) fn write_indexed<S: Sink>(keyword: &str, index: u32, sink: &mut S) -> fmt::Result
    requires open { S.failed sink.old ≡ false }
    ensures fault { S.failed sink.new ≡ is_err result }
    ensures writes { OnOk result (Writes S.has sink.old 1 sink.new) }
{
    write!(sink, "{keyword} {index}")
}

/// Writes `keyword` and two indices.
pub(crate) fn write_indexed_twice<S: Sink>(
    keyword: &str,
    first: u32,
    second: u32,
    sink: &mut S,
) -> fmt::Result
    requires open { S.failed sink.old ≡ false }
    ensures fault { S.failed sink.new ≡ is_err result }
    ensures writes { OnOk result (Writes S.has sink.old 1 sink.new) }
{
    write!(sink, "{keyword} {first} {second}")
}

/// Writes the keyword of `operator` on values of the type or shape `ty`.
pub(crate) fn write_operator<S: Sink>(ty: &str, operator: &str, sink: &mut S) -> fmt::Result
    requires open { S.failed sink.old ≡ false }
    ensures fault { S.failed sink.new ≡ is_err result }
    ensures writes { OnOk result (Writes S.has sink.old 1 sink.new) }
{
    write!(sink, "{ty}.{operator}")
}
