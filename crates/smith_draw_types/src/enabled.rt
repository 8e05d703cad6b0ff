ghost use Rattle.std.specs.Prelude.{◌≡◌, ◌<◌, length, slice_index_or, count_by};
ghost use Rattle.smith_draw_types.specs.Choices.{enabled, chosen_at};
ghost use Rattle.smith_draw_types.specs.Drawing.{AlwaysDraws};

use smith_bytes::Unstructured;
use smith_types::ExportKind;

/// Counts the offered kinds of `table`: those paired with `true`.
pub fn count_enabled(table: &[(ExportKind, bool)]) -> usize
    ensures { result ≡ count_by (λ row. row.1) table.now }
{
    table.iter().filter(|row| row.1).count()
}

/// Finds the kind at `place` among the offered kinds of `table`. Returns `Memory` past their end.
fn enabled_at(table: &[(ExportKind, bool)], mut place: usize) -> ExportKind
    ensures { result ≡ slice_index_or (enabled table.now) place ExportKind.Memory }
{
    for row in table {
        if !row.1 {
            continue;
        }
        if place == 0 {
            return row.0;
        }
        place -= 1;
    }
    ExportKind::Memory
}

/// Draws one of the offered kinds of `table`. Requires at least one.
#[tactic(auto, using(crate::proofs::EnabledLemmas::length_enabled), unfolding(crate::specs::Choices::chosen_at))]
pub fn choose_enabled(table: &[(ExportKind, bool)], u: &mut Unstructured<'_>) -> ExportKind
    requires { 0 < length (enabled table.now) }
    ensures { AlwaysDraws (chosen_at ExportKind.Memory (enabled table.now) u.old)
        result u.old u.new }
{
    let last = count_enabled(table) - 1;
    let place = u.int_in_range(0..=last);
    enabled_at(table, place)
}
