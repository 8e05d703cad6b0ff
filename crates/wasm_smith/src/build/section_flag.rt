ghost use Rattle.std.specs.Prelude.{◌≡◌, ◌<◌, true};
ghost use Rattle.smith_bytes.specs.Spelling.{SpellsBool};
ghost use Rattle.smith_bytes.specs.Takes.{Takes};
ghost use Rattle.smith_draw_types.specs.Drawing.{AlwaysDraws};
ghost use Rattle.smith_bytes.specs.Steps.{section_flag_at};

use smith_bytes::Unstructured;

/// Draws whether a section of `count` types or groups of imports is written. Returns `true` without
/// a draw if `count` is above 0.
#[tactic(auto, unfolding(smith_bytes::specs::Steps::section_flag_at))]
pub(crate) fn draw_section_flag(count: usize, u: &mut Unstructured<'_>) -> bool
    ensures draws { AlwaysDraws (section_flag_at count u.old) result u.old u.new }
    ensures written { 0 < count → result ≡ true }
    ensures reach { count ≡ 0 → Takes SpellsBool u.old result u.new }
{
    if count > 0 {
        return true;
    }
    u.arbitrary()
}
