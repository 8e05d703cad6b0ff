ghost use Rattle.std.specs.Prelude.{◌≤◌, ◌<◌, ◌+◌, ◌*◌, All, length, IfOk, IsTrue};
ghost use Rattle.smith_draw_types.specs.Drawing.{Draws};
ghost use Rattle.smith_types.specs.Syntax.FeatureBits.{features_in};
ghost use Rattle.smith_instr.specs.Enabled.{IsEnabled};
ghost use Rattle.smith_instr.specs.Sequences.{IsBodyTyped};
ghost use Rattle.smith_body.specs.Bodies.{body_at};
ghost use Rattle.smith_body_leaves.specs.Leaves.{longest_leaf};
ghost use Rattle.smith_body.specs.Stops.{HasNeededStops};
ghost use Rattle.smith_body_nodes.specs.Scopes.{IsScope, bare, kinds_of_bodies, most};
ghost use Rattle.smith_body_nodes.specs.Traps.{IsTrapless};

use crate::draws::draw_results;
use smith_body_nodes::{Draft, Scope};
use smith_bytes::{Error, Unstructured};
use smith_instr::{Instr, SetLocals};
use smith_types::Items;
use std::alloc::Global;

/// The maximum depth of instructions that are operands of each other or nested in each other.
const DEPTH: u32 = 40;

/// Draws the body of a function over `scope`, without its last `end`. See the standard, section
/// Structure, Functions.
///
/// Most instructions take one unit of `budget` each. Constants, reads of locals and globals, and
/// references to functions take none. With a budget of 0 the body is `unreachable`.
///
/// Without `allow_floats` of the configuration, no instruction is one on floats.
///
/// With `disallow_traps`, only `unreachable` may trap. It is then drawn only with a budget of 0, or
/// for a value that no other permitted instructions produce without a budget. These are a local, a
/// global, a function reference, a constant, null, a struct of default values, and an array without
/// elements; an i31 of a number of one instruction; a value converted between internal and external
/// references; a struct of one field, whose value may be any of these, another struct of one field
/// among them; and a struct of several fields, if each field has a value of one instruction. If the
/// reference type names a type, only a struct of that type is tried. If it names none, each struct
/// type is tried in turn, but not again for the field of a struct of one field. Such a value takes
/// at most three instructions, or one for each field and one for the creation.
///
/// # Errors
///
/// Returns `Memory` if an allocation fails, and no other error.
pub fn draw_body(
    alloc: Global,
    scope: &Scope<'_>,
    budget: usize,
    u: &mut Unstructured<'_>,
) -> Result<Items<Instr>, Error>
    requires scope { IsScope (bare scope.now) }
    ensures typed { IfOk result (IsBodyTyped (bare scope.now)) }
    ensures allowed { IfOk result (All
        (IsEnabled (features_in scope.now.features) (kinds_of_bodies scope.now.config.now))) }
    ensures trapless { IsTrue scope.now.config.now.disallow_traps → IfOk result (All IsTrapless) }
    ensures needed { 0 < budget
        → IfOk result (HasNeededStops scope.now.config.now (bare scope.now)) }
    ensures short { IfOk result (λ body. length body ≤ 1 + longest_leaf scope.now.config.now
        scope.now.types.now.types
        * (length scope.now.results.now + most scope.now.types.now.types * budget)) }
    ensures exact { Draws (body_at scope.now.config.now (bare scope.now) budget u.old)
        result u.old u.new }
{
    if budget == 0 {
        let mut body = Items::new(alloc);
        body.push(Instr::Unreachable)?;
        return Ok(body);
    }
    draw_some(alloc, scope, budget, u)
}

fn draw_some(
    alloc: Global,
    scope: &Scope<'_>,
    budget: usize,
    u: &mut Unstructured<'_>,
) -> Result<Items<Instr>, Error>
    requires scope { IsScope (bare scope.now) }
    requires some { 0 < budget }
    ensures typed { IfOk result (IsBodyTyped (bare scope.now)) }
    ensures allowed { IfOk result (All
        (IsEnabled (features_in scope.now.features) (kinds_of_bodies scope.now.config.now))) }
    ensures trapless { IsTrue scope.now.config.now.disallow_traps → IfOk result (All IsTrapless) }
    ensures needed { IfOk result (HasNeededStops scope.now.config.now (bare scope.now)) }
    ensures short { IfOk result (λ body. length body ≤ longest_leaf scope.now.config.now
        scope.now.types.now.types
        * (length scope.now.results.now + most scope.now.types.now.types * budget)) }
    ensures exact { Draws (body_at scope.now.config.now (bare scope.now) budget u.old)
        result u.old u.new }
{
    let mut labels = Vec::new(alloc);
    labels.push(Items::from_slice(alloc, scope.results)?)?;
    let mut draft = Draft {
        out: Items::new(alloc),
        set: SetLocals::new(alloc),
        labels,
        budget,
    };
    draw_results(alloc, scope, scope.results, DEPTH, &mut draft, u)?;
    let Draft {
        out,
        set: _,
        labels: _,
        budget: _,
    } = draft;
    Ok(out)
}
