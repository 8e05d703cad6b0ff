ghost use Rattle.std.specs.Prelude.{◌≡◌, ◌<◌, ◌≤◌, ◌^◌, ℕ, true, false, List, [], map, length};
ghost use Rattle.std.specs.Prelude.{IfOk, IfErr, OnOk, All};
ghost use Rattle.smith_bytes.specs.Source.{KeepsPieces};
ghost use Rattle.smith_bytes.specs.Steps.{Returns, is_memory};
ghost use Rattle.smith_bytes.specs.Takes.{Takes};
ghost use Rattle.smith_types.specs.Entities.{IsGlobalValid};
ghost use Rattle.smith_types.specs.Expressions.{IsConstExpr};
ghost use Rattle.smith_types.specs.Floats.{HasNoFloat, IsNoFloat, GivesNoFloat};
ghost use Rattle.smith_types.specs.Syntax.const_instr.ConstInstr.{ConstInstr};
ghost use Rattle.smith_types.specs.Syntax.entity_type.GlobalType.{GlobalType};
ghost use Rattle.smith_config.specs.Features.{features_of};
ghost use Rattle.smith_config.specs.Sanitized.{IsSanitized};
ghost use Rattle.smith_draw_consts.specs.ConstScopes.{AreSpacesValid, seen_by};
ghost use Rattle.smith_draw_types.specs.Grounding.{standing_in};
ghost use Rattle.smith_draw_consts.specs.KeptOffers.{AreKeptOffers};
ghost use Rattle.smith_config.specs.Granted.{HasGroundedValue};
ghost use Rattle.smith_draw_definitions.specs.Defined.{IsFilled, AreAdded, MayInitialise, MayRefuseDrawn};
ghost use Rattle.smith_draw_definitions.specs.Defined.{AreGlobalsDefined, drawn_over};
ghost use Rattle.smith_draw_definitions.specs.Definitions.{scope_among, global_scope, initialised_at, globals_at};
ghost use Rattle.smith_draw_definitions.specs.NumberedGlobals.{SpellsGlobals};

use crate::past_maximum::discard_past_maximum;
use smith_bytes::{Error, Unstructured, goes_on};
use smith_config::Config;
use smith_draw_consts::{KeptOffers, draw_const_expr};
use smith_draw_types::{Entities, ReferenceScope, Spaces, draw_global_type};
use smith_types::{ConstInstr, GlobalType, Items, TypeSpace};
use std::alloc::Global;

/// Draws the global after the globals of `spaces`, with its index and its initialiser.
#[tactic(auto, unfolding(crate::specs::Definitions::initialised_at))]
fn draw_initialised_global(
    alloc: Global,
    config: &Config,
    spaces: &Spaces<'_>,
    standing: &ReferenceScope<'_>,
    kept: &mut KeptOffers,
    u: &mut Unstructured<'_>,
) -> Result<(GlobalType, (u32, Items<ConstInstr>)), Error>
    requires sanitized { IsSanitized config.now }
    requires spaces { AreSpacesValid config.now spaces.now }
    requires standing { standing.now ≡ standing_in config.now spaces.now }
    requires kept { AreKeptOffers (seen_by config.now spaces.now true) kept.old }

    // The draw.
    ensures exact { Returns is_memory (λ drawn. (drawn, u.new)) result
        (initialised_at config.now (seen_by config.now spaces.now true) u.old) }

    // Validity.
    ensures valid { IfOk result (λ drawn.
        IsGlobalValid (features_of config.now) spaces.now.types.now.types drawn.0) }
    ensures initialised { IfOk result (λ drawn.
        IsConstExpr (seen_by config.now spaces.now true) drawn.0.val_type drawn.1.1) }

    // Floats and references.
    ensures floats { config.now.allow_floats ≡ false
        → IfOk result (λ drawn. IsNoFloat drawn.0.val_type) }
    ensures grounded { IfOk result (λ drawn.
        HasGroundedValue config.now (standing_in config.now spaces.now) drawn.0) }
    ensures constants { config.now.allow_floats ≡ false → All HasNoFloat spaces.now.types.now.types
        → IfOk result (λ drawn. All GivesNoFloat drawn.1.1) }

    // The records, refusals and the source.
    ensures kept { OnOk result (AreKeptOffers (seen_by config.now spaces.now true) kept.new) }
    ensures refusal { IfErr result (MayRefuseDrawn config.now (standing_in config.now spaces.now)) }
    ensures left { KeepsPieces u.old u.new }
{
    let global = draw_global_type(config, standing, u);
    let initial = draw_const_expr(alloc, config, spaces, global.val_type, true, kept, u)?;
    let index = spaces.entities.globals.len() as u32;
    Ok((global, (index, initial)))
}

/// Adds globals to the end of `globals`, and the index and the initialiser of each to `initials`.
fn push_globals<'a>(
    alloc: Global,
    config: &Config,
    types: &'a TypeSpace,
    funcs: &'a [u32],
    imported_funcs: usize,
    imported_globals: usize,
    standing: &ReferenceScope<'_>,
    globals: &mut Items<GlobalType>,
    initials: &mut Items<(u32, Items<ConstInstr>)>,
    kept: &mut KeptOffers,
    u: &mut Unstructured<'_>,
) -> Result<(), Error>
    requires may { MayInitialise config.now types.now
        (scope_among types.now.types funcs.now imported_funcs imported_globals globals.old) }
    requires standing { standing.now ≡ drawn_over config.now (scope_among types.now.types funcs.now
        imported_funcs imported_globals globals.old) }
    requires valid { All (IsGlobalValid (features_of config.now) types.now.types) globals.old }
    requires imported { imported_globals ≤ length globals.old }
    requires few { length globals.old < 2 ^ 32 }
    requires kept { AreKeptOffers (global_scope config.now (scope_among types.now.types funcs.now
        imported_funcs imported_globals globals.old) globals.old) kept.old }

    // The draw.
    ensures exact { Returns is_memory (λ _. ((globals.new, initials.new), u.new)) result
        (globals_at config.now (scope_among types.now.types funcs.now
        imported_funcs imported_globals globals.old) globals.old initials.old u.old) }

    // Validity.
    ensures valid { OnOk result
        (All (IsGlobalValid (features_of config.now) types.now.types) globals.new) }
    ensures defined { AreGlobalsDefined config.now
        (scope_among types.now.types funcs.now imported_funcs imported_globals globals.old)
        globals.old initials.old
        → OnOk result (AreGlobalsDefined config.now
        (scope_among types.now.types funcs.now imported_funcs imported_globals globals.old)
        globals.new initials.new) }

    // Floats and references.
    ensures grounded { OnOk result (AreAdded (HasGroundedValue config.now (drawn_over config.now
        (scope_among types.now.types funcs.now imported_funcs imported_globals globals.old)))
        globals.old globals.new) }
    ensures floats { config.now.allow_floats ≡ false
        → All (λ (global : GlobalType). IsNoFloat global.val_type) globals.old
        → OnOk result (All (λ (global : GlobalType). IsNoFloat global.val_type) globals.new) }
    ensures constants { config.now.allow_floats ≡ false → All HasNoFloat types.now.types
        → All (All GivesNoFloat) (map (λ (one : ℕ × List ConstInstr). one.1) initials.old)
        → OnOk result (All (All GivesNoFloat)
        (map (λ (one : ℕ × List ConstInstr). one.1) initials.new)) }

    // Refusals and the source.
    ensures refusal { IfErr result (MayRefuseDrawn config.now (drawn_over config.now
        (scope_among types.now.types funcs.now imported_funcs imported_globals globals.old))) }
    ensures left { KeepsPieces u.old u.new }
{
    let before = globals.len();
    let least = config.min_globals.saturating_sub(before);
    for made in 0..config.max_globals.saturating_sub(before) {
        if !goes_on(u, made, least) {
            return Ok(());
        }
        let entities = Entities {
            funcs,
            globals: globals.as_slice(),
            imported_funcs,
            imported_globals,
            ..Entities::none()
        };
        let (global, initial) = draw_initialised_global(
            alloc,
            config,
            &Spaces { types, entities },
            standing,
            kept,
            u,
        )?;
        globals.push(global)?;
        initials.push(initial)?;
    }
    discard_past_maximum(before, config.max_globals, u);
    Ok(())
}

/// Adds globals to the end of `globals`, until there are at least `min_globals` and at most
/// `max_globals`. Adds the index and the initialiser of each to `initials`.
pub(crate) fn define_globals<'a>(
    alloc: Global,
    config: &Config,
    types: &'a TypeSpace,
    funcs: &'a [u32],
    imported_funcs: usize,
    imported_globals: usize,
    standing: &ReferenceScope<'_>,
    globals: &mut Items<GlobalType>,
    initials: &mut Items<(u32, Items<ConstInstr>)>,
    u: &mut Unstructured<'_>,
) -> Result<(), Error>
    requires may { MayInitialise config.now types.now
        (scope_among types.now.types funcs.now imported_funcs imported_globals globals.old) }
    requires standing { standing.now ≡ drawn_over config.now (scope_among types.now.types funcs.now
        imported_funcs imported_globals globals.old) }
    requires valid { All (IsGlobalValid (features_of config.now) types.now.types) globals.old }
    requires imported { imported_globals ≤ length globals.old }
    requires few { length globals.old < 2 ^ 32 }

    // The draw.
    ensures exact { Returns is_memory (λ _. ((globals.new, initials.new), u.new)) result
        (globals_at config.now (scope_among types.now.types funcs.now
        imported_funcs imported_globals globals.old) globals.old initials.old u.old) }

    // Validity and bounds.
    ensures filled { OnOk result
        (IsFilled config.now.min_globals config.now.max_globals globals.old globals.new) }
    ensures valid { OnOk result
        (All (IsGlobalValid (features_of config.now) types.now.types) globals.new) }
    ensures defined { AreGlobalsDefined config.now
        (scope_among types.now.types funcs.now imported_funcs imported_globals globals.old)
        globals.old initials.old
        → OnOk result (AreGlobalsDefined config.now
        (scope_among types.now.types funcs.now imported_funcs imported_globals globals.old)
        globals.new initials.new) }

    // Floats and references.
    ensures grounded { OnOk result (AreAdded (HasGroundedValue config.now (drawn_over config.now
        (scope_among types.now.types funcs.now imported_funcs imported_globals globals.old)))
        globals.old globals.new) }
    ensures floats { config.now.allow_floats ≡ false
        → All (λ (global : GlobalType). IsNoFloat global.val_type) globals.old
        → OnOk result (All (λ (global : GlobalType). IsNoFloat global.val_type) globals.new) }
    ensures constants { config.now.allow_floats ≡ false → All HasNoFloat types.now.types
        → All (All GivesNoFloat) (map (λ (one : ℕ × List ConstInstr). one.1) initials.old)
        → OnOk result (All (All GivesNoFloat)
        (map (λ (one : ℕ × List ConstInstr). one.1) initials.new)) }

    // Refusals, reach and the source.
    ensures reach { config.now.min_globals ≡ 0 → globals.old ≡ [] → initials.old ≡ []
        → OnOk result (Takes (SpellsGlobals config.now) u.old
        (globals.new, map (λ (one : ℕ × List ConstInstr). one.1) initials.new) u.new) }
    ensures refusal { IfErr result (MayRefuseDrawn config.now (drawn_over config.now
        (scope_among types.now.types funcs.now imported_funcs imported_globals globals.old))) }
    ensures left { KeepsPieces u.old u.new }
{
    let mut kept = KeptOffers::new();
    let pushed = push_globals(
        alloc,
        config,
        types,
        funcs,
        imported_funcs,
        imported_globals,
        standing,
        globals,
        initials,
        &mut kept,
        u,
    );
    drop(kept);
    pushed
}
