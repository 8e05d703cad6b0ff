ghost use Rattle.std.specs.Prelude.{◌≡◌, ◌<◌, [], false, length, IsTrue, IfOk, IfErr, OnOk, All};
ghost use Rattle.std.specs.List.{flat_map};
ghost use Rattle.smith_bytes.specs.Source.{KeepsPieces};
ghost use Rattle.smith_bytes.specs.Steps.{Returns, is_memory};
ghost use Rattle.smith_bytes.specs.Takes.{Takes};
ghost use Rattle.smith_types.specs.Entities.{IsTableValid};
ghost use Rattle.smith_types.specs.Floats.{HasNoFloat, GivesNoFloat};
ghost use Rattle.smith_config.specs.Features.{features_of};
ghost use Rattle.smith_config.specs.EntityBounds.{IsTableWithin};
ghost use Rattle.smith_draw_consts.specs.ConstScopes.{seen_by};
ghost use Rattle.smith_draw_consts.specs.KeptOffers.{AreKeptOffers};
ghost use Rattle.smith_bytes.specs.Spelling.{SpellsEmpty};
ghost use Rattle.smith_draw_definitions.specs.Defined.{IsFilled, AreAdded, MayInitialise, MayRefuseDrawn};
ghost use Rattle.smith_draw_definitions.specs.Defined.{drawn_over, scope_of_spaces};
ghost use Rattle.smith_draw_definitions.specs.DefinedTables.{IsTableFit, AreTablesDrawn};
ghost use Rattle.smith_draw_definitions.specs.Definitions.{table_at, tables_at};
ghost use Rattle.smith_module_rules.specs.Promises.{initial_of};
ghost use Rattle.smith_bytes.specs.Spelling.{SpellsNone};

use crate::past_maximum::discard_past_maximum;
use smith_bytes::{Error, Unstructured, goes_on};
use smith_config::Config;
use smith_draw_consts::{KeptOffers, draw_table_init};
use smith_draw_types::{ReferenceScope, Spaces, draw_table_type};
use smith_types::{ConstInstr, Items, TableType};
use std::alloc::Global;

/// Draws a table and its initialiser, if it has one.
fn draw_initialised_table(
    alloc: Global,
    config: &Config,
    spaces: &Spaces<'_>,
    standing: &ReferenceScope<'_>,
    kept: &mut KeptOffers,
    u: &mut Unstructured<'_>,
) -> Result<(TableType, Option<Items<ConstInstr>>), Error>
    requires may { MayInitialise config.now spaces.now.types.now (scope_of_spaces spaces.now) }
    requires standing { standing.now ≡ drawn_over config.now (scope_of_spaces spaces.now) }
    requires imported_globals { spaces.now.entities.imported_globals
        ≡ length spaces.now.entities.globals.now }
    requires kept { AreKeptOffers (seen_by config.now spaces.now false) kept.old }
    ensures exact { Returns is_memory (λ drawn. (drawn, u.new)) result
        (table_at config.now (scope_of_spaces spaces.now) u.old) }
    ensures fit { IfOk result (IsTableFit config.now (scope_of_spaces spaces.now)) }
    ensures kept { OnOk result (AreKeptOffers (seen_by config.now spaces.now false) kept.new) }
    ensures refusal { IfErr result
        (MayRefuseDrawn config.now (drawn_over config.now (scope_of_spaces spaces.now))) }
    ensures left { KeepsPieces u.old u.new }
{
    let table = draw_table_type(config, standing, u);
    let initial = draw_table_init(alloc, config, spaces, table.element_type, kept, u)?;
    Ok((table, initial))
}

/// Adds tables to the end of `tables`, and the initialiser of each, or `None`, to `initials`.
fn push_tables(
    alloc: Global,
    config: &Config,
    spaces: &Spaces<'_>,
    standing: &ReferenceScope<'_>,
    tables: &mut Items<TableType>,
    initials: &mut Items<Option<Items<ConstInstr>>>,
    kept: &mut KeptOffers,
    u: &mut Unstructured<'_>,
) -> Result<(), Error>
    requires may { MayInitialise config.now spaces.now.types.now (scope_of_spaces spaces.now) }
    requires standing { standing.now ≡ drawn_over config.now (scope_of_spaces spaces.now) }
    requires imported_globals { spaces.now.entities.imported_globals
        ≡ length spaces.now.entities.globals.now }
    requires kept { AreKeptOffers (seen_by config.now spaces.now false) kept.old }
    ensures exact { Returns is_memory (λ _. ((tables.new, initials.new), u.new)) result
        (tables_at config.now (scope_of_spaces spaces.now) tables.old initials.old u.old) }
    ensures drawn { OnOk result (AreTablesDrawn config.now
        (scope_of_spaces spaces.now) tables.old tables.new initials.old initials.new) }
    ensures refusal { IfErr result
        (MayRefuseDrawn config.now (drawn_over config.now (scope_of_spaces spaces.now))) }
    ensures left { KeepsPieces u.old u.new }
{
    let before = tables.len();
    let least = (config.min_tables as usize).saturating_sub(before);
    let most = config.max_tables.saturating_sub(before);
    for made in 0..most {
        if !goes_on(u, made, least) {
            return Ok(());
        }
        let (table, initial) = draw_initialised_table(alloc, config, spaces, standing, kept, u)?;
        tables.push(table)?;
        initials.push(initial)?;
    }
    discard_past_maximum(before, config.max_tables, u);
    Ok(())
}

/// Adds tables to the end of `tables`, until there are at least `min_tables` and at most
/// `max_tables`. Adds the initialiser of each, or `None`, to `initials`.
pub(crate) fn define_tables(
    alloc: Global,
    config: &Config,
    spaces: &Spaces<'_>,
    standing: &ReferenceScope<'_>,
    tables: &mut Items<TableType>,
    initials: &mut Items<Option<Items<ConstInstr>>>,
    u: &mut Unstructured<'_>,
) -> Result<(), Error>
    requires may { MayInitialise config.now spaces.now.types.now (scope_of_spaces spaces.now) }
    requires standing { standing.now ≡ drawn_over config.now (scope_of_spaces spaces.now) }
    requires imported_globals { spaces.now.entities.imported_globals
        ≡ length spaces.now.entities.globals.now }

    // The draw.
    ensures exact { Returns is_memory (λ _. ((tables.new, initials.new), u.new)) result
        (tables_at config.now (scope_of_spaces spaces.now) tables.old initials.old u.old) }

    // Validity and bounds.
    ensures filled { OnOk result
        (IsFilled config.now.min_tables config.now.max_tables tables.old tables.new) }
    ensures valid { All
        (IsTableValid (features_of config.now) spaces.now.types.now.types) tables.old
        → OnOk result
        (All (IsTableValid (features_of config.now) spaces.now.types.now.types) tables.new) }
    ensures within { OnOk result (AreAdded (IsTableWithin config.now) tables.old tables.new) }
    ensures several { (1 < length tables.old → IsTrue (features_of config.now).reference_types)
        → OnOk result (1 < length tables.new → IsTrue (features_of config.now).reference_types) }

    // The initialisers.
    ensures drawn { OnOk result (AreTablesDrawn config.now
        (scope_of_spaces spaces.now) tables.old tables.new initials.old initials.new) }
    ensures floats { All HasNoFloat spaces.now.types.now.types
        → All (All GivesNoFloat) (flat_map initial_of initials.old)
        → OnOk result (All (All GivesNoFloat) (flat_map initial_of initials.new)) }

    // Refusals, reach and the source.
    ensures none { config.now.min_tables ≡ 0 → tables.old ≡ [] → OnOk result (Takes
        (SpellsEmpty (SpellsNone config.now.max_tables)) u.old tables.new u.new) }
    ensures refusal { IfErr result
        (MayRefuseDrawn config.now (drawn_over config.now (scope_of_spaces spaces.now))) }
    ensures left { KeepsPieces u.old u.new }
{
    let mut kept = KeptOffers::new();
    let pushed = push_tables(
        alloc, config, spaces, standing, tables, initials, &mut kept, u,
    );
    drop(kept);
    pushed
}
