ghost use Rattle.std.specs.Prelude.{◌≡◌, Bool, true, false, IfErr, OnOk};
ghost use Rattle.smith_bytes.specs.Source.{KeepsPieces};
ghost use Rattle.smith_types.specs.Entities.{AreEntitiesValid, IsTableValid, IsGlobalValid};
ghost use Rattle.smith_types.specs.EntitySpaces.{spaces_in};
ghost use Rattle.smith_types.specs.Syntax.value_type.ValType.TheVariants.{Ref};
ghost use Rattle.smith_config.specs.declared.config.Config.{Config as Configuration};
ghost use Rattle.smith_config.specs.Features.{features_of};
ghost use Rattle.smith_draw_consts.specs.ConstBounds.{MayRefuseConstExpr};
ghost use Rattle.smith_draw_consts.specs.ConstScopes.{AreSpacesValid, seen_by};
ghost use Rattle.smith_draw_consts.specs.KeptOffers.{AreKeptOffers};
ghost use Rattle.smith_types.specs.Imports.{entity_spaces};
ghost use Rattle.smith_draw_definitions.specs.Defined.{AreWithin, drawn_beside};
ghost use Rattle.smith_draw_definitions.specs.Required.{MayDefineMore, IsInitialised, IsDefinedMore};
ghost use Rattle.smith_draw_definitions.specs.Required.{MayRefuseInitial, MayRefuseEntity};
ghost use Rattle.smith_bytes.specs.Steps.{Returns, is_memory};
ghost use Rattle.smith_draw_definitions.specs.RequiredExports.{next_index, several, scope_beside};
ghost use Rattle.smith_draw_definitions.specs.RequiredExports.{defined_with_at, entity_required_at};

use crate::definitions::Definitions;
use crate::reference_scopes::reference_scope;
use smith_bytes::{Error, Unstructured, Why};
use smith_config::Config;
use smith_draw_consts::{KeptOffers, draw_const_expr, draw_table_init};
use smith_draw_types::Spaces;
use smith_types::{EntitySpaces, EntityType, ExportKind, GlobalType, TableType, TypeSpace};
use std::alloc::Global;

/// Returns the index of the next item of the kind `kind` in `spaces`.
pub(crate) fn next_index(spaces: &EntitySpaces, kind: ExportKind) -> usize
    ensures { result ≡ next_index (spaces_in spaces.now) kind }
{
    match kind {
        ExportKind::Func => spaces.funcs.len(),
        ExportKind::Table => spaces.tables.len(),
        ExportKind::Memory => spaces.memories.len(),
        ExportKind::Global => spaces.globals.len(),
        ExportKind::Tag => spaces.tags.len(),
    }
}

/// Returns the reason why the entity `added` may not follow those of `spaces`, if any: a second
/// memory, or a second table, without its feature.
fn several(config: &Config, spaces: &EntitySpaces, added: &EntityType) -> Option<Why>
    ensures { result ≡ several config.now (spaces_in spaces.now) added.now }
{
    match added {
        EntityType::Memory(_) if !spaces.memories.is_empty() && config.max_memories <= 1 => {
            Some(Why::SeveralMemories)
        }
        EntityType::Table(_) if !spaces.tables.is_empty() && !config.reference_types_enabled => {
            Some(Why::SeveralTables)
        }
        _ => None,
    }
}

/// Returns the types, functions and globals that an initialiser may refer to.
fn scope<'a>(
    types: &'a TypeSpace,
    spaces: &'a EntitySpaces,
    definitions: &Definitions,
) -> Spaces<'a>
    requires within { AreWithin (spaces_in spaces.now) definitions.now }
    ensures types { result.types.now ≡ types.now }
    ensures seen { (config : Configuration) (allow_defined : Bool)
        → seen_by config result allow_defined
        ≡ scope_beside config types.now.types (spaces_in spaces.now) definitions.now allow_defined }
    ensures valid { (config : Configuration)
        → MayDefineMore config types.now (spaces_in spaces.now) definitions.now 1
        → AreSpacesValid config result }
{
    reference_scope(
        types,
        spaces.funcs.as_slice(),
        spaces.funcs.len() - definitions.num_funcs,
        spaces.globals.as_slice(),
        spaces.globals.len() - definitions.globals.len(),
    )
}

/// Draws the initialiser of `table`, or `None`, and adds it to `definitions`.
fn define_table(
    alloc: Global,
    config: &Config,
    types: &TypeSpace,
    spaces: &EntitySpaces,
    table: TableType,
    kept: &mut KeptOffers,
    definitions: &mut Definitions,
    u: &mut Unstructured<'_>,
) -> Result<(), Error>
    requires may { MayDefineMore config.now types.now (spaces_in spaces.now) definitions.old 1 }
    requires valid { IsTableValid (features_of config.now) types.now.types table }
    requires kept { AreKeptOffers (scope_beside config.now types.now.types
        (spaces_in spaces.now) definitions.old false) kept.old }
    ensures exact { Returns is_memory (λ _. (definitions.new, u.new)) result
        (defined_with_at config.now types.now.types (spaces_in spaces.now) definitions.old
        (EntityType.Table table) u.old) }
    ensures initialised { OnOk result (IsInitialised config.now types.now.types
        (spaces_in spaces.now) definitions.old definitions.new (EntityType.Table table)) }
    ensures kept { OnOk result (AreKeptOffers (scope_beside config.now types.now.types
        (spaces_in spaces.now) definitions.old false) kept.new) }
    ensures refusal { IfErr result (MayRefuseConstExpr config.now
        (drawn_beside config.now types.now.types (spaces_in spaces.now) definitions.old)
        (Ref table.element_type)) }
    ensures left { KeepsPieces u.old u.new }
{
    let spaces = scope(types, spaces, definitions);
    let initial = draw_table_init(alloc, config, &spaces, table.element_type, kept, u)?;
    definitions.tables.push(initial)
}

/// Draws the initialiser of `global`, which follows the globals of `spaces`. Adds it to
/// `definitions`.
fn define_global(
    alloc: Global,
    config: &Config,
    types: &TypeSpace,
    spaces: &EntitySpaces,
    global: GlobalType,
    kept: &mut KeptOffers,
    definitions: &mut Definitions,
    u: &mut Unstructured<'_>,
) -> Result<(), Error>
    requires may { MayDefineMore config.now types.now (spaces_in spaces.now) definitions.old 1 }
    requires valid { IsGlobalValid (features_of config.now) types.now.types global }
    requires kept { AreKeptOffers (scope_beside config.now types.now.types
        (spaces_in spaces.now) definitions.old true) kept.old }
    ensures exact { Returns is_memory (λ _. (definitions.new, u.new)) result
        (defined_with_at config.now types.now.types (spaces_in spaces.now) definitions.old
        (EntityType.Global global) u.old) }
    ensures initialised { OnOk result (IsInitialised config.now types.now.types
        (spaces_in spaces.now) definitions.old definitions.new (EntityType.Global global)) }
    ensures kept { OnOk result (AreKeptOffers (scope_beside config.now types.now.types
        (spaces_in spaces.now) definitions.old true) kept.new) }
    ensures refusal { IfErr result (MayRefuseConstExpr config.now
        (drawn_beside config.now types.now.types (spaces_in spaces.now) definitions.old)
        global.val_type) }
    ensures left { KeepsPieces u.old u.new }
{
    let index = spaces.globals.len() as u32;
    let spaces = scope(types, spaces, definitions);
    let initial = draw_const_expr(alloc, config, &spaces, global.val_type, true, kept, u)?;
    definitions.globals.push((index, initial))
}

/// Counts the entity `added` in `definitions`. For a table or a global, adds its initialiser.
#[tactic(auto, unfolding(crate::specs::RequiredExports::defined_with_at))]
fn define_initial(
    alloc: Global,
    config: &Config,
    types: &TypeSpace,
    spaces: &EntitySpaces,
    added: EntityType,
    kept: &mut KeptOffers,
    definitions: &mut Definitions,
    u: &mut Unstructured<'_>,
) -> Result<(), Error>
    requires may { MayDefineMore config.now types.now (spaces_in spaces.now) definitions.old 1 }
    requires valid { AreEntitiesValid (features_of config.now) types.now.types
        (entity_spaces added) }
    requires kept { AreKeptOffers (scope_beside config.now types.now.types
        (spaces_in spaces.now) definitions.old true) kept.old }
    ensures exact { Returns is_memory (λ _. (definitions.new, u.new)) result (defined_with_at
        config.now types.now.types (spaces_in spaces.now) definitions.old added u.old) }
    ensures initialised { OnOk result (IsInitialised config.now types.now.types
        (spaces_in spaces.now) definitions.old definitions.new added) }
    ensures kept { OnOk result (AreKeptOffers (scope_beside config.now types.now.types
        (spaces_in spaces.now) definitions.old true) kept.new) }
    ensures refusal { IfErr result (MayRefuseInitial config.now
        (drawn_beside config.now types.now.types (spaces_in spaces.now) definitions.old) added) }
    ensures left { KeepsPieces u.old u.new }
{
    match added {
        EntityType::Table(table) => {
            return define_table(alloc, config, types, spaces, table, kept, definitions, u);
        }
        EntityType::Global(global) => {
            return define_global(alloc, config, types, spaces, global, kept, definitions, u);
        }
        EntityType::Tag(_) => definitions.num_tags += 1,
        EntityType::Func(_) => definitions.num_funcs += 1,
        EntityType::Memory(_) => definitions.num_memories += 1,
    }
    Ok(())
}

/// Defines the entity `added` at the end of its index space in `spaces`. Fails if it may not
/// follow the entities there.
#[tactic(auto, unfolding(crate::specs::RequiredExports::entity_required_at))]
pub(crate) fn define_entity(
    alloc: Global,
    config: &Config,
    types: &TypeSpace,
    added: EntityType,
    spaces: &mut EntitySpaces,
    kept: &mut KeptOffers,
    definitions: &mut Definitions,
    u: &mut Unstructured<'_>,
) -> Result<(), Error>
    requires may { MayDefineMore config.now types.now (spaces_in spaces.old) definitions.old 1 }
    requires valid { AreEntitiesValid (features_of config.now) types.now.types
        (entity_spaces added) }
    requires kept { AreKeptOffers (scope_beside config.now types.now.types
        (spaces_in spaces.old) definitions.old true) kept.old }
    ensures exact { Returns is_memory (λ _. ((spaces_in spaces.new, definitions.new), u.new)) result
        (entity_required_at config.now types.now.types
        (spaces_in spaces.old) definitions.old added u.old) }
    ensures defined { OnOk result (IsDefinedMore config.now types.now.types
        (spaces_in spaces.old) definitions.old (spaces_in spaces.new) definitions.new added) }
    ensures kept { OnOk result (AreKeptOffers (scope_beside config.now types.now.types
        (spaces_in spaces.new) definitions.new true) kept.new) }
    ensures refusal { IfErr result (MayRefuseEntity config.now
        (drawn_beside config.now types.now.types (spaces_in spaces.old) definitions.old) added) }
    ensures left { KeepsPieces u.old u.new }
{
    if let Some(why) = several(config, spaces, &added) {
        return Err(Error::IncorrectFormat(why));
    }
    define_initial(alloc, config, types, spaces, added, kept, definitions, u)?;
    spaces.push(added)
}
