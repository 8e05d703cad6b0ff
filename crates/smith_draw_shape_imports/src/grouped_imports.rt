ghost use Rattle.std.specs.Prelude.{◌≡◌, ◌++◌, ◌∷◌, [], IsTrue, IfOk, IfErr, All, List};
ghost use Rattle.smith_bytes.specs.Source.{KeepsPieces};
ghost use Rattle.smith_types.specs.Imports.{IsImportsValid, flattened, imports_of};
ghost use Rattle.smith_types.specs.Syntax.imports.Import.{Import};
ghost use Rattle.smith_config.specs.Features.{features_of};
ghost use Rattle.smith_draw_types.specs.Drawing.{Draws, AlwaysDraws};
ghost use Rattle.smith_draw_shape_imports.specs.AvailableImports.{may_join, group_begun, joins_at};
ghost use Rattle.smith_draw_shape_imports.specs.AvailableImports.{group_begun_at, joined_at, grouped_at};
ghost use Rattle.smith_draw_shape_imports.specs.AvailableImports.{AreGroupsOf};

use smith_bytes::{Error, Unstructured};
use smith_config::Config;
use smith_draw_imports::{GroupKind, draw_group_kind, push_import};
use smith_types::{Import, ImportItem, Imports, Items};
use std::alloc::Global;

/// Returns whether the import `next` may be added to the end of `group`.
fn may_join(group: &Imports, next: &Import) -> bool
    ensures { result ≡ may_join group.now next.now }
{
    match group {
        Imports::Single(_) => false,
        Imports::Compact1 { module, .. } => *module == next.module,
        Imports::Compact2 {
            module,
            entity_type,
            ..
        } => *module == next.module && *entity_type == next.entity_type,
    }
}

/// Creates a group of the kind `kind` with the one import `first`, allocated from `alloc`.
fn start_group(alloc: Global, kind: GroupKind, first: &Import) -> Result<Imports, Error>
    ensures group { IfOk result (λ group. group ≡ group_begun kind first.now) }
    ensures memory { IfErr result (λ e. e ≡ Error.Memory) }
{
    let Import {
        module,
        name,
        entity_type,
    } = first.clone(alloc)?;
    match kind {
        GroupKind::Single => Ok(Imports::Single(Import {
            module,
            name,
            entity_type,
        })),
        GroupKind::OfOneModule => {
            let mut items = Items::new(alloc);
            items.push(ImportItem { name, entity_type })?;
            Ok(Imports::Compact1 { module, items })
        }
        GroupKind::OfOneType => {
            let mut names = Items::new(alloc);
            names.push(name)?;
            Ok(Imports::Compact2 {
                module,
                entity_type,
                names,
            })
        }
    }
}

/// Begins a group of a drawn kind with the import `first`.
#[tactic(auto, unfolding(crate::specs::AvailableImports::group_begun_at))]
fn begin(
    alloc: Global,
    config: &Config,
    first: &Import,
    u: &mut Unstructured<'_>,
) -> Result<Imports, Error>
    ensures draws { Draws (group_begun_at config.now first.now u.old) result u.old u.new }
    ensures one { IfOk result (λ group. imports_of group ≡ first.now ∷ []) }
    ensures valid { IfOk result (IsImportsValid (features_of config.now)) }
{
    let kind = draw_group_kind(config, u);
    start_group(alloc, kind, first)
}

/// Draws whether the import `next` joins `group`. Without a draw, returns `false` if it may not.
#[tactic(auto, unfolding(crate::specs::AvailableImports::joins_at))]
fn joins(group: &Imports, next: &Import, u: &mut Unstructured<'_>) -> bool
    ensures draws { AlwaysDraws (joins_at group.now next.now u.old) result u.old u.new }
    ensures may { IsTrue result → IsTrue (may_join group.now next.now) }
{
    may_join(group, next) && u.arbitrary::<bool>()
}

/// Adds the import `next` to `group`, or adds `group` to `made` and begins a new group with `next`.
/// Returns the group that `next` is in.
fn add_next(
    alloc: Global,
    config: &Config,
    made: &mut Items<Imports>,
    mut group: Imports,
    next: &Import,
    u: &mut Unstructured<'_>,
) -> Result<Imports, Error>
    ensures exact { (more : List Import)
        → IfOk result (λ last. joined_at config.now made.old group (next.now ∷ more) u.old
        ≡ joined_at config.now made.new last more u.new) }
    ensures groups { (imports : List Import)
        → AreGroupsOf (features_of config.now) imports (made.old ++ group ∷ [])
        → IfOk result (λ last.
        AreGroupsOf (features_of config.now) (imports ++ next.now ∷ []) (made.new ++ last ∷ [])) }
    ensures memory { IfErr result (λ e. e ≡ Error.Memory) }
    ensures left { KeepsPieces u.old u.new }
{
    if joins(&group, next, u) {
        push_import(&mut group, next.name.clone(alloc)?, next.entity_type)?;
        return Ok(group);
    }
    made.push(group)?;
    begin(alloc, config, next, u)
}

/// Puts the imports `first` and `more` into groups of drawn kinds.
fn put_in_groups(
    alloc: Global,
    config: &Config,
    first: &Import,
    more: &[Import],
    u: &mut Unstructured<'_>,
) -> Result<Items<Imports>, Error>
    ensures draws { Draws (grouped_at config.now (first.now ∷ more.now) u.old) result u.old u.new }
    ensures groups { IfOk result (AreGroupsOf (features_of config.now) (first.now ∷ more.now)) }
{
    let mut made = Items::new(alloc);
    let mut group = begin(alloc, config, first, u)?;
    for next in more {
        group = add_next(alloc, config, &mut made, group, next, u)?;
    }
    made.push(group)?;
    Ok(made)
}

/// Puts `imports` into groups of drawn kinds, allocated from `alloc`.
#[tactic(auto, unfolding(crate::specs::AvailableImports::grouped_at))]
pub(crate) fn group_imports(
    alloc: Global,
    config: &Config,
    imports: &[Import],
    u: &mut Unstructured<'_>,
) -> Result<Items<Imports>, Error>
    ensures draws { Draws (grouped_at config.now imports.now u.old) result u.old u.new }
    ensures groups { IfOk result (AreGroupsOf (features_of config.now) imports.now) }
{
    match imports {
        [first, more @ ..] => put_in_groups(alloc, config, first, more, u),
        [] => Ok(Items::new(alloc)),
    }
}
