ghost use Rattle.std.specs.Prelude.{◌≡◌, ◌<◌, ◌^◌, length, nat_lt, List, IsOk, IfOk, IfErr};
ghost use Rattle.smith_types.specs.Syntax.composite_type.SubType.{SubType as ListedType};
ghost use Rattle.smith_types.specs.Entities.{IsTagValid};
ghost use Rattle.smith_types.specs.KindCounts.{is_function, gives_nothing, indices_in};
ghost use Rattle.smith_draw_types.specs.Choices.{chosen_at};
ghost use Rattle.smith_draw_types.specs.Drawing.{AlwaysDraws, Draws};
ghost use Rattle.smith_draw_types.specs.TypeUses.{is_tag_type, is_unshared_function};
ghost use Rattle.smith_draw_types.specs.TypeUses.{may_be_used, types_for, IsUsable};
ghost use Rattle.smith_draw_types.specs.declared.type_use.TypeUse.TheVariants.{Tag};

use crate::spaces::Spaces;
use smith_bytes::{Error, Unstructured};
use smith_config::Config;
use smith_types::{AbstractHeapType, CompositeInnerType, Items, SubType, TypeSet, TypeSpace};
use std::alloc::Global;

/// A use of a function type.
#[derive(Clone, Copy, Debug)]
pub enum TypeUse {
    /// A tag, which requires a function type without results.
    Tag,
    /// An imported function, which may have any function type.
    ImportedFunc,
    /// A defined function, which requires an unshared function type.
    DefinedFunc,
}

fn is_function(inner: &CompositeInnerType) -> bool
    ensures { result ≡ is_function inner.now }
{
    matches!(inner, CompositeInnerType::Func(_))
}

fn gives_nothing(inner: &CompositeInnerType) -> bool
    ensures { result ≡ gives_nothing inner.now }
{
    match inner {
        CompositeInnerType::Func(function) => function.results.is_empty(),
        _ => false,
    }
}

#[tactic(auto, unfolding(crate::specs::TypeUses::is_tag_type))]
fn is_tag_type(t: &SubType) -> bool
    ensures { result ≡ is_tag_type t.now }
{
    gives_nothing(&t.composite_type.inner)
}

#[tactic(auto, unfolding(crate::specs::TypeUses::is_unshared_function))]
fn is_unshared_function(t: &SubType) -> bool
    ensures { result ≡ is_unshared_function t.now }
{
    is_function(&t.composite_type.inner) && !t.composite_type.shared
}

fn may_be_used(for_use: TypeUse, t: &SubType) -> bool
    ensures { result ≡ may_be_used for_use t.now }
{
    match for_use {
        TypeUse::Tag => is_tag_type(t),
        TypeUse::ImportedFunc => is_function(&t.composite_type.inner),
        TypeUse::DefinedFunc => is_unshared_function(t),
    }
}

/// Counts the types of `types` that are suitable for `for_use`.
pub fn count_types(for_use: TypeUse, types: &[SubType]) -> usize
    ensures { result ≡ length (types_for for_use types.now) }
{
    types.iter().filter(|t| may_be_used(for_use, t)).count()
}

/// Lists the indices of the types of `types` that are suitable for `for_use`, in ascending order.
/// Requires `types` to have fewer than 2^32 types.
pub fn list_types(alloc: Global, for_use: TypeUse, types: &[SubType]) -> Result<Items<u32>, Error>
    requires few { length types.now < 2 ^ 32 }
    ensures exact { IfOk result (λ indices. indices ≡ types_for for_use types.now) }
    ensures memory { IfErr result (λ e. e ≡ Error.Memory) }
{
    let mut indices = Items::with_capacity(alloc, count_types(for_use, types))?;
    for (index, t) in types.iter().enumerate() {
        if may_be_used(for_use, t) {
            indices.push(index as u32)?;
        }
    }
    Ok(indices)
}

/// Returns the set of the types that are suitable for `for_use`.
fn types_of(for_use: TypeUse) -> TypeSet
    ensures { (types : List ListedType) → indices_in types result ≡ types_for for_use types }
{
    match for_use {
        TypeUse::Tag => TypeSet::WithoutResults,
        TypeUse::ImportedFunc => TypeSet::Functions,
        TypeUse::DefinedFunc => TypeSet::OfKind {
            shared: false,
            kind: AbstractHeapType::Func,
        },
    }
}

/// Returns whether some type of `space` is suitable for `for_use`, in constant time.
pub fn has_type(for_use: TypeUse, space: &TypeSpace) -> bool
    ensures { result ≡ nat_lt 0 (length (types_for for_use space.now.types)) }
{
    space.count_in(types_of(for_use)) > 0
}

/// Chooses a type of `space` that is suitable for `for_use` and returns its index, in time
/// logarithmic in the number of types. Requires such a type to exist: [`has_type`] holds.
pub fn choose_type(for_use: TypeUse, space: &TypeSpace, u: &mut Unstructured<'_>) -> u32
    requires some { 0 < length (types_for for_use space.now.types) }
    ensures draws { AlwaysDraws (chosen_at 0 (types_for for_use space.now.types) u.old)
        result u.old u.new }
    ensures usable { IsUsable for_use space.now.types result }
{
    let set = types_of(for_use);
    let last = space.count_in(set) - 1;
    let place = u.int_in_range(0..=last);
    space.index_in(set, place)
}

/// Draws the type of a tag: the index of a function type without results in the types of `spaces`.
/// See the standard, section Structure, Tag Types.
///
/// Requires some type of `spaces` to be such a function type: [`count_types`] for [`TypeUse::Tag`]
/// is above 0.
///
/// Always returns `Ok`, since it does not allocate. All draws of entities return a `Result`.
pub fn arbitrary_tag_type(
    _alloc: Global,
    _config: &Config,
    spaces: &Spaces<'_>,
    u: &mut Unstructured<'_>,
) -> Result<u32, Error>
    requires { 0 < length (types_for Tag spaces.now.types.now.types) }
    ensures ok { IsOk result }
    ensures draws { Draws (chosen_at 0 (types_for Tag spaces.now.types.now.types) u.old)
        result u.old u.new }
    ensures valid { IfOk result (IsTagValid spaces.now.types.now.types) }
{
    Ok(choose_type(TypeUse::Tag, spaces.types, u))
}
