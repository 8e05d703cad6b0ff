ghost use Rattle.std.specs.Prelude.{◌≡◌, ◌≤◌, ◌↔◌, ℕ, Some, None, [], length, IsTrue, IfOk, IfErr};
ghost use Rattle.std.specs.Prelude.{IfSome, IsSome, false, All, OnOk};
ghost use Rattle.std.specs.List.{Contains};
ghost use Rattle.smith_bytes.specs.Source.{KeepsPieces};
ghost use Rattle.smith_bytes.specs.Takes.{Takes};
ghost use Rattle.smith_types.specs.ValidTypes.{IsRefTypeValid, IsValTypeValid};
ghost use Rattle.smith_types.specs.Syntax.value_type.ValType.TheVariants.{I32, Ref};
ghost use Rattle.smith_types.specs.Expressions.{IsConstExpr};
ghost use Rattle.smith_types.specs.Floats.{IsNoFloat, HasNoFloat, GivesNoFloat};
ghost use Rattle.smith_config.specs.Features.{features_of};
ghost use Rattle.smith_draw_types.specs.Grounding.{standing_in};
ghost use Rattle.smith_draw_types.specs.SpelledConstants.{SpellsConstExpr};
ghost use Rattle.smith_draw_consts.specs.ConstOffers.{readable_globals};
ghost use Rattle.smith_draw_consts.specs.ConstExprs.{const_expr_at, table_init_at};
ghost use Rattle.smith_draw_consts.specs.ConstScopes.{seen_by, IsReadable, AreSpacesValid};
ghost use Rattle.smith_draw_consts.specs.ConstBounds.{most_instructions, MayRefuseConstExpr};
ghost use Rattle.smith_draw_consts.specs.KeptOffers.{AreKeptOffers};

use crate::expression::draw_whole_expression;
use crate::kept_offers::KeptOffers;
use crate::references::is_below;
use crate::scope::{Scope, visible_end};
use smith_bytes::{Error, Unstructured};
use smith_config::Config;
use smith_draw_types::Spaces;
use smith_types::{ConstInstr, Items, RefType, ValType};
use std::alloc::Global;

/// Draws a constant expression whose value has a subtype of `wanted`. See the standard, section
/// Validation, Constant Expressions; subtyping is that of
/// [`smith_types::TypeSpace::val_type_is_sub_type`].
///
/// The expression may read imported immutable globals. If `allow_defined` is `true` and garbage
/// collection is enabled, it may also read defined immutable globals. If `wanted` is not a float
/// and no type of `spaces` contains a float, the expression has no float constants.
///
/// Requires the types of `spaces` to be valid under the features of `config`, and its functions,
/// its globals and `wanted` to be valid over these types. Requires `spaces` to have fewer than 2^32
/// functions, fewer than 2^32 globals, and no more imported globals than globals.
///
/// # Errors
///
/// Returns `EmptyChoose` if nothing produces a value that is needed. This happens only if `wanted`,
/// or a field or element type of `spaces`, is a non-nullable reference; with
/// `non_nullable_enabled`, only if in addition no struct type or function of `spaces` grounds it.
pub fn arbitrary_const_expr(
    alloc: Global,
    config: &Config,
    spaces: &Spaces<'_>,
    wanted: ValType,
    allow_defined: bool,
    u: &mut Unstructured<'_>,
) -> Result<Items<ConstInstr>, Error>
    requires standing { AreSpacesValid config.now spaces.now }
    requires wanted { IsValTypeValid (features_of config.now)
        (length spaces.now.types.now.types) wanted }

    // The draw.
    ensures exact { IfOk result (λ drawn.
        const_expr_at config.now (seen_by config.now spaces.now allow_defined) wanted u.old
        ≡ Some (drawn, u.new)) }
    ensures none { IfErr result (λ e. e ≡ Error.EmptyChoose
        → const_expr_at config.now (seen_by config.now spaces.now allow_defined) wanted u.old
        ≡ None) }

    // Validity, bounds and floats.
    ensures typed { IfOk result (IsConstExpr (seen_by config.now spaces.now allow_defined) wanted) }
    ensures short { IfOk result (λ drawn.
        length drawn ≤ most_instructions config.now spaces.now.types.now.types) }
    ensures floats { All HasNoFloat spaces.now.types.now.types → IsNoFloat wanted
        → IfOk result (All GivesNoFloat) }

    // Refusals, reach and the source.
    ensures refusal { IfErr result
        (MayRefuseConstExpr config.now (standing_in config.now spaces.now) wanted) }
    ensures reach { wanted ≡ I32
        → readable_globals (seen_by config.now spaces.now allow_defined) I32 ≡ []
        → IfOk result (λ drawn. Takes (SpellsConstExpr config.now) u.old drawn u.new) }
    ensures left { KeepsPieces u.old u.new }
{
    let mut kept = KeptOffers::new();
    draw_const_expr(alloc, config, spaces, wanted, allow_defined, &mut kept, u)
}

/// Draws a constant expression as [`arbitrary_const_expr`] does. Reads from `kept` which globals
/// and functions are offered, and records it there.
pub fn draw_const_expr(
    alloc: Global,
    config: &Config,
    spaces: &Spaces<'_>,
    wanted: ValType,
    allow_defined: bool,
    kept: &mut KeptOffers,
    u: &mut Unstructured<'_>,
) -> Result<Items<ConstInstr>, Error>
    requires standing { AreSpacesValid config.now spaces.now }
    requires wanted { IsValTypeValid (features_of config.now)
        (length spaces.now.types.now.types) wanted }
    requires kept { AreKeptOffers (seen_by config.now spaces.now allow_defined) kept.old }

    // The draw.
    ensures exact { IfOk result (λ drawn.
        const_expr_at config.now (seen_by config.now spaces.now allow_defined) wanted u.old
        ≡ Some (drawn, u.new)) }
    ensures none { IfErr result (λ e. e ≡ Error.EmptyChoose
        → const_expr_at config.now (seen_by config.now spaces.now allow_defined) wanted u.old
        ≡ None) }

    // Validity, bounds and floats.
    ensures typed { IfOk result (IsConstExpr (seen_by config.now spaces.now allow_defined) wanted) }
    ensures short { IfOk result (λ drawn.
        length drawn ≤ most_instructions config.now spaces.now.types.now.types) }
    ensures floats { All HasNoFloat spaces.now.types.now.types → IsNoFloat wanted
        → IfOk result (All GivesNoFloat) }

    // The records, refusals, reach and the source.
    ensures kept { OnOk result
        (AreKeptOffers (seen_by config.now spaces.now allow_defined) kept.new) }
    ensures refusal { IfErr result
        (MayRefuseConstExpr config.now (standing_in config.now spaces.now) wanted) }
    ensures reach { wanted ≡ I32
        → readable_globals (seen_by config.now spaces.now allow_defined) I32 ≡ []
        → IfOk result (λ drawn. Takes (SpellsConstExpr config.now) u.old drawn u.new) }
    ensures left { KeepsPieces u.old u.new }
{
    let _types = spaces.types.types();
    let visible = visible_end(config, spaces, allow_defined);
    let scope = Scope {
        config,
        spaces,
        visible,
    };
    draw_whole_expression(alloc, &scope, kept, wanted, u)
}

/// Draws the initialiser of a table with elements of the type `element`, or `None` if null serves
/// as the initial value. See the standard, section Validation, Tables.
///
/// The initialiser may read imported immutable globals only. If no type of `spaces` contains a
/// float, it has no float constants. Without garbage collection the result is always `None`, and
/// nothing is allocated.
///
/// Requires of `config` and `spaces` the same as [`arbitrary_const_expr`], and `element` to be
/// valid over the types of `spaces`. Requires garbage collection to be enabled if `element` is
/// non-nullable, and reference types to be enabled if garbage collection is.
///
/// # Errors
///
/// Returns the errors of [`arbitrary_const_expr`] for a reference of the type `element`.
pub fn arbitrary_table_init(
    alloc: Global,
    config: &Config,
    spaces: &Spaces<'_>,
    element: RefType,
    u: &mut Unstructured<'_>,
) -> Result<Option<Items<ConstInstr>>, Error>
    requires standing { AreSpacesValid config.now spaces.now }
    requires element { IsRefTypeValid (features_of config.now)
        (length spaces.now.types.now.types) element }
    requires created { element.nullable ≡ false → IsTrue config.now.gc_enabled }
    requires references { IsTrue config.now.gc_enabled → IsTrue config.now.reference_types_enabled }

    // The draw.
    ensures exact { IfOk result (λ initial.
        table_init_at config.now (seen_by config.now spaces.now false) element u.old
        ≡ Some (initial, u.new)) }
    ensures none { IfErr result (λ e. e ≡ Error.EmptyChoose
        → table_init_at config.now (seen_by config.now spaces.now false) element u.old ≡ None) }

    // Validity, bounds and floats.
    ensures typed { IfOk result (λ initial.
        IfSome initial (IsConstExpr (seen_by config.now spaces.now false) (Ref element))) }
    ensures short { IfOk result (λ initial. IfSome initial (λ drawn.
        length drawn ≤ most_instructions config.now spaces.now.types.now.types)) }
    ensures floats { All HasNoFloat spaces.now.types.now.types
        → IfOk result (λ initial. IfSome initial (All GivesNoFloat)) }

    // Whether there is an initialiser.
    ensures gc { IfOk result (λ initial. IsSome initial → IsTrue config.now.gc_enabled) }
    ensures without_gc { config.now.gc_enabled ≡ false → result ≡ Ok None }
    ensures needed { element.nullable ≡ false → IfOk result IsSome }

    // Refusals and the source.
    ensures refusal { IfErr result
        (MayRefuseConstExpr config.now (standing_in config.now spaces.now) (Ref element)) }
    ensures left { KeepsPieces u.old u.new }
{
    let mut kept = KeptOffers::new();
    draw_table_init(alloc, config, spaces, element, &mut kept, u)
}

/// Draws the initialiser of a table, or `None`, as [`arbitrary_table_init`] does, and records in
/// `kept` the globals and functions that it reads.
#[tactic(auto, unfolding(crate::specs::ConstExprs::table_init_at))]
pub fn draw_table_init(
    alloc: Global,
    config: &Config,
    spaces: &Spaces<'_>,
    element: RefType,
    kept: &mut KeptOffers,
    u: &mut Unstructured<'_>,
) -> Result<Option<Items<ConstInstr>>, Error>
    requires standing { AreSpacesValid config.now spaces.now }
    requires element { IsRefTypeValid (features_of config.now)
        (length spaces.now.types.now.types) element }
    requires created { element.nullable ≡ false → IsTrue config.now.gc_enabled }
    requires references { IsTrue config.now.gc_enabled → IsTrue config.now.reference_types_enabled }
    requires kept { AreKeptOffers (seen_by config.now spaces.now false) kept.old }

    // The draw.
    ensures exact { IfOk result (λ initial.
        table_init_at config.now (seen_by config.now spaces.now false) element u.old
        ≡ Some (initial, u.new)) }
    ensures none { IfErr result (λ e. e ≡ Error.EmptyChoose
        → table_init_at config.now (seen_by config.now spaces.now false) element u.old ≡ None) }

    // Validity, bounds and floats.
    ensures typed { IfOk result (λ initial.
        IfSome initial (IsConstExpr (seen_by config.now spaces.now false) (Ref element))) }
    ensures short { IfOk result (λ initial. IfSome initial (λ drawn.
        length drawn ≤ most_instructions config.now spaces.now.types.now.types)) }
    ensures floats { All HasNoFloat spaces.now.types.now.types
        → IfOk result (λ initial. IfSome initial (All GivesNoFloat)) }

    // Whether there is an initialiser.
    ensures gc { IfOk result (λ initial. IsSome initial → IsTrue config.now.gc_enabled) }
    ensures without_gc { config.now.gc_enabled ≡ false → result ≡ Ok None }
    ensures needed { element.nullable ≡ false → IfOk result IsSome }

    // The records, refusals and the source.
    ensures kept { OnOk result (AreKeptOffers (seen_by config.now spaces.now false) kept.new) }
    ensures refusal { IfErr result
        (MayRefuseConstExpr config.now (standing_in config.now spaces.now) (Ref element)) }
    ensures left { KeepsPieces u.old u.new }
{
    if !config.gc_enabled {
        return Ok(None);
    }
    if element.nullable && u.arbitrary() {
        return Ok(None);
    }
    let wanted = ValType::Ref(element);
    let drawn = draw_const_expr(alloc, config, spaces, wanted, false, kept, u)?;
    Ok(Some(drawn))
}

/// Lists the indices of the immutable globals that a constant expression may read and whose type is
/// a subtype of `wanted`, in ascending order. See the standard, section Validation, Constant
/// Expressions; subtyping is that of [`smith_types::TypeSpace::val_type_is_sub_type`].
///
/// These are imported globals and, if `allow_defined` is `true` and garbage collection is enabled,
/// defined globals.
///
/// Requires of `config`, `spaces` and `wanted` the same as [`arbitrary_const_expr`].
pub fn globals_for_const_expr(
    alloc: Global,
    config: &Config,
    spaces: &Spaces<'_>,
    wanted: ValType,
    allow_defined: bool,
) -> Result<Items<u32>, Error>
    requires standing { AreSpacesValid config.now spaces.now }
    requires wanted { IsValTypeValid (features_of config.now)
        (length spaces.now.types.now.types) wanted }
    ensures exact { IfOk result (λ globals.
        globals ≡ readable_globals (seen_by config.now spaces.now allow_defined) wanted) }
    ensures readable { IfOk result (λ globals. (index : ℕ) → Contains globals index
        ↔ IsReadable (seen_by config.now spaces.now allow_defined) wanted index) }
    ensures memory { IfErr result (λ e. e ≡ Error.Memory) }
{
    let _types = spaces.types.types();
    let entities = spaces.entities;
    let visible = visible_end(config, spaces, allow_defined);
    let globals = &entities.globals[..visible];
    let mut readable = Items::new(alloc);
    for index in 0..globals.len() {
        let global = globals[index];
        if !global.mutable && is_below(spaces.types, global.val_type, wanted) {
            readable.push(index as u32)?;
        }
    }
    Ok(readable)
}
