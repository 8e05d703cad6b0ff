ghost use Rattle.std.specs.Prelude.{◌≡◌, [], ◌∷◌, length, Some, None, IfOk, IfErr, IfSome, OnOk};
ghost use Rattle.smith_bytes.specs.Source.{KeepsPieces};
ghost use Rattle.smith_bytes.specs.Draws.{choose_at};
ghost use Rattle.smith_types.specs.Subtyping.{IsValInRange};
ghost use Rattle.smith_types.specs.ValidTypes.{IsValTypeValid};
ghost use Rattle.smith_draw_consts.specs.ConstScopes.{context_of, IsScope};
ghost use Rattle.smith_draw_consts.specs.ConstOffers.{offers};
ghost use Rattle.smith_draw_consts.specs.ConstBounds.{MayRefuseConstExpr};
ghost use Rattle.smith_draw_consts.specs.ConstSteps.{IsFit};
ghost use Rattle.smith_draw_consts.specs.KeptOffers.{AreKeptOffers, AreWaysWhole, IsKnown};

use crate::kept_offers::KeptOffers;
use crate::kept_ways::KeptWays;
use crate::knowledge::Known;
use crate::node_choice::Choice;
use crate::offers::past_offers;
use crate::scope::Scope;
use smith_bytes::{Error, Unstructured};
use smith_types::ValType;
use std::alloc::Global;

/// Counts the choices offered for a value of the type `wanted`.
fn count_offers(
    scope: &Scope<'_>,
    known: Known<'_>,
    ways: Option<&KeptWays>,
    wanted: ValType,
    fuel: u32,
) -> usize
    requires scope { IsScope (context_of scope.now) }
    requires upper { IsValInRange (context_of scope.now).types wanted }
    requires known { IsKnown (context_of scope.now) wanted known }
    requires ways { IfSome ways (λ kept.
        AreWaysWhole (context_of scope.now) wanted fuel kept.now) }
    ensures { result ≡ length (offers scope.now.config.now (context_of scope.now) wanted fuel) }
{
    match past_offers(scope, known, ways, wanted, fuel, usize::MAX) {
        Ok(rest) => usize::MAX - rest,
        Err(_) => usize::MAX,
    }
}

/// Chooses how to produce a value of the type `wanted`. Records in `kept` the globals, the functions
/// and the types that it reads.
pub(crate) fn choose_offer(
    alloc: Global,
    scope: &Scope<'_>,
    kept: &mut KeptOffers,
    wanted: ValType,
    fuel: u32,
    u: &mut Unstructured<'_>,
) -> Result<Choice, Error>
    requires scope { IsScope (context_of scope.now) }
    requires wanted { IsValTypeValid (context_of scope.now).features
        (length (context_of scope.now).types) wanted }
    requires kept { AreKeptOffers (context_of scope.now) kept.old }

    // The draw.
    ensures exact { IfOk result (λ choice.
        choose_at (offers scope.now.config.now (context_of scope.now) wanted fuel) u.old
        ≡ (Some choice, u.new)) }
    ensures none { IfErr result (λ e. e ≡ Error.EmptyChoose
        → (choose_at (offers scope.now.config.now (context_of scope.now) wanted fuel) u.old).0
        ≡ None) }
    ensures fits { IfOk result (IsFit scope.now.config.now (context_of scope.now) wanted fuel) }

    // The records, refusals and the source.
    ensures kept { OnOk result (AreKeptOffers (context_of scope.now) kept.new) }
    ensures refusal { IfErr result
        (MayRefuseConstExpr scope.now.config.now (context_of scope.now) wanted) }
    ensures left { KeepsPieces u.old u.new }
{
    let place = kept.look(alloc, scope, wanted)?;
    let types = kept.look_at_types(alloc, scope, wanted, fuel)?;
    choose_among(
        scope,
        kept.known_at(place),
        kept.ways_at(types),
        wanted,
        fuel,
        u,
    )
}

/// Chooses how to produce a value of the type `wanted`, with the globals and functions in `known`
/// and, if there are many types, the counts in `ways`.
fn choose_among(
    scope: &Scope<'_>,
    known: Known<'_>,
    ways: Option<&KeptWays>,
    wanted: ValType,
    fuel: u32,
    u: &mut Unstructured<'_>,
) -> Result<Choice, Error>
    requires scope { IsScope (context_of scope.now) }
    requires wanted { IsValTypeValid (context_of scope.now).features
        (length (context_of scope.now).types) wanted }
    requires known { IsKnown (context_of scope.now) wanted known }
    requires ways { IfSome ways (λ kept.
        AreWaysWhole (context_of scope.now) wanted fuel kept.now) }
    ensures exact { IfOk result (λ choice.
        choose_at (offers scope.now.config.now (context_of scope.now) wanted fuel) u.old
        ≡ (Some choice, u.new)) }
    ensures none { IfErr result (λ e. (e ≡ Error.EmptyChoose)
        × ((choose_at (offers scope.now.config.now (context_of scope.now) wanted fuel) u.old).0
        ≡ None)) }
    ensures fits { IfOk result (IsFit scope.now.config.now (context_of scope.now) wanted fuel) }
    ensures refusal { IfErr result
        (MayRefuseConstExpr scope.now.config.now (context_of scope.now) wanted) }
    ensures left { KeepsPieces u.old u.new }
{
    let count = count_offers(scope, known, ways, wanted, fuel);
    if count == 0 {
        return Err(Error::EmptyChoose);
    }
    let place = u.int_in_range(0..=count - 1);
    match past_offers(scope, known, ways, wanted, fuel, place) {
        Ok(_) => Err(Error::EmptyChoose),
        Err(choice) => Ok(choice),
    }
}
