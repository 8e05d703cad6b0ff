ghost use Rattle.std.specs.Prelude.{◌≡◌, false, ◌<◌, IsTrue, IsOk, IfOk, slice_get};
ghost use Rattle.smith_bytes.specs.Takes.{Takes, SpellsSuch};
ghost use Rattle.smith_types.specs.Subtyping.{IsInRange, IsValInRange};
ghost use Rattle.smith_types.specs.Syntax.value_type.ValType.TheVariants.{Ref};
ghost use Rattle.smith_types.specs.ValidTypes.{
  IsHeapTypeValid,
  IsRefTypeValid,
  IsValTypeValid,
  IsHeapTypeShared,
  IsShareable,
};
ghost use Rattle.smith_types.specs.Grounded.{IsGrounded};
ghost use Rattle.smith_config.specs.Features.{features_of};
ghost use Rattle.smith_config.specs.Sanitized.{IsSanitized};
ghost use Rattle.smith_draw_types.specs.Drawing.{AlwaysDraws, Draws};
ghost use Rattle.smith_config.specs.Granted.{IsGranted};
ghost use Rattle.smith_draw_types.specs.Grounding.{standing_in};
ghost use Rattle.smith_draw_types.specs.ValueTypes.{
  abstract_heap_types,
  value_classes,
  sharedness_at,
  abstract_heap_type_at,
  index_wanted_at,
  kept_index,
  type_index_at,
  heap_type_at,
  granted_at,
  ref_type_at,
  value_of_class_at,
  val_type_at,
};
ghost use Rattle.smith_draw_types.specs.Choices.{enabled};
ghost use Rattle.smith_draw_types.specs.Spelling.{RefersTo, SpellsHeapType, SpellsRefType, SpellsValType};

use crate::call_grounds::CallGrounds;
use crate::choice::choose;
use crate::reference_scope::ReferenceScope;
use crate::spaces::{Spaces, orderly};
use smith_bytes::{Error, Unstructured};
use smith_config::Config;
use smith_types::{AbstractHeapType, HeapType, RefType, SubType, ValType};
use std::alloc::Global;

/// The class of a value type, which is drawn first.
#[derive(Clone, Copy)]
pub(crate) enum ValueClass {
    I32,
    I64,
    F32,
    F64,
    V128,
    Reference,
}

#[tactic(auto, unfolding(crate::specs::ValueTypes::sharedness_at))]
pub(crate) fn draw_sharedness(config: &Config, must_share: bool, u: &mut Unstructured<'_>) -> bool
    ensures { AlwaysDraws (sharedness_at config.now must_share u.old) result u.old u.new }
{
    if must_share {
        return true;
    }
    if config.shared_everything_threads_enabled {
        return u.ratio(1u32, 4);
    }
    false
}

/// Returns the abstract heap types that `config` enables.
fn abstract_heap_types(config: &Config) -> &'static [AbstractHeapType]
    ensures { result.now ≡ enabled (abstract_heap_types config.now) }
{
    use AbstractHeapType::{
        Any, Array, Eq, Exn, Extern, Func, I31, NoExtern, NoFunc, None, Struct,
    };
    match (config.gc_enabled, config.exceptions_enabled) {
        (false, false) => &[Func, Extern],
        (false, true) => &[Func, Extern, Exn],
        (true, false) => {
            &[
                Func, Extern, Any, None, NoExtern, NoFunc, Eq, Struct, Array, I31,
            ]
        }
        (true, true) => {
            &[
                Func, Extern, Exn, Any, None, NoExtern, NoFunc, Eq, Struct, Array, I31,
            ]
        }
    }
}

#[tactic(auto, unfolding(crate::specs::ValueTypes::abstract_heap_type_at))]
fn draw_abstract_heap_type(config: &Config, must_share: bool, u: &mut Unstructured<'_>) -> HeapType
    ensures { AlwaysDraws (abstract_heap_type_at config.now must_share u.old) result u.old u.new }
{
    let shared = draw_sharedness(config, must_share, u);
    let ty = choose(abstract_heap_types(config), u);
    HeapType::Abstract { shared, ty }
}

/// Draws whether to use the index of a type below `limit`.
fn is_index_wanted(config: &Config, limit: u32, u: &mut Unstructured<'_>) -> bool
    ensures draws { AlwaysDraws (index_wanted_at config.now limit u.old) result u.old u.new }
    ensures below { IsTrue result → 0 < limit }
{
    if !config.gc_enabled || limit == 0 {
        return false;
    }
    u.arbitrary()
}

/// Returns `index` if its type exists, and is shared if `must_share` is `true`.
fn kept_index(types: &[SubType], must_share: bool, index: u32) -> Option<u32>
    ensures { result ≡ kept_index must_share index (slice_get types.now index) }
{
    match types.get(index as usize) {
        Some(ty) => {
            if !must_share || ty.composite_type.shared {
                Some(index)
            } else {
                None
            }
        }
        None => None,
    }
}

/// Draws the index of a type below `limit`, if a drawn bool is true. Discards the index if its type
/// does not exist, or is unshared although `must_share` is `true`.
#[tactic(auto, unfolding(crate::specs::ValueTypes::type_index_at))]
fn draw_type_index(
    config: &Config,
    types: &[SubType],
    must_share: bool,
    limit: u32,
    u: &mut Unstructured<'_>,
) -> Option<u32>
    ensures { AlwaysDraws (type_index_at config.now types.now must_share limit u.old)
        result u.old u.new }
{
    if !is_index_wanted(config, limit, u) {
        return None;
    }
    let index = u.int_in_range(0..=limit - 1);
    kept_index(types, must_share, index)
}

#[tactic(auto, unfolding(crate::specs::ValueTypes::heap_type_at))]
fn draw_heap_type(
    config: &Config,
    types: &[SubType],
    must_share: bool,
    limit: u32,
    u: &mut Unstructured<'_>,
) -> HeapType
    ensures { AlwaysDraws (heap_type_at config.now types.now must_share limit u.old)
        result u.old u.new }
{
    match draw_type_index(config, types, must_share, limit, u) {
        Some(index) => HeapType::Concrete(index),
        None => draw_abstract_heap_type(config, must_share, u),
    }
}

/// Draws whether a reference to `heap_type` is non-nullable. This is possible only if `config`
/// enables non-nullable references and the heap type is grounded.
#[tactic(auto, unfolding(crate::specs::ValueTypes::granted_at))]
fn is_granted(
    config: &Config,
    standing: &ReferenceScope<'_>,
    heap_type: HeapType,
    u: &mut Unstructured<'_>,
) -> bool
    ensures { AlwaysDraws (granted_at config.now standing.now heap_type u.old) result u.old u.new }
{
    if !config.non_nullable_enabled {
        return false;
    }
    u.arbitrary() && standing.is_grounded(heap_type)
}

/// Draws a reference type over `standing` as [`arbitrary_ref_type`] does.
#[tactic(auto, unfolding(crate::specs::ValueTypes::ref_type_at))]
pub fn draw_ref_type(
    config: &Config,
    standing: &ReferenceScope<'_>,
    must_share: bool,
    limit: u32,
    u: &mut Unstructured<'_>,
) -> RefType
    ensures { AlwaysDraws (ref_type_at config.now standing.now must_share limit u.old)
        result u.old u.new }
{
    if !config.reference_types_enabled {
        return RefType {
            nullable: true,
            heap_type: HeapType::Abstract {
                shared: false,
                ty: AbstractHeapType::Func,
            },
        };
    }
    let heap_type = draw_heap_type(config, standing.types().types(), must_share, limit, u);
    let granted = is_granted(config, standing, heap_type, u);
    RefType {
        nullable: !granted,
        heap_type,
    }
}

/// Returns the classes of the value types that `config` enables.
pub(crate) fn value_classes(config: &Config) -> &'static [ValueClass]
    ensures { result.now ≡ enabled (value_classes config.now) }
{
    use ValueClass::{F32, F64, I32, I64, Reference, V128};
    let references = config.reference_types_enabled;
    match (config.allow_floats, config.simd_enabled, references) {
        (false, false, false) => &[I32, I64],
        (false, false, true) => &[I32, I64, Reference],
        (false, true, false) => &[I32, I64, V128],
        (false, true, true) => &[I32, I64, V128, Reference],
        (true, false, false) => &[I32, I64, F32, F64],
        (true, false, true) => &[I32, I64, F32, F64, Reference],
        (true, true, false) => &[I32, I64, F32, F64, V128],
        (true, true, true) => &[I32, I64, F32, F64, V128, Reference],
    }
}

fn draw_value_of_class(
    config: &Config,
    standing: &ReferenceScope<'_>,
    must_share: bool,
    limit: u32,
    class: ValueClass,
    u: &mut Unstructured<'_>,
) -> ValType
    ensures { AlwaysDraws (value_of_class_at config.now standing.now must_share limit class u.old)
        result u.old u.new }
{
    match class {
        ValueClass::I32 => ValType::I32,
        ValueClass::I64 => ValType::I64,
        ValueClass::F32 => ValType::F32,
        ValueClass::F64 => ValType::F64,
        ValueClass::V128 => ValType::V128,
        ValueClass::Reference => ValType::Ref(draw_ref_type(
            config, standing, must_share, limit, u,
        )),
    }
}

/// Draws a value type of one of `classes`. Requires `classes` to be the classes that `config`
/// enables.
#[tactic(auto, unfolding(crate::specs::ValueTypes::val_type_at))]
pub(crate) fn draw_val_type_among(
    config: &Config,
    standing: &ReferenceScope<'_>,
    classes: &[ValueClass],
    must_share: bool,
    limit: u32,
    u: &mut Unstructured<'_>,
) -> ValType
    requires { classes.now ≡ enabled (value_classes config.now) }
    ensures { AlwaysDraws (val_type_at config.now standing.now must_share limit u.old)
        result u.old u.new }
{
    let class = choose(classes, u);
    draw_value_of_class(config, standing, must_share, limit, class, u)
}

pub(crate) fn draw_val_type(
    config: &Config,
    standing: &ReferenceScope<'_>,
    must_share: bool,
    limit: u32,
    u: &mut Unstructured<'_>,
) -> ValType
    ensures { AlwaysDraws (val_type_at config.now standing.now must_share limit u.old)
        result u.old u.new }
{
    draw_val_type_among(
        config,
        standing,
        value_classes(config),
        must_share,
        limit,
        u,
    )
}

/// Draws a heap type: a type of `spaces` below `limit`, or an abstract heap type that `config`
/// enables. The heap type is shared if `must_share` is `true`. See the standard, section Structure,
/// Heap Types.
///
/// Requires `config` to be sanitised, and to permit shared types if `must_share` is `true`.
///
/// Always returns `Ok`, since it does not allocate. All draws of types return a `Result`.
pub fn arbitrary_heap_type(
    _alloc: Global,
    config: &Config,
    spaces: &Spaces<'_>,
    must_share: bool,
    limit: u32,
    u: &mut Unstructured<'_>,
) -> Result<HeapType, Error>
    requires sanitized { IsSanitized config.now }
    requires may_share { IsTrue must_share → IsTrue config.now.shared_everything_threads_enabled }

    // The draw.
    ensures ok { IsOk result }
    ensures draws { Draws
        (heap_type_at config.now spaces.now.types.now.types must_share limit u.old)
        result u.old u.new }

    // Validity.
    ensures valid { IfOk result (IsHeapTypeValid (features_of config.now) limit) }
    ensures stands { IfOk result (IsInRange spaces.now.types.now.types) }
    ensures shared { IsTrue must_share → IfOk result (IsHeapTypeShared spaces.now.types.now.types) }

    // Reach.
    ensures reach { must_share ≡ false → IfOk result (λ drawn.
        Takes (SpellsSuch (IsInRange spaces.now.types.now.types) (SpellsHeapType config.now limit))
        u.old drawn u.new) }
{
    Ok(draw_heap_type(config, spaces.types.types(), must_share, limit, u))
}

/// Draws a reference type. This is `funcref` if `config` disables reference types. See the
/// standard, section Structure, Reference Types.
///
/// The reference type is non-nullable only if `config` enables non-nullable references, a drawn
/// bool is true, and a struct type or a function of `spaces` grounds the heap type, so that it
/// provides a reference without operands.
///
/// The reference type refers only to types of `spaces` below `limit`, and only to shared types if
/// `must_share` is `true`.
///
/// Requires `config` to be sanitised, and to permit shared types if `must_share` is `true`.
///
/// Always returns `Ok`, since it does not allocate. All draws of types return a `Result`.
pub fn arbitrary_ref_type(
    _alloc: Global,
    config: &Config,
    spaces: &Spaces<'_>,
    must_share: bool,
    limit: u32,
    u: &mut Unstructured<'_>,
) -> Result<RefType, Error>
    requires sanitized { IsSanitized config.now }
    requires may_share { IsTrue must_share → IsTrue config.now.shared_everything_threads_enabled }

    // The draw.
    ensures ok { IsOk result }
    ensures draws { Draws
        (ref_type_at config.now (standing_in config.now spaces.now) must_share limit u.old)
        result u.old u.new }

    // Validity and references.
    ensures granted { IfOk result (λ drawn.
        drawn.nullable ≡ false → IsGrounded (standing_in config.now spaces.now) drawn.heap_type) }
    ensures valid { IfOk result (IsRefTypeValid (features_of config.now) limit) }
    ensures stands { IfOk result (λ drawn. IsInRange spaces.now.types.now.types drawn.heap_type) }
    ensures shared { IsTrue must_share
        → IfOk result (λ drawn. IsHeapTypeShared spaces.now.types.now.types drawn.heap_type) }

    // Reach.
    ensures reach { must_share ≡ false → IfOk result (λ drawn. Takes
        (SpellsSuch (λ reference. RefersTo config.now spaces.now.types.now.types (Ref reference))
        (SpellsRefType config.now limit)) u.old drawn u.new) }
{
    orderly(spaces);
    let call = CallGrounds::without_record(config, spaces);
    let standing = call.scope();
    let drawn = draw_ref_type(config, &standing, must_share, limit, u);
    drop(call);
    Ok(drawn)
}

/// Draws a value type that `config` enables. See the standard, section Structure, Value Types.
///
/// The value type refers only to types of `spaces` below `limit`, and only to shared types if
/// `must_share` is `true`.
///
/// Requires `config` to be sanitised, and to permit shared types if `must_share` is `true`.
///
/// Always returns `Ok`, since it does not allocate. All draws of types return a `Result`.
pub fn arbitrary_valtype(
    _alloc: Global,
    config: &Config,
    spaces: &Spaces<'_>,
    must_share: bool,
    limit: u32,
    u: &mut Unstructured<'_>,
) -> Result<ValType, Error>
    requires sanitized { IsSanitized config.now }
    requires may_share { IsTrue must_share → IsTrue config.now.shared_everything_threads_enabled }

    // The draw.
    ensures ok { IsOk result }
    ensures draws { Draws
        (val_type_at config.now (standing_in config.now spaces.now) must_share limit u.old)
        result u.old u.new }

    // Validity and references.
    ensures granted { IfOk result (IsGranted config.now (standing_in config.now spaces.now)) }
    ensures valid { IfOk result (IsValTypeValid (features_of config.now) limit) }
    ensures stands { IfOk result (IsValInRange spaces.now.types.now.types) }
    ensures shared { IsTrue must_share → IfOk result (IsShareable spaces.now.types.now.types) }

    // Reach.
    ensures reach { must_share ≡ false → IfOk result (λ drawn. Takes (SpellsSuch
        (RefersTo config.now spaces.now.types.now.types) (SpellsValType config.now limit))
        u.old drawn u.new) }
{
    orderly(spaces);
    let call = CallGrounds::without_record(config, spaces);
    let standing = call.scope();
    let drawn = draw_val_type(config, &standing, must_share, limit, u);
    drop(call);
    Ok(drawn)
}
