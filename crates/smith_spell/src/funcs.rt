ghost use Rattle.std.specs.Prelude.{◌≡◌, ◌≤◌, false, OnOk, IfOk, IfErr, length, All};
ghost use Rattle.smith_bytes.specs.declared.error.Error.TheVariants.{Memory};
ghost use Rattle.smith_types.specs.Entities.{IsFuncTypeIndex};
ghost use Rattle.smith_types.specs.Syntax.composite_type.SubType.{SubType as Sub};
ghost use Rattle.smith_draw_types.specs.TypeUses.{is_unshared_function, func_types};
ghost use Rattle.smith_draw_types.specs.SpelledParts.{SpellsFuncs};
ghost use Rattle.smith_spell.specs.Written.{Writes, ArePlaces};

use crate::pieces::{write_bool, write_end, write_number};
use smith_bytes::Error;
use smith_config::Config;
use smith_draw_types::{TypeUse, count_types};
use smith_types::{CompositeInnerType, Items, SubType};
use std::alloc::Global;

#[tactic(auto, unfolding(smith_draw_types::specs::TypeUses::is_unshared_function))]
fn is_unshared_function(t: &SubType) -> bool
    ensures { result ≡ is_unshared_function t.now }
{
    match t.composite_type.inner {
        CompositeInnerType::Func(_) => !t.composite_type.shared,
        _ => false,
    }
}

/// Returns, for each of `types`, the number of types before it that functions may have.
fn func_places(alloc: Global, types: &[SubType]) -> Result<Items<usize>, Error>
    ensures places { IfOk result (λ places. ArePlaces types.now places) }
    ensures memory { IfErr result (λ e. e ≡ Memory) }
{
    let mut places = Items::with_capacity(alloc, types.len())?;
    let mut count = 0;
    for t in types {
        places.push(count)?;
        if is_unshared_function(t) {
            count += 1;
        }
    }
    Ok(places)
}

/// Writes `funcs`, each as the position of its type among the types that functions may have.
pub(crate) fn write_funcs(
    alloc: Global,
    config: &Config,
    types: &[SubType],
    funcs: &[u32],
    bytes: &mut Items<u8>,
) -> Result<(), Error>
    requires few { length funcs.now ≤ config.now.max_funcs }
    requires unshared { All (λ (t : Sub). t.composite_type.shared ≡ false) types.now }
    requires valid { All (IsFuncTypeIndex types.now) funcs.now }
    ensures writes { OnOk result
        (Writes (SpellsFuncs config.now types.now funcs.now) bytes.old bytes.new) }
    ensures memory { IfErr result (λ e. e ≡ Memory) }
{
    let count = count_types(TypeUse::DefinedFunc, types);
    if count == 0 {
        return Ok(());
    }
    let places = func_places(alloc, types)?;
    for func in funcs {
        write_bool(true, bytes)?;
        write_number(places[*func as usize], count - 1, bytes)?;
    }
    let room = config.max_funcs - funcs.len();
    write_end(0 < room, bytes)
}
