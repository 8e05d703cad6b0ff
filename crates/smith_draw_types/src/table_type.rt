ghost use Rattle.std.specs.Prelude.{◌≡◌, ◌≤◌, false, true, IsOk, IfOk};
ghost use Rattle.smith_types.specs.Entities.{IsTableValid, most_elements};
ghost use Rattle.smith_types.specs.GroupedTypes.{GroupedTypes};
ghost use Rattle.smith_types.specs.ValidTypes.{AreTypesValid};
ghost use Rattle.smith_config.specs.Features.{features_of};
ghost use Rattle.smith_config.specs.Sanitized.{IsSanitized};
ghost use Rattle.smith_config.specs.EntityBounds.{IsTableWithin};
ghost use Rattle.smith_types.specs.Syntax.value_type.ValType.TheVariants.{Ref};
ghost use Rattle.smith_config.specs.Granted.{IsUngrounded};
ghost use Rattle.smith_draw_types.specs.Drawing.{AlwaysDraws, Draws};
ghost use Rattle.smith_draw_types.specs.Grounding.{standing_in};
ghost use Rattle.smith_draw_types.specs.TableTypes.{least_elements, drawn_elements, table_type_at};

use crate::call_grounds::CallGrounds;
use crate::entity_type::draw_memory64;
use crate::limits::arbitrary_limits64;
use crate::reference_scope::ReferenceScope;
use crate::shared_reference::is_reference_shared;
use crate::spaces::Spaces;
use crate::value_type::draw_ref_type;
use smith_bytes::{Error, Unstructured};
use smith_config::Config;
use smith_types::TableType;
use smith_validity::most_elements_of;
use std::alloc::Global;

/// Returns the maximum number of elements of a drawn table: as many as `config` permits, but at
/// least 1 with `disallow_traps`.
#[tactic(auto, unfolding(crate::specs::TableTypes::drawn_elements))]
fn drawn_elements(config: &Config, table64: bool) -> u64
    ensures exact { result ≡ drawn_elements config.now table64 }
    ensures some { least_elements config.now ≤ result }
    ensures fits { result ≤ most_elements table64 }
{
    config
        .max_table_elements
        .max(u64::from(config.disallow_traps))
        .min(most_elements_of(table64))
}

/// Draws a table type over `standing` as [`arbitrary_table_type`] does.
#[tactic(auto, unfolding(crate::specs::TableTypes::table_type_at))]
pub fn draw_table_type(
    config: &Config,
    standing: &ReferenceScope<'_>,
    u: &mut Unstructured<'_>,
) -> TableType
    requires { IsSanitized config.now }
    ensures draws { AlwaysDraws (table_type_at config.now standing.now u.old) result u.old u.new }
    ensures valid { (space : GroupedTypes) → space.types ≡ standing.now.types
        → AreTypesValid (features_of config.now) space
        → IsTableValid (features_of config.now) space.types result }
    ensures within { IsTableWithin config.now result }
    ensures nullable { config.now.non_nullable_enabled ≡ false
        → result.element_type.nullable ≡ true }
    ensures grounded { ¬ IsUngrounded config.now standing.now (Ref result.element_type) }
{
    let types = standing.types().types();
    let table64 = draw_memory64(config, u);
    let most = drawn_elements(config, table64);
    let least = u64::from(config.disallow_traps);
    let required = config.table_max_size_required;
    let (minimum, maximum) = arbitrary_limits64(least, most, required, most.min(10_000), u);
    let element_type = draw_ref_type(config, standing, false, types.len() as u32, u);
    let shared = is_reference_shared(types, element_type);
    TableType {
        element_type,
        minimum,
        maximum,
        table64,
        shared,
    }
}

/// Draws a table type over the types of `spaces`, with elements as drawn by
/// [`crate::arbitrary_ref_type`]. See the standard, section Structure, Table Types.
///
/// Its limits, in elements, stay within the number that `config` permits, except for a single
/// element with `disallow_traps`. The table is shared exactly if its references are. The table type
/// is valid if the types of `spaces` are.
///
/// Requires `config` to be sanitised.
///
/// Always returns `Ok`, since it does not allocate. All draws of entities return a `Result`.
pub fn arbitrary_table_type(
    _alloc: Global,
    config: &Config,
    spaces: &Spaces<'_>,
    u: &mut Unstructured<'_>,
) -> Result<TableType, Error>
    requires { IsSanitized config.now }

    // The draw.
    ensures ok { IsOk result }
    ensures draws { Draws (table_type_at config.now (standing_in config.now spaces.now) u.old)
        result u.old u.new }

    // Validity, bounds and references.
    ensures valid { AreTypesValid (features_of config.now) spaces.now.types.now
        → IfOk result (IsTableValid (features_of config.now) spaces.now.types.now.types) }
    ensures within { IfOk result (IsTableWithin config.now) }
    ensures nullable { config.now.non_nullable_enabled ≡ false
        → IfOk result (λ drawn. drawn.element_type.nullable ≡ true) }
    ensures grounded { IfOk result (λ drawn.
        ¬ IsUngrounded config.now (standing_in config.now spaces.now) (Ref drawn.element_type)) }
{
    let call = CallGrounds::without_record(config, spaces);
    let standing = call.scope();
    let drawn = draw_table_type(config, &standing, u);
    drop(call);
    Ok(drawn)
}
