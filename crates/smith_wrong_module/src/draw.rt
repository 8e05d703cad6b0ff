ghost use Rattle.std.specs.Prelude.{◌≡◌, IfErr, IfOk};
ghost use Rattle.smith_wrong_module.specs.Changes.{IsDrawn};

use crate::bodies::{break_body, end_body};
use crate::change::{Change, make_change};
use crate::constants::break_constant;
use crate::entity_types::{break_data, break_element, break_function, break_import, break_tag};
use crate::exports::{break_start, export_past_end, repeat_export};
use crate::family::ModuleFamily;
use crate::groups::{break_supertype, finish_type, refer_forward};
use crate::limits::break_limits;
use crate::unset::unset_locals;
use crate::variables::freeze_global;
use smith_bytes::{Error, Unstructured};
use smith_decode::{Module, Place};
use std::alloc::Global;

// Draws a write to an immutable global, or makes a mutable global immutable.
fn find_immutable(
    alloc: Global,
    module: &Module,
    u: &mut Unstructured<'_>,
) -> Result<Option<Change>, Error>
    ensures memory { IfErr result (λ e. e ≡ Error.Memory) }
{
    match break_body(alloc, ModuleFamily::ImmutableGlobal, module, u)? {
        Some(change) => Ok(Some(change)),
        None => Ok(freeze_global(module, u)),
    }
}

// Drops a value that sets a local without a default value, or makes locals such ones.
fn find_unset(
    alloc: Global,
    module: &Module,
    u: &mut Unstructured<'_>,
) -> Result<Option<Change>, Error>
    ensures memory { IfErr result (λ e. e ≡ Error.Memory) }
{
    match break_body(alloc, ModuleFamily::UnsetLocal, module, u)? {
        Some(change) => Ok(Some(change)),
        None => unset_locals(alloc, module, u),
    }
}

// Draws a change of `module` of the family `family`, if one fits.
fn find_change(
    alloc: Global,
    family: ModuleFamily,
    module: &Module,
    u: &mut Unstructured<'_>,
) -> Result<Option<Change>, Error>
    ensures memory { IfErr result (λ e. e ≡ Error.Memory) }
{
    match family {
        ModuleFamily::FunctionResult => Ok(end_body(module, u)),
        ModuleFamily::UnsetLocal => find_unset(alloc, module, u),
        ModuleFamily::ImmutableGlobal => find_immutable(alloc, module, u),
        ModuleFamily::Supertype => break_supertype(alloc, module, u),
        ModuleFamily::FinalType => finish_type(alloc, module, u),
        ModuleFamily::ForwardReference => refer_forward(alloc, module, u),
        ModuleFamily::Limits => Ok(break_limits(module, u)),
        ModuleFamily::DuplicateExport => repeat_export(alloc, module, u),
        ModuleFamily::ExportIndex => export_past_end(alloc, module, u),
        ModuleFamily::StartFunction => break_start(alloc, module, u),
        ModuleFamily::ConstantType | ModuleFamily::NonConstant | ModuleFamily::LaterGlobal => {
            break_constant(alloc, family, module, u)
        }
        ModuleFamily::FunctionType => Ok(break_function(module, u)),
        ModuleFamily::TagType => Ok(break_tag(module, u)),
        ModuleFamily::ImportType => Ok(break_import(module, u)),
        ModuleFamily::ElementSegment => break_element(alloc, module, u),
        ModuleFamily::DataSegment => break_data(alloc, module, u),
        _ => break_body(alloc, family, module, u),
    }
}

/// Draws a change of `module` of the family `family` from the bytes of `u`, and makes it. Returns the place
/// where it is, or `None` if nothing in the module fits the family; then the module is what it was. The
/// first place that fits is taken, from a drawn one on. A change may leave the module valid.
///
/// # Errors
///
/// Returns `Memory` if an allocation fails. Then parts of the module may be missing.
pub fn draw_change(
    alloc: Global,
    family: ModuleFamily,
    module: &mut Module,
    u: &mut Unstructured<'_>,
) -> Result<Option<Place>, Error>
    // The module is changed at the place alone.
    ensures drawn { IfOk result (λ found. IsDrawn found «module».old «module».new) }
    ensures memory { IfErr result (λ e. e ≡ Error.Memory) }
{
    match find_change(alloc, family, module, u)? {
        None => Ok(None),
        Some(change) => make_change(alloc, module, change),
    }
}
