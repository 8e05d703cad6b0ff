ghost use Rattle.std.specs.Prelude.{IsTrue, IfOk};
ghost use Rattle.smith_config.specs.Sanitized.{IsSanitized};

use crate::answer_lines::write_drawn;
use crate::answers::spaces::Over;
use smith_bytes::Unstructured;
use smith_case::arguments::value;
use smith_case::call::FreeCall;
use smith_case::{Fault, Obstacle};
use smith_draw::{
    arbitrary_composite_type, arbitrary_field_type, arbitrary_func_type, arbitrary_heap_type,
    arbitrary_ref_type, arbitrary_storage_type, arbitrary_struct_type, arbitrary_sub_type,
    arbitrary_sub_type_of_super_type, arbitrary_valtype,
};

// Bounds of a drawn type.
#[derive(Clone, Copy)]
struct Bounds {
    must_share: bool,
    limit: u32,
}

// Returns the bounds in the arguments: whether the type must be shared, and the index below which
// it may refer to types. Without arguments it need not be shared, and may refer to each type.
fn bounds_of(over: &Over<'_>) -> Result<Bounds, Fault>
    ensures { IfOk result (λ bounds. IsTrue bounds.must_share
        → IsTrue over.now.config.now.shared_everything_threads_enabled) }
{
    if over.case.args().is_empty() {
        return Ok(Bounds {
            must_share: false,
            limit: over.spaces.types.types().len() as u32,
        });
    }
    let must_share = value(over.case, 0)?;
    if must_share && !over.config.shared_everything_threads_enabled {
        return Err(Fault::NotCallable(Obstacle::NoSharedTypes));
    }
    Ok(Bounds {
        must_share,
        limit: value(over.case, 1)?,
    })
}

/// Appends the type that `call` draws.
pub(crate) fn answer_free_type(
    over: &Over<'_>,
    call: FreeCall,
    u: &mut Unstructured<'_>,
    answer: &mut String,
) -> Result<(), Fault>
    requires { IsSanitized over.now.config.now }
{
    let bounds = bounds_of(over)?;
    match call {
        FreeCall::SubOfSuper => answer_subtype_of_one(over, bounds.limit, u, answer),
        _ => answer_type(over, call, bounds, u, answer),
    }
}

// Appends a subtype of one of the types of the case, whose first type may have subtypes.
fn answer_subtype_of_one(
    over: &Over<'_>,
    limit: u32,
    u: &mut Unstructured<'_>,
    answer: &mut String,
) -> Result<(), Fault>
    requires { IsSanitized over.now.config.now }
{
    let types = over.spaces.types;
    if !over.config.gc_enabled
        || types.types().is_empty()
        || types.types()[0].is_final
        || types.depth(0) >= 60
    {
        return Err(Fault::NotCallable(Obstacle::FinalType));
    }
    write_drawn(
        arbitrary_sub_type_of_super_type(over.alloc, over.config, over.spaces, limit, u),
        answer,
    )
}

// Appends the type, or the part of a type, that `$draw` draws within `$bounds`.
macro_rules! write_part {
    ($draw:ident, $over:expr, $bounds:expr, $u:expr, $answer:expr) => {
        write_drawn(
            $draw(
                $over.alloc,
                $over.config,
                $over.spaces,
                $bounds.must_share,
                $bounds.limit,
                $u,
            ),
            $answer,
        )
    };
}

// Appends a type, or a part of one.
fn answer_type(
    over: &Over<'_>,
    call: FreeCall,
    bounds: Bounds,
    u: &mut Unstructured<'_>,
    answer: &mut String,
) -> Result<(), Fault>
    requires sanitized { IsSanitized over.now.config.now }
    requires may_share { IsTrue bounds.must_share
        → IsTrue over.now.config.now.shared_everything_threads_enabled }
{
    match call {
        FreeCall::Sub => write_drawn(
            arbitrary_sub_type(over.alloc, over.config, over.spaces, bounds.limit, u),
            answer,
        ),
        FreeCall::Composite => write_drawn(
            arbitrary_composite_type(over.alloc, over.config, over.spaces, bounds.limit, u),
            answer,
        ),
        FreeCall::Struct => write_part!(arbitrary_struct_type, over, bounds, u, answer),
        FreeCall::Func => write_part!(arbitrary_func_type, over, bounds, u, answer),
        FreeCall::Field => write_part!(arbitrary_field_type, over, bounds, u, answer),
        FreeCall::Storage => write_part!(arbitrary_storage_type, over, bounds, u, answer),
        FreeCall::Val => write_part!(arbitrary_valtype, over, bounds, u, answer),
        FreeCall::Ref => write_part!(arbitrary_ref_type, over, bounds, u, answer),
        _ => write_part!(arbitrary_heap_type, over, bounds, u, answer),
    }
}
