ghost use Rattle.smith_config.specs.Sanitized.{IsSanitized};

use crate::answer_lines::{write_drawn, write_drawn_values};
use crate::answers::spaces::Over;
use smith_bytes::Unstructured;
use smith_case::call::EntityCall;
use smith_case::{Fault, Obstacle};
use smith_draw::{
    TypeUse, arbitrary_global_type, arbitrary_locals, arbitrary_memtype, arbitrary_table_type,
    arbitrary_tag_type, count_types,
};

/// Appends the type of an entity that `call` draws, or the locals.
pub(crate) fn answer_entity(
    over: &Over<'_>,
    call: EntityCall,
    u: &mut Unstructured<'_>,
    answer: &mut String,
) -> Result<(), Fault>
    requires { IsSanitized over.now.config.now }
{
    match call {
        EntityCall::Global => write_drawn(
            arbitrary_global_type(over.alloc, over.config, over.spaces, u),
            answer,
        ),
        EntityCall::Table => write_drawn(
            arbitrary_table_type(over.alloc, over.config, over.spaces, u),
            answer,
        ),
        EntityCall::Mem => write_drawn(arbitrary_memtype(over.config, u), answer),
        EntityCall::Locals => write_drawn_values(
            arbitrary_locals(over.alloc, over.config, over.spaces, u),
            answer,
        ),
        EntityCall::Tag => {
            if count_types(TypeUse::Tag, over.spaces.types.types()) == 0 {
                return Err(Fault::NotCallable(Obstacle::NoTagType));
            }
            write_drawn(
                arbitrary_tag_type(over.alloc, over.config, over.spaces, u),
                answer,
            )
        }
    }
}
