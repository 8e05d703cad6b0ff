ghost use Rattle.smith_config.specs.Sanitized.{IsSanitized};

use crate::answer_lines::write_drawn;
use crate::answers::spaces::Over;
use smith_bytes::Unstructured;
use smith_case::Fault;
use smith_case::arguments::{value, word};
use smith_case::call::MatchingCall;
use smith_case::shapes::{
    field_type_of, function_of, heap_type_of, ref_type_of, storage_type_of, val_type_of,
};
use smith_draw::{
    arbitrary_matching_field_type, arbitrary_matching_func_type, arbitrary_matching_heap_type,
    arbitrary_matching_ref_type, arbitrary_matching_storage_type, arbitrary_matching_struct_type,
    arbitrary_matching_val_type, arbitrary_super_type_of_heap_type,
    arbitrary_super_type_of_ref_type, arbitrary_super_type_of_val_type,
};
use smith_types::CompositeInnerType;

// Appends the type that `$draw` draws for the type that `$text` denotes, if `$read` can read it.
macro_rules! write_wanted {
    ($over:expr, $text:expr, $u:expr, $answer:expr; $read:ident => $draw:ident) => {
        match $read($text) {
            Some(wanted) => write_drawn(
                $draw($over.alloc, $over.config, $over.spaces, wanted, $u),
                $answer,
            ),
            None => Err(Fault::Argument(0)),
        }
    };
}

/// Appends the subtype or supertype of the argument that `call` draws.
pub(crate) fn answer_matching(
    over: &Over<'_>,
    call: MatchingCall,
    u: &mut Unstructured<'_>,
    answer: &mut String,
) -> Result<(), Fault>
    requires { IsSanitized over.now.config.now }
{
    let text = word(over.case, 0)?;
    match call {
        MatchingCall::Func => answer_function(over, text, u, answer),
        MatchingCall::Struct => answer_structure(over, u, answer),
        _ => answer_part(over, call, text, u, answer),
    }
}

// Appends a subtype of the type that `text` denotes, or a supertype.
#[rattlefmt::skip]
fn answer_part(
    over: &Over<'_>,
    call: MatchingCall,
    text: &str,
    u: &mut Unstructured<'_>,
    answer: &mut String,
) -> Result<(), Fault> {
    match call {
        MatchingCall::Field => write_wanted!(over, text, u, answer; field_type_of => arbitrary_matching_field_type),
        MatchingCall::Storage => write_wanted!(over, text, u, answer; storage_type_of => arbitrary_matching_storage_type),
        MatchingCall::Val => write_wanted!(over, text, u, answer; val_type_of => arbitrary_matching_val_type),
        MatchingCall::Ref => write_wanted!(over, text, u, answer; ref_type_of => arbitrary_matching_ref_type),
        MatchingCall::Heap => write_wanted!(over, text, u, answer; heap_type_of => arbitrary_matching_heap_type),
        MatchingCall::AboveVal => write_wanted!(over, text, u, answer; val_type_of => arbitrary_super_type_of_val_type),
        MatchingCall::AboveRef => write_wanted!(over, text, u, answer; ref_type_of => arbitrary_super_type_of_ref_type),
        _ => write_wanted!(over, text, u, answer; heap_type_of => arbitrary_super_type_of_heap_type),
    }
}

// Appends a struct type that matches the type of the case at the index of the argument.
fn answer_structure(
    over: &Over<'_>,
    u: &mut Unstructured<'_>,
    answer: &mut String,
) -> Result<(), Fault>
    requires { IsSanitized over.now.config.now }
{
    let types = over.spaces.types.types();
    let Some(ty) = types.get(value::<usize>(over.case, 0)?) else {
        return Err(Fault::Argument(0));
    };
    let CompositeInnerType::Struct(structure) = &ty.composite_type.inner else {
        return Err(Fault::Argument(0));
    };
    write_drawn(
        arbitrary_matching_struct_type(
            over.alloc,
            over.config,
            over.spaces,
            structure,
            false,
            types.len() as u32,
            u,
        ),
        answer,
    )
}

// Appends a function type that matches the argument `text`, which is written as in shapes: `func
// i32 -> i64`.
fn answer_function(
    over: &Over<'_>,
    text: &str,
    u: &mut Unstructured<'_>,
    answer: &mut String,
) -> Result<(), Fault> {
    let Some(written) = text.strip_prefix("func ") else {
        return Err(Fault::Argument(0));
    };
    let function = match function_of(over.alloc, written) {
        Ok(function) => function,
        Err(Fault::UnknownShape) => return Err(Fault::Argument(0)),
        Err(fault) => return Err(fault),
    };
    write_drawn(
        arbitrary_matching_func_type(over.alloc, over.config, over.spaces, &function, u),
        answer,
    )
}
