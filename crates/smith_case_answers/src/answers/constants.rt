ghost use Rattle.std.specs.Prelude.{◌≡◌, false, length, IsTrue, IfOk};
ghost use Rattle.smith_config.specs.Features.{features_of};
ghost use Rattle.smith_types.specs.ValidTypes.{AreTypesValid, IsRefTypeValid, IsValTypeValid};

use crate::answer_lines::{
    write_drawn_values, write_line, write_pair, write_refusal, write_values,
};
use crate::answers::spaces::{Over, number_global, spaces_of, with_globals};
use smith_bytes::{Error, Unstructured};
use smith_case::arguments::{value, word};
use smith_case::call::ConstantCall;
use smith_case::shapes::{ref_type_of, val_type_of};
use smith_case::{Case, Fault, Obstacle};
use smith_draw::{arbitrary_const_expr, arbitrary_table_init, globals_for_const_expr};
use smith_types::{ConstInstr, Items, RefType, ValType};
use smith_validity::{are_types_valid, is_ref_type_valid, is_val_type_valid};

/// Appends the constant expression that `call` draws, or the globals that it may read.
pub(crate) fn answer_constant(
    over: &Over<'_>,
    call: ConstantCall,
    u: &mut Unstructured<'_>,
    answer: &mut String,
) -> Result<(), Fault> {
    if !are_types_valid(over.config.features(), over.spaces.types) {
        return Err(Fault::NotCallable(Obstacle::InvalidTypes));
    }
    match call {
        ConstantCall::TableInit => answer_initialiser(over, u, answer),
        _ => answer_value(over, call, u, answer),
    }
}

// Appends an expression of the value type of the first argument, or the globals from which such a
// value may be read. The second argument says whether defined globals may be read. With a third
// argument, `count`, only the number of instructions of the expression is appended.
fn answer_value(
    over: &Over<'_>,
    call: ConstantCall,
    u: &mut Unstructured<'_>,
    answer: &mut String,
) -> Result<(), Fault>
    requires types { AreTypesValid (features_of over.now.config.now) over.now.spaces.now.types.now }
{
    let is_counted = is_counted(over.case)?;
    let allow_defined = value(over.case, 1)?;
    let wanted = wanted_of(over)?;
    if matches!(call, ConstantCall::Globals) {
        return write_drawn_values(readable_globals(over, wanted, allow_defined), answer);
    }
    let drawn = drawn_expression(over, wanted, allow_defined, u);
    if is_counted {
        return write_count(drawn, answer);
    }
    write_drawn_values(drawn, answer)
}

// Returns whether the third argument is `count`.
fn is_counted(case: &Case) -> Result<bool, Fault> {
    match case.args().get(2) {
        None => Ok(false),
        Some(word) if word.as_str() == "count" => Ok(true),
        Some(_) => Err(Fault::Argument(2)),
    }
}

// Returns the value type of the first argument, which is valid over the types.
fn wanted_of(over: &Over<'_>) -> Result<ValType, Fault>
    ensures { IfOk result (IsValTypeValid (features_of over.now.config.now)
        (length over.now.spaces.now.types.now.types)) }
{
    let Some(wanted) = val_type_of(word(over.case, 0)?) else {
        return Err(Fault::Argument(0));
    };
    if !is_val_type_valid(
        over.config.features(),
        over.spaces.types.types().len(),
        wanted,
    ) {
        return Err(Fault::NotCallable(Obstacle::InvalidValueType));
    }
    Ok(wanted)
}

fn drawn_expression(
    over: &Over<'_>,
    wanted: ValType,
    allow_defined: bool,
    u: &mut Unstructured<'_>,
) -> Result<Items<ConstInstr>, Error>
    requires types { AreTypesValid (features_of over.now.config.now) over.now.spaces.now.types.now }
    requires wanted { IsValTypeValid (features_of over.now.config.now)
        (length over.now.spaces.now.types.now.types) wanted }
{
    let spaces = spaces_of(over.spaces.types);
    arbitrary_const_expr(over.alloc, over.config, &spaces, wanted, allow_defined, u)
}

// Appends the number of instructions of the expression that is drawn, or the refusal.
fn write_count(drawn: Result<Items<ConstInstr>, Error>, answer: &mut String) -> Result<(), Fault> {
    match drawn {
        Ok(drawn) => write_pair(drawn.as_slice().len(), "instructions", answer),
        Err(refusal) => write_refusal(refusal, answer),
    }
}

// Returns the globals from which a value of the type `wanted` may be read. The globals are an
// imported variable, an imported constant and a defined constant, all of type `i32`.
fn readable_globals(
    over: &Over<'_>,
    wanted: ValType,
    allow_defined: bool,
) -> Result<Items<u32>, Error>
    requires types { AreTypesValid (features_of over.now.config.now) over.now.spaces.now.types.now }
    requires wanted { IsValTypeValid (features_of over.now.config.now)
        (length over.now.spaces.now.types.now.types) wanted }
{
    let globals = [
        number_global(true),
        number_global(false),
        number_global(false),
    ];
    let spaces = with_globals(over.spaces.types, &globals);
    globals_for_const_expr(over.alloc, over.config, &spaces, wanted, allow_defined)
}

// Returns the element type of the argument: valid over the types, and of a kind for which an
// initialiser may be drawn.
fn element_of(over: &Over<'_>) -> Result<RefType, Fault>
    ensures valid { IfOk result (IsRefTypeValid (features_of over.now.config.now)
        (length over.now.spaces.now.types.now.types)) }
    ensures created { IfOk result (λ element.
        element.nullable ≡ false → IsTrue over.now.config.now.gc_enabled) }
{
    let Some(element) = ref_type_of(word(over.case, 0)?) else {
        return Err(Fault::Argument(0));
    };
    if !is_ref_type_valid(
        over.config.features(),
        over.spaces.types.types().len(),
        element,
    ) {
        return Err(Fault::NotCallable(Obstacle::InvalidElementType));
    }
    if !element.nullable && !over.config.gc_enabled {
        return Err(Fault::NotCallable(Obstacle::NoElement));
    }
    Ok(element)
}

// Appends an initialiser of a table whose elements have the reference type of the argument.
fn answer_initialiser(
    over: &Over<'_>,
    u: &mut Unstructured<'_>,
    answer: &mut String,
) -> Result<(), Fault>
    requires types { AreTypesValid (features_of over.now.config.now) over.now.spaces.now.types.now }
{
    let element = element_of(over)?;
    if over.config.gc_enabled && !over.config.reference_types_enabled {
        return Err(Fault::NotCallable(Obstacle::NoReferences));
    }
    let spaces = spaces_of(over.spaces.types);
    match arbitrary_table_init(over.alloc, over.config, &spaces, element, u) {
        Ok(Some(drawn)) => write_values(drawn.as_slice(), answer),
        Ok(None) => write_line("none", answer),
        Err(refusal) => write_refusal(refusal, answer),
    }
}
