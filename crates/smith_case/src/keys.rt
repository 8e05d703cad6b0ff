use crate::call::{Call, ConfigCall, DrawCall, ModuleCall, ShapeCall};
use crate::case::Case;
use crate::fault::Fault;

/// The keys that a call reads, besides those of every case.
#[derive(Clone, Copy)]
struct Keys {
    config: bool,
    shapes: bool,
    shape: bool,
    types: bool,
    args: bool,
    input: bool,
}

const NONE: Keys = Keys {
    config: false,
    shapes: false,
    shape: false,
    types: false,
    args: false,
    input: false,
};

// The keys that each draw reads.
const DRAWN: Keys = Keys {
    config: true,
    args: true,
    input: true,
    ..NONE
};

/// Checks that `call` reads each key that `case` has, and that there are at most `most` arguments.
///
/// # Errors
///
/// Returns `UselessKey` if `call` does not read a key of `case`, else `TooManyArguments`.
pub fn check_keys(case: &Case, call: Call, most: usize) -> Result<(), Fault> {
    if has_useless_key(case, keys_of(call)) {
        return Err(Fault::UselessKey);
    }
    if case.args().len() > most {
        return Err(Fault::TooManyArguments);
    }
    Ok(())
}

// Returns whether `case` has a key that is none of `keys`.
fn has_useless_key(case: &Case, keys: Keys) -> bool {
    (case.config.is_some() && !keys.config)
        || (case.shapes.has_configured() && !keys.shapes)
        || (case.shapes.shape.is_some() && !keys.shape)
        || (case.shapes.types.is_some() && !keys.types)
        || (case.args.is_some() && !keys.args)
        || ((case.input.is_some() || case.inputs.is_some()) && !keys.input)
}

#[rattlefmt::skip]
fn keys_of(call: Call) -> Keys {
    match call {
        Call::Module(call) => keys_of_module(call),
        Call::Program(_) => Keys { shapes: true, ..DRAWN },
        Call::Config(call) => keys_of_config(call),
        Call::Shape(call) => keys_of_shape(call),
        Call::Draw(DrawCall::Number(_)) => DRAWN,
        Call::Draw(_) => Keys { types: true, ..DRAWN },
        Call::Source(_) | Call::Name(_) => Keys { args: true, input: true, ..NONE },
        Call::Parser(_) | Call::ReadConfig => Keys { args: true, ..NONE },
        Call::File(_) => Keys { config: true, input: true, ..NONE },
        Call::Space(_) => Keys { types: true, args: true, ..NONE },
        Call::Recorded => Keys { config: true, shapes: true, args: true, ..NONE },
    }
}

fn keys_of_module(call: ModuleCall) -> Keys {
    let is_configured = !matches!(call, ModuleCall::Arbitrary | ModuleCall::NewOfDrawn);
    Keys {
        config: is_configured,
        shapes: is_configured,
        args: is_configured,
        input: true,
        ..NONE
    }
}

fn keys_of_config(call: ConfigCall) -> Keys {
    let is_drawn = matches!(call, ConfigCall::Arbitrary);
    Keys {
        config: !is_drawn,
        shapes: !is_drawn,
        input: is_drawn,
        ..NONE
    }
}

fn keys_of_shape(call: ShapeCall) -> Keys {
    let is_configured = !matches!(call, ShapeCall::Copies);
    Keys {
        config: is_configured,
        shapes: is_configured,
        shape: true,
        args: matches!(call, ShapeCall::Check),
        ..NONE
    }
}
