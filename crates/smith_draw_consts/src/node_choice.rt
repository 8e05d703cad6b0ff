ghost use Rattle.std.specs.Prelude.{◌≡◌};
ghost use Rattle.smith_draw_consts.specs.ConstNodes.{is_extended};

/// A way to produce a value.
#[derive(Clone, Copy)]
pub(crate) enum Choice {
    Global(u32),
    /// A constant of the wanted type, or null.
    Constant,
    /// An extended constant: operators over constants of an integer type.
    Extended,
    Function(u32),
    /// A struct created from its fields.
    Struct(u32),
    StructDefault(u32),
    /// An array that repeats one element, created from the element and a length.
    Array(u32),
    /// An array of a few elements, created from each of them.
    FixedArray(u32),
    ArrayDefault(u32),
    I31,
    SharedI31,
    /// A conversion of an external reference.
    FromExtern,
    /// A conversion of an internal reference.
    FromAny,
}

pub(crate) fn is_extended(choice: Choice) -> bool
    ensures { result ≡ is_extended choice }
{
    matches!(choice, Choice::Extended)
}
