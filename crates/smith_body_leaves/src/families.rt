ghost use Rattle.std.specs.Prelude.{◌≡◌};
ghost use Rattle.smith_body_leaves.specs.DrawnLeaves.{created_families};
ghost use Rattle.smith_body_leaves.specs.Leaves.{leaf_families};

/// Families of instructions that may produce a value without operands.
#[derive(Clone, Copy)]
pub(crate) enum LeafFamily {
    Local,
    Global,
    Reference,
    Constant,
}

/// Lists the families of values without operands, each as often as its weight.
pub(crate) fn leaf_families<'a>() -> &'a [LeafFamily]
    ensures { result.now ≡ leaf_families }
{
    &[
        LeafFamily::Local,
        LeafFamily::Local,
        LeafFamily::Global,
        LeafFamily::Reference,
        LeafFamily::Constant,
    ]
}

/// Families of created values.
#[derive(Clone, Copy)]
pub(crate) enum CreatedFamily {
    /// A struct of default values.
    Struct,
    /// An array of default values.
    Array,
    I31,
}

/// Lists the families of created values, and `None` for null, each as often as its weight.
pub(crate) fn created_families<'a>() -> &'a [Option<CreatedFamily>]
    ensures { result.now ≡ created_families }
{
    &[
        Some(CreatedFamily::Struct),
        Some(CreatedFamily::Struct),
        Some(CreatedFamily::Struct),
        Some(CreatedFamily::Struct),
        Some(CreatedFamily::Struct),
        Some(CreatedFamily::Array),
        Some(CreatedFamily::Array),
        Some(CreatedFamily::Array),
        Some(CreatedFamily::Array),
        Some(CreatedFamily::Array),
        Some(CreatedFamily::I31),
        Some(CreatedFamily::I31),
        Some(CreatedFamily::I31),
        Some(CreatedFamily::I31),
        Some(CreatedFamily::I31),
        None,
    ]
}
