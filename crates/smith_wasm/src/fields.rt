ghost use Rattle.std.specs.Prelude.{◌≡◌, length};

/// A field of the configuration.
pub(crate) struct Field {
    /// The name, in lower case and with hyphens.
    pub(crate) name: &'static str,
    /// A sentence on the meaning of the field.
    pub(crate) about: &'static str,
}

/// The row of a field.
macro_rules! field {
    ($name:literal, $place:ident $(($part:ident))?, $about:literal) => {
        Field {
            name: $name,
            about: $about,
        }
    };
}

static FIELDS: [Field; 71] = smith_config_json::fields!(field);

/// Returns every field, in the order of `Config`.
pub(crate) fn fields() -> &'static [Field]
    ensures { length result.now ≡ 71 }
{
    &FIELDS
}
