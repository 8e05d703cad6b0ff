/// A fault of the text of a configuration.
#[derive(Clone, Copy, Debug, PartialEq, Eq)]
pub enum Fault {
    /// There is no JSON object, or the text is not JSON from some point on.
    NotAnObject,
    /// No field has the name.
    UnknownField,
    /// An earlier member has the same name.
    RepeatedField,
    /// The value does not have the field's type.
    WrongType,
    /// The value has the field's type, but is out of the field's range.
    OutOfRange,
    /// Something follows the object.
    TextAfter,
    /// Memory ran out.
    OutOfMemory,
}
