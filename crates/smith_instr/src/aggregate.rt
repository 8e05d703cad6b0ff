/// The extension of a packed integer that is read: the standard's section Structure, Aggregate
/// Instructions.
#[derive(Clone, Copy, Debug)]
pub enum Extension {
    /// No extension: the field is not packed.
    Unpacked,
    /// With its sign.
    Signed,
    /// With zeros.
    Unsigned,
}

/// An aggregate instruction: the standard's section Structure, Aggregate Instructions. Types,
/// segments and fields are named by their indices.
#[derive(Clone, Copy, Debug)]
pub enum AggregateInstr {
    /// `struct.new` of a struct type.
    StructNew(u32),
    /// `struct.new_default` of a struct type.
    StructNewDefault(u32),
    /// `struct.get`, `struct.get_s` and `struct.get_u` of a field of the struct type `ty`.
    StructGet {
        ty: u32,
        field: u32,
        extension: Extension,
    },
    /// `struct.set` of a field of the struct type `ty`.
    StructSet {
        ty: u32,
        field: u32,
    },
    /// `array.new` of an array type.
    ArrayNew(u32),
    /// `array.new_default` of an array type.
    ArrayNewDefault(u32),
    /// `array.new_fixed` of the array type `ty`, with `size` elements.
    ArrayNewFixed {
        ty: u32,
        size: u32,
    },
    /// `array.new_data` of the array type `ty` from a data segment.
    ArrayNewData {
        ty: u32,
        segment: u32,
    },
    /// `array.new_elem` of the array type `ty` from an element segment.
    ArrayNewElem {
        ty: u32,
        segment: u32,
    },
    /// `array.get`, `array.get_s` and `array.get_u` of the array type `ty`.
    ArrayGet {
        ty: u32,
        extension: Extension,
    },
    /// `array.set` of an array type.
    ArraySet(u32),
    /// `array.len`.
    ArrayLen,
    /// `array.fill` of an array type.
    ArrayFill(u32),
    /// `array.copy` into an array of the type `to` from an array of the type `from`.
    ArrayCopy {
        to: u32,
        from: u32,
    },
    /// `array.init_data` of the array type `ty` from a data segment.
    ArrayInitData {
        ty: u32,
        segment: u32,
    },
    /// `array.init_elem` of the array type `ty` from an element segment.
    ArrayInitElem {
        ty: u32,
        segment: u32,
    },
    /// `ref.i31`.
    RefI31,
    /// `ref.i31_shared` of the shared-everything-threads proposal.
    RefI31Shared,
    /// `i31.get_s`.
    I31GetS,
    /// `i31.get_u`.
    I31GetU,
    /// `any.convert_extern`.
    AnyConvertExtern,
    /// `extern.convert_any`.
    ExternConvertAny,
}
