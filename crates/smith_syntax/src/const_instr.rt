use crate::value_type::HeapType;

/// An instruction of a constant expression. See the standard, section Validation, Constant
/// Expressions. Globals, functions and types are given by their indices.
#[derive(Clone, Copy, Debug, PartialEq)]
pub enum ConstInstr {
    /// `i32.const` with the value.
    I32Const(i32),
    /// `i64.const` with the value.
    I64Const(i64),
    /// `f32.const` with the bits of the value.
    F32Const(u32),
    /// `f64.const` with the bits of the value.
    F64Const(u64),
    /// `v128.const` with the bits of the value.
    V128Const(i128),
    /// `global.get` of a global.
    GlobalGet(u32),
    /// `ref.null` of a heap type.
    RefNull(HeapType),
    /// `ref.func` of a function.
    RefFunc(u32),
    /// `i32.add`.
    I32Add,
    /// `i32.sub`.
    I32Sub,
    /// `i32.mul`.
    I32Mul,
    /// `i64.add`.
    I64Add,
    /// `i64.sub`.
    I64Sub,
    /// `i64.mul`.
    I64Mul,
    /// `ref.i31`.
    RefI31,
    /// `ref.i31_shared` of the shared-everything-threads proposal.
    RefI31Shared,
    /// `struct.new` of a struct type.
    StructNew(u32),
    /// `struct.new_default` of a struct type.
    StructNewDefault(u32),
    /// `array.new` of an array type.
    ArrayNew(u32),
    /// `array.new_default` of an array type.
    ArrayNewDefault(u32),
    /// `array.new_fixed` of the array type `array_type_index`, with `array_size` elements.
    ArrayNewFixed {
        array_type_index: u32,
        array_size: u32,
    },
    /// `any.convert_extern`.
    AnyConvertExtern,
    /// `extern.convert_any`.
    ExternConvertAny,
}
