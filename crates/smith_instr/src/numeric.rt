// Numbers of variants are their opcodes in the binary format, or their numbers after the prefix.

/// An operator on one integer: the standard's section Structure, Numeric Instructions, unop at an
/// integer type.
#[derive(Clone, Copy, Debug)]
pub enum IntUnary {
    Clz,
    Ctz,
    Popcnt,
}

/// An operator on two integers: binop.
#[derive(Clone, Copy, Debug)]
pub enum IntBinary {
    Add,
    Sub,
    Mul,
    DivS,
    DivU,
    RemS,
    RemU,
    And,
    Or,
    Xor,
    Shl,
    ShrS,
    ShrU,
    Rotl,
    Rotr,
}

/// A comparison of two integers: relop.
#[derive(Clone, Copy, Debug)]
pub enum IntCompare {
    Eq,
    Ne,
    LtS,
    LtU,
    GtS,
    GtU,
    LeS,
    LeU,
    GeS,
    GeU,
}

/// An operator on one float: unop at a float type.
#[derive(Clone, Copy, Debug)]
pub enum FloatUnary {
    Abs,
    Neg,
    Ceil,
    Floor,
    Trunc,
    Nearest,
    Sqrt,
}

/// An operator on two floats: binop.
#[derive(Clone, Copy, Debug)]
pub enum FloatBinary {
    Add,
    Sub,
    Mul,
    Div,
    Min,
    Max,
    Copysign,
}

/// A comparison of two floats: relop.
#[derive(Clone, Copy, Debug)]
pub enum FloatCompare {
    Eq,
    Ne,
    Lt,
    Gt,
    Le,
    Ge,
}

/// A conversion between number types, except saturating ones: cvtop.
#[derive(Clone, Copy, Debug)]
pub enum Conversion {
    I32WrapI64 = 0xA7,
    I64ExtendI32S = 0xAC,
    I64ExtendI32U = 0xAD,
    I32TruncF32S = 0xA8,
    I32TruncF32U = 0xA9,
    I32TruncF64S = 0xAA,
    I32TruncF64U = 0xAB,
    I64TruncF32S = 0xAE,
    I64TruncF32U = 0xAF,
    I64TruncF64S = 0xB0,
    I64TruncF64U = 0xB1,
    F32ConvertI32S = 0xB2,
    F32ConvertI32U = 0xB3,
    F32ConvertI64S = 0xB4,
    F32ConvertI64U = 0xB5,
    F32DemoteF64 = 0xB6,
    F64ConvertI32S = 0xB7,
    F64ConvertI32U = 0xB8,
    F64ConvertI64S = 0xB9,
    F64ConvertI64U = 0xBA,
    F64PromoteF32 = 0xBB,
    I32ReinterpretF32 = 0xBC,
    I64ReinterpretF64 = 0xBD,
    F32ReinterpretI32 = 0xBE,
    F64ReinterpretI64 = 0xBF,
}

/// A saturating conversion of a float to an integer: cvtop, trunc_sat.
#[derive(Clone, Copy, Debug)]
pub enum SaturatingConversion {
    I32TruncSatF32S = 0,
    I32TruncSatF32U = 1,
    I32TruncSatF64S = 2,
    I32TruncSatF64U = 3,
    I64TruncSatF32S = 4,
    I64TruncSatF32U = 5,
    I64TruncSatF64S = 6,
    I64TruncSatF64U = 7,
}

/// A sign extension within an integer: unop, extendN_s.
#[derive(Clone, Copy, Debug)]
pub enum SignExtension {
    I32From8 = 0xC0,
    I32From16 = 0xC1,
    I64From8 = 0xC2,
    I64From16 = 0xC3,
    I64From32 = 0xC4,
}

/// Arithmetic on integers of 128 bits, each as two of 64: the wide arithmetic proposal.
#[derive(Clone, Copy, Debug)]
pub enum WideArithmetic {
    Add128 = 19,
    Sub128 = 20,
    MulWideS = 21,
    MulWideU = 22,
}

/// A numeric instruction without immediates: the standard's section Structure, Numeric
/// Instructions.
#[derive(Clone, Copy, Debug)]
pub enum NumericInstr {
    /// A unary operator of `i32`.
    I32Unary(IntUnary),
    /// A unary operator of `i64`.
    I64Unary(IntUnary),
    /// A unary operator of `f32`.
    F32Unary(FloatUnary),
    /// A unary operator of `f64`.
    F64Unary(FloatUnary),
    /// A binary operator of `i32`.
    I32Binary(IntBinary),
    /// A binary operator of `i64`.
    I64Binary(IntBinary),
    /// A binary operator of `f32`.
    F32Binary(FloatBinary),
    /// A binary operator of `f64`.
    F64Binary(FloatBinary),
    /// `i32.eqz`.
    I32Eqz,
    /// `i64.eqz`.
    I64Eqz,
    /// A comparison of `i32`.
    I32Compare(IntCompare),
    /// A comparison of `i64`.
    I64Compare(IntCompare),
    /// A comparison of `f32`.
    F32Compare(FloatCompare),
    /// A comparison of `f64`.
    F64Compare(FloatCompare),
    /// A conversion, except saturating ones.
    Convert(Conversion),
    /// A saturating conversion.
    Saturate(SaturatingConversion),
    /// A sign extension.
    Extend(SignExtension),
    /// Wide arithmetic.
    Wide(WideArithmetic),
}
