// Numbers of variants are those of the binary format, after the prefix of vectors.

/// The lanes of a vector of integers: the standard's section Structure, Vector Instructions,
/// ishape.
#[derive(Clone, Copy, Debug)]
pub enum IntShape {
    I8x16,
    I16x8,
    I32x4,
    I64x2,
}

/// The lanes of a vector: the standard's section Structure, Vector Instructions, shape.
#[derive(Clone, Copy, Debug)]
pub enum LaneShape {
    I8x16,
    I16x8,
    I32x4,
    I64x2,
    F32x4,
    F64x2,
}

/// The shape of an extracted lane, and the extension of its integer: the standard's section
/// Structure, Vector Instructions, extract_lane.
#[derive(Clone, Copy, Debug)]
pub enum LaneExtract {
    I8x16S = 21,
    I8x16U = 22,
    I16x8S = 24,
    I16x8U = 25,
    I32x4 = 27,
    I64x2 = 29,
    F32x4 = 31,
    F64x2 = 33,
}

/// An operator on one vector, without floats: the standard's section Structure, Vector
/// Instructions.
#[derive(Clone, Copy, Debug)]
pub enum VectorUnary {
    V128Not = 77,
    I8x16Abs = 96,
    I8x16Neg = 97,
    I8x16Popcnt = 98,
    I16x8Abs = 128,
    I16x8Neg = 129,
    I16x8ExtAddPairwiseI8x16S = 124,
    I16x8ExtAddPairwiseI8x16U = 125,
    I32x4Abs = 160,
    I32x4Neg = 161,
    I32x4ExtAddPairwiseI16x8S = 126,
    I32x4ExtAddPairwiseI16x8U = 127,
    I64x2Abs = 192,
    I64x2Neg = 193,
    I16x8ExtendLowI8x16S = 135,
    I16x8ExtendLowI8x16U = 137,
    I16x8ExtendHighI8x16S = 136,
    I16x8ExtendHighI8x16U = 138,
    I32x4ExtendLowI16x8S = 167,
    I32x4ExtendLowI16x8U = 169,
    I32x4ExtendHighI16x8S = 168,
    I32x4ExtendHighI16x8U = 170,
    I64x2ExtendLowI32x4S = 199,
    I64x2ExtendLowI32x4U = 201,
    I64x2ExtendHighI32x4S = 200,
    I64x2ExtendHighI32x4U = 202,
}

/// An operator on one vector, with floats: the standard's section Structure, Vector Instructions.
#[derive(Clone, Copy, Debug)]
pub enum VectorFloatUnary {
    F32x4Abs = 224,
    F32x4Neg = 225,
    F32x4Sqrt = 227,
    F32x4Ceil = 103,
    F32x4Floor = 104,
    F32x4Trunc = 105,
    F32x4Nearest = 106,
    F64x2Abs = 236,
    F64x2Neg = 237,
    F64x2Sqrt = 239,
    F64x2Ceil = 116,
    F64x2Floor = 117,
    F64x2Trunc = 122,
    F64x2Nearest = 148,
    I32x4TruncSatF32x4S = 248,
    I32x4TruncSatF32x4U = 249,
    I32x4TruncSatF64x2SZero = 252,
    I32x4TruncSatF64x2UZero = 253,
    F32x4ConvertI32x4S = 250,
    F32x4ConvertI32x4U = 251,
    F64x2ConvertLowI32x4S = 254,
    F64x2ConvertLowI32x4U = 255,
    F32x4DemoteF64x2Zero = 94,
    F64x2PromoteLowF32x4 = 95,
}

/// An operator on two vectors, without floats: the standard's section Structure, Vector
/// Instructions.
#[derive(Clone, Copy, Debug)]
pub enum VectorBinary {
    V128And = 78,
    V128AndNot = 79,
    V128Or = 80,
    V128Xor = 81,
    I8x16Swizzle = 14,
    I8x16Eq = 35,
    I8x16Ne = 36,
    I8x16LtS = 37,
    I8x16LtU = 38,
    I8x16GtS = 39,
    I8x16GtU = 40,
    I8x16LeS = 41,
    I8x16LeU = 42,
    I8x16GeS = 43,
    I8x16GeU = 44,
    I16x8Eq = 45,
    I16x8Ne = 46,
    I16x8LtS = 47,
    I16x8LtU = 48,
    I16x8GtS = 49,
    I16x8GtU = 50,
    I16x8LeS = 51,
    I16x8LeU = 52,
    I16x8GeS = 53,
    I16x8GeU = 54,
    I32x4Eq = 55,
    I32x4Ne = 56,
    I32x4LtS = 57,
    I32x4LtU = 58,
    I32x4GtS = 59,
    I32x4GtU = 60,
    I32x4LeS = 61,
    I32x4LeU = 62,
    I32x4GeS = 63,
    I32x4GeU = 64,
    I64x2Eq = 214,
    I64x2Ne = 215,
    I64x2LtS = 216,
    I64x2GtS = 217,
    I64x2LeS = 218,
    I64x2GeS = 219,
    I8x16Add = 110,
    I8x16AddSatS = 111,
    I8x16AddSatU = 112,
    I8x16Sub = 113,
    I8x16SubSatS = 114,
    I8x16SubSatU = 115,
    I8x16MinS = 118,
    I8x16MinU = 119,
    I8x16MaxS = 120,
    I8x16MaxU = 121,
    I8x16AvgrU = 123,
    I8x16NarrowI16x8S = 101,
    I8x16NarrowI16x8U = 102,
    I16x8Add = 142,
    I16x8AddSatS = 143,
    I16x8AddSatU = 144,
    I16x8Sub = 145,
    I16x8SubSatS = 146,
    I16x8SubSatU = 147,
    I16x8Mul = 149,
    I16x8MinS = 150,
    I16x8MinU = 151,
    I16x8MaxS = 152,
    I16x8MaxU = 153,
    I16x8AvgrU = 155,
    I16x8Q15MulrSatS = 130,
    I16x8NarrowI32x4S = 133,
    I16x8NarrowI32x4U = 134,
    I16x8ExtMulLowI8x16S = 156,
    I16x8ExtMulLowI8x16U = 158,
    I16x8ExtMulHighI8x16S = 157,
    I16x8ExtMulHighI8x16U = 159,
    I32x4Add = 174,
    I32x4Sub = 177,
    I32x4Mul = 181,
    I32x4MinS = 182,
    I32x4MinU = 183,
    I32x4MaxS = 184,
    I32x4MaxU = 185,
    I32x4DotI16x8S = 186,
    I32x4ExtMulLowI16x8S = 188,
    I32x4ExtMulLowI16x8U = 190,
    I32x4ExtMulHighI16x8S = 189,
    I32x4ExtMulHighI16x8U = 191,
    I64x2Add = 206,
    I64x2Sub = 209,
    I64x2Mul = 213,
    I64x2ExtMulLowI32x4S = 220,
    I64x2ExtMulLowI32x4U = 222,
    I64x2ExtMulHighI32x4S = 221,
    I64x2ExtMulHighI32x4U = 223,
}

/// An operator on two vectors, with floats: the standard's section Structure, Vector Instructions.
#[derive(Clone, Copy, Debug)]
pub enum VectorFloatBinary {
    F32x4Eq = 65,
    F32x4Ne = 66,
    F32x4Lt = 67,
    F32x4Gt = 68,
    F32x4Le = 69,
    F32x4Ge = 70,
    F32x4Add = 228,
    F32x4Sub = 229,
    F32x4Mul = 230,
    F32x4Div = 231,
    F32x4Min = 232,
    F32x4Max = 233,
    F32x4Pmin = 234,
    F32x4Pmax = 235,
    F64x2Eq = 71,
    F64x2Ne = 72,
    F64x2Lt = 73,
    F64x2Gt = 74,
    F64x2Le = 75,
    F64x2Ge = 76,
    F64x2Add = 240,
    F64x2Sub = 241,
    F64x2Mul = 242,
    F64x2Div = 243,
    F64x2Min = 244,
    F64x2Max = 245,
    F64x2Pmin = 246,
    F64x2Pmax = 247,
}

/// A shift of each lane: the standard's section Structure, Vector Instructions, vshiftop.
#[derive(Clone, Copy, Debug)]
pub enum VectorShift {
    Shl,
    ShrS,
    ShrU,
}

/// A relaxed operator on one vector, with floats: the standard's section Structure, Vector
/// Instructions.
#[derive(Clone, Copy, Debug)]
pub enum RelaxedFloatUnary {
    I32x4TruncF32x4S = 257,
    I32x4TruncF32x4U = 258,
    I32x4TruncF64x2SZero = 259,
    I32x4TruncF64x2UZero = 260,
}

/// A relaxed operator on two vectors, without floats: the standard's section Structure, Vector
/// Instructions.
#[derive(Clone, Copy, Debug)]
pub enum RelaxedBinary {
    I8x16Swizzle = 256,
    I16x8Q15MulrS = 273,
    I16x8DotI8x16I7x16S = 274,
}

/// A relaxed operator on two vectors, with floats: the standard's section Structure, Vector
/// Instructions.
#[derive(Clone, Copy, Debug)]
pub enum RelaxedFloatBinary {
    F32x4Min = 269,
    F32x4Max = 270,
    F64x2Min = 271,
    F64x2Max = 272,
}

/// A relaxed operator on three vectors, without floats: the standard's section Structure, Vector
/// Instructions.
#[derive(Clone, Copy, Debug)]
pub enum RelaxedTernary {
    I8x16Laneselect = 265,
    I16x8Laneselect = 266,
    I32x4Laneselect = 267,
    I64x2Laneselect = 268,
    I32x4DotI8x16I7x16AddS = 275,
}

/// A relaxed operator on three vectors, with floats: the standard's section Structure, Vector
/// Instructions.
#[derive(Clone, Copy, Debug)]
pub enum RelaxedFloatTernary {
    F32x4Madd = 261,
    F32x4Nmadd = 262,
    F64x2Madd = 263,
    F64x2Nmadd = 264,
}

/// A vector instruction that accesses no memory: the standard's section Structure, Vector
/// Instructions. A lane is named by its index.
#[derive(Clone, Copy, Debug)]
pub enum VectorInstr {
    /// An operator on one vector, without floats.
    Unary(VectorUnary),
    /// An operator on one vector, with floats.
    FloatUnary(VectorFloatUnary),
    /// An operator on two vectors, without floats.
    Binary(VectorBinary),
    /// An operator on two vectors, with floats.
    FloatBinary(VectorFloatBinary),
    /// `v128.bitselect`.
    Bitselect,
    /// `v128.any_true`.
    AnyTrue,
    /// `all_true` of a shape.
    AllTrue(IntShape),
    /// `bitmask` of a shape.
    Bitmask(IntShape),
    /// A shift of the lanes of a shape.
    Shift(VectorShift, IntShape),
    /// `splat` of a shape.
    Splat(LaneShape),
    /// `extract_lane` of a lane.
    ExtractLane(LaneExtract, u8),
    /// `replace_lane` of a lane.
    ReplaceLane(LaneShape, u8),
    /// `i8x16.shuffle`, with the lanes of the two operands that form the result.
    Shuffle([u8; 16]),
    /// A relaxed operator on one vector, with floats.
    RelaxedFloatUnary(RelaxedFloatUnary),
    /// A relaxed operator on two vectors, without floats.
    RelaxedBinary(RelaxedBinary),
    /// A relaxed operator on two vectors, with floats.
    RelaxedFloatBinary(RelaxedFloatBinary),
    /// A relaxed operator on three vectors, without floats.
    RelaxedTernary(RelaxedTernary),
    /// A relaxed operator on three vectors, with floats.
    RelaxedFloatTernary(RelaxedFloatTernary),
}

/// A load of a vector: the standard's section Structure, Memory Instructions, vloadop.
#[derive(Clone, Copy, Debug)]
pub enum VectorLoad {
    V128 = 0,
    I8x8S = 1,
    I8x8U = 2,
    I16x4S = 3,
    I16x4U = 4,
    I32x2S = 5,
    I32x2U = 6,
    Splat8 = 7,
    Splat16 = 8,
    Splat32 = 9,
    Splat64 = 10,
    Zero32 = 92,
    Zero64 = 93,
}
