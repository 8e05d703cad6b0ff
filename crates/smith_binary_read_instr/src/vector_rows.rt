ghost use Rattle.std.specs.Prelude.{◌≡◌};
ghost use Rattle.smith_binary_read.specs.Choices.{item_of};
ghost use Rattle.smith_binary_read_instr.specs.VectorRows.{
  swizzle_and_splats_rows,
  i8x16_compares_rows,
  i16x8_compares_rows,
  i32x4_compares_rows,
  float_compares_rows,
  bitwise_rows,
  i8x16_unary_rows,
  roundings_and_shifts_rows,
  i8x16_arithmetic_rows,
  i16x8_unary_rows,
  i16x8_shifts_and_sums_rows,
  i16x8_arithmetic_rows,
  i32x4_unary_rows,
  i32x4_arithmetic_rows,
  i64x2_unary_rows,
  i64x2_arithmetic_rows,
  f32x4_arithmetic_rows,
  f64x2_arithmetic_rows,
  relaxed_first_rows,
  relaxed_last_rows,
  low_of,
  middle_of,
  high_of,
  vector_of,
};

use smith_instr::{
    IntShape, LaneShape, RelaxedBinary, RelaxedFloatBinary, RelaxedFloatTernary, RelaxedFloatUnary,
    RelaxedTernary, VectorBinary, VectorFloatBinary, VectorFloatUnary, VectorInstr, VectorShift,
    VectorUnary,
};

fn swizzle_and_splats_of(number: u32) -> Option<VectorInstr>
    ensures { result ≡ item_of swizzle_and_splats_rows number }
{
    match number {
        14 => Some(VectorInstr::Binary(VectorBinary::I8x16Swizzle)),
        15 => Some(VectorInstr::Splat(LaneShape::I8x16)),
        16 => Some(VectorInstr::Splat(LaneShape::I16x8)),
        17 => Some(VectorInstr::Splat(LaneShape::I32x4)),
        18 => Some(VectorInstr::Splat(LaneShape::I64x2)),
        19 => Some(VectorInstr::Splat(LaneShape::F32x4)),
        20 => Some(VectorInstr::Splat(LaneShape::F64x2)),
        _ => None,
    }
}

fn i8x16_compares_of(number: u32) -> Option<VectorInstr>
    ensures { result ≡ item_of i8x16_compares_rows number }
{
    match number {
        35 => Some(VectorInstr::Binary(VectorBinary::I8x16Eq)),
        36 => Some(VectorInstr::Binary(VectorBinary::I8x16Ne)),
        37 => Some(VectorInstr::Binary(VectorBinary::I8x16LtS)),
        38 => Some(VectorInstr::Binary(VectorBinary::I8x16LtU)),
        39 => Some(VectorInstr::Binary(VectorBinary::I8x16GtS)),
        40 => Some(VectorInstr::Binary(VectorBinary::I8x16GtU)),
        41 => Some(VectorInstr::Binary(VectorBinary::I8x16LeS)),
        42 => Some(VectorInstr::Binary(VectorBinary::I8x16LeU)),
        43 => Some(VectorInstr::Binary(VectorBinary::I8x16GeS)),
        44 => Some(VectorInstr::Binary(VectorBinary::I8x16GeU)),
        _ => None,
    }
}

fn i16x8_compares_of(number: u32) -> Option<VectorInstr>
    ensures { result ≡ item_of i16x8_compares_rows number }
{
    match number {
        45 => Some(VectorInstr::Binary(VectorBinary::I16x8Eq)),
        46 => Some(VectorInstr::Binary(VectorBinary::I16x8Ne)),
        47 => Some(VectorInstr::Binary(VectorBinary::I16x8LtS)),
        48 => Some(VectorInstr::Binary(VectorBinary::I16x8LtU)),
        49 => Some(VectorInstr::Binary(VectorBinary::I16x8GtS)),
        50 => Some(VectorInstr::Binary(VectorBinary::I16x8GtU)),
        51 => Some(VectorInstr::Binary(VectorBinary::I16x8LeS)),
        52 => Some(VectorInstr::Binary(VectorBinary::I16x8LeU)),
        53 => Some(VectorInstr::Binary(VectorBinary::I16x8GeS)),
        54 => Some(VectorInstr::Binary(VectorBinary::I16x8GeU)),
        _ => None,
    }
}

fn i32x4_compares_of(number: u32) -> Option<VectorInstr>
    ensures { result ≡ item_of i32x4_compares_rows number }
{
    match number {
        55 => Some(VectorInstr::Binary(VectorBinary::I32x4Eq)),
        56 => Some(VectorInstr::Binary(VectorBinary::I32x4Ne)),
        57 => Some(VectorInstr::Binary(VectorBinary::I32x4LtS)),
        58 => Some(VectorInstr::Binary(VectorBinary::I32x4LtU)),
        59 => Some(VectorInstr::Binary(VectorBinary::I32x4GtS)),
        60 => Some(VectorInstr::Binary(VectorBinary::I32x4GtU)),
        61 => Some(VectorInstr::Binary(VectorBinary::I32x4LeS)),
        62 => Some(VectorInstr::Binary(VectorBinary::I32x4LeU)),
        63 => Some(VectorInstr::Binary(VectorBinary::I32x4GeS)),
        64 => Some(VectorInstr::Binary(VectorBinary::I32x4GeU)),
        _ => None,
    }
}

fn float_compares_of(number: u32) -> Option<VectorInstr>
    ensures { result ≡ item_of float_compares_rows number }
{
    match number {
        65 => Some(VectorInstr::FloatBinary(VectorFloatBinary::F32x4Eq)),
        66 => Some(VectorInstr::FloatBinary(VectorFloatBinary::F32x4Ne)),
        67 => Some(VectorInstr::FloatBinary(VectorFloatBinary::F32x4Lt)),
        68 => Some(VectorInstr::FloatBinary(VectorFloatBinary::F32x4Gt)),
        69 => Some(VectorInstr::FloatBinary(VectorFloatBinary::F32x4Le)),
        70 => Some(VectorInstr::FloatBinary(VectorFloatBinary::F32x4Ge)),
        71 => Some(VectorInstr::FloatBinary(VectorFloatBinary::F64x2Eq)),
        72 => Some(VectorInstr::FloatBinary(VectorFloatBinary::F64x2Ne)),
        73 => Some(VectorInstr::FloatBinary(VectorFloatBinary::F64x2Lt)),
        74 => Some(VectorInstr::FloatBinary(VectorFloatBinary::F64x2Gt)),
        75 => Some(VectorInstr::FloatBinary(VectorFloatBinary::F64x2Le)),
        76 => Some(VectorInstr::FloatBinary(VectorFloatBinary::F64x2Ge)),
        _ => None,
    }
}

fn bitwise_of(number: u32) -> Option<VectorInstr>
    ensures { result ≡ item_of bitwise_rows number }
{
    match number {
        77 => Some(VectorInstr::Unary(VectorUnary::V128Not)),
        78 => Some(VectorInstr::Binary(VectorBinary::V128And)),
        79 => Some(VectorInstr::Binary(VectorBinary::V128AndNot)),
        80 => Some(VectorInstr::Binary(VectorBinary::V128Or)),
        81 => Some(VectorInstr::Binary(VectorBinary::V128Xor)),
        82 => Some(VectorInstr::Bitselect),
        83 => Some(VectorInstr::AnyTrue),
        _ => None,
    }
}

fn i8x16_unary_of(number: u32) -> Option<VectorInstr>
    ensures { result ≡ item_of i8x16_unary_rows number }
{
    match number {
        94 => Some(VectorInstr::FloatUnary(VectorFloatUnary::F32x4DemoteF64x2Zero)),
        95 => Some(VectorInstr::FloatUnary(VectorFloatUnary::F64x2PromoteLowF32x4)),
        96 => Some(VectorInstr::Unary(VectorUnary::I8x16Abs)),
        97 => Some(VectorInstr::Unary(VectorUnary::I8x16Neg)),
        98 => Some(VectorInstr::Unary(VectorUnary::I8x16Popcnt)),
        99 => Some(VectorInstr::AllTrue(IntShape::I8x16)),
        100 => Some(VectorInstr::Bitmask(IntShape::I8x16)),
        101 => Some(VectorInstr::Binary(VectorBinary::I8x16NarrowI16x8S)),
        102 => Some(VectorInstr::Binary(VectorBinary::I8x16NarrowI16x8U)),
        _ => None,
    }
}

fn roundings_and_shifts_of(number: u32) -> Option<VectorInstr>
    ensures { result ≡ item_of roundings_and_shifts_rows number }
{
    match number {
        103 => Some(VectorInstr::FloatUnary(VectorFloatUnary::F32x4Ceil)),
        104 => Some(VectorInstr::FloatUnary(VectorFloatUnary::F32x4Floor)),
        105 => Some(VectorInstr::FloatUnary(VectorFloatUnary::F32x4Trunc)),
        106 => Some(VectorInstr::FloatUnary(VectorFloatUnary::F32x4Nearest)),
        107 => Some(VectorInstr::Shift(VectorShift::Shl, IntShape::I8x16)),
        108 => Some(VectorInstr::Shift(VectorShift::ShrS, IntShape::I8x16)),
        109 => Some(VectorInstr::Shift(VectorShift::ShrU, IntShape::I8x16)),
        _ => None,
    }
}

fn i8x16_arithmetic_of(number: u32) -> Option<VectorInstr>
    ensures { result ≡ item_of i8x16_arithmetic_rows number }
{
    match number {
        110 => Some(VectorInstr::Binary(VectorBinary::I8x16Add)),
        111 => Some(VectorInstr::Binary(VectorBinary::I8x16AddSatS)),
        112 => Some(VectorInstr::Binary(VectorBinary::I8x16AddSatU)),
        113 => Some(VectorInstr::Binary(VectorBinary::I8x16Sub)),
        114 => Some(VectorInstr::Binary(VectorBinary::I8x16SubSatS)),
        115 => Some(VectorInstr::Binary(VectorBinary::I8x16SubSatU)),
        116 => Some(VectorInstr::FloatUnary(VectorFloatUnary::F64x2Ceil)),
        117 => Some(VectorInstr::FloatUnary(VectorFloatUnary::F64x2Floor)),
        118 => Some(VectorInstr::Binary(VectorBinary::I8x16MinS)),
        119 => Some(VectorInstr::Binary(VectorBinary::I8x16MinU)),
        120 => Some(VectorInstr::Binary(VectorBinary::I8x16MaxS)),
        121 => Some(VectorInstr::Binary(VectorBinary::I8x16MaxU)),
        122 => Some(VectorInstr::FloatUnary(VectorFloatUnary::F64x2Trunc)),
        123 => Some(VectorInstr::Binary(VectorBinary::I8x16AvgrU)),
        _ => None,
    }
}

fn i16x8_unary_of(number: u32) -> Option<VectorInstr>
    ensures { result ≡ item_of i16x8_unary_rows number }
{
    match number {
        124 => Some(VectorInstr::Unary(VectorUnary::I16x8ExtAddPairwiseI8x16S)),
        125 => Some(VectorInstr::Unary(VectorUnary::I16x8ExtAddPairwiseI8x16U)),
        126 => Some(VectorInstr::Unary(VectorUnary::I32x4ExtAddPairwiseI16x8S)),
        127 => Some(VectorInstr::Unary(VectorUnary::I32x4ExtAddPairwiseI16x8U)),
        128 => Some(VectorInstr::Unary(VectorUnary::I16x8Abs)),
        129 => Some(VectorInstr::Unary(VectorUnary::I16x8Neg)),
        130 => Some(VectorInstr::Binary(VectorBinary::I16x8Q15MulrSatS)),
        131 => Some(VectorInstr::AllTrue(IntShape::I16x8)),
        132 => Some(VectorInstr::Bitmask(IntShape::I16x8)),
        133 => Some(VectorInstr::Binary(VectorBinary::I16x8NarrowI32x4S)),
        134 => Some(VectorInstr::Binary(VectorBinary::I16x8NarrowI32x4U)),
        _ => None,
    }
}

fn i16x8_shifts_and_sums_of(number: u32) -> Option<VectorInstr>
    ensures { result ≡ item_of i16x8_shifts_and_sums_rows number }
{
    match number {
        135 => Some(VectorInstr::Unary(VectorUnary::I16x8ExtendLowI8x16S)),
        136 => Some(VectorInstr::Unary(VectorUnary::I16x8ExtendHighI8x16S)),
        137 => Some(VectorInstr::Unary(VectorUnary::I16x8ExtendLowI8x16U)),
        138 => Some(VectorInstr::Unary(VectorUnary::I16x8ExtendHighI8x16U)),
        139 => Some(VectorInstr::Shift(VectorShift::Shl, IntShape::I16x8)),
        140 => Some(VectorInstr::Shift(VectorShift::ShrS, IntShape::I16x8)),
        141 => Some(VectorInstr::Shift(VectorShift::ShrU, IntShape::I16x8)),
        142 => Some(VectorInstr::Binary(VectorBinary::I16x8Add)),
        143 => Some(VectorInstr::Binary(VectorBinary::I16x8AddSatS)),
        144 => Some(VectorInstr::Binary(VectorBinary::I16x8AddSatU)),
        145 => Some(VectorInstr::Binary(VectorBinary::I16x8Sub)),
        146 => Some(VectorInstr::Binary(VectorBinary::I16x8SubSatS)),
        147 => Some(VectorInstr::Binary(VectorBinary::I16x8SubSatU)),
        _ => None,
    }
}

fn i16x8_arithmetic_of(number: u32) -> Option<VectorInstr>
    ensures { result ≡ item_of i16x8_arithmetic_rows number }
{
    match number {
        148 => Some(VectorInstr::FloatUnary(VectorFloatUnary::F64x2Nearest)),
        149 => Some(VectorInstr::Binary(VectorBinary::I16x8Mul)),
        150 => Some(VectorInstr::Binary(VectorBinary::I16x8MinS)),
        151 => Some(VectorInstr::Binary(VectorBinary::I16x8MinU)),
        152 => Some(VectorInstr::Binary(VectorBinary::I16x8MaxS)),
        153 => Some(VectorInstr::Binary(VectorBinary::I16x8MaxU)),
        155 => Some(VectorInstr::Binary(VectorBinary::I16x8AvgrU)),
        156 => Some(VectorInstr::Binary(VectorBinary::I16x8ExtMulLowI8x16S)),
        157 => Some(VectorInstr::Binary(VectorBinary::I16x8ExtMulHighI8x16S)),
        158 => Some(VectorInstr::Binary(VectorBinary::I16x8ExtMulLowI8x16U)),
        159 => Some(VectorInstr::Binary(VectorBinary::I16x8ExtMulHighI8x16U)),
        _ => None,
    }
}

fn i32x4_unary_of(number: u32) -> Option<VectorInstr>
    ensures { result ≡ item_of i32x4_unary_rows number }
{
    match number {
        160 => Some(VectorInstr::Unary(VectorUnary::I32x4Abs)),
        161 => Some(VectorInstr::Unary(VectorUnary::I32x4Neg)),
        163 => Some(VectorInstr::AllTrue(IntShape::I32x4)),
        164 => Some(VectorInstr::Bitmask(IntShape::I32x4)),
        167 => Some(VectorInstr::Unary(VectorUnary::I32x4ExtendLowI16x8S)),
        168 => Some(VectorInstr::Unary(VectorUnary::I32x4ExtendHighI16x8S)),
        169 => Some(VectorInstr::Unary(VectorUnary::I32x4ExtendLowI16x8U)),
        170 => Some(VectorInstr::Unary(VectorUnary::I32x4ExtendHighI16x8U)),
        171 => Some(VectorInstr::Shift(VectorShift::Shl, IntShape::I32x4)),
        172 => Some(VectorInstr::Shift(VectorShift::ShrS, IntShape::I32x4)),
        173 => Some(VectorInstr::Shift(VectorShift::ShrU, IntShape::I32x4)),
        _ => None,
    }
}

fn i32x4_arithmetic_of(number: u32) -> Option<VectorInstr>
    ensures { result ≡ item_of i32x4_arithmetic_rows number }
{
    match number {
        174 => Some(VectorInstr::Binary(VectorBinary::I32x4Add)),
        177 => Some(VectorInstr::Binary(VectorBinary::I32x4Sub)),
        181 => Some(VectorInstr::Binary(VectorBinary::I32x4Mul)),
        182 => Some(VectorInstr::Binary(VectorBinary::I32x4MinS)),
        183 => Some(VectorInstr::Binary(VectorBinary::I32x4MinU)),
        184 => Some(VectorInstr::Binary(VectorBinary::I32x4MaxS)),
        185 => Some(VectorInstr::Binary(VectorBinary::I32x4MaxU)),
        186 => Some(VectorInstr::Binary(VectorBinary::I32x4DotI16x8S)),
        188 => Some(VectorInstr::Binary(VectorBinary::I32x4ExtMulLowI16x8S)),
        189 => Some(VectorInstr::Binary(VectorBinary::I32x4ExtMulHighI16x8S)),
        190 => Some(VectorInstr::Binary(VectorBinary::I32x4ExtMulLowI16x8U)),
        191 => Some(VectorInstr::Binary(VectorBinary::I32x4ExtMulHighI16x8U)),
        _ => None,
    }
}

fn i64x2_unary_of(number: u32) -> Option<VectorInstr>
    ensures { result ≡ item_of i64x2_unary_rows number }
{
    match number {
        192 => Some(VectorInstr::Unary(VectorUnary::I64x2Abs)),
        193 => Some(VectorInstr::Unary(VectorUnary::I64x2Neg)),
        195 => Some(VectorInstr::AllTrue(IntShape::I64x2)),
        196 => Some(VectorInstr::Bitmask(IntShape::I64x2)),
        199 => Some(VectorInstr::Unary(VectorUnary::I64x2ExtendLowI32x4S)),
        200 => Some(VectorInstr::Unary(VectorUnary::I64x2ExtendHighI32x4S)),
        201 => Some(VectorInstr::Unary(VectorUnary::I64x2ExtendLowI32x4U)),
        202 => Some(VectorInstr::Unary(VectorUnary::I64x2ExtendHighI32x4U)),
        203 => Some(VectorInstr::Shift(VectorShift::Shl, IntShape::I64x2)),
        204 => Some(VectorInstr::Shift(VectorShift::ShrS, IntShape::I64x2)),
        205 => Some(VectorInstr::Shift(VectorShift::ShrU, IntShape::I64x2)),
        _ => None,
    }
}

fn i64x2_arithmetic_of(number: u32) -> Option<VectorInstr>
    ensures { result ≡ item_of i64x2_arithmetic_rows number }
{
    match number {
        206 => Some(VectorInstr::Binary(VectorBinary::I64x2Add)),
        209 => Some(VectorInstr::Binary(VectorBinary::I64x2Sub)),
        213 => Some(VectorInstr::Binary(VectorBinary::I64x2Mul)),
        214 => Some(VectorInstr::Binary(VectorBinary::I64x2Eq)),
        215 => Some(VectorInstr::Binary(VectorBinary::I64x2Ne)),
        216 => Some(VectorInstr::Binary(VectorBinary::I64x2LtS)),
        217 => Some(VectorInstr::Binary(VectorBinary::I64x2GtS)),
        218 => Some(VectorInstr::Binary(VectorBinary::I64x2LeS)),
        219 => Some(VectorInstr::Binary(VectorBinary::I64x2GeS)),
        220 => Some(VectorInstr::Binary(VectorBinary::I64x2ExtMulLowI32x4S)),
        221 => Some(VectorInstr::Binary(VectorBinary::I64x2ExtMulHighI32x4S)),
        222 => Some(VectorInstr::Binary(VectorBinary::I64x2ExtMulLowI32x4U)),
        223 => Some(VectorInstr::Binary(VectorBinary::I64x2ExtMulHighI32x4U)),
        _ => None,
    }
}

fn f32x4_arithmetic_of(number: u32) -> Option<VectorInstr>
    ensures { result ≡ item_of f32x4_arithmetic_rows number }
{
    match number {
        224 => Some(VectorInstr::FloatUnary(VectorFloatUnary::F32x4Abs)),
        225 => Some(VectorInstr::FloatUnary(VectorFloatUnary::F32x4Neg)),
        227 => Some(VectorInstr::FloatUnary(VectorFloatUnary::F32x4Sqrt)),
        228 => Some(VectorInstr::FloatBinary(VectorFloatBinary::F32x4Add)),
        229 => Some(VectorInstr::FloatBinary(VectorFloatBinary::F32x4Sub)),
        230 => Some(VectorInstr::FloatBinary(VectorFloatBinary::F32x4Mul)),
        231 => Some(VectorInstr::FloatBinary(VectorFloatBinary::F32x4Div)),
        232 => Some(VectorInstr::FloatBinary(VectorFloatBinary::F32x4Min)),
        233 => Some(VectorInstr::FloatBinary(VectorFloatBinary::F32x4Max)),
        234 => Some(VectorInstr::FloatBinary(VectorFloatBinary::F32x4Pmin)),
        235 => Some(VectorInstr::FloatBinary(VectorFloatBinary::F32x4Pmax)),
        236 => Some(VectorInstr::FloatUnary(VectorFloatUnary::F64x2Abs)),
        237 => Some(VectorInstr::FloatUnary(VectorFloatUnary::F64x2Neg)),
        239 => Some(VectorInstr::FloatUnary(VectorFloatUnary::F64x2Sqrt)),
        _ => None,
    }
}

fn f64x2_arithmetic_of(number: u32) -> Option<VectorInstr>
    ensures { result ≡ item_of f64x2_arithmetic_rows number }
{
    match number {
        240 => Some(VectorInstr::FloatBinary(VectorFloatBinary::F64x2Add)),
        241 => Some(VectorInstr::FloatBinary(VectorFloatBinary::F64x2Sub)),
        242 => Some(VectorInstr::FloatBinary(VectorFloatBinary::F64x2Mul)),
        243 => Some(VectorInstr::FloatBinary(VectorFloatBinary::F64x2Div)),
        244 => Some(VectorInstr::FloatBinary(VectorFloatBinary::F64x2Min)),
        245 => Some(VectorInstr::FloatBinary(VectorFloatBinary::F64x2Max)),
        246 => Some(VectorInstr::FloatBinary(VectorFloatBinary::F64x2Pmin)),
        247 => Some(VectorInstr::FloatBinary(VectorFloatBinary::F64x2Pmax)),
        248 => Some(VectorInstr::FloatUnary(VectorFloatUnary::I32x4TruncSatF32x4S)),
        249 => Some(VectorInstr::FloatUnary(VectorFloatUnary::I32x4TruncSatF32x4U)),
        250 => Some(VectorInstr::FloatUnary(VectorFloatUnary::F32x4ConvertI32x4S)),
        251 => Some(VectorInstr::FloatUnary(VectorFloatUnary::F32x4ConvertI32x4U)),
        252 => Some(VectorInstr::FloatUnary(VectorFloatUnary::I32x4TruncSatF64x2SZero)),
        253 => Some(VectorInstr::FloatUnary(VectorFloatUnary::I32x4TruncSatF64x2UZero)),
        254 => Some(VectorInstr::FloatUnary(VectorFloatUnary::F64x2ConvertLowI32x4S)),
        255 => Some(VectorInstr::FloatUnary(VectorFloatUnary::F64x2ConvertLowI32x4U)),
        _ => None,
    }
}

fn relaxed_first_of(number: u32) -> Option<VectorInstr>
    ensures { result ≡ item_of relaxed_first_rows number }
{
    match number {
        256 => Some(VectorInstr::RelaxedBinary(RelaxedBinary::I8x16Swizzle)),
        257 => Some(VectorInstr::RelaxedFloatUnary(RelaxedFloatUnary::I32x4TruncF32x4S)),
        258 => Some(VectorInstr::RelaxedFloatUnary(RelaxedFloatUnary::I32x4TruncF32x4U)),
        259 => Some(VectorInstr::RelaxedFloatUnary(RelaxedFloatUnary::I32x4TruncF64x2SZero)),
        260 => Some(VectorInstr::RelaxedFloatUnary(RelaxedFloatUnary::I32x4TruncF64x2UZero)),
        261 => Some(VectorInstr::RelaxedFloatTernary(RelaxedFloatTernary::F32x4Madd)),
        262 => Some(VectorInstr::RelaxedFloatTernary(RelaxedFloatTernary::F32x4Nmadd)),
        263 => Some(VectorInstr::RelaxedFloatTernary(RelaxedFloatTernary::F64x2Madd)),
        264 => Some(VectorInstr::RelaxedFloatTernary(RelaxedFloatTernary::F64x2Nmadd)),
        _ => None,
    }
}

fn relaxed_last_of(number: u32) -> Option<VectorInstr>
    ensures { result ≡ item_of relaxed_last_rows number }
{
    match number {
        265 => Some(VectorInstr::RelaxedTernary(RelaxedTernary::I8x16Laneselect)),
        266 => Some(VectorInstr::RelaxedTernary(RelaxedTernary::I16x8Laneselect)),
        267 => Some(VectorInstr::RelaxedTernary(RelaxedTernary::I32x4Laneselect)),
        268 => Some(VectorInstr::RelaxedTernary(RelaxedTernary::I64x2Laneselect)),
        269 => Some(VectorInstr::RelaxedFloatBinary(RelaxedFloatBinary::F32x4Min)),
        270 => Some(VectorInstr::RelaxedFloatBinary(RelaxedFloatBinary::F32x4Max)),
        271 => Some(VectorInstr::RelaxedFloatBinary(RelaxedFloatBinary::F64x2Min)),
        272 => Some(VectorInstr::RelaxedFloatBinary(RelaxedFloatBinary::F64x2Max)),
        273 => Some(VectorInstr::RelaxedBinary(RelaxedBinary::I16x8Q15MulrS)),
        274 => Some(VectorInstr::RelaxedBinary(RelaxedBinary::I16x8DotI8x16I7x16S)),
        275 => Some(VectorInstr::RelaxedTernary(RelaxedTernary::I32x4DotI8x16I7x16AddS)),
        _ => None,
    }
}

#[tactic(auto, unfolding(crate::specs::VectorRows::low_of))]
fn low_of(number: u32) -> Option<VectorInstr>
    ensures { result ≡ low_of number }
{
    if number < 35 {
        return swizzle_and_splats_of(number);
    }
    if number < 45 {
        return i8x16_compares_of(number);
    }
    if number < 55 {
        return i16x8_compares_of(number);
    }
    if number < 65 {
        return i32x4_compares_of(number);
    }
    if number < 77 {
        return float_compares_of(number);
    }
    if number < 94 {
        return bitwise_of(number);
    }
    i8x16_unary_of(number)
}

#[tactic(auto, unfolding(crate::specs::VectorRows::middle_of))]
fn middle_of(number: u32) -> Option<VectorInstr>
    ensures { result ≡ middle_of number }
{
    if number < 110 {
        return roundings_and_shifts_of(number);
    }
    if number < 124 {
        return i8x16_arithmetic_of(number);
    }
    if number < 135 {
        return i16x8_unary_of(number);
    }
    if number < 148 {
        return i16x8_shifts_and_sums_of(number);
    }
    if number < 160 {
        return i16x8_arithmetic_of(number);
    }
    if number < 174 {
        return i32x4_unary_of(number);
    }
    i32x4_arithmetic_of(number)
}

#[tactic(auto, unfolding(crate::specs::VectorRows::high_of))]
fn high_of(number: u32) -> Option<VectorInstr>
    ensures { result ≡ high_of number }
{
    if number < 206 {
        return i64x2_unary_of(number);
    }
    if number < 224 {
        return i64x2_arithmetic_of(number);
    }
    if number < 240 {
        return f32x4_arithmetic_of(number);
    }
    if number < 256 {
        return f64x2_arithmetic_of(number);
    }
    if number < 265 {
        return relaxed_first_of(number);
    }
    relaxed_last_of(number)
}

// Returns the vector instruction of `number`, if it has no immediates.
#[tactic(auto, unfolding(crate::specs::VectorRows::vector_of))]
pub(crate) fn vector_of(number: u32) -> Option<VectorInstr>
    ensures { result ≡ vector_of number }
{
    if number < 103 {
        return low_of(number);
    }
    if number < 192 {
        return middle_of(number);
    }
    high_of(number)
}
