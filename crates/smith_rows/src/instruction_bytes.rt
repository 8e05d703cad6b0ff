use smith_binary_instr::{EncodeError, Sink, encode_body, encode_expr, encode_instr};
use smith_instr::{
    BlockType, Instr, IntBinary, Load, MemArg, NumericInstr, SaturatingConversion, VectorInstr,
};
use smith_types::{Items, ValType};
use std::test::Fail;

const RESULT: BlockType = BlockType::Value(ValType::I32);

// The body of bytes that wabt 1.0.32 wrote for
//
//     (func (param i32) (result i32) (local i32 i64)
//       block (result i32) local.get 0 br_table 0 0 1 end
//       local.get 0
//       if (result i32) local.get 0 i32.load 1 offset=300 align=2 else i32.const -77 end i32.div_s
//       i32.const 3 call_indirect (type 0) i64.const 1234567890123 local.set 2
//       f64.const 1.5 i32.trunc_sat_f64_u select (result i32))
const BYTES: [u8; 62] = [
    0x3D, 0x02, 0x01, 0x7F, 0x01, 0x7E, 0x02, 0x7F, 0x20, 0x00, 0x0E, 0x02, 0x00, 0x00, 0x01, 0x0B,
    0x20, 0x00, 0x04, 0x7F, 0x20, 0x00, 0x28, 0x41, 0x01, 0xAC, 0x02, 0x05, 0x41, 0xB3, 0x7F, 0x0B,
    0x6D, 0x41, 0x03, 0x11, 0x00, 0x00, 0x42, 0xCB, 0x89, 0xEC, 0x8F, 0xF7, 0x23, 0x21, 0x02, 0x44,
    0x00, 0x00, 0x00, 0x00, 0x00, 0x00, 0xF8, 0x3F, 0xFC, 0x03, 0x1C, 0x01, 0x7F, 0x0B,
];

const AT: MemArg = MemArg {
    align: 1,
    offset: 300,
    memory: 1,
};

// Encodes the body that has these bytes. `labels` are those of its table of branches, and `chosen`
// the types of its `select`.
fn encode(sink: &mut Sink, labels: Items<u32>, chosen: Items<ValType>) -> Result<(), EncodeError> {
    let locals = [ValType::I32, ValType::I64];
    let body = [
        Instr::Block(RESULT),
        Instr::LocalGet(0),
        Instr::BrTable(labels, 1),
        Instr::End,
        Instr::LocalGet(0),
        Instr::If(RESULT),
        Instr::LocalGet(0),
        Instr::Load(Load::I32, AT),
        Instr::Else,
        Instr::I32Const(-77),
        Instr::End,
        Instr::Numeric(NumericInstr::I32Binary(IntBinary::DivS)),
        Instr::I32Const(3),
        Instr::CallIndirect { table: 0, ty: 0 },
        Instr::I64Const(1_234_567_890_123),
        Instr::LocalSet(2),
        Instr::F64Const(0x3FF8_0000_0000_0000),
        Instr::Numeric(NumericInstr::Saturate(SaturatingConversion::I32TruncSatF64U)),
        Instr::SelectTyped(chosen),
    ];
    encode_body(sink, &locals, &body)
}

// Fails unless `sink` has the bytes `wanted`.
fn has_bytes(sink: &Sink, wanted: &[u8]) -> Result<(), Fail> {
    if sink.as_slice() == wanted {
        Ok(())
    } else {
        let written = sink.as_slice();
        Err(Fail::new(format_args!("{written:?} in place of {wanted:?}")))
    }
}

#[test]
fn bodies_are_those_of_another_encoder(rt: HostRuntime) -> Result<(), Fail> {
    let mut sink = Sink::new(rt.alloc(), 1);
    let labels = Items::from_slice(rt.alloc(), &[0, 0])?;
    let chosen = Items::from_slice(rt.alloc(), &[ValType::I32])?;
    encode(&mut sink, labels, chosen)?;
    has_bytes(&sink, &BYTES)
}

#[test]
fn expressions_have_their_end(rt: HostRuntime) -> Result<(), Fail> {
    let mut sink = Sink::new(rt.alloc(), 1);
    encode_expr(&mut sink, &[Instr::Nop])?;
    has_bytes(&sink, &[0x01, 0x0B])
}

#[test]
fn lanes_of_a_shuffle_are_bytes(rt: HostRuntime) -> Result<(), Fail> {
    let lanes = [0, 1, 2, 3, 4, 5, 6, 7, 8, 9, 10, 11, 12, 13, 14, 31];
    let bytes = [
        0xFD, 0x0D, 0, 1, 2, 3, 4, 5, 6, 7, 8, 9, 10, 11, 12, 13, 14, 31,
    ];
    let mut sink = Sink::new(rt.alloc(), 1);
    encode_instr(&mut sink, &Instr::Vector(VectorInstr::Shuffle(lanes)))?;
    has_bytes(&sink, &bytes)
}

#[test]
fn alignments_of_seven_bits_are_refused(rt: HostRuntime) -> Result<(), Fail> {
    let at = MemArg {
        align: 64,
        offset: 0,
        memory: 0,
    };
    let mut sink = Sink::new(rt.alloc(), 1);
    match encode_instr(&mut sink, &Instr::Load(Load::I32, at)) {
        Err(EncodeError::TooLong) => Ok(()),
        _ => Err(Fail::new("the alignment is not refused")),
    }
}
