use smith_bytes::Error;
use smith_case::shapes::{entity_of, function_of, shape_named, val_type_of};
use smith_text::{TextForm, text_of};
use smith_types::{
    AbstractHeapType, ArrayType, CompositeInnerType, CompositeType, ConstInstr, DataSegment,
    DataSegmentKind, ElementKind, ElementSegment, Elements, FieldType, HeapType, Imports, Items,
    Name, Offset, RefType, StorageType, StructType, SubType, ValType,
};
use std::alloc::Global;
use std::test::Fail;

// Fails unless `value` is written as `wanted`.
fn is_written<T: TextForm>(alloc: Global, value: &T, wanted: &str) -> Result<(), Fail> {
    let text = text_of(alloc, value)?;
    if text.as_str() == wanted {
        Ok(())
    } else {
        Err(Fail::new(format_args!("{text} in place of {wanted}")))
    }
}

// Fails unless `value`, which is dropped, is written as `wanted`.
fn is_made<T: TextForm + Drop>(alloc: Global, value: T, wanted: &str) -> Result<(), Fail> {
    let written = is_written(alloc, &value, wanted);
    drop(value);
    written
}

// Fails unless a value was read, and is written as `wanted`.
fn is_read<T: TextForm + Drop>(alloc: Global, read: Option<T>, wanted: &str) -> Result<(), Fail> {
    match read {
        Some(value) => is_made(alloc, value, wanted),
        None => Err(Fail::new(format_args!("nothing in place of {wanted}"))),
    }
}

// Returns what is written in a case on `line`, and the wanted text.
fn parts_of(line: &str) -> (&str, &str) {
    line.split_once(" => ").unwrap_or((line, "no text"))
}

// A value type on each line as cases write it, and its text.
const VALUE_TYPES: &str = "\
i32 => i32
i64 => i64
f32 => f32
f64 => f64
v128 => v128
(ref null func) => funcref
(ref null extern) => externref
(ref null any) => anyref
(ref null none) => nullref
(ref null noextern) => nullexternref
(ref null nofunc) => nullfuncref
(ref null eq) => eqref
(ref null struct) => structref
(ref null array) => arrayref
(ref null i31) => i31ref
(ref null exn) => exnref
(ref null noexn) => nullexnref
(ref noextern) => (ref noextern)
(ref null (shared any)) => (ref null (shared any))
(ref (shared i31)) => (ref (shared i31))
(ref null 7) => (ref null 7)
(ref (exact 0)) => (ref (exact 0))";

#[test]
fn value_types_are_written(rt: HostRuntime) -> Result<(), Fail> {
    for line in VALUE_TYPES.lines() {
        let (text, wanted) = parts_of(line);
        is_read(rt.alloc(), val_type_of(text), wanted)?;
    }
    Ok(())
}

// An entity on each line as cases write it, and its text.
const ENTITIES: &str = "\
table 0 (ref null func) => (table 0 funcref)
table shared i64 5 10 (ref null func) => (table shared i64 5 10 funcref)
memory 1 => (memory 1)
memory shared i64 pagesize 2^0 1 2 => (memory i64 1 2 shared (pagesize 1))
memory pagesize 2^16 1 => (memory 1 (pagesize 65536))
memory pagesize 2^64 1 => (memory 1 (pagesize 2^64))
global i32 => (global i32)
global mut i32 => (global (mut i32))
global shared i32 => (global (shared i32))
global shared mut i32 => (global (shared mut i32))
tag 3 => (tag (type 3))
func 4294967295 => (func (type 4294967295))";

#[test]
fn entities_are_written(rt: HostRuntime) -> Result<(), Fail> {
    for line in ENTITIES.lines() {
        let (text, wanted) = parts_of(line);
        is_read(rt.alloc(), entity_of(text), wanted)?;
    }
    Ok(())
}

// Shapes as cases name them, and the texts of their imports.
static IMPORTS: [(&str, &[&str]); 2] = [
    (
        "a memory that is imported and exported",
        &["(import \"env\" \"memory\" (memory 1))"],
    ),
    (
        "memories in groups",
        &[
            "(import \"env\" (item \"one\" (memory 1)))",
            "(import \"a\")",
            "(import \"b\" (item \"two\") (item \"three\") (memory 1))",
            "(import \"env\" (memory 1))",
        ],
    ),
];

fn are_imports_written(alloc: Global, imports: &[Imports], wanted: &[&str]) -> Result<(), Fail> {
    for (import, text) in imports.iter().zip(wanted) {
        is_written(alloc, import, text)?;
    }
    if imports.len() == wanted.len() {
        Ok(())
    } else {
        Err(Fail::new("another number of imports is wanted"))
    }
}

fn are_written_of(alloc: Global, name: &str, wanted: &[&str]) -> Result<(), Fail> {
    let shape = shape_named(alloc, name)?;
    let written = are_imports_written(alloc, shape.imports.as_slice(), wanted);
    drop(shape);
    written
}

#[test]
fn imports_are_written(rt: HostRuntime) -> Result<(), Fail> {
    for (name, wanted) in &IMPORTS {
        are_written_of(rt.alloc(), name, wanted)?;
    }
    Ok(())
}

// Constant instructions, and their texts.
#[rattlefmt::skip]
static CONSTANTS: [(ConstInstr, &str); 38] = [
    (ConstInstr::I32Const(-2_147_483_648), "i32.const -2147483648"),
    (ConstInstr::I64Const(-1), "i64.const -1"),
    (ConstInstr::F32Const(0), "f32.const 0x0p+0"),
    (ConstInstr::F32Const(0x8000_0000), "f32.const -0x0p+0"),
    (ConstInstr::F32Const(0x3f80_0000), "f32.const 0x1p+0"),
    (ConstInstr::F32Const(0xbfc0_0000), "f32.const -0x1.8p+0"),
    (ConstInstr::F32Const(1), "f32.const 0x0.000002p-126"),
    (ConstInstr::F32Const(0x0080_0000), "f32.const 0x1p-126"),
    (ConstInstr::F32Const(0x7f7f_ffff), "f32.const 0x1.fffffep+127"),
    (ConstInstr::F32Const(0x7f80_0000), "f32.const inf"),
    (ConstInstr::F32Const(0x7fc0_0000), "f32.const nan:0x400000"),
    (ConstInstr::F32Const(0xff80_0001), "f32.const -nan:0x1"),
    (ConstInstr::F64Const(0x3fb9_9999_9999_999a), "f64.const 0x1.999999999999ap-4"),
    (ConstInstr::F64Const(1), "f64.const 0x0.0000000000001p-1022"),
    (ConstInstr::F64Const(0x000f_ffff_ffff_fff0), "f64.const 0x0.ffffffffffffp-1022"),
    (ConstInstr::F64Const(0xfff0_0000_0000_0000), "f64.const -inf"),
    (ConstInstr::F64Const(0x7ff8_0000_0000_0000), "f64.const nan:0x8000000000000"),
    (ConstInstr::V128Const(0x0f0e_0d0c_0b0a_0908_0706_0504_0302_0100), "v128.const i32x4 0x03020100 0x07060504 0x0b0a0908 0x0f0e0d0c"),
    (ConstInstr::V128Const(-1), "v128.const i32x4 0xffffffff 0xffffffff 0xffffffff 0xffffffff"),
    (ConstInstr::GlobalGet(4), "global.get 4"),
    (ConstInstr::RefNull(HeapType::Abstract { shared: true, ty: AbstractHeapType::Eq }), "ref.null (shared eq)"),
    (ConstInstr::RefNull(HeapType::Concrete(2)), "ref.null 2"),
    (ConstInstr::RefFunc(0), "ref.func 0"),
    (ConstInstr::I32Add, "i32.add"),
    (ConstInstr::I32Sub, "i32.sub"),
    (ConstInstr::I32Mul, "i32.mul"),
    (ConstInstr::I64Add, "i64.add"),
    (ConstInstr::I64Sub, "i64.sub"),
    (ConstInstr::I64Mul, "i64.mul"),
    (ConstInstr::RefI31, "ref.i31"),
    (ConstInstr::RefI31Shared, "ref.i31_shared"),
    (ConstInstr::StructNew(1), "struct.new 1"),
    (ConstInstr::StructNewDefault(1), "struct.new_default 1"),
    (ConstInstr::ArrayNew(1), "array.new 1"),
    (ConstInstr::ArrayNewDefault(1), "array.new_default 1"),
    (ConstInstr::ArrayNewFixed { array_type_index: 1, array_size: 3 }, "array.new_fixed 1 3"),
    (ConstInstr::AnyConvertExtern, "any.convert_extern"),
    (ConstInstr::ExternConvertAny, "extern.convert_any"),
];

#[test]
fn constant_instructions_are_written(rt: HostRuntime) -> Result<(), Fail> {
    for (instruction, wanted) in &CONSTANTS {
        is_written(rt.alloc(), instruction, wanted)?;
    }
    Ok(())
}

// Returns a type of this structure.
fn sub_type(
    is_final: bool,
    supertype: Option<u32>,
    shared: bool,
    inner: CompositeInnerType,
) -> SubType {
    SubType {
        is_final,
        supertype,
        composite_type: CompositeType { inner, shared },
    }
}

// Function types as cases write them, and their texts.
static FUNCTION_TYPES: [(&str, &str); 2] = [
    ("->", "(func)"),
    ("i32,i64 -> f32", "(func (param i32 i64) (result f32))"),
];

#[test]
fn types_of_functions_are_written(rt: HostRuntime) -> Result<(), Fail> {
    let alloc = rt.alloc();
    for (text, wanted) in &FUNCTION_TYPES {
        let function = CompositeInnerType::Func(function_of(alloc, text)?);
        is_made(alloc, sub_type(true, None, false, function), wanted)?;
    }
    Ok(())
}

// A variable byte.
const BYTE: FieldType = FieldType {
    element_type: StorageType::I8,
    mutable: true,
};

const FIELDS: [FieldType; 2] = [
    FieldType {
        element_type: StorageType::I16,
        mutable: false,
    },
    FieldType {
        element_type: StorageType::Val(ValType::F64),
        mutable: true,
    },
];

fn structure(alloc: Global, fields: &[FieldType]) -> Result<CompositeInnerType, Error> {
    Ok(CompositeInnerType::Struct(StructType {
        fields: Items::from_slice(alloc, fields)?,
    }))
}

#[test]
fn types_of_aggregates_are_written(rt: HostRuntime) -> Result<(), Fail> {
    let alloc = rt.alloc();
    let array = CompositeInnerType::Array(ArrayType(BYTE));
    is_made(
        alloc,
        sub_type(false, None, false, array),
        "(sub (array (mut i8)))",
    )?;
    is_made(
        alloc,
        sub_type(true, Some(0), true, structure(alloc, &FIELDS)?),
        "(sub final 0 (shared (struct (field i16 (mut f64)))))",
    )?;
    is_made(
        alloc,
        sub_type(false, Some(12), false, structure(alloc, &[])?),
        "(sub 12 (struct))",
    )
}

// Fails unless the segment of these parts is written as `wanted`.
fn is_segment_written(
    alloc: Global,
    kind: ElementKind,
    heap_type: HeapType,
    items: Elements,
    wanted: &str,
) -> Result<(), Fail> {
    let ty = RefType {
        nullable: true,
        heap_type,
    };
    is_made(alloc, ElementSegment { kind, ty, items }, wanted)
}

const FUNC: HeapType = HeapType::Abstract {
    shared: false,
    ty: AbstractHeapType::Func,
};

const EQ: HeapType = HeapType::Abstract {
    shared: false,
    ty: AbstractHeapType::Eq,
};

const FIRST: ElementKind = ElementKind::Active {
    table: None,
    offset: Offset::Const32(-1),
};

const NAMED: ElementKind = ElementKind::Active {
    table: Some(0),
    offset: Offset::Global(2),
};

// Segments of functions, and their texts.
static FUNCTIONS: [(ElementKind, HeapType, &[u32], &str); 3] = [
    (ElementKind::Passive, FUNC, &[0, 3], "(elem func 0 3)"),
    (
        ElementKind::Declared,
        HeapType::Concrete(1),
        &[5],
        "(elem declare func (;(ref null 1);) 5)",
    ),
    (FIRST, FUNC, &[], "(elem (i32.const -1) func)"),
];

#[test]
fn segments_of_functions_are_written(rt: HostRuntime) -> Result<(), Fail> {
    let alloc = rt.alloc();
    for (kind, heap_type, indices, wanted) in &FUNCTIONS {
        let functions = Elements::Functions(Items::from_slice(alloc, indices)?);
        is_segment_written(alloc, *kind, *heap_type, functions, wanted)?;
    }
    Ok(())
}

fn one_expression(alloc: Global, expression: &[ConstInstr]) -> Result<Elements, Error> {
    let mut expressions = Items::new(alloc);
    expressions.push(Items::from_slice(alloc, expression)?)?;
    Ok(Elements::Expressions(expressions))
}

#[test]
fn segments_of_expressions_are_written(rt: HostRuntime) -> Result<(), Fail> {
    let alloc = rt.alloc();
    let i31 = one_expression(alloc, &[ConstInstr::I32Const(1), ConstInstr::RefI31])?;
    let text = "(elem (table 0) (global.get 2) eqref (item i32.const 1 ref.i31))";
    is_segment_written(alloc, NAMED, EQ, i31, text)?;
    let none = Elements::Expressions(Items::new(alloc));
    is_segment_written(alloc, ElementKind::Passive, FUNC, none, "(elem funcref)")
}

// Returns the kind of a segment that is copied into a memory, from its last address on.
const fn active(memory_index: u32) -> DataSegmentKind {
    DataSegmentKind::Active {
        memory_index,
        offset: Offset::Const64(-1),
    }
}

fn is_data_written(
    alloc: Global,
    kind: DataSegmentKind,
    bytes: &[u8],
    wanted: &str,
) -> Result<(), Fail> {
    let init = Items::from_slice(alloc, bytes)?;
    is_made(alloc, DataSegment { kind, init }, wanted)
}

#[test]
fn data_segments_and_names_are_written(rt: HostRuntime) -> Result<(), Fail> {
    let alloc = rt.alloc();
    is_data_written(alloc, DataSegmentKind::Passive, &[], "(data \"\")")?;
    let text = "(data (i64.const -1) \" ~\\7f\\1f\")";
    is_data_written(alloc, active(0), b" ~\x7f\x1f", text)?;
    let text = "(data (memory 1) (i64.const -1) \"\\00\\ff\")";
    is_data_written(alloc, active(1), &[0, 255], text)?;
    let name = Name::from_text(alloc, "a\"b\\c\n'é")?;
    is_made(alloc, name, "\"a\\\"b\\\\c\\0a'\\c3\\a9\"")
}
