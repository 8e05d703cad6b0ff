ghost use Rattle.std.specs.Prelude.{◌≡◌, ◌↔◌, IsTrue};
ghost use Rattle.smith_types.specs.Syntax.FeatureBits.{features_in};
ghost use Rattle.smith_types.specs.Flags.{IsInstrEnabled};
ghost use Rattle.smith_check_types.specs.TypeSections.{canonical_index};
ghost use Rattle.smith_check_module.specs.CanonicalModules.{renamed_const};
ghost use Rattle.smith_check_module.specs.ConstInstrs.{
  const_of,
  const_of_i32,
  const_of_i64,
  const_of_numeric,
  const_of_reference,
  const_of_aggregate,
};

use smith_check_types::{canonical_heap_type, canonical_index};
use smith_instr::{AggregateInstr, Instr, IntBinary, NumericInstr, ReferenceInstr};
use smith_types::{ConstInstr, WasmFeatures};

/// Returns the constant instruction that `instruction` is, if it is one.
pub(crate) fn const_of(instruction: &Instr) -> Option<ConstInstr>
    ensures { result ≡ const_of instruction.now }
{
    match instruction {
        Instr::I32Const(value) => Some(ConstInstr::I32Const(*value)),
        Instr::I64Const(value) => Some(ConstInstr::I64Const(*value)),
        Instr::F32Const(bits) => Some(ConstInstr::F32Const(*bits)),
        Instr::F64Const(bits) => Some(ConstInstr::F64Const(*bits)),
        Instr::V128Const(value) => Some(ConstInstr::V128Const(*value)),
        Instr::GlobalGet(index) => Some(ConstInstr::GlobalGet(*index)),
        Instr::Numeric(op) => const_of_numeric(*op),
        Instr::Reference(op) => const_of_reference(*op),
        Instr::Aggregate(op) => const_of_aggregate(*op),
        _ => None,
    }
}

fn const_of_numeric(op: NumericInstr) -> Option<ConstInstr>
    ensures { result ≡ const_of_numeric op }
{
    match op {
        NumericInstr::I32Binary(op) => const_of_i32(op),
        NumericInstr::I64Binary(op) => const_of_i64(op),
        _ => None,
    }
}

fn const_of_i32(op: IntBinary) -> Option<ConstInstr>
    ensures { result ≡ const_of_i32 op }
{
    match op {
        IntBinary::Add => Some(ConstInstr::I32Add),
        IntBinary::Sub => Some(ConstInstr::I32Sub),
        IntBinary::Mul => Some(ConstInstr::I32Mul),
        _ => None,
    }
}

fn const_of_i64(op: IntBinary) -> Option<ConstInstr>
    ensures { result ≡ const_of_i64 op }
{
    match op {
        IntBinary::Add => Some(ConstInstr::I64Add),
        IntBinary::Sub => Some(ConstInstr::I64Sub),
        IntBinary::Mul => Some(ConstInstr::I64Mul),
        _ => None,
    }
}

fn const_of_reference(op: ReferenceInstr) -> Option<ConstInstr>
    ensures { result ≡ const_of_reference op }
{
    match op {
        ReferenceInstr::Null(heap_type) => Some(ConstInstr::RefNull(heap_type)),
        ReferenceInstr::Func(index) => Some(ConstInstr::RefFunc(index)),
        _ => None,
    }
}

fn const_of_aggregate(op: AggregateInstr) -> Option<ConstInstr>
    ensures { result ≡ const_of_aggregate op }
{
    match op {
        AggregateInstr::RefI31 => Some(ConstInstr::RefI31),
        AggregateInstr::RefI31Shared => Some(ConstInstr::RefI31Shared),
        AggregateInstr::StructNew(index) => Some(ConstInstr::StructNew(index)),
        AggregateInstr::StructNewDefault(index) => Some(ConstInstr::StructNewDefault(index)),
        AggregateInstr::ArrayNew(index) => Some(ConstInstr::ArrayNew(index)),
        AggregateInstr::ArrayNewDefault(index) => Some(ConstInstr::ArrayNewDefault(index)),
        AggregateInstr::ArrayNewFixed { ty, size } => Some(ConstInstr::ArrayNewFixed {
            array_type_index: ty,
            array_size: size,
        }),
        AggregateInstr::AnyConvertExtern => Some(ConstInstr::AnyConvertExtern),
        AggregateInstr::ExternConvertAny => Some(ConstInstr::ExternConvertAny),
        _ => None,
    }
}

/// Returns `instruction` with the canonical index in `indices` of the type that it refers to, if any.
pub(crate) fn canonical_const(indices: &[u32], instruction: ConstInstr) -> ConstInstr
    ensures { result ≡ renamed_const (canonical_index indices.now) instruction }
{
    match instruction {
        ConstInstr::RefNull(heap_type) => {
            ConstInstr::RefNull(canonical_heap_type(indices, heap_type))
        }
        ConstInstr::StructNew(index) => ConstInstr::StructNew(canonical_index(indices, index)),
        ConstInstr::StructNewDefault(index) => {
            ConstInstr::StructNewDefault(canonical_index(indices, index))
        }
        ConstInstr::ArrayNew(index) => ConstInstr::ArrayNew(canonical_index(indices, index)),
        ConstInstr::ArrayNewDefault(index) => {
            ConstInstr::ArrayNewDefault(canonical_index(indices, index))
        }
        ConstInstr::ArrayNewFixed {
            array_type_index,
            array_size,
        } => ConstInstr::ArrayNewFixed {
            array_type_index: canonical_index(indices, array_type_index),
            array_size,
        },
        _ => instruction,
    }
}

/// Returns whether `features` permit `instruction` in a constant expression, of a module that imports
/// so many globals. A rule of this project.
pub(crate) fn is_enabled(
    features: WasmFeatures,
    imported_globals: usize,
    instruction: ConstInstr,
) -> bool
    ensures { IsTrue result ↔ IsInstrEnabled (features_in features) imported_globals instruction }
{
    match instruction {
        ConstInstr::I32Const(_)
        | ConstInstr::I64Const(_)
        | ConstInstr::F32Const(_)
        | ConstInstr::F64Const(_) => true,
        ConstInstr::V128Const(_) => features.contains(WasmFeatures::SIMD),
        ConstInstr::GlobalGet(index) => {
            (index as usize) < imported_globals || features.contains(WasmFeatures::GC)
        }
        ConstInstr::RefNull(_) | ConstInstr::RefFunc(_) => {
            features.contains(WasmFeatures::REFERENCE_TYPES)
        }
        ConstInstr::I32Add | ConstInstr::I32Sub | ConstInstr::I32Mul => {
            features.contains(WasmFeatures::EXTENDED_CONST)
        }
        ConstInstr::I64Add | ConstInstr::I64Sub | ConstInstr::I64Mul => {
            features.contains(WasmFeatures::EXTENDED_CONST)
        }
        ConstInstr::RefI31Shared => {
            features.contains(WasmFeatures::GC)
                && features.contains(WasmFeatures::SHARED_EVERYTHING_THREADS)
        }
        _ => features.contains(WasmFeatures::GC),
    }
}
