use crate::sink::Sink;
use crate::text_form::TextForm;
use smith_types::{AbstractHeapType, HeapType, RefType, ValType};
use std::fmt;

fn keyword_of(ty: AbstractHeapType) -> &'static str {
    match ty {
        AbstractHeapType::Func => "func",
        AbstractHeapType::Extern => "extern",
        AbstractHeapType::Any => "any",
        AbstractHeapType::None => "none",
        AbstractHeapType::NoExtern => "noextern",
        AbstractHeapType::NoFunc => "nofunc",
        AbstractHeapType::Eq => "eq",
        AbstractHeapType::Struct => "struct",
        AbstractHeapType::Array => "array",
        AbstractHeapType::I31 => "i31",
        AbstractHeapType::Exn => "exn",
        AbstractHeapType::NoExn => "noexn",
    }
}

// Returns the abbreviation of the nullable references to `ty`, which is not shared.
fn abbreviation_of(ty: AbstractHeapType) -> &'static str {
    match ty {
        AbstractHeapType::Func => "funcref",
        AbstractHeapType::Extern => "externref",
        AbstractHeapType::Any => "anyref",
        AbstractHeapType::None => "nullref",
        AbstractHeapType::NoExtern => "nullexternref",
        AbstractHeapType::NoFunc => "nullfuncref",
        AbstractHeapType::Eq => "eqref",
        AbstractHeapType::Struct => "structref",
        AbstractHeapType::Array => "arrayref",
        AbstractHeapType::I31 => "i31ref",
        AbstractHeapType::Exn => "exnref",
        AbstractHeapType::NoExn => "nullexnref",
    }
}

/// The section Text Format, Heap Types.
impl TextForm for AbstractHeapType {
    fn write_text<S: Sink>(&self, sink: &mut S) -> fmt::Result {
        sink.write_str(keyword_of(*self))
    }
}

/// The section Text Format, Heap Types; shared types as the shared-everything-threads proposal,
/// exact types as the custom descriptors proposal writes them.
impl TextForm for HeapType {
    fn write_text<S: Sink>(&self, sink: &mut S) -> fmt::Result {
        match self {
            HeapType::Abstract { shared: false, ty } => ty.write_text(sink),
            HeapType::Abstract { shared: true, ty } => ("(shared ", ty, ")").write_text(sink),
            HeapType::Concrete(index) => index.write_text(sink),
            HeapType::Exact(index) => ("(exact ", index, ")").write_text(sink),
        }
    }
}

/// The section Text Format, Reference Types, with its abbreviations.
impl TextForm for RefType {
    fn write_text<S: Sink>(&self, sink: &mut S) -> fmt::Result {
        if self.nullable
            && let HeapType::Abstract { shared: false, ty } = self.heap_type
        {
            return sink.write_str(abbreviation_of(ty));
        }
        let opening = if self.nullable { "(ref null " } else { "(ref " };
        (opening, &self.heap_type, ")").write_text(sink)
    }
}

/// The section Text Format, Value Types.
impl TextForm for ValType {
    fn write_text<S: Sink>(&self, sink: &mut S) -> fmt::Result {
        let keyword = match self {
            ValType::I32 => "i32",
            ValType::I64 => "i64",
            ValType::F32 => "f32",
            ValType::F64 => "f64",
            ValType::V128 => "v128",
            ValType::Ref(reference) => return reference.write_text(sink),
        };
        sink.write_str(keyword)
    }
}
