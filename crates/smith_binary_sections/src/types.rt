ghost use Rattle.std.specs.Prelude.{◌≡◌, OnOk, IfErr, List, ℕ, option_to_list};
ghost use Rattle.smith_binary.specs.Spelling.{IsUnsignedIn};
ghost use Rattle.smith_binary.specs.Pieces.{Is, Writes, IsListIn};
ghost use Rattle.smith_binary_sections.specs.Types.{short_ref, abstract_byte, null_byte};
ghost use Rattle.smith_binary_sections.specs.Types.{mutability_byte, shared_bytes, final_byte};
ghost use Rattle.smith_binary_sections.specs.Types.{is_alone, group_at, IsCompositeTypeIn};
ghost use Rattle.smith_binary_sections.specs.Types.{IsFieldTypeIn, IsFuncTypeIn, IsHeapTypeIn};
ghost use Rattle.smith_binary_sections.specs.Types.{IsInnerTypeIn, IsRecGroupWrittenIn};
ghost use Rattle.smith_binary_sections.specs.Types.{IsRefTypeIn, IsStorageTypeIn};
ghost use Rattle.smith_binary_sections.specs.Types.{IsSubTypeWrittenIn, IsValTypeIn};
ghost use Rattle.smith_binary.specs.declared.error.EncodeError.TheVariants.{Memory};
ghost use Rattle.smith_binary.specs.Faults.{IsFault};
ghost use Rattle.smith_binary_sections.specs.Long.{IsLongComposite, IsLongFuncType, IsLongGroup};
ghost use Rattle.smith_binary_sections.specs.Long.{IsLongInner, IsLongList, IsLongSubType};
ghost use Rattle.smith_binary_sections.specs.Long.{IsNeverLong};

use crate::lists::{Encode, EncodeItem, write_list};
use smith_binary::{EncodeError, Sink};
use smith_types::{
    AbstractHeapType, CompositeInnerType, CompositeType, FieldType, FuncType, HeapType, RefType,
    StorageType, SubType, ValType,
};
use std::ops::Range;

// Returns the byte of `ty`.
fn abstract_byte(ty: AbstractHeapType) -> u8
    ensures { result ≡ abstract_byte ty }
{
    match ty {
        AbstractHeapType::Exn => 0x69,
        AbstractHeapType::Array => 0x6A,
        AbstractHeapType::Struct => 0x6B,
        AbstractHeapType::I31 => 0x6C,
        AbstractHeapType::Eq => 0x6D,
        AbstractHeapType::Any => 0x6E,
        AbstractHeapType::Extern => 0x6F,
        AbstractHeapType::Func => 0x70,
        AbstractHeapType::None => 0x71,
        AbstractHeapType::NoExtern => 0x72,
        AbstractHeapType::NoFunc => 0x73,
        AbstractHeapType::NoExn => 0x74,
    }
}

impl Encode for HeapType {
    ghost spells = { IsHeapTypeIn };

    ghost is_long = { IsNeverLong };

    fn encode(&self, sink: &mut Sink) -> Result<(), EncodeError> {
        match self {
            HeapType::Abstract { shared: false, ty } => sink.write_byte(abstract_byte(*ty)),
            HeapType::Abstract { shared: true, ty } => {
                sink.write_byte(0x65)?;
                sink.write_byte(abstract_byte(*ty))
            }
            HeapType::Concrete(index) => sink.write_s33(*index),
            HeapType::Exact(index) => {
                sink.write_byte(0x62)?;
                sink.write_u32(*index)
            }
        }
    }
}

// Returns the byte of a reference type, nullable if `nullable` is set.
fn null_byte(nullable: bool) -> u8
    ensures { result ≡ null_byte nullable }
{
    if nullable { 0x63 } else { 0x64 }
}

// Returns the abstract heap type that is written for a reference type, if the short form can state
// it.
fn short_ref(nullable: bool, heap_type: HeapType) -> Option<AbstractHeapType>
    ensures { result ≡ short_ref nullable heap_type }
{
    match heap_type {
        HeapType::Abstract { shared: false, ty } if nullable => Some(ty),
        _ => None,
    }
}

impl Encode for RefType {
    ghost spells = { IsRefTypeIn };

    ghost is_long = { IsNeverLong };

    fn encode(&self, sink: &mut Sink) -> Result<(), EncodeError> {
        match short_ref(self.nullable, self.heap_type) {
            Some(ty) => sink.write_byte(abstract_byte(ty)),
            None => {
                sink.write_byte(null_byte(self.nullable))?;
                self.heap_type.encode(sink)
            }
        }
    }
}

impl Encode for ValType {
    ghost spells = { IsValTypeIn };

    ghost is_long = { IsNeverLong };

    fn encode(&self, sink: &mut Sink) -> Result<(), EncodeError> {
        match self {
            ValType::I32 => sink.write_byte(0x7F),
            ValType::I64 => sink.write_byte(0x7E),
            ValType::F32 => sink.write_byte(0x7D),
            ValType::F64 => sink.write_byte(0x7C),
            ValType::V128 => sink.write_byte(0x7B),
            ValType::Ref(reference) => reference.encode(sink),
        }
    }
}

impl Encode for StorageType {
    ghost spells = { IsStorageTypeIn };

    ghost is_long = { IsNeverLong };

    fn encode(&self, sink: &mut Sink) -> Result<(), EncodeError> {
        match self {
            StorageType::I8 => sink.write_byte(0x78),
            StorageType::I16 => sink.write_byte(0x77),
            StorageType::Val(value) => value.encode(sink),
        }
    }
}

// Returns the byte of a field, mutable if `mutable` is set.
fn mutability_byte(mutable: bool) -> u8
    ensures { result ≡ mutability_byte mutable }
{
    if mutable { 0x01 } else { 0x00 }
}

impl Encode for FieldType {
    ghost spells = { IsFieldTypeIn };

    ghost is_long = { IsNeverLong };

    fn encode(&self, sink: &mut Sink) -> Result<(), EncodeError> {
        self.element_type.encode(sink)?;
        sink.write_byte(mutability_byte(self.mutable))
    }
}

impl Encode for FuncType {
    ghost spells = { IsFuncTypeIn };

    ghost is_long = { IsLongFuncType };

    fn encode(&self, sink: &mut Sink) -> Result<(), EncodeError> {
        write_list(self.params.as_slice(), sink)?;
        write_list(self.results.as_slice(), sink)
    }
}

impl Encode for CompositeInnerType {
    ghost spells = { IsInnerTypeIn };

    ghost is_long = { IsLongInner };

    fn encode(&self, sink: &mut Sink) -> Result<(), EncodeError> {
        match self {
            CompositeInnerType::Array(array) => {
                sink.write_byte(0x5E)?;
                array.0.encode(sink)
            }
            CompositeInnerType::Struct(structure) => {
                sink.write_byte(0x5F)?;
                write_list(structure.fields.as_slice(), sink)
            }
            CompositeInnerType::Func(function) => {
                sink.write_byte(0x60)?;
                function.encode(sink)
            }
        }
    }
}

// Writes the byte of a shared type, if it is shared.
fn write_shared(shared: bool, sink: &mut Sink) -> Result<(), EncodeError>
    ensures writes { OnOk result (Writes (λ _. Is (shared_bytes shared)) sink.old sink.new) }
    ensures memory { IfErr result (λ e. e ≡ Memory) }
{
    if shared {
        return sink.write_byte(0x65);
    }
    Ok(())
}

impl Encode for CompositeType {
    ghost spells = { IsCompositeTypeIn };

    ghost is_long = { IsLongComposite };

    fn encode(&self, sink: &mut Sink) -> Result<(), EncodeError> {
        write_shared(self.shared, sink)?;
        self.inner.encode(sink)
    }
}

// Writes the list of the supertypes of a type.
fn write_supertype(supertype: Option<u32>, sink: &mut Sink) -> Result<(), EncodeError>
    ensures writes { OnOk result
        (Writes (λ s. IsListIn s (IsUnsignedIn s 32) (option_to_list supertype)) sink.old sink.new) }
    ensures memory { IfErr result (λ e. e ≡ Memory) }
{
    match supertype {
        None => sink.write_length(0),
        Some(index) => {
            sink.write_length(1)?;
            sink.write_u32(index)
        }
    }
}

// Returns the byte of a type, final if `is_final` is set.
fn final_byte(is_final: bool) -> u8
    ensures { result ≡ final_byte is_final }
{
    if is_final { 0x4F } else { 0x50 }
}

// Returns whether a sub type is written as its composite type alone.
fn is_alone(supertype: Option<u32>, is_final: bool) -> bool
    ensures { result ≡ is_alone supertype is_final }
{
    match supertype {
        None => is_final,
        Some(_) => false,
    }
}

impl Encode for SubType {
    ghost spells = { IsSubTypeWrittenIn };

    ghost is_long = { IsLongSubType };

    fn encode(&self, sink: &mut Sink) -> Result<(), EncodeError> {
        if is_alone(self.supertype, self.is_final) {
            return self.composite_type.encode(sink);
        }
        sink.write_byte(final_byte(self.is_final))?;
        write_supertype(self.supertype, sink)?;
        self.composite_type.encode(sink)
    }
}

// Writes the recursive group `group`.
fn write_group(group: &[SubType], sink: &mut Sink) -> Result<(), EncodeError>
    ensures writes { OnOk result (Writes (λ s. IsRecGroupWrittenIn s group.now) sink.old sink.new) }
    ensures fault { IfErr result (IsFault (IsLongGroup group.now)) }
{
    if group.len() == 1 {
        return group[0].encode(sink);
    }
    sink.write_byte(0x4E)?;
    write_list(group, sink)
}

// Returns the types of `types` at the indices `range`.
fn group_at<'a>(types: &'a [SubType], range: &Range<usize>) -> &'a [SubType]
    ensures { result.now ≡ group_at types.now range.now }
{
    let (front, _) = types.split_at(range.end.min(types.len()));
    let (_, group) = front.split_at(range.start.min(front.len()));
    group
}

/// A writer of a recursive group, by the indices of its types.
#[derive(Clone, Copy)]
pub struct Groups<'a> {
    /// The types of the module.
    pub types: &'a [SubType],
}

impl<'a> EncodeItem<Range<usize>> for Groups<'a> {
    ghost spells = { λ s groups range. IsRecGroupWrittenIn s (group_at groups.types.now range) };

    ghost is_long = { λ groups range. IsLongGroup (group_at groups.types.now range) };

    fn encode_item(&self, item: &Range<usize>, sink: &mut Sink) -> Result<(), EncodeError> {
        write_group(group_at(self.types, item), sink)
    }
}
