ghost use Rattle.std.specs.Prelude.{◌≡◌, ◌⊎◌, ◌^◌, ◌≤◌, ◌∷◌, [], Any, length, slice_get, unwrap_or};
ghost use Rattle.std.specs.Prelude.{OnOk, IfErr};
ghost use Rattle.smith_binary.specs.declared.error.EncodeError.TheVariants.{Memory};
ghost use Rattle.smith_binary.specs.Faults.{IsFault};
ghost use Rattle.smith_binary.specs.Pieces.{Each, IsList, IsListIn, Writes};
ghost use Rattle.smith_binary.specs.Spelling.{IsUnsignedIn};
ghost use Rattle.smith_binary_sections.specs.Long.{IsLongSubType};
ghost use Rattle.smith_binary_sections.specs.Types.{final_byte};
ghost use Rattle.smith_binary_read.specs.DeclaredTypes.{with_further};
ghost use Rattle.smith_decode.specs.TypeGroups.{declared_group, declared_groups};
ghost use Rattle.smith_encode.specs.Spelled.{IfPasses, is_declared_spelled, is_group_spelled};
ghost use Rattle.smith_encode.specs.TooLong.{IsLongDeclared, IsLongDeclaredGroup};
ghost use Rattle.smith_encode.specs.WrittenTypes.{HasSupertypes, IsDeclaredWritten};
ghost use Rattle.smith_encode.specs.WrittenTypes.{IsDeclaredGroupWritten};

use smith_binary::{EncodeError, Sink};
use smith_binary_sections::Encode;
use smith_types::{Items, SubType};

// Writes `indices` in order.
fn write_indices(indices: &[u32], sink: &mut Sink) -> Result<(), EncodeError>
    ensures writes { OnOk result (Writes (λ s. Each (IsUnsignedIn s 32) indices.now) sink.old sink.new) }
    ensures memory { IfErr result (λ e. e ≡ Memory) }
{
    for index in indices {
        sink.write_u32(*index)?;
    }
    Ok(())
}

// Writes a list of supertypes.
fn write_supertypes(first: u32, further: &[u32], sink: &mut Sink) -> Result<(), EncodeError>
    ensures writes { OnOk result
        (Writes (λ s. IsListIn s (IsUnsignedIn s 32) (first ∷ further.now)) sink.old sink.new) }
    ensures fault { IfErr result (IsFault (2 ^ 32 ≤ length (first ∷ further.now))) }
{
    sink.write_length(further.len() + 1)?;
    sink.write_u32(first)?;
    write_indices(further, sink)
}

// Returns the byte of a type, final if `is_final` is set.
fn final_byte(is_final: bool) -> u8
    ensures { result ≡ final_byte is_final }
{
    if is_final { 0x4F } else { 0x50 }
}

// Writes a type whose supertypes are `first` and `further`.
fn write_full(ty: &SubType, first: u32, further: &[u32], sink: &mut Sink) -> Result<(), EncodeError>
    ensures writes { OnOk result
        (Writes (λ _. HasSupertypes (first ∷ further.now) ty.now) sink.old sink.new) }
    ensures fault { IfErr result
        (IsFault ((2 ^ 32 ≤ length (first ∷ further.now)) ⊎ IsLongSubType ty.now)) }
{
    sink.write_byte(final_byte(ty.is_final))?;
    write_supertypes(first, further, sink)?;
    ty.composite_type.encode(sink)
}

// Writes a type whose supertypes after the first are `further`.
fn write_type(ty: &SubType, further: &[u32], sink: &mut Sink) -> Result<(), EncodeError>
    ensures writes { OnOk result (Writes (λ _. IfPasses is_declared_spelled IsDeclaredWritten
        (with_further ty.now further.now)) sink.old sink.new) }
    ensures fault { IfErr result (IsFault (IsLongDeclared (with_further ty.now further.now))) }
{
    if further.is_empty() {
        return ty.encode(sink);
    }
    match ty.supertype {
        Some(first) => write_full(ty, first, further, sink),
        None => ty.encode(sink),
    }
}

// Returns the list at `index`, or an empty one if there is none.
fn list_at<T>(lists: &[Items<T>], index: usize) -> &[T]
    ensures { result.now ≡ unwrap_or (slice_get lists.now index) [] }
{
    match lists.get(index) {
        Some(list) => list.as_slice(),
        None => &[],
    }
}

// Writes the types of a group in order.
fn write_types(
    types: &[SubType],
    further: &[Items<u32>],
    sink: &mut Sink,
) -> Result<(), EncodeError>
    ensures writes { OnOk result (Writes (λ _. Each (IfPasses is_declared_spelled IsDeclaredWritten)
        (declared_group types.now further.now)) sink.old sink.new) }
    ensures fault { IfErr result
        (IsFault (Any IsLongDeclared (declared_group types.now further.now))) }
{
    for i in 0..types.len() {
        write_type(&types[i], list_at(further, i), sink)?;
    }
    Ok(())
}

// Writes a group.
fn write_group(
    types: &[SubType],
    further: &[Items<u32>],
    sink: &mut Sink,
) -> Result<(), EncodeError>
    ensures writes { OnOk result (Writes (λ _. IfPasses is_group_spelled IsDeclaredGroupWritten
        (declared_group types.now further.now)) sink.old sink.new) }
    ensures fault { IfErr result
        (IsFault (IsLongDeclaredGroup (declared_group types.now further.now))) }
{
    if types.len() == 1 {
        return write_type(&types[0], list_at(further, 0), sink);
    }
    sink.write_byte(0x4E)?;
    sink.write_length(types.len())?;
    write_types(types, further, sink)
}

// Writes groups in order.
fn write_groups(
    types: &[Items<SubType>],
    further: &[Items<Items<u32>>],
    sink: &mut Sink,
) -> Result<(), EncodeError>
    ensures writes { OnOk result (Writes (λ _. Each (IfPasses is_group_spelled IsDeclaredGroupWritten)
        (declared_groups types.now further.now)) sink.old sink.new) }
    ensures fault { IfErr result
        (IsFault (Any IsLongDeclaredGroup (declared_groups types.now further.now))) }
{
    for i in 0..types.len() {
        write_group(types[i].as_slice(), list_at(further, i), sink)?;
    }
    Ok(())
}

/// The types of a module, by groups.
#[derive(Clone, Copy)]
pub(crate) struct TypeGroups<'a> {
    /// The types.
    pub(crate) types: &'a [Items<SubType>],
    /// The supertypes of each type after its first.
    pub(crate) further_supertypes: &'a [Items<Items<u32>>],
}

impl<'a> Encode for TypeGroups<'a> {
    ghost use Rattle.smith_binary_sections.specs.Long.{IsLongList};

    ghost spells = { λ _ groups. IsList (IfPasses is_group_spelled IsDeclaredGroupWritten)
        (declared_groups groups.types.now groups.further_supertypes.now) };

    ghost is_long = { λ groups. IsLongList IsLongDeclaredGroup
        (declared_groups groups.types.now groups.further_supertypes.now) };

    fn encode(&self, sink: &mut Sink) -> Result<(), EncodeError> {
        sink.write_length(self.types.len())?;
        write_groups(self.types, self.further_supertypes, sink)
    }
}
