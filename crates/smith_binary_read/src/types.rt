ghost use Rattle.std.specs.Prelude.{◌≡◌};
ghost use Rattle.smith_binary_read.specs.Readings.{Gives, mapped_at};
ghost use Rattle.smith_binary_read.specs.Choices.{item_of, type_index_at};
ghost use Rattle.smith_binary_read.specs.TypeReadings.{
  abstract_rows,
  number_rows,
  packed_rows,
  abstract_at,
  mutability_at,
  declared_at,
  declared_type,
  supertypes_at,
};

use crate::error::{ReadError, Reason};
use crate::lists::{Decode, read_each, read_list};
use crate::reader::Reader;
use smith_types::{
    AbstractHeapType, ArrayType, CompositeInnerType, CompositeType, FieldType, FuncType, HeapType,
    Items, RefType, StorageType, StructType, SubType, ValType,
};

// Returns the abstract heap type of `byte`.
fn abstract_of(byte: u8) -> Option<AbstractHeapType>
    ensures { result ≡ item_of abstract_rows byte }
{
    match byte {
        0x69 => Some(AbstractHeapType::Exn),
        0x6A => Some(AbstractHeapType::Array),
        0x6B => Some(AbstractHeapType::Struct),
        0x6C => Some(AbstractHeapType::I31),
        0x6D => Some(AbstractHeapType::Eq),
        0x6E => Some(AbstractHeapType::Any),
        0x6F => Some(AbstractHeapType::Extern),
        0x70 => Some(AbstractHeapType::Func),
        0x71 => Some(AbstractHeapType::None),
        0x72 => Some(AbstractHeapType::NoExtern),
        0x73 => Some(AbstractHeapType::NoFunc),
        0x74 => Some(AbstractHeapType::NoExn),
        _ => None,
    }
}

// Reads an abstract heap type.
#[tactic(auto, unfolding(crate::specs::TypeReadings::abstract_at))]
fn read_abstract(reader: &mut Reader<'_>) -> Result<AbstractHeapType, ReadError>
    ensures { Gives result reader.new (abstract_at reader.old) }
{
    let unknown = reader.fault(Reason::UnknownByte);
    let byte = reader.read_byte()?;
    match abstract_of(byte) {
        Some(ty) => Ok(ty),
        None => Err(unknown),
    }
}

// Reads the index of a type as a signed integer.
#[tactic(auto, unfolding(crate::specs::Choices::type_index_at))]
fn read_type_index(reader: &mut Reader<'_>) -> Result<u32, ReadError>
    ensures { Gives result reader.new (type_index_at reader.old) }
{
    let negative = reader.fault(Reason::IntegerTooLarge);
    let index = reader.read_signed(33)?;
    if index < 0 {
        return Err(negative);
    }
    Ok(index as u32)
}

impl Decode for HeapType {
    ghost use Rattle.smith_binary_read.specs.TypeReadings.{heap_type_at};

    ghost reading = { heap_type_at };

    #[tactic(auto, unfolding(crate::specs::TypeReadings::heap_type_at))]
    fn decode(reader: &mut Reader<'_>) -> Result<HeapType, ReadError> {
        let byte = reader.peek()?;
        if byte < 64 || byte >= 128 {
            let index = read_type_index(reader)?;
            return Ok(HeapType::Concrete(index));
        }
        if byte == 0x65 {
            reader.skip();
            let ty = read_abstract(reader)?;
            return Ok(HeapType::Abstract { shared: true, ty });
        }
        if byte == 0x62 {
            reader.skip();
            let index = reader.read_u32()?;
            return Ok(HeapType::Exact(index));
        }
        let ty = read_abstract(reader)?;
        Ok(HeapType::Abstract { shared: false, ty })
    }
}

impl Decode for RefType {
    ghost use Rattle.smith_binary_read.specs.TypeReadings.{ref_type_at};

    ghost reading = { ref_type_at };

    #[tactic(auto, unfolding(crate::specs::TypeReadings::ref_type_at))]
    fn decode(reader: &mut Reader<'_>) -> Result<RefType, ReadError> {
        let byte = reader.peek()?;
        if byte == 0x63 {
            reader.skip();
            let heap_type = HeapType::decode(reader)?;
            return Ok(RefType {
                nullable: true,
                heap_type,
            });
        }
        if byte == 0x64 {
            reader.skip();
            let heap_type = HeapType::decode(reader)?;
            return Ok(RefType {
                nullable: false,
                heap_type,
            });
        }
        let ty = read_abstract(reader)?;
        Ok(RefType {
            nullable: true,
            heap_type: HeapType::Abstract { shared: false, ty },
        })
    }
}

// Returns the number or vector type of `byte`.
fn number_of(byte: u8) -> Option<ValType>
    ensures { result ≡ item_of number_rows byte }
{
    match byte {
        0x7F => Some(ValType::I32),
        0x7E => Some(ValType::I64),
        0x7D => Some(ValType::F32),
        0x7C => Some(ValType::F64),
        0x7B => Some(ValType::V128),
        _ => None,
    }
}

impl Decode for ValType {
    ghost use Rattle.smith_binary_read.specs.TypeReadings.{val_type_at};

    ghost reading = { val_type_at };

    #[tactic(auto, unfolding(crate::specs::TypeReadings::val_type_at))]
    fn decode(reader: &mut Reader<'_>) -> Result<ValType, ReadError> {
        let byte = reader.peek()?;
        match number_of(byte) {
            Some(number) => {
                reader.skip();
                Ok(number)
            }
            None => {
                let reference = RefType::decode(reader)?;
                Ok(ValType::Ref(reference))
            }
        }
    }
}

// Returns the packed type of `byte`.
fn packed_of(byte: u8) -> Option<StorageType>
    ensures { result ≡ item_of packed_rows byte }
{
    match byte {
        0x78 => Some(StorageType::I8),
        0x77 => Some(StorageType::I16),
        _ => None,
    }
}

impl Decode for StorageType {
    ghost use Rattle.smith_binary_read.specs.TypeReadings.{storage_type_at};

    ghost reading = { storage_type_at };

    #[tactic(auto, unfolding(crate::specs::TypeReadings::storage_type_at))]
    fn decode(reader: &mut Reader<'_>) -> Result<StorageType, ReadError> {
        let byte = reader.peek()?;
        match packed_of(byte) {
            Some(packed) => {
                reader.skip();
                Ok(packed)
            }
            None => {
                let value = ValType::decode(reader)?;
                Ok(StorageType::Val(value))
            }
        }
    }
}

// Reads whether a field is mutable.
#[tactic(auto, unfolding(crate::specs::TypeReadings::mutability_at))]
fn read_mutability(reader: &mut Reader<'_>) -> Result<bool, ReadError>
    ensures { Gives result reader.new (mutability_at reader.old) }
{
    let unknown = reader.fault(Reason::UnknownByte);
    let byte = reader.read_byte()?;
    match byte {
        0 => Ok(false),
        1 => Ok(true),
        _ => Err(unknown),
    }
}

impl Decode for FieldType {
    ghost use Rattle.smith_binary_read.specs.TypeReadings.{field_type_at};

    ghost reading = { field_type_at };

    #[tactic(auto, unfolding(crate::specs::TypeReadings::field_type_at))]
    fn decode(reader: &mut Reader<'_>) -> Result<FieldType, ReadError> {
        let element_type = StorageType::decode(reader)?;
        let mutable = read_mutability(reader)?;
        Ok(FieldType {
            element_type,
            mutable,
        })
    }
}

impl Decode for FuncType {
    ghost use Rattle.smith_binary_read.specs.TypeReadings.{func_type_at};

    ghost reading = { func_type_at };

    #[tactic(auto, unfolding(crate::specs::TypeReadings::func_type_at))]
    fn decode(reader: &mut Reader<'_>) -> Result<FuncType, ReadError> {
        let params = read_list(reader)?;
        let results = read_list(reader)?;
        Ok(FuncType { params, results })
    }
}

impl Decode for CompositeInnerType {
    ghost use Rattle.smith_binary_read.specs.TypeReadings.{inner_type_at};

    ghost reading = { inner_type_at };

    #[tactic(auto, unfolding(crate::specs::TypeReadings::inner_type_at))]
    fn decode(reader: &mut Reader<'_>) -> Result<CompositeInnerType, ReadError> {
        let unknown = reader.fault(Reason::UnknownByte);
        let byte = reader.read_byte()?;
        match byte {
            0x5E => {
                let field = FieldType::decode(reader)?;
                Ok(CompositeInnerType::Array(ArrayType(field)))
            }
            0x5F => {
                let fields = read_list(reader)?;
                Ok(CompositeInnerType::Struct(StructType { fields }))
            }
            0x60 => {
                let function = FuncType::decode(reader)?;
                Ok(CompositeInnerType::Func(function))
            }
            _ => Err(unknown),
        }
    }
}

impl Decode for CompositeType {
    ghost use Rattle.smith_binary_read.specs.TypeReadings.{composite_type_at};

    ghost reading = { composite_type_at };

    #[tactic(auto, unfolding(crate::specs::TypeReadings::composite_type_at))]
    fn decode(reader: &mut Reader<'_>) -> Result<CompositeType, ReadError> {
        let byte = reader.peek()?;
        if byte == 0x65 {
            reader.skip();
            let inner = CompositeInnerType::decode(reader)?;
            return Ok(CompositeType {
                inner,
                shared: true,
            });
        }
        let inner = CompositeInnerType::decode(reader)?;
        Ok(CompositeType {
            inner,
            shared: false,
        })
    }
}

/// A type as bytes declare it, with any number of supertypes (Recursive Types). In a valid module it has
/// at most one.
#[derive(Debug, Drop)]
pub struct DeclaredType {
    /// The type with its first supertype, if there is one.
    pub sub_type: SubType,
    /// The supertypes after the first.
    pub further_supertypes: Items<u32>,
}

// Reads a list of supertypes: the first, if there is one, and the further ones.
fn read_supertypes(reader: &mut Reader<'_>) -> Result<(Option<u32>, Items<u32>), ReadError>
    ensures { Gives result reader.new (supertypes_at reader.old) }
{
    let count = reader.read_u32()?;
    if count == 0 {
        return Ok((None, Items::new(reader.alloc())));
    }
    let first = reader.read_u32()?;
    let further = read_each(reader, count - 1)?;
    Ok((Some(first), further))
}

// Reads the supertypes and the composite type of a type.
fn read_declared(reader: &mut Reader<'_>, is_final: bool) -> Result<DeclaredType, ReadError>
    ensures { Gives result reader.new (mapped_at (declared_type is_final) declared_at reader.old) }
{
    let (supertype, further_supertypes) = read_supertypes(reader)?;
    let composite_type = CompositeType::decode(reader)?;
    Ok(DeclaredType {
        sub_type: SubType {
            is_final,
            supertype,
            composite_type,
        },
        further_supertypes,
    })
}

impl Decode for DeclaredType {
    ghost use Rattle.smith_binary_read.specs.TypeReadings.{declared_type_at};

    ghost reading = { declared_type_at };

    #[tactic(auto, unfolding(crate::specs::TypeReadings::declared_type_at))]
    fn decode(reader: &mut Reader<'_>) -> Result<DeclaredType, ReadError> {
        let byte = reader.peek()?;
        if byte == 0x4F {
            reader.skip();
            return read_declared(reader, true);
        }
        if byte == 0x50 {
            reader.skip();
            return read_declared(reader, false);
        }
        let composite_type = CompositeType::decode(reader)?;
        Ok(DeclaredType {
            sub_type: SubType {
                is_final: true,
                supertype: None,
                composite_type,
            },
            further_supertypes: Items::new(reader.alloc()),
        })
    }
}

/// A recursive group.
impl Decode for Items<DeclaredType> {
    ghost use Rattle.smith_binary_read.specs.TypeReadings.{declared_group_at};

    ghost reading = { declared_group_at };

    #[tactic(auto, unfolding(crate::specs::TypeReadings::declared_group_at))]
    fn decode(reader: &mut Reader<'_>) -> Result<Items<DeclaredType>, ReadError> {
        let byte = reader.peek()?;
        if byte == 0x4E {
            reader.skip();
            return read_list(reader);
        }
        let mut group = Vec::new(reader.alloc());
        let declared = DeclaredType::decode(reader)?;
        group.push(declared)?;
        Ok(Items::from_vec(group))
    }
}
