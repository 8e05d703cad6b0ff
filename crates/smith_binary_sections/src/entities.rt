ghost use Rattle.std.specs.Prelude.{◌≡◌, Option, None, OnOk, IfErr};
ghost use Rattle.smith_binary.specs.declared.error.EncodeError.TheVariants.{Memory as OutOfMemory};
ghost use Rattle.smith_binary.specs.Faults.{IsFault};
ghost use Rattle.smith_binary.specs.Pieces.{Writes};
ghost use Rattle.smith_binary_sections.specs.Entities.{flag, global_byte, limits_byte};
ghost use Rattle.smith_binary_sections.specs.Entities.{IsExternTypeIn, IsGlobalTypeIn};
ghost use Rattle.smith_binary_sections.specs.Entities.{IsMemoryTypeIn, IsPageSizeIn, IsRangeIn};
ghost use Rattle.smith_binary_sections.specs.Entities.{IsTableTypeIn, IsTagTypeIn};
ghost use Rattle.smith_binary_sections.specs.Long.{IsNeverLong};

use crate::lists::Encode;
use smith_binary::{EncodeError, Sink};
use smith_types::{EntityType, GlobalType, MemoryType, TableType};

// Returns the flag `bit` if `is_set` is set, else 0.
fn flag(is_set: bool, bit: u8) -> u8
    ensures { result ≡ flag is_set bit }
{
    if is_set { bit } else { 0 }
}

impl Encode for GlobalType {
    ghost spells = { IsGlobalTypeIn };

    ghost is_long = { IsNeverLong };

    fn encode(&self, sink: &mut Sink) -> Result<(), EncodeError> {
        self.val_type.encode(sink)?;
        sink.write_byte(flag(self.mutable, 0x01) + flag(self.shared, 0x02))
    }
}

// Returns the byte of the flags of limits.
fn limits_byte(maximum: Option<u64>, shared: bool, wide: bool, page: Option<u32>) -> u8
    ensures { result ≡ limits_byte maximum shared wide page }
{
    flag(maximum.is_some(), 0x01)
        + flag(shared, 0x02)
        + flag(wide, 0x04)
        + flag(page.is_some(), 0x08)
}

// Writes the numbers of limits.
fn write_range(minimum: u64, maximum: Option<u64>, sink: &mut Sink) -> Result<(), EncodeError>
    ensures writes { OnOk result (Writes (λ s. IsRangeIn s minimum maximum) sink.old sink.new) }
    ensures memory { IfErr result (λ e. e ≡ OutOfMemory) }
{
    sink.write_u64(minimum)?;
    match maximum {
        Some(maximum) => sink.write_u64(maximum),
        None => Ok(()),
    }
}

// Writes the logarithm of a page size, if one is stated.
fn write_page_size(log2: Option<u32>, sink: &mut Sink) -> Result<(), EncodeError>
    ensures writes { OnOk result (Writes (λ s. IsPageSizeIn s log2) sink.old sink.new) }
    ensures memory { IfErr result (λ e. e ≡ OutOfMemory) }
{
    match log2 {
        Some(log2) => sink.write_u32(log2),
        None => Ok(()),
    }
}

impl Encode for MemoryType {
    ghost spells = { IsMemoryTypeIn };

    ghost is_long = { IsNeverLong };

    fn encode(&self, sink: &mut Sink) -> Result<(), EncodeError> {
        let flags = limits_byte(
            self.maximum,
            self.shared,
            self.memory64,
            self.page_size_log2,
        );
        sink.write_byte(flags)?;
        write_range(self.minimum, self.maximum, sink)?;
        write_page_size(self.page_size_log2, sink)
    }
}

impl Encode for TableType {
    ghost spells = { IsTableTypeIn };

    ghost is_long = { IsNeverLong };

    fn encode(&self, sink: &mut Sink) -> Result<(), EncodeError> {
        self.element_type.encode(sink)?;
        sink.write_byte(limits_byte(self.maximum, self.shared, self.table64, None))?;
        write_range(self.minimum, self.maximum, sink)
    }
}

/// Writes the type of a tag for exceptions, by the index of a function type.
pub(crate) fn write_tag_type(index: u32, sink: &mut Sink) -> Result<(), EncodeError>
    ensures writes { OnOk result (Writes (λ s. IsTagTypeIn s index) sink.old sink.new) }
    ensures memory { IfErr result (λ e. e ≡ OutOfMemory) }
{
    sink.write_byte(0x00)?;
    sink.write_u32(index)
}

impl Encode for EntityType {
    ghost spells = { IsExternTypeIn };

    ghost is_long = { IsNeverLong };

    fn encode(&self, sink: &mut Sink) -> Result<(), EncodeError> {
        match self {
            EntityType::Func(index) => {
                sink.write_byte(0x00)?;
                sink.write_u32(*index)
            }
            EntityType::Table(table) => {
                sink.write_byte(0x01)?;
                table.encode(sink)
            }
            EntityType::Memory(memory) => {
                sink.write_byte(0x02)?;
                memory.encode(sink)
            }
            EntityType::Global(global) => {
                sink.write_byte(0x03)?;
                global.encode(sink)
            }
            EntityType::Tag(index) => {
                sink.write_byte(0x04)?;
                write_tag_type(*index, sink)
            }
        }
    }
}
