ghost use Rattle.std.specs.Prelude.{◌≡◌, ℕ};
ghost use Rattle.smith_binary.specs.Numbers.{IsUnsigned, IsSigned, IsLittleEndian, IsVector};
ghost use Rattle.smith_binary.specs.Pieces.{IsByte, IsName};
ghost use Rattle.smith_binary_sections.specs.Types.{IsRefType, IsValType};
ghost use Rattle.smith_binary_sections.specs.Entities.{IsExternType, IsMemoryType};
ghost use Rattle.smith_binary_sections.specs.Imports.{IsImportGroup};
ghost use Rattle.smith_binary_read.specs.Decodes.{Decodes};
ghost use Rattle.smith_binary_read.specs.Numbers.{unsigned_at, signed_at, little_endian_at};
ghost use Rattle.smith_binary_read.specs.Numbers.{vector_at, lane_at};
ghost use Rattle.smith_binary_read.specs.Contents.{name_at};
ghost use Rattle.smith_binary_read.specs.DeclaredTypes.{IsDeclaredGroup};
ghost use Rattle.smith_binary_read.specs.TypeReadings.{ref_type_at, val_type_at, declared_group_at};
ghost use Rattle.smith_binary_read.specs.EntityReadings.{memory_type_at, extern_type_at};
ghost use Rattle.smith_binary_read.specs.EntityReadings.{export_at, IsExportItem};
ghost use Rattle.smith_binary_read.specs.ImportReadings.{import_group_at};
ghost use Rattle.smith_binary_read.specs.TagReadings.{IsTagDefinition, tag_at};

/// States that a number is read exactly where bytes begin with one, however long it is.
pub fn numbers_are_read()
    ensures unsigned { (bits : ℕ) → Decodes (IsUnsigned bits) (unsigned_at bits) }
    ensures signed { (bits : ℕ) → Decodes (IsSigned bits) (signed_at bits) }
    ensures floats { (count : ℕ) → Decodes (IsLittleEndian count) (little_endian_at count) }
    ensures vectors { Decodes IsVector vector_at }
    ensures lanes { Decodes IsByte lane_at }
{}

/// States that a name, a type, an import, an export and a tag are read exactly where bytes begin with one.
pub fn entities_are_read()
    ensures names { Decodes IsName name_at }
    ensures references { Decodes IsRefType ref_type_at }
    ensures values { Decodes IsValType val_type_at }
    ensures groups { Decodes IsDeclaredGroup declared_group_at }
    ensures memories { Decodes IsMemoryType memory_type_at }
    ensures entities { Decodes IsExternType extern_type_at }
    ensures imports { Decodes IsImportGroup import_group_at }
    ensures exports { Decodes IsExportItem export_at }
    ensures tags { Decodes IsTagDefinition tag_at }
{}
