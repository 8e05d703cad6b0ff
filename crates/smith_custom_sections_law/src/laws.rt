ghost use Rattle.std.specs.Prelude.{◌≡◌, ℕ, List};
ghost use Rattle.smith_binary.specs.Spelling.Spelling.{any};
ghost use Rattle.smith_custom_sections.specs.declared.custom_section.CustomSection.{CustomSection};
ghost use Rattle.smith_custom_sections.specs.CustomSections.{IsWithCustomsIn};
ghost use Rattle.smith_custom_sections.specs.WithoutCustoms.{IsWithoutCustoms};
ghost use Rattle.smith_decode.specs.Modules.{IsModuleBinary, Syntax};
ghost use Rattle.smith_custom_sections_law.specs.SameModules.{IsApartFromCustoms};

/// States that putting custom sections among the sections of a file leaves it a file of the same
/// module, apart from the custom sections of the module.
pub fn custom_sections_keep_modules()
    ensures { (m : Syntax) (customs : List CustomSection) (file bytes : List ℕ)
        → IsModuleBinary m file → IsWithCustomsIn any customs file bytes
        → IsApartFromCustoms m bytes }
{}

/// States that leaving out the custom sections of bytes gives at most one file.
pub fn files_without_customs_are_unambiguous()
    ensures { (bytes file other : List ℕ) → IsWithoutCustoms bytes file
        → IsWithoutCustoms bytes other → file ≡ other }
{}
