ghost use Rattle.std.specs.Prelude.{◌≡◌, ℕ, true, List};
ghost use Rattle.std.specs.List.{list_any};
ghost use Rattle.smith_types.specs.Syntax.value_type.ValType.{ValType};
ghost use Rattle.smith_instr.specs.declared.instr.Instr.{Instr};
ghost use Rattle.smith_binary_sections.specs.Modules.{Contents, IsModule};
ghost use Rattle.smith_binary_read.specs.Decodes.{Decodes};
ghost use Rattle.smith_binary_read.specs.Views.{Viewed};
ghost use Rattle.smith_decode.specs.DataReadings as data_segments;
ghost use Rattle.smith_decode.specs.DefinitionReadings.{IsGlobalDefinition, IsTableDefinition};
ghost use Rattle.smith_decode.specs.DefinitionReadings.{global_at, table_at};
ghost use Rattle.smith_decode.specs.ElementReadings as elements;
ghost use Rattle.smith_decode.specs.Elements.{IsElem};
ghost use Rattle.smith_decode.specs.Constants.{StatesCount, with_bodies};
ghost use Rattle.smith_decode.specs.Modules.{AreBodiesOf, IsModuleBinary, Syntax, body_names_data};

/// States that a definition is read exactly where bytes begin with one.
pub fn definitions_are_read()
    ensures tables { Decodes IsTableDefinition table_at }
    ensures globals { Decodes IsGlobalDefinition global_at }
{}

/// States that a segment is read exactly where bytes begin with one, and that bytes spell an element
/// segment of the abstract syntax exactly if they spell a segment that is seen as it.
pub fn segments_are_read()
    ensures elements { Decodes elements.IsElementSegment elements.segment_at }
    ensures view { Viewed elements.element_view IsElem elements.IsElementSegment }
    ensures data_segments { Decodes data_segments.IsSegment data_segments.segment_at }
{}

/// States that bytes are at most one module.
pub fn modules_are_unambiguous()
    ensures { (m n : Syntax) (bytes : List ℕ) → IsModuleBinary m bytes → IsModuleBinary n bytes
        → m ≡ n }
{}

/// States that what the encoder writes is a module for the decoder, which has no custom sections, if the
/// bytes of each body are an expression, and the number of data segments is stated if a body names one.
pub fn encoded_modules_are_modules()
    ensures { (m : Contents) (bodies : List (List ValType × List Instr)) (bytes : List ℕ)
        → (h : IsModule m bytes) → AreBodiesOf bodies m.bodies
        → (list_any body_names_data bodies ≡ true → StatesCount h)
        → IsModuleBinary (with_bodies m bodies) bytes }
{}
