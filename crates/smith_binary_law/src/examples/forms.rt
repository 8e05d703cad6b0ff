ghost use Rattle.std.specs.Prelude.{[], ◌∷◌, None, Some};
ghost use Rattle.smith_types.specs.ExampleEntities.{table};
ghost use Rattle.smith_types.specs.ExampleTypes.{nullable, plain};
ghost use Rattle.smith_types.specs.Flags.{funcref};
ghost use Rattle.smith_types.specs.Syntax.segments.DataSegmentKind.TheVariants as data_kind;
ghost use Rattle.smith_types.specs.Syntax.segments.ElementKind.TheVariants.{Passive, Declared};
ghost use Rattle.smith_types.specs.Syntax.segments.ElementKind.TheVariants.{Active};
ghost use Rattle.smith_types.specs.Syntax.segments.Elements.TheVariants.{Expressions};
ghost use Rattle.smith_types.specs.Syntax.value_type.AbstractHeapType.TheVariants as heap;
ghost use Rattle.smith_binary_sections.specs.Data.{IsDataWritten, IsData, data_of};
ghost use Rattle.smith_binary_sections.specs.Definitions.{IsTableWritten, IsTable, initialised_table};
ghost use Rattle.smith_binary_sections.specs.Elements.{IsElemWritten, IsElem, elem_of};
ghost use Rattle.smith_binary_law.specs.ExampleSegments.{a_byte, a_function};
ghost use Rattle.smith_binary_law.specs.ExampleSegments.{no_function, start};

// The forms in which tables and segments are written.
fn tables()
    ensures without_an_initialiser { IsTableWritten (table funcref 1 None, None)
        (0x70 ∷ 0x00 ∷ 0x01 ∷ []) }
    ensures with_an_initialiser { IsTableWritten (table funcref 1 None, Some no_function)
        (0x40 ∷ 0x00 ∷ 0x70 ∷ 0x00 ∷ 0x01 ∷ 0xD0 ∷ 0x70 ∷ 0x0B ∷ []) }
    ensures null_in_the_grammar { IsTable (initialised_table (table funcref 1 None, None))
        (0x40 ∷ 0x00 ∷ 0x70 ∷ 0x00 ∷ 0x01 ∷ 0xD0 ∷ 0x70 ∷ 0x0B ∷ []) }
    ensures null_as_written { ¬ IsTableWritten (table funcref 1 None, None)
        (0x40 ∷ 0x00 ∷ 0x70 ∷ 0x00 ∷ 0x01 ∷ 0xD0 ∷ 0x70 ∷ 0x0B ∷ []) }
{}

fn lists_of_functions()
    ensures first_table { IsElemWritten (a_function (Active None start))
        (0x00 ∷ 0x41 ∷ 0x00 ∷ 0x0B ∷ 0x01 ∷ 0x00 ∷ []) }
    ensures first_table_by_its_index { IsElemWritten (a_function (Active (Some 0) start))
        (0x00 ∷ 0x41 ∷ 0x00 ∷ 0x0B ∷ 0x01 ∷ 0x00 ∷ []) }
    ensures second_table { IsElemWritten (a_function (Active (Some 1) start))
        (0x02 ∷ 0x01 ∷ 0x41 ∷ 0x00 ∷ 0x0B ∷ 0x00 ∷ 0x01 ∷ 0x00 ∷ []) }
    ensures passive { IsElemWritten (a_function Passive) (0x01 ∷ 0x00 ∷ 0x01 ∷ 0x00 ∷ []) }
    ensures declared { IsElemWritten (a_function Declared) (0x03 ∷ 0x00 ∷ 0x01 ∷ 0x00 ∷ []) }
    ensures index_in_the_grammar { IsElem (elem_of (a_function (Active (Some 0) start)))
        (0x02 ∷ 0x00 ∷ 0x41 ∷ 0x00 ∷ 0x0B ∷ 0x00 ∷ 0x01 ∷ 0x00 ∷ []) }
    ensures index_as_written { ¬ IsElemWritten (a_function (Active (Some 0) start))
        (0x02 ∷ 0x00 ∷ 0x41 ∷ 0x00 ∷ 0x0B ∷ 0x00 ∷ 0x01 ∷ 0x00 ∷ []) }
    ensures as_expressions { ¬ IsElemWritten (a_function (Active None start))
        (0x04 ∷ 0x41 ∷ 0x00 ∷ 0x0B ∷ 0x01 ∷ 0xD2 ∷ 0x00 ∷ 0x0B ∷ []) }
{}

fn lists_of_expressions()
    ensures first_table { IsElemWritten
        (record { kind = Active None start; ty = funcref; items = Expressions (no_function ∷ []) })
        (0x04 ∷ 0x41 ∷ 0x00 ∷ 0x0B ∷ 0x01 ∷ 0xD0 ∷ 0x70 ∷ 0x0B ∷ []) }
    ensures of_another_type { IsElemWritten (record {
      kind = Active None start;
      ty = nullable (plain heap.Extern);
      items = Expressions [];
    }) (0x06 ∷ 0x00 ∷ 0x41 ∷ 0x00 ∷ 0x0B ∷ 0x6F ∷ 0x00 ∷ []) }
    ensures without_their_type { ¬ IsElemWritten (record {
      kind = Active None start;
      ty = nullable (plain heap.Extern);
      items = Expressions [];
    }) (0x04 ∷ 0x41 ∷ 0x00 ∷ 0x0B ∷ 0x00 ∷ []) }
{}

fn data_segments()
    ensures first_memory { IsDataWritten (a_byte (data_kind.Active 0 start))
        (0x00 ∷ 0x41 ∷ 0x00 ∷ 0x0B ∷ 0x01 ∷ 0x2A ∷ []) }
    ensures second_memory { IsDataWritten (a_byte (data_kind.Active 1 start))
        (0x02 ∷ 0x01 ∷ 0x41 ∷ 0x00 ∷ 0x0B ∷ 0x01 ∷ 0x2A ∷ []) }
    ensures passive { IsDataWritten (a_byte data_kind.Passive) (0x01 ∷ 0x01 ∷ 0x2A ∷ []) }
    ensures index_in_the_grammar { IsData (data_of (a_byte (data_kind.Active 0 start)))
        (0x02 ∷ 0x00 ∷ 0x41 ∷ 0x00 ∷ 0x0B ∷ 0x01 ∷ 0x2A ∷ []) }
    ensures index_as_written { ¬ IsDataWritten (a_byte (data_kind.Active 0 start))
        (0x02 ∷ 0x00 ∷ 0x41 ∷ 0x00 ∷ 0x0B ∷ 0x01 ∷ 0x2A ∷ []) }
{}
