ghost use Rattle.smith_instr.specs.Laws.{SequencesCompose, SequencesTakeValuesBelow};
ghost use Rattle.smith_instr.specs.Laws.{NamedDataNeedsBulkMemory};

/// States that two typed sequences in order are typed, from the stack before the first to the stack
/// after the second.
pub fn sequences_compose()
    ensures { SequencesCompose }
{}

/// States that a sequence that is typed from some values is also typed from values of subtypes.
pub fn sequences_take_values_below()
    ensures { SequencesTakeValuesBelow }
{}

/// States that bulk memory is enabled if an enabled instruction names a data segment.
pub fn named_data_needs_bulk_memory()
    ensures { NamedDataNeedsBulkMemory }
{}
