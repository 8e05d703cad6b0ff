ghost use Rattle.smith_config.specs.Laws.{ShapesAreValidOrFaulty};

/// States that a shape is valid exactly if it has no fault.
pub fn shapes_are_valid_or_faulty()
    ensures { ShapesAreValidOrFaulty }
{}
