// The name of each kind of instructions.

ghost use Rattle.std.specs.Prelude.{◌≡◌, codes};
ghost use Rattle.smith_types.specs.Syntax.instruction_kind.InstructionKind.TheVariants.{NumericInt, Numeric, VectorInt, Vector};
ghost use Rattle.smith_types.specs.Syntax.instruction_kind.InstructionKind.TheVariants.{Reference, Parametric, Variable, Table};
ghost use Rattle.smith_types.specs.Syntax.instruction_kind.InstructionKind.TheVariants.{MemoryInt, Memory, Control, Aggregate};
ghost use Rattle.smith_types.specs.Syntax.Instructions.{IsNamed};

fn kind_names()
    ensures whole_numbers { IsNamed (codes "numeric_non_float") NumericInt }
    ensures numbers { IsNamed (codes "numeric") Numeric }
    ensures whole_vectors { IsNamed (codes "vector_non_float") VectorInt }
    ensures vectors { IsNamed (codes "vector") Vector }
    ensures references { IsNamed (codes "reference") Reference }
    ensures parametric { IsNamed (codes "parametric") Parametric }
    ensures variables { IsNamed (codes "variable") Variable }
    ensures tables { IsNamed (codes "table") Table }
    ensures whole_memories { IsNamed (codes "memory_non_float") MemoryInt }
    ensures memories { IsNamed (codes "memory") Memory }
    ensures control { IsNamed (codes "control") Control }
    ensures aggregates { IsNamed (codes "aggregate") Aggregate }
    ensures in_letters_of_either_case { IsNamed (codes "Memory_Non_FLOAT") MemoryInt }
    ensures of_another { ¬ IsNamed (codes "numeric") NumericInt }
    ensures its_variant { ¬ IsNamed (codes "vectorint") VectorInt }
{}
