ghost use Rattle.std.specs.Prelude.{◌≡◌, [], ◌∷◌, codes, false, pos, None, Some};
ghost use Rattle.smith_types.specs.ExampleTypes.{func, giving};
ghost use Rattle.smith_types.specs.Flags.{funcref};
ghost use Rattle.smith_types.specs.Syntax.Instructions.{no_kind};
ghost use Rattle.smith_types.specs.Syntax.code.Instructions.TheVariants.{Unreachable};
ghost use Rattle.smith_types.specs.Syntax.const_instr.ConstInstr.TheVariants.{RefFunc};
ghost use Rattle.smith_types.specs.Syntax.composite_type.CompositeInnerType.TheVariants.{Func};
ghost use Rattle.smith_types.specs.Syntax.entity_type.ExportKind.TheVariants as kind;
ghost use Rattle.smith_types.specs.Syntax.segments.Elements.TheVariants as elements;
ghost use Rattle.smith_types.specs.Syntax.value_type.AbstractHeapType.TheVariants as heap;
ghost use Rattle.smith_types.specs.Syntax.value_type.HeapType.TheVariants.{Abstract};
ghost use Rattle.smith_types.specs.Syntax.value_type.ValType.TheVariants.{F32, I32, I64, Ref};
ghost use Rattle.smith_module_rules_examples.specs.ExampleParts.{active_data, passive_elements};
ghost use Rattle.smith_instr.specs.declared.instr.Instr.TheVariants as instr;
ghost use Rattle.smith_instr.specs.declared.reference.ReferenceInstr.TheVariants as reference;
ghost use Rattle.smith_instr_examples.specs.ExampleBodies.{some_func};
ghost use Rattle.smith_program.specs.Bodies.{function_context};
ghost use Rattle.smith_program.specs.DrawnBodies.{bodies_at};
ghost use Rattle.smith_program.specs.References.{references_of};
ghost use Rattle.smith_program.specs.declared.program.Body.TheVariants as body;
ghost use Rattle.smith_program_examples.specs.ExamplePrograms.{after_an_import, constant, constant_bytes, narrow_function, one_of};
ghost use Rattle.smith_program_examples.specs.ExamplePrograms.{one_unit, plain};

fn functions()
    ensures after_an_imported_one { bodies_at after_an_import (constant_bytes 5) ≡ (constant 5 ∷ [], []) }
    ensures of_the_imported_type { ¬ (bodies_at after_an_import (constant_bytes 5) ≡ (body.Drawn [] ∷ [], constant_bytes 5)) }
    ensures called_by_itself { bodies_at after_an_import (0 ∷ 8 ∷ []) ≡ (body.Drawn (instr.Call 1 ∷ []) ∷ [], []) }
    ensures that_is_exported { bodies_at (record (one_of (giving (Ref funcref ∷ []))) { exports = (codes "f", kind.Func, 0) ∷ [] }) (0 ∷ 0
        ∷ 3 ∷ []) ≡ (body.Drawn (instr.Reference (reference.Func 0) ∷ []) ∷ [], []) }
    ensures that_nothing_names { bodies_at (one_of (giving (Ref funcref ∷ []))) (0 ∷ 0 ∷ 3 ∷ [])
        ≡ (body.Drawn (instr.Reference (reference.Null (Abstract false heap.Func)) ∷ []) ∷ [], []) }
{}

fn references()
    ensures exported { references_of (record plain { exports = (codes "m", kind.Memory, 1) ∷ (codes "f", kind.Func, 0) ∷ [] }) ≡ 0 ∷ [] }
    ensures of_segments { references_of (record plain {
      elems = passive_elements (elements.Functions (2 ∷ [])) ∷ passive_elements
          (elements.Expressions ((RefFunc 1 ∷ []) ∷ [])) ∷ [];
    }) ≡ 2 ∷ 1 ∷ [] }
    ensures of_a_global { references_of (record plain { defined_globals = (3, RefFunc 0 ∷ []) ∷ [] }) ≡ 0 ∷ [] }
    ensures of_a_table { references_of (record plain { defined_tables = None ∷ Some (RefFunc 0 ∷ []) ∷ [] }) ≡ 0 ∷ [] }
    ensures not_started { references_of (record plain { start = Some 0 }) ≡ [] }
{}

fn locals()
    ensures after_the_parameters { bodies_at
        (record (one_of (Func (func I64 I32))) { code = record { locals = I32 ∷ []; instructions = Unreachable } ∷ [] }) (0 ∷ 0 ∷ 0 ∷ [])
        ≡ (body.Drawn (instr.LocalGet 1 ∷ []) ∷ [], []) }
    ensures without_the_parameters { ¬ (bodies_at
        (record (one_of (Func (func I64 I32))) { code = record { locals = I32 ∷ []; instructions = Unreachable } ∷ [] }) (0 ∷ 0 ∷ 0 ∷ [])
        ≡ (body.Drawn (instr.LocalGet 0 ∷ []) ∷ [], [])) }
    ensures parameter { bodies_at (one_of (Func (func I32 I32))) (0 ∷ 0 ∷ 0 ∷ []) ≡ (body.Drawn (instr.LocalGet 0 ∷ []) ∷ [], []) }
    ensures unset { bodies_at (record (one_of
        (giving (some_func ∷ []))) { code = record { locals = some_func ∷ []; instructions = Unreachable } ∷ [] }) (0 ∷ 0 ∷ 0 ∷ [])
        ≡ (body.Drawn (instr.Unreachable ∷ []) ∷ [], []) }
{}

fn parts()
    ensures functions { (function_context (record plain { funcs = 3 ∷ [] }) (func I64 I32) []).funcs ≡ 3 ∷ [] }
    ensures tags { (function_context (record plain { tags = 4 ∷ [] }) (func I64 I32) []).tags ≡ 4 ∷ [] }
    ensures imported { (function_context after_an_import (func I64 I32) []).imported_funcs ≡ 1 }
    ensures parameters { (function_context plain (func I64 I32) (F32 ∷ [])).params ≡ 1 }
    ensures locals { (function_context plain (func I64 I32) (F32 ∷ [])).locals ≡ I64 ∷ F32 ∷ [] }
    ensures results { (function_context plain (func I64 I32) (F32 ∷ [])).results ≡ I32 ∷ [] }
    ensures element_segments { (function_context (record plain { elems = passive_elements (elements.Functions []) ∷ [] })
        (func I64 I32) []).elems ≡ funcref ∷ [] }
    ensures data_segments { (function_context (record plain { datas = active_data (pos 0) [] ∷ [] }) (func I64 I32) []).datas ≡ 1 }
{}

fn configurations()
    ensures no_budget { bodies_at (record narrow_function { config = record one_unit { max_instructions = 0 } }) (constant_bytes 5)
        ≡ (body.Drawn (instr.Unreachable ∷ []) ∷ [], constant_bytes 5) }
    ensures no_instructions { bodies_at (record narrow_function { config = record one_unit { allowed_instructions = no_kind } })
        (constant_bytes 5) ≡ (body.Drawn (instr.Unreachable ∷ []) ∷ [], []) }
{}
