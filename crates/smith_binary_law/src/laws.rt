ghost use Rattle.std.specs.Prelude.{◌≡◌, ◌<◌, ◌^◌, ℕ, List, [], ◌++◌, All};
ghost use Rattle.smith_types.specs.Expressions.{Context};
ghost use Rattle.smith_types.specs.Segments.{IsElementSegmentValid, IsDataValid};
ghost use Rattle.smith_types.specs.Subtyping.{IsRefBelow};
ghost use Rattle.smith_types.specs.Syntax.code.Instructions.TheVariants.{Unreachable};
ghost use Rattle.smith_types.specs.Syntax.composite_type.SubType.{SubType};
ghost use Rattle.smith_types.specs.Syntax.entity_type.MemoryType.{MemoryType};
ghost use Rattle.smith_types.specs.Syntax.entity_type.TableType.{TableType};
ghost use Rattle.smith_types.specs.Syntax.segments.DataSegment.{DataSegment};
ghost use Rattle.smith_types.specs.Syntax.segments.ElementSegment.{ElementSegment};
ghost use Rattle.smith_types.specs.Syntax.value_type.ValType.{ValType};
ghost use Rattle.smith_instr.specs.Contexts.{BodyContext};
ghost use Rattle.smith_instr.specs.Sequences.{IsBodyTyped};
ghost use Rattle.smith_instr.specs.declared.instr.Instr.{Instr};
ghost use Rattle.smith_binary.specs.Unambiguous.{IsUnambiguous, Same};
ghost use Rattle.smith_binary_sections.specs.Codes.{body_bytes};
ghost use Rattle.smith_binary_sections.specs.Data.{data_of};
ghost use Rattle.smith_binary_sections.specs.Elements.{elem_of};
ghost use Rattle.smith_binary_sections.specs.Modules.{Contents, IsModule};
ghost use Rattle.smith_binary_instr.specs.Bodies.{IsFuncBody};
ghost use Rattle.smith_binary_instr.specs.Instructions.{IsExpr, IsInstr};
ghost use Rattle.smith_binary_instr.specs.Nesting.{AreNested};
ghost use Rattle.smith_binary_law.specs.Checks.{IsChecked};
ghost use Rattle.smith_binary_law.specs.Segments.{IsElemTyped, IsDataTyped, AreListedAsFuncref};

/// States that bytes spell at most one module in the abstract syntax. So a decoder that follows the
/// grammar reads back the module that was written, with nothing after it.
pub fn modules_are_unambiguous()
    ensures { (m n : Contents) (bytes : List ℕ) → IsModule m bytes → IsModule n bytes → m ≡ n }
{}

/// States that the bytes of a body that is not raw are the instructions that check its counters of
/// fuel, then `unreachable`.
pub fn bodies_are_checked()
    ensures { (counters : List ℕ) → All (λ (counter : ℕ). counter < 2 ^ 32) counters
        → IsChecked counters (body_bytes counters Unreachable) }
{}

/// States that a valid element segment is valid in the abstract syntax, if functions are listed
/// only for the type `funcref`. Its type in the abstract syntax matches its type in the module.
pub fn valid_elements_stay_valid()
    ensures typed { (context : Context) (tables : List TableType) (segment : ElementSegment)
        → IsElementSegmentValid context tables segment → AreListedAsFuncref segment.items segment.ty
        → IsElemTyped context tables (elem_of segment) }
    ensures below { (types : List SubType) (segment : ElementSegment)
        → AreListedAsFuncref segment.items segment.ty
        → IsRefBelow types (elem_of segment).ty segment.ty }
{}

/// States that a valid data segment is valid in the abstract syntax.
pub fn valid_data_segments_stay_valid()
    ensures { (context : Context) (memories : List MemoryType) (segment : DataSegment)
        → IsDataValid context memories segment → IsDataTyped context memories (data_of segment) }
{}

/// States that bytes begin with the spelling of at most one instruction, which ends in one place.
pub fn instructions_are_unambiguous()
    ensures { IsUnambiguous IsInstr }
{}

/// States that bytes spell an expression of at most one list of instructions.
pub fn expressions_are_unambiguous()
    ensures { (one other : List Instr) (bytes : List ℕ) → IsExpr one bytes → IsExpr other bytes
        → one ≡ other }
{}

/// States that bytes begin with an expression of at most one list of instructions whose blocks all
/// end, and that it ends in one place.
pub fn nested_expressions_are_unambiguous()
    ensures { (one other : List Instr) (piece more rest others : List ℕ) → AreNested [] one
        → AreNested [] other → IsExpr one piece → IsExpr other more → piece ++ rest ≡ more ++ others
        → Same one other rest others }
{}

/// States that bytes begin with at most one body, which ends in one place. So a decoder that
/// follows the grammar reads back the locals and the instructions that were written.
pub fn bodies_are_unambiguous()
    ensures { IsUnambiguous (λ (body : List ValType × List Instr). IsFuncBody body.0 body.1) }
{}

/// States that the blocks of a typed body all end, so that its expression is one of the standard.
pub fn typed_bodies_are_nested()
    ensures { (context : BodyContext) (body : List Instr) → IsBodyTyped context body
        → AreNested [] body }
{}
