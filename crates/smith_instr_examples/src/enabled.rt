ghost use Rattle.std.specs.Prelude.{[], false, pos};
ghost use Rattle.smith_types.specs.Syntax.Instructions.{every_kind, no_kind};
ghost use Rattle.smith_types.specs.Syntax.instruction_kind.InstructionKind.TheVariants.{Numeric, NumericInt, Memory, MemoryInt};
ghost use Rattle.smith_types.specs.Syntax.instruction_kind.InstructionKind.TheVariants.{VectorInt, Control};
ghost use Rattle.smith_types.specs.Syntax.value_type.ValType.TheVariants.{I32};
ghost use Rattle.smith_types.specs.ExampleFeatures.{usual_features};
ghost use Rattle.smith_instr.specs.Enabled.{IsEnabled};
ghost use Rattle.smith_instr.specs.declared.aggregate.AggregateInstr.TheVariants as aggregate;
ghost use Rattle.smith_instr.specs.declared.control.BlockType.TheVariants as block;
ghost use Rattle.smith_instr.specs.declared.instr.Instr.TheVariants as instr;
ghost use Rattle.smith_instr.specs.declared.memory.Load.TheVariants as load;
ghost use Rattle.smith_instr.specs.declared.numeric.Conversion.TheVariants as convert;
ghost use Rattle.smith_instr.specs.declared.numeric.NumericInstr.TheVariants as numeric;
ghost use Rattle.smith_instr.specs.declared.numeric.SaturatingConversion.TheVariants as saturate;
ghost use Rattle.smith_instr.specs.declared.vector.LaneShape.TheVariants as shape;
ghost use Rattle.smith_instr.specs.declared.vector.VectorInstr.TheVariants as vector;
ghost use Rattle.smith_instr_examples.specs.ExampleBodies.{aligned, add, kinds_of};

#[tactic(auto, unfolding(smith_instr::specs::Enabled::is_enabled))]
fn kinds()
    ensures integers { IsEnabled usual_features (kinds_of NumericInt) add }
    ensures integers_among_floats { IsEnabled usual_features (kinds_of Numeric) add }
    ensures floats { IsEnabled usual_features (kinds_of Numeric) (instr.F32Const 0) }
    ensures floats_among_integers { ¬ IsEnabled usual_features (kinds_of NumericInt) (instr.F32Const 0) }
    ensures float_to_integer { ¬ IsEnabled usual_features (kinds_of NumericInt) (instr.Numeric (numeric.Convert convert.I32TruncF32S)) }
    ensures integer_to_integer { IsEnabled usual_features (kinds_of NumericInt) (instr.Numeric (numeric.Convert convert.I32WrapI64)) }
    ensures float_is_loaded { ¬ IsEnabled usual_features (kinds_of MemoryInt) (instr.Load load.F64 (aligned 0 3)) }
    ensures float_is_loaded_among_floats { IsEnabled usual_features (kinds_of Memory) (instr.Load load.F64 (aligned 0 3)) }
    ensures lanes_of_floats { ¬ IsEnabled usual_features (kinds_of VectorInt) (instr.Vector (vector.Splat shape.F32x4)) }
    ensures lanes_of_integers { IsEnabled usual_features (kinds_of VectorInt) (instr.Vector (vector.Splat shape.I8x16)) }
    ensures unreachable_without_any { IsEnabled usual_features no_kind instr.Unreachable }
    ensures nop_without_any { ¬ IsEnabled usual_features no_kind instr.Nop }
    ensures nop { IsEnabled usual_features (kinds_of Control) instr.Nop }
{}

#[tactic(auto, unfolding(smith_instr::specs::Enabled::is_enabled))]
fn features()
    ensures saturating { ¬ IsEnabled (record usual_features { saturating_float_to_int = false }) every_kind
        (instr.Numeric (numeric.Saturate saturate.I32TruncSatF32S)) }
    ensures trapping { IsEnabled (record usual_features { saturating_float_to_int = false }) every_kind
        (instr.Numeric (numeric.Convert convert.I32TruncF32S)) }
    ensures block_of_a_value { IsEnabled (record usual_features { multi_value = false }) every_kind (instr.Block (block.Value I32)) }
    ensures block_of_a_type { ¬ IsEnabled (record usual_features { multi_value = false }) every_kind (instr.Block (block.Func 0)) }
    ensures tail_call { ¬ IsEnabled (record usual_features { tail_call = false }) every_kind (instr.ReturnCall 0) }
    ensures call { IsEnabled (record usual_features { tail_call = false }) every_kind (instr.Call 0) }
    ensures vector { ¬ IsEnabled (record usual_features { simd = false }) every_kind (instr.V128Const (pos 0)) }
    ensures exception { ¬ IsEnabled (record usual_features { exceptions = false }) every_kind (instr.TryTable block.Empty []) }
    ensures array_of_data { ¬ IsEnabled (record usual_features { bulk_memory = false }) every_kind
        (instr.Aggregate (aggregate.ArrayNewData 0 0)) }
    ensures array_filled_from_data { ¬ IsEnabled (record usual_features { bulk_memory = false }) every_kind
        (instr.Aggregate (aggregate.ArrayInitData 0 0)) }
    ensures array_of_data_with_bulk_memory { IsEnabled usual_features every_kind (instr.Aggregate (aggregate.ArrayNewData 0 0)) }
    ensures array_of_elements { IsEnabled (record usual_features { bulk_memory = false }) every_kind
        (instr.Aggregate (aggregate.ArrayNewElem 0 0)) }
{}
