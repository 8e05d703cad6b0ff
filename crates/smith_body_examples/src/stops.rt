#![tactic(auto, unfolding(smith_instr::specs::Enabled::is_enabled, smith_body_nodes::specs::Scopes::is_permitted))]

ghost use Rattle.std.specs.Prelude.{[], ◌∷◌};
ghost use Rattle.smith_types.specs.Types.{IsOrderly};
ghost use Rattle.smith_types.specs.Syntax.value_type.AbstractHeapType.TheVariants as heap;
ghost use Rattle.smith_config.specs.Config.{default_config};
ghost use Rattle.smith_instr.specs.declared.instr.Instr.TheVariants as instr;
ghost use Rattle.smith_body.specs.Stops.{HasNeededStops};
ghost use Rattle.smith_body_examples.specs.ExampleAggregates.{some, some_of, unnamed};
ghost use Rattle.smith_body_examples.specs.ExampleBytes.{trapless};

fn orderly()
    ensures { IsOrderly unnamed.types }
{}

fn stops()
    ensures exception { HasNeededStops trapless (record unnamed { results = some_of heap.Exn ∷ [] }) (instr.Unreachable ∷ []) }
    ensures struct_of_default_values { ¬ HasNeededStops trapless (record unnamed { results = some 0 ∷ [] }) (instr.Unreachable ∷ []) }
    ensures i31 { ¬ HasNeededStops trapless (record unnamed { results = some_of heap.I31 ∷ [] }) (instr.Unreachable ∷ []) }
    ensures struct_where_traps_are_allowed { HasNeededStops default_config (record unnamed { results = some 0 ∷ [] }) (instr.Unreachable
        ∷ []) }
    ensures no_value { ¬ HasNeededStops trapless unnamed (instr.Unreachable ∷ []) }
{
    orderly();
}
