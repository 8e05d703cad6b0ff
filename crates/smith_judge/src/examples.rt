// Where faults are, and which rules they break.

ghost use Rattle.std.specs.Prelude.{◌≡◌, [], pos};
ghost use Rattle.smith_types.specs.Syntax.Features.{every_feature};
ghost use Rattle.smith_types.specs.Syntax.entity_type.ExportKind.TheVariants as kind;
ghost use Rattle.smith_instr.specs.declared.instr.Instr.TheVariants as instr;
ghost use Rattle.smith_check_module.specs.declared.faults.Part.TheVariants as part;
ghost use Rattle.smith_check.specs.declared.judgement.Fault.TheVariants as fault;
ghost use Rattle.smith_judge.specs.ExampleImports.{function_and_globals};
ghost use Rattle.smith_judge.specs.Files.{IsValidFile};
ghost use Rattle.smith_judge.specs.Places.{IsOrigin, fault_index};
ghost use Rattle.smith_judge.specs.Rules.{instr_rule};
ghost use Rattle.smith_judge.specs.declared.origins.Origin.TheVariants as origin;
ghost use Rattle.smith_judge.specs.declared.rules.Rule.TheVariants as rule;

fn indices()
    ensures body { fault_index function_and_globals (fault.Body 0 3) ≡ 1 }
    ensures initialiser { fault_index function_and_globals
        (fault.Section (record { part = part.GlobalInitials; index = 1 })) ≡ 3 }
    ensures export { fault_index function_and_globals
        (fault.Section (record { part = part.Exports; index = 1 })) ≡ 1 }
{}

fn origins()
    ensures in_a_group { IsOrigin function_and_globals kind.Global 1 (origin.Imported 1) }
    ensures not_before { ¬ IsOrigin function_and_globals kind.Global 1 (origin.Imported 0) }
    ensures defined { IsOrigin function_and_globals kind.Global 2 (origin.Defined 0) }
{}

fn rules()
    ensures constant { instr_rule (instr.I32Const (pos 1)) ≡ rule.NumericInstruction }
    ensures end { instr_rule instr.End ≡ rule.End }
    ensures branch { instr_rule (instr.Br 0) ≡ rule.ControlInstruction }
{}

fn files()
    ensures empty { ¬ IsValidFile every_feature [] }
{}
