// Which functions of a module `ref.func` may name.

ghost use Rattle.std.specs.Prelude.{◌≡◌, [], ◌∷◌, Some};
ghost use Rattle.smith_check_module.specs.ExampleSyntax.{nothing};
ghost use Rattle.smith_check.specs.References.{references_of};
ghost use Rattle.smith_check_examples.specs.ExampleSyntax.{copies, declares, exports, holds, in_a_body, in_each_section};
ghost use Rattle.smith_types.specs.Syntax.entity_type.ExportKind.TheVariants as kind;

fn exports()
    ensures function { references_of (exports kind.Func 2) ≡ 2 ∷ [] }
    ensures table { references_of (exports kind.Table 2) ≡ [] }
{}

fn definitions()
    ensures global { references_of (holds 3) ≡ 3 ∷ [] }
    ensures item { references_of (declares 4) ≡ 4 ∷ [] }
    ensures offset { references_of (copies 5) ≡ 5 ∷ [] }
    ensures order { references_of in_each_section ≡ 1 ∷ 2 ∷ 3 ∷ 4 ∷ 5 ∷ [] }
{}

fn functions()
    ensures started { references_of (record nothing { start = Some 0 }) ≡ [] }
    ensures body { references_of (in_a_body 0) ≡ [] }
{}
