ghost use Rattle.std.specs.Prelude.{[], ◌∷◌, ◌≡◌, Some, None};
ghost use Rattle.smith_binary_read.specs.declared.error.Reason.TheVariants as reason;
ghost use Rattle.smith_judge.specs.declared.answer.Answer.TheVariants as answer;
ghost use Rattle.smith_wrong.specs.Changes.{IsChangeOf, family_of};
ghost use Rattle.smith_wrong.specs.ExampleChanges.{second_byte};
ghost use Rattle.smith_wrong.specs.Numbers.{family_numbered};
ghost use Rattle.smith_wrong.specs.Weights.{drawn_family};
ghost use Rattle.smith_wrong.specs.Wrong.{AreWithoutPreamble, NamesRule};
ghost use Rattle.smith_wrong.specs.declared.families.Family.TheVariants as family;
ghost use Rattle.smith_wrong_module.specs.declared.family.ModuleFamily.TheVariants as item;
ghost use Rattle.smith_wrong_bytes.specs.declared.family.BytesFamily.TheVariants as bytes;

fn changes()
    ensures replaced { IsChangeOf (second_byte 9) (5 ∷ 6 ∷ 7 ∷ []) (5 ∷ 9 ∷ 7 ∷ []) }
    ensures kept { IsChangeOf (second_byte 9) (5 ∷ 6 ∷ 7 ∷ []) (5 ∷ 6 ∷ 7 ∷ []) → ⊥ }
    ensures another { IsChangeOf (second_byte 9) (5 ∷ 6 ∷ 7 ∷ []) (4 ∷ 9 ∷ 7 ∷ []) → ⊥ }
    ensures family { family_of (second_byte 9) ≡ family.Bytes bytes.Preamble }
{}

#[tactic(auto, unfolding(crate::specs::Numbers::family_numbered))]
fn numbers()
    ensures first { family_numbered 1 ≡ Some (family.Module item.OperandType) }
    ensures of_bytes { family_numbered 36 ≡ Some (family.Bytes bytes.LongInteger) }
    ensures last { family_numbered 55 ≡ Some (family.Bytes bytes.DataCountMissing) }
    ensures before { family_numbered 0 ≡ None }
    ensures past { family_numbered 56 ≡ None }
{}

fn rules()
    ensures malformed { NamesRule (answer.Malformed 3 reason.UnexpectedEnd) }
    ensures valid { NamesRule answer.Valid → ⊥ }
    ensures feature_off { NamesRule (answer.FeatureOff 3) → ⊥ }
{}

fn weights()
    ensures first { drawn_family (family.Module item.Lane ∷ family.Bytes bytes.CutFile ∷ []) (7 ∷ [])
        ≡ Some (family.Module item.Lane) }
    ensures second { drawn_family (family.Module item.Lane ∷ family.Bytes bytes.CutFile ∷ []) (8 ∷ [])
        ≡ Some (family.Bytes bytes.CutFile) }
    ensures round { drawn_family (family.Module item.Lane ∷ family.Bytes bytes.CutFile ∷ []) (10 ∷ [])
        ≡ Some (family.Module item.Lane) }
    ensures none { drawn_family [] (4 ∷ []) ≡ None }
{}

fn preambles()
    ensures without { AreWithoutPreamble (family.Bytes bytes.LeftOverByte ∷ []) }
    ensures with_one { AreWithoutPreamble (family.Bytes bytes.LeftOverByte ∷ family.Bytes bytes.CutFile ∷ []) → ⊥ }
{}
