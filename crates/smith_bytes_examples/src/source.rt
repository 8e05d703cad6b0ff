ghost use Rattle.std.specs.Prelude.{[], ◌∷◌};
ghost use Rattle.smith_bytes.specs.Source.{IsPiece, KeepsPieces};

fn pieces()
    ensures front { IsPiece (1 ∷ 2 ∷ 3 ∷ []) (1 ∷ 2 ∷ []) }
    ensures middle { IsPiece (1 ∷ 2 ∷ 3 ∷ []) (2 ∷ []) }
    ensures end { IsPiece (1 ∷ 2 ∷ 3 ∷ []) (2 ∷ 3 ∷ []) }
    ensures whole { IsPiece (1 ∷ 2 ∷ []) (1 ∷ 2 ∷ []) }
    ensures nothing { IsPiece (1 ∷ []) [] }
    ensures nothing_of_nothing { IsPiece [] [] }
    ensures not_contiguous { ¬ IsPiece (1 ∷ 2 ∷ 3 ∷ []) (1 ∷ 3 ∷ []) }
    ensures out_of_order { ¬ IsPiece (1 ∷ 2 ∷ []) (2 ∷ 1 ∷ []) }
    ensures another_byte { ¬ IsPiece (1 ∷ 2 ∷ []) (3 ∷ []) }
    ensures longer { ¬ IsPiece (1 ∷ []) (1 ∷ 1 ∷ []) }
    ensures of_nothing { ¬ IsPiece [] (0 ∷ []) }
{}

fn kept_pieces()
    ensures itself { KeepsPieces (1 ∷ 2 ∷ []) (1 ∷ 2 ∷ []) }
    ensures taken_from_the_front { KeepsPieces (1 ∷ 2 ∷ 3 ∷ []) (2 ∷ 3 ∷ []) }
    ensures taken_from_the_end { KeepsPieces (1 ∷ 2 ∷ 3 ∷ []) (1 ∷ 2 ∷ []) }
    ensures taken_from_the_middle { ¬ KeepsPieces (1 ∷ 2 ∷ 3 ∷ []) (1 ∷ 3 ∷ []) }
    ensures turned_round { ¬ KeepsPieces (1 ∷ 2 ∷ []) (2 ∷ 1 ∷ []) }
    ensures given_back { ¬ KeepsPieces (2 ∷ []) (1 ∷ 2 ∷ []) }
{}
