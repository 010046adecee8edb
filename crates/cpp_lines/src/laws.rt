// What holds of all texts but is not the contract of any single call. None of these functions does anything.
ghost use Rattle.std.specs.Prelude.{◌≡◌, ℕ, List, length};
ghost use Rattle.c_lexer.specs.Pieces.{TextPiece};
ghost use Rattle.cpp_lines.specs.declared.sign.Sign.{Sign};
ghost use Rattle.cpp_lines.specs.Shown.{AreShown};
ghost use Rattle.cpp_lines.specs.Items.{StandEndToEnd, items_of};

/// The pieces of a text show one list of tokens: the definition determines it.
pub fn shown_once()
    ensures { (pieces : List TextPiece) (left right : List ℕ) →
        AreShown pieces left → AreShown pieces right → left ≡ right }
{}

/// Each item has a token, each begins where the one before it ends, and together they cover all shown tokens.
pub fn items_stand_end_to_end()
    ensures { (tokens : List Sign) → StandEndToEnd 0 (items_of tokens) (length tokens) }
{}
