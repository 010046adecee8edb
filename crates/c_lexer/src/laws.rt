// Laws of cutting, which no single call shows. None of these functions does anything.
ghost use Rattle.std.specs.Prelude.{ℕ, ◌≡◌, ◌≢◌, IsTrue, List, [], ◌∷◌, Some};
ghost use Rattle.c_lexer.specs.declared.state.Kind.{Kind};
ghost use Rattle.c_lexer.specs.declared.state.Kind.TheVariants as kind;
ghost use Rattle.c_lexer.specs.Kinds.{kind_of};
ghost use Rattle.c_lexer.specs.First.{IsFirst};
ghost use Rattle.c_lexer.specs.Pieces.{TextPiece, text_of};
ghost use Rattle.c_lexer.specs.Lexes.{Cuts, Lexes};
ghost use Rattle.c_lexer.specs.Ids.{without_ids};
ghost use Rattle.c_lexer.specs.Parts.{RunTogether};
ghost use Rattle.c_lexer.specs.Beside.{is_plain};
ghost use Rattle.c_lexer.specs.Loose.{Loose, join_blanks};

/// Every text has pieces, whatever its bytes.
pub fn every_text_is_cut()
    ensures pieces { (bytes : List ℕ) → (pieces : List TextPiece) × Lexes bytes pieces }
{}

/// A text is cut in one way: pieces with the same bytes are equal except for ids, and equal if
/// their ids count from 0.
pub fn cut_once()
    ensures but_ids { (left right : List TextPiece) → Cuts left → Cuts right →
        text_of left ≡ text_of right → without_ids left ≡ without_ids right }
    ensures whole { (bytes : List ℕ) (left right : List TextPiece) → Lexes bytes left →
        Lexes bytes right → left ≡ right }
{}

/// The text of pieces that are put together is cut into these pieces again, adjacent blanks being
/// joined, if each piece was followed by the next in an old text, does not run together with it, is
/// followed by blanks that are a part of what followed it before, ends by itself, or is a blank.
pub fn loose_pieces_stay()
    ensures cuts { (pieces : List TextPiece) → Loose pieces → Cuts (join_blanks pieces) }
{}

/// A space separates a token that is not a Stray from whatever follows.
pub fn space_parts()
    ensures first { (text : List ℕ) (kind : Kind) (rest : List ℕ) → kind_of text ≡ Some kind →
        IsTrue (is_plain kind) → IsFirst kind text (32 ∷ rest) }
{}

/// Texts that do not run together stay apart.
pub fn parted_texts_stay()
    ensures first { (kind : Kind) (left right : List ℕ) → kind_of left ≡ Some kind →
        ¬ RunTogether left right → IsFirst kind left right }
{}

/// A dot is not the first piece of three dots.
pub fn dots_join()
    ensures no_first { (kind : Kind) (rest : List ℕ) → ¬ IsFirst kind (46 ∷ []) (46 ∷ 46 ∷ rest) }
{}

/// A comment that was followed by a byte other than a newline ends by itself: it stays a piece
/// whatever follows.
pub fn comment_ends()
    ensures first { (text : List ℕ) (byte : ℕ) (old : List ℕ) →
        IsFirst kind.Comment text (byte ∷ old) → byte ≢ 10 → (rest : List ℕ) →
        IsFirst kind.Comment text rest }
{}
