// What holds of the places of all texts but is not the contract of any single call. None of these functions does anything.
ghost use Rattle.std.specs.Prelude.{◌≡◌, ◌<◌, List, ℕ, Some, length, slice_get};
ghost use Rattle.c_terms.specs.declared.token.TokenKind.{TokenKind as WordKind};
ghost use Rattle.c_lexer.specs.declared.piece.PieceKind.TheVariants as piece;
ghost use Rattle.c_lexer.specs.Pieces.{TextPiece};
ghost use Rattle.c_lexer.specs.Lexes.{Lexes};
ghost use Rattle.c_places.specs.declared.places.TextPlaces.{TextPlaces as Starts};
ghost use Rattle.c_places.specs.Starts.{ArePlaces, piece_start};

use c_lexer::cut_once;

/// The tokens of a text begin at only one list of places. Does nothing.
pub fn places_are_one()
    ensures { (text : List ℕ) (one other : Starts) → ArePlaces text one → ArePlaces text other → one ≡ other }
{
    cut_once();
}

/// Each token of a text has its place under its id, and begins within the text. Does nothing.
pub fn tokens_are_placed()
    ensures ids { (text : List ℕ) (pieces : List TextPiece) (places : Starts) (i id : ℕ) (kind : WordKind) (bytes : List ℕ) →
        Lexes text pieces → ArePlaces text places →
        slice_get pieces i ≡ Some (record { kind = piece.Word kind id; text = bytes }) →
        slice_get places.tokens id ≡ Some (piece_start pieces i) }
    ensures within { (text : List ℕ) (places : Starts) (id at : ℕ) → ArePlaces text places →
        slice_get places.tokens id ≡ Some at → at < length text }
{
    cut_once();
}
