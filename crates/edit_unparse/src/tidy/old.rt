// The pieces of the old text.
ghost use Rattle.std.specs.Prelude.{◌≡◌};
ghost use Rattle.edit_unparse.specs.Tidy.Made.{piece_or};

use c_lexer::{Lexed, PieceKind};

/// Returns the kind and the text of the piece with this number, or an empty blank.
pub fn old_piece(lexed: &Lexed, number: u32) -> (PieceKind, &[u8])
    ensures kind { result.0 ≡ (piece_or lexed.now number).kind }
    ensures text { result.1.now ≡ (piece_or lexed.now number).text }
{
    let i = number as usize;
    if i >= lexed.count() {
        return (PieceKind::Blank, &[]);
    }
    let piece = lexed.piece(i);
    let bytes = lexed.bytes();
    (piece.kind, &bytes[piece.start as usize..piece.end as usize])
}
