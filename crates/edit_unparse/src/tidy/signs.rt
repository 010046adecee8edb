// What the parts of the new text are for lists.
ghost use Rattle.std.specs.Prelude.{◌≡◌, length, map, IfOk};
ghost use Rattle.c_lexer.specs.Spans.{kind_with_id};
ghost use Rattle.edit_unparse.specs.Tidy.Commas.{sign_for, sign_of};
ghost use Rattle.edit_unparse.specs.Tidy.Made.{part_in, parts_in};

use crate::tidy::joints::is_plain_blank;
use crate::tidy::old::old_piece;
use crate::tidy::parts::TextPart;
use c_lexer::{Kind, Lexed, PieceKind};
use c_terms::NoMemory;
use std::alloc::Global;
use tidy_flags::Sign;

/// Returns what each part is for lists.
pub fn signs_of(alloc: Global, lexed: &Lexed, parts: &[TextPart]) -> Result<Vec<Sign>, NoMemory>
    ensures signs { IfOk result (λ signs. signs.items ≡ map sign_of (parts_in lexed.now parts.now)) }
    ensures len { IfOk result (λ signs. length signs.items ≡ length parts.now) }
{
    let mut signs = Vec::with_capacity(alloc, parts.len())?;
    for part in parts {
        signs.push(sign_at(lexed, part))?;
    }
    Ok(signs)
}

/// Returns what a part is for lists.
fn sign_at(lexed: &Lexed, part: &TextPart) -> Sign
    ensures { result ≡ sign_of (part_in lexed.now part.now) }
{
    match part {
        TextPart::Old(number) => {
            let (kind, text) = old_piece(lexed, *number);
            sign_for(kind, text)
        }
        TextPart::Cut(_, text) => sign_for(PieceKind::Blank, text),
        TextPart::New(piece) => new_sign(piece.kind, piece.text.as_bytes()),
    }
}

/// Returns what a piece of this kind is for lists.
fn sign_for(kind: PieceKind, text: &[u8]) -> Sign
    ensures { result ≡ sign_for kind text.now }
{
    match kind {
        PieceKind::Word(_, _) => Sign::of_word(text),
        PieceKind::Blank => {
            if is_plain_blank(kind, text) {
                Sign::Blank
            } else {
                Sign::Splice
            }
        }
        PieceKind::Comment => Sign::Solid,
        PieceKind::Line => Sign::Solid,
    }
}

/// Returns what a new piece is for lists.
fn new_sign(kind: Kind, text: &[u8]) -> Sign
    ensures { result ≡ sign_for (kind_with_id kind 0) text.now }
{
    match kind {
        Kind::Blank => sign_for(PieceKind::Blank, text),
        Kind::Comment => Sign::Solid,
        Kind::Line => Sign::Solid,
        _ => Sign::of_word(text),
    }
}
