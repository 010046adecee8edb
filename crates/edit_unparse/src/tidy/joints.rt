// Which tokens are joined to the one before them.
ghost use Rattle.std.specs.Prelude.{◌≡◌, ◌≤◌, ◌++◌, List, length, IfOk, OnOk};
ghost use Rattle.c_lexer.specs.Pieces.{most_bytes};
ghost use Rattle.edit_marks.specs.declared.edit_conflict.edit.Edit.{Edit};
ghost use Rattle.edit_unparse.specs.declared.tidy.flags.Extent.{Extent};
ghost use Rattle.edit_unparse.specs.Tidy.Places.{is_plain, joints, plain_after};
ghost use Rattle.edit_unparse.specs.Tidy.Text.{token_piece, token_pieces};
ghost use Rattle.edit_unparse.specs.Tidy.Flags.{IsOwners, joint_with};

use crate::tidy::flags::Owners;
use c_lexer::{Lexed, PieceKind};
use c_terms::NoMemory;
use std::alloc::Global;

/// Returns the number of the piece of each token.
pub fn token_pieces(alloc: Global, lexed: &Lexed) -> Result<Vec<u32>, NoMemory>
    ensures pieces { IfOk result (λ pieces. pieces.items ≡ token_pieces 0 lexed.now) }
    ensures few { IfOk result (λ pieces. length pieces.items ≤ most_bytes) }
{
    let mut pieces = Vec::new(alloc);
    for i in 0..lexed.count() {
        put_token_piece(&mut pieces, lexed.piece(i).kind, i as u32)?;
    }
    Ok(pieces)
}

/// Adds the number of a piece, if it is a token.
fn put_token_piece(pieces: &mut Vec<u32>, kind: PieceKind, number: u32) -> Result<(), NoMemory>
    ensures { OnOk result (pieces.new.items ≡ pieces.old.items ++ token_piece kind number) }
{
    if let PieceKind::Word(_, _) = kind {
        pieces.push(number)?;
    }
    Ok(())
}

/// For each token whether it is joined to the one before it: nothing but blanks without a backslash stands between them, and
/// one edit removes both.
pub fn joints(alloc: Global, lexed: &Lexed, owners: &Owners) -> Result<Vec<bool>, NoMemory>
    ensures len { IfOk result (λ joined. length joined.items ≡ length (token_pieces 0 lexed.now)) }
    ensures joints { (edits : List Edit) (gone : List Extent) →
        IsOwners (length (token_pieces 0 lexed.now)) edits gone owners.now →
        IfOk result (λ joined. joined.items ≡ joints edits gone lexed.now) }
{
    let bytes = lexed.bytes();
    let mut joined = Vec::new(alloc);
    let mut is_plain = true;
    for i in 0..lexed.count() {
        let piece = lexed.piece(i);
        let text = &bytes[piece.start as usize..piece.end as usize];
        put_joint(&mut joined, owners, piece.kind, is_plain)?;
        is_plain = plain_after(piece.kind, is_plain, text);
    }
    Ok(joined)
}

/// Adds whether a piece is joined to the token before it, if it is a token. `is_plain` says whether only blanks without a
/// backslash stand between them.
fn put_joint(
    joined: &mut Vec<bool>,
    owners: &Owners,
    kind: PieceKind,
    is_plain: bool,
) -> Result<(), NoMemory>
    ensures { OnOk result (joined.new.items ≡ joined.old.items
        ++ joint_with owners.now kind is_plain (length joined.old.items)) }
{
    if let PieceKind::Word(_, _) = kind {
        let is_joined = is_plain && owners.are_one(joined.len());
        joined.push(is_joined)?;
    }
    Ok(())
}

/// Whether only blanks without a backslash stand between the last token and what comes after a piece.
fn plain_after(kind: PieceKind, is_plain: bool, text: &[u8]) -> bool
    ensures { result ≡ plain_after kind is_plain text.now }
{
    match kind {
        PieceKind::Word(_, _) => true,
        PieceKind::Blank => is_plain && is_plain_blank(kind, text),
        PieceKind::Comment => false,
        PieceKind::Line => false,
    }
}

/// Whether a piece is a blank without a backslash.
pub fn is_plain_blank(kind: PieceKind, text: &[u8]) -> bool
    ensures { result ≡ is_plain kind text.now }
{
    match kind {
        PieceKind::Blank => !text.contains(&b'\\'),
        _ => false,
    }
}
