// Copies runs of pieces that no edit touches, each run at once.
ghost use Rattle.std.specs.Prelude.{◌≡◌, ◌≤◌, ◌<◌, ◌+◌, ◌-◌, ◌++◌, [], List, length, take, drop, slice_get, OnOk, IfOk, IfErr, IsErrOf, Some};
ghost use Rattle.c_lexer.specs.Pieces.{text_of, TextPiece, most_bytes};
ghost use Rattle.c_lexer.specs.Lexes.{id_after};
ghost use Rattle.c_lexer.specs.Ids.{ids_of, id_before};
ghost use Rattle.edit_marks.specs.declared.edit_conflict.edit.Edit.{Edit};
ghost use Rattle.edit_unparse.specs.declared.fault.OutFault.TheVariants.{NoMemory};
ghost use Rattle.edit_unparse.specs.Output.{gap, left_of, old_part, placed};
ghost use Rattle.edit_unparse.specs.Written.{Writes, Overflows, left};
ghost use Rattle.edit_unparse.specs.Runs.{run_of, old_parts, is_stop, Untouched, IsRun, SameButIds};

use crate::draft::{Draft, Last, Place};
use crate::fault::OutFault;
use crate::put::is_word;
use c_lexer::{Lexed, MOST_BYTES, PieceKind};

/// Adds the pieces from a place up to token number `stop`, or to the end, and returns the place reached.
pub fn put_run(draft: &mut Draft, lexed: &Lexed, from: Place, stop: u32) -> Result<Place, OutFault>
    requires within { from.piece ≤ length lexed.now }
    requires few { from.token ≤ from.piece }
    requires ahead { from.token ≤ stop }
    ensures run { IfOk result (IsRun lexed.now from stop) }
    ensures ok { IfOk result (λ to. Writes draft.old draft.new
        (old_parts from.piece (run_of lexed.now from.piece to.piece))) }
    ensures too_long { IsErrOf result OutFault.TooLong → (edits : List Edit) →
        Untouched edits from.token stop →
        Overflows draft.old (placed edits from.token from.piece (drop from.piece lexed.now)) }
{
    let to = put_ids(draft, lexed, from, stop)?;
    if to.piece == from.piece {
        return Ok(to);
    }
    put_texts(draft, lexed, from.piece, to.piece)?;
    Ok(to)
}

/// Adds only the ids of the pieces up to token number `stop`.
fn put_ids(draft: &mut Draft, lexed: &Lexed, from: Place, stop: u32) -> Result<Place, OutFault>
    requires within { from.piece ≤ length lexed.now }
    requires few { from.token ≤ from.piece }
    requires ahead { from.token ≤ stop }
    ensures run { IfOk result (IsRun lexed.now from stop) }
    ensures small { IfOk result (λ to. to.piece ≤ most_bytes) }
    ensures ids { IfOk result (λ to. draft.new.ids.items
        ≡ draft.old.ids.items ++ ids_of (run_of lexed.now from.piece to.piece)) }
    ensures same { OnOk result (SameButIds draft.old draft.new) }
    ensures err { IfErr result (λ fault. fault ≡ NoMemory) }
{
    let mut piece = from.piece;
    let mut token = from.token;
    let count = lexed.count();
    while piece < count {
        let here = lexed.piece(piece);
        let stops = is_stop(here.kind, token, stop);
        if stops {
            return Ok(Place { piece, token });
        }
        token = put_id(draft, here.kind, token)?;
        piece += 1;
    }
    Ok(Place { piece, token })
}

/// Adds the id of a piece, if it is a token, and returns the number of the next token.
fn put_id(draft: &mut Draft, kind: PieceKind, token: u32) -> Result<u32, OutFault>
    requires { token ≤ most_bytes }
    ensures next { IfOk result (λ next. next ≡ id_after kind token) }
    ensures ids { OnOk result (draft.new.ids.items ≡ draft.old.ids.items ++ id_before kind []) }
    ensures same { OnOk result (SameButIds draft.old draft.new) }
    ensures err { IfErr result (λ fault. fault ≡ NoMemory) }
{
    if let PieceKind::Word(_, id) = kind {
        draft.ids.push(id)?;
        return Ok(token + 1);
    }
    Ok(token)
}

/// Whether the piece is the token at which to stop.
fn is_stop(kind: PieceKind, token: u32, stop: u32) -> bool
    ensures { result ≡ is_stop kind token stop }
{
    match kind {
        PieceKind::Word(_, _) => token == stop,
        PieceKind::Blank => false,
        PieceKind::Comment => false,
        PieceKind::Line => false,
    }
}

/// Adds only the texts of the pieces from one number up to another, preceded by a space if the first of them must be
/// separated from what is there.
fn put_texts(draft: &mut Draft, lexed: &Lexed, from: usize, to: usize) -> Result<(), OutFault>
    requires some { from < to }
    requires within { to ≤ length lexed.now }
    requires small { to ≤ most_bytes }
    ensures bytes { (p : TextPiece) → slice_get lexed.now from ≡ Some p →
        OnOk result (draft.new.bytes.items ≡ draft.old.bytes.items
        ++ (text_of (gap (left draft.old) (Some from) p.text) ++ text_of (run_of lexed.now from to))) }
    ensures last { (p : TextPiece) → slice_get lexed.now (to - 1) ≡ Some p →
        OnOk result (left draft.new ≡ Some (left_of (old_part (to - 1) p))) }
    ensures others { OnOk result ((draft.new.ids.items ≡ draft.old.ids.items)
        × (draft.new.next ≡ draft.old.next)) }
    ensures too_long { (p : TextPiece) → slice_get lexed.now from ≡ Some p →
        IsErrOf result OutFault.TooLong → most_bytes < length (draft.old.bytes.items
        ++ (text_of (gap (left draft.old) (Some from) p.text) ++ text_of (run_of lexed.now from to))) }
{
    let bytes = lexed.bytes();
    let first = lexed.piece(from);
    let last = lexed.piece(to - 1);
    let text = part(bytes, first.start, last.end);
    let first_text = part(bytes, first.start, first.end);
    let spaces = draft.spaces(Some(from as u32), first_text);
    let used = draft.len();
    if text.len() + spaces > MOST_BYTES - used {
        return Err(OutFault::TooLong);
    }
    draft.bytes.extend_from_slice(&b" "[..spaces])?;
    let before = draft.len();
    draft.bytes.extend_from_slice(text)?;
    draft.start = before + (last.start - first.start) as usize;
    draft.last = Some(Last {
        from: Some((to - 1) as u32),
        is_word: is_word(last.kind),
    });
    Ok(())
}

/// Returns the bytes from one offset up to another.
fn part(bytes: &[u8], start: u32, end: u32) -> &[u8]
    requires rise { start ≤ end }
    requires within { end ≤ length bytes.now }
    ensures { result.now ≡ take (end - start) (drop start bytes.now) }
{
    &bytes[start as usize..end as usize]
}
