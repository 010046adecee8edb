// The bytes of the lines, by which it is known which lines are emptied.
ghost use Rattle.std.specs.Prelude.{◌≡◌, ◌<◌, ◌^◌, ◌++◌, [], false, get_or, IfOk, OnOk, if◌then◌else◌};
ghost use Rattle.c_lexer.specs.Lexes.{id_after};
ghost use Rattle.tidy_flags.specs.Lines.{blank_bytes, removed_bytes, solid_bytes};
ghost use Rattle.edit_unparse.specs.Tidy.Text.{bytes_at, has_insert, line_bytes};
ghost use Rattle.edit_unparse.specs.Tidy.Plans.{placement_in};

use crate::tidy::plan::Plan;
use crate::tidy::sides::has_text;
use c_lexer::{Lexed, PieceKind};
use c_terms::NoMemory;
use edit_marks::Edit;
use std::alloc::Global;
use tidy_flags::{LineByte, put_blank, put_removed, put_solid};

/// Returns the bytes of the lines: all but those of blanks within runs.
pub fn line_bytes(
    alloc: Global,
    lexed: &Lexed,
    edits: &[Edit],
    plan: &Plan,
) -> Result<Vec<LineByte>, NoMemory>
    ensures { IfOk result (λ lines. lines.items ≡ line_bytes (placement_in edits.now plan.now) 0 lexed.now) }
{
    let bytes = lexed.bytes();
    let mut lines = Vec::with_capacity(alloc, bytes.len())?;
    let mut token = 0;
    for i in 0..lexed.count() {
        let piece = lexed.piece(i);
        let text = &bytes[piece.start as usize..piece.end as usize];
        put_bytes(&mut lines, edits, plan, token, piece.kind, text)?;
        token = token_after(piece.kind, token);
    }
    Ok(lines)
}

/// Adds the bytes of the lines at a piece.
fn put_bytes(
    lines: &mut Vec<LineByte>,
    edits: &[Edit],
    plan: &Plan,
    token: u32,
    kind: PieceKind,
    text: &[u8],
) -> Result<(), NoMemory>
    ensures { OnOk result (lines.new.items ≡ lines.old.items
        ++ bytes_at (placement_in edits.now plan.now) kind token text.now) }
{
    match kind {
        PieceKind::Word(_, _) => put_word_bytes(lines, edits, plan, token, text),
        PieceKind::Blank => put_blank_bytes(lines, plan, token, text),
        PieceKind::Comment => put_solid_bytes(lines, text),
        PieceKind::Line => put_solid_bytes(lines, text),
    }
}

/// Adds the bytes of a token.
fn put_word_bytes(
    lines: &mut Vec<LineByte>,
    edits: &[Edit],
    plan: &Plan,
    token: u32,
    text: &[u8],
) -> Result<(), NoMemory>
    ensures { OnOk result (lines.new.items ≡ lines.old.items
        ++ (if get_or plan.now.removed.items token false
        then removed_bytes (has_insert (placement_in edits.now plan.now) token) text.now
        else solid_bytes text.now)) }
{
    if !plan.goes(token as usize) {
        return put_solid_bytes(lines, text);
    }
    let has_insert = has_insert(edits, plan, token);
    put_removed(lines, text, has_insert)?;
    Ok(())
}

/// Adds the bytes of a blank, unless it is within a run.
fn put_blank_bytes(
    lines: &mut Vec<LineByte>,
    plan: &Plan,
    token: u32,
    text: &[u8],
) -> Result<(), NoMemory>
    ensures { OnOk result (lines.new.items ≡ lines.old.items
        ++ (if get_or plan.now.joined.items token false then [] else blank_bytes text.now)) }
{
    if plan.is_joined(token as usize) {
        return Ok(());
    }
    put_blank(lines, text)?;
    Ok(())
}

/// Adds the bytes of a comment, of a line or of a token that stays.
fn put_solid_bytes(lines: &mut Vec<LineByte>, text: &[u8]) -> Result<(), NoMemory>
    ensures { OnOk result (lines.new.items ≡ lines.old.items ++ solid_bytes text.now) }
{
    put_solid(lines, text)?;
    Ok(())
}

/// Whether an insert stands at the place of a token.
pub fn has_insert(edits: &[Edit], plan: &Plan, token: u32) -> bool
    ensures { result ≡ has_insert (placement_in edits.now plan.now) token }
{
    has_text(edits, plan.at(token, false)) || has_text(edits, plan.at(token, true))
}

/// Returns the number of the first token behind a piece.
pub fn token_after(kind: PieceKind, token: u32) -> u32
    requires { token < 2 ^ 31 }
    ensures { result ≡ id_after kind token }
{
    match kind {
        PieceKind::Word(_, _) => token + 1,
        PieceKind::Blank => token,
        PieceKind::Comment => token,
        PieceKind::Line => token,
    }
}
