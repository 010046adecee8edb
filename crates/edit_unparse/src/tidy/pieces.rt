// The parts at the places of the old pieces.
ghost use Rattle.std.specs.Prelude.{ℕ, ◌≡◌, ◌≤◌, ◌<◌, ◌+◌, ◌^◌, ◌++◌, ◌∷◌, [], false, true};
ghost use Rattle.std.specs.Prelude.{List, length, drop, get_or, slice_get, None, IfOk, OnOk, if◌then◌else◌};
ghost use Rattle.std.specs.List.Sorted.{IsNonDecreasingBy};
ghost use Rattle.c_lexer.specs.Pieces.{TextPiece};
ghost use Rattle.c_lexer.specs.declared.piece.PieceKind.TheVariants.{Blank};
ghost use Rattle.c_lexer.specs.Lexes.{id_after};
ghost use Rattle.edit_marks.specs.declared.edit_conflict.edit.Edit.{Edit as Change};
ghost use Rattle.edit_unparse.specs.Output.{added, kept, old_part};
ghost use Rattle.edit_unparse.specs.Tidy.Spots.{brace_number};
ghost use Rattle.tidy_flags.specs.Lines.{emptied, left_of_lines};
ghost use Rattle.edit_unparse.specs.Tidy.Text.{bytes_at, line_bytes, tidy_parts, tidy_placed, unless_empty, with_braces};
ghost use Rattle.edit_unparse.specs.Tidy.Text as tidy;
ghost use Rattle.edit_unparse.specs.Tidy.Plans.{inserts_there, placement_in, texts_there};
ghost use Rattle.edit_unparse.specs.Tidy.Fallen.{all_origins, insert_origins, no_origins, origins_at};
ghost use Rattle.edit_unparse.specs.Tidy.Made.{origins_in, parts_in, piece_or};

use crate::tidy::bytes::{line_bytes, token_after};
use crate::tidy::parts::{Brace, TextPart};
use crate::tidy::plan::Plan;
use crate::tidy::sides::{braces_at, put_side};
use c_lexer::{Lexed, PieceKind};
use c_terms::NoMemory;
use edit_marks::Edit;
use std::alloc::Global;
use tidy_flags::{emptied, left_of};

/// Returns the parts of the new text, without spaces that part tokens. Takes log n steps for each token, with n inserts and
/// braces, and else is linear in the text and in what is added.
pub fn parts_of(
    alloc: Global,
    lexed: &Lexed,
    edits: &[Edit],
    plan: &Plan,
    braces: &[Brace],
) -> Result<Vec<TextPart>, NoMemory>
    requires { IsNonDecreasingBy brace_number braces.now }
    ensures parts { IfOk result (λ made. parts_in lexed.now made.items
        ≡ tidy_placed (placement_in edits.now plan.now) added braces.now
        (emptied (line_bytes (placement_in edits.now plan.now) 0 lexed.now)) 0 0 lexed.now) }
    ensures origins { braces.now ≡ [] → IfOk result (λ made. origins_in made.items ≡ all_origins edits.now plan.now lexed.now) }
{
    let lines = line_bytes(alloc, lexed, edits, plan)?;
    let flags = emptied(alloc, &lines)?;
    let bytes = lexed.bytes();
    let sources = Sources {
        edits,
        plan,
        braces,
        flags: &flags,
    };
    let mut made = Vec::with_capacity(alloc, lexed.count())?;
    let mut here = PiecePlace {
        number: 0,
        token: 0,
        at: 0,
    };
    for i in 0..lexed.count() {
        let piece = lexed.piece(i);
        let text = &bytes[piece.start as usize..piece.end as usize];
        put_piece(alloc, &mut made, &sources, here, piece.kind, text)?;
        here = next_place(plan, here, piece.kind, text.len());
    }
    Ok(made)
}

/// The place of an old piece.
#[derive(Clone, Copy)]
pub struct PiecePlace {
    /// Its number.
    pub number: u32,
    /// The number of the first token from it on.
    pub token: u32,
    /// The number of its first byte, or of the next one, among those of the lines.
    pub at: usize,
}

/// What the parts are made from.
#[derive(Clone, Copy)]
pub struct Sources<'a> {
    pub edits: &'a [Edit],
    pub plan: &'a Plan,
    pub braces: &'a [Brace],
    /// For each byte of the lines whether its line is emptied.
    pub flags: &'a [bool],
}

/// Returns the place of the piece after one.
fn next_place(plan: &Plan, here: PiecePlace, kind: PieceKind, len: usize) -> PiecePlace
    requires number { here.number < 2 ^ 31 }
    requires token { here.token < 2 ^ 31 }
    requires at { here.at + len < 2 ^ 64 }
    ensures number { result.number ≡ here.number + 1 }
    ensures token { result.token ≡ id_after kind here.token }
    ensures at { (edits : List Change) (text : List ℕ) → length text ≡ len →
        result.at ≡ here.at + length (bytes_at (placement_in edits plan.now) kind here.token text) }
{
    PiecePlace {
        number: here.number + 1,
        token: token_after(kind, here.token),
        at: here.at + bytes_of(plan, here.token, kind, len),
    }
}

/// Returns how many bytes of a piece of this length are among those of the lines.
fn bytes_of(plan: &Plan, token: u32, kind: PieceKind, len: usize) -> usize
    ensures most { result ≤ len }
    ensures value { (edits : List Change) (text : List ℕ) → length text ≡ len →
        result ≡ length (bytes_at (placement_in edits plan.now) kind token text) }
{
    match kind {
        PieceKind::Blank => {
            if plan.is_joined(token as usize) {
                0
            } else {
                len
            }
        }
        PieceKind::Word(_, _) => len,
        PieceKind::Comment => len,
        PieceKind::Line => len,
    }
}

/// Adds the parts at the place of a piece.
fn put_piece(
    alloc: Global,
    made: &mut Vec<TextPart>,
    sources: &Sources<'_>,
    here: PiecePlace,
    kind: PieceKind,
    text: &[u8],
) -> Result<(), NoMemory>
    requires rise { IsNonDecreasingBy brace_number sources.now.braces.now }
    requires at { here.at + length text.now < 2 ^ 64 }
    ensures parts { (pieces : List TextPiece) (p : TextPiece) → slice_get pieces here.number ≡ Some p →
        p ≡ record { kind = kind; text = text.now } →
        OnOk result (parts_in pieces made.new.items ≡ parts_in pieces made.old.items
        ++ tidy_parts (placement_in sources.now.edits.now sources.now.plan.now) added sources.now.braces.now
        kind (drop here.at sources.now.flags.now) here.token here.number p) }
    ensures origins { sources.now.braces.now ≡ [] → (p : TextPiece) → p ≡ record { kind = kind; text = text.now } →
        OnOk result (origins_in made.new.items ≡ origins_in made.old.items
        ++ origins_at sources.now.edits.now sources.now.plan.now kind (drop here.at sources.now.flags.now) here.token
        here.number p) }
{
    match kind {
        PieceKind::Word(_, _) => put_word(alloc, made, sources, here),
        PieceKind::Blank => put_left(alloc, made, sources, here, text),
        PieceKind::Comment => put_old(made, here),
        PieceKind::Line => put_old(made, here),
    }
}

/// Adds an old piece.
fn put_old(made: &mut Vec<TextPart>, here: PiecePlace) -> Result<(), NoMemory>
    ensures parts { (pieces : List TextPiece) → OnOk result (parts_in pieces made.new.items
        ≡ parts_in pieces made.old.items ++ (old_part here.number (piece_or pieces here.number) ∷ [])) }
    ensures origins { OnOk result (origins_in made.new.items ≡ origins_in made.old.items ++ (None ∷ [])) }
{
    made.push(TextPart::Old(here.number))?;
    Ok(())
}

/// Adds what is left of a blank.
fn put_left(
    alloc: Global,
    made: &mut Vec<TextPart>,
    sources: &Sources<'_>,
    here: PiecePlace,
    text: &[u8],
) -> Result<(), NoMemory>
    requires { here.at + length text.now < 2 ^ 64 }
    ensures parts { (pieces : List TextPiece) → OnOk result (parts_in pieces made.new.items ≡ parts_in pieces made.old.items
        ++ (if get_or sources.now.plan.now.joined.items here.token false then []
        else unless_empty here.number Blank (left_of_lines (drop here.at sources.now.flags.now) text.now))) }
    ensures origins { OnOk result (origins_in made.new.items ≡ origins_in made.old.items
        ++ no_origins (if get_or sources.now.plan.now.joined.items here.token false then []
        else unless_empty here.number Blank (left_of_lines (drop here.at sources.now.flags.now) text.now))) }
{
    if sources.plan.is_joined(here.token as usize) {
        return Ok(());
    }
    let left = left_of(alloc, sources.flags, here.at, text)?;
    if left.is_empty() {
        return Ok(());
    }
    made.push(TextPart::Cut(here.number, left))?;
    Ok(())
}

/// Adds the inserts and braces at the place of a token, and the token if it stays.
fn put_word(
    alloc: Global,
    made: &mut Vec<TextPart>,
    sources: &Sources<'_>,
    here: PiecePlace,
) -> Result<(), NoMemory>
    requires { IsNonDecreasingBy brace_number sources.now.braces.now }
    ensures parts { (pieces : List TextPiece) → OnOk result (parts_in pieces made.new.items ≡ parts_in pieces made.old.items
        ++ (added (with_braces (tidy.braces_at sources.now.braces.now here.token false)
        (texts_there sources.now.edits.now sources.now.plan.now here.token false))
        ++ (kept (get_or sources.now.plan.now.removed.items here.token false) here.number (piece_or pieces here.number)
        ++ added (with_braces (tidy.braces_at sources.now.braces.now here.token true)
        (texts_there sources.now.edits.now sources.now.plan.now here.token true))))) }
    ensures origins { sources.now.braces.now ≡ [] → (p : TextPiece) →
        OnOk result (origins_in made.new.items ≡ origins_in made.old.items
        ++ (insert_origins sources.now.edits.now (inserts_there sources.now.plan.now here.token false)
        ++ (no_origins (kept (get_or sources.now.plan.now.removed.items here.token false) here.number p)
        ++ insert_origins sources.now.edits.now (inserts_there sources.now.plan.now here.token true)))) }
{
    put_at(alloc, made, sources, here.token, false)?;
    put_stays(made, sources.plan, here)?;
    put_at(alloc, made, sources, here.token, true)
}

/// Adds a token, if it stays.
fn put_stays(made: &mut Vec<TextPart>, plan: &Plan, here: PiecePlace) -> Result<(), NoMemory>
    ensures parts { (pieces : List TextPiece) → OnOk result (parts_in pieces made.new.items ≡ parts_in pieces made.old.items
        ++ kept (get_or plan.now.removed.items here.token false) here.number (piece_or pieces here.number)) }
    ensures origins { (p : TextPiece) → OnOk result (origins_in made.new.items ≡ origins_in made.old.items
        ++ no_origins (kept (get_or plan.now.removed.items here.token false) here.number p)) }
{
    if plan.goes(here.token as usize) {
        return Ok(());
    }
    put_old(made, here)
}

/// Adds the inserts and braces on one side of a token's place.
fn put_at(
    alloc: Global,
    made: &mut Vec<TextPart>,
    sources: &Sources<'_>,
    token: u32,
    after: bool,
) -> Result<(), NoMemory>
    requires { IsNonDecreasingBy brace_number sources.now.braces.now }
    ensures parts { (pieces : List TextPiece) → OnOk result (parts_in pieces made.new.items ≡ parts_in pieces made.old.items
        ++ added (with_braces (tidy.braces_at sources.now.braces.now token after)
        (texts_there sources.now.edits.now sources.now.plan.now token after))) }
    ensures origins { sources.now.braces.now ≡ [] → OnOk result (origins_in made.new.items ≡ origins_in made.old.items
        ++ insert_origins sources.now.edits.now (inserts_there sources.now.plan.now token after)) }
{
    let inserts = sources.plan.at(token, after);
    let own = braces_at(sources.braces, token, after);
    put_side(alloc, made, sources.edits, inserts, own)
}
