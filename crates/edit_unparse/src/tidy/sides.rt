// What stands on the sides of a token's place.
ghost use Rattle.std.specs.Prelude.{◌≡◌, ◌≤◌, ◌<◌, ◌==◌, ◌^◌, ◌+◌, ◌++◌, ◌∷◌, [], List, not, false, true};
ghost use Rattle.std.specs.Prelude.{length, nat_lt, slice_get, Some, IfOk, OnOk, if◌then◌else◌};
ghost use Rattle.std.specs.List.{prefix_len};
ghost use Rattle.std.specs.List.Sorted.{IsNonDecreasingBy, IsPartitionPoint};
ghost use Rattle.std.specs.Option.{option_copied};
ghost use Rattle.c_lexer.specs.Pieces.{TextPiece};
ghost use Rattle.edit_unparse.specs.Output.{added, new_parts};
ghost use Rattle.edit_unparse.specs.Written.{edit_text};
ghost use Rattle.edit_unparse.specs.Tidy.Spots.{brace_number, placed_texts};
ghost use Rattle.edit_unparse.specs.Tidy.Text.{behind, braces_among, braces_at, with_braces};
ghost use Rattle.edit_unparse.specs.Tidy.Fallen.{insert_origins, origins_from, text_origins};
ghost use Rattle.edit_unparse.specs.Tidy.Made.{moved_to, origins_in, parts_in};

use crate::tidy::parts::{Brace, NewPiece, Origin, TextPart};
use crate::tidy::plan::{Placed, Spot, spot_number};
use c_lexer::first_piece;
use c_terms::{NoMemory, Text};
use edit_marks::Edit;
use std::alloc::Global;

/// Returns the braces on one side of a token's place. The braces are sorted by place.
pub fn braces_at(braces: &[Brace], token: u32, after: bool) -> &[Brace]
    requires { IsNonDecreasingBy brace_number braces.now }
    ensures { result.now ≡ braces_at braces.now token after }
{
    let number = spot_number(Spot { token, after });
    let rest = &braces[first_from(braces, number)..];
    &rest[..run_from(rest, number)]
}

/// Returns how many braces stand before this place.
fn first_from(braces: &[Brace], number: u64) -> usize
    requires { IsNonDecreasingBy brace_number braces.now }
    ensures within { result ≤ length braces.now }
    ensures apart { IsPartitionPoint (λ b. nat_lt (brace_number b) number ≡ true)
        (λ b. nat_lt (brace_number b) number ≡ false) braces.now result }
{
    braces.partition_point(|it| brace_number(it) < number)
}

/// Returns how many braces at the front stand at this place.
fn run_from(braces: &[Brace], number: u64) -> usize
    ensures value { result ≡ prefix_len (λ b. brace_number b == number) braces.now }
    ensures within { result ≤ length braces.now }
{
    braces
        .iter()
        .take_while(|it| brace_number(it) == number)
        .count()
}

fn brace_number(brace: &Brace) -> u64
    ensures { result ≡ brace_number brace.now }
{
    spot_number(Spot {
        token: brace.token,
        after: brace.after,
    })
}

/// Adds the inserts at a place, with those of the braces there before, between and behind them.
pub fn put_side(
    alloc: Global,
    made: &mut Vec<TextPart>,
    edits: &[Edit],
    inserts: &[Placed],
    braces: &[Brace],
) -> Result<(), NoMemory>
    ensures parts { (pieces : List TextPiece) → OnOk result (parts_in pieces made.new.items
        ≡ parts_in pieces made.old.items ++ added (with_braces braces.now (placed_texts edits.now inserts.now))) }
    ensures origins { braces.now ≡ [] → OnOk result (origins_in made.new.items
        ≡ origins_in made.old.items ++ insert_origins edits.now inserts.now) }
{
    put_braces(alloc, made, braces, 0)?;
    let mut count = 0;
    for placed in inserts {
        count = put_insert(alloc, made, edits, *placed, braces, count)?;
    }
    Ok(())
}

/// Adds an insert, and the braces behind it. Returns how many inserts stand there so far.
fn put_insert(
    alloc: Global,
    made: &mut Vec<TextPart>,
    edits: &[Edit],
    placed: Placed,
    braces: &[Brace],
    count: usize,
) -> Result<usize, NoMemory>
    requires { count < 2 ^ 63 }
    ensures next { IfOk result (λ next. next ≤ count + 1) }
    ensures parts { IfOk result (λ next. (pieces : List TextPiece) (rest : List Placed) →
        parts_in pieces made.new.items ++ added (behind braces.now next (placed_texts edits.now rest))
        ≡ parts_in pieces made.old.items ++ added (behind braces.now count (placed_texts edits.now (placed ∷ rest)))) }
    ensures origins { braces.now ≡ [] → OnOk result (origins_in made.new.items
        ≡ origins_in made.old.items ++ text_origins placed (edit_text (slice_get edits.now placed.edit) placed.insert)) }
{
    let Some(text) = placed_text(edits, placed) else {
        return Ok(count);
    };
    let origin = Origin {
        edit: placed.edit,
        insert: placed.insert,
        offset: 0,
    };
    put_text(alloc, made, text.as_bytes(), Some(origin))?;
    put_braces(alloc, made, braces, count + 1)?;
    Ok(count + 1)
}

/// Returns the text of an insert.
fn placed_text(edits: &[Edit], placed: Placed) -> Option<&Text>
    ensures { option_copied result ≡ edit_text (slice_get edits.now placed.edit) placed.insert }
{
    let edit = edits.get(placed.edit)?;
    let insert = edit.inserts.as_slice().get(placed.insert)?;
    Some(&insert.text)
}

/// Whether one of these inserts has a text, as each does that a plan has.
pub fn has_text(edits: &[Edit], inserts: &[Placed]) -> bool
    ensures { result ≡ not (length (placed_texts edits.now inserts.now) == 0) }
{
    for placed in inserts {
        if placed_text(edits, *placed).is_some() {
            return true;
        }
    }
    false
}

/// Adds the braces before which this many inserts stand.
fn put_braces(
    alloc: Global,
    made: &mut Vec<TextPart>,
    braces: &[Brace],
    count: usize,
) -> Result<(), NoMemory>
    ensures parts { (pieces : List TextPiece) → OnOk result (parts_in pieces made.new.items
        ≡ parts_in pieces made.old.items ++ added (braces_among braces.now count)) }
    ensures none { braces.now ≡ [] → OnOk result (made.new.items ≡ made.old.items) }
{
    for brace in braces {
        put_brace(alloc, made, brace, count)?;
    }
    Ok(())
}

/// Adds a brace, if this many inserts stand before it.
fn put_brace(
    alloc: Global,
    made: &mut Vec<TextPart>,
    brace: &Brace,
    count: usize,
) -> Result<(), NoMemory>
    ensures { (pieces : List TextPiece) → OnOk result (parts_in pieces made.new.items
        ≡ parts_in pieces made.old.items ++ added (if brace.now.inserts == count then brace.now.text ∷ [] else [])) }
{
    if brace.inserts != count {
        return Ok(());
    }
    put_text(alloc, made, brace.text.as_bytes(), None)
}

/// Adds the pieces of a text.
fn put_text(
    alloc: Global,
    made: &mut Vec<TextPart>,
    text: &[u8],
    origin: Option<Origin>,
) -> Result<(), NoMemory>
    ensures parts { (pieces : List TextPiece) → OnOk result (parts_in pieces made.new.items
        ≡ parts_in pieces made.old.items ++ new_parts text.now) }
    ensures origins { (o : Origin) → origin ≡ Some o → OnOk result (origins_in made.new.items
        ≡ origins_in made.old.items ++ origins_from o.edit o.insert 0 (new_parts text.now)) }
{
    let mut at = 0;
    while at < text.len() {
        let (kind, len) = first_piece(&text[at..]);
        let end = at + len;
        made.push(TextPart::New(NewPiece {
            kind,
            text: Text::from_bytes(alloc, &text[at..end])?,
            origin: moved(origin, at),
        }))?;
        at = end;
    }
    Ok(())
}

/// Returns where a piece at this offset of the same text comes from.
fn moved(origin: Option<Origin>, offset: usize) -> Option<Origin>
    ensures { result ≡ moved_to offset origin }
{
    let first = origin?;
    Some(Origin {
        edit: first.edit,
        insert: first.insert,
        offset,
    })
}
