// The parts between the brackets of a list.
ghost use Rattle.std.specs.Prelude.{ℕ, ◌≡◌, ◌≤◌, ◌+◌, ◌==◌, ◌&&◌, false, true, List, drop, length, get_or, map, IfOk};
ghost use Rattle.std.specs.List.{items_where_true, position_or_len};
ghost use Rattle.c_lexer.specs.Pieces.{TextPiece};
ghost use Rattle.edit_unparse.specs.Output.{Part};
ghost use Rattle.edit_unparse.specs.Tidy.Fallen.{StandAlike};
ghost use Rattle.edit_unparse.specs.Tidy.Commas.{is_from, sign_of, with_list};
ghost use Rattle.edit_unparse.specs.Tidy.Clearing.{place_of};
ghost use Rattle.edit_unparse.specs.Tidy.Made.{part_in, parts_in};

use crate::tidy::parts::TextPart;
use c_terms::NoMemory;
use std::alloc::Global;
use tidy_flags::{Sign, clear_commas};

/// The brackets of a list: the numbers of their pieces, and a place in the parts before which the first doesn't stand.
#[derive(Clone, Copy)]
pub struct Brackets {
    pub begin: u32,
    pub close: u32,
    pub from: usize,
}

/// Clears the flags of the commas of a list that go, and of the blanks behind them.
pub fn clear_list(
    parts: &[TextPart],
    signs: &[Sign],
    stays: &mut [bool],
    brackets: Brackets,
    may_end: bool,
)
    requires flags { length stays.old ≡ length parts.now }
    requires signs { length signs.now ≡ length parts.now }
    ensures { (pieces : List TextPiece) (ps : List Part) → signs.now ≡ map sign_of ps →
        StandAlike brackets.begin ps (parts_in pieces parts.now) → StandAlike brackets.close ps (parts_in pieces parts.now) →
        brackets.from ≤ position_or_len (λ p. is_from brackets.begin p.from) ps →
        items_where_true stays.new ps ≡ with_list may_end brackets.begin brackets.close (items_where_true stays.old ps) }
{
    let start = find(parts, stays, brackets.begin, brackets.from);
    if start >= parts.len() {
        return;
    }
    let stop = find(parts, stays, brackets.close, start + 1);
    clear_commas(
        &signs[start + 1..stop],
        &mut stays[start + 1..stop],
        may_end,
    );
}

/// Returns the place of the first part from one on that stays and is the old piece with this number, or how many parts there
/// are.
fn find(parts: &[TextPart], stays: &[bool], number: u32, from: usize) -> usize
    requires flags { length stays.now ≡ length parts.now }
    ensures within { from ≤ length parts.now → result ≤ length parts.now }
    ensures after { from ≤ result }
    ensures value { (pieces : List TextPiece) → from ≤ length parts.now →
        result ≡ from + place_of number (drop from stays.now) (drop from (parts_in pieces parts.now)) }
{
    let mut at = from;
    while at < parts.len() {
        if is_kept(&parts[at], stays[at], number) {
            return at;
        }
        at += 1;
    }
    at
}

/// Whether a part stays and is the old piece with this number.
fn is_kept(part: &TextPart, stays: bool, number: u32) -> bool
    ensures { (pieces : List TextPiece) → result ≡ (stays && is_from number (part_in pieces part.now).from) }
{
    if !stays {
        return false;
    }
    match part {
        TextPart::Old(own) => *own == number,
        TextPart::Cut(own, _) => *own == number,
        TextPart::New(_) => false,
    }
}

/// Returns for each old piece a place before which it doesn't stand: that of the first part that is it, or behind all parts.
pub fn first_places(alloc: Global, count: usize, parts: &[TextPart]) -> Result<Vec<usize>, NoMemory>
    ensures { (pieces : List TextPiece) (n : ℕ) → IfOk result (λ places. get_or places.items n 0
        ≤ position_or_len (λ p. is_from n p.from) (parts_in pieces parts.now)) }
{
    let mut places = vec![in alloc; parts.len(); count]?;
    let mut at = parts.len();
    while at > 0 {
        at -= 1;
        put_place(&mut places, &parts[at], at);
    }
    Ok(places)
}

/// Notes the place of a part, if it is an old piece.
fn put_place(places: &mut Vec<usize>, part: &TextPart, at: usize)
    ensures own { (pieces : List TextPiece) (n : ℕ) → is_from n (part_in pieces part.now).from ≡ true →
        get_or places.new.items n 0 ≤ at }
    ensures others { (pieces : List TextPiece) (n : ℕ) → is_from n (part_in pieces part.now).from ≡ false →
        get_or places.new.items n 0 ≡ get_or places.old.items n 0 }
{
    match part {
        TextPart::Old(number) => put_number(places, *number, at),
        TextPart::Cut(number, _) => put_number(places, *number, at),
        TextPart::New(_) => {}
    }
}

/// Sets the place of an old piece, if there is one for it.
fn put_number(places: &mut Vec<usize>, number: u32, at: usize)
    ensures own { get_or places.new.items number 0 ≤ at }
    ensures others { (n : ℕ) → (number == n) ≡ false → get_or places.new.items n 0 ≡ get_or places.old.items n 0 }
{
    let number = number as usize;
    if number >= places.len() {
        return;
    }
    places[number] = at;
}

/// Returns the place of an old piece, or 0 if there is none for it.
pub fn place_at(places: &[usize], number: u32) -> usize
    ensures { result ≡ get_or places.now number 0 }
{
    match places.get(number as usize) {
        Some(place) => *place,
        None => 0,
    }
}
