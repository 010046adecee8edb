// What goes with the commas beside which nothing is left, as those ask who read what is left.
ghost use Rattle.std.specs.Prelude.{ℕ, ◌≡◌, ◌<◌, ◌==◌, ◌&&◌, ◌||◌, false, true, not};
ghost use Rattle.std.specs.Prelude.{List, Some, length, nat_lt, get_or, map, IfOk, OnOk, if◌then◌else◌};
ghost use Rattle.std.specs.Prelude.{◌≤◌, filter};
ghost use Rattle.std.specs.List.{items_where_true, list_any, prefix_len};
ghost use Rattle.std.specs.List.Sorted.{IsNonDecreasingBy, IsPartitionPoint};
ghost use Rattle.c_lexer.specs.Pieces.{TextPiece};
ghost use Rattle.edit_unparse.specs.Tidy.Commas.{is_from};
ghost use Rattle.edit_unparse.specs.Tidy.Fallen.{has_part, has_place, insert_falls, is_here, is_origin, piece_falls};
ghost use Rattle.edit_unparse.specs.Tidy.Fallen.{is_numbered, origin_number, own_places, place_number};
ghost use Rattle.edit_unparse.specs.Tidy.Made.{origin_in, part_in, parts_in};
ghost use Rattle.edit_unparse.specs.Tidy.Text.{token_pieces};

use crate::tidy::commas::{CommaList, staying};
use crate::tidy::parts::{Origin, TextPart};
use crate::tidy::pieces::parts_of;
use crate::tidy::plan::Plan;
use c_lexer::Lexed;
use c_terms::NoMemory;
use edit_marks::EditList;
use std::alloc::Global;
use tidy_flags::flag_at;

/// What goes with the commas beside which nothing is left: these commas, and the blanks behind them.
#[derive(Drop)]
pub struct Fallen {
    /// For each piece of the old text whether it goes so.
    pieces: Vec<bool>,
    /// For each edit the places in its inserts from which pieces go so, by their numbers.
    added: Vec<Vec<Origin>>,
    ghost rise: { (edit : ℕ) → IsNonDecreasingBy origin_number (own_places edit added.items) },
}

impl Fallen {
    /// Whether the old piece with this number goes.
    pub fn has(&self, piece: u32) -> bool
        ensures { result ≡ get_or self.now.pieces.items piece false }
    {
        flag_at(self.pieces.as_slice(), piece as usize)
    }

    /// Whether the piece at this offset of an insert goes. Takes log n steps for n pieces of the edit that go.
    pub fn has_added(&self, edit: usize, insert: usize, offset: u32) -> bool
        ensures { result ≡ has_place edit insert offset self.now.added.items }
    {
        match self.added.get(edit) {
            Some(own) => has_here(own.as_slice(), insert, offset as usize),
            None => false,
        }
    }
}

/// Whether this place in an insert is among these. They are sorted by their numbers.
fn has_here(places: &[Origin], insert: usize, offset: usize) -> bool
    requires { IsNonDecreasingBy origin_number places.now }
    ensures { result ≡ list_any (is_here insert offset) places.now }
{
    let own = numbered(places, place_number(insert, offset));
    is_among(own, insert, offset)
}

/// Whether this place in an insert is among these.
fn is_among(places: &[Origin], insert: usize, offset: usize) -> bool
    ensures { result ≡ list_any (is_here insert offset) places.now }
{
    places
        .iter()
        .any(|it| it.insert == insert && it.offset == offset)
}

/// Returns the places with this number. They are sorted by their numbers.
fn numbered(places: &[Origin], number: u64) -> &[Origin]
    requires { IsNonDecreasingBy origin_number places.now }
    ensures { result.now ≡ filter (is_numbered number) places.now }
{
    let rest = &places[first_from(places, number)..];
    &rest[..run_from(rest, number)]
}

/// Returns how many places have lesser numbers. They are sorted by their numbers.
fn first_from(places: &[Origin], number: u64) -> usize
    requires { IsNonDecreasingBy origin_number places.now }
    ensures within { result ≤ length places.now }
    ensures apart { IsPartitionPoint (λ o. nat_lt (origin_number o) number ≡ true)
        (λ o. nat_lt (origin_number o) number ≡ false) places.now result }
{
    places.partition_point(|it| place_number(it.insert, it.offset) < number)
}

/// Returns how many places at the front have this number.
fn run_from(places: &[Origin], number: u64) -> usize
    ensures value { result ≡ prefix_len (is_numbered number) places.now }
    ensures within { result ≤ length places.now }
{
    places
        .iter()
        .take_while(|it| place_number(it.insert, it.offset) == number)
        .count()
}

/// Returns the number of a place in an insert, by which places are sorted. There may be several with one number if there are
/// 2^32 inserts.
fn place_number(insert: usize, offset: usize) -> u64
    ensures { result ≡ place_number insert offset }
{
    insert as u64 % 4294967296 * 4294967296 + offset as u64 % 4294967296
}

/// Returns what goes with the commas of the lists beside which nothing is left. Costs as much as the tidied text, and n log n
/// steps for n pieces of inserts that go.
pub fn fallen_commas(
    alloc: Global,
    lexed: &Lexed,
    edits: &EditList,
    plan: &Plan,
    lists: &[CommaList],
) -> Result<Fallen, NoMemory>
    requires { plan.now.pieces.items ≡ token_pieces 0 lexed.now }
    ensures count { IfOk result (λ fallen. length fallen.pieces.items ≡ length lexed.now) }
    ensures pieces { IfOk result (λ fallen. (n : ℕ) → n < length lexed.now →
        get_or fallen.pieces.items n false ≡ piece_falls edits.now plan.now lexed.now lists.now n) }
    ensures added { IfOk result (λ fallen. (edit insert offset : ℕ) → edit < length edits.now →
        has_place edit insert offset fallen.added.items
        ≡ insert_falls edits.now plan.now lexed.now lists.now edit insert offset) }
{
    let all = edits.edits();
    let made = parts_of(alloc, lexed, all, plan, &[])?;
    let parts = made.as_slice();
    let kept = staying(alloc, lexed, all, plan, lists, parts)?;
    let stays = kept.as_slice();
    let pieces = pieces_that_go(alloc, lexed.count(), parts, stays)?;
    let added = places_that_go(alloc, all.len(), parts, stays)?;
    Ok(Fallen { pieces, added })
}

/// Returns for each old piece whether a part that is it goes.
fn pieces_that_go(
    alloc: Global,
    count: usize,
    parts: &[TextPart],
    stays: &[bool],
) -> Result<Vec<bool>, NoMemory>
    requires { length stays.now ≡ length parts.now }
    ensures len { IfOk result (λ flags. length flags.items ≡ count) }
    ensures flags { (pieces : List TextPiece) → IfOk result (λ flags. (n : ℕ) → n < count →
        get_or flags.items n false ≡ has_part n (items_where_true (map not stays.now) (parts_in pieces parts.now))) }
{
    let mut flags = vec![in alloc; false; count]?;
    for i in 0..parts.len() {
        put_piece(&mut flags, &parts[i], stays[i]);
    }
    Ok(flags)
}

/// Sets the flag of a part that goes, if it is an old piece.
fn put_piece(flags: &mut Vec<bool>, part: &TextPart, stays: bool)
    ensures len { length flags.new.items ≡ length flags.old.items }
    ensures flags { (pieces : List TextPiece) (n : ℕ) → n < length flags.old.items → get_or flags.new.items n false
        ≡ (if not stays && is_from n (part_in pieces part.now).from then true else get_or flags.old.items n false) }
{
    if stays {
        return;
    }
    if let Some(number) = number_of(part) {
        put_flag(flags, number as usize);
    }
}

/// Returns the number of a part among the old pieces, if it is one of them.
fn number_of(part: &TextPart) -> Option<u32>
    ensures { (pieces : List TextPiece) → result ≡ (part_in pieces part.now).from }
{
    match part {
        TextPart::Old(number) => Some(*number),
        TextPart::Cut(number, _) => Some(*number),
        TextPart::New(_) => None,
    }
}

/// Sets the flag of a piece, if it has one.
fn put_flag(flags: &mut Vec<bool>, piece: usize)
    ensures len { length flags.new.items ≡ length flags.old.items }
    ensures flags { (n : ℕ) → n < length flags.old.items → get_or flags.new.items n false
        ≡ (if piece == n then true else get_or flags.old.items n false) }
{
    if piece < flags.len() {
        flags[piece] = true;
    }
}

/// Returns for each of so many edits the places in its inserts from which parts go, by their numbers.
fn places_that_go(
    alloc: Global,
    count: usize,
    parts: &[TextPart],
    stays: &[bool],
) -> Result<Vec<Vec<Origin>>, NoMemory>
    requires { length stays.now ≡ length parts.now }
    ensures rise { IfOk result (λ places. (edit : ℕ) → IsNonDecreasingBy origin_number (own_places edit places.items)) }
    ensures places { IfOk result (λ places. (edit insert offset : ℕ) → edit < count → has_place edit insert offset places.items
        ≡ list_any (is_origin edit insert offset) (items_where_true (map not stays.now) (map origin_in parts.now))) }
{
    let mut places = found_places(alloc, count, parts, stays)?;
    sort_places(&mut places)?;
    Ok(places)
}

/// Sorts the places of each edit by their numbers.
fn sort_places(places: &mut Vec<Vec<Origin>>) -> Result<(), NoMemory>
    ensures same { OnOk result ((edit insert offset : ℕ) →
        has_place edit insert offset places.new.items ≡ has_place edit insert offset places.old.items) }
    ensures rise { OnOk result ((edit : ℕ) → IsNonDecreasingBy origin_number (own_places edit places.new.items)) }
{
    for i in 0..places.len() {
        sort_own(&mut places[i])?;
    }
    Ok(())
}

/// Sorts places by their numbers.
fn sort_own(own: &mut Vec<Origin>) -> Result<(), NoMemory>
    ensures same { OnOk result ((insert offset : ℕ) →
        list_any (is_here insert offset) own.new.items ≡ list_any (is_here insert offset) own.old.items) }
    ensures rise { OnOk result (IsNonDecreasingBy origin_number own.new.items) }
{
    own.sort_by_key(|it| place_number(it.insert, it.offset))?;
    Ok(())
}

/// Returns for each of so many edits the places in its inserts from which parts go.
fn found_places(
    alloc: Global,
    count: usize,
    parts: &[TextPart],
    stays: &[bool],
) -> Result<Vec<Vec<Origin>>, NoMemory>
    requires { length stays.now ≡ length parts.now }
    ensures { IfOk result (λ places. (edit insert offset : ℕ) → edit < count → has_place edit insert offset places.items
        ≡ list_any (is_origin edit insert offset) (items_where_true (map not stays.now) (map origin_in parts.now))) }
{
    let mut places = no_places(alloc, count)?;
    for i in 0..parts.len() {
        put_place(&mut places, &parts[i], stays[i])?;
    }
    Ok(places)
}

/// Returns so many empty lists.
fn no_places(alloc: Global, count: usize) -> Result<Vec<Vec<Origin>>, NoMemory>
    ensures len { IfOk result (λ places. length places.items ≡ count) }
    ensures none { IfOk result (λ places. (edit insert offset : ℕ) → has_place edit insert offset places.items ≡ false) }
{
    let mut places = Vec::with_capacity(alloc, count)?;
    for _ in 0..count {
        places.push(Vec::new(alloc))?;
    }
    Ok(places)
}

/// Adds the place from which a part that goes is, if it is of an insert.
fn put_place(places: &mut Vec<Vec<Origin>>, part: &TextPart, stays: bool) -> Result<(), NoMemory>
    ensures len { length places.new.items ≡ length places.old.items }
    ensures places { OnOk result ((edit insert offset : ℕ) → edit < length places.old.items →
        has_place edit insert offset places.new.items
        ≡ (has_place edit insert offset places.old.items || (not stays && is_origin edit insert offset (origin_in part.now)))) }
{
    if stays {
        return Ok(());
    }
    if let Some(origin) = origin_of(part) {
        put_origin(places, origin)?;
    }
    Ok(())
}

/// Returns where a part is from, if it is of an insert.
fn origin_of(part: &TextPart) -> Option<Origin>
    ensures { result ≡ origin_in part.now }
{
    match part {
        TextPart::New(piece) => piece.origin,
        TextPart::Old(_) => None,
        TextPart::Cut(_, _) => None,
    }
}

/// Adds a place to those of its edit, if there is such an edit.
fn put_origin(places: &mut Vec<Vec<Origin>>, origin: Origin) -> Result<(), NoMemory>
    ensures len { length places.new.items ≡ length places.old.items }
    ensures places { OnOk result ((edit insert offset : ℕ) → edit < length places.old.items →
        has_place edit insert offset places.new.items
        ≡ (has_place edit insert offset places.old.items || is_origin edit insert offset (Some origin))) }
{
    if origin.edit < places.len() {
        places[origin.edit].push(origin)?;
    }
    Ok(())
}
