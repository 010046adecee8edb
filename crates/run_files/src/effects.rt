// The acts that result from a text.
ghost use Rattle.std.specs.Prelude.{◌≡◌, ◌≤◌, ◌∷◌, [], List, ℕ, Option, map, OnOk, IfOk, IfErr};
ghost use Rattle.outer_io.specs.Files.{Files};
ghost use Rattle.run_acts.specs.Acts.{Report, observed};
ghost use Rattle.run_acts.specs.Breaks.{counts};
ghost use Rattle.run_acts.specs.Statuses.{status_of};
ghost use Rattle.run_files.specs.RunLines.Files as lines;
ghost use Rattle.c_places.specs.declared.places.TextPlaces.{TextPlaces as Found};
ghost use Rattle.c_places.specs.Starts.{ArePlaces};
ghost use Rattle.run_files.specs.Treatment as treatment;
ghost use Rattle.run_files.specs.Treatment.{printing, storing, note_act, told_places};
ghost use Rattle.run_files.specs.Shows.{named};
ghost use Rattle.run_files.specs.Does.{Does, Stops};

use crate::run_lines::{
    named_line, placed, placed_on, refused_line, skipped_line, special_line, too_long_line,
};
use c_places::{TextPlaces, places_are_one, places_in};
use c_terms::{NoMemory, same_text};
use outer_io::{Shelf, Sink};
use rule_chain::{FileFault, SkipNote};
use run_acts::{Stopped, print, report, store};
use sqlite_items::{Items, at};
use std::alloc::Global;
use text_places::{Place, Places};

/// Returns no places.
fn no_places(alloc: Global) -> TextPlaces
    ensures { result ≡ treatment.no_places }
{
    TextPlaces {
        tokens: Items::new(alloc),
    }
}

/// Returns where the tokens of the text that was loaded begin. Under `--quiet` nothing has a place, and the text
/// isn't cut.
fn find_places(alloc: Global, quiet: bool, text: &[u8]) -> Result<TextPlaces, NoMemory>
    ensures { IfOk result (λ here. (found : Found) → ArePlaces text.now found → here ≡ told_places quiet found) }
{
    if quiet {
        return Ok(no_places(alloc));
    }
    // A law: does nothing. The places that are found here are those of the definition.
    places_are_one();
    places_in(alloc, text)
}

/// Returns where an item that a reading skipped is in the text that was loaded: at the first of its visible tokens that is of
/// that text.
fn note_start(found: &TextPlaces, note: &SkipNote) -> Option<u32>
    ensures { result ≡ lines.note_start found.now note.now }
{
    match note.token {
        Some(token) => at(found.tokens.as_slice(), token as usize).copied(),
        None => None,
    }
}

/// Reports a line for each skipped item, given where the tokens of the loaded text begin.
fn report_notes<E: Sink>(
    alloc: Global,
    err: &mut E,
    name: &str,
    found: &TextPlaces,
    text: &[u8],
    notes: &[SkipNote],
) -> Result<(), Stopped>
    ensures done { OnOk result ((files : Option Files) (stores : ℕ) (out : Option (List ℕ)) →
        Does (map (note_act name.now text.now found.now) notes.now)
        (observed files stores out (E.written err.old)) (observed files stores out (E.written err.new))) }
    ensures later { E.faults err.old ≤ E.faults err.new }
    ensures stopped { IfErr result (λ stopped. (files : Option Files) (out : Option (List ℕ)) (stores s o s' o' : ℕ) →
        Stops (map (note_act name.now text.now found.now) notes.now)
        (counts s o (E.faults err.old)) (counts s' o' (E.faults err.new))
        (observed files stores out (E.written err.old)) (observed files stores out (E.written err.new)) (status_of stopped)) }
{
    let mut places = Places::of(text);
    for note in notes {
        let place = placed_on(&mut places, note_start(found, note));
        let line = skipped_line(alloc, name, place, note)?;
        report(err, &line)?;
    }
    Ok(())
}

/// Reports a line for each skipped item of the text that was loaded.
///
/// Linear in the lines, and, if there are any, in the text, which is cut once more. Under `--quiet` nothing has a place, and the
/// text isn't cut.
pub fn report_skipped<E: Sink>(
    alloc: Global,
    err: &mut E,
    quiet: bool,
    name: &str,
    text: &[u8],
    notes: &[SkipNote],
) -> Result<(), Stopped>
    ensures done { OnOk result ((found : Found) → ArePlaces text.now found → (files : Option Files) (stores : ℕ) (out : Option (List ℕ)) →
        Does (map (note_act name.now text.now (told_places quiet found)) notes.now)
        (observed files stores out (E.written err.old)) (observed files stores out (E.written err.new))) }
    ensures later { E.faults err.old ≤ E.faults err.new }
    ensures stopped { IfErr result (λ stopped. (found : Found) → ArePlaces text.now found →
        (files : Option Files) (out : Option (List ℕ)) (stores s o s' o' : ℕ) →
        Stops (map (note_act name.now text.now (told_places quiet found)) notes.now)
        (counts s o (E.faults err.old)) (counts s' o' (E.faults err.new))
        (observed files stores out (E.written err.old)) (observed files stores out (E.written err.new)) (status_of stopped)) }
{
    if notes.is_empty() {
        return Ok(());
    }
    let found = find_places(alloc, quiet, text)?;
    report_notes(alloc, err, name, &found, text, notes)
}

/// Prints a text, unless it is empty.
pub fn show<O: Sink, E: Sink>(out: &mut O, err: &mut E, text: &[u8]) -> Result<(), Stopped>
    ensures done { OnOk result ((files : Option Files) (stores : ℕ) → Does (printing text.now)
        (observed files stores (O.written out.old) (E.written err.old))
        (observed files stores (O.written out.new) (E.written err.new))) }
    ensures later { O.faults out.old ≤ O.faults out.new }
    ensures later_err { E.faults err.old ≤ E.faults err.new }
    ensures stopped { IfErr result (λ stopped. (files : Option Files) (stores s s' : ℕ) → Stops (printing text.now)
        (counts s (O.faults out.old) (E.faults err.old)) (counts s' (O.faults out.new) (E.faults err.new))
        (observed files stores (O.written out.old) (E.written err.old))
        (observed files stores (O.written out.new) (E.written err.new)) (status_of stopped)) }
{
    if text.is_empty() {
        return Ok(());
    }
    print(out, err, text)
}

/// Prints the name of a file, on a line of its own.
pub fn show_name<O: Sink, E: Sink>(
    alloc: Global,
    name: &str,
    out: &mut O,
    err: &mut E,
) -> Result<(), Stopped>
    ensures done { OnOk result ((files : Option Files) (stores : ℕ) → Does (named name.now)
        (observed files stores (O.written out.old) (E.written err.old))
        (observed files stores (O.written out.new) (E.written err.new))) }
    ensures later { O.faults out.old ≤ O.faults out.new }
    ensures later_err { E.faults err.old ≤ E.faults err.new }
    ensures stopped { IfErr result (λ stopped. (files : Option Files) (stores s s' : ℕ) → Stops (named name.now)
        (counts s (O.faults out.old) (E.faults err.old)) (counts s' (O.faults out.new) (E.faults err.new))
        (observed files stores (O.written out.old) (E.written err.old))
        (observed files stores (O.written out.new) (E.written err.new)) (status_of stopped)) }
{
    let line = named_line(alloc, name)?;
    print(out, err, &line)
}

/// Stores a text if it differs from the bytes that were loaded.
pub fn store_if_changed<S: Shelf, E: Sink>(
    alloc: Global,
    shelf: &mut S,
    err: &mut E,
    name: &str,
    bytes: &[u8],
    text: &[u8],
) -> Result<(), Stopped>
    ensures done { OnOk result ((out : Option (List ℕ)) → Does (storing name.now bytes.now text.now)
        (observed (S.holds shelf.old) (S.stores shelf.old) out (E.written err.old))
        (observed (S.holds shelf.new) (S.stores shelf.new) out (E.written err.new))) }
    ensures later { S.faults shelf.old ≤ S.faults shelf.new }
    ensures later_err { E.faults err.old ≤ E.faults err.new }
    ensures stopped { IfErr result (λ stopped. (out : Option (List ℕ)) (o o' : ℕ) → Stops (storing name.now bytes.now text.now)
        (counts (S.faults shelf.old) o (E.faults err.old)) (counts (S.faults shelf.new) o' (E.faults err.new))
        (observed (S.holds shelf.old) (S.stores shelf.old) out (E.written err.old))
        (observed (S.holds shelf.new) (S.stores shelf.new) out (E.written err.new)) (status_of stopped)) }
{
    if same_text(bytes, text) {
        return Ok(());
    }
    store(alloc, shelf, err, name, text)
}

/// Reports a line, if there was memory to make it.
fn report_made<E: Sink>(err: &mut E, made: Result<Vec<u8>, NoMemory>) -> Result<(), Stopped>
    ensures done { OnOk result ((line : List ℕ) (files : Option Files) (stores : ℕ) (out : Option (List ℕ)) →
        IfOk made (λ made. made.items ≡ line) → Does (Report line ∷ [])
        (observed files stores out (E.written err.old)) (observed files stores out (E.written err.new))) }
    ensures later { E.faults err.old ≤ E.faults err.new }
    ensures stopped { IfErr result (λ stopped. (line : List ℕ) (files : Option Files) (out : Option (List ℕ))
        (stores s o s' o' : ℕ) → IfOk made (λ made. made.items ≡ line) → Stops (Report line ∷ [])
        (counts s o (E.faults err.old)) (counts s' o' (E.faults err.new))
        (observed files stores out (E.written err.old)) (observed files stores out (E.written err.new)) (status_of stopped)) }
{
    let line = made?;
    report(err, &line)
}

/// Returns the token at which a refusal is, if it is at one.
fn fault_token(fault: &FileFault) -> Option<u64>
    ensures { result ≡ lines.fault_token fault.now }
{
    match fault {
        FileFault::Conflict(_, token, _, _) => Some(*token),
        FileFault::Body(_, token) => Some(*token),
        _ => None,
    }
}

/// Returns where the token of a refusal begins in the text that was loaded, if it was loaded.
fn fault_start(found: &TextPlaces, fault: &FileFault) -> Option<u32>
    ensures { result ≡ lines.fault_start found.now fault.now }
{
    let token = fault_token(fault)?;
    at(found.tokens.as_slice(), token as usize).copied()
}

/// Returns where a refusal is in the text that was loaded.
fn fault_place(
    alloc: Global,
    quiet: bool,
    text: &[u8],
    fault: &FileFault,
) -> Result<Option<Place>, NoMemory>
    ensures { IfOk result (λ place. (found : Found) → ArePlaces text.now found →
        place ≡ lines.fault_place text.now (told_places quiet found) fault.now) }
{
    match fault_token(fault) {
        Some(_) => {
            let found = find_places(alloc, quiet, text)?;
            let start = fault_start(&found, fault);
            Ok(placed(text, start))
        }
        None => Ok(None),
    }
}

/// Reports the line of a refused file.
///
/// Linear in the line, and, if the refusal has a token, in the text that was loaded, which is cut once more. Under `--quiet`
/// nothing has a place, and the text isn't cut.
pub fn refuse<E: Sink>(
    alloc: Global,
    err: &mut E,
    quiet: bool,
    name: &str,
    text: &[u8],
    fault: &FileFault,
) -> Result<(), Stopped>
    ensures done { OnOk result ((found : Found) → ArePlaces text.now found → (files : Option Files) (stores : ℕ) (out : Option (List ℕ)) →
        Does (Report (lines.refused_line name.now (lines.fault_place text.now (told_places quiet found) fault.now) fault.now) ∷ [])
        (observed files stores out (E.written err.old)) (observed files stores out (E.written err.new))) }
    ensures later { E.faults err.old ≤ E.faults err.new }
    ensures stopped { IfErr result (λ stopped. (found : Found) → ArePlaces text.now found →
        (files : Option Files) (out : Option (List ℕ)) (stores s o s' o' : ℕ) →
        Stops (Report (lines.refused_line name.now (lines.fault_place text.now (told_places quiet found) fault.now) fault.now) ∷ [])
        (counts s o (E.faults err.old)) (counts s' o' (E.faults err.new))
        (observed files stores out (E.written err.old)) (observed files stores out (E.written err.new)) (status_of stopped)) }
{
    let place = fault_place(alloc, quiet, text, fault)?;
    report_made(err, refused_line(alloc, name, place, fault))
}

/// Reports the line about a file of this name that is over its limit when it is loaded.
pub fn refuse_long<E: Sink>(alloc: Global, err: &mut E, name: &str) -> Result<(), Stopped>
    ensures done { OnOk result ((files : Option Files) (stores : ℕ) (out : Option (List ℕ)) →
        Does (Report (lines.too_long_line name.now) ∷ [])
        (observed files stores out (E.written err.old)) (observed files stores out (E.written err.new))) }
    ensures later { E.faults err.old ≤ E.faults err.new }
    ensures stopped { IfErr result (λ stopped. (files : Option Files) (out : Option (List ℕ)) (stores s o s' o' : ℕ) →
        Stops (Report (lines.too_long_line name.now) ∷ [])
        (counts s o (E.faults err.old)) (counts s' o' (E.faults err.new))
        (observed files stores out (E.written err.old)) (observed files stores out (E.written err.new)) (status_of stopped)) }
{
    report_made(err, too_long_line(alloc, name))
}

/// Reports the line about a pipe, a device or a socket of this name.
pub fn refuse_special<E: Sink>(alloc: Global, err: &mut E, name: &str) -> Result<(), Stopped>
    ensures done { OnOk result ((files : Option Files) (stores : ℕ) (out : Option (List ℕ)) →
        Does (Report (lines.special_line name.now) ∷ [])
        (observed files stores out (E.written err.old)) (observed files stores out (E.written err.new))) }
    ensures later { E.faults err.old ≤ E.faults err.new }
    ensures stopped { IfErr result (λ stopped. (files : Option Files) (out : Option (List ℕ)) (stores s o s' o' : ℕ) →
        Stops (Report (lines.special_line name.now) ∷ [])
        (counts s o (E.faults err.old)) (counts s' o' (E.faults err.new))
        (observed files stores out (E.written err.old)) (observed files stores out (E.written err.new)) (status_of stopped)) }
{
    report_made(err, special_line(alloc, name))
}
