// Typed declarations whose type is probably a misspelt kind of metavariables.
ghost use Rattle.std.specs.Prelude.{◌≡◌, ◌++◌, ◌&&◌, [], cond, IfOk, OnOk};
ghost use Rattle.std.specs.Option.{option_copied};
ghost use Rattle.smpl_meta.specs.Forms.{is_keyword as is_word_of_c};
ghost use Rattle.smpl_notes.specs.Types as spec;

use crate::kind_word::{is_unread_kind, kind_meant};
use crate::note::{Note, Slip};
use c_terms::{NoMemory, Text, TokenKind};
use smpl_lexer::{PatchToken, is_name, is_sign};
use sqlite_items::{Items, at};
use std::alloc::Global;
use text_places::Places;

fn is_keyword(t: &PatchToken) -> bool
    ensures { result ≡ is_word_of_c t.now }
{
    matches!(t.token.kind, TokenKind::Keyword)
}

fn is_some_keyword(t: Option<&PatchToken>) -> bool
    ensures { result ≡ spec.is_some_keyword (option_copied t.entry) }
{
    match t {
        None => false,
        Some(t) => is_keyword(t),
    }
}

/// Whether a declaration begins with these two tokens, and its specifiers are one name.
fn is_lone(begins: bool, t: &PatchToken, next: Option<&PatchToken>) -> bool
    ensures { result ≡ (begins && spec.is_lone t.now (option_copied next.entry)) }
{
    begins && is_name(t) && !is_some_keyword(next)
}

/// Returns what is probably wrong with a type of this name.
fn word_slip(alloc: Global, word: &Text) -> Result<Option<Slip>, NoMemory>
    ensures { IfOk result (λ slip. slip ≡ spec.word_slip word.now) }
{
    if is_unread_kind(word.as_bytes()) {
        return Ok(Some(Slip::UnreadKind(word.copy(alloc)?)));
    }
    match kind_meant(alloc, word.as_bytes())? {
        None => Ok(None),
        Some(kind) => Ok(Some(Slip::MisspeltKind(word.copy(alloc)?, kind))),
    }
}

/// Appends the note on a type of this name.
fn put_type_note(
    alloc: Global,
    places: &mut Places<'_>,
    number: u32,
    name: &PatchToken,
    notes: &mut Items<Note>,
) -> Result<(), NoMemory>
    ensures notes { OnOk result (notes.new ≡ notes.old ++ spec.type_note places.old number name.now) }
    ensures same { places.new ≡ places.old }
{
    match word_slip(alloc, &name.token.text)? {
        None => Ok(()),
        Some(slip) => {
            let place = places.place(name.at as usize);
            notes.push(Note::InRule(number, Some(place), slip))?;
            Ok(())
        }
    }
}

/// Appends the note on a type of this name, if it is noted.
fn put_if(
    alloc: Global,
    places: &mut Places<'_>,
    number: u32,
    is_noted: bool,
    name: &PatchToken,
    notes: &mut Items<Note>,
) -> Result<(), NoMemory>
    ensures notes { OnOk result (notes.new ≡ notes.old ++ cond is_noted (spec.type_note places.old number name.now) []) }
    ensures same { places.new ≡ places.old }
{
    if is_noted {
        put_type_note(alloc, places, number, name, notes)
    } else {
        Ok(())
    }
}

/// Returns the notes on the declarations of a rule of this number: for each whose specifiers are one name, if that is nearly
/// the word for a kind, or one of Coccinelle's that isn't read. Linear in the declarations and their bytes.
pub fn type_notes(
    alloc: Global,
    places: &mut Places<'_>,
    number: u32,
    decls: &[PatchToken],
) -> Result<Items<Note>, NoMemory>
    ensures notes { IfOk result (λ notes. notes ≡ spec.type_notes places.old number decls.now) }
    ensures same { places.new ≡ places.old }
{
    let mut notes = Items::new(alloc);
    let mut begins = true;
    for i in 0..decls.len() {
        let t = &decls[i];
        let lone = is_lone(begins, t, at(decls, i + 1));
        put_if(alloc, places, number, lone, t, &mut notes)?;
        begins = is_sign(t, b";");
    }
    Ok(notes)
}
