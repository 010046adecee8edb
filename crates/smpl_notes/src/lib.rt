//! Finds what is probably a mistake in a semantic patch that finds nothing, or too little.
//!
//! - [`notes`] returns the notes on a patch. A [`Note`] says what is probably a mistake ([`Slip`]), in which rule and where.
//! - [`sentence`] returns the sentence of a note, without its place.
//! - [`is_told`] says whether a run that found nothing tells a note, by the words of the run, and [`is_told_always`] whether a
//!   run that found something tells it too. A [`KindWord`] is a word with which declarations begin.
//! - [`patches_have_notes`] and [`patches_are_noted_once`] are laws: their contracts hold, and calling them does nothing.
//!
//! For the rule of the three lines `@@`, `@@` and `- f(e);`, the only note is that `e` is a plain name, at line 3, column 5.
//!
//! A note is no fault: a patch with notes is accepted, and a patch without notes may be wrong. What is found in files is left
//! to others.
#![tactic(auto)]

ghost use Rattle.std.specs.Prelude.{◌≡◌, ◌↔◌, IfOk, IsTrue};
ghost use Rattle.smpl_lexer.specs.declared.text.PatchText.{PatchText as Whole};
ghost use Rattle.smpl_lexer.specs.Texts.{IsTextOf};
ghost use Rattle.smpl_notes.specs.Notes.{AreNotes};
ghost use Rattle.smpl_patch.specs.declared.fault.PatchFault.TheVariants as patch_fault;

mod functions;
mod kind_word;
mod laws;
mod minus;
mod names;
mod note;
mod null_tests;
mod patterns;
mod placed;
mod rules;
mod sentences;
mod tokens;
mod types;
mod words;

use crate::rules::text_notes;
use c_terms::NoMemory;
pub use kind_word::KindWord;
pub use laws::{patches_are_noted_once, patches_have_notes};
pub use note::{Note, Slip, is_told, is_told_always};
pub use sentences::sentence;
use smpl_lexer::{lex_patch, patch_is_read_once};
use smpl_patch::{Patch, PatchFault};
use sqlite_items::Items;
use std::alloc::Global;

/// Whether memory ran out, so that nothing is known to be wrong with the patch.
fn is_no_memory(fault: &PatchFault) -> bool
    ensures { IsTrue result ↔ (fault.now ≡ patch_fault.NoMemory) }
{
    matches!(fault, PatchFault::NoMemory)
}

/// Returns the notes on a patch that these bytes spell: first that no line has a sign, and then those on each rule in turn.
///
/// On a rule, the notes come in the order of [`Slip`], of which the last two are one, and of one kind in the order of the patch. In
/// one rule each name is noted once, and of all tests only the first. Of a pattern with more than one form, the form that is
/// written counts.
///
/// Linear in the patch if no hashes of names collide. Recurses once per level of the patterns' trees, of which there are at
/// most 1,000, and of the body. Fails only when out of memory.
pub fn notes(alloc: Global, bytes: &[u8], patch: &Patch) -> Result<Items<Note>, NoMemory>
    requires { (text : Whole) × IsTextOf bytes.now text }
    ensures { IfOk result (λ found. AreNotes bytes.now patch.now found) }
{
    // A law: does nothing. Bytes that spell a text have no fault.
    patch_is_read_once();
    match lex_patch(alloc, bytes) {
        Ok(text) => text_notes(alloc, bytes, &text, patch.rules.as_slice()),
        Err(fault) => {
            let is_memory = is_no_memory(&fault);
            prove!(is_memory);
            Err(NoMemory)
        }
    }
}
