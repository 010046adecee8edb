// The notes on the rules of a patch.
ghost use Rattle.std.specs.Prelude.{◌≡◌, ◌<◌, ◌^◌, map, length, slice_get, IfOk};
ghost use Rattle.smpl_lexer.specs.Texts.{IsSmall};
ghost use Rattle.smpl_notes.specs.Notes as spec;

use crate::functions::put_functions;
use crate::minus::put_minuses;
use crate::names::put_names;
use crate::note::{Found, Note};
use crate::null_tests::put_tests;
use crate::patterns::patterns_of;
use crate::placed::places_of;
use crate::types::type_notes;
use crate::words::{Words, declared_words};
use c_terms::NoMemory;
use smpl_lexer::{BodyLine, PatchText, RuleText};
use smpl_meta::{Placed, pattern_tokens};
use smpl_patch::Rule;
use sqlite_items::{Items, at};
use std::alloc::Global;
use text_places::{Place, Places};

fn is_unsigned_line(line: &BodyLine) -> bool
    ensures { result ≡ spec.is_unsigned_line line.now }
{
    line.sign == b' '
}

/// Whether no line of the rule's body has a sign.
fn is_unsigned(rule: &RuleText) -> bool
    ensures { result ≡ spec.is_unsigned rule.now }
{
    rule.body
        .as_slice()
        .iter()
        .all(|line| is_unsigned_line(line))
}

fn are_unsigned(rules: &[RuleText]) -> bool
    ensures { result ≡ spec.are_unsigned rules.now }
{
    rules.iter().all(|rule| is_unsigned(rule))
}

/// Returns the note that no line has a sign, if that is so.
fn sign_notes(alloc: Global, rules: &[RuleText]) -> Result<Items<Note>, NoMemory>
    ensures { IfOk result (λ found. found ≡ spec.sign_notes rules.now) }
{
    let mut found = Items::new(alloc);
    if are_unsigned(rules) {
        found.push(Note::NoSign)?;
    }
    Ok(found)
}

/// Returns what is probably a mistake in a rule, given its pattern tokens and the words of all declarations.
fn slips_of(
    alloc: Global,
    placed: &[Placed],
    declared: &Words,
    rule: &Rule,
) -> Result<Items<Found>, NoMemory>
    ensures { IfOk result (λ found. found ≡ spec.slips placed.now declared.now rule.now) }
{
    let patterns = patterns_of(alloc, rule.body.as_slice())?;
    let mut found = Items::new(alloc);
    put_minuses(placed, patterns.as_slice(), &mut found)?;
    put_functions(rule.mode, rule.body.as_slice(), &mut found)?;
    put_names(alloc, declared, patterns.as_slice(), &mut found)?;
    put_tests(patterns.as_slice(), &mut found)?;
    Ok(found)
}

/// Returns the place of the token with this number, if there is one.
fn place_at(table: &[Place], token: u64) -> Option<Place>
    ensures { result ≡ slice_get table.now token }
{
    at(table, token as usize).copied()
}

/// Returns the notes on a rule of this number, given the places of its tokens.
fn notes_at(
    alloc: Global,
    number: u32,
    table: &[Place],
    slips: &[Found],
) -> Result<Items<Note>, NoMemory>
    ensures { IfOk result (λ notes. notes ≡ map (spec.note number table.now) slips.now) }
{
    let mut notes = Items::new(alloc);
    for f in slips {
        notes.push(Note::InRule(number, place_at(table, f.token), f.slip.copy(alloc)?))?;
    }
    Ok(notes)
}

/// Returns the notes on a rule, given its number and its text.
fn rule_notes(
    alloc: Global,
    declared: &Words,
    places: &mut Places<'_>,
    number: u32,
    text: &RuleText,
    rule: &Rule,
) -> Result<Items<Note>, NoMemory>
    requires { length text.now.body < 2 ^ 32 }
    ensures notes { IfOk result (λ notes. notes ≡ spec.rule_notes places.old declared.now number text.now rule.now) }
    ensures same { places.new ≡ places.old }
{
    let on_types = type_notes(alloc, places, number, text.decls.as_slice())?;
    let placed = pattern_tokens(alloc, rule.vars.as_slice(), text.body.as_slice())?;
    let table = places_of(alloc, places, placed.as_slice())?;
    let slips = slips_of(alloc, placed.as_slice(), declared, rule)?;
    let mut notes = notes_at(alloc, number, table.as_slice(), slips.as_slice())?;
    notes.append(on_types)?;
    Ok(notes)
}

/// Returns the notes on the rules of a text.
pub fn text_notes(
    alloc: Global,
    bytes: &[u8],
    text: &PatchText,
    rules: &[Rule],
) -> Result<Items<Note>, NoMemory>
    requires { IsSmall text.now }
    ensures { IfOk result (λ found. found ≡ spec.notes bytes.now text.now rules.now) }
{
    let texts = text.rules.as_slice();
    let declared = declared_words(alloc, texts)?;
    let mut places = Places::of(bytes);
    let mut found = sign_notes(alloc, texts)?;
    let count = texts.len().min(rules.len());
    for i in 0..count {
        let rule_text = &texts[i];
        let rule = &rules[i];
        let more = rule_notes(alloc, &declared, &mut places, i as u32, rule_text, rule)?;
        found.append(more)?;
    }
    Ok(found)
}
