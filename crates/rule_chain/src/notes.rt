// Notes on the items that a reading skips.
ghost use Rattle.std.specs.Prelude.{◌≡◌, ◌++◌, ◌∷◌, [], List, IfOk, option_and_then, slice_get};
ghost use Rattle.std.specs.List.{list_all, list_any};
ghost use Rattle.c_terms.specs.Names.{has_name};
ghost use Rattle.smpl_patch.specs.declared.rule.Rule.{Rule};
ghost use Rattle.rule_chain.specs.RuleRun.Notes as spec;
ghost use Rattle.rule_chain.specs.RuleRun.Needed.{is_where};
ghost use Rattle.rule_chain.specs.RuleWords.{holds_kept, holds_some, kept_on};
ghost use Rattle.rule_chain.specs.Stops.{AreNumbered, told_first, told_last};

use crate::item_texts::{TextSet, item_texts};
use crate::patch_rules::PatchRules;
use crate::rule_run::SkipNote;
use c_file::CFile;
use c_lexer::{Lexed, PieceKind};
use c_terms::{NoMemory, Text};
use cpp_lines::{Item, ItemSpan};
use run_choices::Unread;
use sqlite_items::{Items, at as element_at};
use std::alloc::Global;

/// Returns the id of a token that was loaded.
fn loaded_id(loaded: u64, kind: PieceKind) -> Option<u64>
    ensures { result ≡ spec.loaded_id loaded kind }
{
    match kind {
        PieceKind::Word(_, id) if id < loaded => Some(id),
        _ => None,
    }
}

/// Returns the id of the piece with this number, if it is a token that was loaded.
fn loaded_at(loaded: u64, lexed: &Lexed, number: usize) -> Option<u64>
    ensures { result ≡ option_and_then (λ p. spec.loaded_id loaded p.kind) (slice_get lexed.now number) }
{
    if number < lexed.count() {
        loaded_id(loaded, lexed.piece(number).kind)
    } else {
        None
    }
}

/// Returns the id of the first of an item's visible tokens that was loaded. Linear in the item.
fn item_token(loaded: u64, file: &CFile, span: ItemSpan) -> Option<u64>
    ensures { result ≡ spec.item_token loaded file.now span }
{
    let shown = file.shown();
    let end = (span.last as usize).min(shown.len());
    for place in span.first as usize..end {
        let id = loaded_at(loaded, file.lexed(), shown[place] as usize);
        if id.is_some() {
            return id;
        }
    }
    None
}

/// Appends a note on the item with this number if it is skipped.
fn with_note(
    skipped: Items<SkipNote>,
    loaded: u64,
    reading: u32,
    file: &CFile,
    at: u32,
    item: &Item,
) -> Result<Items<SkipNote>, NoMemory>
    ensures { IfOk result (λ now. now ≡ skipped ++ spec.notes_from loaded reading file.now at (item.now ∷ [])) }
{
    let mut skipped = skipped;
    if let Item::Skipped(span, why) = item {
        skipped.push(SkipNote {
            reading,
            item: at,
            why: *why,
            token: item_token(loaded, file, *span),
        })?;
    }
    Ok(skipped)
}

/// Appends the notes on a reading of a file of which the first `loaded` ids were loaded. Linear in the items that are skipped.
fn with_notes(
    skipped: Items<SkipNote>,
    loaded: u64,
    reading: u32,
    file: &CFile,
) -> Result<Items<SkipNote>, NoMemory>
    ensures { IfOk result (λ now. now ≡ skipped ++ spec.notes_on loaded reading file.now) }
{
    let items = file.items();
    if items.len() > u32::MAX as usize {
        return Err(NoMemory);
    }
    let mut skipped = skipped;
    for at in 0..items.len() {
        skipped = with_note(skipped, loaded, reading, file, at as u32, &items[at])?;
    }
    Ok(skipped)
}

/// A reading, to tell notes on it.
#[derive(Clone, Copy)]
pub struct NotedReading<'f> {
    pub file: &'f CFile,
    /// The number of the reading.
    pub number: u32,
    /// How many tokens the text that was loaded has: their ids are those below.
    pub loaded: u64,
}

/// Whether each of the words is among the texts. One look-up for each word, up to the first that isn't.
fn has_all(texts: &TextSet, words: &[Text]) -> bool
    ensures { result ≡ list_all (has_name texts.now) words.now }
{
    words.iter().all(|word| texts.has(word.as_bytes()))
}

/// Whether all words that the rule with this number needs are among the texts.
fn has_kept(texts: &TextSet, words: &[Items<Text>], number: u32) -> bool
    ensures { result ≡ holds_kept (has_name texts.now) words.now number }
{
    match element_at(words, number as usize) {
        Some(kept) => has_all(texts, kept.as_slice()),
        None => false,
    }
}

/// Whether all words that one of the rules with these numbers needs are among the texts.
fn has_some(texts: &TextSet, words: &[Items<Text>], ran: &[u32]) -> bool
    ensures { result ≡ list_any (holds_kept (has_name texts.now) words.now) ran.now }
{
    ran.iter().any(|number| has_kept(texts, words, *number))
}

/// Whether the item has all words that one of the rules with these numbers needs.
///
/// Linear in the item, if no hashes of texts collide, and for each of the rules in the item or in the rule's words, whichever
/// are fewer.
fn may_match(
    alloc: Global,
    words: &[Items<Text>],
    ran: &[u32],
    file: &CFile,
    span: ItemSpan,
) -> Result<bool, NoMemory>
    ensures { IfOk result (λ may. may ≡ holds_some words.now ran.now file.now span) }
{
    let texts = item_texts(alloc, file, span)?;
    Ok(has_some(&texts, words, ran))
}

/// Whether the item is skipped and has all words that one of the rules with these numbers needs.
fn is_kept(
    alloc: Global,
    words: &[Items<Text>],
    ran: &[u32],
    file: &CFile,
    item: &Item,
) -> Result<bool, NoMemory>
    ensures { IfOk result (λ kept. kept ≡ is_where (holds_some words.now ran.now file.now) item.now) }
{
    match item {
        Item::Skipped(span, _) => may_match(alloc, words, ran, file, *span),
        Item::Parsed(_) => Ok(false),
    }
}

/// Appends the notes on the needed items of a reading, given the numbers of the rules that ran over it.
///
/// For each item that is skipped one look at its tokens, and for each rule that ran at most one at each of the rule's words, up
/// to the first that the item lacks.
fn with_needed(
    alloc: Global,
    words: &[Items<Text>],
    skipped: Items<SkipNote>,
    reading: &NotedReading<'_>,
    ran: &[u32],
) -> Result<Items<SkipNote>, NoMemory>
    ensures { IfOk result (λ now. now ≡ skipped
        ++ kept_on words.now ran.now reading.now.loaded reading.now.number reading.now.file.now) }
{
    let file = reading.file;
    let items = file.items();
    if items.len() > u32::MAX as usize {
        return Err(NoMemory);
    }
    let mut skipped = skipped;
    for at in 0..items.len() {
        let kept = is_kept(alloc, words, ran, file, &items[at])?;
        if kept {
            skipped = with_note(
                skipped,
                reading.loaded,
                reading.number,
                file,
                at as u32,
                &items[at],
            )?;
        }
    }
    Ok(skipped)
}

/// Appends the notes on a reading that are told before rules run over it: all of them, or none.
pub fn with_first(
    unread: Unread,
    skipped: Items<SkipNote>,
    loaded: u64,
    reading: u32,
    file: &CFile,
) -> Result<Items<SkipNote>, NoMemory>
    ensures { IfOk result (λ now. now ≡ skipped ++ told_first unread loaded reading file.now) }
{
    match unread {
        Unread::All => with_notes(skipped, loaded, reading, file),
        Unread::Needed => Ok(skipped),
        Unread::None => Ok(skipped),
    }
}

/// Appends the notes on a reading that are told after the rules with these numbers ran over it: those on needed items, or none.
pub fn with_last(
    alloc: Global,
    rules: &PatchRules<'_>,
    skipped: Items<SkipNote>,
    reading: &NotedReading<'_>,
    ran: &[u32],
) -> Result<Items<SkipNote>, NoMemory>
    ensures { IfOk result (λ now. (ran_rules : List Rule) → AreNumbered rules.now.patch.now.rules ran_rules ran.now
        → now ≡ skipped ++ told_last rules.now.unread ran_rules reading.now.loaded reading.now.number reading.now.file.now) }
{
    match rules.unread {
        Unread::All => Ok(skipped),
        Unread::Needed => with_needed(alloc, rules.words, skipped, reading, ran),
        Unread::None => Ok(skipped),
    }
}
