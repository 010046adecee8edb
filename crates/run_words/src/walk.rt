// The walk over the words that finds the first fault at one of them.
ghost use Rattle.std.specs.Prelude.{◌≡◌, [], None, Some, map, option_map, IfOk};
ghost use Rattle.c_lexer.specs.Words.{is_in};
ghost use Rattle.run_words.specs.Faults as spec;
ghost use Rattle.run_words.specs.Forms as forms;
ghost use Rattle.run_words.specs.Forms.{shown_walk};
ghost use Rattle.run_words.specs.Parts.{word_of};
ghost use Rattle.run_words.specs.OptionNames as spec_names;
ghost use Rattle.run_words.specs.declared.fault.WordFault.TheVariants as fault;

use crate::fault::WordFault;
use crate::option_name::meant_by;
use crate::word::{Form, form_of, is_option};
use c_terms::{NoMemory, Text};
use std::alloc::Global;

/// How far the walk has come.
#[derive(Drop)]
pub enum Walk<'a> {
    /// Behind options of these names, and with the name of an option whose value is the next word.
    Going(Vec<&'a [u8]>, Option<&'a [u8]>),
    /// It is over.
    Over(Option<WordFault>),
}

/// Returns `--` and the name.
fn dashed(alloc: Global, name: &[u8]) -> Result<Text, NoMemory>
    ensures { IfOk result (λ text. text ≡ spec_names.dashed name.now) }
{
    let mut text = Vec::new(alloc);
    text.extend_from_slice(b"--")?;
    text.extend_from_slice(name)?;
    Text::from_bytes(alloc, &text)
}

/// Whether one of the names is this one.
fn is_among(names: &[&[u8]], name: &[u8]) -> bool
    ensures { result ≡ is_in (map (λ n. n.now) names.now) name.now }
{
    for other in names {
        if name == *other {
            return true;
        }
    }
    false
}

/// Returns the fault of an option without its value.
fn value_absent(alloc: Global, name: &[u8]) -> Result<Option<WordFault>, NoMemory>
    ensures { IfOk result (λ found. found ≡ Some (fault.ValueAbsent (spec_names.dashed name.now))) }
{
    Ok(Some(WordFault::ValueAbsent(dashed(alloc, name)?)))
}

/// Returns the fault of an option that stands twice.
fn stands_twice(alloc: Global, name: &[u8]) -> Result<Option<WordFault>, NoMemory>
    ensures { IfOk result (λ found. found ≡ Some (fault.StandsTwice (spec_names.dashed name.now))) }
{
    Ok(Some(WordFault::StandsTwice(dashed(alloc, name)?)))
}

/// Returns an option's word without `=` and what follows.
fn written<'a>(word: &'a str) -> &'a str
    ensures { result.now ≡ spec_names.written word.now }
{
    match word.split_once('=') {
        Some((name, _)) => name,
        None => word,
    }
}

/// Whether an option that takes no value is written so.
fn is_flag(text: &str) -> bool
    ensures { result ≡ spec.is_flag text.now }
{
    text == "--witnesses"
        || text == "--in-place"
        || text == "--check"
        || text == "--quiet"
        || text == "--tidy"
        || text == "--help"
        || text == "--version"
}

/// Returns the fault at a word that is no option. Linear in the word.
fn unknown_fault(alloc: Global, word: &str) -> Result<WordFault, NoMemory>
    ensures { IfOk result (λ fault. fault ≡ spec.unknown_fault word.now) }
{
    let option = written(word);
    let text = Text::from_bytes(alloc, option.as_bytes())?;
    if is_flag(option) {
        return Ok(WordFault::TakesNone(text));
    }
    Ok(WordFault::NoSuchOption(text, meant_by(alloc, option)?))
}

/// Goes on after an option of this name, which may stand twice.
fn with_name<'a>(
    alloc: Global,
    mut names: Vec<&'a [u8]>,
    name: &'a [u8],
) -> Result<Walk<'a>, NoMemory>
    ensures { IfOk result (λ next. shown_walk next ≡ forms.with_name (map (λ n. n.now) names.entry.items) name.now) }
{
    if is_among(&names, name) {
        let fault = stands_twice(alloc, name)?;
        return Ok(Walk::Over(fault));
    }
    names.push(name)?;
    Ok(Walk::Going(names, None))
}

/// Goes on after a word that is the value of the option of this name. Linear in the word.
fn after_value<'a>(
    alloc: Global,
    names: Vec<&'a [u8]>,
    name: &'a [u8],
    word: &'a str,
) -> Result<Walk<'a>, NoMemory>
    ensures { IfOk result (λ next. shown_walk next ≡ forms.after_value (map (λ n. n.now) names.entry.items) name.now word.now) }
{
    if is_option(word.as_bytes()) {
        let fault = value_absent(alloc, name)?;
        return Ok(Walk::Over(fault));
    }
    with_name(alloc, names, name)
}

/// Goes on after a word that is no value. Linear in the word.
fn after_other<'a>(alloc: Global, names: Vec<&'a [u8]>, word: &'a str) -> Result<Walk<'a>, NoMemory>
    ensures { IfOk result (λ next. shown_walk next ≡ forms.after_other (word_of word.now) word.now (map (λ n. n.now) names.entry.items)) }
{
    match form_of(word.as_bytes()) {
        Form::End => Ok(Walk::Over(None)),
        Form::Awaits(name) => Ok(Walk::Going(names, Some(name))),
        Form::Named(name) => with_name(alloc, names, name),
        Form::Plain => Ok(Walk::Going(names, None)),
        Form::Unknown => {
            let fault = unknown_fault(alloc, word)?;
            Ok(Walk::Over(Some(fault)))
        }
    }
}

/// Goes on after a word. Linear in the word.
fn after_one<'a>(alloc: Global, walk: Walk<'a>, word: &'a str) -> Result<Walk<'a>, NoMemory>
    ensures { IfOk result (λ next. shown_walk next ≡ forms.after_one (shown_walk walk.entry) word.now) }
{
    match walk {
        Walk::Over(fault) => Ok(Walk::Over(fault)),
        Walk::Going(names, awaits) => match awaits {
            None => after_other(alloc, names, word),
            Some(name) => after_value(alloc, names, name, word),
        },
    }
}

/// Returns the fault where there are no more words, by the name of an option whose value is the next word.
fn awaited(alloc: Global, awaits: Option<&[u8]>) -> Result<Option<WordFault>, NoMemory>
    ensures { IfOk result (λ found. found ≡ forms.awaited (option_map (λ name. name.now) awaits.entry)) }
{
    match awaits {
        Some(name) => value_absent(alloc, name),
        None => Ok(None),
    }
}

/// Returns the fault where there are no more words.
fn ended(alloc: Global, walk: Walk<'_>) -> Result<Option<WordFault>, NoMemory>
    ensures { IfOk result (λ found. found ≡ forms.ended (shown_walk walk.entry)) }
{
    match walk {
        Walk::Going(_names, awaits) => awaited(alloc, awaits),
        Walk::Over(fault) => Ok(fault),
    }
}

/// Returns the first fault at one of the words. Linear in the words: there are no more names than options.
pub fn first_fault<'a>(alloc: Global, words: &[&'a str]) -> Result<Option<WordFault>, NoMemory>
    ensures { IfOk result (λ found. found ≡ spec.fault_from (map (λ w. w.now) words.now) [] None) }
{
    let mut walk = Walk::Going(Vec::new(alloc), None);
    for word in words {
        walk = after_one(alloc, walk, *word)?;
    }
    ended(alloc, walk)
}
