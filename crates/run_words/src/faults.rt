// The first fault of words that are no command.
ghost use Rattle.std.specs.Prelude.{◌≡◌, ◌≤◌, ℕ, List, not, true, false, Some, map, length, is_some, IfOk};
ghost use Rattle.std.specs.List.{list_all, prefix_len};
ghost use Rattle.std.specs.Str.{is_utf8};
ghost use Rattle.run_words.specs.Faults as spec;
ghost use Rattle.run_words.specs.OptionNames.{first_of};
ghost use Rattle.run_words.specs.Orders.{order_of};
ghost use Rattle.run_words.specs.Shown.{shown_options, shown_value};
ghost use Rattle.run_words.specs.declared.fault.WordFault.TheVariants as fault;

use crate::fault::{Need, WordFault};
use crate::option_name::{OptionName, meant_by};
use crate::options::{Given, parse};
use crate::values::{count, names, seed, unread};
use crate::walk::first_fault;
use crate::words::{
    MOST_FUNCTIONS, MOST_JOBS, are_filled, asks_text, has_files, is_about_patches, stores_checked,
};
use c_terms::{NoMemory, Text};
use std::alloc::Global;

/// Returns the fault of words of which one isn't UTF-8: the first such word. Linear in the words.
pub fn text_fault(words: &[Text]) -> WordFault
    requires { list_all is_utf8 words.now ≡ false }
    ensures fault { Some result ≡ spec.word_fault words.now }
{
    WordFault::NotText(texts_before(words) + 1)
}

/// Returns how many words are UTF-8 before the first that isn't.
fn texts_before(words: &[Text]) -> usize
    ensures within { result ≤ length words.now }
    ensures first { result ≡ prefix_len is_utf8 words.now }
{
    words.iter().take_while(|word| is_text(word)).count()
}

/// Whether a word is UTF-8.
fn is_text(word: &Text) -> bool
    ensures { result ≡ is_utf8 word.now }
{
    str::from_utf8(word.as_bytes()).is_ok()
}

/// Whether a text is a value for an option that takes one.
fn is_value(alloc: Global, option: OptionName, text: &str) -> Result<bool, NoMemory>
    ensures { IfOk result (λ good. good ≡ spec.is_value option text.now) }
{
    match option {
        OptionName::Define => Ok(names(alloc, text.as_bytes())?.is_some()),
        OptionName::Jobs => Ok(count(text, MOST_JOBS).is_some()),
        OptionName::Generate => Ok(seed(text).is_some()),
        OptionName::Functions => Ok(count(text, MOST_FUNCTIONS).is_some()),
        OptionName::Unread => Ok(unread(text).is_some()),
        _ => Ok(!text.is_empty()),
    }
}

/// Returns the fault of an option's value.
fn bad_value(
    alloc: Global,
    option: OptionName,
    value: Option<&str>,
) -> Result<Option<WordFault>, NoMemory>
    ensures { IfOk result (λ fault. fault ≡ spec.bad_text option (shown_value value.entry)) }
{
    let Some(text) = value else {
        return Ok(None);
    };
    if is_value(alloc, option, text)? {
        return Ok(None);
    }
    Ok(Some(WordFault::BadValue(option, Text::from_bytes(alloc, text.as_bytes())?)))
}

/// Returns the first fault of a value.
fn value_fault(alloc: Global, given: &Given<'_>) -> Result<Option<WordFault>, NoMemory>
    ensures { IfOk result (λ fault. fault ≡ spec.value_fault (shown_options given.now)) }
{
    let patch = bad_value(alloc, OptionName::SpFile, given.sp_file)?;
    let isos = bad_value(alloc, OptionName::IsoFile, given.iso_file)?;
    let define = bad_value(alloc, OptionName::Define, given.define)?;
    let jobs = bad_value(alloc, OptionName::Jobs, given.jobs)?;
    let generate = bad_value(alloc, OptionName::Generate, given.generate)?;
    let functions = bad_value(alloc, OptionName::Functions, given.functions)?;
    let unread = bad_value(alloc, OptionName::Unread, given.unread)?;
    Ok(
        patch
            .or(isos)
            .or(define)
            .or(jobs)
            .or(generate)
            .or(functions)
            .or(unread),
    )
}

/// Returns the fault if it is one.
fn told_if(holds: bool, fault: WordFault) -> Option<WordFault>
    ensures { result ≡ spec.told_if holds fault }
{
    if holds { Some(fault) } else { None }
}

/// Returns the first thing that is needed and absent.
fn need_fault(given: &Given<'_>) -> Option<WordFault>
    ensures { result ≡ spec.need_fault (shown_options given.now) }
{
    told_if(lacks_patch(given), WordFault::Needed(Need::Patch))
        .or(told_if(lacks_file(given), WordFault::Needed(Need::File)))
        .or(told_if(lacks_functions(given), WordFault::Needed(Need::Functions)))
}

/// Whether the patch is needed and absent.
fn lacks_patch(given: &Given<'_>) -> bool
    ensures { result ≡ spec.lacks_patch (shown_options given.now) }
{
    given.sp_file.is_none() && (given.generate.is_none() || is_about_patches(given))
}

/// Whether a file is needed and absent.
fn lacks_file(given: &Given<'_>) -> bool
    ensures { result ≡ spec.lacks_file (shown_options given.now) }
{
    !has_files(given) && given.generate.is_none()
}

/// Whether the number of functions is needed and absent.
fn lacks_functions(given: &Given<'_>) -> bool
    ensures { result ≡ spec.lacks_functions (shown_options given.now) }
{
    given.functions.is_none() && given.generate.is_some()
}

/// Returns the first two things that don't go together.
fn apart_fault(given: &Given<'_>) -> Option<WordFault>
    ensures { result ≡ spec.apart_fault (shown_options given.now) }
{
    if given.generate.is_some() {
        return file_fault(given);
    }
    edit_fault(given)
}

/// Returns the first two things that don't go together without `--generate`.
fn edit_fault(given: &Given<'_>) -> Option<WordFault>
    ensures { result ≡ first_of (spec.edit_faults (shown_options given.now)) }
{
    let alone = WordFault::ApartFromFiles(OptionName::Functions);
    let functions = told_if(given.functions.is_some(), alone);
    let stored = stores_checked(given);
    functions.or(apart_if(stored, OptionName::Check, OptionName::InPlace))
}

/// Returns the first thing that is only allowed with files, and so doesn't go with a generated text.
fn file_fault(given: &Given<'_>) -> Option<WordFault>
    ensures { result ≡ first_of (spec.file_faults (shown_options given.now)) }
{
    let generate = OptionName::Generate;
    told_if(has_files(given), WordFault::ApartFromFiles(generate))
        .or(apart_if(given.iso_file.is_some(), generate, OptionName::IsoFile))
        .or(apart_if(given.define.is_some(), generate, OptionName::Define))
        .or(apart_if(given.witnesses, generate, OptionName::Witnesses))
        .or(apart_if(given.in_place, generate, OptionName::InPlace))
        .or(apart_if(given.check, generate, OptionName::Check))
}

/// Returns the fault of two options that don't go together, if it is one.
fn apart_if(holds: bool, one: OptionName, other: OptionName) -> Option<WordFault>
    ensures { result ≡ spec.told_if holds (fault.Apart one other) }
{
    told_if(holds, WordFault::Apart(one, other))
}

/// Whether a text about the program is asked for, and no value is empty.
fn asks_only(given: &Given<'_>) -> bool
    ensures { result ≡ spec.asks_only (shown_options given.now) }
{
    are_filled(given) && asks_text(given)
}

/// Returns the fault of options that are no command.
fn options_fault(alloc: Global, given: &Given<'_>) -> Result<Option<WordFault>, NoMemory>
    ensures { IfOk result (λ fault. fault ≡ spec.options_fault (shown_options given.now)) }
{
    if asks_only(given) {
        return Ok(None);
    }
    let value = value_fault(alloc, given)?;
    Ok(value.or(need_fault(given)).or(apart_fault(given)))
}

/// Returns why the words are no command: the first fault that is told. Returns `None` if they are one. Takes memory in
/// proportion to the words, and time too.
pub fn word_fault<'a>(alloc: Global, words: &'a [&'a str]) -> Result<Option<WordFault>, NoMemory>
    requires { list_all is_utf8 (map (λ w. w.now) words.now) ≡ true }
    ensures fault { IfOk result (λ fault. fault ≡ spec.word_fault (map (λ w. w.now) words.entry.now)) }
{
    let fault = first_fault(alloc, words)?;
    if fault.is_some() {
        return Ok(fault);
    }
    match parse(alloc, words)? {
        Some(given) => options_fault(alloc, &given),
        None => Ok(None),
    }
}

/// Words have a fault exactly where they are no command. Does nothing.
pub fn faults_are_all()
    ensures { (words : List (List ℕ)) → is_some (spec.word_fault words) ≡ not (is_some (order_of words)) }
{}
