// From words to what they ask for.
ghost use Rattle.std.specs.Prelude.{◌≡◌, ◌≤◌, true, false, [], Some, map, option_map, is_some, IfOk, IfSome, MatchOption};
ghost use Rattle.std.specs.Option.{option_map_or};
ghost use Rattle.run_words.specs.Values.{count_in, decimal_value, names_in};
ghost use Rattle.std.specs.List.{list_all};
ghost use Rattle.std.specs.Str.{is_utf8};
ghost use Rattle.run_words.specs.Orders as spec;
ghost use Rattle.run_words.specs.Shown.{HasJobs, shown_options, shown_order, shown_value};

use crate::options::{Given, parse};
use crate::order::{Mode, Order, PatchOrder, Saying, Target};
use crate::values::{count, names, seed, unread};
use c_terms::{NoMemory, Text};
use run_choices::Unread;
use std::alloc::Global;

pub const MOST_JOBS: u64 = 64;

pub const MOST_FUNCTIONS: u64 = 100_000;

/// Returns the words as text, if each is UTF-8. Linear in the words.
pub fn utf8_words<'a>(alloc: Global, words: &'a [Text]) -> Result<Option<Vec<&'a str>>, NoMemory>
    ensures { IfOk result (λ texts. MatchOption texts (list_all is_utf8 words.entry.now ≡ false)
        (λ list. (map (λ t. t.now) list.items ≡ words.entry.now) × (list_all is_utf8 words.entry.now ≡ true))) }
{
    let mut texts = Vec::new(alloc);
    for word in words {
        match str::from_utf8(word.as_bytes()) {
            Ok(text) => texts.push(text)?,
            Err(_) => return Ok(None),
        }
    }
    Ok(Some(texts))
}

/// Returns what the words ask for, if they are a command. Takes memory in proportion to the words.
pub fn order_of<'a>(alloc: Global, words: &'a [&'a str]) -> Result<Option<Order<'a>>, NoMemory>
    requires { list_all is_utf8 (map (λ w. w.now) words.now) ≡ true }
    ensures order { IfOk result (λ order. option_map shown_order order ≡ spec.order_of (map (λ w. w.now) words.entry.now)) }

    // A patch is applied with the number of jobs that the words give.
    ensures jobs { IfOk result (λ order. IfSome order (HasJobs (spec.jobs_of (map (λ w. w.now) words.entry.now)))) }
{
    match parse(alloc, words)? {
        Some(given) => order_given(alloc, given),
        None => Ok(None),
    }
}

fn is_filled(value: Option<&str>) -> bool
    ensures { result ≡ spec.is_filled (shown_value value.entry) }
{
    match value {
        Some(text) => !text.is_empty(),
        None => true,
    }
}

/// Whether no value that is given is empty.
pub fn are_filled(given: &Given<'_>) -> bool
    ensures { result ≡ spec.are_filled (shown_options given.now) }
{
    is_filled(given.sp_file)
        && is_filled(given.iso_file)
        && is_filled(given.define)
        && is_filled(given.jobs)
        && is_filled(given.generate)
        && is_filled(given.functions)
        && is_filled(given.unread)
}

/// Whether the number of jobs is valid, if it is given.
fn has_jobs(given: &Given<'_>) -> bool
    ensures { result ≡ spec.has_jobs (shown_options given.now) }
{
    match given.jobs {
        Some(value) => count(value, MOST_JOBS).is_some(),
        None => true,
    }
}

/// Whether `--unread` has one of its values, if it is given.
fn has_unread(given: &Given<'_>) -> bool
    ensures { result ≡ spec.has_unread (shown_options given.now) }
{
    match given.unread {
        Some(value) => unread(value).is_some(),
        None => true,
    }
}

/// Returns which of the items that can't be read are told of: all if nothing is said.
fn told_in(given: &Given<'_>) -> Unread
    ensures { result ≡ spec.told_in (shown_options given.now) }
{
    match given.unread {
        Some(value) => unread(value).unwrap_or(Unread::All),
        None => Unread::All,
    }
}

/// Returns the maximum number of concurrent jobs: one if no number is given.
fn jobs_of(given: &Given<'_>) -> u32
    requires { spec.has_jobs (shown_options given.now) ≡ true }
    ensures value { result ≡ spec.jobs_in (shown_options given.now) }
    ensures some { 1 ≤ result }
    ensures few { result ≤ 64 }
{
    match given.jobs {
        Some(value) => jobs_in(value),
        None => 1,
    }
}

fn jobs_in(value: &str) -> u32
    requires { is_some (count_in 64 value.now) ≡ true }
    ensures value { result ≡ decimal_value value.now }
    ensures some { 1 ≤ result }
    ensures few { result ≤ 64 }
{
    match count(value, MOST_JOBS) {
        Some(jobs) => jobs as u32,
        None => 1,
    }
}

/// Whether a text about the program is asked for.
pub fn asks_text(given: &Given<'_>) -> bool
    ensures { result ≡ spec.asks_text (shown_options given.now) }
{
    given.help || given.version
}

/// Returns the text that is asked for: help goes before the version.
fn saying_in(given: &Given<'_>) -> Saying
    ensures { result ≡ spec.saying_in (shown_options given.now) }
{
    if given.help {
        Saying::Help
    } else {
        Saying::Version
    }
}

fn order_given<'a>(alloc: Global, given: Given<'a>) -> Result<Option<Order<'a>>, NoMemory>
    ensures order { IfOk result (λ order. option_map shown_order order ≡ spec.ordered (shown_options given.entry)) }
    ensures jobs { IfOk result (λ order. IfSome order (HasJobs (spec.jobs_in (shown_options given.entry)))) }
{
    if !are_filled(&given) {
        return Ok(None);
    }
    if asks_text(&given) {
        return Ok(Some(Order::Say(saying_in(&given))));
    }
    working(alloc, given)
}

/// Returns what is asked for without `--help` and `--version`.
fn working<'a>(alloc: Global, given: Given<'a>) -> Result<Option<Order<'a>>, NoMemory>
    ensures order { IfOk result (λ order. option_map shown_order order ≡ spec.working (shown_options given.entry)) }
    ensures jobs { IfOk result (λ order. IfSome order (HasJobs (spec.jobs_in (shown_options given.entry)))) }
{
    if !has_jobs(&given) {
        return Ok(None);
    }
    if !has_unread(&given) {
        return Ok(None);
    }
    match given.generate {
        Some(value) => Ok(generating(alloc, &given, value)),
        None => editing(alloc, given),
    }
}

/// Whether a file is given.
pub fn has_files(given: &Given<'_>) -> bool
    ensures { result ≡ spec.has_files (shown_options given.now) }
{
    !given.files.is_empty()
}

/// Whether something is given that is only allowed with files.
fn is_about_files(given: &Given<'_>) -> bool
    ensures { result ≡ spec.is_about_files (shown_options given.now) }
{
    has_files(given)
        || given.iso_file.is_some()
        || given.define.is_some()
        || given.witnesses
        || given.in_place
        || given.check
}

/// Whether a file is to be stored that is only to be checked.
pub fn stores_checked(given: &Given<'_>) -> bool
    ensures { result ≡ spec.stores_checked (shown_options given.now) }
{
    given.check && given.in_place
}

/// Whether something is given that is only allowed with a patch.
pub fn is_about_patches(given: &Given<'_>) -> bool
    ensures { result ≡ spec.is_about_patches (shown_options given.now) }
{
    given.jobs.is_some() || given.quiet || given.unread.is_some() || given.tidy
}

/// Returns what is asked for with a seed.
fn generating<'a>(alloc: Global, given: &Given<'a>, value: &str) -> Option<Order<'a>>
    requires { spec.has_jobs (shown_options given.now) ≡ true }
    ensures order { option_map shown_order result ≡ spec.generating (shown_options given.now) value.now }
    ensures jobs { IfSome result (HasJobs (spec.jobs_in (shown_options given.now))) }
{
    if is_about_files(given) {
        return None;
    }
    let seed = seed(value)?;
    let functions = count(given.functions?, MOST_FUNCTIONS)?;
    on_text(alloc, given, seed, functions as u32)
}

fn on_text<'a>(alloc: Global, given: &Given<'a>, seed: u64, functions: u32) -> Option<Order<'a>>
    requires { spec.has_jobs (shown_options given.now) ≡ true }
    ensures order { option_map shown_order result ≡ spec.on_text (shown_options given.now) seed functions }
    ensures jobs { IfSome result (HasJobs (spec.jobs_in (shown_options given.now))) }
{
    match given.sp_file {
        Some(patch) => Some(Order::Apply(PatchOrder {
            patch,
            isos: None,
            defined: Vec::new(alloc),
            target: Target::Text(seed, functions, given.quiet, told_in(given), given.tidy),
            jobs: jobs_of(given),
        })),
        None => {
            if is_about_patches(given) {
                return None;
            }
            Some(Order::Generate(seed, functions))
        }
    }
}

/// Returns what is asked for without a seed.
fn editing<'a>(alloc: Global, given: Given<'a>) -> Result<Option<Order<'a>>, NoMemory>
    requires { spec.has_jobs (shown_options given) ≡ true }
    ensures order { IfOk result (λ order. option_map shown_order order ≡ spec.editing (shown_options given.entry)) }
    ensures jobs { IfOk result (λ order. IfSome order (HasJobs (spec.jobs_in (shown_options given.entry)))) }
{
    if !has_files(&given) || given.functions.is_some() || stores_checked(&given) {
        return Ok(None);
    }
    let Some(patch) = given.sp_file else {
        return Ok(None);
    };
    let Some(defined) = defined(alloc, given.define)? else {
        return Ok(None);
    };
    let jobs = jobs_of(&given);
    let mode = Mode {
        witnesses: given.witnesses,
        in_place: given.in_place,
        check: given.check,
        quiet: given.quiet,
        unread: told_in(&given),
        tidy: given.tidy,
    };
    Ok(Some(Order::Apply(PatchOrder {
        patch,
        isos: given.iso_file,
        defined,
        target: Target::Files(mode, given.files),
        jobs,
    })))
}

/// Returns the names that are defined, if they are names of C.
fn defined(alloc: Global, value: Option<&str>) -> Result<Option<Vec<Text>>, NoMemory>
    ensures { IfOk result (λ names. option_map (λ list. list.items) names
        ≡ option_map_or names_in (shown_value value.entry) (Some [])) }
{
    match value {
        Some(value) => names(alloc, value.as_bytes()),
        None => Ok(Some(Vec::new(alloc))),
    }
}
