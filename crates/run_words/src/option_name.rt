// What the options are called, and which one a word was meant to be.
ghost use Rattle.std.specs.Prelude.{◌≡◌, IfOk};
ghost use Rattle.run_words.specs.OptionNames as spec;

use c_terms::NoMemory;
use std::alloc::Global;
use strsim::levenshtein;

/// An option.
#[derive(Clone, Copy, Debug, PartialEq, Eq)]
pub enum OptionName {
    SpFile,
    IsoFile,
    Define,
    Jobs,
    Generate,
    Functions,
    Unread,
    Witnesses,
    InPlace,
    Check,
    Quiet,
    Tidy,
    Help,
    Version,
}

impl OptionName {
    /// Returns the option as it is written.
    pub fn text(self) -> &'static str
        ensures text { result.now ≡ spec.option_text self }
    {
        match self {
            OptionName::SpFile => "--sp-file",
            OptionName::IsoFile => "--iso-file",
            OptionName::Define => "--define",
            OptionName::Jobs => "--jobs",
            OptionName::Generate => "--generate",
            OptionName::Functions => "--functions",
            OptionName::Unread => "--unread",
            OptionName::Witnesses => "--witnesses",
            OptionName::InPlace => "--in-place",
            OptionName::Check => "--check",
            OptionName::Quiet => "--quiet",
            OptionName::Tidy => "--tidy",
            OptionName::Help => "--help",
            OptionName::Version => "--version",
        }
    }
}

/// Whether Coccinelle writes this word for what the option is for.
fn is_spelling(word: &str, option: OptionName) -> bool
    ensures { result ≡ spec.is_spelling word.now option }
{
    match option {
        OptionName::SpFile => {
            word == "-sp_file"
                || word == "--sp_file"
                || word == "--cocci-file"
                || word == "-cocci_file"
        }
        OptionName::InPlace => word == "-in_place" || word == "--in_place" || word == "-inplace",
        OptionName::IsoFile => {
            word == "-iso_file" || word == "--iso_file" || word == "-iso" || word == "--iso"
        }
        OptionName::Jobs => word == "-j",
        OptionName::Define => word == "-D",
        _ => false,
    }
}

/// Whether the word is Coccinelle's for this option, or differs from it by at most two characters. Linear in the word.
fn is_near(alloc: Global, word: &str, option: OptionName) -> Result<bool, NoMemory>
    ensures { IfOk result (λ near. near ≡ spec.is_near word.now option) }
{
    let distance = levenshtein(alloc, word, option.text())?;
    Ok(is_spelling(word, option) || distance <= 2)
}

/// Returns the option if the word is near to it.
fn near_one(alloc: Global, word: &str, option: OptionName) -> Result<Option<OptionName>, NoMemory>
    ensures { IfOk result (λ near. near ≡ spec.near_one word.now option) }
{
    if is_near(alloc, word, option)? {
        Ok(Some(option))
    } else {
        Ok(None)
    }
}

/// Returns the first option that the word is near to. Linear in the word.
pub fn meant_by(alloc: Global, word: &str) -> Result<Option<OptionName>, NoMemory>
    ensures { IfOk result (λ option. option ≡ spec.meant_by word.now) }
{
    let patch = near_one(alloc, word, OptionName::SpFile)?;
    let isos = near_one(alloc, word, OptionName::IsoFile)?;
    let define = near_one(alloc, word, OptionName::Define)?;
    let jobs = near_one(alloc, word, OptionName::Jobs)?;
    let generate = near_one(alloc, word, OptionName::Generate)?;
    let functions = near_one(alloc, word, OptionName::Functions)?;
    let unread = near_one(alloc, word, OptionName::Unread)?;
    let witnesses = near_one(alloc, word, OptionName::Witnesses)?;
    let in_place = near_one(alloc, word, OptionName::InPlace)?;
    let check = near_one(alloc, word, OptionName::Check)?;
    let quiet = near_one(alloc, word, OptionName::Quiet)?;
    let tidy = near_one(alloc, word, OptionName::Tidy)?;
    let help = near_one(alloc, word, OptionName::Help)?;
    let version = near_one(alloc, word, OptionName::Version)?;
    let valued = patch
        .or(isos)
        .or(define)
        .or(jobs)
        .or(generate)
        .or(functions)
        .or(unread);
    Ok(
        valued
            .or(witnesses)
            .or(in_place)
            .or(check)
            .or(quiet)
            .or(tidy)
            .or(help)
            .or(version),
    )
}
