// The options, as `clap` parses them.
ghost use Rattle.std.specs.Prelude.{◌≡◌, true, false, [], map, option_map, codes, IfOk};
ghost use Rattle.std.specs.Option.{option_map_or};
ghost use Rattle.std.specs.List.{list_all};
ghost use Rattle.std.specs.Str.{is_utf8};
ghost use Rattle.clap.specs.Words.{app_of, found_of, matched_of, raw_values, rule_of};
ghost use Rattle.run_words.specs.Commands.{valued_new, flag_new, files_new, spatch_app};
ghost use Rattle.run_words.specs.Options as spec;
ghost use Rattle.run_words.specs.Shown.{IsFound, shown_options};

use c_terms::NoMemory;
use clap::error::ErrorKind;
use clap::{Arg, ArgAction, ArgMatches, Command};
use std::alloc::{AllocError, Global};

/// Returns an option that takes a value.
fn valued<'a>(alloc: Global, name: &'a str) -> Arg<'a>
    ensures rule { rule_of result ≡ valued_new name.entry.now }
    ensures local { result.global ≡ false }
{
    Arg::new(alloc, name).long(name).action(ArgAction::Set)
}

/// Returns an option that takes no value.
fn flag<'a>(alloc: Global, name: &'a str) -> Arg<'a>
    ensures rule { rule_of result ≡ flag_new name.entry.now }
    ensures local { result.global ≡ false }
{
    Arg::new(alloc, name).long(name).action(ArgAction::SetTrue)
}

/// Returns the positional argument: the words that aren't options.
fn files<'a>(alloc: Global) -> Arg<'a>
    ensures rule { rule_of result ≡ files_new }
    ensures local { result.global ≡ false }
{
    Arg::new(alloc, "FILE").action(ArgAction::Append)
}

/// Returns the command with all its options. Their combinations are checked later.
fn command<'a>(alloc: Global) -> Result<Command<'a>, AllocError>
    ensures { IfOk result (λ command. app_of command ≡ spatch_app) }
{
    Command::new(alloc, "spatch")
        .no_binary_name(true)
        .disable_help_flag(true)
        .arg(valued(alloc, "sp-file"))?
        .arg(valued(alloc, "iso-file"))?
        .arg(valued(alloc, "define"))?
        .arg(valued(alloc, "jobs"))?
        .arg(valued(alloc, "generate"))?
        .arg(valued(alloc, "functions"))?
        .arg(valued(alloc, "unread"))?
        .arg(flag(alloc, "witnesses"))?
        .arg(flag(alloc, "in-place"))?
        .arg(flag(alloc, "check"))?
        .arg(flag(alloc, "quiet"))?
        .arg(flag(alloc, "tidy"))?
        .arg(flag(alloc, "help"))?
        .arg(flag(alloc, "version"))?
        .arg(files(alloc))
}

/// The options by name, and the words that aren't options.
#[derive(Drop)]
pub struct Given<'a> {
    pub sp_file: Option<&'a str>,
    pub iso_file: Option<&'a str>,
    pub define: Option<&'a str>,
    pub jobs: Option<&'a str>,
    pub generate: Option<&'a str>,
    pub functions: Option<&'a str>,
    pub unread: Option<&'a str>,
    pub witnesses: bool,
    pub in_place: bool,
    pub check: bool,
    pub quiet: bool,
    pub tidy: bool,
    pub help: bool,
    pub version: bool,
    pub files: Vec<&'a str>,
}

fn files_of<'a>(alloc: Global, matches: &ArgMatches<'a>) -> Result<Vec<&'a str>, AllocError>
    ensures { IfOk result (λ files. map (λ name. name.now) files.items
        ≡ option_map_or raw_values (matched_of (found_of matches.now) (codes "FILE")) []) }
{
    match matches.get_strs("FILE") {
        Some(names) => Vec::from_slice(alloc, names),
        None => Ok(Vec::new(alloc)),
    }
}

fn read<'a>(alloc: Global, matches: &ArgMatches<'a>) -> Result<Given<'a>, AllocError>
    ensures { IfOk result (λ given. IsFound (found_of matches.now) (shown_options given)) }
{
    let files = files_of(alloc, matches)?;
    Ok(Given {
        sp_file: matches.get_str("sp-file"),
        iso_file: matches.get_str("iso-file"),
        define: matches.get_str("define"),
        jobs: matches.get_str("jobs"),
        generate: matches.get_str("generate"),
        functions: matches.get_str("functions"),
        unread: matches.get_str("unread"),
        witnesses: matches.get_flag("witnesses"),
        in_place: matches.get_flag("in-place"),
        check: matches.get_flag("check"),
        quiet: matches.get_flag("quiet"),
        tidy: matches.get_flag("tidy"),
        help: matches.get_flag("help"),
        version: matches.get_flag("version"),
        files,
    })
}

/// Parses the words, and returns the options that they give. Returns `None` if the command doesn't accept them.
pub fn parse<'a>(alloc: Global, words: &'a [&'a str]) -> Result<Option<Given<'a>>, NoMemory>
    requires { list_all is_utf8 (map (λ w. w.now) words.now) ≡ true }
    ensures { IfOk result (λ given. option_map shown_options given
        ≡ spec.options_of (map (λ w. w.now) words.entry.now)) }
{
    let command = command(alloc)?;
    match command.try_get_matches_from(words) {
        Ok(matches) => Ok(Some(read(alloc, &matches)?)),
        Err(error) => match error.kind() {
            ErrorKind::OutOfMemory => Err(NoMemory),
            _ => Ok(None),
        },
    }
}
