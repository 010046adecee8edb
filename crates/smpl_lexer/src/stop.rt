// What is wrong with the tokens of a line.
ghost use Rattle.std.specs.Prelude.{◌≡◌};
ghost use Rattle.smpl_patch.specs.Faults.{first_from};
ghost use Rattle.smpl_lexer.specs.Headers as ahead;
ghost use Rattle.smpl_lexer.specs.CutLines as lines;
ghost use Rattle.smpl_lexer.specs.Texts as texts;

use crate::places::{
    HeaderPlace, VirtualPlace, header_ends, header_step, virtual_ends, virtual_step,
};
use crate::section::{Role, Section};
use crate::token::{PatchToken, is_at, is_word};
use smpl_patch::{PatchFault, earlier};

/// Returns where a line before the first rule can't continue.
fn virtual_stop(tokens: &[PatchToken], end: u32) -> Option<u32>
    ensures { result ≡ ahead.virtual_stop tokens.now end }
{
    let mut place = VirtualPlace::Start;
    for t in tokens {
        match virtual_step(place, t) {
            None => return Some(t.at),
            Some(next) => place = next,
        }
    }
    if virtual_ends(place) { None } else { Some(end) }
}

/// Returns where a header can't continue.
fn header_stop(tokens: &[PatchToken], end: u32) -> Option<u32>
    ensures { result ≡ ahead.header_stop tokens.now end }
{
    let mut place = HeaderPlace::Start;
    for t in tokens {
        match header_step(place, t) {
            None => return Some(t.at),
            Some(next) => place = next,
        }
    }
    if header_ends(place) { None } else { Some(end) }
}

fn with_stop(first: Option<PatchFault>, stop: Option<u32>) -> Option<PatchFault>
    ensures { result ≡ first_from first (ahead.stop_faults stop) }
{
    match stop {
        None => first,
        Some(at) => Some(earlier(first, PatchFault::BadHeader(at))),
    }
}

/// Whether the token is the second one in the header of a rule in a script language.
fn is_script(t: &PatchToken) -> bool
    ensures { result ≡ ahead.is_script t.now }
{
    is_word(t, b"script") || is_word(t, b"initialize") || is_word(t, b"finalize")
}

fn has_script(tokens: &[PatchToken]) -> bool
    ensures { result ≡ ahead.has_script tokens.now }
{
    match tokens {
        [_, t, ..] => is_script(t),
        _ => false,
    }
}

fn with_script(first: Option<PatchFault>, start: u32, script: bool) -> Option<PatchFault>
    ensures { result ≡ first_from first (ahead.script_faults script start) }
{
    if script {
        Some(earlier(first, PatchFault::ScriptRule(start)))
    } else {
        first
    }
}

fn is_second(tokens: &[PatchToken]) -> bool
    ensures { result ≡ ahead.is_second tokens.now }
{
    match tokens {
        [a, b] => is_at(a) && is_at(b),
        _ => false,
    }
}

fn with_second(first: Option<PatchFault>, start: u32, second: bool) -> Option<PatchFault>
    ensures { result ≡ first_from first (ahead.second_faults second start) }
{
    if second {
        first
    } else {
        Some(earlier(first, PatchFault::BadHeader(start)))
    }
}

/// Returns the first fault so far, those of the tokens of a line included.
pub fn with_role(
    first: Option<PatchFault>,
    role: Role,
    start: u32,
    tokens: &[PatchToken],
    end: u32,
) -> Option<PatchFault>
    ensures { result ≡ first_from first (lines.role_faults role start tokens.now end) }
{
    match role {
        Role::Virtual => with_stop(first, virtual_stop(tokens, end)),
        Role::Header => {
            let first = with_script(first, start, has_script(tokens));
            with_stop(first, header_stop(tokens, end))
        }
        Role::Declaration => first,
        Role::Second => with_second(first, start, is_second(tokens)),
        Role::Body => first,
    }
}

/// Returns the first fault so far, that of the text's end included.
pub fn with_end(first: Option<PatchFault>, section: Section, end: u32) -> Option<PatchFault>
    ensures { result ≡ first_from first (texts.end_faults section end) }
{
    match section {
        Section::Declarations => Some(earlier(first, PatchFault::BadHeader(end))),
        Section::Before => first,
        Section::Body => first,
    }
}
