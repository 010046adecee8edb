// A range as it is seen: each token with its class, and with a mark if a type begins there as a member of a call's list.
ghost use Rattle.std.specs.Prelude.{◌≡◌, ◌+◌, ◌<◌, IfOk, IfErr, false, length, drop};
ghost use Rattle.c_rows.specs.Range.{NoMember, AreSeenAs};
ghost use Rattle.c_expr.specs.Recognizers.{AreRight};
ghost use Rattle.c_expr.specs.Sight.{decided, leads_before, Marked};

use crate::ParseFault;
use crate::ends::Ends;
use crate::memo::Memo;
use crate::recognizer::{recognizer, rest_at};
use crate::semicolons::Semicolons;
use c_rows::{Class, Kind, Seen, ends_member, front, group_at, leads_member, look, may_be_type};
use c_terms::{Names, Token};
use std::alloc::Global;

/// The most levels of branches that a tree may have.
pub const MOST_LEVELS: u16 = 1000;

/// Whether no expression without commas begins at `at` and ends where a member of a call's list may end.
fn has_no_member(
    alloc: Global,
    memo: &mut Memo,
    seen: &[Seen],
    at: usize,
) -> Result<bool, ParseFault>
    requires inside { at < length seen.now }
    requires right { AreRight (at + 1) seen.now memo.old.entries.items }
    ensures right { AreRight (at + 1) seen.now memo.new.entries.items }
    ensures value { IfOk result (λ none. decided none (NoMember (drop at seen.now))) }
    ensures fault { IfErr result (λ fault. fault ≡ ParseFault.NoMemory) }
{
    match recognizer(
        alloc,
        memo,
        seen,
        at + 1,
        MOST_LEVELS,
        Kind::AssignLevel,
        at,
    ) {
        Ok(found) => Ok(!ends_member(front(rest_at(seen, found.end)))),
        Err(ParseFault::NoTree) => Ok(true),
        Err(ParseFault::TooDeep) => Ok(true),
        Err(ParseFault::NoMemory) => Err(ParseFault::NoMemory),
    }
}

/// Whether a member of a call's list may begin at this place.
fn leads_before(tokens: &[Token], i: usize) -> bool
    ensures { result ≡ leads_before tokens.now i }
{
    if i == 0 {
        return false;
    }
    match tokens.get(i - 1) {
        None => false,
        Some(token) => leads_member(token),
    }
}

/// Whether the token at `at` is marked: a member of a call's list may begin there, it may be a type by its first three
/// tokens and by its end, and no expression can be that member.
fn is_marked(
    alloc: Global,
    memo: &mut Memo,
    leads: bool,
    ends: bool,
    seen: &[Seen],
    at: usize,
) -> Result<bool, ParseFault>
    requires inside { at < length seen.now }
    requires right { AreRight (at + 1) seen.now memo.old.entries.items }
    ensures right { AreRight (at + 1) seen.now memo.new.entries.items }
    ensures value { IfOk result (λ typed. Marked typed leads ends (drop at seen.now)) }
    ensures fault { IfErr result (λ fault. fault ≡ ParseFault.NoMemory) }
{
    if !leads || !ends || !may_be_type(rest_at(seen, at)) {
        return Ok(false);
    }
    memo.reach(seen.len())?;
    has_no_member(alloc, memo, seen, at)
}

/// Returns a list as long as the tokens, with placeholder classes and no marks.
fn unseen<'t>(alloc: Global, tokens: &'t [Token]) -> Result<Vec<Seen<'t>>, ParseFault>
    ensures value { IfOk result (λ seen. length seen.items ≡ length tokens.now) }
    ensures fault { IfErr result (λ fault. fault ≡ ParseFault.NoMemory) }
{
    let mut seen = Vec::with_capacity(alloc, tokens.len())?;
    for token in tokens {
        seen.push(Seen::new(token, Class::Other, false))?;
    }
    Ok(seen)
}

/// Returns the tokens as they are seen, working from the last one backwards.
///
/// Linear, except for the walks of c_rows to closing brackets. What follows `(` or `,`, in a call's list or not, and may
/// be a type by its first three tokens and by its end is read as an expression beforehand. Results for what is in
/// brackets are kept, so it is read once for each kind that is asked for, and again only for more levels.
pub fn see<'t>(
    alloc: Global,
    names: &Names,
    tokens: &'t [Token],
) -> Result<Vec<Seen<'t>>, ParseFault>
    ensures right { IfOk result (λ seen. AreSeenAs names.now false tokens.now seen.items) }
    ensures fault { IfErr result (λ fault. fault ≡ ParseFault.NoMemory) }
{
    let mut seen = unseen(alloc, tokens)?;
    let mut ends = Ends::at_end(alloc);
    let mut semicolons = Semicolons::at_end(alloc);
    let mut memo = Memo::nothing(alloc);
    let mut next = Class::End;
    let mut i = tokens.len();
    while i > 0 {
        i -= 1;
        next = look(
            names,
            &tokens[i],
            &tokens[i + 1..],
            next,
            semicolons.nearest(),
        );
        ends.pass(next)?;
        semicolons.pass(group_at(&tokens[i]))?;
        seen[i] = Seen::new(&tokens[i], next, false);
        let leads = leads_before(tokens, i);
        let ended = ends_member(ends.nearest());
        let typed = is_marked(alloc, &mut memo, leads, ended, seen.as_slice(), i)?;
        seen[i] = Seen::new(&tokens[i], next, typed);
    }
    Ok(seen)
}
