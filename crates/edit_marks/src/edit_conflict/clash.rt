// Whether two edits clash.
ghost use Rattle.std.specs.Prelude.{◌≡◌, ◌<◌, ◌≤◌, ◌&&◌, ◌||◌, ◌==◌, IfNone, IfSome, None as Nothing, fold, length};
ghost use Rattle.std.specs.List.{prefix_len};
ghost use Rattle.edit_marks.specs.EditConflict.Clashes.{IsClash, IsFirstClash};
ghost use Rattle.edit_marks.specs.EditConflict.Scan.{acts_with, acts_of_both, no_acts, conflicts, conflicts_on, implies, are_among, settled_at, first_met, is_of};
ghost use Rattle.edit_marks.specs.declared.edit_conflict.clash.Clash.{Clash as Pair};

use crate::edit_conflict::edit::Side;
use crate::edit_conflict::list::EditList;
use crate::edit_conflict::mark::{Act, Mark};

/// Two edits that clash, by their numbers, and the token at which they clash.
#[derive(Clone, Copy, Debug, PartialEq, Eq)]
pub struct Clash {
    pub token: u32,
    pub first: usize,
    pub second: usize,
}

/// All that an edit does at a token.
#[derive(Clone, Copy, Debug)]
pub struct Acts {
    removes: bool,
    before: bool,
    after: bool,
    /// Whether an insert before the token is not from `++` lines.
    alone_before: bool,
    /// Whether an insert after the token is not from `++` lines.
    alone_after: bool,
}

/// Acts at a token that conflict with no act of a later edit.
#[derive(Clone, Copy, Debug)]
pub struct Settled {
    token: u32,
    acts: Acts,
}

/// Returns the clash at the least token, and there the one with the least pair of numbers. Takes no memory, and is linear in
/// what the edits do: at one token at most five edits are compared with all that follow there, since each of these does
/// something that none of the edits before it does.
pub fn first_clash(edits: &EditList) -> Option<Clash>
    ensures none { IfNone result ((c : Pair) → ¬ IsClash edits.now c) }
    ensures first { IfSome result (λ c. IsFirstClash edits.now c) }
{
    let _differ = edits.edits();
    let marks = edits.marks();
    let mut settled = Settled {
        token: 0,
        acts: no_acts(),
    };
    let mut at = 0;
    while at < marks.len() {
        let Mark { token, edit, .. } = marks[at];
        let end = at + run_length(&marks[at..], token, edit);
        let acts = acts_of(&marks[at..end]);
        let known = settled_at(settled, token);
        if let Some(second) = first_met_but(known, acts, token, &marks[end..]) {
            return Some(Clash {
                token,
                first: edit,
                second,
            });
        }
        settled = Settled {
            token,
            acts: acts_of_both(known, acts),
        };
        at = end;
    }
    None
}

fn no_acts() -> Acts
    ensures { result ≡ no_acts }
{
    Acts {
        removes: false,
        before: false,
        after: false,
        alone_before: false,
        alone_after: false,
    }
}

/// Returns the acts at this token that conflict with no act of a later edit.
fn settled_at(settled: Settled, token: u32) -> Acts
    ensures { result ≡ settled_at settled token }
{
    if settled.token == token {
        settled.acts
    } else {
        no_acts()
    }
}

/// Returns the acts of both.
fn acts_of_both(a: Acts, b: Acts) -> Acts
    ensures { result ≡ acts_of_both a b }
{
    Acts {
        removes: a.removes || b.removes,
        before: a.before || b.before,
        after: a.after || b.after,
        alone_before: a.alone_before || b.alone_before,
        alone_after: a.alone_after || b.alone_after,
    }
}

fn implies(a: bool, b: bool) -> bool
    ensures { result ≡ implies a b }
{
    if a { b } else { true }
}

/// Whether each of `these` acts is among `those`.
fn are_among(those: Acts, these: Acts) -> bool
    ensures { result ≡ are_among those these }
{
    implies(these.removes, those.removes)
        && implies(these.before, those.before)
        && implies(these.after, those.after)
        && implies(these.alone_before, those.alone_before)
        && implies(these.alone_after, those.alone_after)
}

/// Returns how many acts at the front are of this edit at this token.
fn run_length(marks: &[Mark], token: u32, edit: usize) -> usize
    ensures value { result ≡ prefix_len (is_of token edit) marks.now }
    ensures within { result ≤ length marks.now }
{
    marks
        .iter()
        .take_while(|mark| mark.token == token && mark.edit == edit)
        .count()
}

/// Returns all these acts together.
fn acts_of(marks: &[Mark]) -> Acts
    ensures { result ≡ fold (λ acts m. acts_with acts m.act) no_acts marks.now }
{
    let mut acts = no_acts();
    for mark in marks {
        acts = acts_with(acts, mark.act);
    }
    acts
}

fn acts_with(acts: Acts, act: Act) -> Acts
    ensures { result ≡ acts_with acts act }
{
    let mut acts = acts;
    match act {
        Act::Remove => acts.removes = true,
        Act::Insert(Side::Before, many, _) => {
            acts.before = true;
            acts.alone_before = acts.alone_before || !many;
        }
        Act::Insert(Side::After, many, _) => {
            acts.after = true;
            acts.alone_after = acts.alone_after || !many;
        }
    }
    acts
}

/// Returns the edit of the first act at this token that conflicts with `acts` of another edit. No act at this token
/// conflicts with `known`.
fn first_met_but(known: Acts, acts: Acts, token: u32, marks: &[Mark]) -> Option<usize>
    requires { first_met (conflicts known) token marks.now ≡ Nothing }
    ensures { result ≡ first_met (conflicts acts) token marks.now }
{
    if are_among(known, acts) {
        return None;
    }
    first_met(acts, token, marks)
}

/// Returns the edit of the first act at this token that conflicts with `acts` of another edit.
fn first_met(acts: Acts, token: u32, marks: &[Mark]) -> Option<usize>
    ensures { result ≡ first_met (conflicts acts) token marks.now }
{
    for mark in marks {
        if mark.token != token {
            return None;
        }
        if conflicts(acts, mark.act) {
            return Some(mark.edit);
        }
    }
    None
}

/// Whether an act conflicts with `acts` of another edit.
fn conflicts(acts: Acts, act: Act) -> bool
    ensures { result ≡ conflicts acts act }
{
    match act {
        Act::Remove => acts.removes || acts.before || acts.after,
        Act::Insert(Side::Before, many, _) => acts.removes
            || conflicts_on(acts.before, acts.alone_before, many),
        Act::Insert(Side::After, many, _) => acts.removes
            || conflicts_on(acts.after, acts.alone_after, many),
    }
}

/// Whether an insert on a side conflicts with those there: with all of them, or, if it is from `++` lines itself, only with
/// those that aren't.
fn conflicts_on(all: bool, alone: bool, many: bool) -> bool
    ensures { result ≡ conflicts_on all alone many }
{
    if many { alone } else { all }
}
