// Which parts between the brackets of a list stay.
ghost use Rattle.std.specs.Prelude.{◌≡◌, ◌≤◌, ◌<◌, ◌+◌, ◌^◌, ◌++◌, IfSome, length, take, drop, if◌then◌else◌};
ghost use Rattle.tidy_flags.specs.Clearing.{early_flags, blank_flags, found_after, last_from, last_flags, comma_flags};
ghost use Rattle.tidy_flags.specs.Signs.{depth_after, list_start};

use crate::signs::{ListState, Sign};

/// Clears the flags of the commas of a list beside which nothing stands, and of the blanks behind them. `signs` are the parts
/// between the brackets. Linear.
pub fn clear_commas(signs: &[Sign], stays: &mut [bool], may_end: bool)
    requires same { length stays.old ≡ length signs.now }
    requires few { length signs.now < 2 ^ 62 }
    ensures { stays.new ≡ comma_flags may_end signs.now stays.old }
{
    clear_early(signs, stays);
    if !may_end {
        clear_last(signs, stays);
    }
}

/// Clears the flags of the commas that no token parts from the comma before them, or from the bracket.
fn clear_early(signs: &[Sign], stays: &mut [bool])
    requires same { length stays.old ≡ length signs.now }
    requires few { length signs.now < 2 ^ 62 }
    ensures { stays.new ≡ early_flags list_start signs.now stays.old }
{
    let mut state = ListState {
        depth: 0,
        seen: false,
        gone: false,
    };
    for at in 0..signs.len() {
        state = step_early(signs, stays, at, state);
    }
}

/// Clears the flag of a part, if it goes as far as the parts before it say. Returns what has come with it.
fn step_early(signs: &[Sign], stays: &mut [bool], at: usize, state: ListState) -> ListState
    requires same { length stays.old ≡ length signs.now }
    requires within { at < length signs.now }
    requires few { state.depth < 2 ^ 62 }
    ensures depth { result.depth ≤ state.depth + 1 }
    ensures flags { take (at + 1) stays.new ++ early_flags result (drop (at + 1) signs.now) (drop (at + 1) stays.new)
        ≡ take at stays.old ++ early_flags state (drop at signs.now) (drop at stays.old) }
{
    if !stays[at] {
        return state;
    }
    let sign = signs[at];
    stays[at] = state.stays_early(sign);
    state.after(sign)
}

/// Clears the flag of the last comma, if no token stands behind it.
fn clear_last(signs: &[Sign], stays: &mut [bool])
    requires same { length stays.old ≡ length signs.now }
    requires few { length signs.now < 2 ^ 62 }
    ensures { stays.new ≡ last_flags (last_from 0 0 None signs.now stays.old) signs.now stays.old }
{
    let Some(comma) = last_comma(signs, stays) else {
        return;
    };
    stays[comma] = false;
    clear_blanks(&signs[comma + 1..], &mut stays[comma + 1..]);
}

/// Returns the place of the last comma of a list, if no token stands behind it.
fn last_comma(signs: &[Sign], stays: &[bool]) -> Option<usize>
    requires same { length stays.now ≡ length signs.now }
    requires few { length signs.now < 2 ^ 62 }
    ensures value { result ≡ last_from 0 0 None signs.now stays.now }
    ensures within { IfSome result (λ at. at < length signs.now) }
{
    let mut last = LastComma {
        depth: 0,
        found: None,
    };
    for at in 0..signs.len() {
        last = step_last(signs[at], stays[at], at, last);
    }
    last.found
}

/// The last comma so far, if no token stands behind it.
#[derive(Clone, Copy)]
struct LastComma {
    /// How many brackets are open.
    depth: usize,
    found: Option<usize>,
}

/// Returns the last comma with one part more.
fn step_last(sign: Sign, stays: bool, at: usize, last: LastComma) -> LastComma
    requires { last.depth < 2 ^ 62 }
    ensures depth { result.depth ≡ (if stays then depth_after last.depth sign else last.depth) }
    ensures found { result.found ≡ (if stays then found_after last.depth at last.found sign else last.found) }
{
    if !stays {
        return last;
    }
    LastComma {
        depth: sign.depth_after(last.depth),
        found: found_after(sign, last.depth, at, last.found),
    }
}

/// Returns the place of the last comma, if no token stands behind it, with one part more.
fn found_after(sign: Sign, depth: usize, at: usize, found: Option<usize>) -> Option<usize>
    ensures { result ≡ found_after depth at found sign }
{
    if sign.is_own_comma(depth) {
        Some(at)
    } else if sign.is_token() {
        None
    } else {
        found
    }
}

/// Clears the flags of the blanks in front, up to the next token, comment or line.
fn clear_blanks(signs: &[Sign], stays: &mut [bool])
    requires { length stays.old ≡ length signs.now }
    ensures { stays.new ≡ blank_flags signs.now stays.old }
{
    for at in 0..signs.len() {
        if step_blank(signs, stays, at) {
            return;
        }
    }
}

/// Clears the flag of a part, if it is a blank that goes. Returns whether no blank behind it goes.
fn step_blank(signs: &[Sign], stays: &mut [bool], at: usize) -> bool
    requires same { length stays.old ≡ length signs.now }
    requires within { at < length signs.now }
    ensures { take (at + 1) stays.new ++ (if result then drop (at + 1) stays.new
        else blank_flags (drop (at + 1) signs.now) (drop (at + 1) stays.new))
        ≡ take at stays.old ++ blank_flags (drop at signs.now) (drop at stays.old) }
{
    if !stays[at] {
        return false;
    }
    let sign = signs[at];
    if sign.ends_blanks() {
        return true;
    }
    stays[at] = !sign.is_plain();
    false
}
