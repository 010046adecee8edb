// Variables that are lost between two sides.
ghost use Rattle.std.specs.Prelude.{◌≡◌, ◌<◌, ◌≤◌, ◌+◌, ℕ, List, length, IsSome, IfOk};
ghost use Rattle.c_terms.specs.Names.{has_name};
ghost use Rattle.iso_file.specs.Lost as spec;
ghost use Rattle.smpl_lexer.specs.declared.token.PatchToken.{PatchToken as Word};
ghost use Rattle.iso_file.specs.Stepped as stepped;
ghost use Rattle.iso_file.specs.Stepped.{IsLostFrom, IsLost, IsStart, IsUnbroken, IsFirstBreak};

use crate::held::Held;
use c_terms::NoMemory;
use smpl_lexer::{PatchToken, is_name};
use smpl_meta::VarTable;
use sqlite_items::Items;
use std::alloc::Global;

fn is_variable(vars: &VarTable<'_>, t: &PatchToken) -> bool
    ensures { result ≡ spec.is_variable vars.now t.now }
{
    is_name(t) && vars.find(t.token.text.as_bytes()).is_some()
}

/// Returns the first place of a variable that `from` doesn't contain.
fn lost_between(vars: &VarTable<'_>, from: &Held, to: &[PatchToken]) -> Option<u32>
    ensures { (side : List Word) → ((text : List ℕ) → has_name from.now text ≡ spec.stands_in side text) →
        result ≡ spec.lost_between vars.now side to.now }
{
    for t in to {
        if is_variable(vars, t) && !from.has(t.token.text.as_bytes()) {
            return Some(t.at);
        }
    }
    None
}

/// Returns the first place in `to` of a variable that `from` doesn't contain. Takes linear time.
fn lost(
    alloc: Global,
    vars: &VarTable<'_>,
    from: &[PatchToken],
    to: &[PatchToken],
) -> Result<Option<u32>, NoMemory>
    ensures { IfOk result (λ lost. lost ≡ spec.lost_between vars.now from.now to.now) }
{
    let held = Held::of(alloc, from)?;
    Ok(lost_between(vars, &held, to))
}

/// Returns the first of the sides from which only `<=>` leads to this one.
fn start_of(both: &[bool], i: usize) -> usize
    requires { i ≤ length both.now }
    ensures { IsStart both.now i result }
{
    let mut start = i;
    while start > 0 && both[start - 1] {
        start -= 1;
    }
    start
}

/// Returns the first variable that is lost when a side becomes another, if there is one. Linear in all sides.
fn lost_from(
    alloc: Global,
    vars: &VarTable<'_>,
    sides: &[Items<PatchToken>],
    both: &[bool],
    i: usize,
) -> Result<Option<u32>, NoMemory>
    requires within { i < length sides.now }
    requires between { length sides.now ≡ length both.now + 1 }
    ensures { IfOk result (λ lost. IsLostFrom vars.now sides.now both.now i lost) }
{
    let held = Held::of(alloc, sides[i].as_slice())?;
    for j in start_of(both, i)..sides.len() {
        let lost = lost_between(vars, &held, sides[j].as_slice());
        if lost.is_some() {
            return Ok(lost);
        }
    }
    Ok(None)
}

/// Whether a side or the next one loses a variable of the other, which it may become. Linear in the two.
fn is_break(
    alloc: Global,
    vars: &VarTable<'_>,
    sides: &[Items<PatchToken>],
    both: &[bool],
    i: usize,
) -> Result<bool, NoMemory>
    requires within { i < length both.now }
    requires between { length sides.now ≡ length both.now + 1 }
    ensures { IfOk result (λ b. b ≡ stepped.is_break vars.now sides.now both.now i) }
{
    let one = sides[i].as_slice();
    let next = sides[i + 1].as_slice();
    if lost(alloc, vars, one, next)?.is_some() {
        return Ok(true);
    }
    Ok(both[i] && lost(alloc, vars, next, one)?.is_some())
}

/// Returns the first side such that a variable is lost between it and the next, if there is one. Takes linear time.
fn first_break(
    alloc: Global,
    vars: &VarTable<'_>,
    sides: &[Items<PatchToken>],
    both: &[bool],
) -> Result<Option<usize>, NoMemory>
    requires { length sides.now ≡ length both.now + 1 }
    ensures { IfOk result (λ k. IsFirstBreak vars.now sides.now both.now k) }
{
    for i in 0..both.len() {
        if is_break(alloc, vars, sides, both, i)? {
            return Ok(Some(i));
        }
    }
    Ok(None)
}

/// Returns what is lost from the least of the sides up to `last` that loses a variable. Up to there each side has all
/// variables of the next one, so if a side loses one, every later side up to there does too.
fn least_lost(
    alloc: Global,
    vars: &VarTable<'_>,
    sides: &[Items<PatchToken>],
    both: &[bool],
    last: usize,
    lost: Option<u32>,
) -> Result<Option<u32>, NoMemory>
    requires within { last < length both.now }
    requires between { length sides.now ≡ length both.now + 1 }
    requires unbroken { IsUnbroken vars.now sides.now both.now last }
    requires lost { IsLostFrom vars.now sides.now both.now last lost }
    requires some { IsSome lost }
    ensures { IfOk result (λ found. IsLost vars.now sides.now both.now found) }
{
    let mut low = 0;
    let mut high = last;
    let mut found = lost;
    while low < high {
        let middle = low + (high - low) / 2;
        let lost = lost_from(alloc, vars, sides, both, middle)?;
        if lost.is_some() {
            high = middle;
            found = lost;
        } else {
            low = middle + 1;
        }
    }
    Ok(found)
}

/// Returns the first variable lost, from the least pair of sides of which the first may become the second, if there is
/// one. Takes time n log n in the sides.
pub fn first_lost(
    alloc: Global,
    vars: &VarTable<'_>,
    sides: &[Items<PatchToken>],
    both: &[bool],
) -> Result<Option<u32>, NoMemory>
    requires { length sides.now ≡ length both.now + 1 }
    ensures { IfOk result (λ lost. IsLost vars.now sides.now both.now lost) }
{
    match first_break(alloc, vars, sides, both)? {
        None => Ok(None),
        Some(k) => {
            let lost = lost_from(alloc, vars, sides, both, k)?;
            if lost.is_some() {
                least_lost(alloc, vars, sides, both, k, lost)
            } else {
                lost_from(alloc, vars, sides, both, k + 1)
            }
        }
    }
}
