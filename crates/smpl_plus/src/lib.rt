//! Anchors plus code: finds the mark, positions and plus code at each token of a rule's patterns.
//!
//! - [`anchor`] returns the marks, positions and plus code of a rule's pattern tokens, in order, or the first fault: a
//!   `*` line beside a `-` or `+` line, or if there is none, the first plus code that has no anchor or has lines of both
//!   kinds, `+` and `++`.
//! - [`plus_code_is_read_once`], [`tokens_keep_their_lines`] and [`outside_tokens_are_main`] are laws.
//!
//! A longest run of plus lines with no token of a pattern between them is a block. It is anchored after the last token
//! before it, if that is a token of C or a metavariable outside `when` clauses. Otherwise it is anchored before the first
//! token after it, if that is one.
#![tactic(auto)]

ghost use Rattle.std.specs.Prelude.{◌≡◌, ◌<◌, ◌&&◌, ℕ, List, map, Some, length, slice_get, IfOk, IfErr, IfSome};
ghost use Rattle.smpl_lexer.specs.Texts.{OrNoMemory, IsSmall};
ghost use Rattle.smpl_lexer.specs.declared.text.BodyLine.{BodyLine as Line};
ghost use Rattle.smpl_patch.specs.declared.fault.PatchFault.{PatchFault as Fault};
ghost use Rattle.smpl_patch.specs.declared.pattern.VarDecl.{VarDecl as Variable};
ghost use Rattle.smpl_patch.specs.declared.pattern.PatToken.{PatToken as Anchored};
ghost use Rattle.smpl_meta.specs.Patterns as patterns;
ghost use Rattle.smpl_meta.specs.Heads as heads;
ghost use Rattle.smpl_meta.specs.Patterns.{split};
ghost use Rattle.smpl_meta.specs.declared.patterns.Placed.{Placed as Word};
ghost use Rattle.smpl_plus.specs.declared.clauses.Where.TheVariants.{Free};
ghost use Rattle.smpl_plus.specs.Outside.{outside_from};
ghost use Rattle.smpl_plus.specs.Anchors as spec;
ghost use Rattle.smpl_plus.specs.Anchors.{AreAnchored, IsShort};

mod anchors;
mod clauses;
mod lines;

use crate::anchors::{Anchoring, anchored};
use crate::clauses::may_anchor;
use smpl_lexer::{BodyLine, PatchText};
use smpl_meta::{RuleHead, VarTable, pattern_tokens};
use smpl_patch::{PatToken, PatchFault, VarDecl};
use sqlite_items::Items;
use std::alloc::Global;

fn has_star(body: &[BodyLine]) -> bool
    ensures { result ≡ spec.has_star body.now }
{
    for l in body {
        if l.sign == b'*' {
            return true;
        }
    }
    false
}

fn is_edit(l: &BodyLine) -> bool
    ensures { result ≡ heads.is_edit l.now }
{
    l.sign == b'-' || l.sign == b'+'
}

fn has_edit(body: &[BodyLine]) -> bool
    ensures { result ≡ heads.has_edit body.now }
{
    for l in body {
        if is_edit(l) {
            return true;
        }
    }
    false
}

/// Whether the body has a `*` line and a `-` or `+` line.
fn is_starred_edit(body: &[BodyLine]) -> bool
    ensures { result ≡ (spec.has_star body.now && heads.has_edit body.now) }
{
    has_star(body) && has_edit(body)
}

fn anchor_body(
    alloc: Global,
    rule: u32,
    vars: &[VarDecl],
    body: &[BodyLine],
) -> Result<Items<PatToken>, PatchFault>
    requires { IsShort body.now }
    ensures tokens { IfOk result (AreAnchored vars.now rule body.now) }
    ensures fault { IfErr result (OrNoMemory
        (λ f. spec.first_phase (spec.plus_faults vars.now rule body.now) ≡ Some f)) }
{
    if is_starred_edit(body) {
        return Err(PatchFault::StarWithEdit(rule));
    }
    let table = VarTable::of(alloc, vars)?;
    let placed = pattern_tokens(alloc, vars, body)?;
    let may = may_anchor(alloc, placed.as_slice())?;
    let Anchoring {
        tokens,
        pending: _,
        first,
    } = anchored(alloc, &table, placed.as_slice(), may.as_slice(), body)?;
    match first {
        Some(fault) => Err(fault),
        None => Ok(Items::from_vec(tokens)),
    }
}

/// Returns the marks, the positions and the plus code of a rule's pattern tokens, in order, or the first fault. The text must
/// have no more rules, lines and bytes than a patch may have, as is true of every text that was read. Linear in the rule.
///
/// - `StarWithEdit`: the rule has a `*` line and a `-` or `+` line. Nothing else is looked for then.
/// - `PlusWithoutAnchor`: the first `+` of the first plus code that has no anchor, or the first line that begins with `+`
///   alone in a block that begins with `++`, or with `++` in one that doesn't.
/// - `NoMemory`: out of memory. Nothing is kept.
pub fn anchor(
    alloc: Global,
    text: &PatchText,
    rule: u32,
    head: &RuleHead,
) -> Result<Items<PatToken>, PatchFault>
    requires within { rule < length text.now.rules }
    requires small { IsSmall text.now }
    ensures tokens { IfOk result (λ tokens. IfSome (slice_get text.now.rules rule)
        (λ r. AreAnchored head.now.vars rule r.body tokens)) }
    ensures fault { IfErr result (λ fault. IfSome (slice_get text.now.rules rule) (λ r. OrNoMemory
        (λ f. spec.first_phase (spec.plus_faults head.now.vars rule r.body) ≡ Some f) fault)) }
{
    let rules = text.rules.as_slice();
    let r = &rules[rule as usize];
    anchor_body(alloc, rule, head.vars.as_slice(), r.body.as_slice())
}

/// The law that a rule's plus code is read in one way: there is one list of what belongs to its tokens, or a first fault,
/// and not both. Does nothing.
pub fn plus_code_is_read_once()
    ensures tokens { (vars : List Variable) (rule : ℕ) (body : List Line) (one other : List Anchored) →
        AreAnchored vars rule body one → AreAnchored vars rule body other → one ≡ other }
    ensures apart { (vars : List Variable) (rule : ℕ) (body : List Line) (tokens : List Anchored)
        (fault : Fault) → AreAnchored vars rule body tokens →
        spec.first_phase (spec.plus_faults vars rule body) ≡ Some fault → ⊥ }
{}

/// The law that each token of a rule's patterns has the mark of its line and its own positions, whatever plus code there
/// is. Does nothing.
pub fn tokens_keep_their_lines()
    ensures marks { (vars : List Variable) (rule : ℕ) (body : List Line) (tokens : List Anchored) →
        AreAnchored vars rule body tokens →
        map (λ (t : Anchored). t.mark) tokens
        ≡ map (λ (p : Word). spec.mark_of p.sign) (patterns.pattern_tokens vars body) }
    ensures positions { (vars : List Variable) (rule : ℕ) (body : List Line) (tokens : List Anchored) →
        AreAnchored vars rule body tokens →
        map (λ (t : Anchored). t.positions) tokens
        ≡ map (λ (p : Word). p.positions) (patterns.pattern_tokens vars body) }
{}

/// The law that the tokens among which anchors are sought are those that a rule's patterns have outside `when` clauses.
/// Does nothing.
pub fn outside_tokens_are_main()
    ensures { (ps : List Word) → (split ps).main ≡ outside_from Free ps }
{}
