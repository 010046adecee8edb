// Plus code, and the tokens at which it is anchored.
ghost use Rattle.std.specs.Prelude.{◌≡◌, ◌≤◌, ◌<◌, ◌+◌, ◌^◌, ◌∷◌, [], ℕ, List, Option, All, map, length, drop, Some, None as NoOption, IfOk, OnOk, is_some, if◌then◌else◌};
ghost use Rattle.smpl_patch.specs.Faults.{first_from};
ghost use Rattle.smpl_patch.specs.declared.pattern.VarDecl.{VarDecl as Variable};
ghost use Rattle.smpl_lexer.specs.declared.text.BodyLine.{BodyLine as Line};
ghost use Rattle.smpl_meta.specs.declared.patterns.Placed.{Placed as Word};
ghost use Rattle.smpl_plus.specs.Outside.{may_anchor as may_of};
ghost use Rattle.smpl_plus.specs.Blocks as blocks;
ghost use Rattle.smpl_plus.specs.Blocks.{Block, Blocks, IsPlusLine};
ghost use Rattle.smpl_plus.specs.Anchors as spec;
ghost use Rattle.smpl_plus.specs.SoFar.{SoFar, IsOpen, AtLine, RisingFrom, run_length};

use crate::lines::plus_line;
use c_terms::NoMemory;
use smpl_lexer::BodyLine;
use smpl_meta::{Placed, VarTable};
use smpl_patch::{Mark, PatToken, PatchFault, PlusBlock, PlusLine, earlier};
use smpl_terms::Var;
use sqlite_items::Items;
use std::alloc::Global;

/// The token at which a block is anchored.
#[derive(Clone, Copy, Debug, PartialEq, Eq)]
pub enum Anchor {
    Before(usize),
    After(usize),
}

/// Plus lines to which more may be added.
#[derive(Drop)]
pub struct OpenBlock {
    /// The number of pattern tokens before the lines.
    pub before: usize,
    /// The offset of the first line.
    pub at: u32,
    /// Whether the first line begins with `++`.
    pub many: bool,
    /// The offset of the first line of the other kind.
    pub other: Option<u32>,
    pub lines: Items<PlusLine>,
}

/// The tokens with the plus code so far, the block that is open, and the first fault so far.
#[derive(Drop)]
pub struct Anchoring {
    pub tokens: Vec<PatToken>,
    pub pending: Option<OpenBlock>,
    pub first: Option<PatchFault>,
}

fn mark_of(sign: u8) -> Mark
    ensures { result ≡ spec.mark_of sign }
{
    if sign == b'-' {
        Mark::Minus
    } else if sign == b'*' {
        Mark::Star
    } else {
        Mark::Context
    }
}

fn copied(alloc: Global, vars: &[Var]) -> Result<Items<Var>, NoMemory>
    ensures { IfOk result (λ out. out ≡ vars.now) }
{
    let mut out = Items::new(alloc);
    for v in vars {
        out.push(v.copy(alloc)?)?;
    }
    Ok(out)
}

fn bare(alloc: Global, p: &Placed) -> Result<PatToken, NoMemory>
    ensures { IfOk result (λ t. t ≡ spec.bare p.now) }
{
    Ok(PatToken {
        mark: mark_of(p.sign),
        positions: copied(alloc, p.positions.as_slice())?,
        before: None,
        after: None,
    })
}

/// Returns the tokens without plus code.
pub fn bare_tokens(alloc: Global, placed: &[Placed]) -> Result<Vec<PatToken>, NoMemory>
    ensures { IfOk result (λ out. out.items ≡ map spec.bare placed.now) }
{
    let mut tokens = Vec::new(alloc);
    for p in placed {
        tokens.push(bare(alloc, p)?)?;
    }
    Ok(tokens)
}

fn anchor_before(may: &[bool], n: usize) -> Option<Anchor>
    ensures { result ≡ spec.anchor_before may.now n }
{
    if n < may.len() && may[n] {
        Some(Anchor::Before(n))
    } else {
        None
    }
}

/// Returns the anchor of code that comes after n tokens: after the last of them, or else before the next one.
fn anchor_at(may: &[bool], n: usize) -> Option<Anchor>
    ensures { result ≡ spec.anchor_at may.now n }
{
    if n > 0 && n <= may.len() && may[n - 1] {
        Some(Anchor::After(n - 1))
    } else {
        anchor_before(may, n)
    }
}

/// Puts the block before the token with this number.
fn with_before(tokens: Vec<PatToken>, n: usize, block: PlusBlock) -> Vec<PatToken>
    ensures { result.items ≡ spec.changed (spec.with_before block) n tokens.items }
{
    if n >= tokens.len() {
        return tokens;
    }
    let mut tokens = tokens;
    let t = &mut tokens[n];
    t.before = Some(block);
    tokens
}

/// Puts the block after the token with this number.
fn with_after(tokens: Vec<PatToken>, n: usize, block: PlusBlock) -> Vec<PatToken>
    ensures { result.items ≡ spec.changed (spec.with_after block) n tokens.items }
{
    if n >= tokens.len() {
        return tokens;
    }
    let mut tokens = tokens;
    let t = &mut tokens[n];
    t.after = Some(block);
    tokens
}

/// Puts the block at its anchor.
fn with_block(tokens: Vec<PatToken>, anchor: Option<Anchor>, block: PlusBlock) -> Vec<PatToken>
    ensures { result.items ≡ spec.with_block tokens.items anchor block }
{
    match anchor {
        None => tokens,
        Some(Anchor::Before(n)) => with_before(tokens, n, block),
        Some(Anchor::After(n)) => with_after(tokens, n, block),
    }
}

fn with_fault(first: Option<PatchFault>, anchor: Option<Anchor>, at: u32) -> Option<PatchFault>
    ensures { result ≡ first_from first (spec.no_anchor anchor at) }
{
    match anchor {
        None => Some(earlier(first, PatchFault::PlusWithoutAnchor(at))),
        Some(_) => first,
    }
}

fn with_other(first: Option<PatchFault>, other: Option<u32>) -> Option<PatchFault>
    ensures { result ≡ first_from first (spec.mixed_at other) }
{
    match other {
        None => first,
        Some(at) => Some(earlier(first, PatchFault::PlusWithoutAnchor(at))),
    }
}

/// Anchors the open block, if there is one.
pub fn closed(may: &[bool], s: Anchoring) -> Anchoring
    ensures { (vars : List Variable) (ps : List Word) (b : Blocks) → may.now ≡ may_of ps →
        SoFar vars ps b s →
        SoFar vars ps (record { whole = blocks.all_blocks b; last = NoOption }) result }
{
    let Anchoring {
        tokens,
        pending,
        first,
    } = s;
    match pending {
        None => Anchoring {
            tokens,
            pending: None,
            first,
        },
        Some(block) => {
            let OpenBlock {
                before,
                at,
                many,
                other,
                lines,
            } = block;
            let anchor = anchor_at(may, before);
            Anchoring {
                tokens: with_block(tokens, anchor, PlusBlock { many, lines }),
                pending: None,
                first: with_other(with_fault(first, anchor, at), other),
            }
        }
    }
}

/// Whether one of two lines begins with `+` alone, and the other with `++`.
fn differ(many: bool, other: bool) -> bool
    ensures { result ≡ spec.differ many other }
{
    if many { !other } else { other }
}

/// Returns where the first line of the other kind begins, one more line included.
fn first_other(other: Option<u32>, many: bool, l: &BodyLine) -> Option<u32>
    ensures { result ≡ (if is_some other then other else spec.other_in many (l.now ∷ [])) }
{
    if other.is_some() {
        other
    } else if differ(many, l.many) {
        Some(l.start)
    } else {
        None
    }
}

/// Adds one more line of plus code to the open block, or begins a block that comes after this many tokens.
fn with_plus(
    alloc: Global,
    pending: Option<OpenBlock>,
    before: usize,
    l: &BodyLine,
    line: PlusLine,
) -> Result<OpenBlock, NoMemory>
    ensures { IfOk result (λ o. (vars : List Variable) (ps : List Word) (b : Option Block) (n : ℕ) →
        IsOpen vars ps b pending → before ≡ spec.tokens_before n ps →
        IsPlusLine vars l.now line → IsOpen vars ps (Some (blocks.with_plus b n l.now)) (Some o)) }
{
    match pending {
        None => {
            let mut lines = Items::new(alloc);
            lines.push(line)?;
            Ok(OpenBlock {
                before,
                at: l.start,
                many: l.many,
                other: None,
                lines,
            })
        }
        Some(block) => {
            let OpenBlock {
                before,
                at,
                many,
                other,
                mut lines,
            } = block;
            let other = first_other(other, many, l);
            lines.push(line)?;
            Ok(OpenBlock {
                before,
                at,
                many,
                other,
                lines,
            })
        }
    }
}

/// Returns the number of tokens in this line, counted from the token `from`.
fn run(placed: &[Placed], from: usize, line: u32) -> usize
    requires { from ≤ length placed.now }
    ensures value { result ≡ run_length line (drop from placed.now) }
    ensures within { from + result ≤ length placed.now }
{
    let rest = &placed[from..];
    for i in 0..rest.len() {
        let p = &rest[i];
        if p.line != line {
            return i;
        }
    }
    rest.len()
}

/// Processes one more line, which comes after this many tokens.
fn with_line(
    alloc: Global,
    vars: &VarTable<'_>,
    placed: &[Placed],
    may: &[bool],
    s: Anchoring,
    before: usize,
    number: u32,
    l: &BodyLine,
) -> Result<Anchoring, NoMemory>
    requires short { length l.now.text < 2 ^ 31 }
    requires at { AtLine number before placed.now }
    requires may { may.now ≡ may_of placed.now }
    ensures { IfOk result (λ r. (b : Blocks) → SoFar vars.now placed.now b s →
        SoFar vars.now placed.now (blocks.put_line placed.now number b l.now) r) }
{
    if l.sign == b'+' {
        let line = plus_line(alloc, vars, l)?;
        let Anchoring {
            tokens,
            pending,
            first,
        } = s;
        let pending = Some(with_plus(alloc, pending, before, l, line)?);
        return Ok(Anchoring {
            tokens,
            pending,
            first,
        });
    }
    if run(placed, before, number) > 0 {
        return Ok(closed(may, s));
    }
    Ok(s)
}

/// Returns the tokens of a body with their plus code, and the first plus code that has no anchor or has lines of both kinds.
/// Linear.
pub fn anchored(
    alloc: Global,
    vars: &VarTable<'_>,
    placed: &[Placed],
    may: &[bool],
    body: &[BodyLine],
) -> Result<Anchoring, NoMemory>
    requires count { length body.now < 2 ^ 32 }
    requires short { All (λ (l : Line). length l.text < 2 ^ 31) body.now }
    requires rising { RisingFrom 0 placed.now }
    requires may { may.now ≡ may_of placed.now }
    ensures { IfOk result (SoFar vars.now placed.now
        (record { whole = blocks.blocks_of placed.now body.now; last = NoOption })) }
{
    let mut s = Anchoring {
        tokens: bare_tokens(alloc, placed)?,
        pending: None,
        first: None,
    };
    let mut before = 0;
    let mut number = 0u32;
    for l in body {
        s = with_line(alloc, vars, placed, may, s, before, number, l)?;
        before += run(placed, before, number);
        number += 1;
    }
    Ok(closed(may, s))
}
