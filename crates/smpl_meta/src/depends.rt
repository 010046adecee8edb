// What a rule depends on.
ghost use Rattle.std.specs.Prelude.{◌≡◌, ◌<◌, ◌^◌, length, reverse, Option, IfOk};
ghost use Rattle.smpl_patch.specs.declared.rule.Dep.{Dep as Condition};
ghost use Rattle.smpl_meta.specs.Heads as spec;
ghost use Rattle.smpl_meta.specs.Shunting as shunt;
ghost use Rattle.smpl_meta.specs.Shunting.{kept};

use crate::earlier::Earlier;
use c_terms::{NoMemory, Text};
use smpl_lexer::{PatchToken, is_rule_name, is_sign, is_word};
use smpl_patch::Dep;
use sqlite_items::{Boxed, Items};
use std::alloc::Global;

/// What a token is in a condition.
#[derive(Clone, Copy, Debug, PartialEq, Eq)]
pub enum Mark {
    Not,
    Open,
    Close,
    Or,
    And,
    Ever,
    Never,
    Name,
    Other,
}

/// What precedes an operand: a `!`, or a `(` with what was read before it.
#[derive(Drop)]
pub enum Pending {
    Not,
    Open(Option<Dep>, Option<Dep>),
}

/// What has been read of a condition: the part before the last `||`, the part after it, the word before a name, and what
/// is pending, the innermost last.
#[derive(Drop)]
pub struct ConditionStack {
    pub either: Option<Dep>,
    pub both: Option<Dep>,
    pub word: Mark,
    pub pending: Items<Pending>,
}

/// Returns what a token is in a condition.
fn mark_of(t: &PatchToken) -> Mark
    ensures { result ≡ spec.mark_of t.now }
{
    if is_sign(t, b"!") {
        Mark::Not
    } else if is_sign(t, b"(") {
        Mark::Open
    } else if is_sign(t, b")") {
        Mark::Close
    } else if is_sign(t, b"||") {
        Mark::Or
    } else if is_sign(t, b"&&") {
        Mark::And
    } else if is_word(t, b"ever") {
        Mark::Ever
    } else if is_word(t, b"never") {
        Mark::Never
    } else if is_rule_name(t) {
        Mark::Name
    } else {
        Mark::Other
    }
}

fn plain_dep(alloc: Global, name: &Text, rule: Option<u32>) -> Result<Dep, NoMemory>
    ensures { IfOk result (λ d. d ≡ spec.plain_dep name.now rule) }
{
    match rule {
        None => Ok(Dep::Defined(name.copy(alloc)?)),
        Some(r) => Ok(Dep::Had(r)),
    }
}

fn ever_dep(alloc: Global, name: &Text, rule: Option<u32>) -> Result<Dep, NoMemory>
    ensures { IfOk result (λ d. d ≡ spec.ever_dep name.now rule) }
{
    match rule {
        None => Ok(Dep::Defined(name.copy(alloc)?)),
        Some(r) => Ok(Dep::Ever(r)),
    }
}

fn named_dep(alloc: Global, earlier: &Earlier, word: Mark, name: &Text) -> Result<Dep, NoMemory>
    requires { length earlier.now.heads < 2 ^ 32 }
    ensures { IfOk result (λ d. d ≡ spec.named_dep earlier.now.heads word name.now) }
{
    let rule = earlier.number_of(name.as_bytes());
    match word {
        Mark::Ever => ever_dep(alloc, name, rule),
        Mark::Never => {
            let inner = ever_dep(alloc, name, rule)?;
            Ok(Dep::Not(Boxed::new(alloc, inner)?))
        }
        _ => plain_dep(alloc, name, rule),
    }
}

/// Joins two conditions by `&&`, or returns the second if there is no first.
fn both_of(alloc: Global, left: Option<Dep>, right: Dep) -> Result<Dep, NoMemory>
    ensures { IfOk result (λ d. d ≡ shunt.both_of left right) }
{
    match left {
        None => Ok(right),
        Some(left) => {
            let left = Boxed::new(alloc, left)?;
            let right = Boxed::new(alloc, right)?;
            Ok(Dep::Both(left, right))
        }
    }
}

/// Returns what has been read of a group, if there is anything.
fn closed(alloc: Global, left: Option<Dep>, right: Option<Dep>) -> Result<Option<Dep>, NoMemory>
    ensures { IfOk result (λ d. d ≡ shunt.closed left right) }
{
    match left {
        None => Ok(right),
        Some(left) => match right {
            None => Ok(Some(left)),
            Some(right) => {
                let left = Boxed::new(alloc, left)?;
                let right = Boxed::new(alloc, right)?;
                Ok(Some(Dep::Either(left, right)))
            }
        },
    }
}

/// An operand, and what is pending before it.
#[derive(Drop)]
pub struct Operand {
    pub pending: Items<Pending>,
    pub dep: Dep,
}

/// Applies each `!` that directly precedes an operand to it.
fn negated(alloc: Global, pending: Items<Pending>, operand: Dep) -> Result<Operand, NoMemory>
    ensures { IfOk result (λ r. (a b : Option Condition) →
        shunt.take_on a b (reverse pending) operand
        ≡ shunt.settled a b (reverse r.pending) r.dep) }
{
    let mut pending = pending;
    let mut dep = operand;
    while let Some(last) = pending.pop() {
        match last {
            Pending::Not => dep = Dep::Not(Boxed::new(alloc, dep)?),
            Pending::Open(a, b) => {
                pending.push(Pending::Open(a, b))?;
                return Ok(Operand { pending, dep });
            }
        }
    }
    Ok(Operand { pending, dep })
}

/// Takes an operand and each `!` before it.
fn take(alloc: Global, s: ConditionStack, operand: Dep) -> Result<ConditionStack, NoMemory>
    ensures { IfOk result (λ r. kept r ≡ shunt.take (kept s) operand) }
{
    let ConditionStack {
        either,
        both,
        word: _,
        pending,
    } = s;
    let Operand { pending, dep } = negated(alloc, pending, operand)?;
    let both = Some(both_of(alloc, both, dep)?);
    Ok(ConditionStack {
        either,
        both,
        word: Mark::Name,
        pending,
    })
}

/// Reads a `)`.
fn close(alloc: Global, s: ConditionStack) -> Result<ConditionStack, NoMemory>
    ensures { IfOk result
        (λ r. kept r ≡ shunt.close_on (kept s).waiting (shunt.closed s.either s.both)) }
{
    let ConditionStack {
        either,
        both,
        word: _,
        mut pending,
    } = s;
    let inside = closed(alloc, either, both)?;
    match pending.pop() {
        None => Ok(ConditionStack {
            either: None,
            both: inside,
            word: Mark::Name,
            pending,
        }),
        Some(Pending::Not) => Ok(ConditionStack {
            either: None,
            both: inside,
            word: Mark::Name,
            pending,
        }),
        Some(Pending::Open(either, both)) => {
            let outer = ConditionStack {
                either,
                both,
                word: Mark::Name,
                pending,
            };
            match inside {
                None => Ok(outer),
                Some(operand) => take(alloc, outer, operand),
            }
        }
    }
}

fn push(s: ConditionStack, last: Pending) -> Result<ConditionStack, NoMemory>
    ensures { IfOk result (λ r. kept r ≡ shunt.pushed (kept s) last) }
{
    let ConditionStack {
        either,
        both,
        word,
        mut pending,
    } = s;
    pending.push(last)?;
    Ok(ConditionStack {
        either,
        both,
        word,
        pending,
    })
}

fn open_group(s: ConditionStack) -> Result<ConditionStack, NoMemory>
    ensures { IfOk result (λ r. kept r ≡ shunt.grouped (kept s)) }
{
    let ConditionStack {
        either,
        both,
        word: _,
        mut pending,
    } = s;
    pending.push(Pending::Open(either, both))?;
    Ok(ConditionStack {
        either: None,
        both: None,
        word: Mark::Name,
        pending,
    })
}

fn with_word(s: ConditionStack, word: Mark) -> ConditionStack
    ensures { kept result ≡ shunt.worded (kept s) word }
{
    let ConditionStack {
        either,
        both,
        word: _,
        pending,
    } = s;
    ConditionStack {
        either,
        both,
        word,
        pending,
    }
}

fn other_side(alloc: Global, s: ConditionStack) -> Result<ConditionStack, NoMemory>
    ensures { IfOk result (λ r. kept r ≡ shunt.sided (kept s)) }
{
    let ConditionStack {
        either,
        both,
        word,
        pending,
    } = s;
    let either = closed(alloc, either, both)?;
    Ok(ConditionStack {
        either,
        both: None,
        word,
        pending,
    })
}

fn step(
    alloc: Global,
    earlier: &Earlier,
    s: ConditionStack,
    t: &PatchToken,
) -> Result<ConditionStack, NoMemory>
    requires { length earlier.now.heads < 2 ^ 32 }
    ensures { IfOk result (λ r. kept r ≡ shunt.step earlier.now.heads (kept s) t.now) }
{
    match mark_of(t) {
        Mark::Not => push(s, Pending::Not),
        Mark::Open => open_group(s),
        Mark::Close => close(alloc, s),
        Mark::Or => other_side(alloc, s),
        Mark::And => Ok(s),
        Mark::Ever => Ok(with_word(s, Mark::Ever)),
        Mark::Never => Ok(with_word(s, Mark::Never)),
        Mark::Name => {
            let operand = named_dep(alloc, earlier, s.word, &t.token.text)?;
            take(alloc, s, operand)
        }
        Mark::Other => Ok(s),
    }
}

/// Returns the condition that the tokens spell.
pub fn dep_of(alloc: Global, earlier: &Earlier, tokens: &[PatchToken]) -> Result<Dep, NoMemory>
    requires { length earlier.now.heads < 2 ^ 32 }
    ensures { IfOk result (λ d. d ≡ shunt.dep_of earlier.now.heads tokens.now) }
{
    let mut s = ConditionStack {
        either: None,
        both: None,
        word: Mark::Name,
        pending: Items::new(alloc),
    };
    for t in tokens {
        s = step(alloc, earlier, s, t)?;
    }
    match closed(alloc, s.either, s.both)? {
        None => Ok(Dep::Always),
        Some(d) => Ok(d),
    }
}
