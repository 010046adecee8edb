// A lower bound for the number of subformulas of a rule's formula, computed from the elements of its body alone.
ghost use Rattle.std.specs.Prelude.{◌≡◌, ◌+◌, ◌*◌, ◌≤◌, true, false};
ghost use Rattle.smpl_patch.specs.Bodies.{body, element};
ghost use Rattle.smpl_patch.proofs.BodyLemmas.{bodies as bodies_of};
ghost use Rattle.ctl_formula.specs.Plain.{fits};
ghost use Rattle.ctl_translate.specs.Least as least;
ghost use Rattle.ctl_translate.specs.Rules as rules;

use smpl_patch::{Elem, Rule};
use sqlite_items::Items;

/// The largest number of subformulas of a formula.
const MOST_PARTS: u64 = 100_000;

/// The lower bound for a part of a body: `fixed + times * n` subformulas if what follows it has n.
#[derive(Clone, Copy)]
struct Least {
    fixed: u64,
    times: u64,
}

/// Returns the bound for one part followed by another.
fn then_least(first: Least, second: Least) -> Least
    ensures fixed { result.fixed ≤ first.fixed + first.times * second.fixed }
    ensures times { result.times ≤ first.times * second.times }
{
    let repeated = first.times.saturating_mul(second.fixed);
    Least {
        fixed: first.fixed.saturating_add(repeated),
        times: first.times.saturating_mul(second.times),
    }
}

/// Returns the bound for a part whose formula contains what follows it once.
fn once(inside: u64) -> Least
    ensures fixed { result.fixed ≤ 1 + inside }
    ensures times { result.times ≡ 1 }
{
    Least {
        fixed: inside.saturating_add(1),
        times: 1,
    }
}

/// Returns the bound for some branches and one more, which is excluded at `later` later ones.
fn with_branch(earlier: Least, branch: Least, later: u64) -> Least
    ensures fixed { result.fixed ≤ earlier.fixed + (branch.fixed + later * (2 + branch.fixed)) }
    ensures times { result.times ≤ earlier.times + branch.times }
{
    let excluded = later.saturating_mul(branch.fixed.saturating_add(2));
    let all = branch.fixed.saturating_add(excluded);
    Least {
        fixed: earlier.fixed.saturating_add(all),
        times: earlier.times.saturating_add(branch.times),
    }
}

#[cycle(least)]
fn least_element(e: &Elem) -> Least
    ensures fixed { result.fixed ≤ (least.least_element (element e.now)).fixed }
    ensures times { result.times ≤ (least.least_element (element e.now)).times }
{
    match e {
        Elem::Atom(_) => once(0),
        Elem::Compound(_, bodies, _) => once(least_alone(bodies.as_slice())),
        Elem::Block(_, b, _) => once(least_body(b.as_slice()).fixed),
        Elem::Gap(d) => once(least_alone(d.whens.as_slice())),
        Elem::Nest(_, b, d) => {
            let part = least_body(b.as_slice());
            once(part.fixed.saturating_add(least_alone(d.whens.as_slice())))
        }
        Elem::AnyOf(bodies) => least_choices(bodies.as_slice()),
        Elem::AllOf(bodies) => least_first(bodies.as_slice()),
    }
}

#[cycle(least)]
fn least_body(b: &[Elem]) -> Least
    ensures fixed { result.fixed ≤ (least.least_body (body b.now)).fixed }
    ensures times { result.times ≤ (least.least_body (body b.now)).times }
{
    let mut so_far = Least { fixed: 0, times: 1 };
    for e in b {
        let one = least_element(e);
        so_far = then_least(so_far, one);
    }
    so_far
}

/// Returns the bound for bodies that nothing follows.
#[cycle(least)]
fn least_alone(bs: &[Items<Elem>]) -> u64
    ensures { result ≤ least.least_alone (bodies_of bs.now) }
{
    let mut so_far = 0u64;
    for b in bs {
        let one = least_body(b.as_slice());
        so_far = so_far.saturating_add(one.fixed);
    }
    so_far
}

/// Returns the bound for branches of which one has to hold.
#[cycle(least)]
fn least_choices(bs: &[Items<Elem>]) -> Least
    ensures fixed { result.fixed ≤ (least.least_choices (bodies_of bs.now)).fixed }
    ensures times { result.times ≤ (least.least_choices (bodies_of bs.now)).times }
{
    let mut so_far = Least { fixed: 0, times: 0 };
    for (i, b) in bs.iter().enumerate() {
        let one = least_body(b.as_slice());
        let later = bs.len() - 1 - i;
        so_far = with_branch(so_far, one, later as u64);
    }
    so_far
}

/// Returns the bound for branches all of which have to hold.
#[cycle(least)]
fn least_first(bs: &[Items<Elem>]) -> Least
    ensures fixed { result.fixed ≤ (least.least_first (bodies_of bs.now)).fixed }
    ensures times { result.times ≤ (least.least_first (bodies_of bs.now)).times }
{
    match bs {
        [] => Least { fixed: 0, times: 1 },
        [b, more @ ..] => {
            let one = least_body(b.as_slice());
            Least {
                fixed: one.fixed.saturating_add(least_alone(more)),
                times: one.times,
            }
        }
    }
}

/// Whether the elements alone imply that the rule's formula has too many subformulas. Linear in the elements. This way
/// no table is made for nested branches, each with something after it, whose formula doubles at each level.
pub fn is_far_too_large(rule: &Rule) -> bool
    ensures { result ≡ true → fits (rules.formula_of rule.now) ≡ false }
{
    least_body(rule.body.as_slice()).fixed > MOST_PARTS
}
