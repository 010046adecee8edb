// A lower bound for the number of levels of a rule's formula, computed from the elements of its body alone.
ghost use Rattle.std.specs.Prelude.{◌≡◌, ◌≤◌, true, false};
ghost use Rattle.smpl_patch.specs.Bodies.{body, element};
ghost use Rattle.smpl_patch.proofs.BodyLemmas.{bodies as bodies_of};
ghost use Rattle.ctl_formula.specs.Plain.{fits};
ghost use Rattle.ctl_translate.specs.Deep as deep;
ghost use Rattle.ctl_translate.specs.Rules as rules;

use smpl_patch::{Elem, Rule};
use sqlite_items::Items;

/// The largest number of levels of a formula: one more than the largest number of subformulas around one.
const MOST_LEVELS: u64 = 4_001;

/// Returns a lower bound for the levels of an element, given that of what follows it.
#[cycle(levels)]
fn levels_element(e: &Elem, after: u64) -> u64
    ensures { result ≤ deep.levels_element (element e.now) after }
{
    match e {
        Elem::Atom(_) => after.saturating_add(1),
        Elem::Compound(_, _, _) => after.saturating_add(1),
        Elem::Block(_, _, _) => after.saturating_add(1),
        Elem::Gap(_) => after.saturating_add(1),
        Elem::Nest(_, _, _) => after.saturating_add(1),
        Elem::AnyOf(bodies) => levels_choice(bodies.as_slice(), after),
        Elem::AllOf(bodies) => levels_every(bodies.as_slice(), after),
    }
}

#[cycle(levels)]
fn levels_body(b: &[Elem], after: u64) -> u64
    ensures { result ≤ deep.levels_body (body b.now) after }
{
    let mut levels = after;
    let mut i = b.len();
    while i > 0 {
        i -= 1;
        levels = levels_element(&b[i], levels);
    }
    levels
}

#[cycle(levels)]
fn levels_choice(bs: &[Items<Elem>], after: u64) -> u64
    ensures { result ≤ deep.levels_choice (bodies_of bs.now) after }
{
    match bs {
        [] => 1,
        [b, ..] => levels_body(b.as_slice(), after),
    }
}

#[cycle(levels)]
fn levels_every(bs: &[Items<Elem>], after: u64) -> u64
    ensures { result ≤ deep.levels_every (bodies_of bs.now) after }
{
    match bs {
        [] => after,
        [b, ..] => levels_body(b.as_slice(), after),
    }
}

/// Whether the elements alone imply that too many subformulas are around one in the rule's formula. Linear in the
/// elements. A body of more than 4,001 elements in a row is too long, not counting elements whose first branch is
/// empty.
pub fn is_far_too_long(rule: &Rule) -> bool
    ensures { result ≡ true → fits (rules.formula_of rule.now) ≡ false }
{
    levels_body(rule.body.as_slice(), 0) > MOST_LEVELS
}
