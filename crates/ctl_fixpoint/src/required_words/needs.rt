// Whether a formula needs a given word.
ghost use Rattle.std.specs.Prelude.{◌≡◌, ◌<◌, true, ◌&&◌, ◌||◌, List, map, length, IfOk};
ghost use Rattle.ctl_formula.specs.Plain.{Plain};
ghost use Rattle.ctl_formula.specs.Tables.{at, plain_of, below};
ghost use Rattle.ctl_formula.specs.Formulas.{plain};
ghost use Rattle.ctl_fixpoint.specs.RequiredWords.Words as spec;

use crate::required_words::spell::spelled;
use c_terms::NoMemory;
use ctl_formula::{Formula, Node};
use smpl_patch::Pattern;
use smpl_terms::Var;
use std::alloc::Global;

fn atom(word: &[u8], p: &Pattern) -> bool
    ensures { (fs : List Plain) → result ≡ spec.needs word.now (plain_of fs (Node.Atom p.now)) }
{
    spelled(word, p)
}

fn brace(word: &[u8], p: &Pattern, b: &Var) -> bool
    ensures opens { (fs : List Plain) → result ≡ spec.needs word.now (plain_of fs (Node.BraceOpen p.now b.now)) }
    ensures closes { (fs : List Plain) → result ≡ spec.needs word.now (plain_of fs (Node.BraceClose p.now b.now)) }
{
    let _brace = b;
    spelled(word, p)
}

fn one_of(f: bool, g: bool) -> bool
    ensures { result ≡ (f || g) }
{
    f || g
}

fn both_of(f: bool, g: bool) -> bool
    ensures { result ≡ (f && g) }
{
    f && g
}

/// Whether a node needs the word, given which of its parts do.
fn needs_of(word: &[u8], node: &Node, known: &[bool]) -> bool
    requires { below (length known.now) node.now ≡ true }
    ensures { (fs : List Plain) → known.now ≡ map (spec.needs word.now) fs
        → result ≡ spec.needs word.now (plain_of fs node.now) }
{
    match node {
        Node::True => false,
        Node::Atom(p) => atom(word, p),
        Node::EarlyExit => false,
        Node::BraceOpen(p, b) => brace(word, p, b),
        Node::BraceClose(p, b) => brace(word, p, b),
        Node::Inside(_) => false,
        Node::Outside(_) => false,
        Node::Not(_) => false,
        Node::And(f, g) => one_of(known[*f], known[*g]),
        Node::Or(f, g) => both_of(known[*f], known[*g]),
        Node::AX(f) => known[*f],
        Node::EX(f) => known[*f],
        Node::AU(_, g) => known[*g],
        Node::EU(_, g) => known[*g],
        Node::After(f) => known[*f],
        Node::InBranch(_, f) => known[*f],
        Node::Exists(_, f) => known[*f],
    }
}

/// Whether the part with this number needs the word.
fn part_needs(word: &[u8], known: &[bool], part: usize) -> bool
    requires { part < length known.now }
    ensures { (fs : List Plain) → known.now ≡ map (spec.needs word.now) fs → result ≡ spec.needs word.now (at fs part) }
{
    let _word = word;
    known[part]
}

/// Whether the formula needs the word. Linear in the formula's table, apart from the patterns of its atoms.
pub fn needs(alloc: Global, f: &Formula, word: &[u8]) -> Result<bool, NoMemory>
    ensures { IfOk result (λ yes. yes ≡ spec.needs word.now (plain f.now)) }
{
    let mut known = Vec::with_capacity(alloc, f.len())?;
    for i in 0..f.len() {
        let node = f.node(i);
        known.push(needs_of(word, node, known.as_slice()))?;
    }
    let root = f.root();
    let all = known.as_slice();
    Ok(part_needs(word, all, root))
}
