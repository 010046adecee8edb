// The nodes of a table without their patterns and variables.
ghost use Rattle.std.specs.Prelude.{◌≡◌, map, IfOk};
ghost use Rattle.ctl_translate.specs.CtlBound.Steps.{step_of, AreOrdered};

use c_terms::NoMemory;
use ctl_formula::{Node, Parts};
use std::alloc::Global;

/// How the masks of a node depend on those of its parts, which have these numbers.
#[derive(Clone, Copy)]
pub enum Step {
    /// Holds everywhere.
    True,
    /// An atom, a brace, a place inside or outside a block, or the beginning of a body that leaves the function.
    Atom,
    /// `not f`
    Not(usize),
    /// `f and g`
    And(usize, usize),
    /// `f or g`
    Or(usize, usize),
    /// `f` holds at some or every next node.
    Next(usize),
    /// Some or every walk reaches `g`, through nodes with `f`.
    Until(usize, usize),
    /// `f` holds at a node that the current node may lack.
    Moved(usize),
    /// `f` holds under some value of a variable.
    Exists(usize),
}

/// Returns the step of the node.
fn step_of(node: &Node) -> Step
    ensures { result ≡ step_of node.now }
{
    match node {
        Node::True => Step::True,
        Node::Atom(_) => Step::Atom,
        Node::EarlyExit => Step::Atom,
        Node::BraceOpen(_, _) => Step::Atom,
        Node::BraceClose(_, _) => Step::Atom,
        Node::Inside(_) => Step::Atom,
        Node::Outside(_) => Step::Atom,
        Node::Not(f) => Step::Not(*f),
        Node::And(f, g) => Step::And(*f, *g),
        Node::Or(f, g) => Step::Or(*f, *g),
        Node::AX(f) => Step::Next(*f),
        Node::EX(f) => Step::Next(*f),
        Node::AU(f, g) => Step::Until(*f, *g),
        Node::EU(f, g) => Step::Until(*f, *g),
        Node::After(f) => Step::Moved(*f),
        Node::InBranch(_, f) => Step::Moved(*f),
        Node::Exists(_, f) => Step::Exists(*f),
    }
}

/// Returns the steps of the table's nodes. Linear in the table.
pub fn steps_of(alloc: Global, parts: &Parts) -> Result<Vec<Step>, NoMemory>
    ensures same { IfOk result (λ steps. steps.items ≡ map step_of parts.now) }
    ensures ordered { IfOk result (λ steps. AreOrdered steps.items) }
{
    let mut steps = Vec::with_capacity(alloc, parts.len())?;
    for i in 0..parts.len() {
        steps.push(step_of(parts.node(i)))?;
    }
    Ok(steps)
}
