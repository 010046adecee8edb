// Which variables the nodes of a table name, by their numbers.
ghost use Rattle.std.specs.Prelude.{◌≡◌, ◌<◌, ◌+◌, ◌*◌, ◌/◌, ◌&&◌, ◌||◌, ℕ, true, length, nat_eq, Some, slice_get, slice_index, IfOk, OnOk};
ghost use Rattle.smpl_terms.specs.declared.var.Var.{Var as Variable};
ghost use Rattle.smpl_terms.specs.Vars.{same_var};
ghost use Rattle.smpl_patch.specs.Patterns.{sure};
ghost use Rattle.pattern_vars.specs.Reads.{has, number_of, is_number, is_declared};
ghost use Rattle.ctl_formula.specs.declared.node.Node.{Node as Part};
ghost use Rattle.ctl_translate.specs.CtlBound.Bits.{is_bit};
ghost use Rattle.ctl_translate.specs.CtlBound.Naming.{names, is_marked, AreMarked, lists_of, group_of};

use c_terms::NoMemory;
use ctl_formula::{Node, Parts};
use pattern_vars::{Decls, VarSet, put_sure};
use smpl_patch::{PatToken, Pattern};
use smpl_terms::Var;
use std::alloc::Global;

/// Says that a part of a table names a variable.
#[derive(Clone, Copy)]
pub struct Mark {
    /// The number of the part.
    pub part: usize,
    /// The number of the variable.
    pub variable: usize,
}

/// Adds the variables that a brace names: those that its pattern surely has, and the one that is its place.
fn put_brace(
    alloc: Global,
    decls: &Decls,
    tokens: &[PatToken],
    p: &Pattern,
    b: &Var,
    set: &mut VarSet,
) -> Result<(), NoMemory>
    ensures { OnOk result ((x : Variable) → is_declared decls.now x ≡ true → has set.new x
        ≡ (has set.old x || (sure decls.now tokens.now p.now x || same_var b.now x))) }
{
    put_sure(alloc, decls, tokens, p, set)?;
    set.put(alloc, b)?;
    Ok(())
}

/// Adds the variables that the node names.
fn put_names(
    alloc: Global,
    decls: &Decls,
    tokens: &[PatToken],
    node: &Node,
    set: &mut VarSet,
) -> Result<(), NoMemory>
    ensures { OnOk result ((x : Variable) → is_declared decls.now x ≡ true → has set.new x
        ≡ (has set.old x || names (sure decls.now tokens.now) node.now x)) }
{
    match node {
        Node::True => Ok(()),
        Node::Atom(p) => put_sure(alloc, decls, tokens, p, set),
        Node::EarlyExit => Ok(()),
        Node::BraceOpen(p, b) => put_brace(alloc, decls, tokens, p, b, set),
        Node::BraceClose(p, b) => put_brace(alloc, decls, tokens, p, b, set),
        Node::Inside(b) => set.put(alloc, b),
        Node::Outside(_) => Ok(()),
        Node::Not(_) => Ok(()),
        Node::And(_, _) => Ok(()),
        Node::Or(_, _) => Ok(()),
        Node::AX(_) => Ok(()),
        Node::EX(_) => Ok(()),
        Node::AU(_, _) => Ok(()),
        Node::EU(_, _) => Ok(()),
        Node::After(_) => Ok(()),
        Node::InBranch(_, _) => Ok(()),
        Node::Exists(y, _) => set.put(alloc, y),
    }
}

/// Marks the part with the variable, if the variable has a number.
fn push_mark(
    alloc: Global,
    vars: &VarSet,
    part: usize,
    x: &Var,
    marks: &mut Vec<Mark>,
) -> Result<(), NoMemory>
    ensures { OnOk result ((i k : ℕ) → is_marked marks.new.items i k
        ≡ (is_marked marks.old.items i k || (nat_eq part i && is_number (number_of vars.now x.now) k))) }
{
    match vars.number(alloc, x)? {
        Some(variable) => {
            marks.push(Mark { part, variable })?;
            Ok(())
        }
        None => Ok(()),
    }
}

/// Marks the part with the variables of the set that have numbers.
fn push_marks(
    alloc: Global,
    vars: &VarSet,
    part: usize,
    set: &VarSet,
    marks: &mut Vec<Mark>,
) -> Result<(), NoMemory>
    ensures { OnOk result ((x : Variable) → (i k : ℕ) → number_of vars.now x ≡ Some k → is_marked marks.new.items i k
        ≡ (is_marked marks.old.items i k || (nat_eq part i && has set.now x))) }
{
    for j in 0..set.len() {
        push_mark(alloc, vars, part, set.at(j), marks)?;
    }
    Ok(())
}

/// Marks the part with the variables that it names and that have numbers.
fn push_part(
    alloc: Global,
    parts: &Parts,
    decls: &Decls,
    tokens: &[PatToken],
    vars: &VarSet,
    part: usize,
    marks: &mut Vec<Mark>,
) -> Result<(), NoMemory>
    requires within { part < length parts.now }
    requires vars { (x : Variable) → has vars.now x ≡ is_declared decls.now x }
    ensures { OnOk result ((x : Variable) → (i k : ℕ) → (n : Part) → number_of vars.now x ≡ Some k
        → slice_get parts.now part ≡ Some n → is_marked marks.new.items i k
        ≡ (is_marked marks.old.items i k || (nat_eq part i && names (sure decls.now tokens.now) n x))) }
{
    let mut set = VarSet::new(alloc);
    put_names(alloc, decls, tokens, parts.node(part), &mut set)?;
    push_marks(alloc, vars, part, &set, marks)?;
    Ok(())
}

/// Returns the marks that say which parts name which of the variables. Each pattern is read once.
pub fn marks_of(
    alloc: Global,
    parts: &Parts,
    decls: &Decls,
    tokens: &[PatToken],
    vars: &VarSet,
) -> Result<Vec<Mark>, NoMemory>
    requires { (x : Variable) → has vars.now x ≡ is_declared decls.now x }
    ensures { IfOk result (λ marks. (x : Variable) → (k : ℕ) → number_of vars.now x ≡ Some k
        → AreMarked (sure decls.now tokens.now) x k parts.now marks.items) }
{
    let mut marks = Vec::new(alloc);
    for part in 0..parts.len() {
        push_part(alloc, parts, decls, tokens, vars, part, &mut marks)?;
    }
    Ok(marks)
}

/// Adds the mark to the group of its variable, if there is such a group.
fn put_in_group(mark: &Mark, groups: &mut Vec<Vec<Mark>>) -> Result<(), NoMemory>
    ensures len { OnOk result (length groups.new.items ≡ length groups.old.items) }
    ensures marks { OnOk result ((i k : ℕ) → k / 64 < length groups.old.items
        → is_marked (group_of (lists_of groups.new.items) k) i k
        ≡ (is_marked (group_of (lists_of groups.old.items) k) i k
        || (nat_eq mark.now.part i && nat_eq mark.now.variable k))) }
{
    let group = mark.variable / 64;
    if group < groups.len() {
        groups[group].push(*mark)?;
    }
    Ok(())
}

/// Returns the marks by the groups of their variables: `count` lists, one for each 64 variables. Marks of later
/// variables are omitted. Linear in both.
pub fn grouped(alloc: Global, marks: &[Mark], count: usize) -> Result<Vec<Vec<Mark>>, NoMemory>
    ensures len { IfOk result (λ groups. length groups.items ≡ count) }
    ensures marks { IfOk result (λ groups. (i k : ℕ) → k / 64 < count
        → is_marked (group_of (lists_of groups.items) k) i k ≡ is_marked marks.now i k) }
{
    let mut groups = Vec::with_capacity(alloc, count)?;
    for _ in 0..count {
        groups.push(Vec::new(alloc))?;
    }
    for mark in marks {
        put_in_group(mark, &mut groups)?;
    }
    Ok(groups)
}

/// Sets the mark's bit in the mask of its part, if the mark's variable is in the group with this number.
fn put_bit(mark: &Mark, group: usize, named: &mut [u64])
    ensures { (i k : ℕ) → i < length named.old → k < 64 → is_bit (slice_index named.new i) k
        ≡ (is_bit (slice_index named.old i) k || (nat_eq mark.now.part i && nat_eq mark.now.variable (64 * group + k))) }
{
    if mark.variable / 64 == group && mark.part < named.len() {
        named[mark.part] |= 1 << (mark.variable % 64);
    }
}

/// Writes for each part which of the 64 variables of the group with this number it names, one bit each, over the old
/// contents. Takes one pass over the parts and the marks; allocates nothing.
pub fn put_named(marks: &[Mark], group: usize, named: &mut [u64])
    ensures { (i k : ℕ) → i < length named.old → k < 64 → is_bit (slice_index named.new i) k
        ≡ is_marked marks.now i (64 * group + k) }
{
    named.fill(0);
    for mark in marks {
        put_bit(mark, group, named);
    }
}
