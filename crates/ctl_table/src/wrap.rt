// Parts made from parts.
ghost use Rattle.std.specs.Prelude.{◌≡◌, ◌<◌, ◌++◌, true, length, drop, IfOk, OnOk, Some, []};
ghost use Rattle.std.specs.Option.{option_copied};
ghost use Rattle.ctl_formula.specs.Plain as plain;
ghost use Rattle.ctl_table.specs.Table as table;
ghost use Rattle.ctl_formula.specs.Tables.{at, plains, Makes};
ghost use Rattle.ctl_table.specs.Settings.{start_at, all_below, parts_at, not_first};
ghost use Rattle.ctl_table.specs.Settings.{MakesSome, MakesAll};

use crate::follow::Start;
use c_terms::NoMemory;
use ctl_formula::{Node, Parts};
use smpl_terms::Var;
use std::alloc::Global;

/// Returns a part under these quantifiers. The first variable is the outermost.
pub fn exists_all(
    alloc: Global,
    parts: &mut Parts,
    vars: &[Var],
    f: usize,
) -> Result<usize, NoMemory>
    requires { f < length parts.old }
    ensures made { IfOk result (λ i. Makes parts.old parts.new i
        (table.exists_all vars.now (at (plains parts.old) f))) }
{
    let mut found = f;
    let mut i = vars.len();
    while i > 0 {
        i -= 1;
        let x = vars[i].copy(alloc)?;
        found = parts.push(Node::Exists(x, found))?;
    }
    Ok(found)
}

pub fn and_all(parts: &mut Parts, f: usize, more: &[usize]) -> Result<usize, NoMemory>
    requires f { f < length parts.old }
    requires more { all_below (length parts.old) more.now ≡ true }
    ensures made { IfOk result (λ i. Makes parts.old parts.new i
        (table.and_all (at (plains parts.old) f) (parts_at parts.old more.now))) }
{
    let mut found = f;
    for g in more {
        found = parts.push(Node::And(found, *g))?;
    }
    Ok(found)
}

pub fn or_all(parts: &mut Parts, f: usize, more: &[usize]) -> Result<usize, NoMemory>
    requires f { f < length parts.old }
    requires more { all_below (length parts.old) more.now ≡ true }
    ensures made { IfOk result (λ i. Makes parts.old parts.new i
        (table.or_all (at (plains parts.old) f) (parts_at parts.old more.now))) }
{
    let mut found = f;
    for g in more {
        found = parts.push(Node::Or(found, *g))?;
    }
    Ok(found)
}

/// Returns the conjunction of the parts; without parts it is True.
pub fn all_of(parts: &mut Parts, fs: &[usize]) -> Result<usize, NoMemory>
    requires { all_below (length parts.old) fs.now ≡ true }
    ensures made { IfOk result (λ i. Makes parts.old parts.new i
        (table.all_of (parts_at parts.old fs.now))) }
{
    match fs {
        [] => parts.push(Node::True),
        [f, more @ ..] => and_all(parts, *f, more),
    }
}

/// Returns the disjunction of the parts; without parts it is `not` True.
fn any_of(parts: &mut Parts, fs: &[usize]) -> Result<usize, NoMemory>
    requires { all_below (length parts.old) fs.now ≡ true }
    ensures made { IfOk result (λ i. Makes parts.old parts.new i
        (table.any_of (parts_at parts.old fs.now))) }
{
    match fs {
        [] => {
            let f = parts.push(Node::True)?;
            parts.push(Node::Not(f))
        }
        [f, more @ ..] => or_all(parts, *f, more),
    }
}

/// Returns the part that says that a part holds at all next nodes, or at some.
fn next(parts: &mut Parts, forall_walks: bool, f: usize) -> Result<usize, NoMemory>
    requires { f < length parts.old }
    ensures made { IfOk result (λ i. Makes parts.old parts.new i
        (table.next_of forall_walks (at (plains parts.old) f))) }
{
    if forall_walks {
        return parts.push(Node::AX(f));
    }
    parts.push(Node::EX(f))
}

/// Returns the part for dots with condition `d` that lead to `t`.
pub fn until(
    parts: &mut Parts,
    forall_walks: bool,
    strict: bool,
    d: usize,
    t: usize,
) -> Result<usize, NoMemory>
    requires d { d < length parts.old }
    requires t { t < length parts.old }
    ensures made { IfOk result (λ i. Makes parts.old parts.new i
        (table.until forall_walks strict (at (plains parts.old) d) (at (plains parts.old) t))) }
{
    let some = parts.push(Node::EU(d, t))?;
    if !forall_walks {
        return Ok(some);
    }
    let to = or_early_exit(parts, strict, t)?;
    let all = parts.push(Node::AU(d, to))?;
    parts.push(Node::And(all, some))
}

fn or_early_exit(parts: &mut Parts, strict: bool, t: usize) -> Result<usize, NoMemory>
    requires { t < length parts.old }
    ensures made { IfOk result (λ i. Makes parts.old parts.new i
        (table.or_early_exit strict (at (plains parts.old) t))) }
{
    if strict {
        return Ok(t);
    }
    let bail = parts.push(Node::EarlyExit)?;
    parts.push(Node::Or(t, bail))
}

/// Returns the part for a nest whose part is `p`.
pub fn nested(
    parts: &mut Parts,
    forall_walks: bool,
    plus: bool,
    strict: bool,
    d: usize,
    p: usize,
    t: usize,
) -> Result<usize, NoMemory>
    requires d { d < length parts.old }
    requires p { p < length parts.old }
    requires t { t < length parts.old }
    ensures made { IfOk result (λ i. Makes parts.old parts.new i
        (table.nested forall_walks plus strict (at (plains parts.old) d) (at (plains parts.old) p) (at (plains parts.old) t))) }
{
    let no = parts.push(Node::Not(p))?;
    let either = parts.push(Node::Or(p, no))?;
    let through = parts.push(Node::And(d, either))?;
    let f = until(parts, forall_walks, strict, through, t)?;
    if !plus {
        return Ok(f);
    }
    let rest = parts.push(Node::EU(d, t))?;
    let here = parts.push(Node::And(d, p))?;
    let both = parts.push(Node::And(here, rest))?;
    let some = parts.push(Node::EU(d, both))?;
    parts.push(Node::And(f, some))
}

/// Returns the target of dots, given the block around them.
pub fn target(
    alloc: Global,
    parts: &mut Parts,
    around: Option<&Var>,
    start: Start,
    f: usize,
) -> Result<usize, NoMemory>
    requires { f < length parts.old }
    ensures made { IfOk result (λ i. Makes parts.old parts.new i
        (table.target (option_copied around.entry) (start_at start) (at (plains parts.old) f))) }
{
    match around {
        None => Ok(f),
        Some(b) => target_of_block(alloc, parts, b, start, f),
    }
}

/// Returns the target of dots in a block.
fn target_of_block(
    alloc: Global,
    parts: &mut Parts,
    b: &Var,
    start: Start,
    f: usize,
) -> Result<usize, NoMemory>
    requires { f < length parts.old }
    ensures made { IfOk result (λ i. Makes parts.old parts.new i
        (table.target (Some b.now) (start_at start) (at (plains parts.old) f))) }
{
    match start {
        Start::Brace => or_outside(alloc, parts, b, f),
        Start::Nothing => and_inside(alloc, parts, b, f),
        Start::Dots => and_inside(alloc, parts, b, f),
        Start::Other => and_inside(alloc, parts, b, f),
    }
}

/// Returns the disjunction of a part and a place outside the block.
fn or_outside(alloc: Global, parts: &mut Parts, b: &Var, f: usize) -> Result<usize, NoMemory>
    requires { f < length parts.old }
    ensures made { IfOk result (λ i. Makes parts.old parts.new i
        (plain.Or (at (plains parts.old) f) (plain.Outside b.now))) }
{
    let b = b.copy(alloc)?;
    let outside = parts.push(Node::Outside(b))?;
    parts.push(Node::Or(f, outside))
}

/// Returns the conjunction of a part and a place inside the block.
fn and_inside(alloc: Global, parts: &mut Parts, b: &Var, f: usize) -> Result<usize, NoMemory>
    requires { f < length parts.old }
    ensures made { IfOk result (λ i. Makes parts.old parts.new i
        (plain.And (plain.Inside b.now) (at (plains parts.old) f))) }
{
    let b = b.copy(alloc)?;
    let inside = parts.push(Node::Inside(b))?;
    parts.push(Node::And(inside, f))
}

/// Returns the conjunction of a part and another at the node past its statement.
pub fn and_after(parts: &mut Parts, f: usize, g: usize) -> Result<usize, NoMemory>
    requires f { f < length parts.old }
    requires g { g < length parts.old }
    ensures made { IfOk result (λ i. Makes parts.old parts.new i
        (plain.And (at (plains parts.old) f) (plain.After (at (plains parts.old) g)))) }
{
    let past = parts.push(Node::After(g))?;
    parts.push(Node::And(f, past))
}

/// Returns the conjunction of a part and another at the next nodes.
fn and_next(parts: &mut Parts, forall_walks: bool, f: usize, g: usize) -> Result<usize, NoMemory>
    requires f { f < length parts.old }
    requires g { g < length parts.old }
    ensures made { IfOk result (λ i. Makes parts.old parts.new i
        (plain.And (at (plains parts.old) f) (table.next_of forall_walks (at (plains parts.old) g)))) }
{
    let next = next(parts, forall_walks, g)?;
    parts.push(Node::And(f, next))
}

/// Returns the part for an atom or a statement variable, and what follows.
pub fn joined(
    parts: &mut Parts,
    forall_walks: bool,
    statement: bool,
    f: usize,
    start: Start,
    g: usize,
) -> Result<usize, NoMemory>
    requires f { f < length parts.old }
    requires g { g < length parts.old }
    ensures made { IfOk result (λ i. Makes parts.old parts.new i
        (table.joined forall_walks statement (at (plains parts.old) f)
        (start_at start) (at (plains parts.old) g))) }
{
    match start {
        Start::Nothing => Ok(f),
        Start::Dots => {
            if statement {
                return and_after(parts, f, g);
            }
            and_next(parts, forall_walks, f, g)
        }
        Start::Brace => and_after(parts, f, g),
        Start::Other => and_after(parts, f, g),
    }
}

/// Returns the disjunction of the parts, or `None` without parts.
pub fn or_some(parts: &mut Parts, fs: &[usize]) -> Result<Option<usize>, NoMemory>
    requires { all_below (length parts.old) fs.now ≡ true }
    ensures made { IfOk result (λ found. MakesSome parts.old parts.new found
        (table.or_some (parts_at parts.old fs.now))) }
{
    match fs {
        [] => Ok(None),
        [f, more @ ..] => Ok(Some(or_all(parts, *f, more)?)),
    }
}

/// Returns each part at the body with its number.
pub fn in_branches(
    alloc: Global,
    parts: &mut Parts,
    inside: &[usize],
) -> Result<Vec<usize>, NoMemory>
    requires { all_below (length parts.old) inside.now ≡ true }
    ensures made { IfOk result (λ made. MakesAll parts.old parts.new made.items (table.in_branches 0
        (parts_at parts.old inside.now))) }
{
    let mut made = Vec::new(alloc);
    for (i, f) in inside.iter().enumerate() {
        let down = parts.push(Node::InBranch(i, *f))?;
        made.push(down)?;
    }
    Ok(made)
}

/// Returns each branch with what follows it and the negations of the branches before it.
fn choices(
    alloc: Global,
    parts: &mut Parts,
    with: &[usize],
    alone: &[usize],
) -> Result<Vec<usize>, NoMemory>
    requires with { all_below (length parts.old) with.now ≡ true }
    requires alone { all_below (length parts.old) alone.now ≡ true }
    ensures made { IfOk result (λ made. MakesAll parts.old parts.new made.items
        (table.choices [] (parts_at parts.old with.now) (parts_at parts.old alone.now))) }
{
    let mut made = Vec::new(alloc);
    let mut earlier = Vec::new(alloc);
    for (i, f) in with.iter().enumerate() {
        let one = and_all(parts, *f, earlier.as_slice())?;
        made.push(one)?;
        exclude(parts, alone, i, &mut earlier)?;
    }
    Ok(made)
}

/// Adds the negation of the branch with this number, if there is one.
fn exclude(
    parts: &mut Parts,
    alone: &[usize],
    i: usize,
    earlier: &mut Vec<usize>,
) -> Result<(), NoMemory>
    requires alone { all_below (length parts.old) alone.now ≡ true }
    requires earlier { all_below (length parts.old) earlier.old.items ≡ true }
    ensures made { OnOk result (MakesAll parts.old parts.new earlier.new.items
        (parts_at parts.old earlier.old.items
        ++ not_first (drop i (parts_at parts.old alone.now)))) }
{
    if i < alone.len() {
        let not = parts.push(Node::Not(alone[i]))?;
        earlier.push(not)?;
    }
    Ok(())
}

/// Returns the part for the first branch that holds. `alone` may omit the last branch.
pub fn first_branch(
    alloc: Global,
    parts: &mut Parts,
    with: &[usize],
    alone: &[usize],
) -> Result<usize, NoMemory>
    requires with { all_below (length parts.old) with.now ≡ true }
    requires alone { all_below (length parts.old) alone.now ≡ true }
    ensures made { IfOk result (λ i. Makes parts.old parts.new i
        (table.any_of (table.choices [] (parts_at parts.old with.now) (parts_at parts.old alone.now)))) }
{
    let but_last = &alone[..alone.len().min(with.len().saturating_sub(1))];
    let made = choices(alloc, parts, with, but_last)?;
    any_of(parts, made.as_slice())
}
