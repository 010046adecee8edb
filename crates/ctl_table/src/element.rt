// Elements whose parts are made.
ghost use Rattle.std.specs.Prelude.{◌≡◌, ◌<◌, length, true, IfOk};
ghost use Rattle.ctl_formula.specs.Plain as plain;
ghost use Rattle.ctl_formula.specs.Tables.{at, plains, Makes};
ghost use Rattle.ctl_table.specs.Table as table;
ghost use Rattle.ctl_table.specs.Settings.{setting_at, all_below, parts_at, dots_below, made_below, follow};
ghost use Rattle.ctl_table.specs.Settings.{dots_before, MakesFollow};

use crate::dots::follow_at;
use crate::follow::{Continuation, DotsContinuation, Start, start_of};
use crate::own::{own_atom, own_open};
use crate::setting::Setting;
use crate::wrap::{and_after, and_all, exists_all, in_branches, joined, target};
use c_terms::NoMemory;
use ctl_formula::{Node, Parts};
use pattern_vars::{Place, Scope};
use smpl_patch::Pattern;
use smpl_terms::{Shared, Var};
use std::alloc::Global;

/// Returns an element's formula as what follows, under the variables quantified at its suffix.
pub fn part(
    alloc: Global,
    parts: &mut Parts,
    m: &Setting,
    place: &Place,
    f: usize,
) -> Result<Continuation, NoMemory>
    requires { f < length parts.old }
    ensures made { IfOk result (λ made. MakesFollow (setting_at m.now) parts.old parts.new made
        table.Other (λ b t. table.exists_all place.now.here (at (plains parts.old) f))) }
{
    let f = exists_all(alloc, parts, place.here.as_slice(), f)?;
    Ok(Continuation::Part(Start::Other, f))
}

/// Returns the part for an atom and what follows it.
pub fn joined_next(
    alloc: Global,
    parts: &mut Parts,
    m: &Setting,
    statement: bool,
    f: usize,
    next: &Continuation,
    scope: &Scope,
) -> Result<usize, NoMemory>
    requires f { f < length parts.old }
    requires next { made_below (length parts.old) next.now ≡ true }
    ensures made { let k = follow parts.old m.now next.now in
        IfOk result (λ i. Makes parts.old parts.new i
        (table.joined m.now.forall_walks statement (at (plains parts.old) f)
        k.start (k.at scope.now))) }
{
    match next {
        Continuation::Nothing => Ok(f),
        _ => {
            let g = follow_at(alloc, parts, m, next, scope)?;
            joined(parts, m.forall_walks, statement, f, start_of(next), g)
        }
    }
}

/// Returns the part for a statement and what follows the statement.
pub fn after_next(
    alloc: Global,
    parts: &mut Parts,
    m: &Setting,
    f: usize,
    next: &Continuation,
    scope: &Scope,
) -> Result<usize, NoMemory>
    requires f { f < length parts.old }
    requires next { made_below (length parts.old) next.now ≡ true }
    ensures made { let k = follow parts.old m.now next.now in
        IfOk result (λ i. Makes parts.old parts.new i
        (plain.And (at (plains parts.old) f) (plain.After (k.at scope.now)))) }
{
    let g = follow_at(alloc, parts, m, next, scope)?;
    and_after(parts, f, g)
}

/// Returns the part for a head with its bodies and its tail.
pub fn headed(
    alloc: Global,
    parts: &mut Parts,
    m: &Setting,
    h: &Pattern,
    inside: &[usize],
    tail: &Option<Pattern>,
    vars: &[Var],
) -> Result<usize, NoMemory>
    requires { all_below (length parts.old) inside.now ≡ true }
    ensures made { IfOk result (λ i. Makes parts.old parts.new i
        (table.with_tail (setting_at m.now) vars.now tail.now
        (table.and_all (table.own (setting_at m.now) vars.now h.now (plain.Atom h.now))
        (table.in_branches 0 (parts_at parts.old inside.now))))) }
{
    let in_branches = in_branches(alloc, parts, inside)?;
    let head = own_atom(alloc, parts, m, vars, h)?;
    let f = and_all(parts, head, in_branches.as_slice())?;
    with_tail(alloc, parts, m, vars, tail, f)
}

fn with_tail(
    alloc: Global,
    parts: &mut Parts,
    m: &Setting,
    vars: &[Var],
    tail: &Option<Pattern>,
    f: usize,
) -> Result<usize, NoMemory>
    requires { f < length parts.old }
    ensures made { IfOk result (λ i. Makes parts.old parts.new i
        (table.with_tail (setting_at m.now) vars.now tail.now (at (plains parts.old) f))) }
{
    match tail {
        None => Ok(f),
        Some(p) => {
            let own = own_atom(alloc, parts, m, vars, p)?;
            let down = parts.push(Node::InBranch(1, own))?;
            parts.push(Node::And(f, down))
        }
    }
}

/// Returns the part for an opening brace and the contents of its block.
pub fn braced(
    alloc: Global,
    parts: &mut Parts,
    m: &Setting,
    vars: &[Var],
    o: &Pattern,
    v: Var,
    inside: usize,
) -> Result<usize, NoMemory>
    requires { inside < length parts.old }
    ensures made { IfOk result (λ i. Makes parts.old parts.new i
        (plain.Exists v
        (plain.And (table.own (setting_at m.now) vars.now o.now (plain.BraceOpen o.now v))
        (plain.InBranch 0 (at (plains parts.old) inside))))) }
{
    let open = own_open(alloc, parts, m, vars, o, &v)?;
    let down = parts.push(Node::InBranch(0, inside))?;
    let both = parts.push(Node::And(open, down))?;
    parts.push(Node::Exists(v, both))
}

/// Returns dots before what may follow them, as reached from this scope.
pub fn dots(
    alloc: Global,
    parts: &mut Parts,
    m: &Setting,
    d: &Shared<DotsContinuation>,
    next: &Continuation,
    scope: &Scope,
) -> Result<Continuation, NoMemory>
    requires d { dots_below (length parts.old) d.now ≡ true }
    requires next { made_below (length parts.old) next.now ≡ true }
    ensures made { IfOk result (λ made. MakesFollow (setting_at m.now) parts.old parts.new made
        table.Dots (dots_before (plains parts.old) (setting_at m.now) d.now
        (follow parts.old m.now next.now) scope.now)) }
{
    let g = follow_at(alloc, parts, m, next, scope)?;
    let target = target(alloc, parts, m.around, start_of(next), g)?;
    Ok(Continuation::Dots(d.share()?, target, None))
}

/// Returns `not` a piece of `when` code, under the variables quantified around it.
pub fn not_piece(
    alloc: Global,
    parts: &mut Parts,
    alone: &[Var],
    f: usize,
) -> Result<usize, NoMemory>
    requires { f < length parts.old }
    ensures made { IfOk result (λ i. Makes parts.old parts.new i
        (plain.Not (table.exists_all alone.now (at (plains parts.old) f)))) }
{
    let f = exists_all(alloc, parts, alone, f)?;
    parts.push(Node::Not(f))
}
