// The table from the elements of a body to formulas.
ghost use Rattle.std.specs.Prelude.{◌≡◌, ◌≤◌, length, map, true, IfOk, None};
ghost use Rattle.std.specs.List.{filter};
ghost use Rattle.std.specs.Option.{option_copied};
ghost use Rattle.smpl_patch.specs.Bodies.{body, element};
ghost use Rattle.smpl_patch.specs.Bodies as bodies;
ghost use Rattle.smpl_patch.proofs.BodyLemmas.{bodies as bodies_of};
ghost use Rattle.ctl_formula.specs.Tables.{Makes};
ghost use Rattle.pattern_vars.specs.VarPlaces.Placing.{occurs_body};
ghost use Rattle.ctl_table.specs.Table as table;
ghost use Rattle.pattern_vars.specs.VarPlaces.Places.{reading_at};
ghost use Rattle.ctl_table.specs.Settings.{setting_at, element_or_none};
ghost use Rattle.ctl_table.specs.Settings.{made_below, all_made_below, follow, suffix_at};
ghost use Rattle.ctl_table.specs.Settings.{start_with, compound_at, block_at, when_at};
ghost use Rattle.ctl_table.specs.Settings.{MakesAll, MakesFollows};
ghost use Rattle.ctl_table.specs.Columns.{MakesColumns};
ghost use Rattle.ctl_table.specs.Suffixes.{begins, along};

use crate::each::{
    after_each, and_each, atoms, behind_each, deeper_each, dots_each, first_branches, follows_at,
    no_branches, part_each,
};
use crate::element::{braced, headed, not_piece};
use crate::follow::{Continuation, NestPart, Start, with_nothing};
use crate::own::{hidden, own_close};
use crate::setting::Setting;
use crate::unquantified::{in_order, lone};
use c_terms::NoMemory;
use ctl_formula::Parts;
use pattern_vars::{Place, Scope, extended, in_body, places_of};
use smpl_patch::{Elem, Pattern};
use smpl_terms::Var;
use sqlite_items::Items;
use std::alloc::Global;
use std::slice::from_ref;

/// Returns the part for a sequence, under the variables quantified inside it and around it, and what follows it. An
/// element is processed once for everything that may follow it: d + 1 things at most inside d disjunctions.
#[cycle(rows)]
pub fn sequence(
    alloc: Global,
    parts: &mut Parts,
    m: &Setting,
    b: &[Elem],
    next: &Continuation,
    vars: &[Var],
    scope: &Scope,
) -> Result<usize, NoMemory>
    requires { made_below (length parts.old) next.now ≡ true }
    ensures made { IfOk result (λ i. Makes parts.old parts.new i
        (table.seq (setting_at m.now) None (body b.now)
        (follow parts.old m.now next.now)
        vars.now scope.now scope.now)) }
{
    let nexts = from_ref(next);
    let made = sequences(alloc, parts, m, b, nexts, vars, scope)?;
    Ok(made[0])
}

/// Returns the parts for a sequence before each of the things that may follow it.
#[cycle(rows)]
fn sequences(
    alloc: Global,
    parts: &mut Parts,
    m: &Setting,
    b: &[Elem],
    nexts: &[Continuation],
    vars: &[Var],
    scope: &Scope,
) -> Result<Vec<usize>, NoMemory>
    requires { all_made_below (length parts.old) nexts.now ≡ true }
    ensures made { IfOk result (λ is. MakesAll parts.old parts.new is.items
        (map (λ next. table.seq (setting_at m.now) None (body b.now)
        (follow parts.old m.now next)
        vars.now scope.now scope.now) nexts.now)) }
{
    if b.len() == 0 {
        return follows_at(alloc, parts, m, nexts, scope);
    }
    let places = places_of(alloc, &m.reader, b, vars, scope)?;
    let made = suffixes(alloc, parts, m, b, nexts, places.as_slice())?;
    follows_at(alloc, parts, m, made.as_slice(), scope)
}

/// Returns the whole of a sequence, for what is before it. Its suffixes are made from the last one on.
#[cycle(rows)]
fn suffixes(
    alloc: Global,
    parts: &mut Parts,
    m: &Setting,
    b: &[Elem],
    nexts: &[Continuation],
    places: &[Place],
) -> Result<Vec<Continuation>, NoMemory>
    requires nexts { all_made_below (length parts.old) nexts.now ≡ true }
    requires some { 1 ≤ length b.now }
    requires places { length places.now ≡ length b.now }
    ensures made { IfOk result (λ made.
        MakesFollows (setting_at m.now) parts.old parts.new nexts.now made.items
        (λ next. begins b.now (follow parts.old m.now next).start)
        (λ next. along (setting_at m.now) (follow parts.old m.now next)
        b.now places.now)) }
{
    let mut i = b.len() - 1;
    let mut made = suffix(alloc, parts, m, None, &b[i], nexts, &places[i])?;
    while i > 0 {
        i -= 1;
        let e = &b[i];
        let place = &places[i];
        let behind = behind_each(alloc, parts, m, e, made.as_slice(), &place.scope)?;
        let behind = behind.as_slice();
        made = suffix(alloc, parts, m, Some(&b[i + 1]), e, behind, place)?;
    }
    Ok(made)
}

/// Returns the suffix that begins with an element, for what is before it. What is inside the element is made once,
/// except for branches, which include what follows.
#[cycle(rows)]
fn suffix(
    alloc: Global,
    parts: &mut Parts,
    m: &Setting,
    after: Option<&Elem>,
    e: &Elem,
    nexts: &[Continuation],
    place: &Place,
) -> Result<Vec<Continuation>, NoMemory>
    requires { all_made_below (length parts.old) nexts.now ≡ true }
    ensures made { IfOk result (λ made.
        MakesFollows (setting_at m.now) parts.old parts.new nexts.now made.items
        (λ next. start_with (element e.now))
        (λ next. suffix_at (setting_at m.now) (element_or_none (option_copied after.entry)) (element e.now)
        (follow parts.old m.now next) place.now)) }
{
    let vars = place.inside.as_slice();
    let scope = &place.scope;
    match e {
        Elem::Atom(p) => {
            let fs = atoms(alloc, parts, m, p, nexts, vars, scope)?;
            part_each(alloc, parts, m, place, fs.as_slice())
        }
        Elem::Compound(h, bodies, tail) => {
            let bodies = bodies.as_slice();
            let f = compound(alloc, parts, m, h, bodies, tail, vars, scope)?;
            let fs = after_each(alloc, parts, m, f, nexts, scope)?;
            part_each(alloc, parts, m, place, fs.as_slice())
        }
        Elem::Block(o, b, c) => {
            let f = block(alloc, parts, m, o, b.as_slice(), c, vars, scope)?;
            let fs = after_each(alloc, parts, m, f, nexts, scope)?;
            part_each(alloc, parts, m, place, fs.as_slice())
        }
        Elem::Gap(d) => {
            let whens = when_parts(alloc, parts, m, d.whens.as_slice(), scope)?;
            dots_each(alloc, parts, m, after, d, whens, None, nexts, place)
        }
        Elem::Nest(plus, b, d) => {
            let part = nest(alloc, parts, m, b.as_slice(), vars, scope)?;
            let whens = when_parts(alloc, parts, m, d.whens.as_slice(), scope)?;
            let nest = Some(NestPart { plus: *plus, part });
            dots_each(alloc, parts, m, after, d, whens, nest, nexts, place)
        }
        Elem::AnyOf(bodies) => {
            let bodies = bodies.as_slice();
            let nexts = deeper_each(alloc, parts, m, nexts, scope)?;
            let nexts = nexts.as_slice();
            let fs = choice(alloc, parts, m, bodies, nexts, vars, scope)?;
            part_each(alloc, parts, m, place, fs.as_slice())
        }
        Elem::AllOf(bodies) => {
            let bodies = bodies.as_slice();
            let fs = every(alloc, parts, m, bodies, nexts, vars, scope)?;
            part_each(alloc, parts, m, place, fs.as_slice())
        }
    }
}

/// Returns the part for a head with its bodies and its tail.
#[cycle(rows)]
fn compound(
    alloc: Global,
    parts: &mut Parts,
    m: &Setting,
    h: &Pattern,
    bs: &[Items<Elem>],
    tail: &Option<Pattern>,
    vars: &[Var],
    scope: &Scope,
) -> Result<usize, NoMemory>
    ensures made { IfOk result (λ i. Makes parts.old parts.new i
        (compound_at (setting_at m.now) h.now (bodies_of bs.now) tail.now vars.now scope.now)) }
{
    let inside = each(alloc, parts, m, bs, vars, scope)?;
    headed(alloc, parts, m, h, inside.as_slice(), tail, vars)
}

/// Returns the part for a block's braces and their contents.
#[cycle(rows)]
fn block(
    alloc: Global,
    parts: &mut Parts,
    m: &Setting,
    o: &Pattern,
    b: &[Elem],
    c: &Pattern,
    vars: &[Var],
    scope: &Scope,
) -> Result<usize, NoMemory>
    ensures made { IfOk result (λ i. Makes parts.old parts.new i
        (block_at (setting_at m.now) o.now (body b.now) c.now vars.now scope.now)) }
{
    let v = hidden(alloc, m, o)?;
    let close = own_close(alloc, parts, m, vars, c, &v)?;
    let brace = Continuation::Part(Start::Brace, close);
    let own = in_body(alloc, &m.reader, b, vars)?;
    let inner = m.within(&v);
    let inside = sequence(alloc, parts, &inner, b, &brace, own.as_slice(), scope)?;
    braced(alloc, parts, m, vars, o, v, inside)
}

/// Returns the part of a nest.
#[cycle(rows)]
fn nest(
    alloc: Global,
    parts: &mut Parts,
    m: &Setting,
    b: &[Elem],
    vars: &[Var],
    scope: &Scope,
) -> Result<usize, NoMemory>
    ensures made { IfOk result (λ i. Makes parts.old parts.new i
        (table.seq (setting_at m.now) None (body b.now) table.nothing
        (filter (occurs_body (reading_at m.now.reader) (body b.now)) vars.now) scope.now scope.now)) }
{
    let own = in_body(alloc, &m.reader, b, vars)?;
    let own = own.as_slice();
    sequence(alloc, parts, m, b, &Continuation::Nothing, own, scope)
}

/// Returns `not` each piece of `when` code.
#[cycle(rows)]
fn when_parts(
    alloc: Global,
    parts: &mut Parts,
    m: &Setting,
    whens: &[Items<Elem>],
    scope: &Scope,
) -> Result<Vec<usize>, NoMemory>
    ensures made { IfOk result (λ is. MakesAll parts.old parts.new is.items
        (table.when_parts (setting_at m.now) (bodies_of whens.now) scope.now)) }
{
    let mut made = Vec::new(alloc);
    for w in whens {
        let part = when_part(alloc, parts, m, w.as_slice(), scope)?;
        made.push(part)?;
    }
    Ok(made)
}

#[cycle(rows)]
fn when_part(
    alloc: Global,
    parts: &mut Parts,
    m: &Setting,
    w: &[Elem],
    scope: &Scope,
) -> Result<usize, NoMemory>
    ensures made { IfOk result (λ i. Makes parts.old parts.new i
        (when_at (setting_at m.now) (body w.now) scope.now)) }
{
    let alone = lone(alloc, m, w)?;
    let alone = alone.as_slice();
    let around = extended(alloc, scope, alone)?;
    let f = sequence(alloc, parts, m, w, &Continuation::Nothing, &[], &around)?;
    not_piece(alloc, parts, alone, f)
}

/// Returns the parts for the first branch that holds, before each of the things that may follow. Each branch is
/// processed once: the last for these things, and each of the others also for nothing, since it is excluded at later
/// branches.
#[cycle(rows)]
fn choice(
    alloc: Global,
    parts: &mut Parts,
    m: &Setting,
    bs: &[Items<Elem>],
    nexts: &[Continuation],
    vars: &[Var],
    scope: &Scope,
) -> Result<Vec<usize>, NoMemory>
    requires { all_made_below (length parts.old) nexts.now ≡ true }
    ensures made { IfOk result (λ is. MakesAll parts.old parts.new is.items
        (map (λ next. table.elem (setting_at m.now) None None (bodies.AnyOf (bodies_of bs.now))
        (follow parts.old m.now next)
        vars.now scope.now scope.now) nexts.now)) }
{
    match bs {
        [] => no_branches(alloc, parts, nexts),
        [front @ .., last] => {
            let all = with_nothing(alloc, nexts)?;
            let all = all.as_slice();
            let rows = branches(alloc, parts, m, front, all, vars, scope)?;
            let last = last.as_slice();
            let ends = one_branch(alloc, parts, m, last, nexts, vars, scope)?;
            let ends = ends.as_slice();
            first_branches(alloc, parts, rows.as_slice(), ends, all.len() - 1)
        }
    }
}

/// Returns the parts of a branch, one for each of the things that may follow.
#[cycle(rows)]
fn one_branch(
    alloc: Global,
    parts: &mut Parts,
    m: &Setting,
    b: &[Elem],
    nexts: &[Continuation],
    vars: &[Var],
    scope: &Scope,
) -> Result<Vec<usize>, NoMemory>
    requires { all_made_below (length parts.old) nexts.now ≡ true }
    ensures made { IfOk result (λ is. MakesAll parts.old parts.new is.items
        (map (λ next. table.seq (setting_at m.now) None (body b.now)
        (follow parts.old m.now next)
        (filter (occurs_body (reading_at m.now.reader) (body b.now)) vars.now)
        scope.now scope.now) nexts.now)) }
{
    let own = in_body(alloc, &m.reader, b, vars)?;
    let own = own.as_slice();
    sequences(alloc, parts, m, b, nexts, own, scope)
}

/// Returns the parts of each branch, one for each of the things that may follow.
#[cycle(rows)]
fn branches(
    alloc: Global,
    parts: &mut Parts,
    m: &Setting,
    bs: &[Items<Elem>],
    nexts: &[Continuation],
    vars: &[Var],
    scope: &Scope,
) -> Result<Vec<Items<usize>>, NoMemory>
    requires { all_made_below (length parts.old) nexts.now ≡ true }
    ensures made { IfOk result (λ rows. MakesColumns parts.old parts.new nexts.now rows.items
        (λ next. table.each (setting_at m.now) (bodies_of bs.now)
        (follow parts.old m.now next) vars.now scope.now)) }
{
    let ordered = in_order(alloc, vars)?;
    let mut rows = Vec::new(alloc);
    for b in bs {
        let body = b.as_slice();
        let own = ordered.in_body(alloc, &m.reader, body)?;
        let own = own.as_slice();
        let row = sequences(alloc, parts, m, body, nexts, own, scope)?;
        rows.push(Items::from_vec(row))?;
    }
    Ok(rows)
}

/// Returns the parts for all branches, the first one before each of the things that may follow.
#[cycle(rows)]
fn every(
    alloc: Global,
    parts: &mut Parts,
    m: &Setting,
    bs: &[Items<Elem>],
    nexts: &[Continuation],
    vars: &[Var],
    scope: &Scope,
) -> Result<Vec<usize>, NoMemory>
    requires { all_made_below (length parts.old) nexts.now ≡ true }
    ensures made { IfOk result (λ is. MakesAll parts.old parts.new is.items
        (map (λ next. table.elem (setting_at m.now) None None (bodies.AllOf (bodies_of bs.now))
        (follow parts.old m.now next)
        vars.now scope.now scope.now) nexts.now)) }
{
    match bs {
        [] => follows_at(alloc, parts, m, nexts, scope),
        [b, more @ ..] => {
            let first = b.as_slice();
            let fs = one_branch(alloc, parts, m, first, nexts, vars, scope)?;
            let others = each(alloc, parts, m, more, vars, scope)?;
            and_each(alloc, parts, fs.as_slice(), others.as_slice())
        }
    }
}

/// Returns the parts for bodies or branches that nothing follows.
#[cycle(rows)]
fn each(
    alloc: Global,
    parts: &mut Parts,
    m: &Setting,
    bs: &[Items<Elem>],
    vars: &[Var],
    scope: &Scope,
) -> Result<Vec<usize>, NoMemory>
    ensures made { IfOk result (λ is. MakesAll parts.old parts.new is.items
        (table.each (setting_at m.now) (bodies_of bs.now) table.nothing vars.now scope.now)) }
{
    let ordered = in_order(alloc, vars)?;
    let mut made = Vec::new(alloc);
    for b in bs {
        let body = b.as_slice();
        let own = ordered.in_body(alloc, &m.reader, body)?;
        let own = own.as_slice();
        let row = sequence(alloc, parts, m, body, &Continuation::Nothing, own, scope)?;
        made.push(row)?;
    }
    Ok(made)
}
