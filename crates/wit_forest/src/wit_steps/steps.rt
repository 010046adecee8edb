// What a part of the formula at a node leads to.
ghost use Rattle.std.specs.Prelude.{◌≡◌, ℕ, ◌<◌, ◌++◌, ◌∷◌, [], true, length, slice_index_or, slice_get, IfOk, Contains, map, if◌then◌else◌};
ghost use Rattle.std.specs.List.{flat_map};
ghost use Rattle.cfg_build.specs.CfgGraph.Flow.{IsSound, count_of, succ_of, down_of};
ghost use Rattle.smpl_terms.specs.Environments.{total};
ghost use Rattle.ctl_formula.specs.Tables.{below};
ghost use Rattle.wit_forest.specs.WitSteps.Steps as spec;

use c_terms::NoMemory;
use cfg_build::Graph;
use ctl_formula::Node;
use env_sets::{StateSets, denotes};
use smpl_terms::Env;
use std::alloc::Global;

/// Whether the set of the part at the node has the environment.
fn told(sets: &StateSets, part: usize, node: u32, env: &Env) -> bool
    requires part { part < length sets.now }
    requires node { node < length (slice_index_or sets.now part []) }
    ensures { result ≡ spec.told sets.now (total env.now) part node }
{
    denotes(sets.at(part, node), env)
}

fn one(alloc: Global, part: usize, node: u32) -> Result<Vec<(usize, u32)>, NoMemory>
    ensures { IfOk result (λ r. r.items ≡ (part, node) ∷ []) }
{
    let mut kids = Vec::new(alloc);
    kids.push((part, node))?;
    Ok(kids)
}

fn put(kids: &mut Vec<(usize, u32)>, part: usize, node: u32) -> Result<(), NoMemory>
    ensures { IfOk result (λ _. kids.new.items ≡ kids.old.items ++ (part, node) ∷ []) }
{
    kids.push((part, node))?;
    Ok(())
}

fn put_if(kids: &mut Vec<(usize, u32)>, here: bool, part: usize, node: u32) -> Result<(), NoMemory>
    ensures { IfOk result (λ _. kids.new.items ≡ kids.old.items ++ (if here then (part, node) ∷ [] else [])) }
{
    if here {
        return put(kids, part, node);
    }
    Ok(())
}

/// Adds the part at the node, if it holds there.
fn put_held(
    kids: &mut Vec<(usize, u32)>,
    g: &Graph,
    sets: &StateSets,
    part: usize,
    node: u32,
    env: &Env,
) -> Result<(), NoMemory>
    requires part { part < length sets.now }
    requires node { node < length (slice_index_or sets.now part []) }
    ensures { IfOk result (λ _. kids.new.items
        ≡ kids.old.items ++ spec.held g.now (spec.told sets.now (total env.now)) part node) }
{
    let here = told(sets, part, node, env);
    put_if(kids, here, part, node)
}

/// Returns the part at each next node.
fn every_next(alloc: Global, next: &[u32], part: usize) -> Result<Vec<(usize, u32)>, NoMemory>
    ensures { IfOk result (λ r. r.items ≡ map (λ k. (part, k)) next.now) }
{
    let mut kids = Vec::with_capacity(alloc, next.len())?;
    for k in next {
        kids.push((part, *k))?;
    }
    Ok(kids)
}

fn both(alloc: Global, i: usize, j: usize, s: u32) -> Result<Vec<(usize, u32)>, NoMemory>
    ensures { IfOk result (λ r. r.items ≡ (i, s) ∷ (j, s) ∷ []) }
{
    let mut kids = one(alloc, i, s)?;
    put(&mut kids, j, s)?;
    Ok(kids)
}

fn either(
    alloc: Global,
    g: &Graph,
    sets: &StateSets,
    i: usize,
    j: usize,
    s: u32,
    env: &Env,
) -> Result<Vec<(usize, u32)>, NoMemory>
    requires first { i < length sets.now }
    requires first_node { s < length (slice_index_or sets.now i []) }
    requires second { j < length sets.now }
    requires second_node { s < length (slice_index_or sets.now j []) }
    ensures { IfOk result (λ r. r.items ≡ spec.held g.now (spec.told sets.now (total env.now)) i s
        ++ spec.held g.now (spec.told sets.now (total env.now)) j s) }
{
    let mut kids = Vec::new(alloc);
    put_held(&mut kids, g, sets, i, s, env)?;
    put_held(&mut kids, g, sets, j, s, env)?;
    Ok(kids)
}

/// Returns the part at each next node where it holds.
fn some_next(
    alloc: Global,
    g: &Graph,
    sets: &StateSets,
    next: &[u32],
    part: usize,
    env: &Env,
) -> Result<Vec<(usize, u32)>, NoMemory>
    requires part { part < length sets.now }
    requires nodes { (k : ℕ) → Contains next.now k → k < length (slice_index_or sets.now part []) }
    ensures { IfOk result (λ r. r.items
        ≡ flat_map (spec.held g.now (spec.told sets.now (total env.now)) part) next.now) }
{
    let mut kids = Vec::new(alloc);
    for k in next {
        put_held(&mut kids, g, sets, part, *k, env)?;
    }
    Ok(kids)
}

/// Returns the way, and if it holds also the until at each next node.
fn way_on_every(
    alloc: Global,
    next: &[u32],
    here: bool,
    until: usize,
    way: usize,
    s: u32,
) -> Result<Vec<(usize, u32)>, NoMemory>
    ensures { IfOk result (λ r. r.items
        ≡ (way, s) ∷ (if here then map (λ k. (until, k)) next.now else [])) }
{
    let mut kids = one(alloc, way, s)?;
    if here {
        let on = every_next(alloc, next, until)?;
        kids.extend_from_slice(&on)?;
    }
    Ok(kids)
}

/// Returns what `A[way U end]` leads to: the end, if it holds; otherwise the way, and the until at each next node if the way
/// holds.
fn every_until(
    alloc: Global,
    g: &Graph,
    sets: &StateSets,
    until: usize,
    way: usize,
    end: usize,
    s: u32,
    env: &Env,
) -> Result<Vec<(usize, u32)>, NoMemory>
    requires s { s < count_of g.now }
    requires way { way < length sets.now }
    requires end { end < length sets.now }
    requires wide { (i : ℕ) → i < length sets.now → length (slice_index_or sets.now i []) ≡ count_of g.now }
    ensures { IfOk result (λ r. r.items
        ≡ (if spec.told sets.now (total env.now) end s then (end, s) ∷ []
        else (way, s) ∷ (if spec.told sets.now (total env.now) way s then map (λ k. (until, k)) (succ_of g.now s) else []))) }
{
    if told(sets, end, s, env) {
        return one(alloc, end, s);
    }
    let here = told(sets, way, s, env);
    way_on_every(alloc, g.succ(s), here, until, way, s)
}

fn put_way(
    kids: &mut Vec<(usize, u32)>,
    here: bool,
    until: usize,
    way: usize,
    s: u32,
    k: u32,
) -> Result<(), NoMemory>
    ensures { IfOk result (λ _. kids.new.items
        ≡ kids.old.items ++ (if here then (way, s) ∷ (until, k) ∷ [] else [])) }
{
    if here {
        put(kids, way, s)?;
        put(kids, until, k)?;
    }
    Ok(())
}

/// Returns the way and the until, for each next node where the until holds.
fn ways_on(
    alloc: Global,
    g: &Graph,
    sets: &StateSets,
    next: &[u32],
    until: usize,
    way: usize,
    s: u32,
    env: &Env,
) -> Result<Vec<(usize, u32)>, NoMemory>
    requires until { until < length sets.now }
    requires nodes { (k : ℕ) → Contains next.now k → k < length (slice_index_or sets.now until []) }
    ensures { IfOk result (λ r. r.items
        ≡ flat_map (spec.way_on g.now (spec.told sets.now (total env.now)) until way s) next.now) }
{
    let mut kids = Vec::new(alloc);
    for k in next {
        let here = told(sets, until, *k, env);
        put_way(&mut kids, here, until, way, s, *k)?;
    }
    Ok(kids)
}

fn some_way(
    alloc: Global,
    g: &Graph,
    sets: &StateSets,
    until: usize,
    way: usize,
    s: u32,
    env: &Env,
) -> Result<Vec<(usize, u32)>, NoMemory>
    requires sound { IsSound g.now }
    requires s { s < count_of g.now }
    requires until { until < length sets.now }
    requires way { way < length sets.now }
    requires wide { (i : ℕ) → i < length sets.now → length (slice_index_or sets.now i []) ≡ count_of g.now }
    ensures { IfOk result (λ r. r.items ≡ (if spec.told sets.now (total env.now) way s
        then flat_map (spec.way_on g.now (spec.told sets.now (total env.now)) until way s) (succ_of g.now s) else [])) }
{
    if told(sets, way, s, env) {
        return ways_on(alloc, g, sets, g.succ(s), until, way, s, env);
    }
    Ok(Vec::new(alloc))
}

/// Returns what `E[way U end]` leads to: the end, if it holds; and the way, if it holds, with the until at each next node
/// where the until holds.
fn some_until(
    alloc: Global,
    g: &Graph,
    sets: &StateSets,
    until: usize,
    way: usize,
    end: usize,
    s: u32,
    env: &Env,
) -> Result<Vec<(usize, u32)>, NoMemory>
    requires sound { IsSound g.now }
    requires s { s < count_of g.now }
    requires until { until < length sets.now }
    requires way { way < length sets.now }
    requires end { end < length sets.now }
    requires wide { (i : ℕ) → i < length sets.now → length (slice_index_or sets.now i []) ≡ count_of g.now }
    ensures { IfOk result (λ r. r.items ≡ spec.held g.now (spec.told sets.now (total env.now)) end s
        ++ (if spec.told sets.now (total env.now) way s
        then flat_map (spec.way_on g.now (spec.told sets.now (total env.now)) until way s) (succ_of g.now s) else [])) }
{
    let mut kids = Vec::new(alloc);
    put_held(&mut kids, g, sets, end, s, env)?;
    let on = some_way(alloc, g, sets, until, way, s, env)?;
    kids.extend_from_slice(&on)?;
    Ok(kids)
}

fn there(alloc: Global, i: usize, node: Option<u32>) -> Result<Vec<(usize, u32)>, NoMemory>
    ensures { IfOk result (λ r. r.items ≡ spec.there i node) }
{
    match node {
        Some(k) => one(alloc, i, k),
        None => Ok(Vec::new(alloc)),
    }
}

/// Returns the part at the first node of a body.
fn body(
    alloc: Global,
    g: &Graph,
    number: usize,
    i: usize,
    s: u32,
) -> Result<Vec<(usize, u32)>, NoMemory>
    requires s { s < count_of g.now }
    ensures { IfOk result (λ r. r.items ≡ spec.there i (slice_get (down_of g.now s) number)) }
{
    there(alloc, i, g.down(s, number))
}

/// Returns the parts at nodes whose forests make up that of a part, given the part's number and its node in the formula's
/// table. Returns none for atoms and quantifiers. Each look-up in a set costs what [`denotes`] does.
pub fn kids(
    alloc: Global,
    g: &Graph,
    sets: &StateSets,
    node: &Node,
    part: usize,
    s: u32,
    env: &Env,
) -> Result<Vec<(usize, u32)>, NoMemory>
    requires sound { IsSound g.now }
    requires s { s < count_of g.now }
    requires part { part < length sets.now }
    requires below { below (length sets.now) node.now ≡ true }
    requires wide { (i : ℕ) → i < length sets.now → length (slice_index_or sets.now i []) ≡ count_of g.now }
    ensures kids { IfOk result (λ r. r.items
        ≡ spec.kids g.now (spec.told sets.now (total env.now)) node.now part s) }
{
    match node {
        Node::And(i, j) => both(alloc, *i, *j, s),
        Node::Or(i, j) => either(alloc, g, sets, *i, *j, s, env),
        Node::AX(i) => every_next(alloc, g.succ(s), *i),
        Node::EX(i) => some_next(alloc, g, sets, g.succ(s), *i, env),
        Node::AU(i, j) => every_until(alloc, g, sets, part, *i, *j, s, env),
        Node::EU(i, j) => some_until(alloc, g, sets, part, *i, *j, s, env),
        Node::After(i) => there(alloc, *i, g.past(s)),
        Node::InBranch(number, i) => body(alloc, g, *number, *i, s),
        _ => Ok(Vec::new(alloc)),
    }
}
