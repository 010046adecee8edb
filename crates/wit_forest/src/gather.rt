// The forest of a formula at a node.
ghost use Rattle.std.specs.Prelude.{◌≡◌, ◌||◌, ℕ, ◌<◌, ◌≤◌, true, false, List, IfOk, OnOk, Err, length, Contains};
ghost use Rattle.std.specs.List.{list_any};
ghost use Rattle.std.specs.List.Sorted.{IsStrictlySortedBy};
ghost use Rattle.cfg_build.specs.CfgGraph.Flow.{count_of};
ghost use Rattle.smpl_terms.specs.Environments.{total, change};
ghost use Rattle.smpl_terms.specs.declared.value.Value.{Value as Datum};
ghost use Rattle.smpl_terms.specs.Values.{same, value_order};
ghost use Rattle.wit_forest.specs.WitSteps.Steps as steps;
ghost use Rattle.ctl_formula.specs.Formulas.{plain};
ghost use Rattle.ctl_fixpoint.specs.CtlHolds.Parts.{EachPattern};
ghost use Rattle.ctl_fixpoint.specs.CtlHolds.BoundLaw.{SureStand};
ghost use Rattle.ctl_fixpoint.specs.States.{AreStateSets};
ghost use Rattle.wit_forest.specs.WitOrder.Same.{same_forest};
ghost use Rattle.wit_forest.specs.WitOrder.Sizes.{forest_size, most_nodes};
ghost use Rattle.wit_forest.specs.WitOrder.Forests.{has};
ghost use Rattle.smpl_patch.specs.declared.witness.Witness.{Witness as Tree};
ghost use Rattle.wit_forest.specs.Gathered.{node_at, forest_at as part_forest, holds_at, quantified, is_there};
ghost use Rattle.wit_forest.specs.Gathered.{Covered, AreReady, InRange, IsBound, IsHiddenDone, IsShownDone, IsExplored, Adds, Grows, HasTooMany};
ghost use Rattle.wit_forest.specs.WitTrees.Forest as spec;
ghost use Rattle.wit_forest.specs.WitTrees.Graphs.{forest_of};

use crate::fault::ForestFault;
use crate::found::Found;
use crate::states::States;
use crate::wit_steps::{changed, kids, values_in};
use c_terms::NoMemory;
use cfg_build::Graph;
use ctl_formula::{Formula, Node};
use env_sets::StateSets;
use smpl_patch::Witness;
use smpl_terms::{Env, Value, Var, same_value, value_order};
use sqlite_items::Items;
use std::alloc::Global;

/// Whether the variable is that of a block: its name begins with `{`.
fn is_hidden(x: &Var) -> bool
    ensures { result ≡ spec.is_hidden x.now }
{
    match x.name.as_bytes() {
        [b'{', ..] => true,
        _ => false,
    }
}

/// Returns the values in order, each once.
fn different(values: Vec<Value>) -> Vec<Value>
    ensures values { (z : Datum) → list_any (λ u. same u z) result.items ≡ list_any (λ u. same u z) values.items }
    ensures rise { IsStrictlySortedBy value_order result.items }
{
    let mut values = values;
    values.sort_unstable_by(|a, b| value_order(a, b));
    values.dedup_by(|a, b| same_value(a, b));
    values
}

/// Returns the values of the variable under which the part holds at the node, in order, each once.
fn values_at(
    alloc: Global,
    g: &Graph,
    f: &Formula,
    sets: &StateSets,
    part: usize,
    s: u32,
    env: &Env,
    x: &Var,
) -> Result<Vec<Value>, NoMemory>
    requires range { InRange g.now f.now part part s }
    requires ready { AreReady g.now f.now sets.now }
    requires bound { IsBound f.now x.now part }
    ensures values { IfOk result (λ r. (v : Datum) → list_any (λ u. same u v) r.items
        ≡ holds_at g.now f.now (change (total env.now) x.now v) part s) }
    ensures rise { IfOk result (λ r. IsStrictlySortedBy value_order r.items) }
{
    let values = values_in(alloc, sets.at(part, s), env, x)?;
    Ok(different(values))
}

/// Adds a state of the part for each value of a hidden variable.
fn visit_hidden(
    alloc: Global,
    g: &Graph,
    f: &Formula,
    sets: &StateSets,
    states: &mut States,
    x: &Var,
    part: usize,
    node: u32,
    env: &Env,
) -> Result<(), NoMemory>
    requires range { InRange g.now f.now part part node }
    requires ready { AreReady g.now f.now sets.now }
    requires bound { IsBound f.now x.now part }
    requires hidden { spec.is_hidden x.now ≡ true }
    ensures there { IfOk result (λ _. (found : List Tree)
        → Adds g.now f.now states.old states.new found found (quantified g.now f.now x.now part node (total env.now))) }
    ensures done { IfOk result (λ _. IsHiddenDone g.now f.now states.new x.now part node (total env.now)) }
    ensures grows { IfOk result (λ _. (found : List Tree) → Grows g.now f.now part states.old states.new found found) }
{
    let values = values_at(alloc, g, f, sets, part, node, env, x)?;
    for v in &values {
        let inner = changed(alloc, env, x, v)?;
        states.add(alloc, part, node, &inner)?;
    }
    Ok(())
}

fn visit_kids(
    alloc: Global,
    g: &Graph,
    f: &Formula,
    sets: &StateSets,
    states: &mut States,
    part: usize,
    node: u32,
    env: &Env,
) -> Result<(), NoMemory>
    requires range { InRange g.now f.now part part node }
    requires ready { AreReady g.now f.now sets.now }
    ensures there { IfOk result (λ _. (z : Tree) → list_any (λ one. has (part_forest g.now f.now one.part one.node (total one.env)) z) states.new
        ≡ (list_any (λ one. has (part_forest g.now f.now one.part one.node (total one.env)) z) states.old
        || list_any (λ k. has (part_forest g.now f.now k.0 k.1 (total env.now)) z)
        (steps.kids g.now (holds_at g.now f.now (total env.now)) (node_at g.now f.now part) part node))) }
    ensures done { IfOk result (λ _. (k : ℕ × ℕ)
        → Contains (steps.kids g.now (holds_at g.now f.now (total env.now)) (node_at g.now f.now part) part node) k
        → Covered states.new k.0 k.1 (total env.now)) }
    ensures grows { IfOk result (λ _. (found : List Tree) → Grows g.now f.now part states.old states.new found found) }
{
    let kids = kids(alloc, g, sets, f.node(part), part, node, env)?;
    for kid in &kids {
        states.add(alloc, kid.0, kid.1, env)?;
    }
    Ok(())
}

/// Adds a tree for each value of the variable, over the forest under that value.
#[cycle(forest)]
fn visit_values(
    alloc: Global,
    g: &Graph,
    f: &Formula,
    sets: &StateSets,
    found: &mut Found,
    x: &Var,
    part: usize,
    node: u32,
    env: &Env,
) -> Result<(), ForestFault>
    requires range { InRange g.now f.now part part node }
    requires ready { AreReady g.now f.now sets.now }
    requires bound { IsBound f.now x.now part }
    requires shown { spec.is_hidden x.now ≡ false }
    ensures there { IfOk result (λ _. (z : Tree) → has found.new z
        ≡ (has found.old z || has (quantified g.now f.now x.now part node (total env.now)) z)) }
    ensures done { IfOk result (λ _. IsShownDone g.now f.now found.new x.now part node (total env.now)) }
    ensures too_many { result ≡ Err ForestFault.TooMany → HasTooMany f.now.decls
        (λ z. has found.old z || has (quantified g.now f.now x.now part node (total env.now)) z) }
{
    let values = values_at(alloc, g, f, sets, part, node, env, x)?;
    for v in &values {
        let inner = changed(alloc, env, x, v)?;
        let under = forest_at(alloc, g, f, sets, part, node, &inner)?;
        let tree = Witness::Bind(node, x.copy(alloc)?, v.copy(alloc)?, Items::from_vec(under));
        found.put(alloc, f.decls(), tree)?;
    }
    Ok(())
}

#[cycle(forest)]
fn visit_quantifier(
    alloc: Global,
    g: &Graph,
    f: &Formula,
    sets: &StateSets,
    states: &mut States,
    found: &mut Found,
    x: &Var,
    part: usize,
    node: u32,
    env: &Env,
) -> Result<(), ForestFault>
    requires range { InRange g.now f.now part part node }
    requires ready { AreReady g.now f.now sets.now }
    requires bound { IsBound f.now x.now part }
    ensures there { IfOk result (λ _. Adds g.now f.now states.old states.new found.old found.new
        (quantified g.now f.now x.now part node (total env.now))) }
    ensures hidden { IfOk result (λ _. spec.is_hidden x.now ≡ true → IsHiddenDone g.now f.now states.new x.now part node (total env.now)) }
    ensures shown { IfOk result (λ _. spec.is_hidden x.now ≡ false → IsShownDone g.now f.now found.new x.now part node (total env.now)) }
    ensures grows { IfOk result (λ _. Grows g.now f.now part states.old states.new found.old found.new) }
    ensures too_many { result ≡ Err ForestFault.TooMany → HasTooMany f.now.decls
        (λ z. is_there g.now f.now states.old found.old z || has (quantified g.now f.now x.now part node (total env.now)) z) }
{
    if is_hidden(x) {
        visit_hidden(alloc, g, f, sets, states, x, part, node, env)?;
        return Ok(());
    }
    visit_values(alloc, g, f, sets, found, x, part, node, env)
}

/// Adds what a part at a node touches and the states that it leads to.
#[cycle(forest)]
fn visit(
    alloc: Global,
    g: &Graph,
    f: &Formula,
    sets: &StateSets,
    states: &mut States,
    found: &mut Found,
    part: usize,
    node: u32,
    env: &Env,
) -> Result<(), ForestFault>
    requires range { InRange g.now f.now part part node }
    requires ready { AreReady g.now f.now sets.now }
    ensures there { IfOk result (λ _. Adds g.now f.now states.old states.new found.old found.new
        (part_forest g.now f.now part node (total env.now))) }
    ensures explored { IfOk result (λ _. IsExplored g.now f.now states.new found.new part node (total env.now)) }
    ensures grows { IfOk result (λ _. Grows g.now f.now part states.old states.new found.old found.new) }
    ensures too_many { result ≡ Err ForestFault.TooMany → HasTooMany f.now.decls
        (λ z. is_there g.now f.now states.old found.old z || has (part_forest g.now f.now part node (total env.now)) z) }
{
    match f.node(part) {
        Node::Exists(x, i) => visit_quantifier(alloc, g, f, sets, states, found, x, *i, node, env),
        own => {
            found.put_touches(alloc, g, f, own, node, env)?;
            visit_kids(alloc, g, f, sets, states, part, node, env)?;
            Ok(())
        }
    }
}

/// Returns the forest of a part at a node. Recurses once per quantifier.
#[cycle(forest)]
fn forest_at(
    alloc: Global,
    g: &Graph,
    f: &Formula,
    sets: &StateSets,
    part: usize,
    node: u32,
    env: &Env,
) -> Result<Vec<Witness>, ForestFault>
    requires range { InRange g.now f.now part part node }
    requires ready { AreReady g.now f.now sets.now }
    ensures trees { IfOk result (λ ws. same_forest ws.items (part_forest g.now f.now part node (total env.now)) ≡ true) }
    ensures few { OnOk result (forest_size (part_forest g.now f.now part node (total env.now)) ≤ most_nodes) }
    ensures too_many { result ≡ Err ForestFault.TooMany → most_nodes < forest_size (part_forest g.now f.now part node (total env.now)) }
{
    let mut states = States::new(alloc);
    let mut found = Found::new(alloc);
    states.add(alloc, part, node, env)?;
    for at in 0..usize::MAX {
        if at >= states.len() {
            return found.into_forest(alloc, f.decls());
        }
        let one = states.get(at);
        let part = one.part;
        let node = one.node;
        let env = one.env.copy(alloc)?;
        visit(alloc, g, f, sets, &mut states, &mut found, part, node, &env)?;
    }
    Err(ForestFault::NoMemory)
}

/// Returns the forest of the formula at a node under an environment.
pub fn forest(
    alloc: Global,
    g: &Graph,
    f: &Formula,
    sets: &StateSets,
    s: u32,
    env: &Env,
) -> Result<Vec<Witness>, ForestFault>
    requires node { s < count_of g.now }
    requires stand { EachPattern (SureStand f.now.decls f.now.tokens) (plain f.now) }
    requires sets { AreStateSets g.now f.now sets.now }
    ensures trees { IfOk result (λ ws. same_forest ws.items
        (forest_of f.now.decls f.now.tokens g.now (plain f.now) s (total env.now)) ≡ true) }
    ensures few { OnOk result (forest_size
        (forest_of f.now.decls f.now.tokens g.now (plain f.now) s (total env.now)) ≤ most_nodes) }
    ensures too_many { result ≡ Err ForestFault.TooMany → most_nodes < forest_size
        (forest_of f.now.decls f.now.tokens g.now (plain f.now) s (total env.now)) }
{
    prove!(s < g.count());
    forest_at(alloc, g, f, sets, f.root(), s, env)
}
