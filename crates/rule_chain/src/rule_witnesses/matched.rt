// Where a formula holds in one item, under any environment.
ghost use Rattle.std.specs.Prelude.{◌≡◌, ◌<◌, ◌∷◌, ◌++◌, [], IfOk, OnOk, cond, length, slice_index_or};
ghost use Rattle.std.specs.List.{filter};
ghost use Rattle.cfg_build.specs.CfgGraph.Flow.{count_of};
ghost use Rattle.env_sets.specs.States.{set_at};
ghost use Rattle.ctl_formula.specs.Formulas.{plain};
ghost use Rattle.ctl_fixpoint.specs.CtlHolds.Parts.{EachPattern};
ghost use Rattle.ctl_fixpoint.specs.CtlHolds.BoundLaw.{SureStand};
ghost use Rattle.wit_forest.specs.WitTrees.Forest.{numbers};
ghost use Rattle.rule_chain.specs.RuleWitnesses.Matched.{AreMatched, has_entries};

use c_terms::NoMemory;
use cfg_build::Graph;
use ctl_fixpoint::{SoundGraph, sat};
use ctl_formula::Formula;
use env_sets::{EnvSet, StateSets};
use sqlite_items::Items;
use std::alloc::Global;

/// The sets of a formula in one graph, and the nodes, in ascending order, at which the set of the whole formula has an entry.
#[derive(Drop)]
pub struct SatSets {
    pub sets: StateSets,
    pub nodes: Items<u32>,
}

/// Appends this node to the nodes if its set has an entry.
fn with_match(nodes: Items<u32>, set: &EnvSet, s: u32) -> Result<Items<u32>, NoMemory>
    ensures nodes { IfOk result (λ now. now ≡ nodes ++ cond (has_entries set.now) (s ∷ []) []) }
{
    if set.is_none() {
        return Ok(nodes);
    }
    let mut nodes = nodes;
    nodes.push(s)?;
    Ok(nodes)
}

/// Returns the nodes, in ascending order, at which the set of a part has an entry.
fn nodes_with_entries(
    alloc: Global,
    g: &Graph,
    sets: &StateSets,
    part: usize,
) -> Result<Items<u32>, NoMemory>
    requires part { part < length sets.now }
    requires nodes { length (slice_index_or sets.now part []) ≡ count_of g.now }
    ensures nodes { IfOk result (λ nodes. nodes
        ≡ filter (λ s. has_entries (set_at sets.now part s)) (numbers (count_of g.now))) }
{
    let mut nodes = Items::new(alloc);
    for s in 0..g.count() {
        nodes = with_match(nodes, sets.at(part, s), s)?;
    }
    Ok(nodes)
}

/// Returns the sets of a formula in the graph of one item, and the nodes, in ascending order, at which the set of the whole
/// formula has an entry: the formula holds at no other node. The sure variables of its patterns must occur in them. The whole
/// formula is a part of the table.
///
/// Costs one call of [`sat`], and a look at each node.
pub fn match_item(alloc: Global, g: &SoundGraph<'_, '_>, f: &Formula) -> Result<SatSets, NoMemory>
    requires stand { EachPattern (SureStand f.now.decls f.now.tokens) (plain f.now) }
    ensures matched { IfOk result (λ m. AreMatched g.now.graph.now f.now m.sets m.nodes) }
    ensures root { OnOk result (f.now.root < length f.now.nodes) }
{
    let sets = sat(alloc, g, f)?;
    let nodes = nodes_with_entries(alloc, g.graph, &sets, f.root())?;
    Ok(SatSets { sets, nodes })
}
