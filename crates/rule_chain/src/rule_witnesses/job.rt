// The witnesses of a rule in one item.
ghost use Rattle.std.specs.Prelude.{◌≡◌, ◌<◌, ◌≤◌, ◌+◌, ◌∷◌, ◌++◌, [], true, IfOk, OnOk, Err, map, length};
ghost use Rattle.cfg_build.specs.CfgGraph.Flow.{count_of};
ghost use Rattle.smpl_terms.specs.Environments.{Environment, total};
ghost use Rattle.env_sets.specs.Sets.{set_denotes};
ghost use Rattle.ctl_formula.specs.Formulas.{plain};
ghost use Rattle.ctl_fixpoint.specs.CtlHolds.Parts.{EachPattern};
ghost use Rattle.ctl_fixpoint.specs.CtlHolds.BoundLaw.{SureStand};
ghost use Rattle.ctl_fixpoint.specs.CtlHolds.Rounds.{holds};
ghost use Rattle.ctl_fixpoint.specs.CtlHolds.Values.{values_of};
ghost use Rattle.ctl_fixpoint.specs.States.{AreStateSets};
ghost use Rattle.wit_forest.specs.WitOrder.Same.{same_forest};
ghost use Rattle.wit_forest.specs.WitOrder.Sizes.{forest_size, most_nodes};
ghost use Rattle.wit_forest.specs.WitTrees.Graphs.{forest_of};
ghost use Rattle.rule_chain.specs.RuleWitnesses.Bare.{bare_witness};
ghost use Rattle.rule_chain.specs.RuleWitnesses.Choices.{AreNew, Leaves};
ghost use Rattle.rule_chain.specs.RuleWitnesses.Matched.{AreMatched};
ghost use Rattle.rule_chain.specs.RuleWitnesses.Jobs.{touches_and_binds, witness_at, witnesses_at, witnesses_of};
ghost use Rattle.rule_chain.specs.declared.rule_witnesses.fault.ItemFault.TheVariants as fault;

use crate::rule_witnesses::fault::{ItemFault, fault_of};
use crate::rule_witnesses::found::Found;
use crate::rule_witnesses::matched::SatSets;
use crate::rule_witnesses::query::ItemQuery;
use crate::rule_witnesses::values::choices;
use cfg_build::Graph;
use ctl_fixpoint::SoundGraph;
use ctl_formula::Formula;
use env_sets::{EnvSet, StateSets};
use smpl_patch::{RuleWitness, Witness};
use smpl_terms::Env;
use sqlite_items::Items;
use std::alloc::Global;
use wit_forest::forest;

/// A node of an item's graph, and the sets of a formula in that graph.
#[derive(Clone, Copy)]
struct Place<'g, 'a, 's> {
    g: &'g Graph<'a>,
    sets: &'s StateSets,
    item: u32,
    node: u32,
}

fn forest_at(
    alloc: Global,
    g: &Graph,
    f: &Formula,
    sets: &StateSets,
    s: u32,
    env: &Env,
) -> Result<Vec<Witness>, ItemFault>
    requires node { s < count_of g.now }
    requires stand { EachPattern (SureStand f.now.decls f.now.tokens) (plain f.now) }
    requires sets { AreStateSets g.now f.now sets.now }
    ensures trees { IfOk result (λ ws. same_forest ws.items
        (forest_of f.now.decls f.now.tokens g.now (plain f.now) s (total env.now)) ≡ true) }
    ensures too_many { result ≡ Err fault.TooMany → most_nodes < forest_size
        (forest_of f.now.decls f.now.tokens g.now (plain f.now) s (total env.now)) }
{
    match forest(alloc, g, f, sets, s, env) {
        Ok(trees) => Ok(trees),
        Err(of_forest) => Err(fault_of(of_forest)),
    }
}

/// Adds the witness at a node under an environment, with its forest.
fn with_witness(
    alloc: Global,
    query: &ItemQuery<'_>,
    place: &Place<'_, '_, '_>,
    env: &Env,
    so_far: Found,
) -> Result<Found, ItemFault>
    requires node { place.now.node < count_of place.now.g.now }
    requires sets { AreStateSets place.now.g.now query.now.f.now place.now.sets.now }
    ensures found { IfOk result (λ now. map bare_witness now.witnesses ≡ map bare_witness
        (so_far.witnesses ++ witness_at query.now.f.now place.now.g.now [] query.now.number place.now.item place.now.node env.now ∷ [])) }
    ensures too_many { result ≡ Err fault.TooMany → most_nodes < touches_and_binds
        (so_far.witnesses ++ witness_at query.now.f.now place.now.g.now [] query.now.number place.now.item place.now.node env.now ∷ []) }
{
    let trees = forest_at(alloc, place.g, query.f, place.sets, place.node, env)?;
    let env = env.copy(alloc)?;
    let forest = Items::from_vec(trees);
    so_far.with(RuleWitness {
        rule: query.number,
        item: place.item,
        node: place.node,
        env,
        forest,
    })
}

/// Adds the witnesses at one node.
fn with_node(
    alloc: Global,
    query: &ItemQuery<'_>,
    place: &Place<'_, '_, '_>,
    set: &EnvSet,
    env: &Env,
    so_far: Found,
) -> Result<Found, ItemFault>
    requires node { place.now.node < count_of place.now.g.now }
    requires sets { AreStateSets place.now.g.now query.now.f.now place.now.sets.now }
    requires told { (e : Environment) → set_denotes set.now e
        ≡ holds query.now.f.now.decls query.now.f.now.tokens place.now.g.now (count_of place.now.g.now + 1) (plain query.now.f.now) place.now.node e }
    requires leaves { Leaves (values_of place.now.g.now) query.now.exports.now set.now env.now }
    requires new { AreNew query.now.exports.now env.now }
    ensures found { IfOk result (λ now. map bare_witness now.witnesses ≡ map bare_witness
        (so_far.witnesses ++ witnesses_at query.now.f.now place.now.g.now query.now.exports.now query.now.number place.now.item place.now.node env.now)) }
    ensures too_many { result ≡ Err fault.TooMany → most_nodes < touches_and_binds
        (so_far.witnesses ++ witnesses_at query.now.f.now place.now.g.now query.now.exports.now query.now.number place.now.item place.now.node env.now) }
{
    let envs = choices(alloc, set, query.exports, env)?;
    let mut found = so_far;
    for e in &envs {
        found = with_witness(alloc, query, place, e, found)?;
    }
    Ok(found)
}

/// Returns the witnesses of a rule in one item, under an environment that gives the inherited variables their values: by nodes,
/// then by the values of the exported variables, each with its forest. The contract compares them without the ids of terms.
///
/// `matched` is what [`match_item`](crate::rule_witnesses::match_item) returns for the formula and the graph: one serves all
/// environments. `item` is the number of the item, which the witnesses carry.
///
/// - `TooMany`: the forests have more than 1,000,000 touches and binds in all.
/// - `NoMemory`: out of memory.
///
/// Costs one call of [`choices`](crate::rule_witnesses::choices) for each node of `matched`, and one of [`forest`] per witness.
pub fn item_witnesses(
    alloc: Global,
    query: &ItemQuery<'_>,
    g: &SoundGraph<'_, '_>,
    matched: &SatSets,
    item: u32,
    env: &Env,
) -> Result<Items<RuleWitness>, ItemFault>
    requires matched { AreMatched g.now.graph.now query.now.f.now matched.now.sets matched.now.nodes }
    requires new { AreNew query.now.exports.now env.now }
    ensures found { IfOk result (λ found. map bare_witness found ≡ map bare_witness
        (witnesses_of query.now.f.now g.now.graph.now query.now.exports.now query.now.number item env.now)) }
    ensures few { OnOk result (touches_and_binds
        (witnesses_of query.now.f.now g.now.graph.now query.now.exports.now query.now.number item env.now) ≤ most_nodes) }
    ensures too_many { result ≡ Err fault.TooMany → most_nodes < touches_and_binds
        (witnesses_of query.now.f.now g.now.graph.now query.now.exports.now query.now.number item env.now) }
{
    let root = query.f.root();
    let sets = &matched.sets;
    let mut found = Found::none(alloc);
    for s in matched.nodes.as_slice() {
        let set = sets.at(root, *s);
        let place = Place {
            g: g.graph,
            sets,
            item,
            node: *s,
        };
        found = with_node(alloc, query, &place, set, env, found)?;
    }
    Ok(found.into_items())
}
