// One job: what a formula finds in one item under one environment.
ghost use Rattle.std.specs.Prelude.{◌≡◌, ◌<◌, [], Some, IfOk, IfErr, Err, cond};
ghost use Rattle.wit_forest.specs.WitOrder.Sizes.{most_nodes};
ghost use Rattle.rule_chain.specs.RuleWitnesses.Choices.{AreNew};
ghost use Rattle.rule_chain.specs.RuleWitnesses.Jobs.{touches_and_binds, witnesses_of};
ghost use Rattle.rule_chain.specs.declared.rule_witnesses.fault.ItemFault.TheVariants as fault;
ghost use Rattle.rule_chain.specs.FileWitnesses.Jobs.{AreFoundBy};
ghost use Rattle.rule_chain.specs.FileWitnesses.Kept.{IsKept};
ghost use Rattle.rule_chain.specs.declared.file_witnesses.job.Cached.TheVariants as held;

use crate::rule_witnesses::{ItemFault, ItemQuery, SatSets, item_witnesses, match_item};
use ctl_fixpoint::SoundGraph;
use smpl_patch::RuleWitness;
use smpl_terms::Env;
use sqlite_items::Items;
use std::alloc::Global;

/// What is kept of an item for the environments after the first.
#[derive(Drop)]
pub enum Cached {
    /// Nothing: the item is matched again under each environment.
    Anew,
    /// The formula holds at no node.
    Nowhere,
    /// Where the formula holds.
    Sets(SatSets),
}

/// What is found in one item under the first environment, and what is kept of it for later ones.
#[derive(Drop)]
pub struct First {
    pub found: Items<RuleWitness>,
    pub kept: Cached,
}

impl First {
    /// Returns the answer for an item in which nothing is found, under any environment.
    pub fn nothing(alloc: Global) -> First
        ensures found { result.found ≡ [] }
        ensures kept { result.kept ≡ held.Nowhere }
    {
        First {
            found: Items::new(alloc),
            kept: Cached::Nowhere,
        }
    }
}

/// Returns what is kept of an item: where the formula holds, if that is to be kept, and otherwise nothing.
fn kept_if(keep: bool, matched: SatSets) -> Cached
    ensures { result ≡ cond keep (held.Sets matched) held.Anew }
{
    if !keep {
        return Cached::Anew;
    }
    Cached::Sets(matched)
}

/// Returns what is found in an item under an environment, and where the formula holds, if that is to be kept.
pub fn first_found(
    alloc: Global,
    query: &ItemQuery<'_>,
    g: &SoundGraph<'_, '_>,
    item: u32,
    env: &Env,
    keep: bool,
) -> Result<First, ItemFault>
    requires new { AreNew query.now.exports.now env.now }
    ensures found { IfOk result (λ first. AreFoundBy
        (witnesses_of query.now.f.now g.now.graph.now query.now.exports.now query.now.number item env.now) first.found) }
    ensures kept { IfOk result (λ first. IsKept query.now.f.now (Some g.now.graph.now) first.kept) }
    ensures too_many { result ≡ Err fault.TooMany → most_nodes < touches_and_binds
        (witnesses_of query.now.f.now g.now.graph.now query.now.exports.now query.now.number item env.now) }
{
    let matched = match_item(alloc, g, query.f)?;
    if matched.nodes.is_empty() {
        return Ok(First::nothing(alloc));
    }
    let found = item_witnesses(alloc, query, g, &matched, item, env)?;
    Ok(First {
        found,
        kept: kept_if(keep, matched),
    })
}

/// Returns what is found in an item under an environment. Matches the item, and keeps nothing.
fn found_anew(
    alloc: Global,
    query: &ItemQuery<'_>,
    g: &SoundGraph<'_, '_>,
    item: u32,
    env: &Env,
) -> Result<Items<RuleWitness>, ItemFault>
    requires new { AreNew query.now.exports.now env.now }
    ensures found { IfOk result (λ found. AreFoundBy
        (witnesses_of query.now.f.now g.now.graph.now query.now.exports.now query.now.number item env.now) found) }
    ensures too_many { result ≡ Err fault.TooMany → most_nodes < touches_and_binds
        (witnesses_of query.now.f.now g.now.graph.now query.now.exports.now query.now.number item env.now) }
{
    let First { found, kept: _ } = first_found(alloc, query, g, item, env, false)?;
    Ok(found)
}

/// Returns what is found in an item under one more environment, using what is kept of the item.
pub fn next_found(
    alloc: Global,
    query: &ItemQuery<'_>,
    g: &SoundGraph<'_, '_>,
    kept: &Cached,
    item: u32,
    env: &Env,
) -> Result<Items<RuleWitness>, ItemFault>
    requires new { AreNew query.now.exports.now env.now }
    requires kept { IsKept query.now.f.now (Some g.now.graph.now) kept.now }
    ensures found { IfOk result (λ found. AreFoundBy
        (witnesses_of query.now.f.now g.now.graph.now query.now.exports.now query.now.number item env.now) found) }
    ensures too_many { result ≡ Err fault.TooMany → most_nodes < touches_and_binds
        (witnesses_of query.now.f.now g.now.graph.now query.now.exports.now query.now.number item env.now) }
{
    match kept {
        Cached::Anew => found_anew(alloc, query, g, item, env),
        Cached::Nowhere => Ok(Items::new(alloc)),
        Cached::Sets(matched) => item_witnesses(alloc, query, g, matched, item, env),
    }
}
