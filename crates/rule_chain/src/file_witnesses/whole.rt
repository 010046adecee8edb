// What a rule finds over all items.
ghost use Rattle.std.specs.Prelude.{◌≡◌, ◌<◌, ◌≤◌, ◌^◌, ◌++◌, ◌∷◌, [], ℕ, Bool, All, IfOk, OnOk, Err, List, map, length, true, false};
ghost use Rattle.std.specs.List.{flat_map};
ghost use Rattle.cpp_lines.specs.declared.reading.Item.{Item};
ghost use Rattle.env_parts.specs.Parts.{bare_env};
ghost use Rattle.c_file.specs.ItemGraphs.Made.{IsMade};
ghost use Rattle.rule_chain.specs.RuleWitnesses.Bare.{bare_witness};
ghost use Rattle.rule_chain.specs.RuleWitnesses.Choices.{AreNew};
ghost use Rattle.rule_chain.specs.declared.rule_witnesses.fault.ItemFault.TheVariants as fault;
ghost use Rattle.rule_chain.specs.FileWitnesses.Found as spec;
ghost use Rattle.rule_chain.specs.FileWitnesses.Lent.{AreLent};
ghost use Rattle.rule_chain.specs.FileWitnesses.Lists.{AreFound, AreSmall, IsLargeSomewhere, brought};

use crate::file_witnesses::choice::candidate_items;
use crate::file_witnesses::lend::lend;
use crate::file_witnesses::under::{AllFirst, under_first, under_next, workers_next};
use crate::patch_rules::ReadyRule;
use crate::rule_witnesses::ItemFault;
use c_file::Graphs;
use c_terms::NoMemory;
use cfg_build::Graph;
use par_match::{Gate, Workers};
use rule_envs::exported;
use smpl_patch::{RuleWitness, ask_types};
use smpl_terms::{Env, Var};
use sqlite_items::Items;
use std::alloc::Global;
use std::thread::Threads;

/// The witnesses of a rule, and for each projection the distinct values of the exported variables in its witnesses.
#[derive(Drop)]
pub struct AllMatches {
    pub witnesses: Items<RuleWitness>,
    pub parts: Items<Items<Env>>,
}

/// Appends one list.
fn put_list(lists: &mut Vec<Items<RuleWitness>>, list: Items<RuleWitness>) -> Result<(), NoMemory>
    ensures added { OnOk result (lists.new.items ≡ lists.old.items ++ list ∷ []) }
{
    lists.push(list)?;
    Ok(())
}

/// Returns for each environment the witnesses under it, item by item. Each environment takes one call of `map_jobs`. The first
/// call computes where the formula holds in the items, and keeps that, within a bound, if there are other environments.
fn over_lent<R: Threads + Sync, G: Gate>(
    workers: &Workers<'_, R, G>,
    ready: &ReadyRule<'_>,
    graphs: &[Option<&Graph<'_>>],
    envs: &[Env],
) -> Result<Vec<Items<RuleWitness>>, ItemFault>
    requires new { All (AreNew ready.now.rule.now.exports) envs.now }
    requires few_items { length graphs.now ≤ 2 ^ 32 }
    requires some_envs { 0 < length envs.now }
    ensures found { IfOk result (λ lists. (items : List Item) → AreLent ready.now.rule.now items graphs.now
        → AreFound ready.now.number ready.now.rule.now items envs.now lists.items) }
    ensures few { OnOk result ((items : List Item) → AreLent ready.now.rule.now items graphs.now
        → AreSmall (spec.is_large_under ready.now.number ready.now.rule.now items) envs.now) }
    ensures too_many { result ≡ Err fault.TooMany → (items : List Item) → AreLent ready.now.rule.now items graphs.now
        → IsLargeSomewhere (spec.is_large_under ready.now.number ready.now.rule.now items) envs.now }
{
    let later = envs.len() > 1;
    let first = under_first(workers, ready, graphs, &envs[0], later)?;
    let AllFirst { found, kept } = first;
    let fewer = workers_next(workers, kept.as_slice(), found.len());
    let mut lists = Vec::new(workers.alloc);
    put_list(&mut lists, found)?;
    for k in 1..envs.len() {
        let found = under_next(&fewer, ready, graphs, kept.as_slice(), &envs[k])?;
        put_list(&mut lists, found)?;
    }
    Ok(lists)
}

/// Returns for each environment the witnesses under it, item by item. Without environments no item is looked at.
fn over_items<R: Threads + Sync, G: Gate>(
    workers: &Workers<'_, R, G>,
    ready: &ReadyRule<'_>,
    graphs: &mut Graphs<'_>,
    count: usize,
    envs: &[Env],
) -> Result<Vec<Items<RuleWitness>>, ItemFault>
    requires new { All (AreNew ready.now.rule.now.exports) envs.now }
    requires count { count ≡ length graphs.old.items }
    ensures found { IfOk result (λ lists. AreFound ready.now.number ready.now.rule.now graphs.old.items envs.now lists.items) }
    ensures few { OnOk result (AreSmall (spec.is_large_under ready.now.number ready.now.rule.now graphs.old.items) envs.now) }
    ensures too_many { result ≡ Err fault.TooMany
        → IsLargeSomewhere (spec.is_large_under ready.now.number ready.now.rule.now graphs.old.items) envs.now }
    ensures items { graphs.new.items ≡ graphs.old.items }
    ensures kept { (typed : Bool) (k : ℕ) → IsMade graphs.old typed k → IsMade graphs.new typed k }
{
    if envs.is_empty() {
        return Ok(Vec::new(workers.alloc));
    }
    let chosen = candidate_items(
        workers.alloc,
        ready.rule,
        &ready.prepared.formula,
        graphs,
        count,
    )?;
    let typed = ask_types(ready.rule.vars.as_slice());
    let lent = lend(workers.alloc, graphs, typed, chosen.as_slice())?;
    over_lent(workers, ready, lent.as_slice(), envs)
}

/// Joins the lists, and finds for each of them the distinct values of the exported variables.
fn joined(
    alloc: Global,
    exports: &[Var],
    lists: Vec<Items<RuleWitness>>,
) -> Result<AllMatches, NoMemory>
    ensures witnesses { IfOk result (λ found. found.witnesses ≡ flat_map (λ list. list) lists.items) }
    ensures parts { IfOk result (λ found. found.parts ≡ map (brought exports.now) lists.items) }
{
    let mut witnesses = Items::new(alloc);
    let mut parts = Items::new(alloc);
    for list in lists {
        let part = exported(alloc, exports, list.as_slice())?;
        parts.push(part)?;
        witnesses.append(list)?;
    }
    Ok(AllMatches { witnesses, parts })
}

/// Returns the witnesses of a rule over the items of a file, under each of its projections in turn, and for each projection the
/// distinct values of the exported variables in its witnesses. The contract ignores the ids of terms.
///
/// `count` is the number of the file's items. Each projection takes one call of `map_jobs`, with one job for each item, which
/// has the item's number. The job of an item that was skipped, or that lacks a word that the formula needs, finds nothing. As
/// many items are matched at a time as `workers` says, and the gate is informed of each before its job begins.
///
/// - `TooMany`: the forests of the witnesses in one item under one projection have more than 1,000,000 touches and binds.
/// - `NoMemory`: out of memory, or there are more than 2^32 items.
///
/// Costs one [`match_item`](crate::rule_witnesses::match_item) for each item that has a tree with all words that the formula
/// needs, one [`item_witnesses`](crate::rule_witnesses::item_witnesses) for each projection and each item in which the formula
/// holds somewhere, both shared among the jobs, and one [`exported`] per projection. Each other item costs, per projection, a
/// job that returns an empty list. The words are looked for once in the formula, and once among the tokens of each item. The
/// graph of an item is made when it is first needed, with the types of the item's expressions if the rule asks for them.
///
/// If there is more than one projection, the sets of items in which the formula holds somewhere are kept to the end: those of
/// the first items, as many as have at most 16,777,216 sets in all. There is one set for each part of the formula and each
/// node, of about 30 bytes and more with its entries. The items after these in which the formula holds are matched again under
/// each projection. No words are looked for if the rule has more than 1,000 tokens. Without projections nothing is done.
pub fn witnesses<R: Threads + Sync, G: Gate>(
    workers: &Workers<'_, R, G>,
    ready: &ReadyRule<'_>,
    graphs: &mut Graphs<'_>,
    count: usize,
    projections: &[Env],
) -> Result<AllMatches, ItemFault>
    requires new { All (AreNew ready.now.rule.now.exports) projections.now }
    requires count { count ≡ length graphs.old.items }
    ensures found { IfOk result (λ found. map bare_witness found.witnesses
        ≡ spec.file_witnesses ready.now.number ready.now.rule.now graphs.old.items (map bare_env projections.now)) }
    ensures parts { IfOk result (λ found. map (map bare_env) found.parts
        ≡ map (spec.brings ready.now.number ready.now.rule.now graphs.old.items) (map bare_env projections.now)) }
    ensures few { OnOk result (spec.has_too_many ready.now.number ready.now.rule.now graphs.old.items (map bare_env projections.now) ≡ false) }
    ensures too_many { result ≡ Err fault.TooMany
        → spec.has_too_many ready.now.number ready.now.rule.now graphs.old.items (map bare_env projections.now) ≡ true }
    ensures items { graphs.new.items ≡ graphs.old.items }
    ensures kept { (typed : Bool) (k : ℕ) → IsMade graphs.old typed k → IsMade graphs.new typed k }
{
    let lists = over_items(workers, ready, graphs, count, projections)?;
    let found = joined(workers.alloc, ready.rule.exports.as_slice(), lists)?;
    Ok(found)
}
