// What a rule finds over all items under one environment: one call of `map_jobs`, with one job per item.
ghost use Rattle.std.specs.Prelude.{◌≡◌, ◌≤◌, ◌^◌, ℕ, IfOk, OnOk, Err, List, length, map, true, false};
ghost use Rattle.std.specs.List.{flat_map};
ghost use Rattle.cpp_lines.specs.declared.reading.Item.{Item};
ghost use Rattle.env_parts.specs.Parts.{bare_env};
ghost use Rattle.par_match.specs.declared.fault.JobFault.TheVariants.{Worker as WorkerStopped};
ghost use Rattle.rule_chain.specs.RuleWitnesses.Bare.{bare_witness};
ghost use Rattle.rule_chain.specs.RuleWitnesses.Choices.{AreNew};
ghost use Rattle.rule_chain.specs.declared.rule_witnesses.fault.ItemFault.TheVariants as fault;
ghost use Rattle.rule_chain.specs.FileWitnesses.Found.{found_under, is_large_under};
ghost use Rattle.rule_chain.specs.FileWitnesses.Kept.{AreKept};
ghost use Rattle.rule_chain.specs.FileWitnesses.Lent.{AreLent};

use crate::file_witnesses::job::{Cached, First};
use crate::file_witnesses::worker::{FirstFinder, NextFinder};
use crate::patch_rules::ReadyRule;
use crate::rule_witnesses::{ItemFault, ItemQuery};
use c_terms::NoMemory;
use cfg_build::Graph;
use ctl_formula::Formula;
use par_match::{Gate, JobFault, Workers, map_jobs};
use smpl_patch::RuleWitness;
use smpl_terms::Env;
use sqlite_items::Items;
use std::alloc::Global;
use std::thread::Threads;

/// The number of nodes at which the formula holds that is worth one thread under an environment after the first. For most of
/// these nodes the set is only asked whether it has the environment.
const NODES_A_THREAD: usize = 8_192;

/// The number of such nodes that a witness counts for, since its forest is made. What each forest really costs is not counted.
const NODES_A_WITNESS: usize = 64;

/// The most sets that are kept for the environments after the first, one for each part of the formula and each node. A set
/// takes about 30 bytes, and its entries take more: half a gigabyte in all, if most sets are empty.
const MOST_SETS: usize = 16_777_216;

/// What is found under the first environment, and what is kept of each item if there are later ones.
#[derive(Drop)]
pub struct AllFirst {
    pub found: Items<RuleWitness>,
    pub kept: Vec<Cached>,
}

/// Returns what stopped the jobs: the fault of the first job that met one, or out of memory.
fn stopped(stop: JobFault<ItemFault>) -> ItemFault
    ensures { result ≡ fault.TooMany → (job : ℕ) × (stop ≡ WorkerStopped job fault.TooMany) }
{
    match stop {
        JobFault::Worker(_, fault) => fault,
        JobFault::NoMemory => ItemFault::NoMemory,
    }
}

/// Joins what is found in the items, in their order.
fn one_list(alloc: Global, lists: Vec<Items<RuleWitness>>) -> Result<Items<RuleWitness>, NoMemory>
    ensures found { IfOk result (λ found. found ≡ flat_map (λ list. list) lists.items) }
{
    let mut found = Items::new(alloc);
    for list in lists {
        found.append(list)?;
    }
    Ok(found)
}

/// The number of sets that the formula has in an item: 0 if the item is lent no graph.
fn sets_of(f: &Formula, graph: Option<&Graph<'_>>) -> usize {
    match graph {
        None => 0,
        Some(g) => f.len().saturating_mul(g.count() as usize),
    }
}

/// The number of items, from the first, whose sets are kept: as many as have at most [`MOST_SETS`] sets together.
fn most_kept(f: &Formula, graphs: &[Option<&Graph<'_>>]) -> usize
    ensures most { result ≤ length graphs.now }
{
    let mut sets: usize = 0;
    for i in 0..graphs.len() {
        sets = sets.saturating_add(sets_of(f, graphs[i]));
        if sets > MOST_SETS {
            return i;
        }
    }
    graphs.len()
}

/// Joins what is found in the items, in their order, and collects what is kept of each if there are later environments.
fn all_first(alloc: Global, answers: Vec<First>, later: bool) -> Result<AllFirst, NoMemory>
    ensures found { IfOk result (λ all. all.found ≡ flat_map (λ first. first.found) answers.items) }
    ensures kept { IfOk result (λ all. later ≡ true → all.kept.items ≡ map (λ first. first.kept) answers.items) }
{
    let mut all = Items::new(alloc);
    let mut sets = Vec::with_capacity(alloc, if later { answers.len() } else { 0 })?;
    for first in answers {
        let First { found, kept } = first;
        all.append(found)?;
        if later {
            sets.push(kept)?;
        }
    }
    Ok(AllFirst {
        found: all,
        kept: sets,
    })
}

/// Returns the witnesses under the first environment and, if there are later ones, what is kept of each item.
pub fn under_first<R: Threads + Sync, G: Gate>(
    workers: &Workers<'_, R, G>,
    ready: &ReadyRule<'_>,
    graphs: &[Option<&Graph<'_>>],
    env: &Env,
    later: bool,
) -> Result<AllFirst, ItemFault>
    requires new { AreNew ready.now.rule.now.exports env.now }
    requires few_items { length graphs.now ≤ 2 ^ 32 }
    ensures found { IfOk result (λ all. (items : List Item) → AreLent ready.now.rule.now items graphs.now
        → map bare_witness all.found ≡ found_under ready.now.number ready.now.rule.now items (bare_env env.now)) }
    ensures few { OnOk result ((items : List Item) → AreLent ready.now.rule.now items graphs.now
        → is_large_under ready.now.number ready.now.rule.now items (bare_env env.now) ≡ false) }
    ensures count { IfOk result (λ all. later ≡ true → length all.kept.items ≡ length graphs.now) }
    ensures kept { IfOk result (λ all. later ≡ true → AreKept ready.now.prepared.now.formula graphs.now all.kept.items) }
    ensures too_many { result ≡ Err fault.TooMany → (items : List Item) → AreLent ready.now.rule.now items graphs.now
        → is_large_under ready.now.number ready.now.rule.now items (bare_env env.now) ≡ true }
{
    let f = &ready.prepared.formula;
    let query = ItemQuery {
        number: ready.number,
        f,
        exports: ready.rule.exports.as_slice(),
    };
    let finder = FirstFinder {
        alloc: workers.alloc,
        query,
        graphs,
        env,
        keep: if later { most_kept(f, graphs) } else { 0 },
    };
    match map_jobs(workers, graphs.len(), &finder) {
        Ok(answers) => Ok(all_first(workers.alloc, answers, later)?),
        Err(stop) => Err(stopped(stop)),
    }
}

/// Returns the witnesses under one more environment, using what is kept of each item.
pub fn under_next<R: Threads + Sync, G: Gate>(
    workers: &Workers<'_, R, G>,
    ready: &ReadyRule<'_>,
    graphs: &[Option<&Graph<'_>>],
    kept: &[Cached],
    env: &Env,
) -> Result<Items<RuleWitness>, ItemFault>
    requires new { AreNew ready.now.rule.now.exports env.now }
    requires few_items { length graphs.now ≤ 2 ^ 32 }
    requires count { length kept.now ≡ length graphs.now }
    requires kept { AreKept ready.now.prepared.now.formula graphs.now kept.now }
    ensures found { IfOk result (λ found. (items : List Item) → AreLent ready.now.rule.now items graphs.now
        → map bare_witness found ≡ found_under ready.now.number ready.now.rule.now items (bare_env env.now)) }
    ensures few { OnOk result ((items : List Item) → AreLent ready.now.rule.now items graphs.now
        → is_large_under ready.now.number ready.now.rule.now items (bare_env env.now) ≡ false) }
    ensures too_many { result ≡ Err fault.TooMany → (items : List Item) → AreLent ready.now.rule.now items graphs.now
        → is_large_under ready.now.number ready.now.rule.now items (bare_env env.now) ≡ true }
{
    let query = ItemQuery {
        number: ready.number,
        f: &ready.prepared.formula,
        exports: ready.rule.exports.as_slice(),
    };
    let finder = NextFinder {
        alloc: workers.alloc,
        query,
        graphs,
        kept,
        env,
    };
    match map_jobs(workers, graphs.len(), &finder) {
        Ok(lists) => Ok(one_list(workers.alloc, lists)?),
        Err(stop) => Err(stopped(stop)),
    }
}

/// The number of nodes of the item at which the formula holds. An item that is matched again counts for as many as are worth a
/// thread.
fn nodes_of_item(kept: &Cached) -> usize {
    match kept {
        Cached::Anew => NODES_A_THREAD,
        Cached::Nowhere => 0,
        Cached::Sets(matched) => matched.nodes.len(),
    }
}

/// Returns the workers that do as many jobs at a time as an environment after the first is worth, given what is kept of the
/// items and the number of witnesses under the first: one for each 8,192 nodes at which the formula holds, where a witness
/// counts for 64 nodes and an item that is matched again for 8,192. That is at least 1, and no more than before.
pub fn workers_next<'w, R: Threads + Sync, G: Gate>(
    workers: &Workers<'w, R, G>,
    kept: &[Cached],
    witnesses: usize,
) -> Workers<'w, R, G>
    ensures most { result.jobs ≤ workers.now.jobs }
{
    let mut nodes = NODES_A_WITNESS.saturating_mul(witnesses);
    for item in kept {
        nodes = nodes.saturating_add(nodes_of_item(item));
    }
    workers.at_most((nodes / NODES_A_THREAD).max(1))
}
