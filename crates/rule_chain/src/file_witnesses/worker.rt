// The workers of the jobs: each job finds what a formula finds in one item under one environment.
ghost use Rattle.std.specs.Prelude.{◌≡◌, ◌<◌, ◌≤◌, ◌^◌, ℕ, true, length, IfOk, Err};
ghost use Rattle.rule_chain.specs.RuleWitnesses.Jobs.{touches_and_binds};
ghost use Rattle.wit_forest.specs.WitOrder.Sizes.{most_nodes};
ghost use Rattle.rule_chain.specs.declared.rule_witnesses.fault.ItemFault.TheVariants as fault;
ghost use Rattle.rule_chain.specs.FileWitnesses.Required.{are_new};
ghost use Rattle.rule_chain.specs.FileWitnesses.Jobs.{AreFoundBy, found_by};
ghost use Rattle.rule_chain.specs.FileWitnesses.Kept.{IsKept, AreKept, are_kept-prop};
ghost use Rattle.rule_chain.specs.FileWitnesses.Lent.{lent_graph};

use crate::file_witnesses::job::{Cached, First, first_found, next_found};
use crate::rule_witnesses::{ItemFault, ItemQuery};
use cfg_build::Graph;
use ctl_fixpoint::SoundGraph;
use par_match::Worker;
use smpl_patch::RuleWitness;
use smpl_terms::Env;
use sqlite_items::Items;
use std::alloc::Global;

/// Finds what a formula finds in each item under the first environment, with one job per item, which has the item's number.
#[derive(Drop)]
pub struct FirstFinder<'q, 'a> {
    pub alloc: Global,
    pub query: ItemQuery<'q>,
    pub graphs: &'a [Option<&'a Graph<'a>>],
    pub env: &'a Env,
    /// The number of items, from the first, for which what `match_item` returns is kept.
    pub keep: usize,
    ghost new: { are_new query.exports.now env.now ≡ true },
    ghost few: { length graphs.now ≤ 2 ^ 32 },
}

impl<'q, 'a> Worker for FirstFinder<'q, 'a> {
    type Answer = First;

    type Fault = ItemFault;

    ghost jobs = { λ w. length w.graphs.now };

    ghost may_answer = { λ w job first.
        AreFoundBy (found_by w.query.f.now w.query.exports.now w.query.number job (lent_graph w.graphs.now job) w.env.now) first.found
        × IsKept w.query.f.now (lent_graph w.graphs.now job) first.kept };

    ghost may_fail = { λ w job why. why ≡ fault.TooMany
        → most_nodes < touches_and_binds (found_by w.query.f.now w.query.exports.now w.query.number job (lent_graph w.graphs.now job) w.env.now) };

    fn answer(&self, job: usize) -> Result<First, ItemFault> {
        match self.graphs[job] {
            None => Ok(First::nothing(self.alloc)),
            Some(graph) => first_found(
                self.alloc,
                &self.query,
                &SoundGraph::of(graph),
                job as u32,
                self.env,
                job < self.keep,
            ),
        }
    }
}

/// Finds what a formula finds in each item under one more environment, using what is kept of the item, with one job per item,
/// which has the item's number.
#[derive(Drop)]
pub struct NextFinder<'q, 'a> {
    pub alloc: Global,
    pub query: ItemQuery<'q>,
    pub graphs: &'a [Option<&'a Graph<'a>>],
    pub kept: &'a [Cached],
    pub env: &'a Env,
    ghost new: { are_new query.exports.now env.now ≡ true },
    ghost few: { length graphs.now ≤ 2 ^ 32 },
    ghost kept_count: { length kept.now ≡ length graphs.now },
    ghost each_kept: { AreKept query.f.now graphs.now kept.now } by { are_kept-prop query.f.now graphs.now kept.now },
}

impl<'q, 'a> Worker for NextFinder<'q, 'a> {
    type Answer = Items<RuleWitness>;

    type Fault = ItemFault;

    ghost jobs = { λ w. length w.graphs.now };

    ghost may_answer = { λ w job found.
        AreFoundBy (found_by w.query.f.now w.query.exports.now w.query.number job (lent_graph w.graphs.now job) w.env.now) found };

    ghost may_fail = { λ w job why. why ≡ fault.TooMany
        → most_nodes < touches_and_binds (found_by w.query.f.now w.query.exports.now w.query.number job (lent_graph w.graphs.now job) w.env.now) };

    fn answer(&self, job: usize) -> Result<Items<RuleWitness>, ItemFault> {
        match self.graphs[job] {
            None => Ok(Items::new(self.alloc)),
            Some(graph) => next_found(
                self.alloc,
                &self.query,
                &SoundGraph::of(graph),
                &self.kept[job],
                job as u32,
                self.env,
            ),
        }
    }
}
