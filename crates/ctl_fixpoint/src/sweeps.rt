// One sweep of an until: it visits the nodes from the last to the first and recomputes those that may have changed.
ghost use Rattle.std.specs.Prelude.{◌≡◌, ℕ, ◌+◌, ◌-◌, ◌<◌, ◌≤◌, ◌^◌, Bool, true, false, not, ◌&&◌, ◌||◌, List, []};
ghost use Rattle.std.specs.Prelude.{length, slice_index_or, IfOk, Contains};
ghost use Rattle.cfg_build.specs.CfgGraph.Flow.{IsSound, count_of, succ_of};
ghost use Rattle.smpl_terms.specs.declared.var.Var.{Var};
ghost use Rattle.smpl_terms.specs.Environments.{Environment};
ghost use Rattle.env_sets.specs.Sets.{set_denotes, set_vars};
ghost use Rattle.ctl_fixpoint.specs.Steps.{has, row_vars};
ghost use Rattle.ctl_fixpoint.specs.Sweeps.{time_at, round_of, IsSweep, Visits, SweepsLast, SweptTimes};

use crate::point::next_set;
use crate::rows::set_in;
use c_terms::NoMemory;
use cfg_build::Graph;
use env_sets::{EnvSet, join, meet, same_set};
use std::alloc::Global;
use std::marker::Model;

/// The sets of an until so far, with the times at which each node was last computed and its set last changed. The clock
/// advances by one with each change.
#[derive(Drop)]
pub struct Sweep {
    sets: Vec<EnvSet>,
    seen: Vec<u64>,
    changed: Vec<u64>,
    clock: u64,
}

impl Model for Sweep {
    ghost use Rattle.std.specs.Coded.{codes};
    ghost use Rattle.c_terms.specs.contracts.tree.Tree as tree;
    ghost use Rattle.ctl_fixpoint.specs.Sweeps.{Sweeping};

    ghost Value = { Sweeping };

    ghost coded = { Prim.hlevel (codes, tree.the_row.coded) };

    ghost view = { λ w. record { sets = w.sets.items; seen = w.seen.items; changed = w.changed.items; clock = w.clock } };
}

/// Returns what one round yields at a node: the end holds, or the way holds and the sets so far hold next.
fn round_set(
    alloc: Global,
    g: &Graph,
    every: bool,
    way: &[EnvSet],
    end: &[EnvSet],
    sets: &[EnvSet],
    s: u32,
) -> Result<EnvSet, NoMemory>
    requires sound { IsSound g.now }
    requires node { s < count_of g.now }
    requires way { length way.now ≡ count_of g.now }
    requires end { length end.now ≡ count_of g.now }
    requires sets { length sets.now ≡ count_of g.now }
    ensures gives { IfOk result (λ r. (env : Environment) →
        set_denotes r env ≡ round_of g.now every way.now end.now sets.now s env) }
    ensures vars { IfOk result (λ r. (test : Var → Bool) → row_vars test way.now ≡ true
        → row_vars test end.now ≡ true
        → row_vars test sets.now ≡ true → set_vars test r ≡ true) }
{
    if set_in(way, s).is_none() {
        return set_in(end, s).copy(alloc);
    }
    let next = next_set(alloc, g, every, sets, s)?;
    let through = meet(alloc, set_in(way, s), &next)?;
    join(alloc, set_in(end, s), &through)
}

impl Sweep {
    /// Creates a sweep in which no set has an environment and every node is still to be computed.
    pub fn new(
        alloc: Global,
        g: &Graph,
        every: bool,
        way: &[EnvSet],
        end: &[EnvSet],
    ) -> Result<Sweep, NoMemory>
        requires { IsSound g.now }
        ensures { IfOk result (λ w. SweptTimes g.now every way.now end.now 0 w) }
    {
        let count = g.count() as usize;
        let mut sets = Vec::with_capacity(alloc, count)?;
        let mut seen = Vec::with_capacity(alloc, count)?;
        let mut changed = Vec::with_capacity(alloc, count)?;
        for _n in 0..count {
            sets.push(EnvSet::none(alloc))?;
            seen.push(0)?;
            changed.push(1)?;
        }
        Ok(Sweep {
            sets,
            seen,
            changed,
            clock: 1,
        })
    }

    /// Returns the sets.
    pub fn into_sets(self) -> Vec<EnvSet>
        ensures { result.items ≡ self.sets }
    {
        let Sweep { sets, .. } = self;
        sets
    }

    /// Whether some successor has changed since the node was last computed.
    fn is_stale(&self, g: &Graph, s: u32) -> bool
        requires sound { IsSound g.now }
        requires node { s < count_of g.now }
        requires seen { length self.now.seen ≡ count_of g.now }
        requires changed { length self.now.changed ≡ count_of g.now }
        ensures { result ≡ false → (k : ℕ) → Contains (succ_of g.now s) k
            → time_at self.now.changed k ≤ time_at self.now.seen s }
    {
        let seen = self.seen[s as usize];
        for k in g.succ(s) {
            if self.changed[*k as usize] > seen {
                return true;
            }
        }
        false
    }

    /// Recomputes a node if it may have changed, and returns whether it has.
    fn visit(
        &mut self,
        alloc: Global,
        g: &Graph,
        every: bool,
        way: &[EnvSet],
        end: &[EnvSet],
        s: u32,
    ) -> Result<bool, NoMemory>
        requires sound { IsSound g.now }
        requires node { s < count_of g.now }
        requires way { length way.now ≡ count_of g.now }
        requires end { length end.now ≡ count_of g.now }
        requires sweep { IsSweep g.now every way.now end.now self.old }
        requires clock { self.old.clock + 1 < 2 ^ 64 }
        ensures { IfOk result (λ changed. Visits g.now every way.now end.now self.old self.new s changed) }
    {
        if !self.is_stale(g, s) {
            return Ok(false);
        }
        let set = round_set(alloc, g, every, way, end, &self.sets, s)?;
        self.seen[s as usize] = self.clock;
        if same_set(&set, &self.sets[s as usize]) {
            return Ok(false);
        }
        self.sets[s as usize] = set;
        self.clock += 1;
        self.changed[s as usize] = self.clock;
        Ok(true)
    }

    /// Visits each node, from the last to the first, and returns whether a set has changed.
    pub fn go_over(
        &mut self,
        alloc: Global,
        g: &Graph,
        every: bool,
        way: &[EnvSet],
        end: &[EnvSet],
    ) -> Result<bool, NoMemory>
        requires sound { IsSound g.now }
        requires way { length way.now ≡ count_of g.now }
        requires end { length end.now ≡ count_of g.now }
        requires sweep { IsSweep g.now every way.now end.now self.old }
        requires clock { self.old.clock + count_of g.now < 2 ^ 64 }
        ensures { IfOk result (λ changed.
            SweepsLast g.now every way.now end.now (count_of g.now) self.old self.new changed) }
    {
        let count = g.count();
        let mut any = false;
        for n in 0..count {
            let changed = self.visit(alloc, g, every, way, end, count - 1 - n)?;
            any = any || changed;
        }
        Ok(any)
    }
}
