// The rows of untils and of quantifiers.
ghost use Rattle.std.specs.Prelude.{◌≡◌, ℕ, ◌<◌, Bool, true, false, ◌||◌, List, [], length, IfOk};
ghost use Rattle.cfg_build.specs.CfgGraph.Flow.{IsSound, count_of};
ghost use Rattle.smpl_terms.specs.declared.var.Var.{Var};
ghost use Rattle.smpl_terms.specs.Vars.{same_var};
ghost use Rattle.smpl_terms.specs.Environments.{Environment};
ghost use Rattle.ctl_fixpoint.specs.Steps.{row_vars, Gives, Projects};
ghost use Rattle.ctl_fixpoint.specs.Sweeps.{until_of};

use crate::sweeps::Sweep;
use c_terms::NoMemory;
use cfg_build::Graph;
use env_sets::{EnvSet, project};
use smpl_terms::Var;
use std::alloc::Global;

/// Returns the row of an until, given those of its way and its end. Sweeps until a sweep changes nothing.
pub fn until_row(
    alloc: Global,
    g: &Graph,
    every: bool,
    way: &[EnvSet],
    end: &[EnvSet],
) -> Result<Vec<EnvSet>, NoMemory>
    requires way { length way.now ≡ count_of g.now }
    requires end { length end.now ≡ count_of g.now }
    ensures gives { IfOk result (λ r.
        Gives (count_of g.now) r.items (until_of g.now every way.now end.now (count_of g.now))) }
    ensures vars { IfOk result (λ r. (test : Var → Bool) → row_vars test way.now ≡ true
        → row_vars test end.now ≡ true
        → row_vars test r.items ≡ true) }
{
    let count = g.count();
    let mut sweep = Sweep::new(alloc, g, every, way, end)?;
    for _k in 0..count {
        let changed = sweep.go_over(alloc, g, every, way, end)?;
        if !changed {
            return Ok(sweep.into_sets());
        }
    }
    Ok(sweep.into_sets())
}

/// Returns the row of a quantifier, given that of its part: the variable may have any value.
pub fn exists_row(alloc: Global, x: &Var, row: &[EnvSet]) -> Result<Vec<EnvSet>, NoMemory>
    ensures gives { IfOk result (λ r. Projects (length row.now) x.now row.now r.items) }
    ensures vars { IfOk result (λ r. (test : Var → Bool)
        → row_vars (λ y. test y || same_var y x.now) row.now ≡ true
        → row_vars test r.items ≡ true) }
{
    let mut sets = Vec::with_capacity(alloc, row.len())?;
    for set in row {
        sets.push(project(alloc, set, x)?)?;
    }
    Ok(sets)
}
