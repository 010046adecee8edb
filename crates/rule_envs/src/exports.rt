// The values that witnesses pass to later rules.
ghost use Rattle.std.specs.Prelude.{◌≡◌, IfOk, map};
ghost use Rattle.rule_envs.specs.FileEnvs as spec;

use c_terms::NoMemory;
use env_parts::{DistinctEnvs, restricted};
use smpl_patch::RuleWitness;
use smpl_terms::{Env, Var};
use sqlite_items::Items;
use std::alloc::Global;

/// Returns the distinct values of the exported variables in these witnesses, in the order in which they first appear. Costs a
/// look-up in a search tree for each witness.
pub fn exported(
    alloc: Global,
    exports: &[Var],
    found: &[RuleWitness],
) -> Result<Items<Env>, NoMemory>
    ensures envs { IfOk result (λ envs. envs ≡ spec.exported exports.now (map (λ w. w.env) found.now)) }
{
    let mut envs = DistinctEnvs::new(alloc);
    for w in found {
        let part = restricted(alloc, &w.env, exports)?;
        envs = envs.with(alloc, part)?.envs;
    }
    Ok(envs.into_envs())
}
