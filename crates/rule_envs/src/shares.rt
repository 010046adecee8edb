// What a rule is run under.
ghost use Rattle.std.specs.Prelude.{◌≡◌, IfOk, IsSomeAnd, MatchOption, None, Some, ℕ, true, map, slice_get};
ghost use Rattle.std.specs.List.{list_all, AllZip};
ghost use Rattle.smpl_terms.specs.Environments.{has_value};
ghost use Rattle.env_parts.specs.Parts as parts;
ghost use Rattle.rule_envs.specs.Shares as spec;

use crate::depends::judge;
use crate::file_env::FileEnv;
use c_terms::{NoMemory, Text};
use env_parts::{DistinctEnvs, restricted};
use smpl_patch::Dep;
use smpl_terms::{Env, Var};
use sqlite_items::Items;
use std::alloc::Global;

/// What a rule is run under, and the place of each environment's share in it.
#[derive(Drop)]
pub struct Projected {
    pub projections: Items<Env>,
    /// For each environment the place of its projection, or none if it doesn't take part.
    pub places: Items<Option<usize>>,
}

fn has_all(env: &Env, vars: &[Var]) -> bool
    ensures { result ≡ list_all (has_value env.now) vars.now }
{
    vars.iter().all(|x| env.has(x))
}

/// Returns the environment's values of the inherited variables, if it takes part in the rule.
fn share(
    alloc: Global,
    defined: &[Text],
    had: &[u32],
    depends: &Dep,
    inherited: &[Var],
    file_env: &FileEnv,
) -> Result<Option<Env>, NoMemory>
    ensures { IfOk result (λ o. o ≡ spec.share defined.now had.now depends.now inherited.now file_env.now) }
{
    if !judge(depends, file_env.rules.as_slice(), had, defined) {
        return Ok(None);
    }
    if !has_all(&file_env.env, inherited) {
        return Ok(None);
    }
    let env = restricted(alloc, &file_env.env, inherited)?;
    Ok(Some(env))
}

/// Distinct shares, and the place of one of them.
#[derive(Drop)]
struct Shared {
    envs: DistinctEnvs,
    place: Option<usize>,
}

fn with_share(alloc: Global, envs: DistinctEnvs, share: Option<Env>) -> Result<Shared, NoMemory>
    ensures { IfOk result (λ r. MatchOption share ((r.envs ≡ envs) × (r.place ≡ None)) (λ env.
        (r.envs ≡ parts.with_new envs env) × ((k : ℕ) × ((r.place ≡ Some k)
        × IsSomeAnd (slice_get r.envs k) (λ e. parts.same_env env e ≡ true))))) }
{
    match share {
        None => Ok(Shared { envs, place: None }),
        Some(env) => {
            let placed = envs.with(alloc, env)?;
            Ok(Shared {
                envs: placed.envs,
                place: Some(placed.place),
            })
        }
    }
}

/// Returns what the rule is run under: the distinct shares of the environments that take part, in the order in which they first
/// appear, and for each environment the place of its share. Costs a look-up in a search tree for each environment, in addition
/// to the look-ups in the environment.
pub fn projections(
    alloc: Global,
    defined: &[Text],
    had: &[u32],
    depends: &Dep,
    inherited: &[Var],
    file_envs: &[FileEnv],
) -> Result<Projected, NoMemory>
    ensures projections { IfOk result (λ r. r.projections
        ≡ spec.projections defined.now had.now depends.now inherited.now file_envs.now) }
    ensures places { IfOk result (λ r. AllZip (spec.StandsAt (map parts.bare_env r.projections))
        (map (spec.share defined.now had.now depends.now inherited.now) (map spec.bare_file_env file_envs.now)) r.places) }
{
    let mut envs = DistinctEnvs::new(alloc);
    let mut places = Items::new(alloc);
    for file_env in file_envs {
        let share = share(alloc, defined, had, depends, inherited, file_env)?;
        let shared = with_share(alloc, envs, share)?;
        envs = shared.envs;
        places.push(shared.place)?;
    }
    Ok(Projected {
        projections: envs.into_envs(),
        places,
    })
}
