// The environments after a rule.
ghost use Rattle.std.specs.Prelude.{◌≡◌, ◌<◌, ◌≤◌, ◌++◌, ℕ, List, [], Option, IfOk, IfErr, IsErrOf, map, length};
ghost use Rattle.env_parts.specs.Parts.{Pairs, bare_env};
ghost use Rattle.rule_envs.specs.declared.file_env.FileEnv.{FileEnv as One};
ghost use Rattle.rule_envs.specs.Shares.{bare_file_env};
ghost use Rattle.rule_envs.specs.FileEnvs as spec;
ghost use Rattle.rule_envs.specs.Places.{parts_at};

use crate::fault::EnvsFault;
use crate::file_env::{FileEnv, copied};
use c_terms::NoMemory;
use env_parts::joined;
use smpl_terms::{Env, SharedList};
use sqlite_items::Items;
use std::alloc::Global;

const MOST_ENVIRONMENTS: usize = 10_000;

fn extended(alloc: Global, number: u32, file_env: &FileEnv, part: &Env) -> Result<FileEnv, NoMemory>
    ensures { IfOk result (λ c. c ≡ spec.extended number file_env.now part.now) }
{
    let env = joined(alloc, &file_env.env, part)?;
    let mut rules = Vec::from_slice(alloc, file_env.rules.as_slice())?;
    rules.push(number)?;
    let rules = SharedList::of(alloc, rules)?;
    Ok(FileEnv { env, rules })
}

fn extend(
    alloc: Global,
    number: u32,
    file_env: &FileEnv,
    parts: &[Env],
    next: Items<FileEnv>,
) -> Result<Items<FileEnv>, NoMemory>
    ensures { IfOk result (λ now. now ≡ next ++ map (spec.extended number file_env.now) parts.now) }
{
    let mut next = next;
    for part in parts {
        let more = extended(alloc, number, file_env, part)?;
        next.push(more)?;
    }
    Ok(next)
}

/// Appends what replaces this environment: itself if there are no parts, and otherwise its extensions.
fn replace(
    alloc: Global,
    number: u32,
    file_env: &FileEnv,
    parts: &[Env],
    next: Items<FileEnv>,
) -> Result<Items<FileEnv>, NoMemory>
    ensures { IfOk result (λ now. now ≡ next ++ spec.replaced number file_env.now parts.now) }
{
    if parts.is_empty() {
        let mut next = next;
        next.push(copied(alloc, file_env)?)?;
        return Ok(next);
    }
    extend(alloc, number, file_env, parts, next)
}

/// Returns the parts at the place of a projection, or none if there is no place.
fn parts_of<'a>(parts: &'a [Items<Env>], place: Option<usize>) -> &'a [Env]
    ensures { result.now ≡ parts_at parts.now place }
{
    match place {
        None => &[],
        Some(k) => match parts.get(k) {
            None => &[],
            Some(part) => part.as_slice(),
        },
    }
}

/// Returns the environments after a rule. Each environment that takes part and whose projection has parts is replaced by its
/// extensions with them, in order, which carry the rule too; every other one stays. `places` are those of
/// [`crate::projections`], and `parts` lists for each projection the distinct exported values that are found under it, as
/// [`crate::exported`] returns them.
///
/// - `TooMany`: more than 10,000 environments result. At most one environment's extensions are made beyond that.
/// - `NoMemory`: out of memory.
pub fn next_file_envs(
    alloc: Global,
    number: u32,
    file_envs: &[FileEnv],
    places: &[Option<usize>],
    parts: &[Items<Env>],
) -> Result<Items<FileEnv>, EnvsFault>
    requires lengths { length places.now ≡ length file_envs.now }
    ensures file_envs { IfOk result (λ next. (share : One → Option Pairs) (brings : Pairs → List Pairs)
        → spec.AreBrought share brings (map bare_file_env file_envs.now) places.now (map (map bare_env) parts.now)
        → map bare_file_env next ≡ spec.next_file_envs number share brings (map bare_file_env file_envs.now)) }
    ensures few { IfOk result (λ next. length next ≤ spec.most_environments) }
    ensures too_many { IsErrOf result EnvsFault.TooMany → (share : One → Option Pairs) (brings : Pairs → List Pairs)
        → spec.AreBrought share brings (map bare_file_env file_envs.now) places.now (map (map bare_env) parts.now)
        → spec.most_environments < length (spec.next_file_envs number share brings (map bare_file_env file_envs.now)) }
{
    let mut next = Items::new(alloc);
    for i in 0..file_envs.len() {
        let brought = parts_of(parts, places[i]);
        next = replace(alloc, number, &file_envs[i], brought, next)?;
        if next.len() > MOST_ENVIRONMENTS {
            return Err(EnvsFault::TooMany);
        }
    }
    Ok(next)
}
