// Environments with the rules that they carry.
ghost use Rattle.std.specs.Prelude.{◌≡◌, IfOk, map};
ghost use Rattle.rule_envs.specs.FileEnvs as spec;

use c_terms::NoMemory;
use smpl_terms::{Env, SharedList};
use sqlite_items::Items;
use std::alloc::Global;

/// An environment, and the rules that had a witness on the way to it, by number. Copies share the list of rules.
#[derive(Drop)]
pub struct FileEnv {
    pub env: Env,
    pub rules: SharedList<u32>,
}

/// Returns what the first rule begins with: one empty environment, which carries no rule.
pub fn first_file_envs(alloc: Global) -> Result<Items<FileEnv>, NoMemory>
    ensures file_envs { IfOk result (λ file_envs. file_envs ≡ spec.first_file_envs) }
{
    let mut file_envs = Items::new(alloc);
    file_envs.push(FileEnv {
        env: Env::empty(alloc),
        rules: SharedList::empty(),
    })?;
    Ok(file_envs)
}

/// Returns an equal environment of the file. It shares the environment and the list of rules, so that this takes the same time for any.
pub fn copied(alloc: Global, file_env: &FileEnv) -> Result<FileEnv, NoMemory>
    ensures { IfOk result (λ c. c ≡ file_env.now) }
{
    let env = file_env.env.copy(alloc)?;
    let rules = file_env.rules.share()?;
    Ok(FileEnv { env, rules })
}

/// Returns the environments alone, in order. They share their pairs.
pub fn envs_of(alloc: Global, file_envs: &[FileEnv]) -> Result<Items<Env>, NoMemory>
    ensures envs { IfOk result (λ envs. envs ≡ map (λ c. c.env) file_envs.now) }
{
    let mut envs = Items::new(alloc);
    for file_env in file_envs {
        envs.push(file_env.env.copy(alloc)?)?;
    }
    Ok(envs)
}
