// What a rule finds, and the environments after it.
ghost use Rattle.std.specs.Prelude.{◌≡◌, ◌<◌, ◌≤◌, ℕ, Bool, All, IfOk, OnOk, Err, map, length, not, true, false};
ghost use Rattle.c_file.specs.ItemGraphs.Made.{IsMade};
ghost use Rattle.env_parts.specs.Parts.{bare_env};
ghost use Rattle.rule_envs.specs.Shares.{bare_file_env};
ghost use Rattle.rule_envs.specs.FileEnvs.{most_environments};
ghost use Rattle.rule_chain.specs.RuleWitnesses.Bare.{bare_witness};
ghost use Rattle.rule_chain.specs.RuleEdits.Pages.{is_empty};
ghost use Rattle.rule_chain.specs.RuleMatches.Matching as spec;
ghost use Rattle.rule_chain.specs.declared.rule_matches.fault.MatchFault.TheVariants as fault;

use crate::file_witnesses::witnesses;
use crate::patch_rules::ReadyRule;
use crate::rule_matches::fault::MatchFault;
use c_file::Graphs;
use par_match::{Gate, Workers};
use rule_envs::{FileEnv, next_file_envs, projections};
use smpl_patch::RuleWitness;
use smpl_terms::Env;
use sqlite_items::Items;
use std::thread::Threads;

/// What a rule finds, and the environments after it.
#[derive(Drop)]
pub struct RuleMatches {
    pub witnesses: Items<RuleWitness>,
    pub file_envs: Items<FileEnv>,
    /// The rule has something to run under.
    pub ran: bool,
}

fn has_some(envs: &[Env]) -> bool
    ensures { result ≡ not (is_empty (map bare_env envs.now)) }
{
    match envs {
        [_, ..] => true,
        [] => false,
    }
}

/// Matches one rule against one reading of a file: chooses what it runs under, finds its witnesses, and replaces the
/// environments. Edits are left to `run_rule` of rule_run.
///
/// `had` lists the rules that have had a witness on the file, `file_envs` are the environments so far, and `count` is the number
/// of the file's items. The contract ignores the ids of terms.
///
/// - `TooManyWitnesses`: the witnesses in one item under one environment have more than 1,000,000 touches and binds.
/// - `TooManyEnvironments`: they don't, and more than 10,000 environments result.
/// - `NoMemory`: out of memory.
///
/// Costs one [`projections`], one [`witnesses`] and one [`next_file_envs`].
pub fn match_rule<R: Threads + Sync, G: Gate>(
    workers: &Workers<'_, R, G>,
    ready: &ReadyRule<'_>,
    had: &[u32],
    file_envs: &[FileEnv],
    graphs: &mut Graphs<'_>,
    count: usize,
) -> Result<RuleMatches, MatchFault>
    requires count { count ≡ length graphs.old.items }
    ensures found { IfOk result (λ t. map bare_witness t.witnesses
        ≡ spec.rule_found ready.now.defined.now had.now ready.now.number ready.now.rule.now graphs.old.items (map bare_file_env file_envs.now)) }
    ensures file_envs { IfOk result (λ t. map bare_file_env t.file_envs
        ≡ spec.file_envs_after ready.now.defined.now had.now ready.now.number ready.now.rule.now graphs.old.items (map bare_file_env file_envs.now)) }
    ensures ran { IfOk result (λ t. t.ran
        ≡ not (is_empty (spec.rule_projections ready.now.defined.now had.now ready.now.number ready.now.rule.now graphs.old.items (map bare_file_env file_envs.now)))) }
    ensures few { OnOk result
        (spec.has_too_many ready.now.defined.now had.now ready.now.number ready.now.rule.now graphs.old.items (map bare_file_env file_envs.now) ≡ false) }
    ensures few_environments { IfOk result (λ t. length t.file_envs ≤ most_environments) }
    ensures too_many { result ≡ Err fault.TooManyWitnesses
        → spec.has_too_many ready.now.defined.now had.now ready.now.number ready.now.rule.now graphs.old.items (map bare_file_env file_envs.now) ≡ true }
    ensures too_many_environments { result ≡ Err fault.TooManyEnvironments
        → (spec.has_too_many ready.now.defined.now had.now ready.now.number ready.now.rule.now graphs.old.items (map bare_file_env file_envs.now) ≡ false)
        × (most_environments < length
        (spec.file_envs_after ready.now.defined.now had.now ready.now.number ready.now.rule.now graphs.old.items (map bare_file_env file_envs.now))) }
    ensures items { graphs.new.items ≡ graphs.old.items }
    ensures kept { (typed : Bool) (k : ℕ) → IsMade graphs.old typed k → IsMade graphs.new typed k }
{
    let projected = projections(
        workers.alloc,
        ready.defined,
        had,
        &ready.rule.depends,
        ready.prepared.inherited.as_slice(),
        file_envs,
    )?;
    let found = witnesses(
        workers,
        ready,
        graphs,
        count,
        projected.projections.as_slice(),
    )?;
    let next = next_file_envs(
        workers.alloc,
        ready.number,
        file_envs,
        projected.places.as_slice(),
        found.parts.as_slice(),
    )?;
    let ran = has_some(projected.projections.as_slice());
    Ok(RuleMatches {
        witnesses: found.witnesses,
        file_envs: next,
        ran,
    })
}
