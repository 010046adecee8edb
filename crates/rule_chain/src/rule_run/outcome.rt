// Runs one rule over one reading of a file.
ghost use Rattle.std.specs.Prelude.{◌≡◌, ◌⊎◌, ◌++◌, ℕ, Bool, IfOk, IfErr};
ghost use Rattle.c_file.specs.ItemGraphs.Made.{IsMade};
ghost use Rattle.rule_chain.specs.RuleRun.States.{Chained};
ghost use Rattle.rule_chain.specs.RuleRun.OneRule as spec;
ghost use Rattle.rule_chain.specs.RuleRun.Tidied.{IsFaultBy};
ghost use Rattle.rule_chain.specs.RuleEdits.Tidied.{IsEditFaultBy, LeavesBy};
ghost use Rattle.rule_chain.specs.declared.rule_edits.fault.EditFault.TheVariants as cause;
ghost use Rattle.rule_chain.specs.RuleRun.Outcomes.{AreFindingsOf, IsAtReading, IsOutcomeBy};
ghost use Rattle.rule_chain.specs.declared.rule_run.fault.FileFault.TheVariants as fault;

use crate::patch_rules::ReadyRule;
use crate::reading::Reading;
use crate::rule_edits::{EditFault, NewText, text_after_edits, tidied_text_after_edits};
use crate::rule_matches::{RuleMatches, match_rule};
use crate::rule_run::fault::{FileFault, of_edits, of_matches};
use crate::rule_run::state::FileState;
use c_file::Graphs;
use c_terms::NoMemory;
use par_match::{Gate, Workers};
use smpl_patch::RuleWitness;
use sqlite_items::Items;
use std::alloc::Global;
use std::thread::Threads;

/// Returns the rules that have had a witness, after this one.
#[tactic(auto, using(crate::proofs::RuleRun::HadLemmas::had_none, crate::proofs::RuleRun::HadLemmas::had_some))]
fn had_after(had: Items<u32>, number: u32, found: &[RuleWitness]) -> Result<Items<u32>, NoMemory>
    ensures { IfOk result (λ now. now ≡ spec.had_after had number found.now) }
{
    if found.is_empty() {
        return Ok(had);
    }
    let mut had = had;
    had.push(number)?;
    Ok(had)
}

/// Returns the findings after the rule.
fn findings_after(
    had: Items<u32>,
    found: Items<RuleWitness>,
    number: u32,
    matches: RuleMatches,
) -> Result<FileState, NoMemory>
    ensures file_envs { IfOk result (λ f. f.file_envs ≡ matches.file_envs) }
    ensures had { IfOk result (λ f. f.had ≡ spec.had_after had number matches.witnesses) }
    ensures found { IfOk result (λ f. f.found ≡ found ++ matches.witnesses) }
{
    let RuleMatches {
        witnesses,
        file_envs,
        ran: _,
    } = matches;
    let had = had_after(had, number, witnesses.as_slice())?;
    let mut found = found;
    found.append(witnesses)?;
    Ok(FileState {
        file_envs,
        had,
        found,
    })
}

/// Returns the text after the edits of the rule's witnesses, plain or tidied, if one of them isn't empty.
fn text_after(
    alloc: Global,
    ready: &ReadyRule<'_>,
    reading: &Reading<'_>,
    graphs: &mut Graphs<'_>,
    found: &[RuleWitness],
) -> Result<Option<NewText>, EditFault>
    requires items { graphs.old.items ≡ reading.now.file.now.items }
    ensures text { IfOk result (LeavesBy ready.now.tidy found.now ready.now.rule.now reading.now.file.now.items reading.now.next
        reading.now.file.now.pieces) }
    ensures fault { IfErr result (λ f. (f ≡ cause.NoMemory) ⊎ IsEditFaultBy ready.now.tidy found.now ready.now.rule.now
        reading.now.file.now.items reading.now.next reading.now.file.now.pieces f) }
    ensures graphs { graphs.new.items ≡ graphs.old.items }
    ensures kept { (typed : Bool) (k : ℕ) → IsMade graphs.old typed k → IsMade graphs.new typed k }
{
    let next = reading.next;
    if ready.tidy {
        return tidied_text_after_edits(alloc, ready.rule, reading.file, graphs, next, found);
    }
    text_after_edits(alloc, ready.rule, reading.file, graphs, next, found)
}

/// The findings after a rule, and the new text if one of its edits isn't empty.
#[derive(Drop)]
pub struct RuleOutcome {
    pub findings: FileState,
    pub text: Option<NewText>,
    /// The rule had something to run under.
    pub ran: bool,
}

/// Runs one rule over a reading of the file: finds its witnesses, replaces the environments, and applies all its edits to the
/// text at once.
///
/// `graphs` are those of the file, and `findings` are what the rules before left. There is no new text if no edit changes
/// anything. The contract ignores the ids of terms.
///
/// The call returns the first fault in this order, with the number of the rule:
///
/// - `TooManyWitnesses`: the witnesses in one item under one environment have more than 1,000,000 touches and binds.
/// - `TooManyEnvironments`: more than 10,000 environments result.
/// - `Conflict`: two edits clash; the id is that of the first token at which they do.
/// - `Body`: the text is tidied, and what stands in the place of a body is no list of statements.
/// - `FileTooLong`: the new text would have more than 16,777,216 bytes.
/// - `NoMemory`: out of memory.
///
/// Costs one [`match_rule`] and one [`text_after_edits`] or [`tidied_text_after_edits`].
pub fn run_rule<R: Threads + Sync, G: Gate>(
    workers: &Workers<'_, R, G>,
    ready: &ReadyRule<'_>,
    reading: &Reading<'_>,
    graphs: &mut Graphs<'_>,
    findings: FileState,
) -> Result<RuleOutcome, FileFault>
    requires items { graphs.old.items ≡ reading.now.file.now.items }
    ensures outcome { IfOk result (λ w. (s : Chained) → AreFindingsOf findings s → IsAtReading reading.now.file.now reading.now.next s
        → IsOutcomeBy ready.now.tidy ready.now.defined.now ready.now.number ready.now.rule.now s w.findings w.text w.ran) }
    ensures fault { IfErr result (λ f. (f ≡ fault.NoMemory) ⊎ ((s : Chained) → AreFindingsOf findings s
        → IsAtReading reading.now.file.now reading.now.next s
        → IsFaultBy ready.now.tidy ready.now.defined.now ready.now.number ready.now.rule.now s f)) }
    ensures graphs { graphs.new.items ≡ graphs.old.items }
    ensures kept { (typed : Bool) (k : ℕ) → IsMade graphs.old typed k → IsMade graphs.new typed k }
{
    let FileState {
        file_envs,
        had,
        found,
    } = findings;
    let count = reading.file.items().len();
    let matches = match match_rule(
        workers,
        ready,
        had.as_slice(),
        file_envs.as_slice(),
        graphs,
        count,
    ) {
        Ok(matches) => matches,
        Err(fault) => return Err(of_matches(ready.number, fault)),
    };
    let witnesses = matches.witnesses.as_slice();
    let text = match text_after(workers.alloc, ready, reading, graphs, witnesses) {
        Ok(text) => text,
        Err(fault) => return Err(of_edits(ready.number, fault)),
    };
    let ran = matches.ran;
    let left = findings_after(had, found, ready.number, matches)?;
    Ok(RuleOutcome {
        findings: left,
        text,
        ran,
    })
}
