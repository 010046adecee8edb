// Runs rules over one reading of the text.
ghost use Rattle.std.specs.Prelude.{◌≡◌, ◌<◌, ◌≤◌, ◌+◌, ◌⊎◌, ◌++◌, ◌^◌, true, None, IfOk, IfErr, length, drop, is_some};
ghost use Rattle.rule_chain.specs.RuleRun.States.{Chained};
ghost use Rattle.rule_chain.specs.RuleRun.Outcomes.{AreFindingsOf, IsAtReading};
ghost use Rattle.rule_chain.specs.declared.rule_run.fault.FileFault.TheVariants as fault;
ghost use Rattle.rule_chain.specs.Chain.{Runs, Refused};
ghost use Rattle.rule_chain.specs.Stops.{LeadsOn, ran_number};

use crate::patch_rules::PatchRules;
use crate::reading::Reading;
use crate::rule_edits::NewText;
use crate::rule_run::{FileFault, FileState, RuleOutcome, run_rule};
use c_file::Graphs;
use c_terms::NoMemory;
use par_match::{Gate, Workers};
use sqlite_items::Items;
use std::thread::Threads;

/// Where the rules over one reading stop: after a rule that edits, or after the last.
#[derive(Drop)]
pub struct ReadingEnd {
    pub findings: FileState,
    /// How many rules of the patch are done.
    pub done: usize,
    pub text: Option<NewText>,
    /// The numbers of the rules that ran.
    pub ran: Items<u32>,
}

/// Returns the numbers of the rules that ran, after this one.
fn with_ran(ran: Items<u32>, number: usize, runs: bool) -> Result<Items<u32>, NoMemory>
    requires few { number < 2 ^ 32 }
    ensures { IfOk result (λ now. now ≡ ran ++ ran_number runs number) }
{
    let mut ran = ran;
    if runs {
        ran.push(number as u32)?;
    }
    Ok(ran)
}

/// Runs the rule with this number over a reading.
fn run_at<R: Threads + Sync, G: Gate>(
    workers: &Workers<'_, R, G>,
    rules: &PatchRules<'_>,
    number: usize,
    reading: &Reading<'_>,
    graphs: &mut Graphs<'_>,
    findings: FileState,
) -> Result<RuleOutcome, FileFault>
    requires within { number < length rules.now.patch.now.rules }
    requires items { graphs.old.items ≡ reading.now.file.now.items }
    ensures outcome { IfOk result (λ w. (s : Chained) → AreFindingsOf findings s → IsAtReading reading.now.file.now reading.now.next s
        → LeadsOn rules.now.tidy rules.now.defined.now rules.now.patch.now.rules number s (number + 1) w.findings w.text (ran_number w.ran number)) }
    ensures fault { IfErr result (λ f. (f ≡ fault.NoMemory) ⊎ ((s : Chained) → AreFindingsOf findings s
        → IsAtReading reading.now.file.now reading.now.next s
        → Runs rules.now.tidy rules.now.defined.now number (drop number rules.now.patch.now.rules) s (Refused f))) }
    ensures items { graphs.new.items ≡ graphs.old.items }
{
    let ready = rules.at(number);
    run_rule(workers, &ready, reading, graphs, findings)
}

/// Runs the rules from the number `from` on over one reading, up to and including the first that edits.
pub fn over_reading<R: Threads + Sync, G: Gate>(
    workers: &Workers<'_, R, G>,
    rules: &PatchRules<'_>,
    from: usize,
    reading: &Reading<'_>,
    findings: FileState,
) -> Result<ReadingEnd, FileFault>
    requires within { from ≤ length rules.now.patch.now.rules }
    ensures stopped { IfOk result (λ st. (s : Chained) → AreFindingsOf findings s → IsAtReading reading.now.file.now reading.now.next s
        → LeadsOn rules.now.tidy rules.now.defined.now rules.now.patch.now.rules from s st.done st.findings st.text st.ran) }
    ensures within { IfOk result (λ st. st.done ≤ length rules.now.patch.now.rules) }
    ensures last { IfOk result (λ st. st.text ≡ None → st.done ≡ length rules.now.patch.now.rules) }
    ensures on { IfOk result (λ st. is_some st.text ≡ true → from < st.done) }
    ensures fault { IfErr result (λ f. (f ≡ fault.NoMemory) ⊎ ((s : Chained) → AreFindingsOf findings s
        → IsAtReading reading.now.file.now reading.now.next s
        → Runs rules.now.tidy rules.now.defined.now from (drop from rules.now.patch.now.rules) s (Refused f))) }
{
    let mut graphs = Graphs::new(workers.alloc, reading.file)?;
    let mut findings = findings;
    let mut ran = Items::new(workers.alloc);
    let count = rules.count();
    for number in from..count {
        let outcome = run_at(workers, rules, number, reading, &mut graphs, findings)?;
        let RuleOutcome {
            findings: left,
            text,
            ran: runs,
        } = outcome;
        ran = with_ran(ran, number, runs)?;
        match text {
            None => findings = left,
            Some(text) => {
                return Ok(ReadingEnd {
                    findings: left,
                    done: number + 1,
                    text: Some(text),
                    ran,
                });
            }
        }
    }
    Ok(ReadingEnd {
        findings,
        done: count,
        text: None,
        ran,
    })
}
