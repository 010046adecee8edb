// Runs the rules of a patch over a file.
ghost use Rattle.std.specs.Prelude.{◌≡◌, ◌≤◌, ◌<◌, ◌+◌, ◌^◌, ◌⊎◌, ℕ, IfOk, IfErr, length, drop};
ghost use Rattle.c_lexer.specs.Lexes.{Lexes};
ghost use Rattle.c_lexer.specs.Pieces.{most_bytes};
ghost use Rattle.c_file.specs.Reads.{Reads};
ghost use Rattle.rule_chain.specs.RuleRun.States.{Chained, first_state};
ghost use Rattle.rule_chain.specs.declared.rule_run.fault.FileFault.TheVariants as fault;
ghost use Rattle.rule_chain.specs.Chain.{Runs, Done, Refused};
ghost use Rattle.rule_chain.specs.Results.{IsResult, AnswersState};
ghost use Rattle.rule_chain.specs.Stops.{IsAt, ComesOf, Steps, IsFurther};

use crate::answers::answer;
use crate::notes::{NotedReading, with_first, with_last};
use crate::passing::{is_passed, untouched};
use crate::patch_rules::PatchRules;
use crate::reading::Reading;
use crate::readings::{cut, read, read_again};
use crate::rule_edits::NewText;
use crate::rule_run::{FileFault, FileState, SkipNote};
use crate::rules::{ReadingEnd, over_reading};
use crate::state::{Applied, Reached, Step};
use c_terms::NoMemory;
use par_match::{Gate, Workers};
use rule_envs::first_file_envs;
use run_choices::Unread;
use sqlite_items::Items;
use std::alloc::Global;
use std::thread::Threads;

/// The upper bound on ids.
const MOST_IDS: u64 = 4_611_686_018_427_387_904;

/// Returns the state of the chain before the first rule.
fn begin(alloc: Global, unread: Unread, bytes: Vec<u8>) -> Result<Reached, NoMemory>
    ensures cut { IfOk result (λ r. Lexes bytes.items r.file.pieces) }
    ensures reads { IfOk result (λ r. Reads r.file.pieces r.file.items) }
    ensures at { IfOk result (λ r. (reads : Reads r.file.pieces r.file.items) →
        IsAt unread r (first_state r.file.pieces reads.0 r.file.items)) }
    ensures done { IfOk result (λ r. r.done ≡ 0) }
    ensures reading { IfOk result (λ r. r.reading ≡ 0) }
{
    let lexed = cut(alloc, bytes.as_slice())?;
    let next = lexed.token_count() as u64;
    let file = read(alloc, lexed)?;
    let skipped = with_first(unread, Items::new(alloc), next, 0, &file)?;
    let findings = FileState {
        file_envs: first_file_envs(alloc)?,
        had: Items::new(alloc),
        found: Items::new(alloc),
    };
    Ok(Reached {
        bytes,
        file,
        next,
        reading: 0,
        findings,
        loaded: next,
        skipped,
        done: 0,
    })
}

/// What rules leave of a file, the last of which edits.
#[derive(Drop)]
struct Edited {
    findings: FileState,
    /// How many rules of the patch are done.
    done: usize,
    text: NewText,
}

/// Returns the step that follows a rule that edits: reads the text again if another rule follows, and ends the chain if not.
/// `skipped` are the notes that are told so far.
fn go_on(
    alloc: Global,
    rules: &PatchRules<'_>,
    reading: u32,
    loaded: u64,
    skipped: Items<SkipNote>,
    edited: Edited,
) -> Result<Step, NoMemory>
    requires reading { reading + 1 < 2 ^ 32 }
    ensures comes { IfOk result (ComesOf rules.now.unread rules.now.patch.now.rules edited.findings edited.text reading loaded skipped edited.done) }
    ensures further { IfOk result (λ st. (from : ℕ) → from < edited.done → IsFurther from (length rules.now.patch.now.rules) reading st) }
{
    let Edited {
        findings,
        done,
        text,
    } = edited;
    if done >= rules.count() {
        return Ok(Step::Ended(answer(alloc, text.bytes, skipped, findings)?));
    }
    let file = read_again(alloc, &text)?;
    let NewText {
        bytes,
        ids: _,
        next,
    } = text;
    let skipped = with_first(rules.unread, skipped, loaded, reading + 1, &file)?;
    Ok(Step::On(Reached {
        bytes,
        file,
        next,
        reading: reading + 1,
        findings,
        loaded,
        skipped,
        done,
    }))
}

/// Runs the remaining rules over the current reading, up to the first that edits, and then reads the new text if another rule
/// follows.
fn next_reading<R: Threads + Sync, G: Gate>(
    workers: &Workers<'_, R, G>,
    rules: &PatchRules<'_>,
    reached: Reached,
) -> Result<Step, FileFault>
    requires within { reached.done ≤ length rules.now.patch.now.rules }
    requires reading { reached.reading ≤ reached.done }
    ensures step { IfOk result (λ st. (s : Chained) → IsAt rules.now.unread reached s →
        Steps rules.now.tidy rules.now.unread rules.now.defined.now rules.now.patch.now.rules reached.done s st) }
    ensures further { IfOk result (IsFurther reached.done (length rules.now.patch.now.rules) reached.reading) }
    ensures fault { IfErr result (λ f. (f ≡ fault.NoMemory) ⊎ ((s : Chained) → IsAt rules.now.unread reached s
        → Runs rules.now.tidy rules.now.defined.now reached.done (drop reached.done rules.now.patch.now.rules) s (Refused f))) }
{
    if reached.next > MOST_IDS {
        return Err(FileFault::NoMemory);
    }
    let Reached {
        bytes,
        file,
        next,
        reading,
        findings,
        loaded,
        skipped,
        done,
    } = reached;
    let read = Reading { file: &file, next };
    let stopped = over_reading(workers, rules, done, &read, findings)?;
    let ReadingEnd {
        findings,
        done,
        text,
        ran,
    } = stopped;
    let noted = NotedReading {
        file: &file,
        number: reading,
        loaded,
    };
    let skipped = with_last(workers.alloc, rules, skipped, &noted, ran.as_slice())?;
    match text {
        None => Ok(Step::Ended(answer(workers.alloc, bytes, skipped, findings)?)),
        Some(text) => {
            let edited = Edited {
                findings,
                done,
                text,
            };
            Ok(go_on(workers.alloc, rules, reading, loaded, skipped, edited)?)
        }
    }
}

/// Runs all rules, reading by reading.
fn over_readings<R: Threads + Sync, G: Gate>(
    workers: &Workers<'_, R, G>,
    rules: &PatchRules<'_>,
    reached: Reached,
) -> Result<Applied, FileFault>
    requires done { reached.done ≡ 0 }
    requires reading { reached.reading ≡ 0 }
    ensures done { IfOk result (λ applied. (s : Chained) → IsAt rules.now.unread reached s
        → (last : Chained) × (Runs rules.now.tidy rules.now.defined.now 0 rules.now.patch.now.rules s (Done last) × AnswersState rules.now.unread applied last)) }
    ensures fault { IfErr result (λ f. (f ≡ fault.NoMemory) ⊎ ((s : Chained) → IsAt rules.now.unread reached s
        → Runs rules.now.tidy rules.now.defined.now 0 rules.now.patch.now.rules s (Refused f))) }
{
    let count = rules.count();
    let mut reached = reached;
    // Each reading runs at least one rule, so `count` readings are enough.
    for number in 0..count {
        let came = next_reading(workers, rules, reached)?;
        match came {
            Step::Ended(applied) => return Ok(applied),
            Step::On(next) => reached = next,
        }
    }
    Ok(answer(
        workers.alloc,
        reached.bytes,
        reached.skipped,
        reached.findings,
    )?)
}

/// Applies a patch to the text of a file: its rules in order, each to the text that the one before left.
///
/// A rule runs once for each distinct choice of values that some environment has for its inherited variables. Its witnesses
/// extend that environment and its edits are applied all at once. If it edits and another rule follows, the text is read again.
/// Tokens that are kept keep their ids.
///
/// The faults of one rule are looked for in the order below. The call returns the first fault of the first rule that has one,
/// and then nothing else of the file.
///
/// - `TooManyWitnesses`: in some item, under some choice, the witnesses have more than 1,000,000 touches and binds.
/// - `TooManyEnvironments`: more than 10,000 environments result.
/// - `Conflict`: two edits clash; the id is that of the first token at which they do.
/// - `Body`: the text is tidied, none clash, and what stands in the place of a body is no list of statements; the id is that of
///   the last token of such a body, the least.
/// - `FileTooLong`: the new text has more than 16,777,216 bytes.
/// - `NoMemory`: out of memory; or ids go beyond 2^62, a reading has 2^32 items or more, or the new text isn't cut into as many
///   tokens as it has ids.
///
/// All but the last carry the number of the rule, from 0.
///
/// Unless all items that can't be read are told of, a text may be passed over in which each rule lacks a word that it needs:
/// it is neither cut nor read, and returned as it is. The chain would end so too (law `unread_changes_notes_alone`).
///
/// Costs one [`crate::rule_run::run_rule`] per rule, one reading of the text at the start, and one after each rule that edits
/// and is followed by another; unless all notes are told, searches of the text for at most eight words of each rule; and for
/// notes on needed items one look at the tokens of each skipped item, and for each rule that ran one at each of its words.
pub fn apply<R: Threads + Sync, G: Gate>(
    workers: &Workers<'_, R, G>,
    rules: &PatchRules<'_>,
    bytes: Vec<u8>,
) -> Result<Applied, FileFault>
    requires short { length bytes.items ≤ most_bytes }
    ensures result { IsResult rules.now.tidy rules.now.unread rules.now.patch.now.rules rules.now.defined.now bytes.items result }
{
    if is_passed(rules, bytes.as_slice()) {
        return Ok(untouched(workers.alloc, bytes)?);
    }
    let reached = begin(workers.alloc, rules.unread, bytes)?;
    let applied = over_readings(workers, rules, reached)?;
    Ok(applied)
}
