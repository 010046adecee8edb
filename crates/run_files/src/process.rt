// What is done with one text.
ghost use Rattle.std.specs.Prelude.{◌≡◌, ◌≤◌, ℕ, Option, length, IfOk, OnOk, IfErr};
ghost use Rattle.c_lexer.specs.Pieces.{most_bytes};
ghost use Rattle.outer_io.specs.Files.{Files};
ghost use Rattle.run_acts.specs.Acts.{observed};
ghost use Rattle.run_acts.specs.Breaks.{counts};
ghost use Rattle.run_acts.specs.Places.{SamePlaces};
ghost use Rattle.run_acts.specs.Statuses.{status_of};
ghost use Rattle.run_choices.specs.declared.unread.Unread.{Unread};
ghost use Rattle.rule_chain.specs.RuleRun.States.{Chained};
ghost use Rattle.rule_chain.specs.Results.{AnswersState};
ghost use Rattle.run_files.specs.RunLines.Summary as lines;
ghost use Rattle.run_files.specs.Treatment.{IsTreatmentOf, Sums, printing, stored_after};
ghost use Rattle.run_files.specs.Shows.{printed};
ghost use Rattle.wit_print.specs.Report.{report_of as report_is};
ghost use Rattle.run_files.specs.Does.{Does, Stops};
ghost use Rattle.run_files.specs.Cuts.{TreatsAll, TreatsPart};
ghost use Rattle.run_files.specs.RunStages.Stages.{generated_name};

use crate::Tally;
use crate::applies::apply_or_refuse;
use crate::effects::{report_skipped, show, show_name, store_if_changed};
use crate::hits::{has_witness, is_checked_hit};
use crate::run_lines::summary;
use crate::shows::{Shown, what_is_shown};
use outer_io::{Shelf, Sink};
use par_match::{Gate, Workers};
use rule_chain::{Applied, PatchRules};
use run_acts::{Outside, Stopped};
use run_words::Mode;
use smpl_patch::Patch;
use std::alloc::Global;
use std::thread::Threads;
use wit_print::print as report_of;

/// The name of a generated text.
const GENERATED_NAME: &str = "generated";

/// Applies the patch to the bytes of a file, outputs the result, and returns what is known of it: whether it is refused, whether
/// it is hit, which is looked at with `check` alone, and whether something was found.
///
/// The acts are, in this order: a line on the error output for each skipped item that is told of, reading by reading; on the
/// output the report, or else with `check` the name of the file if it is hit, or else the new text; and, with `in_place`, a
/// store of the new text if it changed. For a refused file, the only act is the line of the refusal. With `quiet`, no line has
/// a place.
///
/// Costs one [`apply`](rule_chain::apply), the report or the text, and a copy of the bytes. If items are skipped or edits clash, the
/// bytes are cut into tokens once more, to say where that is. With `check` it looks once at the text, the patch and the
/// witnesses. Stops at the first act that fails, and when out of memory.
pub fn process_file<R: Threads + Sync, S: Shelf, O: Sink, E: Sink, G: Gate>(
    workers: &Workers<'_, R, G>,
    rules: &PatchRules<'_>,
    mode: Mode,
    name: &str,
    bytes: Vec<u8>,
    outside: &mut Outside<'_, '_, '_, S, O, E>,
) -> Result<Tally, Stopped>
    requires short { length bytes.items ≤ most_bytes }
    requires unread { rules.now.unread ≡ mode.unread }
    requires tidy { rules.now.tidy ≡ mode.tidy }
    ensures same { SamePlaces outside.old outside.new }
    ensures treated { IfOk result (λ tally. TreatsAll (IsTreatmentOf mode rules.now.patch.now rules.now.defined.now name.now bytes.items) tally
        (observed (S.holds outside.old.shelf.now) (S.stores outside.old.shelf.now) (O.written outside.old.out.now) (E.written outside.old.err.now))
        (observed (S.holds outside.new.shelf.now) (S.stores outside.new.shelf.now) (O.written outside.new.out.now) (E.written outside.new.err.now))) }
    ensures later { S.faults outside.old.shelf.now ≤ S.faults outside.new.shelf.now }
    ensures later_out { O.faults outside.old.out.now ≤ O.faults outside.new.out.now }
    ensures later_err { E.faults outside.old.err.now ≤ E.faults outside.new.err.now }
    ensures stopped { IfErr result (λ stopped. TreatsPart (IsTreatmentOf mode rules.now.patch.now rules.now.defined.now name.now bytes.items)
        (counts (S.faults outside.old.shelf.now) (O.faults outside.old.out.now) (E.faults outside.old.err.now))
        (counts (S.faults outside.new.shelf.now) (O.faults outside.new.out.now) (E.faults outside.new.err.now))
        (observed (S.holds outside.old.shelf.now) (S.stores outside.old.shelf.now) (O.written outside.old.out.now) (E.written outside.old.err.now))
        (observed (S.holds outside.new.shelf.now) (S.stores outside.new.shelf.now) (O.written outside.new.out.now) (E.written outside.new.err.now)) (status_of stopped)) }
{
    let alloc = workers.alloc;
    let text = bytes.as_slice();
    let Some(applied) = apply_or_refuse(workers, rules, mode.quiet, name, text, outside.err)? else {
        return Ok(Tally::of_refused());
    };
    let hit = is_checked_hit(alloc, mode.check, rules.patch, text, &applied)?;
    report_skipped(
        alloc,
        outside.err,
        mode.quiet,
        name,
        text,
        applied.skipped.as_slice(),
    )?;
    let what = what_is_shown(mode, hit);
    show_file(alloc, rules.patch, what, name, &applied, outside)?;
    store_file(alloc, mode, name, text, &applied.bytes, outside)?;
    Ok(Tally {
        refused: false,
        hit,
        found: has_witness(&applied),
    })
}

/// Prints the report of the witnesses.
fn show_report<O: Sink, E: Sink>(
    alloc: Global,
    patch: &Patch,
    name: &str,
    applied: &Applied,
    out: &mut O,
    err: &mut E,
) -> Result<(), Stopped>
    ensures done { OnOk result ((unread : Unread) (s : Chained) (files : Option Files) (stores : ℕ) → AnswersState unread applied.now s →
        Does (printing (report_is patch.now name.now s.found))
        (observed files stores (O.written out.old) (E.written err.old)) (observed files stores (O.written out.new) (E.written err.new))) }
    ensures later { O.faults out.old ≤ O.faults out.new }
    ensures later_err { E.faults err.old ≤ E.faults err.new }
    ensures stopped { IfErr result (λ stopped. (unread : Unread) (s : Chained) (files : Option Files) (stores n n' : ℕ) →
        AnswersState unread applied.now s →
        Stops (printing (report_is patch.now name.now s.found))
        (counts n (O.faults out.old) (E.faults err.old)) (counts n' (O.faults out.new) (E.faults err.new))
        (observed files stores (O.written out.old) (E.written err.old)) (observed files stores (O.written out.new) (E.written err.new))
        (status_of stopped)) }
{
    let witnesses = applied.witnesses.as_slice();
    let text = report_of(alloc, patch, name.as_bytes(), witnesses)?;
    show(out, err, &text)
}

/// Prints of a file what was chosen.
fn show_file<S: Shelf, O: Sink, E: Sink>(
    alloc: Global,
    patch: &Patch,
    what: Shown,
    name: &str,
    applied: &Applied,
    outside: &mut Outside<'_, '_, '_, S, O, E>,
) -> Result<(), Stopped>
    ensures same { SamePlaces outside.old outside.new }
    ensures done { OnOk result ((unread : Unread) (s : Chained) → AnswersState unread applied.now s → Does (printed what patch.now name.now s)
        (observed (S.holds outside.old.shelf.now) (S.stores outside.old.shelf.now) (O.written outside.old.out.now) (E.written outside.old.err.now))
        (observed (S.holds outside.new.shelf.now) (S.stores outside.new.shelf.now) (O.written outside.new.out.now) (E.written outside.new.err.now))) }
    ensures later { S.faults outside.old.shelf.now ≤ S.faults outside.new.shelf.now }
    ensures later_out { O.faults outside.old.out.now ≤ O.faults outside.new.out.now }
    ensures later_err { E.faults outside.old.err.now ≤ E.faults outside.new.err.now }
    ensures stopped { IfErr result (λ stopped. (unread : Unread) (s : Chained) → AnswersState unread applied.now s → Stops (printed what patch.now name.now s)
        (counts (S.faults outside.old.shelf.now) (O.faults outside.old.out.now) (E.faults outside.old.err.now))
        (counts (S.faults outside.new.shelf.now) (O.faults outside.new.out.now) (E.faults outside.new.err.now))
        (observed (S.holds outside.old.shelf.now) (S.stores outside.old.shelf.now) (O.written outside.old.out.now) (E.written outside.old.err.now))
        (observed (S.holds outside.new.shelf.now) (S.stores outside.new.shelf.now) (O.written outside.new.out.now) (E.written outside.new.err.now)) (status_of stopped)) }
{
    match what {
        Shown::Report => show_report(alloc, patch, name, applied, outside.out, outside.err),
        Shown::Name => show_name(alloc, name, outside.out, outside.err),
        Shown::Text => show(outside.out, outside.err, &applied.bytes),
        Shown::Nothing => Ok(()),
    }
}

/// Stores the text if a store is asked for and the text differs from what was loaded.
fn store_file<S: Shelf, O: Sink, E: Sink>(
    alloc: Global,
    mode: Mode,
    name: &str,
    old: &[u8],
    text: &[u8],
    outside: &mut Outside<'_, '_, '_, S, O, E>,
) -> Result<(), Stopped>
    ensures same { SamePlaces outside.old outside.new }
    ensures done { OnOk result ((s : Chained) → s.page.bytes ≡ text.now → Does (stored_after mode name.now old.now s)
        (observed (S.holds outside.old.shelf.now) (S.stores outside.old.shelf.now) (O.written outside.old.out.now) (E.written outside.old.err.now))
        (observed (S.holds outside.new.shelf.now) (S.stores outside.new.shelf.now) (O.written outside.new.out.now) (E.written outside.new.err.now))) }
    ensures later { S.faults outside.old.shelf.now ≤ S.faults outside.new.shelf.now }
    ensures later_out { O.faults outside.old.out.now ≤ O.faults outside.new.out.now }
    ensures later_err { E.faults outside.old.err.now ≤ E.faults outside.new.err.now }
    ensures stopped { IfErr result (λ stopped. (s : Chained) → s.page.bytes ≡ text.now → Stops (stored_after mode name.now old.now s)
        (counts (S.faults outside.old.shelf.now) (O.faults outside.old.out.now) (E.faults outside.old.err.now))
        (counts (S.faults outside.new.shelf.now) (O.faults outside.new.out.now) (E.faults outside.new.err.now))
        (observed (S.holds outside.old.shelf.now) (S.stores outside.old.shelf.now) (O.written outside.old.out.now) (E.written outside.old.err.now))
        (observed (S.holds outside.new.shelf.now) (S.stores outside.new.shelf.now) (O.written outside.new.out.now) (E.written outside.new.err.now)) (status_of stopped)) }
{
    if !mode.in_place {
        return Ok(());
    }
    store_if_changed(alloc, outside.shelf, outside.err, name, old, text)
}

/// Applies the patch to a generated text, outputs the result, and returns what is known of it: whether it is refused, and
/// whether something was found. It is never hit.
///
/// The acts are, in this order: a line on the error output for each skipped item that is told of, and the summary on the output. For a refused
/// text, the only act is the line of the refusal. The lines are about the name `generated`, and have no place with `quiet`.
///
/// Costs one [`apply`](rule_chain::apply) and one [`summary`]. Stops at the first act that fails, and when out of memory.
pub fn sum<R: Threads + Sync, O: Sink, E: Sink, G: Gate>(
    workers: &Workers<'_, R, G>,
    rules: &PatchRules<'_>,
    quiet: bool,
    bytes: Vec<u8>,
    out: &mut O,
    err: &mut E,
) -> Result<Tally, Stopped>
    requires short { length bytes.items ≤ most_bytes }
    ensures treated { IfOk result (λ tally. (files : Option Files) (stores : ℕ) →
        TreatsAll (Sums rules.now.tidy rules.now.patch.now rules.now.defined.now quiet rules.now.unread generated_name bytes.items) tally
        (observed files stores (O.written out.old) (E.written err.old)) (observed files stores (O.written out.new) (E.written err.new))) }
    ensures later { O.faults out.old ≤ O.faults out.new }
    ensures later_err { E.faults err.old ≤ E.faults err.new }
    ensures stopped { IfErr result (λ stopped. (files : Option Files) (stores n n' : ℕ) →
        TreatsPart (Sums rules.now.tidy rules.now.patch.now rules.now.defined.now quiet rules.now.unread generated_name bytes.items)
        (counts n (O.faults out.old) (E.faults err.old)) (counts n' (O.faults out.new) (E.faults err.new))
        (observed files stores (O.written out.old) (E.written err.old)) (observed files stores (O.written out.new) (E.written err.new))
        (status_of stopped)) }
{
    let alloc = workers.alloc;
    let text = bytes.as_slice();
    let name = GENERATED_NAME;
    let Some(applied) = apply_or_refuse(workers, rules, quiet, name, text, err)? else {
        return Ok(Tally::of_refused());
    };
    report_skipped(alloc, err, quiet, name, text, applied.skipped.as_slice())?;
    show_summary(alloc, rules.patch, &applied, out, err)?;
    Ok(Tally {
        refused: false,
        hit: false,
        found: has_witness(&applied),
    })
}

/// Prints the summary.
fn show_summary<O: Sink, E: Sink>(
    alloc: Global,
    patch: &Patch,
    applied: &Applied,
    out: &mut O,
    err: &mut E,
) -> Result<(), Stopped>
    ensures done { OnOk result ((unread : Unread) (s : Chained) (files : Option Files) (stores : ℕ) → AnswersState unread applied.now s →
        Does (printing (lines.summary patch.now.rules s.found (length s.page.bytes)))
        (observed files stores (O.written out.old) (E.written err.old)) (observed files stores (O.written out.new) (E.written err.new))) }
    ensures later { O.faults out.old ≤ O.faults out.new }
    ensures later_err { E.faults err.old ≤ E.faults err.new }
    ensures stopped { IfErr result (λ stopped. (unread : Unread) (s : Chained) (files : Option Files) (stores n n' : ℕ) →
        AnswersState unread applied.now s →
        Stops (printing (lines.summary patch.now.rules s.found (length s.page.bytes)))
        (counts n (O.faults out.old) (E.faults err.old)) (counts n' (O.faults out.new) (E.faults err.new))
        (observed files stores (O.written out.old) (E.written err.old)) (observed files stores (O.written out.new) (E.written err.new))
        (status_of stopped)) }
{
    let text = summary(
        alloc,
        patch.rules.as_slice(),
        applied.witnesses.as_slice(),
        applied.bytes.len(),
    )?;
    show(out, err, &text)
}
