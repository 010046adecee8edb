// Texts about the program, and generated ones.
ghost use Rattle.std.specs.Prelude.{◌≤◌, ◌∷◌, [], ℕ, Option};
ghost use Rattle.outer_io.specs.Files.{Files};
ghost use Rattle.run_acts.specs.Acts.{Print, observed};
ghost use Rattle.run_acts.specs.Breaks.{counts};
ghost use Rattle.run_acts.specs.Places.{SamePlaces};
ghost use Rattle.sp_gen.specs.Generated.{generated};
ghost use Rattle.run_words.specs.Orders.{OnText};
ghost use Rattle.run_files.specs.declared.run_lines.notes.NoteLines.{NoteLines};
ghost use Rattle.run_files.specs.RunLines.Words.{said};
ghost use Rattle.run_files.specs.RunStages.Stages.{Ending, TargetLeads};
ghost use Rattle.run_files.specs.RunStages.Ends.{Ends, LeadsBy};
ghost use Rattle.spatch_run.specs.Answer.{answer};

use crate::files::end_status;
use outer_io::{Shelf, Sink};
use par_match::{Gate, Workers};
use rule_chain::PatchRules;
use run_acts::{Outside, Status, Stopped, print};
use run_files::{said, sum};
use run_words::Saying;
use sp_gen::generate;
use std::alloc::Global;
use std::thread::Threads;

/// Prints the text that is generated from a seed, with this many functions.
pub fn print_text<O: Sink, E: Sink>(
    alloc: Global,
    seed: u64,
    functions: u32,
    out: &mut O,
    err: &mut E,
) -> Result<Status, Stopped>
    ensures ends { (files : Option Files) (stores s : ℕ) → Ends (Ending (Print (generated seed functions) ∷ []) 0)
        (counts s (O.faults out.old) (E.faults err.old)) (counts s (O.faults out.new) (E.faults err.new))
        (observed files stores (O.written out.old) (E.written err.old)) (observed files stores (O.written out.new) (E.written err.new))
        (answer result) }
{
    let text = generate(alloc, seed, functions)?;
    print(out, err, &text)?;
    Ok(Status::Done)
}

/// Prints a text about the program.
pub fn say<O: Sink, E: Sink>(saying: Saying, out: &mut O, err: &mut E) -> Result<Status, Stopped>
    ensures ends { (files : Option Files) (stores s : ℕ) → Ends (Ending (Print (said saying) ∷ []) 0)
        (counts s (O.faults out.old) (E.faults err.old)) (counts s (O.faults out.new) (E.faults err.new))
        (observed files stores (O.written out.old) (E.written err.old)) (observed files stores (O.written out.new) (E.written err.new))
        (answer result) }
{
    print(out, err, said(saying).as_bytes())?;
    Ok(Status::Done)
}

/// Applies the patch to the text that is generated from a seed, with this many functions.
pub fn sum_text<R: Threads + Sync, S: Shelf, O: Sink, E: Sink, G: Gate>(
    workers: &Workers<'_, R, G>,
    rules: &PatchRules<'_>,
    seed: u64,
    functions: u32,
    quiet: bool,
    outside: &mut Outside<'_, '_, '_, S, O, E>,
) -> Result<Status, Stopped>
    requires few { functions ≤ 100000 }
    ensures same { SamePlaces outside.old outside.new }
    ensures ends { (notes : NoteLines) →
        LeadsBy (TargetLeads rules.now.patch.now notes rules.now.defined.now
        (OnText seed functions quiet rules.now.unread rules.now.tidy))
        (counts (S.faults outside.old.shelf.now) (O.faults outside.old.out.now) (E.faults outside.old.err.now))
        (counts (S.faults outside.new.shelf.now) (O.faults outside.new.out.now) (E.faults outside.new.err.now))
        (observed (S.holds outside.old.shelf.now) (S.stores outside.old.shelf.now) (O.written outside.old.out.now) (E.written outside.old.err.now))
        (observed (S.holds outside.new.shelf.now) (S.stores outside.new.shelf.now) (O.written outside.new.out.now) (E.written outside.new.err.now))
        (answer result) }
{
    let text = generate(workers.alloc, seed, functions)?;
    let tally = sum(workers, rules, quiet, text, outside.out, outside.err)?;
    Ok(end_status(tally))
}
