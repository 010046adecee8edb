// The files in turn.
ghost use Rattle.std.specs.Prelude.{◌≡◌, [], List, ℕ, map, IfOk, IfErr};
ghost use Rattle.run_acts.specs.Acts.{observed};
ghost use Rattle.run_acts.specs.Breaks.{counts, NoneFell};
ghost use Rattle.run_acts.specs.Places.{SamePlaces};
ghost use Rattle.run_acts.specs.Statuses.{number_of, status_of};
ghost use Rattle.run_files.specs.RunStages.Stages.{Course, Doing, EditFiles, first_course, going, end_status};
ghost use Rattle.spatch_run.specs.Turns.{TurnsTo};
ghost use Rattle.run_files.specs.RunStages.Ends.{Ends};
ghost use Rattle.spatch_run.specs.Answer.{answer};

use crate::notes::tell;
use crate::refusals::refuse_absent;
use c_lexer::MOST_BYTES;
use outer_io::{Shelf, Sink};
use par_match::{Gate, Workers};
use rule_chain::PatchRules;
use run_acts::{Loaded, Outside, Status, Stopped, load};
use run_files::{NoteLines, Tally, process_file, refuse_long, refuse_special};
use run_words::Mode;
use std::thread::Threads;

const FILE_LIMIT: u64 = MOST_BYTES as u64;

/// Returns the status at the end: whether something was refused, or else whether something was hit.
pub fn end_status(tally: Tally) -> Status
    ensures { number_of result ≡ end_status tally }
{
    if tally.refused {
        return Status::FileRefused;
    }
    if tally.hit {
        return Status::Found;
    }
    Status::Done
}

/// The outcome of a file's turn: what it adds to the tally, or that nothing is stored under its name.
#[derive(Clone, Copy, Debug, PartialEq, Eq)]
pub enum Turn {
    Processed(Tally),
    Absent,
}

/// Loads a file and processes it. A pipe, a device or a socket is refused and not loaded.
fn take_turn<R: Threads + Sync, S: Shelf, O: Sink, E: Sink, G: Gate>(
    workers: &Workers<'_, R, G>,
    rules: &PatchRules<'_>,
    mode: Mode,
    name: &str,
    outside: &mut Outside<'_, '_, '_, S, O, E>,
) -> Result<Turn, Stopped>
    requires unread { rules.now.unread ≡ mode.unread }
    requires tidy { rules.now.tidy ≡ mode.tidy }
    ensures same { SamePlaces outside.old outside.new }
    ensures turned { IfOk result (λ turned. TurnsTo turned rules.now.patch.now rules.now.defined.now mode name.now
        (observed (S.holds outside.old.shelf.now) (S.stores outside.old.shelf.now) (O.written outside.old.out.now) (E.written outside.old.err.now))
        (observed (S.holds outside.new.shelf.now) (S.stores outside.new.shelf.now) (O.written outside.new.out.now) (E.written outside.new.err.now))) }
    ensures fell { NoneFell
        (counts (S.faults outside.old.shelf.now) (O.faults outside.old.out.now) (E.faults outside.old.err.now))
        (counts (S.faults outside.new.shelf.now) (O.faults outside.new.out.now) (E.faults outside.new.err.now)) }
    ensures stopped { IfErr result (λ stopped. (names : List (List ℕ)) (course : Course) →
        Ends (Doing [] (EditFiles rules.now.patch.now rules.now.defined.now mode name.now names course))
        (counts (S.faults outside.old.shelf.now) (O.faults outside.old.out.now) (E.faults outside.old.err.now))
        (counts (S.faults outside.new.shelf.now) (O.faults outside.new.out.now) (E.faults outside.new.err.now))
        (observed (S.holds outside.old.shelf.now) (S.stores outside.old.shelf.now) (O.written outside.old.out.now) (E.written outside.old.err.now))
        (observed (S.holds outside.new.shelf.now) (S.stores outside.new.shelf.now) (O.written outside.new.out.now) (E.written outside.new.err.now))
        (status_of stopped)) }
{
    let alloc = workers.alloc;
    if outside.shelf.is_special(name) {
        refuse_special(alloc, outside.err, name)?;
        return Ok(Turn::Processed(Tally::of_refused()));
    }
    let bytes = match load(alloc, outside.shelf, outside.err, name, FILE_LIMIT)? {
        Loaded::Bytes(bytes) => bytes,
        Loaded::TooLong => {
            refuse_long(alloc, outside.err, name)?;
            return Ok(Turn::Processed(Tally::of_refused()));
        }
        Loaded::Absent => return Ok(Turn::Absent),
    };
    let tally = process_file(workers, rules, mode, name, bytes, outside)?;
    Ok(Turn::Processed(tally))
}

/// Loads and processes the files in turn, up to the last one or to a name under which nothing is stored. After the last one,
/// lines of the notes on the patch are reported if nothing was refused.
pub fn edit_files<R: Threads + Sync, S: Shelf, O: Sink, E: Sink, G: Gate>(
    workers: &Workers<'_, R, G>,
    rules: &PatchRules<'_>,
    mode: Mode,
    names: &[&str],
    notes: &NoteLines,
    outside: &mut Outside<'_, '_, '_, S, O, E>,
) -> Result<Status, Stopped>
    requires unread { rules.now.unread ≡ mode.unread }
    requires tidy { rules.now.tidy ≡ mode.tidy }
    ensures same { SamePlaces outside.old outside.new }
    ensures ends { Ends (going [] rules.now.patch.now rules.now.defined.now mode (map (λ name. name.now) names.now)
        (first_course notes.now))
        (counts (S.faults outside.old.shelf.now) (O.faults outside.old.out.now) (E.faults outside.old.err.now))
        (counts (S.faults outside.new.shelf.now) (O.faults outside.new.out.now) (E.faults outside.new.err.now))
        (observed (S.holds outside.old.shelf.now) (S.stores outside.old.shelf.now) (O.written outside.old.out.now) (E.written outside.old.err.now))
        (observed (S.holds outside.new.shelf.now) (S.stores outside.new.shelf.now) (O.written outside.new.out.now) (E.written outside.new.err.now))
        (answer result) }
{
    let mut tally = Tally::none();
    for name in names {
        match take_turn(workers, rules, mode, name, outside)? {
            Turn::Absent => return refuse_absent(workers.alloc, outside.err, name),
            Turn::Processed(here) => tally = tally.join(here),
        }
    }
    tell(outside.err, tally, notes)?;
    Ok(end_status(tally))
}
