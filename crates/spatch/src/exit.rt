// The status that the program exits with.
ghost use Rattle.std.specs.Prelude.{◌≡◌, IfOk, OnErr};
ghost use Rattle.std.specs.Process.{exit_status};
ghost use Rattle.spatch_run.specs.Callers.{observed, counts, IsExact, EndsRightly};

use c_terms::{NoMemory, Text};
use outer_io::{Shelf, Sink};
use par_match::Gate;
use spatch_run::{Status, run};
use std::process::ExitCode;
use std::thread::Threads;

/// Does what the words ask for, and returns the status of the run as exit code. Returns 7 if memory ran out while the words
/// were read.
pub fn exit_of<R: AllocGlobal + Threads + Sync, S: Shelf, O: Sink, E: Sink, G: Gate>(
    rt: &R,
    words: Result<Vec<Text>, NoMemory>,
    shelf: &mut S,
    out: &mut O,
    err: &mut E,
    gate: &G,
) -> ExitCode
    ensures no_words { OnErr words (exit_status result ≡ 7) }

    // Otherwise the program does what a run does, and its status is that of the run.
    ensures exact { IfOk words (λ words. IsExact words.items
        (counts (S.faults shelf.old) (O.faults out.old) (E.faults err.old))
        (counts (S.faults shelf.new) (O.faults out.new) (E.faults err.new))
        (observed (S.holds shelf.old) (S.stores shelf.old) (O.written out.old) (E.written err.old))
        (observed (S.holds shelf.new) (S.stores shelf.new) (O.written out.new) (E.written err.new))
        (exit_status result)) }
    ensures ends { IfOk words (λ words. EndsRightly words.items
        (counts (S.faults shelf.old) (O.faults out.old) (E.faults err.old))
        (counts (S.faults shelf.new) (O.faults out.new) (E.faults err.new))
        (observed (S.holds shelf.old) (S.stores shelf.old) (O.written out.old) (E.written err.old))
        (observed (S.holds shelf.new) (S.stores shelf.new) (O.written out.new) (E.written err.new))
        (exit_status result)) }
{
    match words {
        Ok(words) => ExitCode::from(run(rt, &words, shelf, out, err, gate)),
        Err(NoMemory) => ExitCode::from(Status::NoMemory.number()),
    }
}
