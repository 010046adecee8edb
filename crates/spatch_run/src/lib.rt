//! One run of the tool: its words, its effects outside, and its status.
//!
//! - [`run`] does what the words ask for, on a shelf of files and two sinks, and returns the status.
//! - [`Status`] has a name for each status; [`run`] returns its number.
//!
//! With the words `--sp-file p --in-place k.c` a run loads the patch `p` and the file `k.c`, and stores what the patch makes of
//! it.
//!
//! A patch and a file of isomorphisms may have at most 1,048,576 bytes each, and a file at most 16,777,216.
//!
//! Its folders:
//!
//! - `run_laws`: What holds for every run, whatever it is called with.
//! - `run_ends`: What holds for a run whose patch, isomorphisms and files are as they should be, and that words without
//!   `--tidy` have acts.
#![tactic(auto)]

ghost use Rattle.run_acts.specs.Acts.{observed};
ghost use Rattle.run_acts.specs.Breaks.{NoneFell, counts};
ghost use Rattle.run_files.specs.RunStages.Promise.{IsExact, EndsRightly};
ghost use Rattle.run_files.specs.RunStages.Causes.{Causes};

mod files;
mod host;
mod laws;
mod notes;
mod refusals;
mod run_ends;
mod run_laws;
mod stages;
mod texts;

use crate::host::Host;
use crate::run_laws::statuses_have_a_cause;
use c_terms::Text;
use outer_io::{Shelf, Sink};
use par_match::Gate;
use run_acts::Outside;
pub use run_acts::Status;
pub use run_ends::{
    jobs_leave_acts, notes_come_last, quiet_leaves_lines_out, runs_are_complete,
    unread_changes_lines, words_have_acts,
};
pub use run_laws::acts_are_one_list;
use stages::{follow_words, status_of};
use std::thread::Threads;

/// Does what the words ask for, and returns the number of the status. The words set the maximum number of concurrent jobs that
/// match items; the gate is notified of each job before it begins.
pub fn run<R: AllocGlobal + Threads + Sync, S: Shelf, O: Sink, E: Sink, G: Gate>(
    rt: &R,
    words: &[Text],
    shelf: &mut S,
    out: &mut O,
    err: &mut E,
    gate: &G,
) -> u8
    // If nothing fails, the acts done are those of these words and this shelf, and the result is their status.
    ensures exact { IsExact words.now
        (counts (S.faults shelf.old) (O.faults out.old) (E.faults err.old))
        (counts (S.faults shelf.new) (O.faults out.new) (E.faults err.new))
        (observed (S.holds shelf.old) (S.stores shelf.old) (O.written out.old) (E.written err.old))
        (observed (S.holds shelf.new) (S.stores shelf.new) (O.written out.new) (E.written err.new))
        result }

    // However it ends, all of these acts are done, or a prefix of them, and then the next one failed or memory ran out.
    ensures ends { EndsRightly words.now
        (counts (S.faults shelf.old) (O.faults out.old) (E.faults err.old))
        (counts (S.faults shelf.new) (O.faults out.new) (E.faults err.new))
        (observed (S.holds shelf.old) (S.stores shelf.old) (O.written out.old) (E.written err.old))
        (observed (S.holds shelf.new) (S.stores shelf.new) (O.written out.new) (E.written err.new))
        result }

    // No count falls.
    ensures later { NoneFell
        (counts (S.faults shelf.old) (O.faults out.old) (E.faults err.old))
        (counts (S.faults shelf.new) (O.faults out.new) (E.faults err.new)) }

    // Each status has its cause. If the shelf reveals its files and no count rises, a status that has a reason is returned, or
    // 7.
    ensures causes { Causes words.now
        (counts (S.faults shelf.old) (O.faults out.old) (E.faults err.old))
        (counts (S.faults shelf.new) (O.faults out.new) (E.faults err.new))
        (observed (S.holds shelf.old) (S.stores shelf.old) (O.written out.old) (E.written err.old))
        (observed (S.holds shelf.new) (S.stores shelf.new) (O.written out.new) (E.written err.new))
        result }
{
    // A law: does nothing. The proof of `causes` needs its contract.
    statuses_have_a_cause();
    let host = Host {
        rt,
        alloc: rt.alloc(),
        gate,
    };
    let mut outside = Outside { shelf, out, err };
    status_of(follow_words(&host, words, &mut outside)).number()
}
