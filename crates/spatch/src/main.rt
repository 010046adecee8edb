//! `spatch`: applies semantic patches to C files, and prints or stores the results.
//!
//! `main` creates the real objects, the files of the system and the standard streams, and passes them to the run together with
//! the words after the program's name. The program exits with the status of the run. The words are taken as bytes: one that
//! isn't UTF-8 makes the command line invalid, like any other fault.
#![tactic(auto)]

mod exit;
mod words;

use exit::exit_of;
use outer_io::{ErrSink, FileShelf, OutSink};
use par_match::FreeGate;
use std::process::ExitCode;
use words::words_after_name;

fn main(rt: HostRuntime) -> ExitCode {
    let words = words_after_name(&rt, rt.alloc());
    let mut shelf = FileShelf::new(&rt);
    let mut out = OutSink::new(rt.stdout());
    let mut err = ErrSink::new(rt.stderr());
    exit_of(&rt, words, &mut shelf, &mut out, &mut err, &FreeGate)
}
