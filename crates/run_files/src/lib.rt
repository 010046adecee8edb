//! Applies a patch to one text, a file or a generated one, and outputs the result.
//!
//! - [`process_file`] applies a patch to the bytes of a file and outputs the result: lines about skipped items, then the report,
//!   the name of a file that is hit or the new text on the output, then the new text on the shelf. If the file is refused, it
//!   reports only the line of the refusal.
//! - [`sum`] does the same for a generated text, and prints its summary.
//! - A [`Tally`] is what is known of the texts that a run has processed.
//! - [`refuse_long`] is for a file that is over its limit, and [`refuse_special`] for a pipe, a device or a socket.
//!
//! Under a patch with one rule whose `- f(x);` matches, the file `void k(void) { f(1); }` named `k.c` leads to one act: its new
//! text goes to the output or, with `in_place`, to the shelf.
//!
//! spatch_run decides the order of the texts and the status.
//!
//! Its folders:
//!
//! - `run_lines`: The lines on the error output, names on the output, and the summary of a generated text.
//! - `run_stages`: The stages of a run, and what a run promises: only definitions, on which the laws about them and the code of
//!   a run depend.
#![tactic(auto)]

mod applies;
mod effects;
mod hits;
mod laws;
mod process;
mod run_lines;
mod run_stages;
mod shows;
mod tally;

pub use effects::{refuse_long, refuse_special};
pub use laws::refusals_say_why;
pub use process::{process_file, sum};
pub use run_lines::{
    NoteLines, forms_line, iso_byte, iso_fault_line, note_line, note_lines, patch_fault_line,
    placed, refused_words, said, told_place,
};
pub use tally::Tally;
