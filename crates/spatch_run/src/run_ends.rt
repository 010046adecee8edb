//! What holds for a run whose patch, isomorphisms and files are as they should be, and that words without `--tidy` have acts.
//!
//! - [`words_have_acts`]: it is impossible that some words without `--tidy` have no list of acts, whatever the shelf reveals.
//! - [`runs_are_complete`]: if the patch and its isomorphisms are read and each file is present, a run returns 4 when some file
//!   is refused, or else 8 when under `--check` some file is hit, or else 0, unless it runs out of memory.
//! - [`jobs_leave_acts`]: words that differ only in their jobs have the same acts.
//! - [`quiet_leaves_lines_out`]: words that ask for the same with `--quiet` have the same acts, but for lines that begin with
//!   two blanks.
//! - [`unread_changes_lines`]: words with `--unread` have the acts that they have without, but for lines of items that can't be
//!   read, some of which are left out.
//! - [`notes_come_last`]: the notes of a run are its last acts, and its status is 0 or 8 then.
//!
//! The functions do nothing.
#![tactic(auto)]

mod jobs;
mod laws;
mod notes;
mod quiet;
mod unread;

pub use jobs::jobs_leave_acts;
pub use laws::{runs_are_complete, words_have_acts};
pub use notes::notes_come_last;
pub use quiet::quiet_leaves_lines_out;
pub use unread::unread_changes_lines;
