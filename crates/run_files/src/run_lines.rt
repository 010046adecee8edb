//! The lines on the error output, names on the output, and the summary of a generated text.
//!
//! - [`patch_fault_line`] returns a line about a patch, [`iso_fault_line`] and [`forms_line`] return lines about isomorphisms,
//!   and [`refused_line`], [`too_long_line`], [`special_line`] and [`skipped_line`] return lines about a file.
//! - [`refused_words`] returns the lines about words that are no command, and [`said`] the texts about the program.
//! - [`placed`] returns the place of a byte of a text, and [`iso_byte`] the byte of a fault in isomorphisms. A line whose place is
//!   known is followed by a further line, which names the place and says what is wrong there. Under `--quiet` nothing has a
//!   place, which [`told_place`] says.
//! - [`note_line`] returns the line of a note on a patch, and [`note_lines`] those that a run may tell ([`NoteLines`]).
//! - [`named_line`] returns the name of a file as a line of the output.
//! - [`summary`] reports what a patch finds in a generated text.
//!
//! A conflict in `k.c` is reported as `spatch: k.c: refused: conflict in rule 0 at token 8`, and then, if its token is in the
//! file that was loaded, as `  k.c:1:18: conflict in rule 0`.
#![tactic(auto)]

mod files;
mod further;
mod names;
mod notes;
mod patches;
mod sums;
mod words;

pub use files::{refused_line, skipped_line, special_line, too_long_line};
pub use further::{placed, placed_on, told_place};
pub use names::named_line;
pub use notes::{NoteLines, note_line, note_lines};
pub use patches::{forms_line, iso_byte, iso_fault_line, patch_fault_line};
pub use sums::summary;
pub use words::{refused_words, said};
