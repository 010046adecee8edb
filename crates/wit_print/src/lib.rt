//! The report of a file: which rules matched where, and with which values.
//!
//! [`print`] writes it out. For a rule `r` whose `* f(x);` matched the first statement of `void k(void) { f(1); }` it is
//!
//! ```text
//! file k.c
//! rule 0 r
//! at 0 2
//!  bind 2 x = 1
//!   touch 2 0 2.1
//! ```
//!
//! A [`TextBuffer`] is a text that is built piece by piece, for this report and for the lines of other crates.
//!
//! [`print`] fails only when out of memory. It recurses once per level of a forest, and once per level of a term.
#![tactic(auto)]

mod forest;
mod report;
mod rules;
mod text_buffer;

pub use rules::print;
pub use text_buffer::TextBuffer;
